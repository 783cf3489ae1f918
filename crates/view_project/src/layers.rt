//! The layers of a project: tables of the export as vectors, and its sheets as a picture.
ghost use Rattle.std.specs.Prelude.{◌≡◌, IfOk, string_bytes};
ghost use Rattle.view_project.specs.Layers.{attributes, drawing, layer_of, layers, links, marks, outlines, sheets};
ghost use Rattle.view_project.specs.Layers.{source, tables};

use crate::styles::{
    marks_of_sheets_style, marks_style, media_of_marks_style, media_of_sheets_style, media_style,
    outlines_style,
};
use std::alloc::{AllocError, Global};

/// A table of an export as a layer.
#[derive(Clone, Copy)]
struct Layer<'t> {
    /// The table.
    table: &'t str,
    /// How the layer is called.
    title: &'t str,
    /// What is drawn of a row, as `Point`.
    geometry: &'t str,
    /// How it is drawn and edited.
    style: &'t str,
}

/// What a layer is, and which table of the file of this name it shows.
fn source(alloc: Global, table: &str, geometry: &str, file: &str) -> Result<String, AllocError>
    ensures { IfOk result (λ text. string_bytes text ≡ source table.now geometry.now file.now) }
{
    format!(in alloc;
        "<maplayer type=\"vector\" geometry=\"{geometry}\"><id>layer_{table}</id><datasource>./{file}|layername={table}</datasource>"
    )
}

/// How a layer is called, where it lies, and how it is drawn and edited.
fn drawing(alloc: Global, title: &str, style: &str, system: &str) -> Result<String, AllocError>
    ensures { IfOk result (λ text. string_bytes text ≡ drawing title.now style.now system.now) }
{
    format!(in alloc;
        "<layername>{title}</layername><srs>{system}</srs><provider encoding=\"UTF-8\">ogr</provider>{style}</maplayer>\n"
    )
}

/// A table of the file of this name as a layer, in this reference system.
fn vector_layer(
    alloc: Global,
    layer: &Layer<'_>,
    file: &str,
    system: &str,
) -> Result<String, AllocError>
    ensures { IfOk result (λ text. string_bytes text ≡ layer_of layer.now file.now system.now) }
{
    let source = source(alloc, layer.table, layer.geometry, file)?;
    let drawing = drawing(alloc, layer.title, layer.style, system)?;
    format!(in alloc; "{source}{drawing}")
}

/// The marks.
fn marks(alloc: Global, file: &str, system: &str) -> Result<String, AllocError>
    ensures { IfOk result (λ text. string_bytes text ≡ marks file.now system.now) }
{
    let layer = Layer {
        table: "sheet_rows",
        title: "Marks",
        geometry: "Point",
        style: marks_style(),
    };
    vector_layer(alloc, &layer, file, system)
}

/// The outlines of the sheets: a click on one gives the number that a link wants.
fn outlines(alloc: Global, file: &str, system: &str) -> Result<String, AllocError>
    ensures { IfOk result (λ text. string_bytes text ≡ outlines file.now system.now) }
{
    let layer = Layer {
        table: "sheet_tile_identity",
        title: "Outlines of the sheets",
        geometry: "Polygon",
        style: outlines_style(),
    };
    vector_layer(alloc, &layer, file, system)
}

/// A table without geometry.
fn attributes(
    alloc: Global,
    table: &str,
    title: &str,
    style: &str,
    file: &str,
) -> Result<String, AllocError>
    ensures { IfOk result (λ text. string_bytes text ≡ attributes table.now title.now style.now file.now) }
{
    let layer = Layer {
        table,
        title,
        geometry: "No geometry",
        style,
    };
    vector_layer(alloc, &layer, file, "")
}

/// Marks, outlines and media.
fn tables(alloc: Global, file: &str, system: &str) -> Result<String, AllocError>
    ensures { IfOk result (λ text. string_bytes text ≡ tables file.now system.now) }
{
    let marks = marks(alloc, file, system)?;
    let outlines = outlines(alloc, file, system)?;
    let media = attributes(
        alloc,
        "sheet_media",
        "Photographs and other media",
        media_style(),
        file,
    )?;
    format!(in alloc; "{marks}{outlines}{media}")
}

/// The links of each mapping.
fn links(alloc: Global, file: &str) -> Result<String, AllocError>
    ensures { IfOk result (λ text. string_bytes text ≡ links file.now) }
{
    let of_marks = attributes(
        alloc,
        "rows_media",
        "Media of marks",
        media_of_marks_style(),
        file,
    )?;
    let of_sheets = attributes(
        alloc,
        "tiles_media",
        "Media of sheets",
        media_of_sheets_style(),
        file,
    )?;
    let marks = attributes(
        alloc,
        "rows_tiles",
        "Marks of sheets",
        marks_of_sheets_style(),
        file,
    )?;
    format!(in alloc; "{of_marks}{of_sheets}{marks}")
}

/// The sheets, as one picture.
fn sheets(alloc: Global, file: &str, system: &str) -> Result<String, AllocError>
    ensures { IfOk result (λ text. string_bytes text ≡ sheets file.now system.now) }
{
    format!(in alloc;
        "<maplayer type=\"raster\"><id>layer_sheet_tiles</id><datasource>./{file}</datasource><layername>Sheets</layername><srs>{system}</srs><provider>gdal</provider></maplayer>\n"
    )
}

/// All layers of the file of this name, which is fit for the text of an element. Those that are
/// drawn are in this reference system.
///
/// # Errors
///
/// Want of memory.
pub fn layers(alloc: Global, file: &str, system: &str) -> Result<String, AllocError>
    ensures { IfOk result (λ text. string_bytes text ≡ layers file.now system.now) }
{
    let tables = tables(alloc, file, system)?;
    let links = links(alloc, file)?;
    let sheets = sheets(alloc, file, system)?;
    format!(in alloc; "{tables}{links}{sheets}")
}
