//! The tables of another program's file, under the names that are read.
ghost use Rattle.std.specs.Prelude.{◌≡◌, IfOk, string_bytes};
ghost use Rattle.std.specs.Option.{option_map};
ghost use Rattle.field_sql.specs.Stock.{no_points, no_register, no_tiles, points_of, points_or_none, rows_of};
ghost use Rattle.field_sql.specs.Stock.{system_of, tiles_of, tiles_or_none};

use crate::naming::{identifier, literal};
use std::alloc::{AllocError, Global};

/// Where the points of a file are: their table, and its columns of geometries, codes and labels.
#[derive(Clone, Copy)]
pub struct Points<'t> {
    /// The table.
    pub table: &'t str,
    /// Its column of geometries.
    pub geometry: &'t str,
    /// Its column of codes.
    pub code: &'t str,
    /// Its column of labels.
    pub label: &'t str,
}

/// Package, identities, media and links, which no other program's file has.
pub(crate) fn no_register() -> &'static str
    ensures { result.now ≡ no_register }
{
    "CREATE TEMP VIEW sheet_export AS SELECT '' AS package, 0 AS ticket WHERE 0;
CREATE TEMP VIEW sheet_tile_identity AS
SELECT 0 AS id, 0 AS zoom_level, 0 AS tile_column, 0 AS tile_row WHERE 0;
CREATE TEMP VIEW sheet_media AS
SELECT 0 AS id, x'' AS data, '' AS content_type, '' AS uuid WHERE 0;
CREATE TEMP VIEW tiles_media AS SELECT 0 AS base_id, 0 AS related_id WHERE 0;
CREATE TEMP VIEW rows_media AS SELECT 0 AS base_id, 0 AS related_id WHERE 0;
CREATE TEMP VIEW rows_tiles AS SELECT 0 AS base_id, 0 AS related_id WHERE 0;
"
}

fn no_tiles() -> &'static str
    ensures { result.now ≡ no_tiles }
{
    "CREATE TEMP VIEW sheet_matrix_set AS
SELECT 0 AS srs_id, 0.0 AS min_x, 0.0 AS min_y, 0.0 AS max_x, 0.0 AS max_y WHERE 0;
CREATE TEMP VIEW sheet_matrix AS
SELECT 0 AS zoom_level, 0 AS matrix_width, 0 AS matrix_height, 0 AS tile_width, 0 AS tile_height,
  0.0 AS pixel_x_size, 0.0 AS pixel_y_size WHERE 0;
CREATE TEMP VIEW sheet_tiles AS
SELECT 0 AS id, 0 AS zoom_level, 0 AS tile_column, 0 AS tile_row, x'' AS tile_data WHERE 0;
"
}

/// The pyramid of a table.
fn tiles_of(alloc: Global, table: &str) -> Result<String, AllocError>
    ensures { IfOk result (λ text. string_bytes text ≡ tiles_of table.now) }
{
    let word = literal(alloc, table)?;
    let name = identifier(alloc, table)?;
    format!(in alloc;
        "CREATE TEMP VIEW sheet_matrix_set AS\nSELECT * FROM main.gpkg_tile_matrix_set WHERE table_name = {word} COLLATE NOCASE;\nCREATE TEMP VIEW sheet_matrix AS\nSELECT * FROM main.gpkg_tile_matrix WHERE table_name = {word} COLLATE NOCASE;\nCREATE TEMP VIEW sheet_tiles AS\nSELECT t.id, t.zoom_level, t.tile_column, t.tile_row, t.tile_data FROM main.{name} t;\n"
    )
}

pub(crate) fn tiles_or_none(alloc: Global, tiles: Option<&str>) -> Result<String, AllocError>
    ensures { IfOk result (λ text. string_bytes text ≡ tiles_or_none (option_map (λ t. t.now) tiles.entry)) }
{
    match tiles {
        Some(table) => tiles_of(alloc, table),
        None => String::from_str(alloc, no_tiles()),
    }
}

fn no_points() -> &'static str
    ensures { result.now ≡ no_points }
{
    "CREATE TEMP VIEW sheet_points_system AS SELECT 0 AS srs_id WHERE 0;
CREATE TEMP VIEW sheet_rows AS
SELECT 0 AS id, x'' AS geom, 0 AS code, '' AS label, '' AS uuid WHERE 0;
"
}

/// The reference system of a column of geometries.
fn system_of(alloc: Global, table: &str, geometry: &str) -> Result<String, AllocError>
    ensures { IfOk result (λ text. string_bytes text ≡ system_of table.now geometry.now) }
{
    let word = literal(alloc, table)?;
    let column = literal(alloc, geometry)?;
    format!(in alloc;
        "CREATE TEMP VIEW sheet_points_system AS\nSELECT srs_id FROM main.gpkg_geometry_columns WHERE table_name = {word} COLLATE NOCASE\n  AND column_name = {column} COLLATE NOCASE;\n"
    )
}

/// The points with their codes and labels.
fn rows_of(
    alloc: Global,
    table: &str,
    geometry: &str,
    code: &str,
    label: &str,
) -> Result<String, AllocError>
    ensures { IfOk result (λ text. string_bytes text
        ≡ rows_of table.now geometry.now code.now label.now) }
{
    let geometry = identifier(alloc, geometry)?;
    let code = identifier(alloc, code)?;
    let label = identifier(alloc, label)?;
    let name = identifier(alloc, table)?;
    format!(in alloc;
        "CREATE TEMP VIEW sheet_rows AS\nSELECT t.rowid AS id, t.{geometry} AS geom, t.{code} AS code, t.{label} AS label, NULL AS uuid FROM main.{name} t;\n"
    )
}

fn points_of(alloc: Global, points: &Points<'_>) -> Result<String, AllocError>
    ensures { IfOk result (λ text. string_bytes text ≡ points_of points.now) }
{
    let system = system_of(alloc, points.table, points.geometry)?;
    let rows = rows_of(
        alloc,
        points.table,
        points.geometry,
        points.code,
        points.label,
    )?;
    format!(in alloc; "{system}{rows}")
}

pub(crate) fn points_or_none(
    alloc: Global,
    points: Option<&Points<'_>>,
) -> Result<String, AllocError>
    ensures { IfOk result (λ text. string_bytes text ≡ points_or_none (option_map (λ p. p.now) points.entry)) }
{
    match points {
        Some(points) => points_of(alloc, points),
        None => String::from_str(alloc, no_points()),
    }
}
