//! The rows that say what the tables of an export are.
ghost use Rattle.std.specs.Prelude.{◌≡◌, IfOk, IsTrue, string_bytes};
ghost use Rattle.sheet_types.specs.Matrix.{is_good_frame};
ghost use Rattle.view_export.specs.FixedRows.{attributes_row, bounds, contents, contents_row, extensions, fixed_rows};
ghost use Rattle.view_export.specs.FixedRows.{geometry_column, geometry_columns, is_standard, layers, matrix_set};
ghost use Rattle.view_export.specs.FixedRows.{numbered_system, other_tables, own_system, reference_systems, relations};
ghost use Rattle.view_export.specs.FixedRows.{undefined_cartesian, undefined_geographic, wgs_84};

use crate::literals::Thousandths;
use crate::matrices::matrices;
use sheet_types::frame::Frame;
use std::alloc::{AllocError, Global};
use uuid::Uuid;

fn undefined_cartesian() -> &'static str
    ensures { result.now ≡ undefined_cartesian }
{
    "INSERT INTO gpkg_spatial_ref_sys VALUES ('Undefined Cartesian SRS',-1,'NONE',-1,'undefined','undefined Cartesian coordinate reference system');\n"
}

fn undefined_geographic() -> &'static str
    ensures { result.now ≡ undefined_geographic }
{
    "INSERT INTO gpkg_spatial_ref_sys VALUES ('Undefined geographic SRS',0,'NONE',0,'undefined','undefined geographic coordinate reference system');\n"
}

fn wgs_84() -> &'static str
    ensures { result.now ≡ wgs_84 }
{
    "INSERT INTO gpkg_spatial_ref_sys VALUES ('WGS 84 geodetic',4326,'EPSG',4326,'GEOGCS[\"WGS 84\",DATUM[\"WGS_1984\",SPHEROID[\"WGS 84\",6378137,298.257223563,AUTHORITY[\"EPSG\",\"7030\"]],AUTHORITY[\"EPSG\",\"6326\"]],PRIMEM[\"Greenwich\",0,AUTHORITY[\"EPSG\",\"8901\"]],UNIT[\"degree\",0.0174532925199433,AUTHORITY[\"EPSG\",\"9122\"]],AUTHORITY[\"EPSG\",\"4326\"]]','longitude/latitude coordinates in decimal degrees on the WGS 84 spheroid');\n"
}

/// Whether each GeoPackage has the reference system of this frame.
fn is_standard(frame: &Frame) -> bool
    ensures { result ≡ is_standard frame.now.srs_id }
{
    let srs_id = frame.srs_id;
    srs_id == -1 || srs_id == 0 || srs_id == 4326
}

/// A reference system that the register knows by its number alone.
fn numbered_system(alloc: Global, frame: &Frame) -> Result<String, AllocError>
    ensures { IfOk result (λ text. string_bytes text ≡ numbered_system frame.now.srs_id) }
{
    let srs_id = frame.srs_id;
    let name = format!(in alloc; "'EPSG:{srs_id}'")?;
    format!(in alloc;
        "INSERT INTO gpkg_spatial_ref_sys VALUES ({name},{srs_id},'EPSG',{srs_id},'undefined',NULL);\n"
    )
}

/// The reference system of the frame, where it is none that each GeoPackage has.
fn own_system(alloc: Global, frame: &Frame) -> Result<String, AllocError>
    ensures { IfOk result (λ text. string_bytes text ≡ own_system frame.now.srs_id) }
{
    if is_standard(frame) {
        Ok(String::new(alloc))
    } else {
        numbered_system(alloc, frame)
    }
}

/// The reference systems (OGC GeoPackage 1.3, 1.1.2).
fn reference_systems(alloc: Global, frame: &Frame) -> Result<String, AllocError>
    ensures { IfOk result (λ text. string_bytes text ≡ reference_systems frame.now.srs_id) }
{
    let cartesian = undefined_cartesian();
    let geographic = undefined_geographic();
    let wgs_84 = wgs_84();
    let own = own_system(alloc, frame)?;
    format!(in alloc; "{cartesian}{geographic}{wgs_84}{own}")
}

/// A frame's bounds and reference system, with commas between them.
fn bounds(alloc: Global, frame: &Frame) -> Result<String, AllocError>
    ensures { IfOk result (λ text. string_bytes text ≡ bounds frame.now) }
{
    let west = Thousandths(frame.min_x);
    let south = Thousandths(frame.min_y);
    let east = Thousandths(frame.max_x);
    let north = Thousandths(frame.max_y);
    let srs_id = frame.srs_id;
    format!(in alloc; "{west},{south},{east},{north},{srs_id}")
}

/// A table of this type, both between apostrophes, with its bounds (1.1.3).
fn contents_row(
    alloc: Global,
    name: &str,
    kind: &str,
    package: Uuid,
    bounds: &str,
) -> Result<String, AllocError>
    ensures { IfOk result (λ text. string_bytes text ≡ contents_row name.now kind.now «package» bounds.now) }
{
    let description = format!(in alloc; "'package {package}'")?;
    format!(in alloc;
        "INSERT INTO gpkg_contents (table_name,data_type,identifier,description,min_x,min_y,max_x,max_y,srs_id) VALUES ({name},{kind},{name},{description},{bounds});\n"
    )
}

/// The tables that are drawn on a map.
fn layers(alloc: Global, frame: &Frame, package: Uuid) -> Result<String, AllocError>
    ensures { IfOk result (λ text. string_bytes text ≡ layers frame.now «package») }
{
    let ends = bounds(alloc, frame)?;
    let ends = ends.as_str();
    let tiles = contents_row(alloc, "'sheet_tiles'", "'tiles'", package, ends)?;
    let rows = contents_row(alloc, "'sheet_rows'", "'features'", package, ends)?;
    let outlines = contents_row(alloc, "'sheet_tile_identity'", "'features'", package, ends)?;
    format!(in alloc; "{tiles}{rows}{outlines}")
}

/// A table without geometry, its name between apostrophes.
fn attributes_row(alloc: Global, name: &str, package: Uuid) -> Result<String, AllocError>
    ensures { IfOk result (λ text. string_bytes text ≡ attributes_row name.now «package») }
{
    contents_row(
        alloc,
        name,
        "'attributes'",
        package,
        "NULL,NULL,NULL,NULL,NULL",
    )
}

/// The tables without geometry. QGIS opens none that has no row here.
fn other_tables(alloc: Global, package: Uuid) -> Result<String, AllocError>
    ensures { IfOk result (λ text. string_bytes text ≡ other_tables «package») }
{
    let media = attributes_row(alloc, "'sheet_media'", package)?;
    let tiles_media = attributes_row(alloc, "'tiles_media'", package)?;
    let rows_media = attributes_row(alloc, "'rows_media'", package)?;
    let rows_tiles = attributes_row(alloc, "'rows_tiles'", package)?;
    let styles = attributes_row(alloc, "'layer_styles'", package)?;
    format!(in alloc; "{media}{tiles_media}{rows_media}{rows_tiles}{styles}")
}

/// The tables that hold a package.
fn contents(alloc: Global, frame: &Frame, package: Uuid) -> Result<String, AllocError>
    ensures { IfOk result (λ text. string_bytes text ≡ contents frame.now «package») }
{
    let layers = layers(alloc, frame, package)?;
    let others = other_tables(alloc, package)?;
    format!(in alloc; "{layers}{others}")
}

/// A column of geometries of this type without height and measure (2.1.5), the table and the type between apostrophes.
fn geometry_column(
    alloc: Global,
    name: &str,
    kind: &str,
    frame: &Frame,
) -> Result<String, AllocError>
    ensures { IfOk result (λ text. string_bytes text ≡ geometry_column name.now kind.now frame.now.srs_id) }
{
    let srs_id = frame.srs_id;
    format!(in alloc;
        "INSERT INTO gpkg_geometry_columns VALUES ({name},'geom',{kind},{srs_id},0,0);\n"
    )
}

/// The points of rows, and the outlines of tiles.
fn geometry_columns(alloc: Global, frame: &Frame) -> Result<String, AllocError>
    ensures { IfOk result (λ text. string_bytes text ≡ geometry_columns frame.now.srs_id) }
{
    let points = geometry_column(alloc, "'sheet_rows'", "'POINT'", frame)?;
    let outlines = geometry_column(alloc, "'sheet_tile_identity'", "'POLYGON'", frame)?;
    format!(in alloc; "{points}{outlines}")
}

/// The tile matrix set (2.2.6).
fn matrix_set(alloc: Global, frame: &Frame) -> Result<String, AllocError>
    ensures { IfOk result (λ text. string_bytes text ≡ matrix_set frame.now) }
{
    let srs_id = frame.srs_id;
    let west = Thousandths(frame.min_x);
    let south = Thousandths(frame.min_y);
    let east = Thousandths(frame.max_x);
    let north = Thousandths(frame.max_y);
    format!(in alloc;
        "INSERT INTO gpkg_tile_matrix_set VALUES ('sheet_tiles',{srs_id},{west},{south},{east},{north});\n"
    )
}

/// The tables that the extension of related tables speaks of (2.3.2; OGC 18-000).
fn extensions() -> &'static str
    ensures { result.now ≡ extensions }
{
    "INSERT INTO gpkg_extensions VALUES ('gpkgext_relations',NULL,'gpkg_related_tables','http://www.geopackage.org/18-000.html','read-write');\nINSERT INTO gpkg_extensions VALUES ('tiles_media',NULL,'gpkg_related_tables','http://www.geopackage.org/18-000.html','read-write');\nINSERT INTO gpkg_extensions VALUES ('rows_media',NULL,'gpkg_related_tables','http://www.geopackage.org/18-000.html','read-write');\nINSERT INTO gpkg_extensions VALUES ('rows_tiles',NULL,'gpkg_related_tables','http://www.geopackage.org/18-000.html','read-write');\n"
}

/// What each mapping table relates (OGC 18-000).
fn relations() -> &'static str
    ensures { result.now ≡ relations }
{
    "INSERT INTO gpkgext_relations VALUES (1,'sheet_tiles','id','sheet_media','id','media','tiles_media');\nINSERT INTO gpkgext_relations VALUES (2,'sheet_rows','id','sheet_media','id','media','rows_media');\nINSERT INTO gpkgext_relations VALUES (3,'sheet_rows','id','sheet_tiles','id','tiles','rows_tiles');\n"
}

/// The fixed rows of a package of this frame.
///
/// # Errors
///
/// Want of memory.
pub fn fixed_rows(alloc: Global, frame: &Frame, package: Uuid) -> Result<String, AllocError>
    requires { IsTrue (is_good_frame frame.now) }
    ensures { IfOk result (λ text. string_bytes text ≡ fixed_rows frame.now «package») }
{
    let systems = reference_systems(alloc, frame)?;
    let contents = contents(alloc, frame, package)?;
    let columns = geometry_columns(alloc, frame)?;
    let set = matrix_set(alloc, frame)?;
    let matrices = matrices(alloc, frame)?;
    let extensions = extensions();
    let relations = relations();
    format!(in alloc; "{systems}{contents}{columns}{set}{matrices}{extensions}{relations}")
}
