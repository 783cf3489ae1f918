//! The rows of a package's tables, a struct a table, each field a column of the same name.
use sheet_types::collections::{Bytes, Text};

/// A row of `sheet_tiles` (OGC GeoPackage 1.3, 2.2.8, tile pyramid user data tables).
#[derive(Drop)]
pub struct TileRow {
    /// Its local number, from 1 to 1,000,000 (profile).
    pub id: i64,
    /// The zoom, of `gpkg_tile_matrix`.
    pub zoom_level: i64,
    /// The column, counted from the west, from 0.
    pub tile_column: i64,
    /// The row, counted from the north, from 0.
    pub tile_row: i64,
    /// The bytes of the image.
    pub tile_data: Bytes,
}

/// A row of `sheet_media` (OGC 18-000, media tables).
#[derive(Drop)]
pub struct MediaRow {
    /// Its local number, from 1 to 1,000,000 (profile).
    pub id: i64,
    /// The bytes of the medium.
    pub data: Bytes,
    /// The content type of the bytes.
    pub content_type: Text,
}

/// A row of `sheet_rows` (OGC GeoPackage 1.3, 2.4.2, attributes user data tables). Coordinates are
/// thousandths of the frame's unit (profile).
#[derive(Drop)]
pub struct AttributeRow {
    /// Its local number, from 1 to 1,000,000 (profile).
    pub id: i64,
    /// Towards the east, in thousandths of a unit.
    pub x: i64,
    /// Towards the north, in thousandths of a unit.
    pub y: i64,
    /// A code (profile).
    pub code: i64,
    /// A label (profile).
    pub label: Text,
}

/// A row of a mapping table (OGC 18-000, user-defined mapping tables).
#[derive(Clone, Copy, PartialEq, Eq)]
pub struct MappingRow {
    /// The `id` of the tile or row.
    pub base_id: i64,
    /// The `id` of the medium.
    pub related_id: i64,
}

/// A row of `sheet_identity`: which lasting identity a row of a user table has (profile). Kinds are
/// 1 tile, 2 medium, 3 row.
#[derive(Drop)]
pub struct IdentityRow {
    /// The kind of the item, which says of which table the row is.
    pub kind: i64,
    /// The `id` of the row there.
    pub local_id: i64,
    /// The lasting identity, as 36 characters (RFC 9562, section 4).
    pub uuid: Text,
}

/// A row of `sheet_receipts` (profile). `source` and `target` are empty where there is none.
#[derive(Drop)]
pub struct ReceiptRow {
    /// Its number, from 1.
    pub seq: i64,
    /// The identity of the request, as 36 characters (RFC 9562, section 4).
    pub request: Text,
    /// The moment of the request.
    pub at: Text,
    /// The line of the request.
    pub line: Text,
    /// The identity of the package that things left.
    pub source: Text,
    /// The identity of the package that things came to.
    pub target: Text,
    /// How many tiles moved.
    pub n_tiles: i64,
    /// How many media moved.
    pub n_media: i64,
    /// How many rows moved.
    pub n_rows: i64,
    /// How many links moved.
    pub n_links: i64,
    /// The bytes that the items count for.
    pub n_bytes: i64,
}

/// A row of `sheet_items`: one thing that a receipt moved (profile). `other` and `fingerprint` are
/// empty where there is none.
#[derive(Drop)]
pub struct MovedRow {
    /// The number of the receipt.
    pub seq: i64,
    /// Its place in the receipt, from 0.
    pub position: i64,
    /// 1 tile, 2 medium, 3 row, 4 link of a tile, 5 link of a row.
    pub kind: i64,
    /// The identity of the item, or of the link's base.
    pub base: Text,
    /// The identity of the link's medium.
    pub other: Text,
    /// The bytes that the item counts for; 0 of a link.
    pub size: i64,
    /// The SHA-256 of the item's content, in hexadecimal (FIPS 180-4, 6.2).
    pub fingerprint: Text,
}

/// The row of `sheet_package` (profile). `parent` is empty for the archive.
#[derive(Drop)]
pub struct HeadRow {
    /// Always 1.
    pub id: i64,
    /// The version of this profile, 1.
    pub version: i64,
    /// The identity of the package, as 36 characters (RFC 9562, section 4).
    pub package: Text,
    /// The identity of the package that it was lent from.
    pub parent: Text,
    /// How many loans it is below the archive, 0 or 1.
    pub depth: i64,
    /// The number of its loan, 0 of the archive.
    pub loan: i64,
    /// The moment at which it was made.
    pub created: Text,
}

/// A row of `gpkg_spatial_ref_sys` (OGC GeoPackage 1.3, 1.1.2, spatial reference systems).
#[derive(Drop)]
pub struct SpatialRefSysRow {
    /// A name for people.
    pub srs_name: Text,
    /// The number by which other tables name it.
    pub srs_id: i64,
    /// Who defines it, or `NONE`.
    pub organization: Text,
    /// Its number there.
    pub organization_coordsys_id: i64,
    /// Its well-known text; here `undefined` or `profile`.
    pub definition: Text,
    /// A description for people.
    pub description: Text,
}

/// A row of `gpkg_contents` (OGC GeoPackage 1.3, 1.1.3, contents). Bounds are thousandths of the
/// frame's unit (profile).
#[derive(Drop)]
pub struct ContentsRow {
    /// The name of the table.
    pub table_name: Text,
    /// `tiles` or `attributes`.
    pub data_type: Text,
    /// A name for people.
    pub identifier: Text,
    /// A description for people.
    pub description: Text,
    /// The moment of the last change.
    pub last_change: Text,
    /// The west edge, in thousandths.
    pub min_x: i64,
    /// The south edge, in thousandths.
    pub min_y: i64,
    /// The east edge, in thousandths.
    pub max_x: i64,
    /// The north edge, in thousandths.
    pub max_y: i64,
    /// The number of the reference system.
    pub srs_id: i64,
}

/// A row of `gpkg_tile_matrix_set` (OGC GeoPackage 1.3, 2.2.6, tile matrix set). Bounds are
/// thousandths of the frame's unit (profile).
#[derive(Drop)]
pub struct TileMatrixSetRow {
    /// The name of the table of tiles.
    pub table_name: Text,
    /// The number of the reference system.
    pub srs_id: i64,
    /// The west edge, in thousandths.
    pub min_x: i64,
    /// The south edge, in thousandths.
    pub min_y: i64,
    /// The east edge, in thousandths.
    pub max_x: i64,
    /// The north edge, in thousandths.
    pub max_y: i64,
}

/// A row of `gpkg_tile_matrix` (OGC GeoPackage 1.3, 2.2.7, tile matrix). Pixel sizes are
/// thousandths of the frame's unit (profile).
#[derive(Drop)]
pub struct TileMatrixRow {
    /// The name of the table of tiles.
    pub table_name: Text,
    /// The zoom.
    pub zoom_level: i64,
    /// The columns of tiles.
    pub matrix_width: i64,
    /// The rows of tiles.
    pub matrix_height: i64,
    /// The width of a tile, in pixels.
    pub tile_width: i64,
    /// The height of a tile, in pixels.
    pub tile_height: i64,
    /// The width of a pixel, in thousandths.
    pub pixel_x_size: i64,
    /// The height of a pixel, in thousandths.
    pub pixel_y_size: i64,
}

/// A row of `gpkgext_relations` (OGC 18-000, extended relations).
#[derive(Drop)]
pub struct RelationRow {
    /// Its number.
    pub id: i64,
    /// The table whose rows have related ones.
    pub base_table_name: Text,
    /// The column of its key.
    pub base_primary_column: Text,
    /// The table of the related rows.
    pub related_table_name: Text,
    /// The column of its key.
    pub related_primary_column: Text,
    /// What the related rows are; here `media` or `tiles`.
    pub relation_name: Text,
    /// The table that says which row is related to which.
    pub mapping_table_name: Text,
}
