//! The three tables that hold the contents of items.

/// A table of user data.
#[derive(Clone, Copy, PartialEq, Eq)]
pub enum UserTable {
    /// `sheet_tiles` (OGC GeoPackage 1.3, 2.2.8).
    TileTable,
    /// `sheet_media` (OGC 18-000, media tables).
    MediaTable,
    /// `sheet_rows` (OGC GeoPackage 1.3, 2.4.2).
    RowTable,
}
