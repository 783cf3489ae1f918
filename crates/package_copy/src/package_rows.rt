//! What differs from package to package beside the frame and the head.
use package_tables::rows::{
    AttributeRow, IdentityRow, MappingRow, MediaRow, MovedRow, ReceiptRow, TileRow,
};

/// All rows of a package's tables but its fixed rows, its head and its third mapping.
#[derive(Drop)]
pub struct PackageRows {
    pub tiles: Vec<TileRow>,
    pub media: Vec<MediaRow>,
    pub rows: Vec<AttributeRow>,
    pub tiles_media: Vec<MappingRow>,
    pub rows_media: Vec<MappingRow>,
    pub identities: Vec<IdentityRow>,
    pub receipts: Vec<ReceiptRow>,
    pub moved: Vec<MovedRow>,
}
