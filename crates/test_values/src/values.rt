//! A frame, a moment, a text, and the sums of nothing.

use package_tables::fault::Fault;
use sheet_types::collections::Text;
use sheet_types::frame::Frame;
use sheet_types::receipt::Sums;
use std::alloc::Global;

/// 4096 by 4096, zooms 0 to 2 with 1, 2 and 4 columns and rows of tiles of 256 pixels.
pub const FRAME: Frame = Frame {
    srs_id: 25832,
    min_x: 0,
    min_y: 0,
    max_x: 4096,
    max_y: 4096,
    tile_width: 256,
    tile_height: 256,
    first_zoom: 0,
    levels: 3,
    matrix_width: 1,
    matrix_height: 1,
};

/// The moment of what comes into a single package.
pub const AT: &str = "2026-11-22T09:00:00.000Z";

/// What an empty package holds.
pub const NOTHING: Sums = Sums {
    tiles: 0,
    media: 0,
    rows: 0,
    links: 0,
    bytes: 0,
};

/// What one medium of three bytes counts.
pub const ONE_MEDIUM: Sums = Sums {
    media: 1,
    bytes: 3,
    ..NOTHING
};

/// A text of the types that requests and receipts are made of.
pub fn text(alloc: Global, s: &str) -> Result<Text, Fault> {
    let mut inner = String::new(alloc);
    inner.push_str(s)?;
    Ok(Text::from_string(inner))
}
