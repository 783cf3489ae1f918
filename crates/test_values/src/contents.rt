//! Contents of items.

use crate::values::text;
use package_tables::fault::Fault;
use sheet_types::collections::Bytes;
use sheet_types::command::Content;
use std::alloc::Global;

/// A tile by its zoom, column and row.
pub fn tile_content(alloc: Global, place: [i64; 3], bytes: &[u8]) -> Result<Content, Fault> {
    Ok(Content::Tile {
        zoom: place[0],
        column: place[1],
        row: place[2],
        bytes: Bytes::from_vec(Vec::from_slice(alloc, bytes)?),
    })
}

/// A medium.
pub fn medium_content(alloc: Global, content_type: &str, bytes: &[u8]) -> Result<Content, Fault> {
    Ok(Content::Media {
        content_type: text(alloc, content_type)?,
        bytes: Bytes::from_vec(Vec::from_slice(alloc, bytes)?),
    })
}

/// A row at a point, x and y.
pub fn row_content(
    alloc: Global,
    point: [i64; 2],
    code: i64,
    label: &str,
) -> Result<Content, Fault> {
    Ok(Content::Row {
        x: point[0],
        y: point[1],
        code,
        label: text(alloc, label)?,
    })
}
