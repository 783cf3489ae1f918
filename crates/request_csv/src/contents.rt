//! The content that a record adds.
ghost use Rattle.std.specs.Prelude.{◌≡◌, ℕ, ℤ, List, IfOk, IfSome, IfNone};
ghost use Rattle.csv.specs.Records.{fields_of};
ghost use Rattle.request_csv.specs.Requests.{IsContent, IsTextAt};
ghost use Rattle.sheet_types.specs.Texts.{kind_word};
ghost use Rattle.sheet_types.specs.declared.command.Content.{Content};
ghost use Rattle.sheet_types.specs.declared.command.Content.TheVariants as content;
ghost use Rattle.sheet_types.specs.declared.receipt.MovedKind.TheVariants.{TileItem, MediaItem, RowItem};

use crate::columns::{CODE, COLUMN, DATA, KIND, ROW, TEXT, X, Y, ZOOM};
use crate::fields::{are_empty, hex_at, kind_at, number_at, text_at};
use csv::StringRecord;
use sheet_types::collections::Bytes;
use sheet_types::command::Content;
use sheet_types::error::OutOfMemory;
use sheet_types::receipt::MovedKind;
use std::alloc::Global;

/// The columns that the addition of a tile leaves empty, `other` and `ticket` aside.
const NOT_OF_TILE: [usize; 6] = [10, 11, 12, 13, 14, 16];

/// The same for a medium.
const NOT_OF_MEDIA: [usize; 8] = [7, 8, 9, 10, 11, 12, 13, 14];

/// The same for a row.
const NOT_OF_ROW: [usize; 6] = [7, 8, 9, 10, 11, 17];

/// The tile that a record of the kind `tile` adds.
fn tile_of(alloc: Global, row: &StringRecord) -> Result<Option<Content>, OutOfMemory>
    requires kind { IsTextAt (fields_of row.now) 6 (kind_word TileItem) }
    ensures some { IfOk result (λ found. IfSome found (λ tile. IsContent (fields_of row.now) tile)) }
    ensures none { IfOk result (λ found. IfNone found ((zoom column line : ℤ) (bytes : List ℕ)
        → ¬ IsContent (fields_of row.now) (content.Tile zoom column line bytes))) }
{
    if !are_empty(row, &NOT_OF_TILE) {
        return Ok(None);
    }
    let Some(zoom) = number_at(row, ZOOM) else {
        return Ok(None);
    };
    let Some(column) = number_at(row, COLUMN) else {
        return Ok(None);
    };
    let Some(line) = number_at(row, ROW) else {
        return Ok(None);
    };
    let Some(data) = hex_at(alloc, row, DATA)? else {
        return Ok(None);
    };
    let bytes = Bytes::from_vec(data);
    Ok(Some(Content::Tile {
        zoom,
        column,
        row: line,
        bytes,
    }))
}

/// The medium that a record of the kind `media` adds.
fn media_of(alloc: Global, row: &StringRecord) -> Result<Option<Content>, OutOfMemory>
    requires kind { IsTextAt (fields_of row.now) 6 (kind_word MediaItem) }
    ensures some { IfOk result (λ found. IfSome found (λ medium. IsContent (fields_of row.now) medium)) }
    ensures none { IfOk result (λ found. IfNone found ((content_type bytes : List ℕ)
        → ¬ IsContent (fields_of row.now) (content.Media content_type bytes))) }
{
    if !are_empty(row, &NOT_OF_MEDIA) {
        return Ok(None);
    }
    let Some(content_type) = text_at(alloc, row, TEXT)? else {
        return Ok(None);
    };
    let Some(data) = hex_at(alloc, row, DATA)? else {
        return Ok(None);
    };
    let bytes = Bytes::from_vec(data);
    Ok(Some(Content::Media {
        content_type,
        bytes,
    }))
}

/// The row that a record of the kind `row` adds.
fn row_of(alloc: Global, row: &StringRecord) -> Result<Option<Content>, OutOfMemory>
    requires kind { IsTextAt (fields_of row.now) 6 (kind_word RowItem) }
    ensures some { IfOk result (λ found. IfSome found (λ added. IsContent (fields_of row.now) added)) }
    ensures none { IfOk result (λ found. IfNone found ((x y code : ℤ) (label : List ℕ)
        → ¬ IsContent (fields_of row.now) (content.Row x y code label))) }
{
    if !are_empty(row, &NOT_OF_ROW) {
        return Ok(None);
    }
    let Some(x) = number_at(row, X) else {
        return Ok(None);
    };
    let Some(y) = number_at(row, Y) else {
        return Ok(None);
    };
    let Some(code) = number_at(row, CODE) else {
        return Ok(None);
    };
    let Some(label) = text_at(alloc, row, TEXT)? else {
        return Ok(None);
    };
    Ok(Some(Content::Row { x, y, code, label }))
}

/// The content that a record adds, by its kind.
pub fn content_of(alloc: Global, row: &StringRecord) -> Result<Option<Content>, OutOfMemory>
    ensures some { IfOk result (λ found. IfSome found (λ content. IsContent (fields_of row.now) content)) }
    ensures none { IfOk result (λ found. IfNone found ((content : Content)
        → ¬ IsContent (fields_of row.now) content)) }
{
    let Some(kind) = kind_at(row, KIND) else {
        return Ok(None);
    };
    match kind {
        MovedKind::TileItem => tile_of(alloc, row),
        MovedKind::MediaItem => media_of(alloc, row),
        MovedKind::RowItem => row_of(alloc, row),
        MovedKind::TilesMediaLink | MovedKind::RowsMediaLink | MovedKind::RowsTilesLink => Ok(None),
    }
}
