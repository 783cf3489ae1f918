//! The content that the members of an object add.
ghost use Rattle.std.specs.Prelude.{◌≡◌, ℕ, ℤ, List, IfOk, IfSome, IfNone, codes};
ghost use Rattle.serde_json.specs.View.{view};
ghost use Rattle.request_json.specs.Members.{IsTextAt};
ghost use Rattle.request_json.specs.Requests.{IsContent};
ghost use Rattle.sheet_types.specs.Texts.{kind_word};
ghost use Rattle.sheet_types.specs.declared.command.Content.{Content};
ghost use Rattle.sheet_types.specs.declared.command.Content.TheVariants as content;
ghost use Rattle.sheet_types.specs.declared.receipt.MovedKind.TheVariants.{TileItem, MediaItem, RowItem};

use crate::members::{hex_at, kind_at, number_at, text_at};
use serde_json::Value;
use sheet_types::command::Content;
use sheet_types::error::OutOfMemory;
use sheet_types::receipt::MovedKind;
use std::alloc::Global;

/// The tile that an object of the kind `tile` adds.
fn tile_of(alloc: Global, value: &Value) -> Result<Option<Content>, OutOfMemory>
    requires kind { IsTextAt (view value.now) (codes "kind") (kind_word TileItem) }
    ensures some { IfOk result (λ found. IfSome found (λ tile. IsContent (view value.now) tile)) }
    ensures none { IfOk result (λ found. IfNone found ((zoom column line : ℤ) (bytes : List ℕ)
        → ¬ IsContent (view value.now) (content.Tile zoom column line bytes))) }
{
    let Some(zoom) = number_at(value, "zoom") else {
        return Ok(None);
    };
    let Some(column) = number_at(value, "column") else {
        return Ok(None);
    };
    let Some(row) = number_at(value, "row") else {
        return Ok(None);
    };
    let Some(bytes) = hex_at(alloc, value, "data")? else {
        return Ok(None);
    };
    Ok(Some(Content::Tile {
        zoom,
        column,
        row,
        bytes,
    }))
}

/// The medium that an object of the kind `media` adds.
fn media_of(alloc: Global, value: &Value) -> Result<Option<Content>, OutOfMemory>
    requires kind { IsTextAt (view value.now) (codes "kind") (kind_word MediaItem) }
    ensures some { IfOk result (λ found. IfSome found (λ medium. IsContent (view value.now) medium)) }
    ensures none { IfOk result (λ found. IfNone found ((content_type bytes : List ℕ)
        → ¬ IsContent (view value.now) (content.Media content_type bytes))) }
{
    let Some(content_type) = text_at(alloc, value, "text")? else {
        return Ok(None);
    };
    let Some(bytes) = hex_at(alloc, value, "data")? else {
        return Ok(None);
    };
    Ok(Some(Content::Media {
        content_type,
        bytes,
    }))
}

/// The row that an object of the kind `row` adds.
fn row_of(alloc: Global, value: &Value) -> Result<Option<Content>, OutOfMemory>
    requires kind { IsTextAt (view value.now) (codes "kind") (kind_word RowItem) }
    ensures some { IfOk result (λ found. IfSome found (λ added. IsContent (view value.now) added)) }
    ensures none { IfOk result (λ found. IfNone found ((x y code : ℤ) (label : List ℕ)
        → ¬ IsContent (view value.now) (content.Row x y code label))) }
{
    let Some(x) = number_at(value, "x") else {
        return Ok(None);
    };
    let Some(y) = number_at(value, "y") else {
        return Ok(None);
    };
    let Some(code) = number_at(value, "code") else {
        return Ok(None);
    };
    let Some(label) = text_at(alloc, value, "text")? else {
        return Ok(None);
    };
    Ok(Some(Content::Row { x, y, code, label }))
}

/// The content that an object adds, by its kind.
pub fn content_of(alloc: Global, value: &Value) -> Result<Option<Content>, OutOfMemory>
    ensures some { IfOk result (λ found. IfSome found (λ content. IsContent (view value.now) content)) }
    ensures none { IfOk result (λ found. IfNone found ((content : Content)
        → ¬ IsContent (view value.now) content)) }
{
    match kind_at(value, "kind") {
        Some(MovedKind::TileItem) => tile_of(alloc, value),
        Some(MovedKind::MediaItem) => media_of(alloc, value),
        Some(MovedKind::RowItem) => row_of(alloc, value),
        _ => Ok(None),
    }
}
