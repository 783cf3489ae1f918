//! Where the tiles of a tree of files lie.
ghost use Rattle.std.specs.Prelude.{◌≡◌, false, true, pos, ◌+ℤ◌, ◌≤ℤ◌, ◌<ℤ◌, IfSome, IfNone};
ghost use Rattle.std.specs.Prelude.{IsTrue};
ghost use Rattle.std.specs.List.{list_any};
ghost use Rattle.sheet_types.specs.Matrix.{has_place, height_at, is_good_frame, level_of};
ghost use Rattle.command_plans.specs.Places.{IsPlaceOf, has_row, is_tile, is_tile_item};

use command_verbs::areas::Place;
use matrix_rules::axis::axes_at;
use matrix_rules::check::FrameRules;
use matrix_rules::ground::has_place;
use sheet_types::command::{Content, Item};
use sheet_types::frame::Frame;

/// The row that is as far from the last of so many rows as this one is from the first.
fn mirror_row(rows: i64, row: i64) -> i64
    requires { (pos 0 ≤ℤ row) × (row <ℤ rows) × (rows ≤ℤ pos 2000000000000) }
    ensures { ((result +ℤ row) +ℤ pos 1) ≡ rows }
{
    let last = rows - 1;
    last - row
}

/// The row that is counted from the other edge of a zoom; `None` where the frame has no such zoom,
/// or the zoom no such row.
fn turned_row(frame: &Frame, zoom: i64, row: i64) -> Option<i64>
    requires { IsTrue (is_good_frame frame.now) }
    ensures some { IfSome result (λ other. ((other +ℤ row) +ℤ pos 1)
        ≡ height_at frame.now (level_of frame.now zoom)) }
    ensures within { IfSome result (λ _. has_place frame.now zoom (pos 0) row ≡ true) }
    ensures none { IfNone result (has_place frame.now zoom (pos 0) row ≡ false) }
{
    if !has_place(frame, zoom, 0, row) {
        return None;
    }
    Some(mirror_row(axes_at(frame, zoom).down.tiles, row))
}

/// The place of a file's tile, whose rows run downwards, or upwards as in a TMS; `None` where the
/// frame has no such row.
pub fn place_of(frame: &Frame, file: &Place, is_upward: bool) -> Option<Place>
    requires { IsTrue (is_good_frame frame.now) }
    ensures some { IfSome result (IsPlaceOf frame.now is_upward file.now) }
    ensures within { IfSome result (λ _. is_upward ≡ true → has_row frame.now file.now ≡ true) }
    ensures none { IfNone result ((is_upward ≡ true) × (has_row frame.now file.now ≡ false)) }
{
    if !is_upward {
        return Some(*file);
    }
    let row = turned_row(frame, file.zoom, file.row)?;
    Some(Place {
        zoom: file.zoom,
        column: file.column,
        row,
    })
}

/// The place of the tile of a file whose rows run upwards; `None` where the frame has no such row, or is none of a
/// register.
pub fn upward_place(frame: &Frame, file: &Place) -> Option<Place>
    ensures some { IfSome result (IsPlaceOf frame.now true file.now) }
    ensures within { IfSome result (λ _. has_row frame.now file.now ≡ true) }
    ensures none { IfNone result (IsTrue (is_good_frame frame.now) → has_row frame.now file.now ≡ false) }
{
    match frame.check() {
        Ok(()) => place_of(frame, file, true),
        Err(_) => None,
    }
}

/// Whether a content is a tile of these bytes at a place.
fn is_tile(content: &Content, place: &Place, image: &[u8]) -> bool
    ensures { result ≡ is_tile place.now image.now content.now }
{
    match content {
        Content::Tile {
            zoom,
            column,
            row,
            bytes,
        } => {
            *zoom == place.zoom
                && *column == place.column
                && *row == place.row
                && bytes.as_slice() == image
        }
        Content::Media { .. } | Content::Row { .. } => false,
    }
}

/// Whether a tile of these bytes stands at a place among items.
pub fn is_there(items: &[Item], place: &Place, image: &[u8]) -> bool
    ensures { result ≡ list_any (is_tile_item place.now image.now) items.now }
{
    items
        .iter()
        .any(|item| is_tile(&item.content, place, image))
}
