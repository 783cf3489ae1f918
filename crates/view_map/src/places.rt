//! The places of tiles.
ghost use Rattle.std.specs.Prelude.{◌≡◌, IfOk};
ghost use Rattle.view_map.specs.Worlds.{place_at, places_of};

use crate::holders::Place;
use sheet_types::command::{Content, Item};
use std::alloc::{AllocError, Global};

/// The place of a tile of this zoom.
fn place_at(zoom: i64, item: &Item) -> Option<Place>
    ensures { result ≡ place_at zoom item.now }
{
    match &item.content {
        Content::Tile {
            zoom: at,
            column,
            row,
            ..
        } if *at == zoom => Some(Place {
            column: column.unsigned_abs(),
            row: row.unsigned_abs(),
        }),
        _ => None,
    }
}

/// The places of the tiles of this zoom among items, in their order. No tile of a register has a place below 0.
///
/// # Errors
///
/// Want of memory.
pub fn places_of(alloc: Global, zoom: i64, items: &[Item]) -> Result<Vec<Place>, AllocError>
    ensures { IfOk result (λ places. places.items ≡ places_of zoom items.now) }
{
    items
        .iter()
        .filter_map(|item| place_at(zoom, item))
        .collect(alloc)
}
