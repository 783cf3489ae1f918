//! A search among all items that ever were, which receipts name.
ghost use Rattle.std.specs.Prelude.{◌≡◌, ◌++◌, ◌∷◌, [], ℕ, List};
ghost use Rattle.sheet_types.specs.World.{is_item_kind};
ghost use Rattle.command_names.specs.Searching.{IsFound};
ghost use Rattle.view_searches.specs.Searches.{added_by, added_of, identities_of};

use command_names::searching::{Found, found_with, nothing};
use sheet_types::receipt::{Moved, MovedKind, Receipt};

fn is_item(kind: MovedKind) -> bool
    ensures { result ≡ is_item_kind kind }
{
    match kind {
        MovedKind::TileItem | MovedKind::MediaItem | MovedKind::RowItem => true,
        MovedKind::TilesMediaLink | MovedKind::RowsMediaLink | MovedKind::RowsTilesLink => false,
    }
}

/// What is found with one more thing that moved, if it is an item.
fn found_thing(word: &str, found: Found, thing: &Moved) -> Found
    ensures { (before : List (List ℕ)) → IsFound word.now before found
        → IsFound word.now (before ++ identities_of (thing.now ∷ [])) result }
{
    if is_item(thing.kind) {
        found_with(word, found, thing.base)
    } else {
        found
    }
}

/// What is found with the items among more things that moved.
fn found_moved(word: &str, found: Found, things: &[Moved]) -> Found
    ensures { (before : List (List ℕ)) → IsFound word.now before found
        → IsFound word.now (before ++ identities_of things.now) result }
{
    let mut next = found;
    for thing in things {
        next = found_thing(word, next, thing);
    }
    next
}

/// What is found with the items that one more receipt added.
fn found_added(word: &str, found: Found, receipt: &Receipt) -> Found
    ensures { (before : List (List ℕ)) → IsFound word.now before found
        → IsFound word.now (before ++ added_by receipt.now) result }
{
    match receipt.source {
        Some(_) => found,
        None => found_moved(word, found, receipt.items.as_slice()),
    }
}

/// The item that a word names, of all that receipts added.
pub fn found_ever(word: &str, receipts: &[Receipt]) -> Found
    ensures { IsFound word.now (added_of receipts.now) result }
{
    let mut found = nothing();
    for receipt in receipts {
        found = found_added(word, found, receipt);
    }
    found
}
