//! What is asked of the things that a receipt moves, and of their sums.
ghost use Rattle.std.specs.Prelude.{◌≡◌, ◌↔◌, IsTrue, sum_by};
ghost use Rattle.std.specs.List.{AllByRecursion};
ghost use Rattle.sheet_types.specs.Balance.{IsThing, CountsFit};
ghost use Rattle.sheet_types.specs.Ordered.{IsArranged};
ghost use Rattle.sheet_types.specs.Step.{count_of, links_of};
ghost use Rattle.sheet_types.specs.World.{moved_key};
ghost use Rattle.sheet_ledger.specs.Parts.{HasThings, IsInOrder};

use crate::entries::is_item_kind;
use sheet_types::receipt::{Moved, MovedKind, Receipt};
use sheet_types::sorting::moved_is_before;

/// Whether what each of these receipts moves are things.
pub fn have_things(receipts: &[Receipt]) -> bool
    ensures { IsTrue result ↔ AllByRecursion HasThings receipts.now }
{
    for receipt in receipts {
        if !are_things(receipt.items.as_slice()) {
            return false;
        }
    }
    true
}

// Whether these are things.
fn are_things(things: &[Moved]) -> bool
    ensures { IsTrue result ↔ AllByRecursion IsThing things.now }
{
    for moved in things {
        if !is_thing(moved) {
            return false;
        }
    }
    true
}

// Whether it is a thing: an item has one end and a digest, a link two ends, no size and no digest.
fn is_thing(moved: &Moved) -> bool
    ensures { IsTrue result ↔ IsThing moved.now }
{
    if is_item_kind(moved.kind) {
        moved.other.is_none() & moved.fingerprint.is_some()
    } else {
        moved.other.is_some() & (moved.size == 0) & moved.fingerprint.is_none()
    }
}

/// Whether what each of these receipts moves is in order, each thing once.
pub fn are_in_order(receipts: &[Receipt]) -> bool
    ensures { IsTrue result ↔ AllByRecursion IsInOrder receipts.now }
{
    for receipt in receipts {
        if !is_arranged(receipt.items.as_slice()) {
            return false;
        }
    }
    true
}

// Whether each of these stands before the next.
fn is_arranged(things: &[Moved]) -> bool
    ensures { IsTrue result ↔ IsArranged moved_key things.now }
{
    for at in 1..things.len() {
        if !moved_is_before(&things[at - 1], &things[at]) {
            return false;
        }
    }
    true
}

/// Whether the counts and the bytes of each of these receipts are those of what it moves.
pub fn are_counted(receipts: &[Receipt]) -> bool
    ensures { IsTrue result ↔ AllByRecursion CountsFit receipts.now }
{
    for receipt in receipts {
        if !is_counted(receipt) {
            return false;
        }
    }
    true
}

// Whether the counts and the bytes are those of what it moves.
fn is_counted(receipt: &Receipt) -> bool
    ensures { IsTrue result ↔ CountsFit receipt.now }
{
    let things = receipt.items.as_slice();
    (receipt.tiles == count_of(things, MovedKind::TileItem) as u64)
        & (receipt.media == count_of(things, MovedKind::MediaItem) as u64)
        & (receipt.rows == count_of(things, MovedKind::RowItem) as u64)
        & (receipt.links == count_of_links(things) as u64)
        & sum_up_to(things, receipt.bytes)
}

// How many are of this kind.
fn count_of(things: &[Moved], kind: MovedKind) -> usize
    ensures { result ≡ count_of kind things.now }
{
    things
        .iter()
        .filter(|moved| kind.number() == moved.kind.number())
        .count()
}

// How many are links.
fn count_of_links(things: &[Moved]) -> usize
    ensures { result ≡ links_of things.now }
{
    things
        .iter()
        .filter(|moved| !is_item_kind(moved.kind))
        .count()
}

// Whether their sizes sum up to these bytes.
fn sum_up_to(things: &[Moved], bytes: u64) -> bool
    ensures { IsTrue result ↔ (bytes ≡ sum_by (λ m. m.size) things.now) }
{
    let mut left = bytes;
    for moved in things {
        if left < moved.size {
            return false;
        }
        left -= moved.size;
    }
    left == 0
}
