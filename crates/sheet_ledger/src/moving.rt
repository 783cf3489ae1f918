//! Whether what receipts move agrees with the receipts before them.
ghost use Rattle.std.specs.Prelude.{◌≡◌, ◌↔◌, [], IsTrue, IfOk};
ghost use Rattle.std.specs.List.{AllByRecursion};
ghost use Rattle.sheet_types.specs.World.{moved_thing};
ghost use Rattle.sheet_ledger.specs.Accounts.{place_in};
ghost use Rattle.sheet_ledger.specs.Parts.{EachAfter, StartsWhereItEnded};

use crate::places::{note_all, place_of};
use crate::same::same_end;
use crate::things::Thing;
use sheet_types::error::OutOfMemory;
use sheet_types::receipt::{Moved, Receipt};
use std::alloc::Global;
use std::collections::BTreeMap;
use uuid::Uuid;

/// Whether each thing that one of these receipts moves stands in its source by those before it, or
/// nowhere where it has none.
///
/// # Errors
///
/// Want of memory.
pub fn start_where_they_ended(alloc: Global, receipts: &[Receipt]) -> Result<bool, OutOfMemory>
    ensures { IfOk result (λ start. IsTrue start ↔ EachAfter StartsWhereItEnded [] receipts.now) }
{
    let mut places = BTreeMap::new(alloc);
    for receipt in receipts {
        if !all_stand(&places, receipt.items.as_slice(), &receipt.source) {
            return Ok(false);
        }
        note_all(&mut places, receipt.items.as_slice(), &receipt.target)?;
    }
    Ok(true)
}

// Whether each of these things stands there by the places noted.
fn all_stand(
    places: &BTreeMap<Thing, Option<Uuid>>,
    things: &[Moved],
    source: &Option<Uuid>,
) -> bool
    ensures { IsTrue result ↔ AllByRecursion (λ m. place_in places.now (moved_thing m) ≡ source.now) things.now }
{
    for moved in things {
        if !same_end(place_of(places, moved), *source) {
            return false;
        }
    }
    true
}
