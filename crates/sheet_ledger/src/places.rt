//! Where each thing stands by some receipts.
ghost use Rattle.std.specs.Prelude.{◌≡◌, ℕ, List, IfOk, bytes_eq, if◌then◌else◌};
ghost use Rattle.sheet_types.specs.Ordered.{has};
ghost use Rattle.sheet_types.specs.World.{moved_thing};
ghost use Rattle.sheet_ledger.specs.Accounts.{place_in, KeepsCustody};

use crate::things::Thing;
use sheet_types::receipt::{Moved, Receipt};
use std::alloc::{AllocError, Global};
use std::collections::BTreeMap;
use uuid::Uuid;

/// Where each thing stands by receipts in the order of their numbers: the target of the last that names it.
///
/// # Errors
///
/// Want of memory.
pub fn places(
    alloc: Global,
    receipts: &[Receipt],
) -> Result<BTreeMap<Thing, Option<Uuid>>, AllocError>
    ensures { IfOk result (λ places. KeepsCustody places receipts.now) }
{
    let mut places = BTreeMap::new(alloc);
    for receipt in receipts {
        note_all(&mut places, receipt.items.as_slice(), &receipt.target)?;
    }
    Ok(places)
}

/// Notes that each of these things stands there now.
///
/// # Errors
///
/// Want of memory; then some of them may be noted.
pub(crate) fn note_all(
    places: &mut BTreeMap<Thing, Option<Uuid>>,
    things: &[Moved],
    target: &Option<Uuid>,
) -> Result<(), AllocError>
    ensures { IfOk result (λ _. (thing : List ℕ) → place_in places.new thing
        ≡ (if has moved_thing thing things.now then target.now else place_in places.old thing)) }
{
    for moved in things {
        note(places, moved, target)?;
    }
    Ok(())
}

// Notes that this thing stands there now.
fn note(
    places: &mut BTreeMap<Thing, Option<Uuid>>,
    moved: &Moved,
    target: &Option<Uuid>,
) -> Result<(), AllocError>
    ensures { IfOk result (λ _. (thing : List ℕ) → place_in places.new thing
        ≡ (if bytes_eq (moved_thing moved.now) thing then target.now else place_in places.old thing)) }
{
    places.insert(Thing::of_moved(moved), *target)?;
    Ok(())
}

/// Where a thing stands by the places noted; `None` where it stands nowhere.
pub fn place_of(places: &BTreeMap<Thing, Option<Uuid>>, moved: &Moved) -> Option<Uuid>
    ensures { result ≡ place_in places.now (moved_thing moved.now) }
{
    match places.get(&Thing::of_moved(moved)) {
        Some(place) => *place,
        None => None,
    }
}
