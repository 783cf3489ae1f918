//! Whether each thing stands where custody says so, and nowhere else.
ghost use Rattle.std.specs.Prelude.{◌≡◌, ◌↔◌, ◌||◌, ℕ, List, Some, true, is_some, bytes_eq, IsTrue};
ghost use Rattle.std.specs.Prelude.{IfOk};
ghost use Rattle.std.specs.List.{list_any, AllByRecursion};
ghost use Rattle.std.specs.Ordering.{nat_cmp};
ghost use Rattle.std.specs.Cmp.Lexicographic.{slice_cmp};
ghost use Rattle.std.specs.BTreeSet.{contains};
ghost use Rattle.sheet_types.specs.Ordered.{has};
ghost use Rattle.sheet_types.specs.World.{World, moved_thing};
ghost use Rattle.sheet_ledger.specs.Accounts.{place_in};
ghost use Rattle.sheet_ledger.specs.Parts.{HoldsWhatIsKept};
ghost use Rattle.sheet_balance.specs.Holders.{IsHeldWith, Stands, has_seen};

use crate::holders::Holder;
use sheet_ledger::places::{place_of, places};
use sheet_ledger::things::Thing;
use sheet_types::error::OutOfMemory;
use sheet_types::receipt::{Moved, Receipt};
use std::alloc::{AllocError, Global};
use std::collections::{BTreeMap, BTreeSet};
use uuid::Uuid;

/// Whether a package holds a thing exactly where the last receipt that names the thing has that package as target.
///
/// # Errors
///
/// Want of memory.
pub fn holds_what_is_kept(
    alloc: Global,
    ledger: &[Receipt],
    holders: &[Holder],
) -> Result<bool, OutOfMemory>
    ensures { IfOk result (λ holds. (w : World) → IsHeldWith ledger.now holders.now w
        → IsTrue holds ↔ HoldsWhatIsKept w) }
{
    let places = places(alloc, ledger)?;
    let held = held_by(alloc, holders)?;
    let stand = all_stand(&places, holders);
    Ok(stand & are_all_held(&places, &held))
}

// Whether all that the packages hold stands where it is held.
fn all_stand(places: &BTreeMap<Thing, Option<Uuid>>, holders: &[Holder]) -> bool
    ensures { IsTrue result ↔ AllByRecursion (Stands (place_in places.now)) holders.now }
{
    for holder in holders {
        if !stands(places, holder) {
            return false;
        }
    }
    true
}

// Whether all that the package holds stands there.
fn stands(places: &BTreeMap<Thing, Option<Uuid>>, holder: &Holder) -> bool
    ensures { IsTrue result ↔ Stands (place_in places.now) holder.now }
{
    stand_in(places, holder.items.as_slice(), holder.uuid)
        & stand_in(places, holder.links.as_slice(), holder.uuid)
}

// Whether each thing that stands somewhere is held.
fn are_all_held(places: &BTreeMap<Thing, Option<Uuid>>, held: &BTreeSet<Thing>) -> bool
    ensures { IsTrue result ↔ ((thing : List ℕ) → is_some (place_in places.now thing) ≡ true
        → contains (slice_cmp nat_cmp) held.now thing ≡ true) }
{
    for (thing, place) in places.iter() {
        if !is_held(held, thing, place) {
            return false;
        }
    }
    true
}

// Whether a thing stands nowhere, or is held.
fn is_held(held: &BTreeSet<Thing>, thing: &Thing, place: &Option<Uuid>) -> bool
    ensures { IsTrue result ↔ (is_some place.now ≡ true → contains (slice_cmp nat_cmp) held.now thing.now
        ≡ true) }
{
    place.is_none() || held.contains(thing)
}

// All that the packages hold.
fn held_by(alloc: Global, holders: &[Holder]) -> Result<BTreeSet<Thing>, AllocError>
    ensures { IfOk result (λ held. (thing : List ℕ) → contains (slice_cmp nat_cmp) held thing
        ≡ list_any (has_seen thing) holders.now) }
{
    let mut held = BTreeSet::new(alloc);
    for holder in holders {
        note_holder(&mut held, holder)?;
    }
    Ok(held)
}

// Notes what the package holds.
fn note_holder(held: &mut BTreeSet<Thing>, holder: &Holder) -> Result<(), AllocError>
    ensures { IfOk result (λ _. (thing : List ℕ) → contains (slice_cmp nat_cmp) held.new thing
        ≡ (contains (slice_cmp nat_cmp) held.old thing || has_seen thing holder.now)) }
{
    note_held(held, holder.items.as_slice())?;
    note_held(held, holder.links.as_slice())?;
    Ok(())
}

// Whether each of these stands in the package by the places.
fn stand_in(places: &BTreeMap<Thing, Option<Uuid>>, things: &[Moved], package: Uuid) -> bool
    ensures { IsTrue result ↔ AllByRecursion (λ m. place_in places.now (moved_thing m) ≡ Some «package»)
        things.now }
{
    for moved in things {
        if !stands_in(places, moved, package) {
            return false;
        }
    }
    true
}

// Whether this stands in the package by the places.
fn stands_in(places: &BTreeMap<Thing, Option<Uuid>>, moved: &Moved, package: Uuid) -> bool
    ensures { IsTrue result ↔ (place_in places.now (moved_thing moved.now) ≡ Some «package») }
{
    match place_of(places, moved) {
        Some(place) => place == package,
        None => false,
    }
}

// Notes that these are held.
fn note_held(held: &mut BTreeSet<Thing>, things: &[Moved]) -> Result<(), AllocError>
    ensures { IfOk result (λ _. (thing : List ℕ) → contains (slice_cmp nat_cmp) held.new thing
        ≡ (contains (slice_cmp nat_cmp) held.old thing || has moved_thing thing things.now)) }
{
    for moved in things {
        note(held, moved)?;
    }
    Ok(())
}

// Notes that this is held.
fn note(held: &mut BTreeSet<Thing>, moved: &Moved) -> Result<(), AllocError>
    ensures { IfOk result (λ _. (thing : List ℕ) → contains (slice_cmp nat_cmp) held.new thing
        ≡ (contains (slice_cmp nat_cmp) held.old thing || bytes_eq (moved_thing moved.now) thing)) }
{
    held.insert(Thing::of_moved(moved))?;
    Ok(())
}
