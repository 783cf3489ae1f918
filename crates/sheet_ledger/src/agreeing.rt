//! Whether receipts agree on the size and the digest of each thing.
ghost use Rattle.std.specs.Prelude.{◌≡◌, ◌↔◌, ℕ, List, [], Some, IsTrue, IfOk};
ghost use Rattle.std.specs.List.{AllByRecursion};
ghost use Rattle.std.specs.Ordering.{nat_cmp};
ghost use Rattle.std.specs.Cmp.Lexicographic.{slice_cmp};
ghost use Rattle.std.specs.BTreeMap.{get};
ghost use Rattle.sheet_types.specs.World.{moved_thing};
ghost use Rattle.sheet_ledger.specs.Agreeing.{Allows, said_of, SaysSo};
ghost use Rattle.sheet_ledger.specs.Parts.{EachAfter, AgreesWithPast};
ghost use Rattle.sheet_ledger.specs.declared.agreeing.Said.{Said};

use crate::same::same_digest;
use crate::things::Thing;
use sheet_types::error::OutOfMemory;
use sheet_types::receipt::{Moved, Receipt};
use std::alloc::{AllocError, Global};
use std::collections::BTreeMap;

/// What a receipt says of a thing beside its key.
#[derive(Clone, Copy)]
pub struct Said {
    size: u64,
    fingerprint: Option<[u8; 32]>,
}

/// Whether no two of these receipts give one thing two sizes or two digests.
///
/// # Errors
///
/// Want of memory.
pub fn agree(alloc: Global, receipts: &[Receipt]) -> Result<bool, OutOfMemory>
    ensures { IfOk result (λ same. IsTrue same ↔ EachAfter AgreesWithPast [] receipts.now) }
{
    let mut told = BTreeMap::new(alloc);
    for receipt in receipts {
        if !all_agree(&told, receipt.items.as_slice()) {
            return Ok(false);
        }
        note_all(&mut told, receipt.items.as_slice())?;
    }
    Ok(true)
}

// Whether what is told allows what these say.
fn all_agree(told: &BTreeMap<Thing, Option<Said>>, things: &[Moved]) -> bool
    ensures { IsTrue result ↔ AllByRecursion (λ m. Allows (get (slice_cmp nat_cmp) told.now (moved_thing m))
        (said_of m)) things.now }
{
    for moved in things {
        if !agrees(told, moved) {
            return false;
        }
    }
    true
}

// Whether what is told allows what this says.
fn agrees(told: &BTreeMap<Thing, Option<Said>>, moved: &Moved) -> bool
    ensures { IsTrue result ↔ Allows (get (slice_cmp nat_cmp) told.now (moved_thing moved.now)) (said_of moved.now) }
{
    match told.get(&Thing::of_moved(moved)) {
        None => true,
        Some(None) => false,
        Some(Some(before)) => same_said(before, &what_is_said(moved)),
    }
}

// What is said of it.
fn what_is_said(moved: &Moved) -> Said
    ensures { result ≡ said_of moved.now }
{
    Said {
        size: moved.size,
        fingerprint: moved.fingerprint,
    }
}

// Whether the same is said.
fn same_said(a: &Said, b: &Said) -> bool
    ensures { IsTrue result ↔ (b.now ≡ a.now) }
{
    (a.size == b.size) & same_digest(&a.fingerprint, &b.fingerprint)
}

// Notes what these say; a thing of which two things are said is noted as such.
fn note_all(told: &mut BTreeMap<Thing, Option<Said>>, things: &[Moved]) -> Result<(), AllocError>
    ensures { IfOk result (λ _. (thing : List ℕ) (u : Said) → Allows (get (slice_cmp nat_cmp) told.new thing) u
        ↔ (Allows (get (slice_cmp nat_cmp) told.old thing) u × AllByRecursion (SaysSo thing u) things.now)) }
{
    for moved in things {
        note(told, moved)?;
    }
    Ok(())
}

// Notes what this says.
fn note(told: &mut BTreeMap<Thing, Option<Said>>, moved: &Moved) -> Result<(), AllocError>
    ensures { IfOk result (λ _. (thing : List ℕ) (u : Said) → Allows (get (slice_cmp nat_cmp) told.new thing) u
        ↔ (Allows (get (slice_cmp nat_cmp) told.old thing) u × SaysSo thing u moved.now)) }
{
    let more = one_more(told, moved);
    told.insert(Thing::of_moved(moved), more)?;
    Ok(())
}

// What is told of the thing once this is noted.
fn one_more(told: &BTreeMap<Thing, Option<Said>>, moved: &Moved) -> Option<Said>
    ensures { (u : Said) → Allows (Some result) u ↔ (Allows (get (slice_cmp nat_cmp) told.now
        (moved_thing moved.now)) u × (u ≡ said_of moved.now)) }
{
    match told.get(&Thing::of_moved(moved)) {
        None => Some(what_is_said(moved)),
        Some(None) => None,
        Some(Some(before)) => {
            if same_said(before, &what_is_said(moved)) {
                Some(what_is_said(moved))
            } else {
                None
            }
        }
    }
}
