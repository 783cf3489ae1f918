//! Whether what receipts add, and the packages that they lend, are new.
ghost use Rattle.std.specs.Prelude.{◌≡◌, ◌↔◌, ℕ, List, [], true, false, ◌&&◌, ◌||◌, bytes_eq};
ghost use Rattle.std.specs.Prelude.{unwrap_or, IsTrue, IfOk};
ghost use Rattle.std.specs.List.{list_any, AllByRecursion};
ghost use Rattle.std.specs.Ordering.{nat_cmp};
ghost use Rattle.std.specs.Cmp.Lexicographic.{slice_cmp};
ghost use Rattle.std.specs.BTreeSet.{contains};
ghost use Rattle.sheet_types.specs.Custody.{is_add, is_split, ends_at};
ghost use Rattle.sheet_types.specs.World.{is_item_kind};
ghost use Rattle.sheet_ledger.specs.Parts.{EachAfter, AddsWhatIsNew, LendsNewPackage};

use crate::entries::is_item_kind;
use crate::fitting::fits;
use crate::loans::{is_add, is_split};
use sheet_types::error::OutOfMemory;
use sheet_types::receipt::{Moved, Receipt};
use std::alloc::{AllocError, Global};
use std::collections::BTreeSet;
use uuid::Uuid;

/// Whether no item that one of these receipts adds is named by those before it.
///
/// # Errors
///
/// Want of memory.
pub fn add_what_is_new(alloc: Global, receipts: &[Receipt]) -> Result<bool, OutOfMemory>
    ensures { IfOk result (λ new. IsTrue new ↔ EachAfter AddsWhatIsNew [] receipts.now) }
{
    let mut named: BTreeSet<Uuid> = BTreeSet::new(alloc);
    for receipt in receipts {
        if !adds_what_is_new(&named, receipt) {
            return Ok(false);
        }
        name_items(&mut named, receipt.items.as_slice())?;
    }
    Ok(true)
}

// Whether a receipt adds nothing that is named.
fn adds_what_is_new(named: &BTreeSet<Uuid>, receipt: &Receipt) -> bool
    ensures { IsTrue result ↔ (is_add receipt.now ≡ true → AllByRecursion
        (λ m. contains (slice_cmp nat_cmp) named.now m.base ≡ false) receipt.now.items) }
{
    if !is_add(receipt) {
        return true;
    }
    none_is_named(named, receipt.items.as_slice())
}

// Whether no base of these is named.
fn none_is_named(named: &BTreeSet<Uuid>, things: &[Moved]) -> bool
    ensures { IsTrue result ↔ AllByRecursion (λ m. contains (slice_cmp nat_cmp) named.now m.base ≡ false)
        things.now }
{
    for moved in things {
        if named.contains(&moved.base) {
            return false;
        }
    }
    true
}

// Names the items among these.
fn name_items(named: &mut BTreeSet<Uuid>, things: &[Moved]) -> Result<(), AllocError>
    ensures { IfOk result (λ _. (id : List ℕ) → contains (slice_cmp nat_cmp) named.new id
        ≡ (contains (slice_cmp nat_cmp) named.old id || list_any (λ m. is_item_kind m.kind && bytes_eq m.base id)
        things.now)) }
{
    for moved in things {
        name_item(named, moved)?;
    }
    Ok(())
}

// Names it where it is an item.
fn name_item(named: &mut BTreeSet<Uuid>, moved: &Moved) -> Result<(), AllocError>
    ensures { IfOk result (λ _. (id : List ℕ) → contains (slice_cmp nat_cmp) named.new id
        ≡ (contains (slice_cmp nat_cmp) named.old id || (is_item_kind moved.now.kind && bytes_eq moved.now.base
        id))) }
{
    if !is_item_kind(moved.kind) {
        return Ok(());
    }
    named.insert(moved.base)?;
    Ok(())
}

/// Whether each split among these receipts has a target that no split before it has, and none has the archive.
///
/// # Errors
///
/// Want of memory.
pub fn lend_new_packages(
    alloc: Global,
    archive: Uuid,
    receipts: &[Receipt],
) -> Result<bool, OutOfMemory>
    ensures { IfOk result (λ new. IsTrue new ↔ EachAfter (LendsNewPackage archive) [] receipts.now) }
{
    let mut lent: BTreeSet<Uuid> = BTreeSet::new(alloc);
    for receipt in receipts {
        if !lends_new_package(&lent, archive, receipt) {
            return Ok(false);
        }
        note_target(&mut lent, receipt)?;
    }
    Ok(true)
}

// Whether a receipt lends no package that was lent, nor the archive. No package has an empty UUID.
fn lends_new_package(lent: &BTreeSet<Uuid>, archive: Uuid, receipt: &Receipt) -> bool
    requires { contains (slice_cmp nat_cmp) lent.now [] ≡ false }
    ensures { IsTrue result ↔ (is_split receipt.now ≡ true →
        (contains (slice_cmp nat_cmp) lent.now (unwrap_or receipt.now.target []) ≡ false)
        × (ends_at receipt.now.target archive ≡ false)) }
{
    if !is_split(receipt) {
        return true;
    }
    match receipt.target {
        Some(target) => !lent.contains(&target) & (target != archive),
        None => true,
    }
}

// Notes the target of a split.
fn note_target(lent: &mut BTreeSet<Uuid>, receipt: &Receipt) -> Result<(), AllocError>
    ensures noted { IfOk result (λ _. (p : List ℕ) → contains (slice_cmp nat_cmp) lent.new p
        ≡ (contains (slice_cmp nat_cmp) lent.old p || (is_split receipt.now && ends_at receipt.now.target p))) }
    ensures whole { IfOk result (λ _. ends_at receipt.now.target [] ≡ false) }
{
    let Some(target) = receipt.target else {
        return Ok(());
    };
    fits(target);
    if !is_split(receipt) {
        return Ok(());
    }
    lent.insert(target)?;
    Ok(())
}
