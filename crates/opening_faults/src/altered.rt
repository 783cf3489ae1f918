//! The least item that is not what an addition says of it.
ghost use Rattle.std.specs.Prelude.{◌≡◌, ◌||◌, ℕ, List, [], bytes_eq, IfOk};
ghost use Rattle.std.specs.List.{list_any};
ghost use Rattle.std.specs.Ordering.{nat_cmp};
ghost use Rattle.std.specs.Cmp.Lexicographic.{slice_cmp};
ghost use Rattle.std.specs.BTreeSet.{contains};
ghost use Rattle.sheet_types.specs.Balance.{altered};
ghost use Rattle.sheet_types.specs.Ordered.{has, least};
ghost use Rattle.sheet_types.specs.World.{World};
ghost use Rattle.sheet_balance.specs.Holders.{IsHeldWith};
ghost use Rattle.opening_faults.specs.Altered.{item_said, adds_item, IsAlteredAt, IsAlteredAmong, IsAlteredIn};
ghost use Rattle.opening_faults.specs.Foreign.{Adds};

use crate::item_keys::ItemKey;
use crate::least::least_of;
use sheet_balance::holders::Holder;
use sheet_ledger::loans::is_add;
use sheet_types::error::OutOfMemory;
use sheet_types::receipt::{Moved, Receipt};
use std::alloc::{AllocError, Global};
use std::collections::BTreeSet;
use uuid::Uuid;

/// The least identity of an item of which no addition says the size and the digest that are seen.
///
/// # Errors
///
/// Want of memory.
pub fn least_altered(
    alloc: Global,
    ledger: &[Receipt],
    holders: &[Holder],
) -> Result<Option<Uuid>, OutOfMemory>
    ensures { IfOk result (λ found. (w : World) → IsHeldWith ledger.now holders.now w
        → least (altered w) ≡ found) }
{
    let added = additions(alloc, ledger)?;
    let ids = altered_ids(alloc, &added, holders)?;
    Ok(least_of(ids.as_slice()))
}

// What the additions among these receipts say.
fn additions(alloc: Global, ledger: &[Receipt]) -> Result<BTreeSet<ItemKey>, AllocError>
    ensures { IfOk result (λ added. (key : List ℕ) → contains (slice_cmp nat_cmp) added key
        ≡ list_any (adds_item key) ledger.now) }
{
    let mut added = BTreeSet::new(alloc);
    for receipt in ledger {
        note_receipt(&mut added, receipt)?;
    }
    Ok(added)
}

// Notes what a receipt says, where it is an addition.
fn note_receipt(added: &mut BTreeSet<ItemKey>, receipt: &Receipt) -> Result<(), AllocError>
    ensures { IfOk result (λ _. (key : List ℕ) → contains (slice_cmp nat_cmp) added.new key
        ≡ (contains (slice_cmp nat_cmp) added.old key || adds_item key receipt.now)) }
{
    if !is_add(receipt) {
        return Ok(());
    }
    note_items(added, receipt.items.as_slice())?;
    Ok(())
}

// Notes what is said of these.
fn note_items(added: &mut BTreeSet<ItemKey>, items: &[Moved]) -> Result<(), AllocError>
    ensures { IfOk result (λ _. (key : List ℕ) → contains (slice_cmp nat_cmp) added.new key
        ≡ (contains (slice_cmp nat_cmp) added.old key || has item_said key items.now)) }
{
    for moved in items {
        note_item(added, moved)?;
    }
    Ok(())
}

// Notes what is said of this.
fn note_item(added: &mut BTreeSet<ItemKey>, moved: &Moved) -> Result<(), AllocError>
    ensures { IfOk result (λ _. (key : List ℕ) → contains (slice_cmp nat_cmp) added.new key
        ≡ (contains (slice_cmp nat_cmp) added.old key || bytes_eq (item_said moved.now) key)) }
{
    added.insert(ItemKey::of_moved(moved))?;
    Ok(())
}

// The identities of the items that are not as they were added.
fn altered_ids(
    alloc: Global,
    added: &BTreeSet<ItemKey>,
    holders: &[Holder],
) -> Result<Vec<Uuid>, AllocError>
    ensures { IfOk result (λ ids. Adds (IsAlteredIn added.now holders.now) [] ids.items) }
{
    let mut ids = Vec::new(alloc);
    for holder in holders {
        push_altered(&mut ids, added, holder.items.as_slice())?;
    }
    Ok(ids)
}

// Puts the identities of those that are not as they were added behind the others.
fn push_altered(
    ids: &mut Vec<Uuid>,
    added: &BTreeSet<ItemKey>,
    items: &[Moved],
) -> Result<(), AllocError>
    ensures { IfOk result (λ _. Adds (IsAlteredAmong added.now items.now) ids.old.items ids.new.items) }
{
    for moved in items {
        push_item(ids, added, moved)?;
    }
    Ok(())
}

// Puts the identity of an item behind the others, where it is not as it was added.
fn push_item(
    ids: &mut Vec<Uuid>,
    added: &BTreeSet<ItemKey>,
    moved: &Moved,
) -> Result<(), AllocError>
    ensures { IfOk result (λ _. Adds (IsAlteredAt added.now moved.now) ids.old.items ids.new.items) }
{
    if added.contains(&ItemKey::of_moved(moved)) {
        return Ok(());
    }
    ids.push(moved.base)?;
    Ok(())
}
