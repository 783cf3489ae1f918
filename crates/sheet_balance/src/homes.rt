//! Whether each receipt stands where it was made or where merges brought it.
ghost use Rattle.std.specs.Prelude.{◌≡◌, ◌↔◌, ◌==◌, ◌&&◌, ℕ, List, [], Some, IsTrue, IfOk};
ghost use Rattle.std.specs.Prelude.{unwrap_or, if◌then◌else◌};
ghost use Rattle.std.specs.List.{AllByRecursion};
ghost use Rattle.std.specs.Ordering.{nat_cmp};
ghost use Rattle.std.specs.BTreeMap.{get};
ghost use Rattle.sheet_types.specs.Balance.{IsLedger, archive_of, stands_in};
ghost use Rattle.sheet_types.specs.Custody.{is_merge, ends_at};
ghost use Rattle.sheet_types.specs.Lines.{entry_from};
ghost use Rattle.sheet_types.specs.Texts.{Entry};
ghost use Rattle.sheet_types.specs.World.{World};
ghost use Rattle.sheet_ledger.specs.Parts.{AreAtHome, IsEntered};
ghost use Rattle.sheet_balance.specs.Homes.{AreInTurn, HasHome, StandsBy, home_in};
ghost use Rattle.sheet_balance.specs.Holders.{IsHeldWith};

use crate::holders::Holder;
use sheet_ledger::entries::read_line;
use sheet_ledger::loans::is_merge;
use sheet_types::error::OutOfMemory;
use sheet_types::receipt::Receipt;
use std::alloc::{AllocError, Global};
use std::collections::BTreeMap;
use uuid::Uuid;

/// Whether each receipt of a sound ledger stands in the package in which it was made or, where that
/// was merged later, in the target of that merge, and so on.
///
/// # Errors
///
/// Want of memory.
pub fn are_at_home(
    alloc: Global,
    ledger: &[Receipt],
    holders: &[Holder],
) -> Result<bool, OutOfMemory>
    ensures { IfOk result (λ home. (w : World) → IsHeldWith ledger.now holders.now w
        → IsLedger (archive_of w) [] ledger.now → IsTrue home ↔ AreAtHome w) }
{
    let homes = homes_of(alloc, ledger)?;
    Ok(all_at_home(&homes, holders))
}

// Whether each receipt stands in its home.
fn all_at_home(homes: &BTreeMap<u64, Uuid>, holders: &[Holder]) -> bool
    ensures { IsTrue result ↔ AllByRecursion (λ h. AllByRecursion (StandsBy homes.now h.uuid) h.numbers.items)
        holders.now }
{
    for holder in holders {
        if !stand_in(homes, holder.uuid, holder.numbers.as_slice()) {
            return false;
        }
    }
    true
}

// Whether this package is the home of the receipts of these numbers.
fn stand_in(homes: &BTreeMap<u64, Uuid>, package: Uuid, numbers: &[u64]) -> bool
    ensures { IsTrue result ↔ AllByRecursion (StandsBy homes.now «package») numbers.now }
{
    for number in numbers {
        if !stands_in(homes, package, *number) {
            return false;
        }
    }
    true
}

// Whether this package is the home of the receipt of this number.
fn stands_in(homes: &BTreeMap<u64, Uuid>, package: Uuid, number: u64) -> bool
    ensures { IsTrue result ↔ StandsBy homes.now «package» number }
{
    match homes.get(&number) {
        Some(home) => *home == package,
        None => false,
    }
}

// Under the number of each receipt its home. The receipts are walked from the last to the first, so
// that where merges behind bring a package is known.
fn homes_of(alloc: Global, ledger: &[Receipt]) -> Result<BTreeMap<u64, Uuid>, AllocError>
    ensures { IfOk result (λ homes. AreInTurn ledger.now → AllByRecursion (HasHome homes ledger.now) ledger.now) }
{
    let mut homes = BTreeMap::new(alloc);
    let mut merged = BTreeMap::new(alloc);
    let mut rest = ledger.len();
    while rest > 0 {
        rest -= 1;
        let receipt = &ledger[rest];
        note_home(&mut homes, &merged, receipt)?;
        note_merge(&mut merged, receipt)?;
    }
    Ok(homes)
}

// Notes the home of a receipt.
fn note_home(
    homes: &mut BTreeMap<u64, Uuid>,
    merged: &BTreeMap<Uuid, Uuid>,
    receipt: &Receipt,
) -> Result<(), AllocError>
    ensures { IfOk result (λ _. (e : Entry) → entry_from receipt.now.line ≡ Some e → (k : ℕ)
        → get nat_cmp homes.new k ≡ (if receipt.now.seq == k then Some (home_in merged.now (stands_in e)) else get
        nat_cmp homes.old k)) }
{
    let Some(entry) = read_line(receipt.line.as_str()) else {
        return Ok(());
    };
    homes.insert(receipt.seq, home_of(merged, entry.stands_in()))?;
    Ok(())
}

// Notes where the source of a merge came home: where its target does.
fn note_merge(merged: &mut BTreeMap<Uuid, Uuid>, receipt: &Receipt) -> Result<(), AllocError>
    ensures { IfOk result (λ _. IsEntered receipt.now → (p : List ℕ)
        → home_in merged.new p ≡ home_in merged.old (if is_merge receipt.now && ends_at receipt.now.source p then
        unwrap_or receipt.now.target [] else p)) }
{
    if !is_merge(receipt) {
        return Ok(());
    }
    let Some(source) = receipt.source else {
        return Ok(());
    };
    let Some(target) = receipt.target else {
        return Ok(());
    };
    let home = home_of(merged, target);
    merged.insert(source, home)?;
    Ok(())
}

// Where a package came home by the merges noted.
fn home_of(merged: &BTreeMap<Uuid, Uuid>, package: Uuid) -> Uuid
    ensures { result ≡ home_in merged.now «package» }
{
    match merged.get(&package) {
        Some(home) => *home,
        None => package,
    }
}
