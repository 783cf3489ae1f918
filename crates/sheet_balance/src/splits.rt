//! The splits that are seen, under the packages that they lend.
ghost use Rattle.std.specs.Prelude.{◌≡◌, ◌∷◌, ◌++◌, ℕ, List, [], None, false, bytes_eq};
ghost use Rattle.std.specs.Prelude.{if◌then◌else◌, IfOk};
ghost use Rattle.std.specs.Ordering.{nat_cmp};
ghost use Rattle.std.specs.Cmp.Lexicographic.{slice_cmp};
ghost use Rattle.std.specs.BTreeMap.{Updates};
ghost use Rattle.sheet_balance.specs.Splits.{lents_in, lents_by, lents_among, lents_seen};

use crate::sights::Sight;
use sheet_ledger::fitting::fits;
use sheet_ledger::loans::is_split;
use sheet_types::receipt::Receipt;
use std::alloc::{AllocError, Global};
use std::collections::BTreeMap;
use uuid::Uuid;

/// A split that is seen: its number, and the package in which its receipt stands.
#[derive(Drop)]
pub struct Lent {
    pub seq: u64,
    pub home: Uuid,
}

/// Under each package the splits that have it as target. No split has an empty one.
///
/// # Errors
///
/// Want of memory.
pub fn splits_of(alloc: Global, sights: &[Sight]) -> Result<BTreeMap<Uuid, Vec<Lent>>, AllocError>
    ensures has { IfOk result (λ splits. (p : List ℕ) → lents_in splits p ≡ lents_seen p sights.now) }
    ensures whole { IfOk result (λ splits. lents_in splits [] ≡ []) }
{
    let mut splits = BTreeMap::new(alloc);
    for sight in sights {
        note_splits(&mut splits, alloc, sight.uuid, sight.receipts.as_slice())?;
    }
    Ok(splits)
}

// Notes the splits among the receipts that stand in this package.
fn note_splits(
    splits: &mut BTreeMap<Uuid, Vec<Lent>>,
    alloc: Global,
    home: Uuid,
    receipts: &[Receipt],
) -> Result<(), AllocError>
    ensures noted { IfOk result (λ _. (p : List ℕ) → lents_in splits.new p ≡ lents_in splits.old p
        ++ lents_among home p receipts.now) }
    ensures whole { IfOk result (λ _. lents_in splits.new [] ≡ lents_in splits.old []) }
{
    for receipt in receipts {
        note_receipt(splits, alloc, home, receipt)?;
    }
    Ok(())
}

// Notes a receipt where it is a split.
fn note_receipt(
    splits: &mut BTreeMap<Uuid, Vec<Lent>>,
    alloc: Global,
    home: Uuid,
    receipt: &Receipt,
) -> Result<(), AllocError>
    ensures noted { IfOk result (λ _. (p : List ℕ) → lents_in splits.new p ≡ lents_in splits.old p
        ++ lents_by home p receipt.now) }
    ensures whole { IfOk result (λ _. lents_in splits.new [] ≡ lents_in splits.old []) }
{
    let Some(target) = receipt.target else {
        return Ok(());
    };
    if !is_split(receipt) {
        return Ok(());
    }
    let lent = Lent {
        seq: receipt.seq,
        home,
    };
    note_split(splits, alloc, target, lent)?;
    Ok(())
}

// Notes a split of this target.
fn note_split(
    splits: &mut BTreeMap<Uuid, Vec<Lent>>,
    alloc: Global,
    target: Uuid,
    lent: Lent,
) -> Result<(), AllocError>
    ensures noted { IfOk result (λ _. (p : List ℕ) → lents_in splits.new p ≡ lents_in splits.old p
        ++ (if bytes_eq target p then lent ∷ [] else [])) }
    ensures whole { IfOk result (λ _. bytes_eq target [] ≡ false) }
{
    fits(target);
    let mut lents = take_lents(splits, alloc, target);
    lents.push(lent)?;
    splits.insert(target, lents)?;
    Ok(())
}

// Takes out the splits that have this package as target.
fn take_lents(splits: &mut BTreeMap<Uuid, Vec<Lent>>, alloc: Global, target: Uuid) -> Vec<Lent>
    ensures lents { result.items ≡ lents_in splits.old target }
    ensures taken { Updates (slice_cmp nat_cmp) splits.old splits.new target None }
{
    match splits.remove(&target) {
        Some(lents) => lents,
        None => Vec::new(alloc),
    }
}

/// The splits that have this package as target.
pub fn lents_of(splits: &BTreeMap<Uuid, Vec<Lent>>, target: Uuid) -> &[Lent]
    ensures { result.now ≡ lents_in splits.now target }
{
    match splits.get(&target) {
        Some(lents) => lents.as_slice(),
        None => &[],
    }
}
