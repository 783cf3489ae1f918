//! Whether each merge stands where the split of its source stands.
ghost use Rattle.std.specs.Prelude.{◌≡◌, ◌↔◌, [], IsTrue};
ghost use Rattle.std.specs.List.{AllByRecursion};
ghost use Rattle.sheet_types.specs.World.{World};
ghost use Rattle.sheet_ledger.specs.Parts.{AreTogether};
ghost use Rattle.sheet_balance.specs.Sights.{IsSeen};
ghost use Rattle.sheet_balance.specs.Splits.{HasSplits, StandsBefore, UndoesBy, lents_in};

use crate::sights::Sight;
use crate::splits::{Lent, lents_of};
use sheet_ledger::loans::is_merge;
use sheet_types::receipt::Receipt;
use std::collections::BTreeMap;
use uuid::Uuid;

/// Whether each merge stands in the package in which each split of its source before it stands, by
/// the splits that stand in the packages. No split has an empty target.
pub fn are_together(splits: &BTreeMap<Uuid, Vec<Lent>>, sights: &[Sight]) -> bool
    requires { lents_in splits.now [] ≡ [] }
    ensures { (w : World) → IsSeen sights.now w → HasSplits splits.now w → IsTrue result ↔ AreTogether w }
{
    all_together(splits, sights)
}

// The same by the splits.
fn all_together(splits: &BTreeMap<Uuid, Vec<Lent>>, sights: &[Sight]) -> bool
    requires { lents_in splits.now [] ≡ [] }
    ensures { IsTrue result ↔ AllByRecursion (λ s. AllByRecursion (UndoesBy splits.now s.uuid) s.receipts.items)
        sights.now }
{
    for sight in sights {
        if !undo_here(splits, sight.uuid, sight.receipts.as_slice()) {
            return false;
        }
    }
    true
}

// Whether each merge among the receipts of this package undoes splits that stand here.
fn undo_here(splits: &BTreeMap<Uuid, Vec<Lent>>, home: Uuid, receipts: &[Receipt]) -> bool
    requires { lents_in splits.now [] ≡ [] }
    ensures { IsTrue result ↔ AllByRecursion (UndoesBy splits.now home) receipts.now }
{
    for receipt in receipts {
        if !undoes_here(splits, home, receipt) {
            return false;
        }
    }
    true
}

// Whether a receipt of this package is no merge, or one of a package that was lent here. What has
// no source undoes nothing.
fn undoes_here(splits: &BTreeMap<Uuid, Vec<Lent>>, home: Uuid, receipt: &Receipt) -> bool
    requires { lents_in splits.now [] ≡ [] }
    ensures { IsTrue result ↔ UndoesBy splits.now home receipt.now }
{
    if !is_merge(receipt) {
        return true;
    }
    match receipt.source {
        Some(source) => stood_here(lents_of(splits, source), home, receipt.seq),
        None => true,
    }
}

// Whether each of these splits that came before this number stands here.
fn stood_here(lents: &[Lent], home: Uuid, seq: u64) -> bool
    ensures { IsTrue result ↔ AllByRecursion (StandsBefore home seq) lents.now }
{
    for lent in lents {
        if !stands_before(lent, home, seq) {
            return false;
        }
    }
    true
}

// Whether the split stands here, if it came before this number.
fn stands_before(lent: &Lent, home: Uuid, seq: u64) -> bool
    ensures { IsTrue result ↔ StandsBefore home seq lent.now }
{
    (seq <= lent.seq) | (lent.home == home)
}
