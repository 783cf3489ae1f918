//! Whether each loan has the number of its split, which stands in its parent and is not undone.
ghost use Rattle.std.specs.Prelude.{◌≡◌, ◌↔◌, ◌&&◌, ◌==◌, bytes_eq, IsTrue, IfOk};
ghost use Rattle.std.specs.List.{list_any, AllByRecursion};
ghost use Rattle.sheet_types.specs.World.{World};
ghost use Rattle.sheet_ledger.specs.Parts.{AreLoans};
ghost use Rattle.sheet_balance.specs.Holders.{IsHeldWith};
ghost use Rattle.sheet_balance.specs.Splits.{HasSplits, IsLoanBy};

use crate::holders::Holder;
use crate::splits::{Lent, lents_of};
use sheet_ledger::loans::{is_open, last_merges};
use sheet_types::error::OutOfMemory;
use sheet_types::receipt::Receipt;
use std::alloc::Global;
use std::collections::BTreeMap;
use uuid::Uuid;

/// Whether each package with a parent is the loan of a split that stands in its parent and has its
/// number, and that no merge of a greater number undoes; by the splits that stand in the packages.
///
/// # Errors
///
/// Want of memory.
pub fn are_loans(
    alloc: Global,
    ledger: &[Receipt],
    splits: &BTreeMap<Uuid, Vec<Lent>>,
    holders: &[Holder],
) -> Result<bool, OutOfMemory>
    ensures { IfOk result (λ loans. (w : World) → IsHeldWith ledger.now holders.now w
        → HasSplits splits.now w → IsTrue loans ↔ AreLoans w) }
{
    let merges = last_merges(alloc, ledger)?;
    Ok(are_loans_seen(&merges, splits, holders))
}

// The same by the last merges and the splits.
fn are_loans_seen(
    merges: &BTreeMap<Uuid, u64>,
    splits: &BTreeMap<Uuid, Vec<Lent>>,
    holders: &[Holder],
) -> bool
    ensures { IsTrue result ↔ AllByRecursion (IsLoanBy merges.now splits.now) holders.now }
{
    for holder in holders {
        if !is_loan(merges, splits, holder) {
            return false;
        }
    }
    true
}

// Whether a package has no parent, or is the loan of a split that stands in its parent and that no later merge undoes.
fn is_loan(
    merges: &BTreeMap<Uuid, u64>,
    splits: &BTreeMap<Uuid, Vec<Lent>>,
    holder: &Holder,
) -> bool
    ensures { IsTrue result ↔ IsLoanBy merges.now splits.now holder.now }
{
    let Some(parent) = holder.parent else {
        return true;
    };
    stands_in(lents_of(splits, holder.uuid), parent, holder.loan)
        & is_open(merges, holder.uuid, holder.loan)
}

// Whether the split of this number that stands in this package is among these.
fn stands_in(lents: &[Lent], home: Uuid, seq: u64) -> bool
    ensures { result ≡ list_any (λ l. bytes_eq l.home home && (l.seq == seq)) lents.now }
{
    lents
        .iter()
        .any(|lent| (lent.home == home) & (lent.seq == seq))
}
