//! All rows of receipts, and of what they moved, in the order of the receipts' numbers and of the places.
ghost use Rattle.std.specs.Prelude.{◌≡◌, ◌+◌, ◌<◌, ◌≤◌, ◌<ℤ◌, ◌≤ℤ◌, ◌↔◌, pos};
ghost use Rattle.std.specs.Prelude.{take, length, slice_index_or, IsTrue};
ghost use Rattle.std.specs.Prelude.{IfOk, IfSome, IfNone};
ghost use Rattle.std.specs.List.{AllByRecursion};
ghost use Rattle.std.specs.Vec.Iter.{into_iter_items, into_iter_len};
ghost use Rattle.sqlite_trees.specs.Tree.{IsAscending};
ghost use Rattle.package_tables.specs.declared.rows.MovedRow.{MovedRow};
ghost use Rattle.package_receipts.specs.Ranges.{IsReceiptInRange, AreReceiptsInRange};
ghost use Rattle.package_receipts.specs.Read.{StandFrom, AreThingsOf, IsReceiptAt, IsEarlier, InTurn, AreReceipts};

use crate::rows::{end_of, receipt_of, thing_of, uuid_of};
use package_tables::fault::Fault;
use package_tables::rows::{MovedRow, ReceiptRow};
use sheet_types::collections::MovedList;
use sheet_types::receipt::Receipt;
use std::alloc::Global;
use std::vec::IntoIter;

/// Whether a row stands under a number at a place.
fn stands_at(row: &MovedRow, seq: i64, place: usize) -> bool
    ensures { IsTrue result ↔ ((row.now.seq ≡ seq) × (row.now.position ≡ pos place)) }
{
    row.seq == seq && row.position >= 0 && row.position as u64 == place as u64
}

/// The things of rows that stand under a number at 0 and the places after it; `None` where a row
/// does not, or is out of its ranges.
// The ends are read here, since the borrow checker plans a loop over the types alone that its body names.
fn things_of(alloc: Global, seq: i64, rows: &[MovedRow]) -> Result<Option<MovedList>, Fault>
    ensures some { IfOk result (λ found. IfSome found (AreThingsOf seq rows.now)) }
    ensures none { IfOk result (λ found. IfNone found (StandFrom seq 0 rows.now → ⊥)) }
{
    let mut things = Vec::with_capacity(alloc, rows.len())?;
    for place in 0..rows.len() {
        let row = &rows[place];
        if !stands_at(row, seq, place) {
            return Ok(None);
        }
        let Some(base) = uuid_of(row.base.as_str()) else {
            return Ok(None);
        };
        let Some(other) = end_of(row.other.as_str()) else {
            return Ok(None);
        };
        let Some(thing) = thing_of(row, base, other) else {
            return Ok(None);
        };
        things.push(thing)?;
    }
    Ok(Some(MovedList::from_vec(things)))
}

/// The receipt of a row and of the rows of what it moved; `None` where a row is out of its ranges,
/// or does not stand at its place.
fn receipt_at(alloc: Global, row: ReceiptRow, moved: &[MovedRow]) -> Result<Option<Receipt>, Fault>
    ensures some { IfOk result (λ found. IfSome found (IsReceiptAt row moved.now)) }
    ensures none { IfOk result (λ found. IfNone found (IsReceiptInRange row → StandFrom row.seq 0 moved.now
        → ⊥)) }
{
    let Some(things) = things_of(alloc, row.seq, moved)? else {
        return Ok(None);
    };
    Ok(receipt_of(row, things))
}

/// Where the rows of greater numbers begin.
fn end_of_number(rows: &[MovedRow], seq: i64) -> usize
    ensures within { result ≤ length rows.now }
    ensures before { AllByRecursion (λ m. m.seq ≤ℤ seq) (take result rows.now) }
    ensures after { (d : MovedRow) → result < length rows.now → seq <ℤ (slice_index_or rows.now result d).seq }
{
    for place in 0..rows.len() {
        if rows[place].seq > seq {
            return place;
        }
    }
    rows.len()
}

/// The receipts that all rows say, in the order of their numbers; `None` where the rows are not in their ranges.
pub(crate) fn receipts_of(
    alloc: Global,
    rows: IntoIter<ReceiptRow>,
    moved: &[MovedRow],
) -> Result<Option<Vec<Receipt>>, Fault>
    requires long { into_iter_len rows ≡ length (into_iter_items rows) }
    requires rising { IsAscending IsEarlier (into_iter_items rows) }
    requires order { IsAscending InTurn moved.now }
    ensures some { IfOk result (λ found. IfSome found (λ entered. AreReceipts (into_iter_items rows) moved.now
        entered.items)) }
    ensures none { IfOk result (λ found. IfNone found (AreReceiptsInRange (into_iter_items rows) moved.now → ⊥)) }
{
    let mut entered = Vec::with_capacity(alloc, rows.len())?;
    let mut rest = moved;
    for row in rows {
        let (own, others) = rest.split_at(end_of_number(rest, row.seq));
        let Some(receipt) = receipt_at(alloc, row, own)? else {
            return Ok(None);
        };
        entered.push(receipt)?;
        rest = others;
    }
    if rest.is_empty() {
        Ok(Some(entered))
    } else {
        Ok(None)
    }
}
