//! The receipts of a store that may be damaged: whether its rows of receipts, and of what they
//! moved, are in their ranges, and the receipts that they then say.
#![tactic(auto)]

mod between;
pub mod laws;
mod rows;
mod walk;

ghost use Rattle.std.specs.Prelude.{◌≡◌, true, IsTrue, ◌↔◌, MatchOption, IfOk, IfSome, IfNone, IsPermutation};
ghost use Rattle.std.specs.Prelude.{List};
ghost use Rattle.sqlite.specs.Held.{state};
ghost use Rattle.sqlite_trees.specs.Tree.{IsAscending};
ghost use Rattle.store_sql.specs.Transactions.{Rests};
ghost use Rattle.package_tables.specs.Calls.{LooksUp};
ghost use Rattle.package_tables.specs.declared.rows.MovedRow.{MovedRow};
ghost use Rattle.package_receipts.specs.Ranges.{AreReceiptsInRange};
ghost use Rattle.package_receipts.specs.Read.{IsEarlier, InTurn, AreReceipts, AreReadAs, AreSaid};
ghost use Rattle.package_receipts.specs.Read.{AreSaidUnder, GoesOn, is_between, is_past};

use crate::between::{moved_between, numbers_of_receipts, rows_between};
use crate::walk::receipts_of;
use package_tables::fault::Fault;
use package_tables::rows::{MovedRow, ReceiptRow};
use sheet_types::receipt::Receipt;
use sqlite::{Alter, Connection};
use std::alloc::{AllocError, Global};

/// Of how many receipts the rows are in memory at a time, and the rows of what they moved.
const PART: usize = 4_000;

/// Whether the numbers of receipts rise.
fn rise(rows: &[ReceiptRow]) -> bool
    ensures { IsTrue result → IsAscending IsEarlier rows.now }
{
    for place in 1..rows.len() {
        if rows[place - 1].seq >= rows[place].seq {
            return false;
        }
    }
    true
}

/// The rows of what was moved, by the receipts' numbers and by their places.
fn in_turn(mut moved: Vec<MovedRow>) -> Vec<MovedRow>
    ensures same { IsPermutation moved.items result.items }
    ensures turn { IsAscending InTurn result.items }
{
    moved.sort_unstable_by_key(|row| (row.seq, row.position));
    moved
}

/// The receipts that rows say, which stand in the order of the receipts' numbers; `None` where the
/// rows are not in their ranges.
fn receipts_in(
    alloc: Global,
    rows: Vec<ReceiptRow>,
    moved: Vec<MovedRow>,
) -> Result<Option<Vec<Receipt>>, Fault>
    ensures some { IfOk result (λ found. IfSome found (λ entered. AreReadAs rows.items moved.items entered.items)) }
    ensures none { IfOk result (λ found. IfNone found (AreReceiptsInRange rows.items moved.items → ⊥)) }
{
    if !rise(&rows) {
        return Err(Fault::StoreFault);
    }
    let moved = in_turn(moved);
    receipts_of(alloc, rows.into_iter(), &moved)
}

/// The receipts of the numbers after one and not after another, either of which may be left out, in
/// the order of the numbers; `None` where rows of the tables are not in their ranges.
fn receipts_between<S: Alter>(
    conn: &mut Connection<S>,
    alloc: Global,
    after: Option<i64>,
    end: Option<i64>,
) -> Result<Option<Vec<Receipt>>, Fault>
    requires { Rests (state S.Store conn.old) }
    ensures { LooksUp (λ t found. MatchOption found (AreReceiptsInRange t.receipts t.moved → ⊥)
        (λ part. AreSaidUnder (is_between after end) t part.items)) (state S.Store conn.old)
        (state S.Store conn.new) result }
{
    let rows = rows_between(conn, alloc, after, end)?;
    let moved = moved_between(conn, alloc, after, end)?;
    receipts_in(alloc, rows, moved)
}

/// Puts the receipts of the next numbers behind those that were entered. Tells whether all rows of
/// these numbers are in their ranges.
fn go_on<S: Alter>(
    conn: &mut Connection<S>,
    alloc: Global,
    entered: &mut Vec<Receipt>,
    after: Option<i64>,
    end: Option<i64>,
) -> Result<bool, Fault>
    requires rests { Rests (state S.Store conn.old) }
    requires apart { IfSome end (λ last. is_past after last ≡ true) }
    ensures { LooksUp (λ t went. GoesOn after end t entered.old.items entered.new.items went)
        (state S.Store conn.old) (state S.Store conn.new) result }
{
    let Some(mut part) = receipts_between(conn, alloc, after, end)? else {
        return Ok(false);
    };
    entered.append(&mut part)?;
    Ok(true)
}

/// Whether a number comes after another; any does where there is no other.
fn is_past(before: Option<i64>, number: i64) -> bool
    ensures { result ≡ is_past before number }
{
    match before {
        None => true,
        Some(before) => before < number,
    }
}

/// The last number of each part of a table of receipts but the last part. No answer rests on which
/// numbers these are.
fn part_ends(alloc: Global, mut numbers: Vec<i64>) -> Result<Vec<i64>, AllocError> {
    numbers.sort_unstable();
    let mut ends = Vec::new(alloc);
    for place in 0..numbers.len() {
        if place % PART == PART - 1 {
            ends.push(numbers[place])?;
        }
    }
    Ok(ends)
}

/// The receipts of a store at rest whose tables have their form, in the order of their numbers;
/// `None` where its rows of receipts, and of what they moved, are not in their ranges. The rows are
/// read a part at a time, and go when their receipts are made.
///
/// # Errors
///
/// Want of memory, a store that failed, or a number of a receipt that is there twice. The store is as it was.
pub fn receipts<S: Alter>(
    conn: &mut Connection<S>,
    alloc: Global,
) -> Result<Option<Vec<Receipt>>, Fault>
    requires { Rests (state S.Store conn.old) }
    ensures { LooksUp (λ t found. MatchOption found (AreReceiptsInRange t.receipts t.moved → ⊥)
        (λ entered. AreSaid t entered.items)) (state S.Store conn.old) (state S.Store conn.new) result }
{
    let numbers = numbers_of_receipts(conn, alloc)?;
    let mut entered = Vec::with_capacity(alloc, numbers.len())?;
    let ends = part_ends(alloc, numbers)?;
    let mut after = None;
    for place in 0..ends.len() {
        let end = ends[place];
        if is_past(after, end) {
            if !go_on(conn, alloc, &mut entered, after, Some(end))? {
                return Ok(None);
            }
            after = Some(end);
        }
    }
    if go_on(conn, alloc, &mut entered, after, None)? {
        Ok(Some(entered))
    } else {
        Ok(None)
    }
}

/// Whether the rows of receipts, and of what they moved, are in their ranges, of a store at rest
/// whose tables have their form.
///
/// # Errors
///
/// Those of `receipts`.
pub fn are_in_range<S: Alter>(conn: &mut Connection<S>, alloc: Global) -> Result<bool, Fault>
    requires { Rests (state S.Store conn.old) }
    ensures { LooksUp (λ t answer. IsTrue answer ↔ AreReceiptsInRange t.receipts t.moved) (state S.Store conn.old)
        (state S.Store conn.new) result }
{
    let found = receipts(conn, alloc)?;
    Ok(found.is_some())
}
