//! When the receipt of a number was made.
ghost use Rattle.std.specs.Prelude.{◌≡◌, map, IfOk};
ghost use Rattle.sqlite.specs.Held.{state};
ghost use Rattle.store_sql.specs.Transactions.{Rests, Looks};
ghost use Rattle.identity_register.specs.Calls.{Sees};
ghost use Rattle.view_history.specs.Stores.{AreAtRest, AsksStores};
ghost use Rattle.view_history.specs.Told.{before_of, either, first_found, ledger_of, moment_in, moment_of};

use crate::asking::ask_each;
use custody::column_number;
use package_tables::fault::Fault;
use package_tables::receipts::receipt_after;
use package_tables::rows::ReceiptRow;
use sheet_types::collections::Text;
use sqlite::{Alter, Connection};
use std::alloc::Global;
use world::asking::Question;

/// The number before another.
fn before(number: u64) -> Result<i64, Fault>
    ensures { IfOk result (λ before. before ≡ before_of number) }
{
    if number == 0 {
        return Ok(-1);
    }
    let before = column_number(number - 1)?;
    Ok(before)
}

/// The moment of a row, if it is of this number.
fn moment_in(row: ReceiptRow, seq: i64) -> Option<Text>
    ensures { result ≡ moment_in row seq }
{
    if row.seq == seq { Some(row.at) } else { None }
}

/// The moment of the receipt of a number in the package of a store, if it stands there.
fn moment_at<S: Alter>(conn: &mut Connection<S>, number: u64) -> Result<Option<Text>, Fault>
    requires { Rests (state S.Store conn.old) }
    ensures { Looks (Sees (λ f p found. found ≡ moment_of p.receipts number)) (state S.Store conn.old)
        (state S.Store conn.new) result }
{
    let before = before(number)?;
    let seq = column_number(number)?;
    match receipt_after(conn, before)? {
        Some(row) => Ok(moment_in(row, seq)),
        None => Ok(None),
    }
}

/// The moment of the receipt of a number, if it stands in a package.
#[derive(Clone, Copy)]
pub struct MomentOf {
    pub number: u64,
}

impl<S: Alter> Question<S, Option<Text>> for MomentOf {
    ghost use Rattle.std.specs.Prelude.{◌≡◌};
    ghost use Rattle.view_history.specs.Told.{moment_of};

    ghost tells = { λ question p found. found ≡ moment_of p.receipts question.number };

    fn ask(&self, conn: &mut Connection<S>, alloc: Global) -> Result<Option<Text>, Fault> {
        moment_at(conn, self.number)
    }
}

/// The one, or where it is none the other.
fn either(one: Option<Text>, other: Option<Text>) -> Option<Text>
    ensures { result ≡ either one other }
{
    match one {
        Some(at) => Some(at),
        None => other,
    }
}

/// The first that is there.
pub fn first_found(found: Vec<Option<Text>>) -> Option<Text>
    ensures { result ≡ first_found found.items }
{
    found
        .into_iter()
        .fold(None, |first, one| either(first, one))
}

/// The moment of the receipt of a number, if it stands in one of the packages of stores. Each is
/// asked by the key of its receipts.
///
/// # Errors
///
/// Want of memory, a store that failed, or a number of 2^63 or more, which a column of integers
/// cannot have. All stores are as they were.
pub fn moment_of<S: Alter + Drop>(
    stores: &mut Vec<Connection<S>>,
    alloc: Global,
    number: u64,
) -> Result<Option<Text>, Fault>
    requires { AreAtRest S.Store stores.old.items }
    ensures { AsksStores S.Store (λ packages found. found ≡ moment_of (ledger_of packages) number) stores.old.items
        stores.new.items result }
{
    let found = ask_each(stores, alloc, &MomentOf { number })?;
    Ok(first_found(found))
}

/// The same of each of these numbers, in turn.
///
/// # Errors
///
/// Those of `moment_of`.
pub fn moments_of<S: Alter + Drop>(
    stores: &mut Vec<Connection<S>>,
    alloc: Global,
    numbers: &[u64],
) -> Result<Vec<Option<Text>>, Fault>
    requires { AreAtRest S.Store stores.old.items }
    ensures { AsksStores S.Store (λ packages moments. moments.items
        ≡ map (moment_of (ledger_of packages)) numbers.now) stores.old.items stores.new.items result }
{
    let mut moments = Vec::new(alloc);
    for at in 0..numbers.len() {
        let moment = moment_of(stores, alloc, numbers[at])?;
        moments.push(moment)?;
    }
    Ok(moments)
}
