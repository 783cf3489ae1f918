//! The rows of both tables by the receipts' numbers: all numbers, or those of a range.
ghost use Rattle.std.specs.Prelude.{true};
ghost use Rattle.sqlite.specs.Held.{state};
ghost use Rattle.store_sql.specs.Transactions.{Rests};
ghost use Rattle.package_tables.specs.Calls.{LooksUp, AreThose, AreNumbersOf};
ghost use Rattle.package_receipts.specs.Read.{is_between};

use package_tables::fault::Fault;
use package_tables::from_row::all_of;
use package_tables::rows::{MovedRow, ReceiptRow};
use sqlite::{Alter, Connection, params};
use std::alloc::Global;

/// The numbers of all receipts, in any order.
pub(crate) fn numbers_of_receipts<S: Alter>(
    conn: &mut Connection<S>,
    alloc: Global,
) -> Result<Vec<i64>, Fault>
    requires { Rests (state S.Store conn.old) }
    ensures { LooksUp (λ t found. AreNumbersOf (λ x. x.seq) (λ x. true) t.receipts found.items)
        (state S.Store conn.old) (state S.Store conn.new) result }
{
    all_of(alloc, conn.query_all("SELECT seq FROM sheet_receipts", &[]))
}

/// The rows of the receipts whose numbers come after one and not after another; either may be left out.
pub(crate) fn rows_between<S: Alter>(
    conn: &mut Connection<S>,
    alloc: Global,
    after: Option<i64>,
    end: Option<i64>,
) -> Result<Vec<ReceiptRow>, Fault>
    requires { Rests (state S.Store conn.old) }
    ensures { LooksUp (λ t found. AreThose (λ x. is_between after end x.seq) t.receipts found.items)
        (state S.Store conn.old) (state S.Store conn.new) result }
{
    match after {
        None => match end {
            None => all_of(
                alloc,
                conn.query_all("SELECT * FROM sheet_receipts ORDER BY seq", &[]),
            ),
            Some(last) => all_of(
                alloc,
                conn.query_all(
                    "SELECT * FROM sheet_receipts WHERE seq <= ?1 ORDER BY seq",
                    params![last],
                ),
            ),
        },
        Some(before) => match end {
            None => all_of(
                alloc,
                conn.query_all(
                    "SELECT * FROM sheet_receipts WHERE seq > ?1 ORDER BY seq",
                    params![before],
                ),
            ),
            Some(last) => all_of(
                alloc,
                conn.query_all(
                    "SELECT * FROM sheet_receipts WHERE seq > ?1 AND seq <= ?2 ORDER BY seq",
                    params![before, last],
                ),
            ),
        },
    }
}

/// The rows of what the receipts of such numbers moved.
pub(crate) fn moved_between<S: Alter>(
    conn: &mut Connection<S>,
    alloc: Global,
    after: Option<i64>,
    end: Option<i64>,
) -> Result<Vec<MovedRow>, Fault>
    requires { Rests (state S.Store conn.old) }
    ensures { LooksUp (λ t found. AreThose (λ x. is_between after end x.seq) t.moved found.items)
        (state S.Store conn.old) (state S.Store conn.new) result }
{
    match after {
        None => match end {
            None => all_of(
                alloc,
                conn.query_all("SELECT * FROM sheet_items ORDER BY seq", &[]),
            ),
            Some(last) => all_of(
                alloc,
                conn.query_all(
                    "SELECT * FROM sheet_items WHERE seq <= ?1 ORDER BY seq",
                    params![last],
                ),
            ),
        },
        Some(before) => match end {
            None => all_of(
                alloc,
                conn.query_all(
                    "SELECT * FROM sheet_items WHERE seq > ?1 ORDER BY seq",
                    params![before],
                ),
            ),
            Some(last) => all_of(
                alloc,
                conn.query_all(
                    "SELECT * FROM sheet_items WHERE seq > ?1 AND seq <= ?2 ORDER BY seq",
                    params![before, last],
                ),
            ),
        },
    }
}
