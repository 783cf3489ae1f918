//! All rows of a table by itself, whatever other tables a store has: what is read of stores of both versions.
ghost use Rattle.std.specs.Ordering.{on, int_cmp};
ghost use Rattle.sqlite.specs.Held.{state};
ghost use Rattle.store_sql.specs.Transactions.{Rests, Looks};
ghost use Rattle.package_tables.specs.Calls.{AreAll};
ghost use Rattle.package_tables.specs.Shape.{rows_of, IsFormed};
ghost use Rattle.package_tables.specs.Shapes.{moved_shape, receipt_shape};
ghost use Rattle.package_schema.specs.Looking.{Sees};

use package_tables::fault::Fault;
use package_tables::from_row::all_of;
use package_tables::rows::{MovedRow, ReceiptRow};
use sqlite::{Alter, Connection};
use std::alloc::Global;

/// The rows of the table of receipts, by their numbers.
pub fn receipt_rows<S: Alter>(
    conn: &mut Connection<S>,
    alloc: Global,
) -> Result<Vec<ReceiptRow>, Fault>
    requires { Rests (state S.Store conn.old) }
    ensures { Looks (Sees (λ db found. IsFormed receipt_shape db
        → AreAll (on (λ x. x.seq) int_cmp) (rows_of receipt_shape db) found.items)) (state S.Store conn.old)
        (state S.Store conn.new) result }
{
    all_of(
        alloc,
        conn.query_all("SELECT * FROM sheet_receipts ORDER BY seq", &[]),
    )
}

/// The rows of what receipts moved, by the numbers of the receipts.
pub fn moved_rows<S: Alter>(conn: &mut Connection<S>, alloc: Global) -> Result<Vec<MovedRow>, Fault>
    requires { Rests (state S.Store conn.old) }
    ensures { Looks (Sees (λ db found. IsFormed moved_shape db
        → AreAll (on (λ x. x.seq) int_cmp) (rows_of moved_shape db) found.items)) (state S.Store conn.old)
        (state S.Store conn.new) result }
{
    all_of(
        alloc,
        conn.query_all("SELECT * FROM sheet_items ORDER BY seq", &[]),
    )
}
