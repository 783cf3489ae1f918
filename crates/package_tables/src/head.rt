//! The statements on `sheet_package`.
ghost use Rattle.std.specs.Prelude.{◌≡◌};
ghost use Rattle.std.specs.Ordering.{on, int_cmp};
ghost use Rattle.sqlite.specs.State.{Survives};
ghost use Rattle.sqlite.specs.Held.{state};
ghost use Rattle.store_sql.specs.Transactions.{Rests};
ghost use Rattle.package_tables.specs.Calls.{Makes, LooksUp, AreAll};
ghost use Rattle.package_tables.specs.Listed.{heads};
ghost use Rattle.package_tables.specs.Changes.{Adds};

use crate::fault::{Fault, drop_count};
use crate::from_row::{FromRow, all_of, number_at, text_at};
use crate::rows::HeadRow;
use sqlite::{Alter, Connection, Row, Transaction, params};
use std::alloc::Global;

/// Enters the head of the package.
pub fn insert_head<S: Alter>(
    tx: &mut Transaction<'_, S>,
    id: i64,
    version: i64,
    package: &str,
    parent: &str,
    depth: i64,
    loan: i64,
    created: &str,
) -> Result<(), Fault>
    ensures same_reference { tx.new.conn.ghost_name ≡ tx.old.conn.ghost_name }
    ensures wrote { Makes (Adds heads (record {
      id = id;
      version = version;
      «package» = «package».now;
      parent = parent.now;
      depth = depth;
      loan = loan;
      created = created.now;
    })) (state S.Store tx.old.conn.now)
        (state S.Store tx.new.conn.now) result }
    ensures survives { Survives (state S.Store tx.old.conn.now) (state S.Store tx.new.conn.now) (λ _. ⊥) }
{
    drop_count(tx.execute(
        "INSERT INTO sheet_package VALUES (?1, ?2, ?3, ?4, ?5, ?6, ?7)",
        params![id, version, package, parent, depth, loan, created],
    ))
}

impl FromRow for HeadRow {
    ghost use Rattle.package_tables.specs.Shown.{head_shown};

    ghost shown = { head_shown };

    fn from_row(row: &Row) -> Result<HeadRow, Fault> {
        if row.column_count() != 7 {
            return Err(Fault::StoreFault);
        }
        Ok(HeadRow {
            id: number_at(row, 0)?,
            version: number_at(row, 1)?,
            depth: number_at(row, 4)?,
            loan: number_at(row, 5)?,
            package: text_at(row, 2)?,
            parent: text_at(row, 3)?,
            created: text_at(row, 6)?,
        })
    }
}

/// The heads; a package has one.
pub fn all_heads<S: Alter>(conn: &mut Connection<S>, alloc: Global) -> Result<Vec<HeadRow>, Fault>
    requires { Rests (state S.Store conn.old) }
    ensures { LooksUp (λ t found. AreAll (on (λ x. x.id) int_cmp) t.heads found.items) (state S.Store conn.old)
        (state S.Store conn.new) result }
{
    all_of(
        alloc,
        conn.query_all("SELECT * FROM sheet_package ORDER BY id", &[]),
    )
}
