//! The statements on `sheet_items`.
ghost use Rattle.std.specs.Prelude.{◌≡◌, ◌&&◌, bytes_eq};
ghost use Rattle.std.specs.Ordering.{int_cmp, int_eq, on};
ghost use Rattle.sqlite.specs.State.{Survives};
ghost use Rattle.sqlite.specs.Held.{state};
ghost use Rattle.store_sql.specs.Transactions.{Rests};
ghost use Rattle.package_tables.specs.Calls.{Makes, LooksUp, IsOneOf, AreThose, Rises, AreAll};
ghost use Rattle.package_tables.specs.Listed.{moved};
ghost use Rattle.package_tables.specs.Changes.{Adds};

use crate::fault::{Fault, drop_count};
use crate::from_row::{FromRow, all_of, first_of, number_at, text_at};
use crate::rows::MovedRow;
use sqlite::{Alter, Connection, Row, Transaction, params};
use std::alloc::Global;

/// Enters one thing that a receipt moved, at a position of it that is free.
pub fn insert_moved<S: Alter>(
    tx: &mut Transaction<'_, S>,
    seq: i64,
    position: i64,
    kind: i64,
    base: &str,
    other: &str,
    size: i64,
    fingerprint: &str,
) -> Result<(), Fault>
    ensures same_reference { tx.new.conn.ghost_name ≡ tx.old.conn.ghost_name }
    ensures wrote { Makes (Adds moved (record {
      seq = seq;
      position = position;
      kind = kind;
      base = base.now;
      other = other.now;
      size = size;
      fingerprint = fingerprint.now;
    })) (state S.Store tx.old.conn.now)
        (state S.Store tx.new.conn.now) result }
    ensures survives { Survives (state S.Store tx.old.conn.now) (state S.Store tx.new.conn.now) (λ _. ⊥) }
{
    drop_count(tx.execute(
        "INSERT INTO sheet_items VALUES (?1, ?2, ?3, ?4, ?5, ?6, ?7)",
        params![seq, position, kind, base, other, size, fingerprint],
    ))
}

impl FromRow for MovedRow {
    ghost use Rattle.package_tables.specs.Shown.{moved_shown};

    ghost shown = { moved_shown };

    fn from_row(row: &Row) -> Result<MovedRow, Fault> {
        if row.column_count() != 7 {
            return Err(Fault::StoreFault);
        }
        Ok(MovedRow {
            seq: number_at(row, 0)?,
            position: number_at(row, 1)?,
            kind: number_at(row, 2)?,
            size: number_at(row, 5)?,
            base: text_at(row, 3)?,
            other: text_at(row, 4)?,
            fingerprint: text_at(row, 6)?,
        })
    }
}

/// What a receipt moved, in the order of the positions.
pub fn moved_of<S: Alter>(
    conn: &mut Connection<S>,
    alloc: Global,
    seq: i64,
) -> Result<Vec<MovedRow>, Fault>
    requires { Rests (state S.Store conn.old) }
    ensures { LooksUp (λ t found. AreThose (λ x. int_eq x.seq seq) t.moved found.items
        × Rises (λ x. x.position) found.items) (state S.Store conn.old) (state S.Store conn.new) result }
{
    all_of(
        alloc,
        conn.query_all(
            "SELECT * FROM sheet_items WHERE seq = ?1 ORDER BY position",
            params![seq],
        ),
    )
}

/// What a receipt moved at a position, where there is such a thing.
pub fn moved_at<S: Alter>(
    conn: &mut Connection<S>,
    seq: i64,
    position: i64,
) -> Result<Option<MovedRow>, Fault>
    requires { Rests (state S.Store conn.old) }
    ensures { LooksUp (λ t. IsOneOf (λ x. int_eq x.seq seq && int_eq x.position position) t.moved)
        (state S.Store conn.old) (state S.Store conn.new) result }
{
    first_of(conn.query_all(
        "SELECT * FROM sheet_items WHERE seq = ?1 AND position = ?2",
        params![seq, position],
    ))
}

/// Some thing that was moved, has this identity and is of the kind of this number, where there is one.
pub fn moved_of_kind<S: Alter>(
    conn: &mut Connection<S>,
    base: &str,
    kind: i64,
) -> Result<Option<MovedRow>, Fault>
    requires { Rests (state S.Store conn.old) }
    ensures { LooksUp (λ t. IsOneOf (λ x. bytes_eq x.base base.now && int_eq x.kind kind) t.moved)
        (state S.Store conn.old) (state S.Store conn.new) result }
{
    first_of(conn.query_all(
        "SELECT * FROM sheet_items WHERE base = ?1 AND kind = ?2",
        params![base, kind],
    ))
}

/// All that receipts moved, by the numbers of the receipts.
pub fn all_moved<S: Alter>(conn: &mut Connection<S>, alloc: Global) -> Result<Vec<MovedRow>, Fault>
    requires { Rests (state S.Store conn.old) }
    ensures { LooksUp (λ t found. AreAll (on (λ x. x.seq) int_cmp) t.moved found.items) (state S.Store conn.old)
        (state S.Store conn.new) result }
{
    all_of(
        alloc,
        conn.query_all("SELECT * FROM sheet_items ORDER BY seq", &[]),
    )
}
