//! The statements on `sheet_rows`.
ghost use Rattle.std.specs.Prelude.{◌≡◌, ◌&&◌, int_le, int_lt, map};
ghost use Rattle.std.specs.Ordering.{int_eq, int_cmp, on};
ghost use Rattle.sqlite.specs.State.{Survives};
ghost use Rattle.sqlite.specs.Held.{state};
ghost use Rattle.store_sql.specs.Transactions.{Rests};
ghost use Rattle.package_tables.specs.Calls.{Makes, LooksUp, IsOneOf, AreNumbersOf, AreAll};
ghost use Rattle.package_tables.specs.Listed.{attributes};
ghost use Rattle.package_tables.specs.Changes.{Adds, DropsAttribute};

use crate::fault::{Fault, drop_count};
use crate::from_row::{FromRow, all_of, first_of, number_at, text_at};
use crate::numbers::numbers_of;
use crate::rows::AttributeRow;
use sqlite::{Alter, Connection, Row, Transaction, params};
use std::alloc::Global;

impl FromRow for AttributeRow {
    ghost use Rattle.package_tables.specs.Shown.{attribute_shown};

    ghost shown = { attribute_shown };

    fn from_row(row: &Row) -> Result<AttributeRow, Fault> {
        if row.column_count() != 5 {
            return Err(Fault::StoreFault);
        }
        Ok(AttributeRow {
            id: number_at(row, 0)?,
            x: number_at(row, 1)?,
            y: number_at(row, 2)?,
            code: number_at(row, 3)?,
            label: text_at(row, 4)?,
        })
    }
}

/// Puts an attributes row in, under a number that is free.
pub fn insert_attribute<S: Alter>(
    tx: &mut Transaction<'_, S>,
    id: i64,
    x: i64,
    y: i64,
    code: i64,
    label: &str,
) -> Result<(), Fault>
    ensures same_reference { tx.new.conn.ghost_name ≡ tx.old.conn.ghost_name }
    ensures wrote { Makes (Adds attributes (record { id = id; x = x; y = y; code = code; label = label.now }))
        (state S.Store tx.old.conn.now) (state S.Store tx.new.conn.now) result }
    ensures survives { Survives (state S.Store tx.old.conn.now) (state S.Store tx.new.conn.now) (λ _. ⊥) }
{
    drop_count(tx.execute(
        "INSERT INTO sheet_rows VALUES (?1, ?2, ?3, ?4, ?5)",
        params![id, x, y, code, label],
    ))
}

/// Takes out the attributes row of this number.
pub fn delete_attribute<S: Alter>(tx: &mut Transaction<'_, S>, id: i64) -> Result<(), Fault>
    ensures same_reference { tx.new.conn.ghost_name ≡ tx.old.conn.ghost_name }
    ensures wrote { Makes (DropsAttribute id) (state S.Store tx.old.conn.now) (state S.Store tx.new.conn.now) result }
    ensures survives { Survives (state S.Store tx.old.conn.now) (state S.Store tx.new.conn.now) (λ _. ⊥) }
{
    drop_count(tx.execute("DELETE FROM sheet_rows WHERE id = ?1", params![id]))
}

/// The attributes row of this number.
pub fn attribute_by_id<S: Alter>(
    conn: &mut Connection<S>,
    id: i64,
) -> Result<Option<AttributeRow>, Fault>
    requires { Rests (state S.Store conn.old) }
    ensures { LooksUp (λ t. IsOneOf (λ x. int_eq x.id id) t.rows) (state S.Store conn.old) (state S.Store conn.new)
        result }
{
    first_of(conn.query_all("SELECT * FROM sheet_rows WHERE id = ?1", params![id]))
}

/// All attributes rows, by their numbers.
pub fn all_attributes<S: Alter>(
    conn: &mut Connection<S>,
    alloc: Global,
) -> Result<Vec<AttributeRow>, Fault>
    requires { Rests (state S.Store conn.old) }
    ensures { LooksUp (λ t found. AreAll (on (λ x. x.id) int_cmp) t.rows found.items) (state S.Store conn.old)
        (state S.Store conn.new) result }
{
    all_of(
        alloc,
        conn.query_all("SELECT * FROM sheet_rows ORDER BY id", &[]),
    )
}

/// The numbers of all attributes rows, in the order of the table.
pub fn attribute_ids<S: Alter>(conn: &mut Connection<S>, alloc: Global) -> Result<Vec<i64>, Fault>
    requires { Rests (state S.Store conn.old) }
    ensures { LooksUp (λ t found. found.items ≡ map (λ r. r.id) t.rows) (state S.Store conn.old)
        (state S.Store conn.new) result }
{
    numbers_of(alloc, conn.query_all("SELECT id FROM sheet_rows", &[]))
}

/// The numbers of the attributes rows of the points from west on and before east, north of south and not beyond north.
pub fn attribute_ids_within<S: Alter>(
    conn: &mut Connection<S>,
    alloc: Global,
    west: i64,
    east: i64,
    south: i64,
    north: i64,
) -> Result<Vec<i64>, Fault>
    requires { Rests (state S.Store conn.old) }
    ensures { LooksUp (λ t found. AreNumbersOf (λ r. r.id) (λ x. int_le west x.x && int_lt x.x east && int_lt south
        x.y && int_le x.y north) t.rows found.items) (state S.Store conn.old) (state S.Store conn.new) result }
{
    all_of(
        alloc,
        conn.query_all(
            "SELECT id FROM sheet_rows WHERE x >= ?1 AND x < ?2 AND y > ?3 AND y <= ?4",
            params![west, east, south, north],
        ),
    )
}
