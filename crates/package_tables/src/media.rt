//! The statements on `sheet_media`.
ghost use Rattle.std.specs.Prelude.{◌≡◌, map};
ghost use Rattle.std.specs.Ordering.{int_eq, int_cmp, on};
ghost use Rattle.sqlite.specs.State.{Survives};
ghost use Rattle.sqlite.specs.Held.{state};
ghost use Rattle.store_sql.specs.Transactions.{Rests};
ghost use Rattle.package_tables.specs.Calls.{Makes, LooksUp, IsOneOf, AreAll};
ghost use Rattle.package_tables.specs.Listed.{media};
ghost use Rattle.package_tables.specs.Changes.{Adds, DropsMedium};

use crate::fault::{Fault, drop_count};
use crate::from_row::{FromRow, all_of, bytes_at, first_of, number_at, text_at};
use crate::numbers::numbers_of;
use crate::rows::MediaRow;
use sqlite::{Alter, Connection, Row, Transaction, params};
use std::alloc::Global;

impl FromRow for MediaRow {
    ghost use Rattle.package_tables.specs.Shown.{medium_shown};

    ghost shown = { medium_shown };

    fn from_row(row: &Row) -> Result<MediaRow, Fault> {
        if row.column_count() != 3 {
            return Err(Fault::StoreFault);
        }
        Ok(MediaRow {
            id: number_at(row, 0)?,
            data: bytes_at(row, 1)?,
            content_type: text_at(row, 2)?,
        })
    }
}

/// Puts a medium in, under a number that is free.
pub fn insert_medium<S: Alter>(
    tx: &mut Transaction<'_, S>,
    id: i64,
    data: &[u8],
    content_type: &str,
) -> Result<(), Fault>
    ensures same_reference { tx.new.conn.ghost_name ≡ tx.old.conn.ghost_name }
    ensures wrote { Makes (Adds media (record { id = id; «data» = «data».now; content_type = content_type.now }))
        (state S.Store tx.old.conn.now) (state S.Store tx.new.conn.now) result }
    ensures survives { Survives (state S.Store tx.old.conn.now) (state S.Store tx.new.conn.now) (λ _. ⊥) }
{
    drop_count(tx.execute(
        "INSERT INTO sheet_media VALUES (?1, ?2, ?3)",
        params![id, data, content_type],
    ))
}

/// Takes out the medium of this number.
pub fn delete_medium<S: Alter>(tx: &mut Transaction<'_, S>, id: i64) -> Result<(), Fault>
    ensures same_reference { tx.new.conn.ghost_name ≡ tx.old.conn.ghost_name }
    ensures wrote { Makes (DropsMedium id) (state S.Store tx.old.conn.now) (state S.Store tx.new.conn.now) result }
    ensures survives { Survives (state S.Store tx.old.conn.now) (state S.Store tx.new.conn.now) (λ _. ⊥) }
{
    drop_count(tx.execute("DELETE FROM sheet_media WHERE id = ?1", params![id]))
}

/// The medium of this number.
pub fn medium_by_id<S: Alter>(conn: &mut Connection<S>, id: i64) -> Result<Option<MediaRow>, Fault>
    requires { Rests (state S.Store conn.old) }
    ensures { LooksUp (λ t. IsOneOf (λ x. int_eq x.id id) t.media) (state S.Store conn.old) (state S.Store conn.new)
        result }
{
    first_of(conn.query_all("SELECT * FROM sheet_media WHERE id = ?1", params![id]))
}

/// All media, by their numbers.
pub fn all_media<S: Alter>(conn: &mut Connection<S>, alloc: Global) -> Result<Vec<MediaRow>, Fault>
    requires { Rests (state S.Store conn.old) }
    ensures { LooksUp (λ t found. AreAll (on (λ x. x.id) int_cmp) t.media found.items) (state S.Store conn.old)
        (state S.Store conn.new) result }
{
    all_of(
        alloc,
        conn.query_all("SELECT * FROM sheet_media ORDER BY id", &[]),
    )
}

/// The numbers of all media, in the order of the table. Media have no index, so the engine goes
/// through their rows, one at a time.
pub fn medium_ids<S: Alter>(conn: &mut Connection<S>, alloc: Global) -> Result<Vec<i64>, Fault>
    requires { Rests (state S.Store conn.old) }
    ensures { LooksUp (λ t found. found.items ≡ map (λ r. r.id) t.media) (state S.Store conn.old)
        (state S.Store conn.new) result }
{
    numbers_of(alloc, conn.query_all("SELECT id FROM sheet_media", &[]))
}
