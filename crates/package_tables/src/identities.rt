//! The statements on `sheet_identity`.
ghost use Rattle.std.specs.Prelude.{◌≡◌, ◌&&◌, bytes_eq, filter};
ghost use Rattle.std.specs.Ordering.{int_eq, int_cmp, on, then_cmp};
ghost use Rattle.sqlite.specs.State.{Survives};
ghost use Rattle.sqlite.specs.Held.{state};
ghost use Rattle.store_sql.specs.Transactions.{Rests};
ghost use Rattle.package_tables.specs.Calls.{Makes, Tells, LooksUp, IsOneOf, AreAll, IsGreatest};
ghost use Rattle.package_tables.specs.Listed.{identities};
ghost use Rattle.package_tables.specs.Changes.{Adds, DropsIdentity};

use crate::fault::{Fault, drop_count};
use crate::from_row::{FromRow, all_of, first_of, number_at, number_of, text_at};
use crate::rows::IdentityRow;
use sqlite::{Alter, Connection, Row, Transaction, params};
use std::alloc::Global;

const BY_UUID: &str = "SELECT * FROM sheet_identity WHERE uuid = ?1";

const BY_KEY: &str = "SELECT * FROM sheet_identity WHERE kind = ?1 AND local_id = ?2";

impl FromRow for IdentityRow {
    ghost use Rattle.package_tables.specs.Shown.{identity_shown};

    ghost shown = { identity_shown };

    fn from_row(row: &Row) -> Result<IdentityRow, Fault> {
        if row.column_count() != 3 {
            return Err(Fault::StoreFault);
        }
        Ok(IdentityRow {
            kind: number_at(row, 0)?,
            local_id: number_at(row, 1)?,
            uuid: text_at(row, 2)?,
        })
    }
}

/// Gives a row of a user table a lasting identity, where it has none and no other row has this one.
pub fn insert_identity<S: Alter>(
    tx: &mut Transaction<'_, S>,
    kind: i64,
    local_id: i64,
    uuid: &str,
) -> Result<(), Fault>
    ensures same_reference { tx.new.conn.ghost_name ≡ tx.old.conn.ghost_name }
    ensures wrote { Makes (Adds identities (record { kind = kind; local_id = local_id; uuid = uuid.now }))
        (state S.Store tx.old.conn.now) (state S.Store tx.new.conn.now) result }
    ensures survives { Survives (state S.Store tx.old.conn.now) (state S.Store tx.new.conn.now) (λ _. ⊥) }
{
    drop_count(tx.execute(
        "INSERT INTO sheet_identity VALUES (?1, ?2, ?3)",
        params![kind, local_id, uuid],
    ))
}

/// Takes out the identity of this row.
pub fn delete_identity<S: Alter>(
    tx: &mut Transaction<'_, S>,
    kind: i64,
    local_id: i64,
) -> Result<(), Fault>
    ensures same_reference { tx.new.conn.ghost_name ≡ tx.old.conn.ghost_name }
    ensures wrote { Makes (DropsIdentity kind local_id) (state S.Store tx.old.conn.now)
        (state S.Store tx.new.conn.now) result }
    ensures survives { Survives (state S.Store tx.old.conn.now) (state S.Store tx.new.conn.now) (λ _. ⊥) }
{
    drop_count(tx.execute(
        "DELETE FROM sheet_identity WHERE kind = ?1 AND local_id = ?2",
        params![kind, local_id],
    ))
}

/// The row that has this lasting identity.
pub fn identity_by_uuid<S: Alter>(
    conn: &mut Connection<S>,
    uuid: &str,
) -> Result<Option<IdentityRow>, Fault>
    requires { Rests (state S.Store conn.old) }
    ensures { LooksUp (λ t. IsOneOf (λ x. bytes_eq x.uuid uuid.now) t.identities) (state S.Store conn.old)
        (state S.Store conn.new) result }
{
    first_of(conn.query_all(BY_UUID, params![uuid]))
}

/// The row that has this lasting identity, inside a transaction.
pub fn identity_by_uuid_inside<S: Alter>(
    tx: &mut Transaction<'_, S>,
    uuid: &str,
) -> Result<Option<IdentityRow>, Fault>
    ensures same_reference { tx.new.conn.ghost_name ≡ tx.old.conn.ghost_name }
    ensures told { Tells (λ t. IsOneOf (λ x. bytes_eq x.uuid uuid.now) t.identities) (state S.Store tx.old.conn.now)
        (state S.Store tx.new.conn.now) result }
    ensures survives { Survives (state S.Store tx.old.conn.now) (state S.Store tx.new.conn.now) (λ _. ⊥) }
{
    first_of(tx.query_all(BY_UUID, params![uuid]))
}

/// The lasting identity of this row.
pub fn identity_by_key<S: Alter>(
    conn: &mut Connection<S>,
    kind: i64,
    local_id: i64,
) -> Result<Option<IdentityRow>, Fault>
    requires { Rests (state S.Store conn.old) }
    ensures { LooksUp (λ t. IsOneOf (λ x. int_eq x.kind kind && int_eq x.local_id local_id) t.identities)
        (state S.Store conn.old) (state S.Store conn.new) result }
{
    first_of(conn.query_all(BY_KEY, params![kind, local_id]))
}

/// The lasting identity of this row, inside a transaction.
pub fn identity_by_key_inside<S: Alter>(
    tx: &mut Transaction<'_, S>,
    kind: i64,
    local_id: i64,
) -> Result<Option<IdentityRow>, Fault>
    ensures same_reference { tx.new.conn.ghost_name ≡ tx.old.conn.ghost_name }
    ensures told { Tells (λ t. IsOneOf (λ x. int_eq x.kind kind && int_eq x.local_id local_id) t.identities)
        (state S.Store tx.old.conn.now) (state S.Store tx.new.conn.now) result }
    ensures survives { Survives (state S.Store tx.old.conn.now) (state S.Store tx.new.conn.now) (λ _. ⊥) }
{
    first_of(tx.query_all(BY_KEY, params![kind, local_id]))
}

/// The greatest number of a kind that has an identity, where there is one, inside a transaction.
pub fn greatest_local_id<S: Alter>(
    tx: &mut Transaction<'_, S>,
    kind: i64,
) -> Result<Option<i64>, Fault>
    ensures same_reference { tx.new.conn.ghost_name ≡ tx.old.conn.ghost_name }
    ensures told { Tells (λ t. IsGreatest (λ x. x.local_id) (filter (λ x. int_eq x.kind kind) t.identities))
        (state S.Store tx.old.conn.now) (state S.Store tx.new.conn.now) result }
    ensures survives { Survives (state S.Store tx.old.conn.now) (state S.Store tx.new.conn.now) (λ _. ⊥) }
{
    number_of(tx.query_all(
        "SELECT local_id FROM sheet_identity WHERE kind = ?1 ORDER BY local_id DESC LIMIT 1",
        params![kind],
    ))
}

/// All lasting identities, by their kinds and numbers.
pub fn all_identities<S: Alter>(
    conn: &mut Connection<S>,
    alloc: Global,
) -> Result<Vec<IdentityRow>, Fault>
    requires { Rests (state S.Store conn.old) }
    ensures { LooksUp (λ t found. AreAll (then_cmp (on (λ x. x.kind) int_cmp) (on (λ x. x.local_id) int_cmp))
        t.identities found.items) (state S.Store conn.old) (state S.Store conn.new) result }
{
    all_of(
        alloc,
        conn.query_all("SELECT * FROM sheet_identity ORDER BY kind, local_id", &[]),
    )
}
