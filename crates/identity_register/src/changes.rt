//! What is changed of a package inside a transaction, one item or link at a time.
ghost use Rattle.std.specs.Prelude.{◌≡◌};
ghost use Rattle.sqlite.specs.Held.{state};
ghost use Rattle.store_sql.specs.Transactions.{Steps};
ghost use Rattle.package_tables.specs.Calls.{OnTables, Answers};
ghost use Rattle.identity_register.specs.Changes.{IsLooseItem, item_deleted, IsNewLink, link_added, IsLink};
ghost use Rattle.identity_register.specs.Changes.{link_removed};
ghost use Rattle.identity_register.specs.Numbering.{IsRowOf, AreRowsOfEnds, DropsContent, DropsRows};
ghost use Rattle.identity_register.specs.LocalNumbers.{Grows, Shrinks};

use crate::kinds::{MEDIUM, ROW, TILE};
use package_tables::attributes::delete_attribute;
use package_tables::fault::Fault;
use package_tables::identities::{delete_identity, identity_by_uuid_inside};
use package_tables::mappings::{delete_pair, insert_pair};
use package_tables::media::delete_medium;
use package_tables::rows::IdentityRow;
use package_tables::tiles::delete_tile;
use sheet_types::command::Relation;
use sqlite::{Alter, Transaction};
use uuid::Uuid;

/// The row that stands for an item: its kind and local number.
fn row_of_item<S: Alter>(tx: &mut Transaction<'_, S>, identity: Uuid) -> Result<IdentityRow, Fault>
    ensures same_reference { tx.new.conn.ghost_name ≡ tx.old.conn.ghost_name }
    ensures steps { Steps (Answers (IsRowOf identity)) (state S.Store tx.old.conn.now) (state S.Store tx.new.conn.now)
        result }
{
    let mut buffer = Uuid::encode_buffer();
    let text = identity.hyphenated().encode_lower(&mut buffer);
    let found = identity_by_uuid_inside(tx, text)?;
    found.ok_or(Fault::StoreFault)
}

/// The rows that stand for the ends of a link.
#[derive(Drop)]
pub struct EndRows {
    pub base: IdentityRow,
    pub other: IdentityRow,
}

/// The rows that stand for the ends of a link.
fn rows_of_ends<S: Alter>(
    tx: &mut Transaction<'_, S>,
    base: Uuid,
    other: Uuid,
) -> Result<EndRows, Fault>
    ensures same_reference { tx.new.conn.ghost_name ≡ tx.old.conn.ghost_name }
    ensures steps { Steps (Answers (AreRowsOfEnds base other)) (state S.Store tx.old.conn.now)
        (state S.Store tx.new.conn.now) result }
{
    let base = row_of_item(tx, base)?;
    let other = row_of_item(tx, other)?;
    Ok(EndRows { base, other })
}

/// Takes out the row of a user table, by its kind and number.
fn drop_content<S: Alter>(tx: &mut Transaction<'_, S>, kind: i64, number: i64) -> Result<(), Fault>
    ensures same_reference { tx.new.conn.ghost_name ≡ tx.old.conn.ghost_name }
    ensures steps { Steps (λ _. OnTables (DropsContent kind number)) (state S.Store tx.old.conn.now)
        (state S.Store tx.new.conn.now) result }
{
    if kind == TILE {
        return delete_tile(tx, number);
    }
    if kind == MEDIUM {
        return delete_medium(tx, number);
    }
    if kind == ROW {
        return delete_attribute(tx, number);
    }
    Err(Fault::StoreFault)
}

/// Takes out the row of a user table and its identity.
fn drop_rows<S: Alter>(tx: &mut Transaction<'_, S>, kind: i64, number: i64) -> Result<(), Fault>
    ensures same_reference { tx.new.conn.ghost_name ≡ tx.old.conn.ghost_name }
    ensures steps { Steps (λ _. OnTables (DropsRows kind number)) (state S.Store tx.old.conn.now)
        (state S.Store tx.new.conn.now) result }
{
    drop_content(tx, kind, number)?;
    delete_identity(tx, kind, number)
}

/// Takes an item out that no link names.
///
/// # Errors
///
/// Want of memory, a store that failed, or no such item. Nothing is committed; the transaction has to be dropped.
pub fn delete<S: Alter>(tx: &mut Transaction<'_, S>, identity: Uuid) -> Result<(), Fault>
    ensures same_reference { tx.new.conn.ghost_name ≡ tx.old.conn.ghost_name }
    ensures steps { Steps (λ _. Shrinks (IsLooseItem identity) (item_deleted identity))
        (state S.Store tx.old.conn.now) (state S.Store tx.new.conn.now) result }
{
    let row = row_of_item(tx, identity)?;
    drop_rows(tx, row.kind, row.local_id)
}

/// Links two items of the kinds that the mapping joins, which are not linked by it (OGC 18-000,
/// user-defined mapping tables).
///
/// # Errors
///
/// Want of memory, a store that failed, or no such item. Nothing is committed; the transaction has to be dropped.
pub fn link<S: Alter>(tx: &mut Transaction<'_, S>, relation: Relation) -> Result<(), Fault>
    ensures same_reference { tx.new.conn.ghost_name ≡ tx.old.conn.ghost_name }
    ensures steps { Steps (λ _. Grows (IsNewLink relation) (link_added relation)) (state S.Store tx.old.conn.now)
        (state S.Store tx.new.conn.now) result }
{
    let EndRows { base, other } = rows_of_ends(tx, relation.base, relation.other)?;
    insert_pair(tx, relation.mapping, base.local_id, other.local_id)
}

/// Takes a link out that is there.
///
/// # Errors
///
/// Want of memory, a store that failed, or no such item. Nothing is committed; the transaction has to be dropped.
pub fn unlink<S: Alter>(tx: &mut Transaction<'_, S>, relation: Relation) -> Result<(), Fault>
    ensures same_reference { tx.new.conn.ghost_name ≡ tx.old.conn.ghost_name }
    ensures steps { Steps (λ _. Shrinks (IsLink relation) (link_removed relation)) (state S.Store tx.old.conn.now)
        (state S.Store tx.new.conn.now) result }
{
    let EndRows { base, other } = rows_of_ends(tx, relation.base, relation.other)?;
    delete_pair(tx, relation.mapping, base.local_id, other.local_id)
}
