//! The statements of a migration, each a step of its transaction.
ghost use Rattle.std.specs.Prelude.{◌≡◌};
ghost use Rattle.sqlite.specs.Held.{state};
ghost use Rattle.store_sql.specs.Transactions.{Steps};
ghost use Rattle.package_tables.specs.Calls.{OnTables};
ghost use Rattle.package_v1.specs.FirstVersion.{third_relation};
ghost use Rattle.package_v1.specs.Migrating.{MakesThird, IndexesThird, AddsRelation, SetsVersion};
ghost use Rattle.package_v1.specs.TakingBack.{DropsThirdRelation, DropsThird};

use package_tables::fault::{Fault, drop_count};
use sqlite::{Alter, Error, Transaction, params};

/// Makes the table of the third mapping (OGC 18-000, user-defined mapping tables), whose name is free.
pub(crate) fn make_third_table<S: Alter>(tx: &mut Transaction<'_, S>) -> Result<(), Fault>
    ensures same_reference { tx.new.conn.ghost_name ≡ tx.old.conn.ghost_name }
    ensures steps { Steps (λ _. MakesThird) (state S.Store tx.old.conn.now) (state S.Store tx.new.conn.now) result }
{
    drop_count(tx.execute(
        "CREATE TABLE rows_tiles (base_id INTEGER NOT NULL, related_id INTEGER NOT NULL, UNIQUE (base_id, related_id)) STRICT",
        &[],
    ))
}

/// Makes the index by which the table of the third mapping is looked up by its other end.
pub(crate) fn make_third_index<S: Alter>(tx: &mut Transaction<'_, S>) -> Result<(), Fault>
    ensures same_reference { tx.new.conn.ghost_name ≡ tx.old.conn.ghost_name }
    ensures steps { Steps (λ _. IndexesThird) (state S.Store tx.old.conn.now) (state S.Store tx.new.conn.now) result }
{
    drop_count(tx.execute("CREATE INDEX by_rows_tiles ON rows_tiles (related_id)", &[]))
}

fn insert_relation<S: Alter>(
    tx: &mut Transaction<'_, S>,
    id: i64,
    base: &str,
    base_column: &str,
    related: &str,
    related_column: &str,
    name: &str,
    mapping: &str,
) -> Result<(), Fault>
    ensures same_reference { tx.new.conn.ghost_name ≡ tx.old.conn.ghost_name }
    ensures steps { Steps (λ _. AddsRelation (record {
      id = id;
      base_table_name = base.now;
      base_primary_column = base_column.now;
      related_table_name = related.now;
      related_primary_column = related_column.now;
      relation_name = name.now;
      mapping_table_name = mapping.now;
    }))
        (state S.Store tx.old.conn.now) (state S.Store tx.new.conn.now) result }
{
    drop_count(tx.execute(
        "INSERT INTO gpkgext_relations VALUES (?1, ?2, ?3, ?4, ?5, ?6, ?7)",
        params![
            id,
            base,
            base_column,
            related,
            related_column,
            name,
            mapping
        ],
    ))
}

/// Enters the third mapping into the relations (OGC 18-000, extended relations).
pub(crate) fn insert_third_relation<S: Alter>(tx: &mut Transaction<'_, S>) -> Result<(), Fault>
    ensures same_reference { tx.new.conn.ghost_name ≡ tx.old.conn.ghost_name }
    ensures steps { Steps (λ _. AddsRelation third_relation) (state S.Store tx.old.conn.now)
        (state S.Store tx.new.conn.now) result }
{
    insert_relation(
        tx,
        3,
        "sheet_rows",
        "id",
        "sheet_tiles",
        "id",
        "tiles",
        "rows_tiles",
    )
}

/// Says the version of the package in its head.
pub(crate) fn set_version<S: Alter>(tx: &mut Transaction<'_, S>, version: i64) -> Result<(), Fault>
    ensures same_reference { tx.new.conn.ghost_name ≡ tx.old.conn.ghost_name }
    ensures steps { Steps (λ _. SetsVersion version) (state S.Store tx.old.conn.now) (state S.Store tx.new.conn.now)
        result }
{
    drop_count(tx.execute("UPDATE sheet_package SET version = ?1", params![version]))
}

/// Takes the third mapping out of the relations.
pub(crate) fn delete_third_relation<S: Alter>(tx: &mut Transaction<'_, S>) -> Result<(), Fault>
    ensures same_reference { tx.new.conn.ghost_name ≡ tx.old.conn.ghost_name }
    ensures steps { Steps (λ _. OnTables DropsThirdRelation) (state S.Store tx.old.conn.now)
        (state S.Store tx.new.conn.now) result }
{
    drop_count(tx.execute("DELETE FROM gpkgext_relations WHERE id = ?1", params![3i64]))
}

/// Drops the table of the third mapping, and its indexes with it.
pub(crate) fn drop_third_table<S: Alter>(tx: &mut Transaction<'_, S>) -> Result<(), Fault>
    ensures same_reference { tx.new.conn.ghost_name ≡ tx.old.conn.ghost_name }
    ensures steps { Steps (λ _. DropsThird) (state S.Store tx.old.conn.now) (state S.Store tx.new.conn.now) result }
{
    drop_count(tx.execute("DROP TABLE rows_tiles", &[]))
}
