//! The statements on the mapping tables. A pair is a row of one of them; each function looks into
//! the table of the mapping that it is given.
ghost use Rattle.std.specs.Prelude.{◌≡◌, ◌&&◌};
ghost use Rattle.std.specs.Ordering.{int_eq, int_cmp, on, then_cmp};
ghost use Rattle.sqlite.specs.State.{Survives};
ghost use Rattle.sqlite.specs.Held.{state};
ghost use Rattle.store_sql.specs.Transactions.{Rests};
ghost use Rattle.package_tables.specs.Calls.{Makes, LooksUp, IsOneOf, AreThose, AreAll};
ghost use Rattle.package_tables.specs.Listed.{pairs};
ghost use Rattle.package_tables.specs.Changes.{Adds, DropsPair};
ghost use Rattle.package_tables.specs.Mappings.{mapping_rows, insert_text, delete_text, of_ends_text, of_base_text};
ghost use Rattle.package_tables.specs.Mappings.{of_related_text, all_text};

use crate::fault::{Fault, drop_count};
use crate::from_row::{FromRow, all_of, first_of, number_at};
use crate::rows::MappingRow;
use sheet_types::command::Mapping;
use sqlite::{Alter, Connection, Row, Transaction, params};
use std::alloc::Global;

impl FromRow for MappingRow {
    ghost use Rattle.package_tables.specs.Shown.{mapping_shown};

    ghost shown = { mapping_shown };

    fn from_row(row: &Row) -> Result<MappingRow, Fault> {
        if row.column_count() != 2 {
            return Err(Fault::StoreFault);
        }
        Ok(MappingRow {
            base_id: number_at(row, 0)?,
            related_id: number_at(row, 1)?,
        })
    }
}

/// Text that puts a pair in.
fn insert_text(mapping: Mapping) -> &'static str
    ensures { result.now ≡ insert_text mapping }
{
    match mapping {
        Mapping::TilesMedia => "INSERT INTO tiles_media VALUES (?1, ?2)",
        Mapping::RowsMedia => "INSERT INTO rows_media VALUES (?1, ?2)",
        Mapping::RowsTiles => "INSERT INTO rows_tiles VALUES (?1, ?2)",
    }
}

/// Relates a base and another item, which are not yet related.
pub fn insert_pair<S: Alter>(
    tx: &mut Transaction<'_, S>,
    mapping: Mapping,
    base_id: i64,
    related_id: i64,
) -> Result<(), Fault>
    ensures same_reference { tx.new.conn.ghost_name ≡ tx.old.conn.ghost_name }
    ensures wrote { Makes (Adds (pairs mapping) (record { base_id = base_id; related_id = related_id }))
        (state S.Store tx.old.conn.now) (state S.Store tx.new.conn.now) result }
    ensures survives { Survives (state S.Store tx.old.conn.now) (state S.Store tx.new.conn.now) (λ _. ⊥) }
{
    drop_count(tx.execute(insert_text(mapping), params![base_id, related_id]))
}

/// Text that takes a pair out.
fn delete_text(mapping: Mapping) -> &'static str
    ensures { result.now ≡ delete_text mapping }
{
    match mapping {
        Mapping::TilesMedia => "DELETE FROM tiles_media WHERE base_id = ?1 AND related_id = ?2",
        Mapping::RowsMedia => "DELETE FROM rows_media WHERE base_id = ?1 AND related_id = ?2",
        Mapping::RowsTiles => "DELETE FROM rows_tiles WHERE base_id = ?1 AND related_id = ?2",
    }
}

/// Takes out the relation of a base and another item.
pub fn delete_pair<S: Alter>(
    tx: &mut Transaction<'_, S>,
    mapping: Mapping,
    base_id: i64,
    related_id: i64,
) -> Result<(), Fault>
    ensures same_reference { tx.new.conn.ghost_name ≡ tx.old.conn.ghost_name }
    ensures wrote { Makes (DropsPair mapping base_id related_id) (state S.Store tx.old.conn.now)
        (state S.Store tx.new.conn.now) result }
    ensures survives { Survives (state S.Store tx.old.conn.now) (state S.Store tx.new.conn.now) (λ _. ⊥) }
{
    drop_count(tx.execute(delete_text(mapping), params![base_id, related_id]))
}

/// Text that asks for the pair of two ends.
fn of_ends_text(mapping: Mapping) -> &'static str
    ensures { result.now ≡ of_ends_text mapping }
{
    match mapping {
        Mapping::TilesMedia => "SELECT * FROM tiles_media WHERE base_id = ?1 AND related_id = ?2",
        Mapping::RowsMedia => "SELECT * FROM rows_media WHERE base_id = ?1 AND related_id = ?2",
        Mapping::RowsTiles => "SELECT * FROM rows_tiles WHERE base_id = ?1 AND related_id = ?2",
    }
}

/// The relation of this base and this other item.
pub fn pair_of_ends<S: Alter>(
    conn: &mut Connection<S>,
    mapping: Mapping,
    base_id: i64,
    related_id: i64,
) -> Result<Option<MappingRow>, Fault>
    requires { Rests (state S.Store conn.old) }
    ensures { LooksUp (λ t. IsOneOf (λ x. int_eq x.base_id base_id && int_eq x.related_id related_id)
        (mapping_rows mapping t)) (state S.Store conn.old) (state S.Store conn.new) result }
{
    first_of(conn.query_all(of_ends_text(mapping), params![base_id, related_id]))
}

/// Text that asks for the pairs of a base.
fn of_base_text(mapping: Mapping) -> &'static str
    ensures { result.now ≡ of_base_text mapping }
{
    match mapping {
        Mapping::TilesMedia => "SELECT * FROM tiles_media WHERE base_id = ?1",
        Mapping::RowsMedia => "SELECT * FROM rows_media WHERE base_id = ?1",
        Mapping::RowsTiles => "SELECT * FROM rows_tiles WHERE base_id = ?1",
    }
}

/// A relation of this base, which is a tile or an attributes row as the mapping says.
pub fn pair_of_base<S: Alter>(
    conn: &mut Connection<S>,
    mapping: Mapping,
    base_id: i64,
) -> Result<Option<MappingRow>, Fault>
    requires { Rests (state S.Store conn.old) }
    ensures { LooksUp (λ t. IsOneOf (λ x. int_eq x.base_id base_id) (mapping_rows mapping t))
        (state S.Store conn.old) (state S.Store conn.new) result }
{
    first_of(conn.query_all(of_base_text(mapping), params![base_id]))
}

/// All relations of this base, which is a tile or an attributes row as the mapping says.
pub fn pairs_of_base<S: Alter>(
    conn: &mut Connection<S>,
    alloc: Global,
    mapping: Mapping,
    base_id: i64,
) -> Result<Vec<MappingRow>, Fault>
    requires { Rests (state S.Store conn.old) }
    ensures { LooksUp (λ t found. AreThose (λ x. int_eq x.base_id base_id) (mapping_rows mapping t) found.items)
        (state S.Store conn.old) (state S.Store conn.new) result }
{
    all_of(
        alloc,
        conn.query_all(of_base_text(mapping), params![base_id]),
    )
}

/// Text that asks for the pairs of another end.
fn of_related_text(mapping: Mapping) -> &'static str
    ensures { result.now ≡ of_related_text mapping }
{
    match mapping {
        Mapping::TilesMedia => "SELECT * FROM tiles_media WHERE related_id = ?1",
        Mapping::RowsMedia => "SELECT * FROM rows_media WHERE related_id = ?1",
        Mapping::RowsTiles => "SELECT * FROM rows_tiles WHERE related_id = ?1",
    }
}

/// A relation to this item, which is a medium or a tile as the mapping says.
pub fn pair_of_related<S: Alter>(
    conn: &mut Connection<S>,
    mapping: Mapping,
    related_id: i64,
) -> Result<Option<MappingRow>, Fault>
    requires { Rests (state S.Store conn.old) }
    ensures { LooksUp (λ t. IsOneOf (λ x. int_eq x.related_id related_id) (mapping_rows mapping t))
        (state S.Store conn.old) (state S.Store conn.new) result }
{
    first_of(conn.query_all(of_related_text(mapping), params![related_id]))
}

/// All relations to this item, which is a medium or a tile as the mapping says.
pub fn pairs_of_related<S: Alter>(
    conn: &mut Connection<S>,
    alloc: Global,
    mapping: Mapping,
    related_id: i64,
) -> Result<Vec<MappingRow>, Fault>
    requires { Rests (state S.Store conn.old) }
    ensures { LooksUp (λ t found. AreThose (λ x. int_eq x.related_id related_id) (mapping_rows mapping t)
        found.items) (state S.Store conn.old) (state S.Store conn.new) result }
{
    all_of(
        alloc,
        conn.query_all(of_related_text(mapping), params![related_id]),
    )
}

/// Text that asks for all pairs, by both numbers.
fn all_text(mapping: Mapping) -> &'static str
    ensures { result.now ≡ all_text mapping }
{
    match mapping {
        Mapping::TilesMedia => "SELECT * FROM tiles_media ORDER BY base_id, related_id",
        Mapping::RowsMedia => "SELECT * FROM rows_media ORDER BY base_id, related_id",
        Mapping::RowsTiles => "SELECT * FROM rows_tiles ORDER BY base_id, related_id",
    }
}

/// All relations of the mapping, by both numbers.
pub fn all_pairs<S: Alter>(
    conn: &mut Connection<S>,
    mapping: Mapping,
    alloc: Global,
) -> Result<Vec<MappingRow>, Fault>
    requires { Rests (state S.Store conn.old) }
    ensures { LooksUp (λ t found. AreAll (then_cmp (on (λ x. x.base_id) int_cmp) (on (λ x. x.related_id) int_cmp))
        (mapping_rows mapping t) found.items) (state S.Store conn.old) (state S.Store conn.new) result }
{
    all_of(alloc, conn.query_all(all_text(mapping), &[]))
}
