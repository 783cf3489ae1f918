//! Whether a store has the form of a package.
ghost use Rattle.std.specs.Prelude.{◌≡◌, ◌↔◌, not, IsTrue};
ghost use Rattle.std.specs.List.{AllByRecursion};
ghost use Rattle.sqlite.specs.Held.{state};
ghost use Rattle.sqlite.specs.Ops.{is_null};
ghost use Rattle.sqlite.specs.Order.{column};
ghost use Rattle.store_sql.specs.Transactions.{Rests};
ghost use Rattle.package_tables.specs.Package.{AreFormed};
ghost use Rattle.package_tables.specs.Shapes.{contents_shape, spatial_ref_sys_shape};
ghost use Rattle.package_schema.specs.Forms.{HasFirstForm};
ghost use Rattle.package_schema.specs.Looking.{LooksAt};
ghost use Rattle.package_schema.specs.Rows.{IsFull, AreFilled};

use crate::placing::{are_first_placed, are_placed};
use package_tables::fault::Fault;
use sqlite::types::ValueRef;
use sqlite::{Alter, Connection, Row};

fn has_value(row: &Row, at: usize) -> bool
    ensures { result ≡ not (is_null (column row.now at)) }
{
    match row.get_ref(at) {
        Ok(ValueRef::Null) | Err(_) => false,
        Ok(_) => true,
    }
}

fn is_full(row: &Row) -> bool
    ensures { IsTrue result ↔ IsFull row.now }
{
    for at in 0..row.column_count() {
        if !has_value(row, at) {
            return false;
        }
    }
    true
}

fn are_full(rows: &[Row]) -> bool
    ensures { IsTrue result ↔ AllByRecursion IsFull rows.now }
{
    rows.iter().all(|row| is_full(row))
}

/// Whether no reference system has a NULL, which their columns would let in.
fn are_systems_filled<S: Alter>(conn: &mut Connection<S>) -> Result<bool, Fault>
    requires { Rests (state S.Store conn.old) }
    ensures { LooksAt (λ db filled. AreFilled spatial_ref_sys_shape db filled) (state S.Store conn.old)
        (state S.Store conn.new) result }
{
    let rows = conn.query_all("SELECT * FROM gpkg_spatial_ref_sys ORDER BY srs_id", &[])?;
    Ok(are_full(&rows))
}

/// Whether no row of the contents has a NULL, which their columns would let in.
fn are_contents_filled<S: Alter>(conn: &mut Connection<S>) -> Result<bool, Fault>
    requires { Rests (state S.Store conn.old) }
    ensures { LooksAt (λ db filled. AreFilled contents_shape db filled) (state S.Store conn.old)
        (state S.Store conn.new) result }
{
    let rows = conn.query_all("SELECT * FROM gpkg_contents ORDER BY table_name", &[])?;
    Ok(are_full(&rows))
}

/// Whether the store has the fifteen tables of a package in their form, whatever else it has. The
/// constraints that the columns of most of them have are kept by any store, so only two of them are
/// read.
///
/// # Errors
///
/// `OutOfMemory` where a growth was refused, and `StoreFault` where the store failed.
pub fn has_form<S: Alter>(conn: &mut Connection<S>) -> Result<bool, Fault>
    requires { Rests (state S.Store conn.old) }
    ensures { LooksAt (λ db formed. IsTrue formed ↔ AreFormed db) (state S.Store conn.old) (state S.Store conn.new)
        result }
{
    if !are_placed(conn)? {
        return Ok(false);
    }
    if !are_systems_filled(conn)? {
        return Ok(false);
    }
    are_contents_filled(conn)
}

/// Whether the store has the fourteen tables of the first version in their form, and no object has
/// a name that the second needs. No store has the form of both.
///
/// # Errors
///
/// Those of `has_form`.
pub fn has_first_form<S: Alter>(conn: &mut Connection<S>) -> Result<bool, Fault>
    requires { Rests (state S.Store conn.old) }
    ensures { LooksAt (λ db formed. IsTrue formed ↔ HasFirstForm db) (state S.Store conn.old)
        (state S.Store conn.new)
        result }
{
    if !are_first_placed(conn)? {
        return Ok(false);
    }
    if !are_systems_filled(conn)? {
        return Ok(false);
    }
    are_contents_filled(conn)
}
