//! The package itself.
ghost use Rattle.std.specs.Prelude.{◌≡◌, IfOk, IsTrue};
ghost use Rattle.sqlite.specs.State.{HasCleanDisk};
ghost use Rattle.sqlite.specs.Held.{state};
ghost use Rattle.sqlite.specs.Steps.{over_memory};
ghost use Rattle.sheet_types.specs.Matrix.{is_good_frame};
ghost use Rattle.store_sql.specs.Blank.{IsBlank, no_schema};
ghost use Rattle.store_sql.specs.Transactions.{Rests, Holds, Steps, Turns};
ghost use Rattle.store_sql.specs.Writing.{AreKeyed};
ghost use Rattle.package_tables.specs.Calls.{OnTables};
ghost use Rattle.package_tables.specs.Creation.{head_of, IsFitInfo};
ghost use Rattle.package_copy.specs.Copies.{AreInOrder, Fills, IsCopy};

use crate::entering::{are_in_order, are_pairs_in_order, enter_all, enter_pairs};
use crate::package_rows::PackageRows;
use package_creation::create::{Info, create};
use package_tables::fault::Fault;
use sheet_types::command::Mapping;
use sheet_types::frame::Frame;
use sqlite::{Alter, Connection, MemStore, Transaction};
use std::alloc::Global;
use store_sql::opening::readopt;

/// Whether the rows of each table are in the order of its key, no two under one.
pub fn is_in_order(rows: &PackageRows) -> bool
    ensures { IsTrue result → AreInOrder rows.now }
{
    let tiles = are_in_order(rows.tiles.as_slice());
    let media = are_in_order(rows.media.as_slice());
    let attributes = are_in_order(rows.rows.as_slice());
    let tiles_media = are_pairs_in_order(rows.tiles_media.as_slice());
    let rows_media = are_pairs_in_order(rows.rows_media.as_slice());
    let identities = are_in_order(rows.identities.as_slice());
    let receipts = are_in_order(rows.receipts.as_slice());
    let moved = are_in_order(rows.moved.as_slice());
    (tiles & media & attributes) & (tiles_media & rows_media) & (identities & receipts & moved)
}

/// Enters all rows into tables that have none.
fn enter_rows<S: Alter>(tx: &mut Transaction<'_, S>, rows: &PackageRows) -> Result<(), Fault>
    requires { AreInOrder rows.now }
    ensures same_reference { tx.new.conn.ghost_name ≡ tx.old.conn.ghost_name }
    ensures steps { Steps (λ _. OnTables (Fills rows.now)) (state S.Store tx.old.conn.now)
        (state S.Store tx.new.conn.now) result }
{
    enter_all(tx, rows.tiles.as_slice())?;
    enter_all(tx, rows.media.as_slice())?;
    enter_all(tx, rows.rows.as_slice())?;
    enter_pairs(tx, Mapping::TilesMedia, rows.tiles_media.as_slice())?;
    enter_pairs(tx, Mapping::RowsMedia, rows.rows_media.as_slice())?;
    enter_all(tx, rows.identities.as_slice())?;
    enter_all(tx, rows.receipts.as_slice())?;
    enter_all(tx, rows.moved.as_slice())
}

/// Enters them in one transaction.
fn fill<S: Alter>(conn: &mut Connection<S>, rows: &PackageRows) -> Result<(), Fault>
    requires rests { Rests (state S.Store conn.old) }
    requires order { AreInOrder rows.now }
    ensures turns { Turns (λ _. OnTables (Fills rows.now)) (state S.Store conn.old) (state S.Store conn.new) result }
{
    let mut tx = conn.transaction();
    enter_rows(&mut tx, rows)?;
    tx.commit()?;
    Ok(())
}

/// A store in memory with nothing in it.
fn blank(alloc: Global) -> Result<Connection<MemStore>, Fault>
    ensures blank { IfOk result (λ conn. IsBlank no_schema (state over_memory conn).now) }
    ensures rests { IfOk result (λ conn. Rests (state over_memory conn)) }
{
    Ok(Connection::open_in_memory(alloc)?)
}

/// The same store, of which it is known that its tables are in the order of their rowids.
fn reopen(alloc: Global, conn: Connection<MemStore>) -> Result<Connection<MemStore>, Fault>
    requires { Holds (state over_memory conn) (state over_memory conn).now }
    ensures rests { IfOk result (λ new. Rests (state over_memory new)) }
    ensures same { IfOk result (λ new. (state over_memory new).now ≡ (state over_memory conn).now) }
    ensures keyed { IfOk result (λ new. AreKeyed (state over_memory new).now) }
{
    conn.schema();
    Ok(readopt(alloc, conn)?)
}

/// A package in memory of this frame and this head, which has these rows.
///
/// # Errors
///
/// Want of memory, or two rows of which a table takes only one.
pub fn copy(
    alloc: Global,
    frame: &Frame,
    info: &Info<'_>,
    rows: &PackageRows,
) -> Result<Connection<MemStore>, Fault>
    requires frame { IsTrue (is_good_frame frame.now) }
    requires info { IsFitInfo info.now.depth info.now.loan }
    requires order { AreInOrder rows.now }
    ensures rests { IfOk result (λ conn. Rests (state over_memory conn)) }
    ensures copied { IfOk result (λ conn. IsCopy frame.now (head_of info.now.package info.now.parent info.now.depth
        info.now.loan info.now.created.now) rows.now (state over_memory conn).now) }
{
    let blank = blank(alloc)?;
    let mut conn = create(alloc, blank, frame, info)?.into_connection();
    fill(&mut conn, rows)?;
    let package = reopen(alloc, conn)?;
    Ok(package)
}
