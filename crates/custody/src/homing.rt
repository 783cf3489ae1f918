//! The receipts of one package that come into another, one at a time: no more than one row is in memory at once.
ghost use Rattle.std.specs.Prelude.{◌≡◌, IsTrue, OnOk};
ghost use Rattle.sqlite.specs.Held.{state};
ghost use Rattle.sqlite.specs.State.{HasCleanDisk};
ghost use Rattle.store_sql.specs.Staying.{Stays};
ghost use Rattle.store_sql.specs.Transactions.{Rests, Steps};
ghost use Rattle.package_tables.specs.Calls.{OnTables};
ghost use Rattle.package_tables.specs.Changes.{Adds};
ghost use Rattle.package_tables.specs.Listed.{receipts};
ghost use Rattle.custody.specs.Entries.{Enters};
ghost use Rattle.custody.specs.Homing.{BringsThings, BringsReceipt, BringsHome, FromClean};

use crate::column_number;
use package_tables::fault::Fault;
use package_tables::moved::{insert_moved, moved_at};
use package_tables::receipts::{insert_receipt, receipt_after};
use package_tables::rows::{MovedRow, ReceiptRow};
use sqlite::{Alter, Connection, Transaction};

/// Enters the row of a thing as it stands.
fn put_thing<S: Alter>(tx: &mut Transaction<'_, S>, row: MovedRow) -> Result<(), Fault>
    ensures same_reference { tx.new.conn.ghost_name ≡ tx.old.conn.ghost_name }
    ensures steps { Steps (λ _. Enters row) (state S.Store tx.old.conn.now) (state S.Store tx.new.conn.now) result }
{
    insert_moved(
        tx,
        row.seq,
        row.position,
        row.kind,
        row.base.as_str(),
        row.other.as_str(),
        row.size,
        row.fingerprint.as_str(),
    )
}

/// Enters the row of a receipt as it stands.
fn put_row<S: Alter>(tx: &mut Transaction<'_, S>, row: ReceiptRow) -> Result<(), Fault>
    ensures same_reference { tx.new.conn.ghost_name ≡ tx.old.conn.ghost_name }
    ensures steps { Steps (λ _. OnTables (Adds receipts row)) (state S.Store tx.old.conn.now)
        (state S.Store tx.new.conn.now) result }
{
    insert_receipt(
        tx,
        row.seq,
        row.request.as_str(),
        row.at.as_str(),
        row.line.as_str(),
        row.source.as_str(),
        row.target.as_str(),
        row.n_tiles,
        row.n_media,
        row.n_rows,
        row.n_links,
        row.n_bytes,
    )
}

/// Enters what the receipt of a number moved in the source, at its positions from 0.
fn bring_things<S: Alter>(
    source: &mut Connection<S>,
    tx: &mut Transaction<'_, S>,
    seq: i64,
) -> Result<(), Fault>
    requires { Rests (state S.Store source.old) }
    ensures same_reference { tx.new.conn.ghost_name ≡ tx.old.conn.ghost_name }
    ensures source { Stays (state S.Store source.old) (state S.Store source.new) }
    ensures steps { Steps (λ _. FromClean (state S.Store source.new)
        (BringsThings seq (state S.Store source.old).now)) (state S.Store tx.old.conn.now)
        (state S.Store tx.new.conn.now) result }
{
    for position in 0..u64::MAX {
        let at = column_number(position)?;
        match moved_at(source, seq, at)? {
            None => return Ok(()),
            Some(row) => put_thing(tx, row)?,
        }
    }
    Err(Fault::StoreFault)
}

/// Enters the receipt of a row of the source, with what it moved.
fn bring_receipt<S: Alter>(
    source: &mut Connection<S>,
    tx: &mut Transaction<'_, S>,
    row: ReceiptRow,
) -> Result<(), Fault>
    requires { Rests (state S.Store source.old) }
    ensures same_reference { tx.new.conn.ghost_name ≡ tx.old.conn.ghost_name }
    ensures source { Stays (state S.Store source.old) (state S.Store source.new) }
    ensures steps { Steps (λ _. FromClean (state S.Store source.new)
        (BringsReceipt row (state S.Store source.old).now)) (state S.Store tx.old.conn.now)
        (state S.Store tx.new.conn.now) result }
{
    let seq = row.seq;
    put_row(tx, row)?;
    bring_things(source, tx, seq)
}

/// Enters all receipts of the source, as they stand and with all that they moved, into a package
/// that has no receipt of these numbers. The source is only read.
///
/// # Errors
///
/// Want of memory, or a store that failed. Nothing is committed; the transaction has to be dropped.
pub fn bring_home<S: Alter>(
    source: &mut Connection<S>,
    tx: &mut Transaction<'_, S>,
) -> Result<(), Fault>
    requires { Rests (state S.Store source.old) }
    ensures same_reference { tx.new.conn.ghost_name ≡ tx.old.conn.ghost_name }
    ensures source { Stays (state S.Store source.old) (state S.Store source.new) }
    ensures opens { HasCleanDisk (state S.Store source.new) → OnOk result
        (IsTrue (state S.Store source.new).is_open) }
    ensures steps { Steps (λ _. FromClean (state S.Store source.new) (BringsHome (state S.Store source.old).now))
        (state S.Store tx.old.conn.now) (state S.Store tx.new.conn.now) result }
{
    let mut last = -1;
    for _ in 0..u64::MAX {
        match receipt_after(source, last)? {
            None => return Ok(()),
            Some(row) => {
                last = row.seq;
                bring_receipt(source, tx, row)?;
            }
        }
    }
    Err(Fault::StoreFault)
}
