//! The receipts that stand in a package: which are entered, and what they name.
#![tactic(auto)]

pub mod homing;
pub mod keeping;
pub mod lending;

ghost use Rattle.std.specs.Prelude.{◌≡◌, ◌<◌, ◌||◌, [], pos, IfOk, IfErr};
ghost use Rattle.std.specs.List.{list_any};
ghost use Rattle.std.specs.Option.{option_map_or};
ghost use Rattle.hex.specs.Hex.{encode_lower};
ghost use Rattle.sqlite.specs.Held.{state};
ghost use Rattle.store_sql.specs.Transactions.{Rests, Looks, Steps};
ghost use Rattle.store_sql.specs.Writing.{EachChained};
ghost use Rattle.sheet_types.specs.Lines.{uuid_in};
ghost use Rattle.sheet_types.specs.Texts.{uuid_text};
ghost use Rattle.package_tables.specs.Calls.{LooksUp, OnTables};
ghost use Rattle.package_tables.specs.Listed.{receipts};
ghost use Rattle.package_tables.specs.Changes.{Adds};
ghost use Rattle.identity_register.specs.Calls.{Sees};
ghost use Rattle.identity_register.specs.Reads.{receipt_row, moved_row};
ghost use Rattle.custody.specs.Entries.{Enters, rows_from, is_of};
ghost use Rattle.custody.specs.Receipts.{EntersReceipt, is_named};

use identity_register::kinds::{MEDIUM, ROW, TILE, number_of_kind};
use package_tables::fault::Fault;
use package_tables::moved::{insert_moved, moved_of_kind};
use package_tables::receipts::insert_receipt;
use sheet_types::fingerprints::spell;
use sheet_types::receipt::{Moved, Receipt};
use sheet_types::words::OrEmpty;
use sqlite::{Alter, Connection, Transaction};
use uuid::Uuid;

const GREATEST_STORED: u64 = 9_223_372_036_854_775_807;

/// A number as a column of integers has it; a greater one than such a column can have is a fault.
pub fn column_number(number: u64) -> Result<i64, Fault>
    ensures stored { IfOk result (λ stored. stored ≡ pos number) }
    ensures great { IfErr result (λ _. 9223372036854775807 < number) }
{
    if number > GREATEST_STORED {
        return Err(Fault::StoreFault);
    }
    Ok(number as i64)
}

/// The text of a fingerprint that may be missing: empty where it is.
fn digest_text(digest: Option<[u8; 32]>, buffer: &mut [u8; 64]) -> &str
    ensures { result.now ≡ option_map_or encode_lower digest [] }
{
    match digest {
        Some(digest) => spell(&digest, buffer),
        None => "",
    }
}

/// Enters one thing that the receipt of a number moved, at a position of it.
fn enter_moved<S: Alter>(
    tx: &mut Transaction<'_, S>,
    seq: u64,
    position: u64,
    moved: Moved,
) -> Result<(), Fault>
    ensures same_reference { tx.new.conn.ghost_name ≡ tx.old.conn.ghost_name }
    ensures steps { Steps (λ _. Enters (moved_row seq position moved)) (state S.Store tx.old.conn.now)
        (state S.Store tx.new.conn.now) result }
{
    let seq = column_number(seq)?;
    let position = column_number(position)?;
    let size = column_number(moved.size)?;
    let kind = number_of_kind(moved.kind);
    let mut base_buffer = Uuid::encode_buffer();
    let base = moved.base.hyphenated().encode_lower(&mut base_buffer);
    let mut other_buffer = Uuid::encode_buffer();
    let other = OrEmpty(moved.other).encode_lower(&mut other_buffer);
    let mut digest_buffer = [0; 64];
    let digest = digest_text(moved.fingerprint, &mut digest_buffer);
    insert_moved(tx, seq, position, kind, base, other, size, digest)
}

/// Enters the things that the receipt of a number moved, at their positions from 0.
fn enter_things<S: Alter>(
    tx: &mut Transaction<'_, S>,
    seq: u64,
    things: &[Moved],
) -> Result<(), Fault>
    ensures same_reference { tx.new.conn.ghost_name ≡ tx.old.conn.ghost_name }
    ensures steps { Steps (λ _. EachChained Enters (rows_from seq 0 things.now)) (state S.Store tx.old.conn.now)
        (state S.Store tx.new.conn.now) result }
{
    for position in 0..things.len() {
        enter_moved(tx, seq, position as u64, things[position])?;
    }
    Ok(())
}

/// Enters the row of a receipt, without the things that it moved.
fn enter_row<S: Alter>(tx: &mut Transaction<'_, S>, receipt: &Receipt) -> Result<(), Fault>
    ensures same_reference { tx.new.conn.ghost_name ≡ tx.old.conn.ghost_name }
    ensures steps { Steps (λ _. OnTables (Adds receipts (receipt_row receipt.now))) (state S.Store tx.old.conn.now)
        (state S.Store tx.new.conn.now) result }
{
    let seq = column_number(receipt.seq)?;
    let tiles = column_number(receipt.tiles)?;
    let media = column_number(receipt.media)?;
    let rows = column_number(receipt.rows)?;
    let links = column_number(receipt.links)?;
    let bytes = column_number(receipt.bytes)?;
    let mut request_buffer = Uuid::encode_buffer();
    let request = receipt
        .request
        .hyphenated()
        .encode_lower(&mut request_buffer);
    let mut source_buffer = Uuid::encode_buffer();
    let source = OrEmpty(receipt.source).encode_lower(&mut source_buffer);
    let mut target_buffer = Uuid::encode_buffer();
    let target = OrEmpty(receipt.target).encode_lower(&mut target_buffer);
    let at = receipt.at.as_str();
    let line = receipt.line.as_str();
    insert_receipt(
        tx, seq, request, at, line, source, target, tiles, media, rows, links, bytes,
    )
}

/// Enters a receipt, under a number and a request that the package has not. The rows of items,
/// identities and links stay as they are.
///
/// # Errors
///
/// Want of memory, a store that failed, or a number of 2^63 or more, which a column of integers
/// cannot have. Nothing is committed; the transaction has to be dropped.
pub fn enter<S: Alter>(tx: &mut Transaction<'_, S>, receipt: &Receipt) -> Result<(), Fault>
    ensures same_reference { tx.new.conn.ghost_name ≡ tx.old.conn.ghost_name }
    ensures steps { Steps (λ _. EntersReceipt receipt.now) (state S.Store tx.old.conn.now)
        (state S.Store tx.new.conn.now) result }
{
    enter_row(tx, receipt)?;
    enter_things(tx, receipt.seq, receipt.items.as_slice())
}

/// Whether the row of a thing has this identity and the kind of this number.
fn is_moved_as<S: Alter>(conn: &mut Connection<S>, identity: Uuid, kind: i64) -> Result<bool, Fault>
    requires { Rests (state S.Store conn.old) }
    ensures looked { LooksUp (λ t found. found ≡ list_any (is_of identity kind) t.moved) (state S.Store conn.old)
        (state S.Store conn.new) result }
    ensures back { uuid_in (uuid_text identity) ≡ identity }
{
    let mut buffer = Uuid::encode_buffer();
    let text = identity.hyphenated().encode_lower(&mut buffer);
    let found = moved_of_kind(conn, text, kind)?;
    Ok(found.is_some())
}

/// Whether one of three holds.
fn any_of_three(a: bool, b: bool, c: bool) -> bool
    ensures { result ≡ (a || b || c) }
{
    a || b || c
}

/// Whether a receipt of the package names this identity as that of an item.
pub fn names<S: Alter>(conn: &mut Connection<S>, identity: Uuid) -> Result<bool, Fault>
    requires { Rests (state S.Store conn.old) }
    ensures { Looks (Sees (λ f p found. found ≡ is_named p identity)) (state S.Store conn.old)
        (state S.Store conn.new) result }
{
    let tile = is_moved_as(conn, identity, TILE)?;
    let medium = is_moved_as(conn, identity, MEDIUM)?;
    let row = is_moved_as(conn, identity, ROW)?;
    Ok(any_of_three(tile, medium, row))
}
