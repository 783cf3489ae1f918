//! The receipt that a package keeps for a request, read back from the rows that say it.
ghost use Rattle.std.specs.Prelude.{◌≡◌, ◌≢◌, ◌<◌, ℕ, true, pos, List, [], Option, bytes_eq, IfOk};
ghost use Rattle.std.specs.Prelude.{IfErr};
ghost use Rattle.std.specs.List.{AllByRecursion};
ghost use Rattle.std.specs.Option.{option_map_or};
ghost use Rattle.std.specs.Ordering.{int_eq};
ghost use Rattle.hex.specs.Hex.{encode_lower};
ghost use Rattle.sqlite.specs.Held.{state};
ghost use Rattle.store_sql.specs.Transactions.{Rests, Looks};
ghost use Rattle.sheet_types.specs.Lines.{IsUuid, is_bytes};
ghost use Rattle.sheet_types.specs.Reading.{optional_uuid_text};
ghost use Rattle.sheet_types.specs.Texts.{uuid_text};
ghost use Rattle.sheet_types.specs.declared.receipt.Moved.{Moved};
ghost use Rattle.sheet_types.specs.declared.receipt.Receipt.{Receipt};
ghost use Rattle.package_tables.specs.Calls.{LooksUp, IsOneOf, AreThose};
ghost use Rattle.identity_register.specs.Calls.{Sees};
ghost use Rattle.identity_register.specs.Reads.{IsFitReceipt, is_fit_end, is_fit_moved, receipt_row};
ghost use Rattle.custody.specs.Entries.{row_at, rows_at};
ghost use Rattle.custody.specs.Receipts.{IsKept};

use identity_register::fitting::fits;
use identity_register::kinds::kind_of_number;
use identity_register::stored_texts::stored_uuid;
use package_tables::fault::Fault;
use package_tables::moved::moved_of;
use package_tables::receipts::receipt_by_request;
use package_tables::rows::{MovedRow, ReceiptRow};
use sheet_types::collections::MovedList;
use sheet_types::fingerprints::read_fingerprint;
use sheet_types::reading::read_stored_optional;
use sheet_types::receipt::{Moved, Receipt, Sums};
use sqlite::{Alter, Connection};
use std::alloc::Global;
use uuid::Uuid;

/// A number of a column that is not below zero; any other is a fault.
pub fn natural_of(number: i64) -> Result<u64, Fault>
    ensures counted { IfOk result (λ counted. number ≡ pos counted) }
    ensures none { IfErr result (λ _. (counted : ℕ) → number ≢ pos counted) }
{
    if number < 0 {
        return Err(Fault::StoreFault);
    }
    Ok(number as u64)
}

// Each byte of an array fits, which no clause can say of it: the walk reads them.
fn bytes_fit<const N: usize>(bytes: &[u8; N])
    ensures { is_bytes N bytes.now ≡ true }
{
    for place in 0..N {
        let _ = bytes[place];
    }
}

/// The UUID of a stored text, which is empty where there is none.
fn end_of(text: &str) -> Result<Option<Uuid>, Fault>
    ensures text { IfOk result (λ end. text.now ≡ optional_uuid_text end) }
    ensures fit { IfOk result (λ end. is_fit_end end ≡ true) }
    ensures none { IfErr result (λ _. (end : Option (List ℕ)) → is_fit_end end ≡ true
        → text.now ≢ optional_uuid_text end) }
{
    match read_stored_optional(text) {
        Some(None) => Ok(None),
        Some(Some(id)) => {
            fits(id);
            Ok(Some(id))
        }
        None => Err(Fault::StoreFault),
    }
}

/// The fingerprint of a stored text, which is empty where there is none.
fn digest_of(text: &str) -> Result<Option<[u8; 32]>, Fault>
    ensures text { IfOk result (λ digest. text.now ≡ option_map_or encode_lower digest []) }
    ensures fit { IfOk result (λ digest. option_map_or (is_bytes 32) digest true ≡ true) }
    ensures none { IfErr result (λ _. (digest : Option (List ℕ)) → option_map_or (is_bytes 32) digest true ≡ true
        → text.now ≢ option_map_or encode_lower digest []) }
{
    if text.is_empty() {
        return Ok(None);
    }
    let Some(digest) = read_fingerprint(text) else {
        return Err(Fault::StoreFault);
    };
    bytes_fit(&digest);
    Ok(Some(digest))
}

/// The thing that the row of a number and a position stands for, its ends as they were read; another row is a fault.
fn thing_at(
    row: &MovedRow,
    seq: i64,
    position: usize,
    base: Uuid,
    other: Option<Uuid>,
) -> Result<Moved, Fault>
    requires base { (row.now.base ≡ uuid_text base) × IsUuid base }
    requires other { (row.now.other ≡ optional_uuid_text other) × (is_fit_end other ≡ true) }
    ensures row { IfOk result (λ thing. row.now ≡ row_at seq position thing) }
    ensures fit { IfOk result (λ thing. is_fit_moved thing ≡ true) }
    ensures none { IfErr result (λ _. (thing : Moved) → is_fit_moved thing ≡ true
        → row.now ≢ row_at seq position thing) }
{
    let place = natural_of(row.position)?;
    if row.seq != seq || place != position as u64 {
        return Err(Fault::StoreFault);
    }
    let kind = kind_of_number(row.kind)?;
    let size = natural_of(row.size)?;
    let fingerprint = digest_of(row.fingerprint.as_str())?;
    Ok(Moved {
        kind,
        base,
        other,
        size,
        fingerprint,
    })
}

/// The things of the rows of a number, which stand at their positions from 0.
// The ends are read here, since the borrow checker plans a loop over the types alone that its body names.
fn things_of(alloc: Global, seq: i64, rows: &[MovedRow]) -> Result<MovedList, Fault>
    ensures rows { IfOk result (λ things. rows.now ≡ rows_at seq things) }
    ensures fit { IfOk result (λ things. AllByRecursion (λ m. is_fit_moved m ≡ true) things) }
{
    let mut things = Vec::new(alloc);
    for position in 0..rows.len() {
        let row = &rows[position];
        let base = stored_uuid(row.base.as_str())?;
        let other = end_of(row.other.as_str())?;
        things.push(thing_at(row, seq, position, base, other)?)?;
    }
    Ok(MovedList::from_vec(things))
}

/// What the receipt of a number moved.
fn items_of<S: Alter>(conn: &mut Connection<S>, alloc: Global, seq: i64) -> Result<MovedList, Fault>
    requires { Rests (state S.Store conn.old) }
    ensures looked { LooksUp (λ t things. AreThose (λ x. int_eq x.seq seq) t.moved (rows_at seq things))
        (state S.Store conn.old) (state S.Store conn.new) result }
    ensures fit { IfOk result (λ things. AllByRecursion (λ m. is_fit_moved m ≡ true) things) }
{
    let rows = moved_of(conn, alloc, seq)?;
    let things = things_of(alloc, seq, rows.as_slice())?;
    Ok(things)
}

/// The number of a receipt, its request and its ends.
#[derive(Clone, Copy)]
struct Named {
    seq: u64,
    request: Uuid,
    source: Option<Uuid>,
    target: Option<Uuid>,
}

/// What a row names.
// What is read of a row stands in values that need no drop, so that the row and its things are
// alive at two exits alone.
fn named_by(row: &ReceiptRow) -> Result<Named, Fault>
    ensures seq { IfOk result (λ named. row.now.seq ≡ pos named.seq) }
    ensures request { IfOk result (λ named. row.now.request ≡ uuid_text named.request) }
    ensures source { IfOk result (λ named. row.now.source ≡ optional_uuid_text named.source) }
    ensures target { IfOk result (λ named. row.now.target ≡ optional_uuid_text named.target) }
    ensures request_fit { IfOk result (λ named. IsUuid named.request) }
    ensures source_fit { IfOk result (λ named. is_fit_end named.source ≡ true) }
    ensures target_fit { IfOk result (λ named. is_fit_end named.target ≡ true) }
    ensures none { IfErr result (λ _. (receipt : Receipt) → IsFitReceipt receipt
        → receipt_row receipt ≢ row.now) }
{
    let seq = natural_of(row.seq)?;
    let request = stored_uuid(row.request.as_str())?;
    let source = end_of(row.source.as_str())?;
    let target = end_of(row.target.as_str())?;
    Ok(Named {
        seq,
        request,
        source,
        target,
    })
}

/// How much a row says was moved.
fn sums_of(row: &ReceiptRow) -> Result<Sums, Fault>
    ensures tiles { IfOk result (λ sums. row.now.n_tiles ≡ pos sums.tiles) }
    ensures media { IfOk result (λ sums. row.now.n_media ≡ pos sums.media) }
    ensures rows { IfOk result (λ sums. row.now.n_rows ≡ pos sums.rows) }
    ensures links { IfOk result (λ sums. row.now.n_links ≡ pos sums.links) }
    ensures bytes { IfOk result (λ sums. row.now.n_bytes ≡ pos sums.bytes) }
    ensures none { IfErr result (λ _. (receipt : Receipt) → receipt_row receipt ≢ row.now) }
{
    let tiles = natural_of(row.n_tiles)?;
    let media = natural_of(row.n_media)?;
    let rows = natural_of(row.n_rows)?;
    let links = natural_of(row.n_links)?;
    let bytes = natural_of(row.n_bytes)?;
    Ok(Sums {
        tiles,
        media,
        rows,
        links,
        bytes,
    })
}

/// The receipt of a row, which moved these things.
fn receipt_of(row: ReceiptRow, items: MovedList) -> Result<Receipt, Fault>
    requires { AllByRecursion (λ m. is_fit_moved m ≡ true) items }
    ensures row { IfOk result (λ receipt. receipt_row receipt ≡ row) }
    ensures items { IfOk result (λ receipt. receipt.items ≡ items) }
    ensures fit { IfOk result IsFitReceipt }
    ensures none { IfErr result (λ _. (receipt : Receipt) → IsFitReceipt receipt → receipt_row receipt ≢ row) }
{
    let named = named_by(&row)?;
    let sums = sums_of(&row)?;
    Ok(Receipt {
        seq: named.seq,
        request: named.request,
        at: row.at,
        line: row.line,
        source: named.source,
        target: named.target,
        items,
        tiles: sums.tiles,
        media: sums.media,
        rows: sums.rows,
        links: sums.links,
        bytes: sums.bytes,
    })
}

/// The row of the receipt of a request.
fn row_of<S: Alter>(conn: &mut Connection<S>, request: Uuid) -> Result<Option<ReceiptRow>, Fault>
    requires { Rests (state S.Store conn.old) }
    ensures looked { LooksUp (λ t. IsOneOf (λ x. bytes_eq x.request (uuid_text request)) t.receipts)
        (state S.Store conn.old) (state S.Store conn.new) result }
    ensures fit { IsUuid request }
{
    let mut buffer = Uuid::encode_buffer();
    let text = request.hyphenated().encode_lower(&mut buffer);
    receipt_by_request(conn, text)
}

/// The receipt that the package keeps for a request, where it has one.
///
/// # Errors
///
/// Want of memory, a store that failed, or rows that no receipt has. The store is as it was.
pub fn find_receipt<S: Alter>(
    conn: &mut Connection<S>,
    alloc: Global,
    id: Uuid,
) -> Result<Option<Receipt>, Fault>
    requires { Rests (state S.Store conn.old) }
    ensures { Looks (Sees (λ f p found. IsKept p id found)) (state S.Store conn.old) (state S.Store conn.new) result }
{
    match row_of(conn, id)? {
        None => Ok(None),
        Some(row) => {
            let items = items_of(conn, alloc, row.seq)?;
            let receipt = receipt_of(row, items)?;
            Ok(Some(receipt))
        }
    }
}
