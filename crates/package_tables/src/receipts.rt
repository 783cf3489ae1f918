//! The statements on `sheet_receipts`.
ghost use Rattle.std.specs.Prelude.{◌≡◌, ◌&&◌, bytes_eq, filter};
ghost use Rattle.std.specs.Ordering.{int_cmp, is_gt, on};
ghost use Rattle.sqlite.specs.State.{Survives};
ghost use Rattle.sqlite.specs.Held.{state};
ghost use Rattle.store_sql.specs.Transactions.{Rests};
ghost use Rattle.package_tables.specs.Calls.{Makes, LooksUp, IsOneOf, IsLeast, AreAll};
ghost use Rattle.package_tables.specs.Listed.{receipts};
ghost use Rattle.package_tables.specs.Changes.{Adds};

use crate::fault::{Fault, drop_count};
use crate::from_row::{FromRow, all_of, first_of, number_at, text_at};
use crate::rows::ReceiptRow;
use sqlite::{Alter, Connection, Row, Transaction, params};
use std::alloc::Global;

/// Enters a receipt, under a number and a request that are free.
pub fn insert_receipt<S: Alter>(
    tx: &mut Transaction<'_, S>,
    seq: i64,
    request: &str,
    at: &str,
    line: &str,
    source: &str,
    target: &str,
    n_tiles: i64,
    n_media: i64,
    n_rows: i64,
    n_links: i64,
    n_bytes: i64,
) -> Result<(), Fault>
    ensures same_reference { tx.new.conn.ghost_name ≡ tx.old.conn.ghost_name }
    ensures wrote { Makes (Adds receipts (record {
      seq = seq;
      request = request.now;
      at = at.now;
      line = line.now;
      source = source.now;
      target = target.now;
      n_tiles = n_tiles;
      n_media = n_media;
      n_rows = n_rows;
      n_links = n_links;
      n_bytes = n_bytes;
    })) (state S.Store tx.old.conn.now)
        (state S.Store tx.new.conn.now) result }
    ensures survives { Survives (state S.Store tx.old.conn.now) (state S.Store tx.new.conn.now) (λ _. ⊥) }
{
    drop_count(tx.execute(
        "INSERT INTO sheet_receipts VALUES (?1, ?2, ?3, ?4, ?5, ?6, ?7, ?8, ?9, ?10, ?11)",
        params![
            seq, request, at, line, source, target, n_tiles, n_media, n_rows, n_links, n_bytes
        ],
    ))
}

impl FromRow for ReceiptRow {
    ghost use Rattle.package_tables.specs.Shown.{receipt_shown};

    ghost shown = { receipt_shown };

    fn from_row(row: &Row) -> Result<ReceiptRow, Fault> {
        if row.column_count() != 11 {
            return Err(Fault::StoreFault);
        }
        Ok(ReceiptRow {
            seq: number_at(row, 0)?,
            n_tiles: number_at(row, 6)?,
            n_media: number_at(row, 7)?,
            n_rows: number_at(row, 8)?,
            n_links: number_at(row, 9)?,
            n_bytes: number_at(row, 10)?,
            request: text_at(row, 1)?,
            at: text_at(row, 2)?,
            line: text_at(row, 3)?,
            source: text_at(row, 4)?,
            target: text_at(row, 5)?,
        })
    }
}

/// The receipt of a request.
pub fn receipt_by_request<S: Alter>(
    conn: &mut Connection<S>,
    request: &str,
) -> Result<Option<ReceiptRow>, Fault>
    requires { Rests (state S.Store conn.old) }
    ensures { LooksUp (λ t. IsOneOf (λ x. bytes_eq x.request request.now) t.receipts) (state S.Store conn.old)
        (state S.Store conn.new) result }
{
    first_of(conn.query_all(
        "SELECT * FROM sheet_receipts WHERE request = ?1",
        params![request],
    ))
}

/// The receipt of the least number above another, where there is one.
pub fn receipt_after<S: Alter>(
    conn: &mut Connection<S>,
    seq: i64,
) -> Result<Option<ReceiptRow>, Fault>
    requires { Rests (state S.Store conn.old) }
    ensures { LooksUp (λ t. IsLeast (λ x. x.seq) (filter (λ x. is_gt (int_cmp x.seq seq)) t.receipts))
        (state S.Store conn.old) (state S.Store conn.new) result }
{
    first_of(conn.query_all(
        "SELECT * FROM sheet_receipts WHERE seq > ?1 ORDER BY seq LIMIT 1",
        params![seq],
    ))
}

/// The receipt of the least number above another among those of a target, where there is one.
pub fn receipt_to_after<S: Alter>(
    conn: &mut Connection<S>,
    target: &str,
    seq: i64,
) -> Result<Option<ReceiptRow>, Fault>
    requires { Rests (state S.Store conn.old) }
    ensures { LooksUp (λ t. IsLeast (λ x. x.seq) (filter (λ x. bytes_eq x.target target.now && is_gt
        (int_cmp x.seq seq)) t.receipts)) (state S.Store conn.old) (state S.Store conn.new) result }
{
    first_of(conn.query_all(
        "SELECT * FROM sheet_receipts WHERE target = ?1 AND seq > ?2 ORDER BY seq LIMIT 1",
        params![target, seq],
    ))
}

/// All receipts, in the order of their numbers.
pub fn all_receipts<S: Alter>(
    conn: &mut Connection<S>,
    alloc: Global,
) -> Result<Vec<ReceiptRow>, Fault>
    requires { Rests (state S.Store conn.old) }
    ensures { LooksUp (λ t found. AreAll (on (λ x. x.seq) int_cmp) t.receipts found.items) (state S.Store conn.old)
        (state S.Store conn.new) result }
{
    all_of(
        alloc,
        conn.query_all("SELECT * FROM sheet_receipts ORDER BY seq", &[]),
    )
}
