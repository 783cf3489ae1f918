//! Whose a store says that it is.
ghost use Rattle.std.specs.Prelude.{◌≡◌, ◌≢◌, ◌↔◌, ◌≤◌, ⊤, ℕ, List, [], pos, IsTrue};
ghost use Rattle.std.specs.Prelude.{IfSome, IfNone, MatchOption};
ghost use Rattle.std.specs.Option.{option_map};
ghost use Rattle.std.specs.Ordering.{on, int_cmp};
ghost use Rattle.sqlite.specs.Held.{state};
ghost use Rattle.store_sql.specs.Transactions.{Rests, Looks};
ghost use Rattle.sheet_types.specs.Lines.{IsUuid};
ghost use Rattle.sheet_types.specs.Opening.{Head};
ghost use Rattle.sheet_types.specs.Reading.{optional_uuid_text};
ghost use Rattle.sheet_types.specs.Texts.{uuid_text};
ghost use Rattle.package_tables.specs.Calls.{AreAll};
ghost use Rattle.package_tables.specs.Shape.{rows_of, IsFormed};
ghost use Rattle.package_tables.specs.Shapes.{head_shape};
ghost use Rattle.package_schema.specs.Looking.{Sees, LooksAt};
ghost use Rattle.package_schema.specs.Heads.{head_said, version_number, IsLevel, IsMarked, IsHeadOfAt, IsHeadRowAt};
ghost use Rattle.package_schema.specs.Heads.{ReadsHead, ReadsHeadAt};

use crate::own_forms::HEADS;
use crate::placing::is_placed;
use crate::versions::Version;
use package_tables::fault::Fault;
use package_tables::from_row::all_of;
use package_tables::rows::HeadRow;
use sheet_ledger::fitting::fits;
use sheet_types::checks::{GREATEST_DEPTH, GREATEST_RECEIPTS};
use sheet_types::moments::is_moment;
use sheet_types::reading::read_stored_uuid;
use sqlite::{Alter, Connection};
use std::alloc::Global;
use uuid::Uuid;

/// Whose a store is, where the table of heads has its form and its one row is in its ranges (profile).
#[derive(Clone, Copy)]
pub struct StoreHead {
    pub uuid: Uuid,
    pub parent: Option<Uuid>,
    /// How many levels below the archive, 0 to 4.
    pub depth: u64,
    /// The number of the split that made it; 0 of an archive.
    pub loan: u64,
}

fn is(number: i64, wanted: i64) -> bool
    ensures { IsTrue result ↔ (number ≡ wanted) }
{
    number == wanted
}

/// Whether the row is the first, of this version, with a moment.
fn is_marked(row: &HeadRow, version: Version) -> bool
    ensures { IsTrue result ↔ IsMarked (version_number version) row.now }
{
    let first = is(row.id, 1);
    let second = is(row.version, version.number());
    let moment = is_moment(row.created.as_str());
    first & second & moment
}

/// Whether parent and loan are none exactly at the depth of an archive.
fn is_level(row: &HeadRow) -> bool
    ensures { IsTrue result ↔ IsLevel row.now }
{
    let is_root = is(row.depth, 0);
    let is_alone = row.parent.as_str().is_empty();
    let is_no_loan = is(row.loan, 0);
    agree(is_alone, is_root) & agree(is_no_loan, is_root)
}

/// Whether both are so, or neither.
fn agree(one: bool, other: bool) -> bool
    ensures { IsTrue result ↔ (IsTrue one ↔ IsTrue other) }
{
    if other { one } else { !one }
}

fn read_uuid(text: &str) -> Option<Uuid>
    ensures some { IfSome result (λ id. text.now ≡ uuid_text id) }
    ensures fit { IfSome result IsUuid }
    ensures none { IfNone result ((id : List ℕ) → IsUuid id → text.now ≢ uuid_text id) }
{
    let id = read_stored_uuid(text)?;
    fits(id);
    Some(id)
}

/// What a text says where the empty text stands for no UUID.
fn read_parent(text: &str) -> Option<Option<Uuid>>
    ensures some { IfSome result (λ id. text.now ≡ optional_uuid_text id) }
    ensures fit { IfSome result (λ id. MatchOption id ⊤ IsUuid) }
    ensures empty { IfNone result (text.now ≢ []) }
    ensures none { IfNone result ((id : List ℕ) → IsUuid id → text.now ≢ uuid_text id) }
{
    if text.is_empty() {
        return Some(None);
    }
    match read_uuid(text) {
        Some(id) => Some(Some(id)),
        None => None,
    }
}

/// The number where it is not below zero, and at most the greatest.
fn read_number(number: i64, greatest: u64) -> Option<u64>
    ensures some { IfSome result (λ n. (number ≡ pos n) × (n ≤ greatest)) }
    ensures none { IfNone result ((n : ℕ) → n ≤ greatest → number ≢ pos n) }
{
    if number < 0 {
        return None;
    }
    let read = number.unsigned_abs();
    if read <= greatest { Some(read) } else { None }
}

fn read_row(row: &HeadRow, version: Version) -> Option<StoreHead>
    ensures some { IfSome result (λ head. IsHeadRowAt (version_number version) row.now (head_said head)) }
    ensures none { IfNone result ((head : Head) → IsHeadRowAt (version_number version) row.now head → ⊥) }
{
    if !is_marked(row, version) {
        return None;
    }
    if !is_level(row) {
        return None;
    }
    let uuid = read_uuid(row.package.as_str())?;
    let parent = read_parent(row.parent.as_str())?;
    let depth = read_number(row.depth, GREATEST_DEPTH)?;
    let loan = read_number(row.loan, GREATEST_RECEIPTS)?;
    Some(StoreHead {
        uuid,
        parent,
        depth,
        loan,
    })
}

fn read_rows(rows: &[HeadRow], version: Version) -> Option<StoreHead>
    ensures some { IfSome result (λ head. IsHeadOfAt (version_number version) rows.now (head_said head)) }
    ensures none { IfNone result ((head : Head) → IsHeadOfAt (version_number version) rows.now head → ⊥) }
{
    if rows.len() != 1 {
        return None;
    }
    read_row(&rows[0], version)
}

/// The rows of the table of heads, by their ids.
fn head_rows<S: Alter>(conn: &mut Connection<S>, alloc: Global) -> Result<Vec<HeadRow>, Fault>
    requires { Rests (state S.Store conn.old) }
    ensures { Looks (Sees (λ db found. IsFormed head_shape db
        → AreAll (on (λ x. x.id) int_cmp) (rows_of head_shape db) found.items)) (state S.Store conn.old)
        (state S.Store conn.new) result }
{
    all_of(
        alloc,
        conn.query_all("SELECT * FROM sheet_package ORDER BY id", &[]),
    )
}

/// Whose the store says that it is at this version, where its table of heads has its form and one
/// row, in its ranges; none in every other store.
///
/// # Errors
///
/// `OutOfMemory` where a growth was refused, and `StoreFault` where the store failed or a text is no UTF-8.
pub fn head_at<S: Alter>(
    conn: &mut Connection<S>,
    alloc: Global,
    version: Version,
) -> Result<Option<StoreHead>, Fault>
    requires { Rests (state S.Store conn.old) }
    ensures { LooksAt (λ db found. ReadsHeadAt (version_number version) db (option_map head_said found))
        (state S.Store conn.old) (state S.Store conn.new) result }
{
    if !is_placed(conn, &HEADS)? {
        return Ok(None);
    }
    let rows = head_rows(conn, alloc)?;
    Ok(read_rows(&rows, version))
}

/// Whose the store says that it is at the second version, which is that of every store that lives.
///
/// # Errors
///
/// Those of `head_at`.
pub fn head<S: Alter>(conn: &mut Connection<S>, alloc: Global) -> Result<Option<StoreHead>, Fault>
    requires { Rests (state S.Store conn.old) }
    ensures { LooksAt (λ db found. ReadsHead db (option_map head_said found)) (state S.Store conn.old)
        (state S.Store conn.new) result }
{
    head_at(conn, alloc, Version::Second)
}
