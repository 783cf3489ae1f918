//! Whether the rows of items and links are in their ranges. An error is want of memory, or a store
//! that failed; the store holds what it held.
ghost use Rattle.std.specs.Prelude.{◌≡◌, ◌==◌, pos, true, IsTrue};
ghost use Rattle.std.specs.List.{AllByRecursion, list_all, list_any};
ghost use Rattle.sqlite.specs.Held.{state};
ghost use Rattle.store_sql.specs.Transactions.{Rests};
ghost use Rattle.sheet_types.specs.Matrix.{is_good_frame, is_within};
ghost use Rattle.sheet_types.specs.Refuse.{is_printable};
ghost use Rattle.package_tables.specs.Calls.{LooksUp};
ghost use Rattle.package_items.specs.Answers.{Decides};
ghost use Rattle.package_items.specs.Ranges.{AreItemsInRange, IsIdentityInRange, IsUuidText, is_local};
ghost use Rattle.package_items.specs.Ranges.{is_pair_in_range};
ghost use Rattle.package_items.specs.Walks.{is_content_in_range, is_placed_in_range, AreUserRowsInRange, ArePairsIn};
ghost use Rattle.package_items.specs.Walks.{ArePairsInRange, AreRowsInRange};

use crate::next_rows::next_row;
use crate::user_tables::UserTable;
use identity_register::kinds::{ROW, TILE};
use identity_register::stored_texts::stored_uuid;
use identity_register::whole::Placed;
use matrix_rules::ground::{has_place, in_frame};
use package_tables::fault::Fault;
use package_tables::identities::all_identities;
use package_tables::mappings::all_pairs;
use package_tables::rows::{IdentityRow, MappingRow};
use sheet_types::checks::{GREATEST_NUMBER, has_good_size};
use sheet_types::command::{Content, Mapping};
use sheet_types::frame::Frame;
use sqlite::{Alter, Connection};
use std::alloc::Global;

/// Whether a number is one that a row of an item may have.
fn is_local(number: i64) -> bool
    ensures { result ≡ is_local number }
{
    (1..=GREATEST_NUMBER).contains(&number)
}

/// Whether a text is of printable ASCII.
fn is_printable(text: &str) -> bool
    ensures { result ≡ list_all is_printable text.now }
{
    text.as_bytes()
        .iter()
        .all(|byte| 32 <= *byte && *byte <= 126)
}

fn has_line_feed(text: &str) -> bool
    ensures { result ≡ list_any (λ c. c == 10) text.now }
{
    text.as_bytes().iter().any(|byte| *byte == b'\n')
}

/// Whether a tile has a place in the frame, a content type is printable, a point lies in the frame
/// and its label has no line feed.
fn is_content_in_range(frame: &Frame, content: &Content) -> bool
    requires { IsTrue (is_good_frame frame.now) }
    ensures { result ≡ is_content_in_range frame.now content.now }
{
    match content {
        Content::Tile {
            zoom,
            column,
            row,
            ..
        } => has_place(frame, *zoom, *column, *row),
        Content::Media { content_type, .. } => is_printable(content_type.as_str()),
        Content::Row { x, y, label, .. } => {
            in_frame(frame, *x, *y) && !has_line_feed(label.as_str())
        }
    }
}

/// Whether a row of a user table is in its ranges.
fn is_row_in_range(frame: &Frame, row: &Placed) -> bool
    requires { IsTrue (is_good_frame frame.now) }
    ensures { result ≡ is_placed_in_range frame.now row.now }
{
    is_local(row.number) && has_good_size(&row.content) && is_content_in_range(frame, &row.content)
}

/// Whether the rows of a user table are in their ranges.
fn rows_in_range<S: Alter>(
    conn: &mut Connection<S>,
    table: UserTable,
    frame: &Frame,
) -> Result<bool, Fault>
    requires rests { Rests (state S.Store conn.old) }
    requires good { IsTrue (is_good_frame frame.now) }
    ensures { LooksUp (λ t. Decides (AreRowsInRange frame.now table t)) (state S.Store conn.old)
        (state S.Store conn.new) result }
{
    let mut last = None;
    for _ in 0..u64::MAX {
        match next_row(conn, table, last)? {
            None => return Ok(true),
            Some(row) => {
                if !is_row_in_range(frame, &row) {
                    return Ok(false);
                }
                last = Some(row.number);
            }
        }
    }
    Err(Fault::StoreFault)
}

/// Whether the rows of all user tables are.
fn user_rows_in_range<S: Alter>(conn: &mut Connection<S>, frame: &Frame) -> Result<bool, Fault>
    requires rests { Rests (state S.Store conn.old) }
    requires good { IsTrue (is_good_frame frame.now) }
    ensures { LooksUp (λ t. Decides (AreUserRowsInRange frame.now t)) (state S.Store conn.old)
        (state S.Store conn.new) result }
{
    if !rows_in_range(conn, UserTable::TileTable, frame)? {
        return Ok(false);
    }
    if !rows_in_range(conn, UserTable::MediaTable, frame)? {
        return Ok(false);
    }
    rows_in_range(conn, UserTable::RowTable, frame)
}

/// Whether a number is that of a kind of items.
fn is_kind(kind: i64) -> bool
    ensures { result ≡ is_within (pos 1) (pos 3) kind }
{
    (TILE..=ROW).contains(&kind)
}

/// Whether a text is that of a UUID in lower case (RFC 9562, section 4).
fn is_uuid_text(text: &str) -> bool
    ensures { Decides (IsUuidText text.now) result }
{
    match stored_uuid(text) {
        Ok(_) => true,
        Err(_) => false,
    }
}

/// Whether an identity row is in its ranges.
fn is_identity_in_range(row: &IdentityRow) -> bool
    ensures { Decides (IsIdentityInRange row.now) result }
{
    let kind = is_kind(row.kind);
    let number = is_local(row.local_id);
    let uuid = is_uuid_text(row.uuid.as_str());
    kind & number & uuid
}

/// Whether identity rows are.
fn are_identities_in_range(rows: &[IdentityRow]) -> bool
    ensures { Decides (AllByRecursion IsIdentityInRange rows.now) result }
{
    for row in rows {
        if !is_identity_in_range(row) {
            return false;
        }
    }
    true
}

/// Whether the identity rows of the store are in their ranges.
fn identities_in_range<S: Alter>(conn: &mut Connection<S>, alloc: Global) -> Result<bool, Fault>
    requires { Rests (state S.Store conn.old) }
    ensures { LooksUp (λ t. Decides (AllByRecursion IsIdentityInRange t.identities)) (state S.Store conn.old)
        (state S.Store conn.new) result }
{
    let rows = all_identities(conn, alloc)?;
    Ok(are_identities_in_range(&rows))
}

/// Whether the two numbers of a mapping row are.
fn is_pair_in_range(pair: MappingRow) -> bool
    ensures { result ≡ is_pair_in_range pair }
{
    is_local(pair.base_id) && is_local(pair.related_id)
}

/// Whether mapping rows are in their ranges.
fn are_pairs_in_range(pairs: &[MappingRow]) -> bool
    ensures { Decides (AllByRecursion (λ r. is_pair_in_range r ≡ true) pairs.now) result }
{
    for pair in pairs {
        if !is_pair_in_range(*pair) {
            return false;
        }
    }
    true
}

/// Whether the rows of a mapping table are.
fn pairs_in_range<S: Alter>(
    conn: &mut Connection<S>,
    mapping: Mapping,
    alloc: Global,
) -> Result<bool, Fault>
    requires { Rests (state S.Store conn.old) }
    ensures { LooksUp (λ t. Decides (ArePairsIn mapping t)) (state S.Store conn.old) (state S.Store conn.new) result }
{
    let pairs = all_pairs(conn, mapping, alloc)?;
    Ok(are_pairs_in_range(&pairs))
}

/// Whether the rows of all mapping tables are.
fn all_pairs_in_range<S: Alter>(conn: &mut Connection<S>, alloc: Global) -> Result<bool, Fault>
    requires { Rests (state S.Store conn.old) }
    ensures { LooksUp (λ t. Decides (ArePairsInRange t)) (state S.Store conn.old) (state S.Store conn.new) result }
{
    if !pairs_in_range(conn, Mapping::TilesMedia, alloc)? {
        return Ok(false);
    }
    if !pairs_in_range(conn, Mapping::RowsMedia, alloc)? {
        return Ok(false);
    }
    pairs_in_range(conn, Mapping::RowsTiles, alloc)
}

/// Whether the rows of tiles, media, attributes, identities and mappings are all in their ranges.
/// Contents are read one at a time.
pub fn are_in_range<S: Alter>(
    conn: &mut Connection<S>,
    alloc: Global,
    frame: &Frame,
) -> Result<bool, Fault>
    requires rests { Rests (state S.Store conn.old) }
    requires good { IsTrue (is_good_frame frame.now) }
    ensures { LooksUp (λ t. Decides (AreItemsInRange frame.now t)) (state S.Store conn.old) (state S.Store conn.new)
        result }
{
    if !user_rows_in_range(conn, frame)? {
        return Ok(false);
    }
    if !identities_in_range(conn, alloc)? {
        return Ok(false);
    }
    all_pairs_in_range(conn, alloc)
}
