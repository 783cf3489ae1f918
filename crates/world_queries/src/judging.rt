//! Why a package does not take a command. Each reason is looked up by a key or an index, and the
//! look-ups stop at the first that holds. An error is want of memory, or a store that failed, and
//! tells nothing of the package.
ghost use Rattle.std.specs.Prelude.{◌≡◌, IsTrue};
ghost use Rattle.sqlite.specs.Held.{state};
ghost use Rattle.store_sql.specs.Transactions.{Rests};
ghost use Rattle.sheet_types.specs.Matrix.{is_good_frame, first_row};
ghost use Rattle.world_members.specs.Calls.{Judges};
ghost use Rattle.world_members.specs.Reasons.{tile_reasons, content_reasons, delete_reasons, link_reasons};
ghost use Rattle.world_members.specs.Reasons.{reason_told, unlink_reasons, package_reasons};

use identity_register::look_ups::{LinkState, has_link, has_tile_at, is_linked, link_state};
use matrix_rules::ground::{has_place, in_frame};
use package_tables::fault::Fault;
use sheet_types::command::{Command, Content, Relation};
use sheet_types::frame::Frame;
use sheet_types::refusal::Refusal;
use sqlite::{Alter, Connection};
use uuid::Uuid;

/// Why no tile comes to a place.
fn refusal_of_tile<S: Alter>(
    conn: &mut Connection<S>,
    frame: &Frame,
    zoom: i64,
    column: i64,
    row: i64,
) -> Result<Option<Refusal>, Fault>
    requires rests { Rests (state S.Store conn.old) }
    requires good { IsTrue (is_good_frame frame.now) }
    ensures { Judges (λ f p found. f ≡ frame.now → found ≡ first_row (tile_reasons f p zoom column row))
        (state S.Store conn.old) (state S.Store conn.new) result }
{
    if !has_place(frame, zoom, column, row) {
        return Ok(Some(Refusal::BadPlace));
    }
    let taken = has_tile_at(conn, zoom, column, row)?;
    Ok(taken.then_some(Refusal::PlaceTaken))
}

/// Why an item does not come in. A medium has no place.
fn refusal_of_add<S: Alter>(
    conn: &mut Connection<S>,
    frame: &Frame,
    content: &Content,
) -> Result<Option<Refusal>, Fault>
    requires rests { Rests (state S.Store conn.old) }
    requires good { IsTrue (is_good_frame frame.now) }
    ensures { Judges (λ f p found. f ≡ frame.now → found ≡ first_row (content_reasons f p content.now))
        (state S.Store conn.old) (state S.Store conn.new) result }
{
    match content {
        Content::Tile {
            zoom,
            column,
            row,
            ..
        } => refusal_of_tile(conn, frame, *zoom, *column, *row),
        Content::Media { .. } => Ok(None),
        Content::Row { x, y, .. } => {
            Ok((!in_frame(frame, *x, *y)).then_some(Refusal::OutOfFrame))
        }
    }
}

/// Why an item does not go.
fn refusal_of_delete<S: Alter>(
    conn: &mut Connection<S>,
    identity: Uuid,
) -> Result<Option<Refusal>, Fault>
    requires { Rests (state S.Store conn.old) }
    ensures { Judges (λ f p found. found ≡ first_row (delete_reasons p identity)) (state S.Store conn.old)
        (state S.Store conn.new) result }
{
    match is_linked(conn, identity)? {
        None => Ok(Some(Refusal::UnknownItem)),
        Some(linked) => Ok(linked.then_some(Refusal::Linked)),
    }
}

/// Why a link does not come in that stands so.
fn reason_told(found: LinkState) -> Option<Refusal>
    ensures { result ≡ reason_told found }
{
    match found {
        LinkState::UnknownEnd => Some(Refusal::UnknownItem),
        LinkState::WrongKinds => Some(Refusal::WrongKind),
        LinkState::There => Some(Refusal::LinkThere),
        LinkState::Absent => None,
    }
}

/// Why a link does not come in.
fn refusal_of_link<S: Alter>(
    conn: &mut Connection<S>,
    relation: Relation,
) -> Result<Option<Refusal>, Fault>
    requires { Rests (state S.Store conn.old) }
    ensures { Judges (λ f p found. found ≡ first_row (link_reasons p relation)) (state S.Store conn.old)
        (state S.Store conn.new) result }
{
    let found = link_state(conn, relation)?;
    Ok(reason_told(found))
}

/// Why a link does not go.
fn refusal_of_unlink<S: Alter>(
    conn: &mut Connection<S>,
    relation: Relation,
) -> Result<Option<Refusal>, Fault>
    requires { Rests (state S.Store conn.old) }
    ensures { Judges (λ f p found. found ≡ first_row (unlink_reasons p relation)) (state S.Store conn.old)
        (state S.Store conn.new) result }
{
    let there = has_link(conn, relation)?;
    Ok((!there).then_some(Refusal::UnknownLink))
}

/// Why the package of a store and its frame do not take a command, if they do not. Of a split and a
/// merge it tells nothing: none of these reasons is theirs.
pub fn package_refusal<S: Alter>(
    conn: &mut Connection<S>,
    frame: &Frame,
    command: &Command,
) -> Result<Option<Refusal>, Fault>
    requires rests { Rests (state S.Store conn.old) }
    requires good { IsTrue (is_good_frame frame.now) }
    ensures { Judges (λ f p found. f ≡ frame.now → found ≡ first_row (package_reasons f p command.now))
        (state S.Store conn.old) (state S.Store conn.new) result }
{
    match command {
        Command::Add { content, .. } => refusal_of_add(conn, frame, content),
        Command::Delete { identity, .. } => refusal_of_delete(conn, *identity),
        Command::Link {
            mapping,
            base,
            other,
            ..
        } => refusal_of_link(conn, Relation::new(*mapping, *base, *other)),
        Command::Unlink {
            mapping,
            base,
            other,
            ..
        } => refusal_of_unlink(conn, Relation::new(*mapping, *base, *other)),
        Command::Split { .. } | Command::Merge { .. } => Ok(None),
    }
}
