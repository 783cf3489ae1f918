//! An item that comes into a package inside a transaction.
ghost use Rattle.std.specs.Prelude.{◌≡◌, pos, true};
ghost use Rattle.sqlite.specs.Held.{state};
ghost use Rattle.store_sql.specs.Transactions.{Steps};
ghost use Rattle.sheet_types.specs.Texts.{kind_of};
ghost use Rattle.sheet_types.specs.World.{kind_number};
ghost use Rattle.package_tables.specs.Calls.{OnTables, Answers};
ghost use Rattle.identity_register.specs.Changes.{IsNewItem, item_added};
ghost use Rattle.identity_register.specs.Numbering.{IsTaken, FindsGap, AddsContent, number_after};
ghost use Rattle.identity_register.specs.Room.{ComesIn};
ghost use Rattle.identity_register.specs.LocalNumbers.{Grows};

use package_tables::attributes::insert_attribute;
use package_tables::fault::Fault;
use package_tables::identities::{greatest_local_id, identity_by_key_inside, insert_identity};
use package_tables::media::insert_medium;
use package_tables::tiles::insert_tile;
use sheet_types::checks::GREATEST_NUMBER;
use sheet_types::command::Content;
use sqlite::{Alter, Transaction};
use uuid::Uuid;

/// The kind of a content as it is stored.
fn stored_kind(content: &Content) -> i64
    ensures { result ≡ pos (kind_number (kind_of content.now)) }
{
    content.kind().number() as i64
}

/// The number after the greatest, and 1 where there is none. None where no number that may be is the one after it.
fn number_after(greatest: Option<i64>) -> Option<i64>
    ensures { result ≡ number_after greatest }
{
    match greatest {
        None => Some(1),
        Some(number) if number >= 1 && number < GREATEST_NUMBER => Some(number + 1),
        Some(_) => None,
    }
}

/// Whether an item of the kind has this number.
fn is_taken<S: Alter>(tx: &mut Transaction<'_, S>, kind: i64, number: i64) -> Result<bool, Fault>
    ensures same_reference { tx.new.conn.ghost_name ≡ tx.old.conn.ghost_name }
    ensures steps { Steps (Answers (IsTaken kind number)) (state S.Store tx.old.conn.now)
        (state S.Store tx.new.conn.now) result }
{
    let found = identity_by_key_inside(tx, kind, number)?;
    Ok(found.is_some())
}

/// The first number that no item of the kind has; none where each is taken.
fn first_gap<S: Alter>(tx: &mut Transaction<'_, S>, kind: i64) -> Result<Option<i64>, Fault>
    ensures same_reference { tx.new.conn.ghost_name ≡ tx.old.conn.ghost_name }
    ensures steps { Steps (Answers (FindsGap kind)) (state S.Store tx.old.conn.now) (state S.Store tx.new.conn.now)
        result }
{
    for number in 1..=GREATEST_NUMBER {
        let taken = is_taken(tx, kind, number)?;
        if !taken {
            return Ok(Some(number));
        }
    }
    Ok(None)
}

/// A number that no item of the kind has: the one after the greatest, and where none that may be
/// comes after it, the first. None where each is taken.
fn free_number<S: Alter>(
    tx: &mut Transaction<'_, S>,
    content: &Content,
) -> Result<Option<i64>, Fault>
    ensures same_reference { tx.new.conn.ghost_name ≡ tx.old.conn.ghost_name }
    ensures steps { Steps (Answers (FindsGap (pos (kind_number (kind_of content.now)))))
        (state S.Store tx.old.conn.now) (state S.Store tx.new.conn.now) result }
{
    let kind = stored_kind(content);
    let greatest = greatest_local_id(tx, kind)?;
    match number_after(greatest) {
        Some(number) => Ok(Some(number)),
        None => first_gap(tx, kind),
    }
}

/// Puts the row of a content into its table.
fn put_content<S: Alter>(
    tx: &mut Transaction<'_, S>,
    number: i64,
    content: &Content,
) -> Result<(), Fault>
    ensures same_reference { tx.new.conn.ghost_name ≡ tx.old.conn.ghost_name }
    ensures steps { Steps (λ _. OnTables (AddsContent number content.now)) (state S.Store tx.old.conn.now)
        (state S.Store tx.new.conn.now) result }
{
    match content {
        Content::Tile {
            zoom,
            column,
            row,
            bytes,
        } => insert_tile(tx, number, *zoom, *column, *row, bytes.as_slice()),
        Content::Media {
            content_type,
            bytes,
        } => insert_medium(tx, number, bytes.as_slice(), content_type.as_str()),
        Content::Row { x, y, code, label } => {
            insert_attribute(tx, number, *x, *y, *code, label.as_str())
        }
    }
}

/// Takes an item in under a new identity and a local number of its own. Tells whether there was a
/// number for it: where all 1,000,000 of its kind are taken, nothing is changed.
///
/// # Errors
///
/// Want of memory, or a store that failed. Nothing is committed; the transaction has to be dropped.
pub fn add_if_room<S: Alter>(
    tx: &mut Transaction<'_, S>,
    identity: Uuid,
    content: &Content,
) -> Result<bool, Fault>
    ensures same_reference { tx.new.conn.ghost_name ≡ tx.old.conn.ghost_name }
    ensures steps { Steps (ComesIn (record { identity = identity; content = content.now }))
        (state S.Store tx.old.conn.now) (state S.Store tx.new.conn.now) result }
{
    let Some(number) = free_number(tx, content)? else {
        return Ok(false);
    };
    put_content(tx, number, content)?;
    let mut buffer = Uuid::encode_buffer();
    let text = identity.hyphenated().encode_lower(&mut buffer);
    insert_identity(tx, stored_kind(content), number, text)?;
    Ok(true)
}

/// Takes an item in under a new identity and a local number of its own.
///
/// # Errors
///
/// Want of memory, a store that failed, or a kind of which all 1,000,000 numbers are taken. Nothing
/// is committed; the transaction has to be dropped.
pub fn add<S: Alter>(
    tx: &mut Transaction<'_, S>,
    identity: Uuid,
    content: &Content,
) -> Result<(), Fault>
    ensures same_reference { tx.new.conn.ghost_name ≡ tx.old.conn.ghost_name }
    ensures steps { Steps (λ _. Grows (IsNewItem identity) (item_added
        (record { identity = identity; content = content.now }))) (state S.Store tx.old.conn.now)
        (state S.Store tx.new.conn.now) result }
{
    let came = add_if_room(tx, identity, content)?;
    if came { Ok(()) } else { Err(Fault::StoreFault) }
}
