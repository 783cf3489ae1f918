//! The forms that a crate above copies: a statement, several in one call, and a whole transaction.

ghost use Rattle.std.specs.Prelude.{◌≡◌, ℕ, [], ◌∷◌, codes, IfSome, IfNone, IfErr};
ghost use Rattle.sqlite.specs.declared.types.Value.TheVariants.{Int, Text};
ghost use Rattle.sqlite.specs.Held.{state};
ghost use Rattle.store_sql.specs.Transactions.{Rests, Steps, Turns, Looks, IsExcused, IsUnanswered};
ghost use Rattle.store_sql.specs.Reading.{Finds, FindsFirst};
ghost use Rattle.store_sql.specs.Writing.{EachChained};
ghost use Rattle.store_sql.specs.Known.{HasTable};
ghost use Rattle.store_sql.specs.Notes.{AddsNote, AddsBoth, Adds};
ghost use Rattle.store_sql.specs.Notes.{note_table, newest_in, notes_from, notes_before, numbers_in};

use crate::forms::{ColumnForm, TableForm, find_table};
use sqlite::{Alter, Connection, Error, Row, Transaction, params};
use sqlite_schema::schema::{Kind, Schema};

/// `CREATE TABLE notes (seq INTEGER PRIMARY KEY, place INTEGER NOT NULL, text TEXT NOT NULL) STRICT`
pub const NOTES: TableForm<'static> = TableForm {
    name: b"notes",
    columns: &[
        ColumnForm {
            name: b"seq",
            kind: Kind::Integer,
            is_strict: true,
            not_null: false,
        },
        ColumnForm {
            name: b"place",
            kind: Kind::Integer,
            is_strict: true,
            not_null: true,
        },
        ColumnForm {
            name: b"text",
            kind: Kind::Text,
            is_strict: true,
            not_null: true,
        },
    ],
    key: Some(0),
    primary: &[0],
    uniques: &[],
    orders: &[],
    references: &[],
    is_counted: false,
};

/// Where a schema has the table of the notes, and the number of its tree.
pub fn find_notes(schema: &Schema) -> Option<(usize, u32)>
    ensures found { IfSome result (λ place. HasTable schema.now place.0 (note_table place.1)) }
    ensures none { IfNone result ((at tree : ℕ) → HasTable schema.now at (note_table tree) → ⊥) }
{
    find_table(schema, &NOTES)
}

/// A note, by its number, of some place.
#[derive(Clone, Copy)]
pub struct Note<'a> {
    pub seq: i64,
    pub place: i64,
    pub text: &'a str,
}

/// Enters a note, under a number that is free.
pub fn insert_note<S: Alter>(
    tx: &mut Transaction<'_, S>,
    seq: i64,
    place: i64,
    text: &str,
) -> Result<usize, Error>
    ensures same_reference { tx.new.conn.ghost_name ≡ tx.old.conn.ghost_name }
    ensures steps { Steps (λ _. AddsNote seq place text.now)
        (state S.Store tx.old.conn.now) (state S.Store tx.new.conn.now) result }
    ensures excused { IfErr result (IsExcused (codes "INSERT INTO notes VALUES (?1, ?2, ?3)")
        (Int seq ∷ Int place ∷ Text text.now ∷ [])
        (state S.Store tx.old.conn.now) (state S.Store tx.new.conn.now)) }
{
    tx.execute(
        "INSERT INTO notes VALUES (?1, ?2, ?3)",
        params![seq, place, text],
    )
}

/// The newest note of a place, if it has one. The engine reads that row alone where an index or
/// the end of the table leads to it.
pub fn newest_note<S: Alter>(tx: &mut Transaction<'_, S>, place: i64) -> Result<Vec<Row>, Error>
    ensures same_reference { tx.new.conn.ghost_name ≡ tx.old.conn.ghost_name }
    ensures steps { Steps (λ rows. FindsFirst note_table (newest_in place) rows.items)
        (state S.Store tx.old.conn.now) (state S.Store tx.new.conn.now) result }
    ensures excused { IfErr result (IsUnanswered
        (codes "SELECT * FROM notes WHERE place = ?1 ORDER BY seq DESC LIMIT 1") (Int place ∷ [])
        (state S.Store tx.old.conn.now) (state S.Store tx.new.conn.now)) }
{
    tx.query_all(
        "SELECT * FROM notes WHERE place = ?1 ORDER BY seq DESC LIMIT 1",
        params![place],
    )
}

/// The notes of a place below a number, the newest first.
pub fn read_before<S: Alter>(
    tx: &mut Transaction<'_, S>,
    place: i64,
    seq: i64,
) -> Result<Vec<Row>, Error>
    ensures same_reference { tx.new.conn.ghost_name ≡ tx.old.conn.ghost_name }
    ensures steps { Steps (λ rows. Finds note_table (notes_before place seq) rows.items)
        (state S.Store tx.old.conn.now) (state S.Store tx.new.conn.now) result }
{
    tx.query_all(
        "SELECT * FROM notes WHERE place = ?1 AND seq < ?2 ORDER BY seq DESC",
        params![place, seq],
    )
}

/// The notes from a number on, by their numbers, outside a transaction.
pub fn read_from<S: Alter>(conn: &mut Connection<S>, seq: i64) -> Result<Vec<Row>, Error>
    requires { Rests (state S.Store conn.old) }
    ensures looks { Looks (λ rows. Finds note_table (notes_from seq) rows.items)
        (state S.Store conn.old) (state S.Store conn.new) result }
{
    conn.query_all(
        "SELECT * FROM notes WHERE seq >= ?1 ORDER BY seq",
        params![seq],
    )
}

/// The numbers of the notes of a place, in their order, outside a transaction. The answer has this
/// one column, however long the notes are.
pub fn numbers_of_place<S: Alter>(conn: &mut Connection<S>, place: i64) -> Result<Vec<Row>, Error>
    requires { Rests (state S.Store conn.old) }
    ensures looks { Looks (λ rows. Finds note_table (numbers_in place) rows.items)
        (state S.Store conn.old) (state S.Store conn.new) result }
{
    conn.query_all(
        "SELECT seq FROM notes WHERE place = ?1 ORDER BY seq",
        params![place],
    )
}

/// Enters a note and then another, both in one place.
pub fn insert_both<S: Alter>(
    tx: &mut Transaction<'_, S>,
    first: i64,
    second: i64,
    place: i64,
    one: &str,
    other: &str,
) -> Result<usize, Error>
    ensures same_reference { tx.new.conn.ghost_name ≡ tx.old.conn.ghost_name }
    ensures steps { Steps (λ _. AddsBoth first second place one.now other.now)
        (state S.Store tx.old.conn.now) (state S.Store tx.new.conn.now) result }
{
    insert_note(tx, first, place, one)?;
    insert_note(tx, second, place, other)
}

/// Enters a note, under a number that is free.
pub fn insert_one<S: Alter>(tx: &mut Transaction<'_, S>, note: Note<'_>) -> Result<usize, Error>
    ensures same_reference { tx.new.conn.ghost_name ≡ tx.old.conn.ghost_name }
    ensures steps { Steps (λ _. Adds note.entry)
        (state S.Store tx.old.conn.now) (state S.Store tx.new.conn.now) result }
{
    insert_note(tx, note.seq, note.place, note.text)
}

/// Enters each of the notes, in their order.
pub fn insert_all<S: Alter>(tx: &mut Transaction<'_, S>, notes: &[Note<'_>]) -> Result<(), Error>
    ensures same_reference { tx.new.conn.ghost_name ≡ tx.old.conn.ghost_name }
    ensures steps { Steps (λ _. EachChained Adds notes.now)
        (state S.Store tx.old.conn.now) (state S.Store tx.new.conn.now) result }
{
    for note in notes {
        insert_one(tx, *note)?;
    }
    Ok(())
}

/// Enters both notes, or neither.
pub fn change_in_turn<S: Alter>(
    conn: &mut Connection<S>,
    first: i64,
    second: i64,
    place: i64,
    one: &str,
    other: &str,
) -> Result<usize, Error>
    requires { Rests (state S.Store conn.old) }
    ensures turns { Turns (λ _. AddsBoth first second place one.now other.now)
        (state S.Store conn.old) (state S.Store conn.new) result }
{
    let mut tx = conn.transaction();
    let count = insert_both(&mut tx, first, second, place, one, other)?;
    tx.commit()?;
    Ok(count)
}
