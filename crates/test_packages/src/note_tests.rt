// What the statements of the example of `sql_meaning` do to its table in memory, by hand.

use crate::asks::rows_told;
use package_tables::fault::Fault;
use sqlite::{Alter, Connection, Error, Transaction};
use std::alloc::Global;
use std::test::Fail;
use store_sql::example::{
    Note, change_in_turn, insert_all, insert_both, insert_note, insert_one, newest_note,
    read_before, read_from,
};
use test_values::{altered, at_rest, in_memory};

const TABLE: &str =
    "CREATE TABLE notes (seq INTEGER PRIMARY KEY, place INTEGER NOT NULL, text TEXT NOT NULL) STRICT";

const ALL: &str = "SELECT seq || ' ' || place || ' ' || text FROM notes ORDER BY seq";

const TWO: [Note<'static>; 2] = [
    Note {
        seq: 10,
        place: 8,
        text: "e",
    },
    Note {
        seq: 4,
        place: 7,
        text: "f",
    },
];

fn enter<S: Alter>(tx: &mut Transaction<'_, S>) -> Result<(), Error> {
    insert_note(tx, 1, 7, "a")?;
    insert_both(tx, 2, 3, 8, "b", "c")?;
    insert_one(
        tx,
        Note {
            seq: 9,
            place: 7,
            text: "d",
        },
    )?;
    insert_all(tx, TWO.as_slice())
}

// How many notes are the newest of place 7, the newest of place 6, and those of place 7 before the
// newest.
fn ask<S: Alter>(tx: &mut Transaction<'_, S>) -> Result<[usize; 3], Error> {
    let newest = newest_note(tx, 7)?.len();
    let of_none = newest_note(tx, 6)?.len();
    let before = read_before(tx, 7, 9)?.len();
    Ok([newest, of_none, before])
}

fn stepped<S: Alter>(conn: &mut Connection<S>) -> Result<[usize; 3], Fault> {
    at_rest(conn)?;
    let mut tx = conn.transaction();
    enter(&mut tx)?;
    let told = ask(&mut tx)?;
    tx.commit()?;
    Ok(told)
}

// Whether two notes are refused after two came in: the second's number is taken, so the first is
// not entered either.
fn turned<S: Alter>(conn: &mut Connection<S>) -> Result<bool, Fault> {
    at_rest(conn)?;
    change_in_turn(conn, 30, 50, 7, "one", "two")?;
    at_rest(conn)?;
    Ok(change_in_turn(conn, 40, 50, 7, "three", "four").is_err())
}

// How many notes there are from 10 on.
fn late<S: Alter>(conn: &mut Connection<S>) -> Result<usize, Fault> {
    at_rest(conn)?;
    Ok(read_from(conn, 10)?.len())
}

// Over any store, so that the one that was made is let go at a type that costs no proof.
fn noted<S: Alter + Drop>(a: Global, made: Result<Connection<S>, Fault>) -> Result<String, Fault> {
    let mut conn = made?;
    altered(&mut conn, TABLE)?;
    let told = stepped(&mut conn)?;
    let is_refused = turned(&mut conn)?;
    let late = late(&mut conn)?;
    let mut text = rows_told(a, &mut conn, ALL)?;
    if told == [1, 0, 2] && is_refused && late == 3 {
        text.push_str(" right")?;
    }
    Ok(text)
}

#[test]
fn notes_come_in_and_are_read(rt: HostRuntime) -> Result<(), Fail> {
    let alloc = rt.alloc();
    let told = noted(alloc, in_memory(alloc))?;
    assert_eq!(rt;
        told.as_str(),
        "1 7 a;2 8 b;3 8 c;4 7 f;9 7 d;10 8 e;30 7 one;50 7 two; right"
    );
    Ok(())
}
