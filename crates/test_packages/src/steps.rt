// A test as data: packages in memory, what is done to each in turn, and what it is asked. One
// function carries a step out.

use crate::asks::{asked, rows_told};
use crate::changes::{Done, Entered};
use crate::cuts::cut_told;
use crate::forms::{forms_told, turned};
use crate::lines::{Line, read_line};
use package_creation::create::Info;
use package_tables::fault::Fault;
use sheet_types::frame::Frame;
use sqlite::{Alter, Connection, MemStore};
use std::alloc::Global;
use test_values::{AT, Checked, FRAME, altered, committed, in_memory, new_package};
use uuid::Uuid;

// A change went through, since no other transaction stood in its way.
fn went(a: Global, told: Result<bool, Fault>) -> Result<String, Fault> {
    Ok(String::from_str(a, if told? { "done" } else { "not done" })?)
}

fn step_told<S: Alter>(a: Global, conn: &mut Connection<S>, line: Line) -> Result<String, Fault> {
    match line.name {
        "alter" => {
            altered(conn, line.text)?;
            went(a, Ok(true))
        }
        "rows" => rows_told(a, conn, line.text),
        "add" | "delete" | "link" | "unlink" | "date" => went(a, committed(conn, &Done(a, line))),
        "enter" => went(a, committed(conn, &Entered(a, line))),
        "ask" => asked(a, conn, line),
        "cut" => cut_told(a, conn, line),
        "form" => forms_told(a, conn, line.kind),
        "turn" => turned(a, conn, line.kind),
        _ => Ok(String::from_str(a, "no step")?),
    }
}

// Carries the lines out, and notes what each told. One that begins with `#` says something of those
// below it.
pub(crate) fn take_steps<S: Alter>(
    a: Global,
    conn: &mut Connection<S>,
    steps: &'static str,
    checked: &mut Checked,
) {
    for line in steps.lines() {
        if !line.starts_with('#') {
            let line = read_line(line);
            checked.told(step_told(a, conn, line), line.expected);
        }
    }
}

// The frame that a line says, or that of all tests.
fn frame_of(n: [i64; 11]) -> Frame {
    if n[0] == 0 {
        return FRAME;
    }
    Frame {
        srs_id: n[0],
        min_x: n[1],
        min_y: n[2],
        max_x: n[3],
        max_y: n[4],
        tile_width: n[5],
        tile_height: n[6],
        first_zoom: n[7],
        levels: n[8],
        matrix_width: n[9],
        matrix_height: n[10],
    }
}

// The head of the archive 1, and of its loan, package 2.
fn info_of(kind: &str) -> Info<'static> {
    let is_loan = kind == "loan";
    Info {
        package: Uuid::from_u128(if is_loan { 2 } else { 1 }),
        parent: if is_loan {
            Some(Uuid::from_u128(1))
        } else {
            None
        },
        depth: if is_loan { 1 } else { 0 },
        loan: if is_loan { 7 } else { 0 },
        created: AT,
    }
}

/// A store in memory: `new nothing` one that nothing is in, `new archive` and `new loan` a package,
/// of a frame if one is said.
pub(crate) fn new_store(a: Global, line: Line) -> Result<Connection<MemStore>, Fault> {
    let conn = in_memory(a)?;
    if line.kind == "nothing" {
        return Ok(conn);
    }
    new_package(a, conn, &frame_of(line.n), &info_of(line.kind))
}

// Over any store, so that the one that was made is let go at a type that costs no proof.
fn take_in<S: Alter + Drop>(
    a: Global,
    made: Result<Connection<S>, Fault>,
    steps: &'static str,
    checked: &mut Checked,
) -> Result<(), Fault> {
    let mut conn = made?;
    take_steps(a, &mut conn, steps, checked);
    Ok(())
}

fn take_part(a: Global, part: &'static str, checked: &mut Checked) -> Result<(), Fault> {
    let (head, steps) = part.split_once('\n').unwrap_or((part, ""));
    let head = read_line(head);
    checked.is(head.name, "new");
    take_in(a, new_store(a, head), steps, checked)
}

/// What the steps told that was not expected, one a line. Each part of the text, behind an empty
/// line, has a store of its own.
pub(crate) fn wrong(a: Global, steps: &'static str) -> Result<String, Fault> {
    let mut checked = Checked::new(a);
    for part in steps.split("\n\n") {
        take_part(a, part, &mut checked)?;
    }
    Ok(String::from_str(a, checked.wrong())?)
}
