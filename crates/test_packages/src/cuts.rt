// Cuts of a package at rest, and what they tell; and all that it holds.

use crate::lines::Line;
use cut::select::select;
use identity_register::one_by_one::{AT_ONCE, holdings_by_size};
use identity_register::selection::Selection;
use matrix_rules::check::FrameRules;
use matrix_rules::ground::is_good;
use package_tables::fault::Fault;
use sheet_types::command::{Item, Mode, Relation};
use sheet_types::frame::Rect;
use sheet_types::receipt::Moved;
use sheet_types::refusal::Refusal;
use sqlite::{Alter, Connection};
use std::alloc::{AllocError, Global};
use test_values::{FRAME, at_rest, identities_text, links_text, number_of};

fn selected_text(a: Global, selection: &Selection) -> Result<String, AllocError> {
    let mut text = identities_text(a, selection.identities.as_slice())?;
    text.push_str(links_text(a, selection.links.as_slice())?.as_str())?;
    Ok(text)
}

fn refusal_text(a: Global, why: Refusal) -> Result<String, AllocError> {
    match why {
        Refusal::CutLink(item) => format!(in a; "cuts a link of {}", number_of(item)),
        _ => String::from_str(a, "another refusal"),
    }
}

// Takes what was selected, so that no store is at hand where it leaves.
pub(crate) fn selection_told(
    a: Global,
    selected: Result<Result<Selection, Refusal>, Fault>,
) -> Result<String, Fault> {
    let selected = selected?;
    match &selected {
        Ok(selection) => Ok(selected_text(a, selection)?),
        Err(why) => Ok(refusal_text(a, *why)?),
    }
}

// The items by their numbers and then the links, so that no store is at hand where it leaves.
fn held_text(a: Global, items: &[Item], links: &[Relation]) -> Result<String, AllocError> {
    let mut text = String::new(a);
    for item in items {
        text.push_str(format!(in a; "{};", number_of(item.identity))?.as_str())?;
    }
    text.push_str(links_text(a, links)?.as_str())?;
    Ok(text)
}

fn held_told(a: Global, held: Result<(Vec<Item>, Vec<Relation>), Fault>) -> Result<String, Fault> {
    let held = held?;
    Ok(held_text(a, held.0.as_slice(), held.1.as_slice())?)
}

// An item with its size and the first two bytes of its fingerprint.
fn item_text(a: Global, item: &Item) -> Result<String, AllocError> {
    let moved = Moved::of_item(item);
    let digest = moved.fingerprint.unwrap_or([0; 32]);
    format!(in a;
        "{} {} {} {};",
        number_of(item.identity),
        moved.size,
        digest[0],
        digest[1]
    )
}

// The items with their contents, and then the links.
fn each_text(a: Global, items: &[Item], links: &[Relation]) -> Result<String, AllocError> {
    let mut text = String::new(a);
    for item in items {
        text.push_str(item_text(a, item)?.as_str())?;
    }
    text.push_str(links_text(a, links)?.as_str())?;
    Ok(text)
}

fn each_told(a: Global, held: Result<(Vec<Item>, Vec<Relation>), Fault>) -> Result<String, Fault> {
    let held = held?;
    Ok(each_text(a, held.0.as_slice(), held.1.as_slice())?)
}

// A rectangle is its zoom, its first and last column, its first and last row.
fn rect_of(n: [i64; 11]) -> Rect {
    Rect {
        zoom: n[0],
        column: n[1],
        last_column: n[2],
        row: n[3],
        last_row: n[4],
    }
}

fn mode_of(kind: &str) -> Mode {
    if kind == "strict" {
        Mode::Strict
    } else {
        Mode::Follow
    }
}

/// The items that are selected and then the links, or why nothing is. `cut none` selects nothing
/// and tells all that is there; so does `cut each`, as of a large package, with contents.
pub(crate) fn cut_told<S: Alter>(
    a: Global,
    conn: &mut Connection<S>,
    line: Line,
) -> Result<String, Fault> {
    let rect = rect_of(line.n);
    at_rest(conn)?;
    if line.kind == "none" {
        return held_told(a, holdings_by_size(conn, a, AT_ONCE));
    }
    if line.kind == "each" {
        return each_told(a, holdings_by_size(conn, a, AT_ONCE + 1));
    }
    if FRAME.check().is_err() || !is_good(&FRAME, &rect) {
        return Err(Fault::StoreFault);
    }
    selection_told(a, select(conn, a, &FRAME, &rect, mode_of(line.kind)))
}
