// What a store says of itself: its form, its head, its moments, its frame, its claims, and whether
// its receipts are in their ranges.

use package_receipts::are_in_range;
use package_schema::claims::{StoreClaim, claims};
use package_schema::form::has_form;
use package_schema::frames::{are_dated, read_frame};
use package_schema::heads::{StoreHead, head};
use package_tables::fault::Fault;
use package_v1::migration::migrate;
use package_v1::names::are_free;
use package_v1::taking_back::take_back;
use sheet_types::frame::Frame;
use sqlite::{Alter, Connection};
use std::alloc::{AllocError, Global};
use test_values::{answered, at_rest, number_of};
use uuid::Uuid;

fn numbers_text(a: Global, numbers: &[i64]) -> Result<String, AllocError> {
    let mut text = String::new(a);
    for number in numbers {
        text.push_str(format!(in a; "{number};")?.as_str())?;
    }
    Ok(text)
}

fn number_at(end: Option<Uuid>) -> i64 {
    match end {
        Some(identity) => i64::from(number_of(identity)),
        None => -1,
    }
}

fn small(number: u64) -> i64 {
    i64::try_from(number).unwrap_or(-1)
}

// The package, its parent, its depth and its loan.
fn head_told(a: Global, found: Result<Option<StoreHead>, Fault>) -> Result<String, Fault> {
    let found = found?;
    match &found {
        Some(head) => {
            let ends = (number_at(Some(head.uuid)), number_at(head.parent));
            let numbers = [ends.0, ends.1, small(head.depth), small(head.loan)];
            Ok(numbers_text(a, numbers.as_slice())?)
        }
        None => Ok(String::from_str(a, "-")?),
    }
}

fn frame_text(a: Global, f: &Frame) -> Result<String, AllocError> {
    let ground = [f.srs_id, f.min_x, f.min_y, f.max_x, f.max_y];
    let tiles = [
        f.tile_width,
        f.tile_height,
        f.first_zoom,
        f.levels,
        f.matrix_width,
        f.matrix_height,
    ];
    let mut text = numbers_text(a, ground.as_slice())?;
    text.push_str(numbers_text(a, tiles.as_slice())?.as_str())?;
    Ok(text)
}

fn frame_told(a: Global, found: Result<Option<Frame>, Fault>) -> Result<String, Fault> {
    let found = found?;
    match &found {
        Some(frame) => Ok(frame_text(a, frame)?),
        None => Ok(String::from_str(a, "-")?),
    }
}

fn put_claim(a: Global, text: &mut String, claim: &StoreClaim) -> Result<(), AllocError> {
    text.push_str(format!(in a; "{} ", claim.seq)?.as_str())?;
    text.push_str(claim.line.as_str())?;
    text.push(' ')?;
    text.push_str(claim.source.as_str())?;
    text.push(' ')?;
    text.push_str(claim.target.as_str())?;
    text.push(';')
}

// The number, the line and both ends of each claim.
fn claims_told(a: Global, found: Result<Vec<StoreClaim>, Fault>) -> Result<String, Fault> {
    let found = found?;
    let mut text = String::new(a);
    for claim in &found {
        put_claim(a, &mut text, claim)?;
    }
    Ok(text)
}

/// What the store tells.
pub(crate) fn forms_told<S: Alter>(
    a: Global,
    conn: &mut Connection<S>,
    kind: &str,
) -> Result<String, Fault> {
    at_rest(conn)?;
    match kind {
        "has_form" => answered(a, has_form(conn)?),
        "head" => head_told(a, head(conn, a)),
        "are_dated" => answered(a, are_dated(conn, a)?),
        "frame" => frame_told(a, read_frame(conn, a)),
        "claims" => claims_told(a, claims(conn, a)),
        "in_range" => answered(a, are_in_range(conn, a)?),
        // whether the names that the second version makes are free
        "are_free" => answered(a, are_free(conn.schema())),
        _ => Ok(String::from_str(a, "no form")?),
    }
}

/// Brings a store from the first version to the second, or takes it back. Tells that it did, or why
/// not.
pub(crate) fn turned<S: Alter>(
    a: Global,
    conn: &mut Connection<S>,
    kind: &str,
) -> Result<String, Fault> {
    at_rest(conn)?;
    if kind == "back" {
        take_back(conn)?;
    } else {
        migrate(conn)?;
    }
    Ok(String::from_str(a, "done")?)
}
