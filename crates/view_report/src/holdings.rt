//! What each package holds: a row for each thing and each link.
ghost use Rattle.std.specs.Prelude.{◌≡◌, ◌++◌, IfOk, flat_map, string_bytes};
ghost use Rattle.view_report.specs.Holdings.{holding_text, kind_word, pair_text, thing_if, thing_kind, thing_row};
ghost use Rattle.view_report.specs.Holdings.{tie_if, tie_row};

use crate::pieces::{
    put, put_about, put_count, put_digest, put_name, put_short, put_sums, put_swatch, put_thing,
    put_uuid,
};
use crate::registers::{About, Live, Register, Thing, Tie, is_same};
use crate::words::{HOLDING_END, HOLDING_HEAD};
use sheet_types::receipt::MovedKind;
use std::alloc::AllocError;
use uuid::Uuid;

/// The word of a kind of thing.
pub fn kind_word(kind: MovedKind) -> &'static str
    ensures { result.now ≡ kind_word kind }
{
    match kind {
        MovedKind::TileItem => "sheet",
        MovedKind::MediaItem => "medium",
        MovedKind::RowItem => "mark",
        MovedKind::TilesMediaLink => "sheet, medium",
        MovedKind::RowsMediaLink => "mark, medium",
        MovedKind::RowsTilesLink => "mark, sheet",
    }
}

/// The kind of an item.
fn thing_kind(about: &About) -> MovedKind
    ensures { result ≡ thing_kind about.now }
{
    match about {
        About::Sheet { .. } => MovedKind::TileItem,
        About::Medium { .. } => MovedKind::MediaItem,
        About::Mark { .. } => MovedKind::RowItem,
    }
}

/// Puts the row of an item.
fn put_item(text: &mut String, register: &Register, thing: &Thing) -> Result<(), AllocError>
    ensures { IfOk result (λ _. string_bytes text.new ≡ string_bytes text.old ++ thing_row register.now thing.now) }
{
    put(text, "<tr id=\"i-")?;
    put_uuid(text, thing.identity)?;
    put(text, "\"><th scope=\"row\">")?;
    put(text, kind_word(thing_kind(&thing.about)))?;
    put(text, " ")?;
    put_about(text, &register.names, thing)?;
    put(text, "</th><td>")?;
    put_short(text, thing.identity)?;
    put(text, "</td><td class=\"n\" data-l=\"bytes\">")?;
    put_count(text, thing.size)?;
    put(text, "</td><td>")?;
    put_digest(text, &thing.fingerprint)?;
    put(text, "</td></tr>\n")?;
    Ok(())
}

/// Puts it, where this package holds the item.
fn put_item_if(
    text: &mut String,
    register: &Register,
    holder: Uuid,
    thing: &Thing,
) -> Result<(), AllocError>
    ensures { IfOk result (λ _. string_bytes text.new ≡ string_bytes text.old
        ++ thing_if register.now holder thing.now) }
{
    if is_same(thing.holder, holder) {
        put_item(text, register, thing)
    } else {
        Ok(())
    }
}

/// Puts the rows of the items that a package holds.
///
/// # Errors
///
/// Want of memory.
pub fn put_items(
    text: &mut String,
    register: &Register,
    holder: Uuid,
    things: &[Thing],
) -> Result<(), AllocError>
    ensures { IfOk result (λ _. string_bytes text.new ≡ string_bytes text.old
        ++ flat_map (thing_if register.now holder) things.now) }
{
    for thing in things {
        put_item_if(text, register, holder, thing)?;
    }
    Ok(())
}

/// Puts the two ends of a link.
pub(crate) fn put_pair(
    text: &mut String,
    register: &Register,
    base: Uuid,
    other: Uuid,
) -> Result<(), AllocError>
    ensures { IfOk result (λ _. string_bytes text.new ≡ string_bytes text.old ++ pair_text register.now base other) }
{
    put_thing(text, register, base)?;
    put(text, " &harr; ")?;
    put_thing(text, register, other)?;
    Ok(())
}

/// Puts the row of a link.
fn put_tie(text: &mut String, register: &Register, tie: &Tie) -> Result<(), AllocError>
    ensures { IfOk result (λ _. string_bytes text.new ≡ string_bytes text.old ++ tie_row register.now tie.now) }
{
    put(text, "<tr><th scope=\"row\">")?;
    put(text, kind_word(tie.kind))?;
    put(text, "</th><td colspan=\"3\">")?;
    put_pair(text, register, tie.base, tie.other)?;
    put(text, "</td></tr>\n")?;
    Ok(())
}

/// Puts it, where this package holds the link.
fn put_tie_if(
    text: &mut String,
    register: &Register,
    holder: Uuid,
    tie: &Tie,
) -> Result<(), AllocError>
    ensures { IfOk result (λ _. string_bytes text.new ≡ string_bytes text.old
        ++ tie_if register.now holder tie.now) }
{
    if is_same(tie.holder, holder) {
        put_tie(text, register, tie)
    } else {
        Ok(())
    }
}

/// Puts the rows of the links that a package holds.
///
/// # Errors
///
/// Want of memory.
pub fn put_ties(
    text: &mut String,
    register: &Register,
    holder: Uuid,
    ties: &[Tie],
) -> Result<(), AllocError>
    ensures { IfOk result (λ _. string_bytes text.new ≡ string_bytes text.old
        ++ flat_map (tie_if register.now holder) ties.now) }
{
    for tie in ties {
        put_tie_if(text, register, holder, tie)?;
    }
    Ok(())
}

/// Puts all that a package holds.
fn put_holding(text: &mut String, register: &Register, live: &Live) -> Result<(), AllocError>
    ensures { IfOk result (λ _. string_bytes text.new ≡ string_bytes text.old
        ++ holding_text register.now live.now) }
{
    put(text, "<details id=\"d-")?;
    put_uuid(text, live.uuid)?;
    put(text, "\">\n<summary>")?;
    put_swatch(text, live.number)?;
    put(text, "<b>")?;
    put_name(text, &register.names, live.uuid)?;
    put(text, "</b> ")?;
    put_sums(
        text,
        live.sums.tiles,
        live.sums.media,
        live.sums.rows,
        live.sums.links,
    )?;
    put(text, HOLDING_HEAD)?;
    put_items(text, register, live.uuid, register.things.as_slice())?;
    put_ties(text, register, live.uuid, &register.ties)?;
    put(text, HOLDING_END)?;
    Ok(())
}

/// Puts all that each package holds.
pub(crate) fn put_holdings(
    text: &mut String,
    register: &Register,
    packages: &[Live],
) -> Result<(), AllocError>
    ensures { IfOk result (λ _. string_bytes text.new ≡ string_bytes text.old
        ++ flat_map (holding_text register.now) packages.now) }
{
    for live in packages {
        put_holding(text, register, live)?;
    }
    Ok(())
}
