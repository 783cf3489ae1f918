//! The names of the sheets of the first zoom, and where something stands on the map.
ghost use Rattle.std.specs.Prelude.{◌≡◌, ◌++◌, IfOk, IsTrue, flat_map, string_bytes};
ghost use Rattle.sheet_types.specs.Matrix.{is_good_frame};
ghost use Rattle.view_drawing.specs.Names.{
  name_at,
  name_if,
  name_in,
  named_at,
  named_text,
  names_text,
  percent_text,
  place_text,
};

use std::alloc::AllocError;
use uuid::Uuid;
use view_map::layout::Layout;
use view_report::drawing::{column_share, row_share};
use view_report::escaping::put_escaped;
use view_report::levels::{Level, level_at};
use view_report::lists::Names;
use view_report::pieces::{put, put_count};
use view_report::registers::{About, Name, Register, Thing, name_of};

/// Puts ten-thousandths as a percentage with two places.
fn put_percent(text: &mut String, share: u64) -> Result<(), AllocError>
    ensures { IfOk result
        (λ _. string_bytes text.new ≡ string_bytes text.old ++ percent_text share) }
{
    put_count(text, share / 100)?;
    put(text, ".")?;
    put_count(text, share / 10 % 10)?;
    put_count(text, share % 10)?;
    put(text, "%")?;
    Ok(())
}

/// Puts where on the map something stands, in ten-thousandths of its sides.
pub(crate) fn put_place(text: &mut String, left: u64, top: u64) -> Result<(), AllocError>
    ensures { IfOk result
        (λ _. string_bytes text.new ≡ string_bytes text.old ++ place_text left top) }
{
    put(text, " x=\"")?;
    put_percent(text, left)?;
    put(text, "\" y=\"")?;
    put_percent(text, top)?;
    put(text, "\"")?;
    Ok(())
}

/// Puts the name of a sheet at its place.
fn put_named(text: &mut String, name: &Name, left: u64, top: u64) -> Result<(), AllocError>
    ensures { IfOk result
        (λ _. string_bytes text.new ≡ string_bytes text.old ++ named_text name.now left top) }
{
    put(text, "<text class=\"nm\"")?;
    put_place(text, left, top)?;
    put(text, " dx=\"9\" dy=\"-9\">")?;
    put_escaped(text, name.name.as_str())?;
    put(text, "</text>\n")?;
    Ok(())
}

/// Puts it, if the sheet has one.
fn put_name_of(
    text: &mut String,
    names: &Names,
    id: Uuid,
    left: u64,
    top: u64,
) -> Result<(), AllocError>
    ensures { IfOk result
        (λ _. string_bytes text.new ≡ string_bytes text.old ++ names_text names.now id left top) }
{
    match name_of(names, id) {
        Some(name) => put_named(text, name, left, top),
        None => Ok(()),
    }
}

/// Puts it where the sheet stands.
fn put_name_in(
    text: &mut String,
    names: &Names,
    layout: &Layout,
    id: Uuid,
    column: i64,
    row: i64,
) -> Result<(), AllocError>
    ensures { IfOk result
        (λ _. string_bytes text.new ≡ string_bytes text.old
        ++ name_in names.now layout.now id column row) }
{
    let left = column_share(layout, column);
    let top = row_share(layout, row);
    put_name_of(text, names, id, left, top)?;
    Ok(())
}

/// Puts it, if the sheet is one of this zoom.
fn put_name_at(
    text: &mut String,
    names: &Names,
    level: &Level,
    id: Uuid,
    zoom: i64,
    column: i64,
    row: i64,
) -> Result<(), AllocError>
    ensures { IfOk result
        (λ _. string_bytes text.new ≡ string_bytes text.old
        ++ name_at names.now level.now id zoom column row) }
{
    if zoom == level.zoom {
        put_name_in(text, names, &level.layout, id, column, row)
    } else {
        Ok(())
    }
}

/// Puts the name of an item, if it is a sheet of this zoom and has one.
fn put_name_if(
    text: &mut String,
    names: &Names,
    level: &Level,
    thing: &Thing,
) -> Result<(), AllocError>
    ensures { IfOk result
        (λ _. string_bytes text.new ≡ string_bytes text.old
        ++ name_if names.now level.now thing.now) }
{
    match &thing.about {
        About::Sheet { zoom, column, row } => {
            put_name_at(text, names, level, thing.identity, *zoom, *column, *row)
        }
        About::Medium { .. } | About::Mark { .. } => Ok(()),
    }
}

/// Puts the names of the sheets of a zoom.
fn put_names(
    text: &mut String,
    names: &Names,
    level: &Level,
    things: &[Thing],
) -> Result<(), AllocError>
    ensures { IfOk result
        (λ _. string_bytes text.new ≡ string_bytes text.old
        ++ flat_map (name_if names.now level.now) things.now) }
{
    for thing in things {
        put_name_if(text, names, level, thing)?;
    }
    Ok(())
}

/// Puts the names of the first zoom.
pub(crate) fn put_first_names(
    text: &mut String,
    register: &Register,
    total: u64,
) -> Result<(), AllocError>
    requires { IsTrue (is_good_frame register.now.frame) }
    ensures { IfOk result
        (λ _. string_bytes text.new ≡ string_bytes text.old ++ named_at register.now total) }
{
    match level_at(&register.frame, total, 0) {
        Some(level) => put_names(text, &register.names, &level, register.things.as_slice()),
        None => Ok(()),
    }
}
