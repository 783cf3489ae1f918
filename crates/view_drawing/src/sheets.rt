//! The sheets of each zoom, from the coarsest on.
ghost use Rattle.std.specs.Prelude.{◌≡◌, ◌++◌, IfOk, IsTrue, flat_map, string_bytes};
ghost use Rattle.sheet_types.specs.Matrix.{is_good_frame};
ghost use Rattle.view_drawing.specs.Sheets.{
  level_if,
  level_text,
  levels_text,
  sheet_at,
  sheet_if,
  sheet_of,
  sheet_text,
  sheet_title,
};

use std::alloc::AllocError;
use view_report::drawing::{put_also_named, put_box, put_pattern_links, put_sides};
use view_report::levels::{Level, level_at};
use view_report::lists::Names;
use view_report::pieces::{put, put_count, put_place, put_plain_name};
use view_report::registers::{About, Live, Register, Thing, live_of};

/// Puts what is read where one points at a sheet.
fn put_title(
    text: &mut String,
    names: &Names,
    thing: &Thing,
    zoom: i64,
    column: i64,
    row: i64,
) -> Result<(), AllocError>
    ensures { IfOk result
        (λ _. string_bytes text.new ≡ string_bytes text.old
        ++ sheet_title names.now thing.now zoom column row) }
{
    put_place(text, zoom, column, row)?;
    put(text, ", ")?;
    put_plain_name(text, names, thing.holder)?;
    put_also_named(text, names, thing.identity)?;
    put(text, "</title></rect>\n")?;
    Ok(())
}

/// Puts a sheet of this package at its place.
fn put_sheet_of(
    text: &mut String,
    register: &Register,
    level: &Level,
    thing: &Thing,
    live: &Live,
    zoom: i64,
    column: i64,
    row: i64,
) -> Result<(), AllocError>
    ensures { IfOk result
        (λ _. string_bytes text.new ≡ string_bytes text.old
        ++ sheet_of register.now level.now thing.now zoom column row live.now) }
{
    let number = live.number;
    put_box(text, level, live, number, column, row)?;
    put_title(text, &register.names, thing, zoom, column, row)?;
    Ok(())
}

/// Puts a sheet at its place, if its package lives.
fn put_sheet(
    text: &mut String,
    register: &Register,
    level: &Level,
    thing: &Thing,
    zoom: i64,
    column: i64,
    row: i64,
) -> Result<(), AllocError>
    ensures { IfOk result
        (λ _. string_bytes text.new ≡ string_bytes text.old
        ++ sheet_text register.now level.now thing.now zoom column row) }
{
    match live_of(&register.packages, thing.holder) {
        Some(live) => put_sheet_of(text, register, level, thing, live, zoom, column, row),
        None => Ok(()),
    }
}

/// Puts a sheet, if it is one of this zoom.
fn put_sheet_at(
    text: &mut String,
    register: &Register,
    level: &Level,
    thing: &Thing,
    zoom: i64,
    column: i64,
    row: i64,
) -> Result<(), AllocError>
    ensures { IfOk result
        (λ _. string_bytes text.new ≡ string_bytes text.old
        ++ sheet_at register.now level.now thing.now zoom column row) }
{
    if zoom == level.zoom {
        put_sheet(text, register, level, thing, zoom, column, row)
    } else {
        Ok(())
    }
}

/// Puts an item, if it is a sheet of this zoom.
fn put_sheet_if(
    text: &mut String,
    register: &Register,
    level: &Level,
    thing: &Thing,
) -> Result<(), AllocError>
    ensures { IfOk result
        (λ _. string_bytes text.new ≡ string_bytes text.old
        ++ sheet_if register.now level.now thing.now) }
{
    match &thing.about {
        About::Sheet { zoom, column, row } => {
            put_sheet_at(text, register, level, thing, *zoom, *column, *row)
        }
        About::Medium { .. } | About::Mark { .. } => Ok(()),
    }
}

/// Puts the sheets of a zoom.
fn put_sheets(
    text: &mut String,
    register: &Register,
    level: &Level,
    things: &[Thing],
) -> Result<(), AllocError>
    ensures { IfOk result
        (λ _. string_bytes text.new ≡ string_bytes text.old
        ++ flat_map (sheet_if register.now level.now) things.now) }
{
    for thing in things {
        put_sheet_if(text, register, level, thing)?;
    }
    Ok(())
}

/// Puts a zoom.
fn put_level(text: &mut String, register: &Register, level: &Level) -> Result<(), AllocError>
    ensures { IfOk result
        (λ _. string_bytes text.new ≡ string_bytes text.old ++ level_text register.now level.now) }
{
    put(text, "<svg class=\"l")?;
    put_count(text, level.index)?;
    put(text, "\" viewBox=\"0 0 ")?;
    put_sides(text, &level.layout, 100, " ")?;
    put(text, "\" preserveAspectRatio=\"none\">\n<defs>\n")?;
    put_pattern_links(text, level, &register.packages)?;
    put(text, "</defs>\n")?;
    put_sheets(text, register, level, register.things.as_slice())?;
    put(text, "</svg>\n")?;
    Ok(())
}

/// Puts the zoom with so many coarser ones, if the frame has it.
fn put_level_if(
    text: &mut String,
    register: &Register,
    total: u64,
    index: u64,
) -> Result<(), AllocError>
    requires { IsTrue (is_good_frame register.now.frame) }
    ensures { IfOk result
        (λ _. string_bytes text.new ≡ string_bytes text.old ++ level_if register.now total index) }
{
    match level_at(&register.frame, total, index) {
        Some(level) => put_level(text, register, &level),
        None => Ok(()),
    }
}

/// Puts all zooms that are drawn.
pub(crate) fn put_levels(
    text: &mut String,
    register: &Register,
    total: u64,
) -> Result<(), AllocError>
    requires { IsTrue (is_good_frame register.now.frame) }
    ensures { IfOk result
        (λ _. string_bytes text.new ≡ string_bytes text.old
        ++ levels_text register.now total total) }
{
    for index in 0..total {
        put_level_if(text, register, total, index)?;
    }
    Ok(())
}
