//! The map of a page: all zooms nested, names of the first, and marks (SVG 1.1 in HTML 5).
ghost use Rattle.std.specs.Prelude.{◌≡◌, ◌++◌, ◌-ℤ◌, IfOk, IsTrue, flat_map, string_bytes};
ghost use Rattle.std.specs.Prelude.{unsigned_abs};
ghost use Rattle.view_map.specs.Layout.{layout_of};
ghost use Rattle.view_map.specs.Zooms.{default_zoom};
ghost use Rattle.view_report.specs.Levels.{extent, inset_of, plus, share, start};
ghost use Rattle.sheet_types.specs.Matrix.{is_good_frame};
ghost use Rattle.view_report.specs.Drawing.{also_named, layer_of, legend_row, level_if, level_text, levels_text};
ghost use Rattle.view_report.specs.Drawing.{link_text, map_of, mark_at, mark_if, mark_of, mark_place, mark_text};
ghost use Rattle.view_report.specs.Drawing.{name_at, name_if, name_in, named_at, named_text, names_text, pattern_link};
ghost use Rattle.view_report.specs.Drawing.{sheet_at, sheet_box, sheet_if, sheet_of, sheet_text, sheet_title};
ghost use Rattle.view_report.specs.Drawing.{sides_text, style_text, whole_mark};

use crate::escaping::put_escaped;
use crate::levels::{
    Level, extent, inset_of, level_at, level_total, plus, scale_of, share, start, times,
};
use crate::lists::Names;
use crate::pieces::{
    pattern_of, put, put_class, put_count, put_name, put_place, put_plain_name, put_signed,
    put_sums, put_swatch, put_uuid,
};
use crate::registers::{About, Live, Name, Register, Thing, live_of, name_of};
use crate::words::{LEGEND_END, LEGEND_HEAD, MAP_HEAD};
use sheet_types::frame::Frame;
use std::alloc::AllocError;
use uuid::Uuid;
use view_map::layout::{Layout, layout_of};
use view_map::zooms::default_zoom;

/// How deep inside others the sheets of a package lie: as deep as its loan, three at most.
fn layer_of(live: &Live) -> u64
    ensures { result ≡ layer_of live.now }
{
    live.depth.min(3)
}

/// Puts the beginning of a link to an item's row.
fn put_link(text: &mut String, id: Uuid) -> Result<(), AllocError>
    ensures { IfOk result (λ _. string_bytes text.new ≡ string_bytes text.old ++ link_text id) }
{
    put(text, "<a href=\"#i-")?;
    put_uuid(text, id)?;
    put(text, "\" tabindex=\"-1\">")?;
    Ok(())
}

/// Where a sheet begins from the left.
fn left_of(level: &Level, layer: u64, column: i64) -> u64
    ensures { result ≡ start (unsigned_abs column) level.now.layout.width (inset_of level.now layer) }
{
    start(
        column.unsigned_abs(),
        level.layout.width,
        inset_of(level, layer),
    )
}

/// Where it begins from the top.
fn top_of(level: &Level, layer: u64, row: i64) -> u64
    ensures { result ≡ start (unsigned_abs row) level.now.layout.height (inset_of level.now layer) }
{
    start(
        row.unsigned_abs(),
        level.layout.height,
        inset_of(level, layer),
    )
}

/// How wide it is.
fn width_of(level: &Level, layer: u64) -> u64
    ensures { result ≡ extent level.now.layout.width (inset_of level.now layer) }
{
    extent(level.layout.width, inset_of(level, layer))
}

/// How high it is.
fn height_of(level: &Level, layer: u64) -> u64
    ensures { result ≡ extent level.now.layout.height (inset_of level.now layer) }
{
    extent(level.layout.height, inset_of(level, layer))
}

/// Puts the rectangle of a sheet of the holder of this number.
///
/// # Errors
///
/// Want of memory.
pub fn put_box(
    text: &mut String,
    level: &Level,
    live: &Live,
    number: usize,
    column: i64,
    row: i64,
) -> Result<(), AllocError>
    ensures { IfOk result (λ _. string_bytes text.new ≡ string_bytes text.old
        ++ sheet_box level.now live.now number column row) }
{
    let layer = layer_of(live);
    put(text, "<rect class=\"")?;
    put_class(text, number)?;
    put(text, "\" x=\"")?;
    put_count(text, left_of(level, layer, column))?;
    put(text, "\" y=\"")?;
    put_count(text, top_of(level, layer, row))?;
    put(text, "\" width=\"")?;
    put_count(text, width_of(level, layer))?;
    put(text, "\" height=\"")?;
    put_count(text, height_of(level, layer))?;
    put(text, "\" fill=\"url(#v")?;
    put_count(text, level.index)?;
    put(text, "-")?;
    put_count(text, number as u64)?;
    put(text, ")\"><title>")?;
    Ok(())
}

/// Puts the name of a sheet behind other words, where it has one.
///
/// # Errors
///
/// Want of memory.
pub fn put_also_named(text: &mut String, names: &Names, id: Uuid) -> Result<(), AllocError>
    ensures { IfOk result (λ _. string_bytes text.new ≡ string_bytes text.old ++ also_named names.now id) }
{
    match name_of(names, id) {
        Some(found) => {
            put(text, ", ")?;
            put_escaped(text, found.name.as_str())
        }
        None => Ok(()),
    }
}

/// Puts what is read where one points at a sheet.
fn put_title(
    text: &mut String,
    names: &Names,
    thing: &Thing,
    zoom: i64,
    column: i64,
    row: i64,
) -> Result<(), AllocError>
    ensures { IfOk result (λ _. string_bytes text.new ≡ string_bytes text.old
        ++ sheet_title names.now thing.now zoom column row) }
{
    put_place(text, zoom, column, row)?;
    put(text, ", ")?;
    put_plain_name(text, names, thing.holder)?;
    put_also_named(text, names, thing.identity)?;
    put(text, "</title></rect></a>\n")?;
    Ok(())
}

/// Puts a sheet of this package at its place.
fn put_sheet_of(
    text: &mut String,
    register: &Register,
    level: &Level,
    thing: &Thing,
    live: &Live,
    zoom: i64,
    column: i64,
    row: i64,
) -> Result<(), AllocError>
    ensures { IfOk result (λ _. string_bytes text.new ≡ string_bytes text.old
        ++ sheet_of register.now level.now thing.now zoom column row live.now) }
{
    let number = live.number;
    put_link(text, thing.identity)?;
    put_box(text, level, live, number, column, row)?;
    put_title(text, &register.names, thing, zoom, column, row)?;
    Ok(())
}

/// Puts a sheet at its place, if its package lives.
fn put_sheet(
    text: &mut String,
    register: &Register,
    level: &Level,
    thing: &Thing,
    zoom: i64,
    column: i64,
    row: i64,
) -> Result<(), AllocError>
    ensures { IfOk result (λ _. string_bytes text.new ≡ string_bytes text.old
        ++ sheet_text register.now level.now thing.now zoom column row) }
{
    match live_of(&register.packages, thing.holder) {
        Some(live) => put_sheet_of(text, register, level, thing, live, zoom, column, row),
        None => Ok(()),
    }
}

/// Puts a sheet, if it is one of this zoom.
fn put_sheet_at(
    text: &mut String,
    register: &Register,
    level: &Level,
    thing: &Thing,
    zoom: i64,
    column: i64,
    row: i64,
) -> Result<(), AllocError>
    ensures { IfOk result (λ _. string_bytes text.new ≡ string_bytes text.old
        ++ sheet_at register.now level.now thing.now zoom column row) }
{
    if zoom == level.zoom {
        put_sheet(text, register, level, thing, zoom, column, row)
    } else {
        Ok(())
    }
}

/// Puts an item, if it is a sheet of this zoom.
fn put_sheet_if(
    text: &mut String,
    register: &Register,
    level: &Level,
    thing: &Thing,
) -> Result<(), AllocError>
    ensures { IfOk result (λ _. string_bytes text.new ≡ string_bytes text.old
        ++ sheet_if register.now level.now thing.now) }
{
    match &thing.about {
        About::Sheet { zoom, column, row } => {
            put_sheet_at(text, register, level, thing, *zoom, *column, *row)
        }
        About::Medium { .. } | About::Mark { .. } => Ok(()),
    }
}

/// Puts the sheets of a zoom.
fn put_sheets(
    text: &mut String,
    register: &Register,
    level: &Level,
    things: &[Thing],
) -> Result<(), AllocError>
    ensures { IfOk result (λ _. string_bytes text.new ≡ string_bytes text.old
        ++ flat_map (sheet_if register.now level.now) things.now) }
{
    for thing in things {
        put_sheet_if(text, register, level, thing)?;
    }
    Ok(())
}

/// Puts the pattern of a holder at the size that a zoom has it.
fn put_pattern_link(text: &mut String, level: &Level, number: usize) -> Result<(), AllocError>
    ensures { IfOk result (λ _. string_bytes text.new ≡ string_bytes text.old ++ pattern_link level.now number) }
{
    put(text, "<pattern id=\"v")?;
    put_count(text, level.index)?;
    put(text, "-")?;
    put_count(text, number as u64)?;
    put(text, "\" href=\"#w")?;
    put_count(text, number as u64)?;
    put(text, "\" patternTransform=\"scale(")?;
    put_count(text, scale_of(&level.layout))?;
    put(text, ")\"/>\n")?;
    Ok(())
}

/// Puts those of all holders.
///
/// # Errors
///
/// Want of memory.
pub fn put_pattern_links(
    text: &mut String,
    level: &Level,
    packages: &[Live],
) -> Result<(), AllocError>
    ensures { IfOk result
        (λ _. string_bytes text.new ≡ string_bytes text.old
        ++ flat_map (λ p. pattern_link level.now p.number) packages.now) }
{
    for live in packages {
        put_pattern_link(text, level, live.number)?;
    }
    Ok(())
}

/// Puts the two sides of a map, with this between them.
///
/// # Errors
///
/// Want of memory.
pub fn put_sides(
    text: &mut String,
    layout: &Layout,
    by: u64,
    between: &str,
) -> Result<(), AllocError>
    ensures { IfOk result (λ _. string_bytes text.new ≡ string_bytes text.old
        ++ sides_text layout.now by between.now) }
{
    put_count(text, times(by, times(layout.columns, layout.width)))?;
    put(text, between)?;
    put_count(text, times(by, times(layout.rows, layout.height)))?;
    Ok(())
}

/// Puts a zoom.
fn put_level(text: &mut String, register: &Register, level: &Level) -> Result<(), AllocError>
    ensures { IfOk result (λ _. string_bytes text.new ≡ string_bytes text.old ++ level_text register.now level.now) }
{
    put(text, "<svg class=\"l l")?;
    put_count(text, level.index)?;
    put(text, "\" viewBox=\"0 0 ")?;
    put_sides(text, &level.layout, 100, " ")?;
    put(text, "\" preserveAspectRatio=\"none\">\n<defs>\n")?;
    put_pattern_links(text, level, &register.packages)?;
    put(text, "</defs>\n")?;
    put_sheets(text, register, level, register.things.as_slice())?;
    put(text, "</svg>\n")?;
    Ok(())
}

/// Puts the zoom with so many coarser ones, if the frame has it.
fn put_level_if(
    text: &mut String,
    register: &Register,
    total: u64,
    index: u64,
) -> Result<(), AllocError>
    requires { IsTrue (is_good_frame register.now.frame) }
    ensures { IfOk result (λ _. string_bytes text.new ≡ string_bytes text.old ++ level_if register.now total index) }
{
    match level_at(&register.frame, total, index) {
        Some(level) => put_level(text, register, &level),
        None => Ok(()),
    }
}

/// Puts all zooms that are drawn.
fn put_levels(text: &mut String, register: &Register, total: u64) -> Result<(), AllocError>
    requires { IsTrue (is_good_frame register.now.frame) }
    ensures { IfOk result (λ _. string_bytes text.new ≡ string_bytes text.old
        ++ levels_text register.now total total) }
{
    for index in 0..total {
        put_level_if(text, register, total, index)?;
    }
    Ok(())
}

/// Puts where on a map something stands, in ten-thousandths of its sides.
fn put_style(text: &mut String, left: u64, top: u64) -> Result<(), AllocError>
    ensures { IfOk result (λ _. string_bytes text.new ≡ string_bytes text.old ++ style_text left top) }
{
    put(text, " style=\"left:calc(.01%*")?;
    put_count(text, left)?;
    put(text, ");top:calc(.01%*")?;
    put_count(text, top)?;
    put(text, ")\"")?;
    Ok(())
}

/// Where the name of a sheet stands from the left.
pub fn column_share(layout: &Layout, column: i64) -> u64
    ensures { result ≡ share (unsigned_abs column) layout.now.columns }
{
    share(column.unsigned_abs(), layout.columns)
}

/// Where it stands from the top: at the lower side of the sheet.
pub fn row_share(layout: &Layout, row: i64) -> u64
    ensures { result ≡ share (plus (unsigned_abs row) 1) layout.now.rows }
{
    share(plus(row.unsigned_abs(), 1), layout.rows)
}

/// Puts the name of a sheet at its place.
fn put_named(text: &mut String, name: &Name, left: u64, top: u64) -> Result<(), AllocError>
    ensures { IfOk result (λ _. string_bytes text.new ≡ string_bytes text.old ++ named_text name.now left top) }
{
    put(text, "<span class=\"nm\"")?;
    put_style(text, left, top)?;
    put(text, ">")?;
    put_escaped(text, name.name.as_str())?;
    put(text, "</span>\n")?;
    Ok(())
}

/// Puts it, if the sheet has one.
fn put_name_of(
    text: &mut String,
    names: &Names,
    id: Uuid,
    left: u64,
    top: u64,
) -> Result<(), AllocError>
    ensures { IfOk result (λ _. string_bytes text.new ≡ string_bytes text.old ++ names_text names.now id left top) }
{
    match name_of(names, id) {
        Some(name) => put_named(text, name, left, top),
        None => Ok(()),
    }
}

/// Puts it where the sheet stands.
fn put_name_in(
    text: &mut String,
    names: &Names,
    layout: &Layout,
    id: Uuid,
    column: i64,
    row: i64,
) -> Result<(), AllocError>
    ensures { IfOk result (λ _. string_bytes text.new ≡ string_bytes text.old
        ++ name_in names.now layout.now id column row) }
{
    let left = column_share(layout, column);
    let top = row_share(layout, row);
    put_name_of(text, names, id, left, top)?;
    Ok(())
}

/// Puts it, if the sheet is one of this zoom.
fn put_name_at(
    text: &mut String,
    names: &Names,
    level: &Level,
    id: Uuid,
    zoom: i64,
    column: i64,
    row: i64,
) -> Result<(), AllocError>
    ensures { IfOk result (λ _. string_bytes text.new ≡ string_bytes text.old
        ++ name_at names.now level.now id zoom column row) }
{
    if zoom == level.zoom {
        put_name_in(text, names, &level.layout, id, column, row)
    } else {
        Ok(())
    }
}

/// Puts the name of an item, if it is a sheet of this zoom and has one.
fn put_name_if(
    text: &mut String,
    names: &Names,
    level: &Level,
    thing: &Thing,
) -> Result<(), AllocError>
    ensures { IfOk result (λ _. string_bytes text.new ≡ string_bytes text.old
        ++ name_if names.now level.now thing.now) }
{
    match &thing.about {
        About::Sheet { zoom, column, row } => {
            put_name_at(text, names, level, thing.identity, *zoom, *column, *row)
        }
        About::Medium { .. } | About::Mark { .. } => Ok(()),
    }
}

/// Puts the names of the sheets of a zoom.
fn put_names(
    text: &mut String,
    names: &Names,
    level: &Level,
    things: &[Thing],
) -> Result<(), AllocError>
    ensures { IfOk result (λ _. string_bytes text.new ≡ string_bytes text.old
        ++ flat_map (name_if names.now level.now) things.now) }
{
    for thing in things {
        put_name_if(text, names, level, thing)?;
    }
    Ok(())
}

/// Where a point stands from the left of the map.
pub fn x_share(frame: &Frame, x: i64) -> u64
    ensures { result ≡ share (unsigned_abs (x -ℤ frame.now.min_x))
        (unsigned_abs (frame.now.max_x -ℤ frame.now.min_x)) }
{
    share(x.abs_diff(frame.min_x), frame.max_x.abs_diff(frame.min_x))
}

/// Where it stands from the top.
pub fn y_share(frame: &Frame, y: i64) -> u64
    ensures { result ≡ share (unsigned_abs (frame.now.max_y -ℤ y))
        (unsigned_abs (frame.now.max_y -ℤ frame.now.min_y)) }
{
    share(frame.max_y.abs_diff(y), frame.max_y.abs_diff(frame.min_y))
}

/// Puts where a point stands on the map.
fn put_mark_place(text: &mut String, register: &Register, x: i64, y: i64) -> Result<(), AllocError>
    ensures { IfOk result (λ _. string_bytes text.new ≡ string_bytes text.old ++ mark_place register.now.frame x y) }
{
    let left = x_share(&register.frame, x);
    let top = y_share(&register.frame, y);
    put_style(text, left, top)?;
    Ok(())
}

/// Puts a mark of the holder of this number.
fn put_mark(
    text: &mut String,
    register: &Register,
    thing: &Thing,
    number: usize,
    x: i64,
    y: i64,
) -> Result<(), AllocError>
    ensures { IfOk result (λ _. string_bytes text.new ≡ string_bytes text.old
        ++ mark_at register.now thing.now number x y) }
{
    put(text, "<a class=\"mk ")?;
    put_class(text, number)?;
    put(text, "\" href=\"#i-")?;
    put_uuid(text, thing.identity)?;
    put(text, "\" tabindex=\"-1\"")?;
    put_mark_place(text, register, x, y)?;
    Ok(())
}

/// Puts what is read where one points at it, and its shape.
fn put_mark_end(
    text: &mut String,
    register: &Register,
    thing: &Thing,
    number: usize,
    code: i64,
    label: &str,
) -> Result<(), AllocError>
    ensures { IfOk result (λ _. string_bytes text.new ≡ string_bytes text.old
        ++ mark_text register.now thing.now number code label.now) }
{
    put(text, " title=\"mark ")?;
    put_signed(text, code)?;
    put(text, ", ")?;
    put_plain_name(text, &register.names, thing.holder)?;
    put(text, ", ")?;
    put_escaped(text, label)?;
    put(
        text,
        "\"><svg width=\"16\" height=\"16\" viewBox=\"-8 -8 16 16\" aria-hidden=\"true\"><use href=\"#k",
    )?;
    put_count(text, pattern_of(number))?;
    put(text, "\"/></svg></a>\n")?;
    Ok(())
}

/// Puts a mark of the holder of this number, and what is read of it.
fn put_whole_mark(
    text: &mut String,
    register: &Register,
    thing: &Thing,
    number: usize,
    x: i64,
    y: i64,
    code: i64,
    label: &str,
) -> Result<(), AllocError>
    ensures { IfOk result (λ _. string_bytes text.new ≡ string_bytes text.old
        ++ whole_mark register.now thing.now number x y code label.now) }
{
    put_mark(text, register, thing, number, x, y)?;
    put_mark_end(text, register, thing, number, code, label)?;
    Ok(())
}

/// Puts an item of the holder of this number, if it is a mark.
fn put_mark_of(
    text: &mut String,
    register: &Register,
    thing: &Thing,
    number: usize,
) -> Result<(), AllocError>
    ensures { IfOk result (λ _. string_bytes text.new ≡ string_bytes text.old
        ++ mark_of register.now thing.now number thing.now.about) }
{
    match &thing.about {
        About::Mark { x, y, code, label } => put_whole_mark(
            text,
            register,
            thing,
            number,
            *x,
            *y,
            *code,
            label.as_str(),
        ),
        About::Sheet { .. } | About::Medium { .. } => Ok(()),
    }
}

/// Puts an item, if it is a mark of a package that lives.
fn put_mark_if(text: &mut String, register: &Register, thing: &Thing) -> Result<(), AllocError>
    ensures { IfOk result (λ _. string_bytes text.new ≡ string_bytes text.old ++ mark_if register.now thing.now) }
{
    match live_of(&register.packages, thing.holder) {
        Some(live) => put_mark_of(text, register, thing, live.number),
        None => Ok(()),
    }
}

/// Puts all marks.
fn put_marks(text: &mut String, register: &Register, things: &[Thing]) -> Result<(), AllocError>
    ensures { IfOk result (λ _. string_bytes text.new ≡ string_bytes text.old
        ++ flat_map (mark_if register.now) things.now) }
{
    for thing in things {
        put_mark_if(text, register, thing)?;
    }
    Ok(())
}

/// Puts the row of a package below the map.
fn put_legend(text: &mut String, register: &Register, live: &Live) -> Result<(), AllocError>
    ensures { IfOk result (λ _. string_bytes text.new ≡ string_bytes text.old ++ legend_row register.now live.now) }
{
    let number = live.number;
    put(text, "<li>")?;
    put_swatch(text, number)?;
    put(text, "<svg class=\"sw ")?;
    put_class(text, number)?;
    put(
        text,
        "\" width=\"16\" height=\"16\" viewBox=\"-8 -8 16 16\" aria-hidden=\"true\"><use class=\"d\" href=\"#k",
    )?;
    put_count(text, pattern_of(number))?;
    put(text, "\"/></svg><span>")?;
    put_name(text, &register.names, live.uuid)?;
    put(text, "<span>")?;
    put_sums(text, live.sums.tiles, 0, live.sums.rows, 0)?;
    put(text, "</span></span></li>\n")?;
    Ok(())
}

/// Puts those of all packages.
fn put_legends(text: &mut String, register: &Register, packages: &[Live]) -> Result<(), AllocError>
    ensures { IfOk result (λ _. string_bytes text.new ≡ string_bytes text.old
        ++ flat_map (legend_row register.now) packages.now) }
{
    for live in packages {
        put_legend(text, register, live)?;
    }
    Ok(())
}

/// Puts the names of the first zoom.
fn put_first_names(text: &mut String, register: &Register, total: u64) -> Result<(), AllocError>
    requires { IsTrue (is_good_frame register.now.frame) }
    ensures { IfOk result (λ _. string_bytes text.new ≡ string_bytes text.old ++ named_at register.now total) }
{
    match level_at(&register.frame, total, 0) {
        Some(level) => put_names(text, &register.names, &level, register.things.as_slice()),
        None => Ok(()),
    }
}

/// The layout of the finest zoom that is drawn.
pub fn finest_of(frame: &Frame) -> Layout
    requires { IsTrue (is_good_frame frame.now) }
    ensures { result ≡ layout_of frame.now (default_zoom frame.now) }
{
    layout_of(frame, default_zoom(frame))
}

/// Puts the map of all things of a register, with a legend of these packages.
///
/// # Errors
///
/// Want of memory.
pub fn put_map(text: &mut String, register: &Register, packages: &[Live]) -> Result<(), AllocError>
    requires { IsTrue (is_good_frame register.now.frame) }
    ensures { IfOk result (λ _. string_bytes text.new ≡ string_bytes text.old ++ map_of register.now packages.now) }
{
    let total = level_total(&register.frame);
    let finest = finest_of(&register.frame);
    put(text, MAP_HEAD)?;
    put_sides(text, &finest, 1, "/")?;
    put(text, "\">\n")?;
    put_levels(text, register, total)?;
    put_first_names(text, register, total)?;
    put_marks(text, register, register.things.as_slice())?;
    put(text, LEGEND_HEAD)?;
    put_legends(text, register, packages)?;
    put(text, LEGEND_END)?;
    Ok(())
}
