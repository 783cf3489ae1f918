//! The marks.
ghost use Rattle.std.specs.Prelude.{◌≡◌, ◌++◌, IfOk, flat_map, string_bytes};
ghost use Rattle.view_drawing.specs.Marks.{mark_begin, mark_end, mark_if, mark_of, mark_place, mark_text};

use crate::names::put_place;
use sheet_types::frame::Frame;
use std::alloc::AllocError;
use view_report::drawing::{x_share, y_share};
use view_report::escaping::put_escaped;
use view_report::pieces::{pattern_of, put, put_class, put_count, put_plain_name, put_signed};
use view_report::registers::{About, Register, Thing, live_of};

/// Puts where a point stands on the map.
fn put_mark_place(text: &mut String, frame: &Frame, x: i64, y: i64) -> Result<(), AllocError>
    ensures { IfOk result
        (λ _. string_bytes text.new ≡ string_bytes text.old ++ mark_place frame.now x y) }
{
    let left = x_share(frame, x);
    let top = y_share(frame, y);
    put_place(text, left, top)?;
    Ok(())
}

/// Puts the shape of a mark of the holder of this number at its place.
fn put_begin(
    text: &mut String,
    frame: &Frame,
    number: usize,
    x: i64,
    y: i64,
) -> Result<(), AllocError>
    ensures { IfOk result
        (λ _. string_bytes text.new ≡ string_bytes text.old ++ mark_begin frame.now number x y) }
{
    put(text, "<use class=\"")?;
    put_class(text, number)?;
    put(text, "\"")?;
    put_mark_place(text, frame, x, y)?;
    put(text, " href=\"#k")?;
    put_count(text, pattern_of(number))?;
    put(text, "\"><title>mark ")?;
    Ok(())
}

/// Puts what is read where one points at it.
fn put_end(
    text: &mut String,
    register: &Register,
    thing: &Thing,
    code: i64,
    label: &str,
) -> Result<(), AllocError>
    ensures { IfOk result
        (λ _. string_bytes text.new ≡ string_bytes text.old
        ++ mark_end register.now thing.now code label.now) }
{
    put_signed(text, code)?;
    put(text, ", ")?;
    put_plain_name(text, &register.names, thing.holder)?;
    put(text, ", ")?;
    put_escaped(text, label)?;
    put(text, "</title></use>\n")?;
    Ok(())
}

/// Puts a mark of the holder of this number.
fn put_mark(
    text: &mut String,
    register: &Register,
    thing: &Thing,
    number: usize,
    x: i64,
    y: i64,
    code: i64,
    label: &str,
) -> Result<(), AllocError>
    ensures { IfOk result
        (λ _. string_bytes text.new ≡ string_bytes text.old
        ++ mark_text register.now thing.now number x y code label.now) }
{
    put_begin(text, &register.frame, number, x, y)?;
    put_end(text, register, thing, code, label)?;
    Ok(())
}

/// Puts an item of the holder of this number, if it is a mark.
fn put_mark_of(
    text: &mut String,
    register: &Register,
    thing: &Thing,
    number: usize,
) -> Result<(), AllocError>
    ensures { IfOk result
        (λ _. string_bytes text.new ≡ string_bytes text.old
        ++ mark_of register.now thing.now number thing.now.about) }
{
    match &thing.about {
        About::Mark { x, y, code, label } => put_mark(
            text,
            register,
            thing,
            number,
            *x,
            *y,
            *code,
            label.as_str(),
        ),
        About::Sheet { .. } | About::Medium { .. } => Ok(()),
    }
}

/// Puts an item, if it is a mark of a package that lives.
fn put_mark_if(text: &mut String, register: &Register, thing: &Thing) -> Result<(), AllocError>
    ensures { IfOk result
        (λ _. string_bytes text.new ≡ string_bytes text.old ++ mark_if register.now thing.now) }
{
    match live_of(&register.packages, thing.holder) {
        Some(live) => put_mark_of(text, register, thing, live.number),
        None => Ok(()),
    }
}

/// Puts all marks.
pub(crate) fn put_marks(
    text: &mut String,
    register: &Register,
    things: &[Thing],
) -> Result<(), AllocError>
    ensures { IfOk result
        (λ _. string_bytes text.new ≡ string_bytes text.old
        ++ flat_map (mark_if register.now) things.now) }
{
    for thing in things {
        put_mark_if(text, register, thing)?;
    }
    Ok(())
}
