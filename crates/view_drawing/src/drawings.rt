//! A whole drawing.
ghost use Rattle.std.specs.Prelude.{◌≡◌, ◌++◌, IfOk, IsTrue, length, string_bytes};
ghost use Rattle.sheet_types.specs.Matrix.{is_good_frame};
ghost use Rattle.view_drawing.specs.Drawings.{
  defs_text,
  drawing_text,
  head_text,
  legend_text,
  map_height,
  map_text,
  whole_height,
};

use crate::legends::put_rows;
use crate::marks::put_marks;
use crate::names::put_first_names;
use crate::sheets::put_levels;
use crate::style::STYLE;
use crate::words::{GROUND, HEAD, MAP_HEAD};
use sheet_types::error::OutOfMemory;
use std::alloc::{AllocError, Global};
use view_map::layout::Layout;
use view_report::drawing::finest_of;
use view_report::levels::{level_total, plus, share, times};
use view_report::patterns::put_patterns;
use view_report::pieces::{put, put_count, put_plain_name};
use view_report::registers::Register;
use view_report::words::SHAPES;

/// How high the map is, 480 units wide.
fn map_height(layout: &Layout) -> u64
    ensures { result ≡ map_height layout.now }
{
    let part = share(
        times(layout.rows, layout.height),
        times(layout.columns, layout.width),
    );
    times(480, part) / 10000
}

/// How high the whole is, with a legend of so many rows.
fn whole_height(height: u64, rows: u64) -> u64
    ensures { result ≡ whole_height height rows }
{
    plus(plus(height, 48), times(26, rows))
}

/// How many packages live.
fn package_count(register: &Register) -> u64
    ensures { result ≡ length register.now.packages.items }
{
    register.packages.len() as u64
}

/// How many receipts there are.
fn receipt_count(register: &Register) -> u64
    ensures { result ≡ length register.now.receipts.items }
{
    register.receipts.len() as u64
}

/// Puts the beginning: how large it is, and its title.
fn put_head(text: &mut String, register: &Register, whole: u64) -> Result<(), AllocError>
    ensures { IfOk result
        (λ _. string_bytes text.new ≡ string_bytes text.old ++ head_text register.now whole) }
{
    put(text, HEAD)?;
    put_count(text, whole)?;
    put(text, "\" width=\"512\" height=\"")?;
    put_count(text, whole)?;
    put(text, "\">\n<title>")?;
    put_plain_name(text, &register.names, register.archive)?;
    put(text, ", as of receipt ")?;
    put_count(text, receipt_count(register))?;
    Ok(())
}

/// Puts the style, the patterns and the shapes.
fn put_defs(text: &mut String, register: &Register) -> Result<(), AllocError>
    ensures { IfOk result
        (λ _. string_bytes text.new ≡ string_bytes text.old ++ defs_text register.now) }
{
    put(text, STYLE)?;
    put_patterns(text, &register.packages)?;
    put(text, SHAPES)?;
    Ok(())
}

/// Puts the map, so high.
fn put_map(
    text: &mut String,
    register: &Register,
    total: u64,
    height: u64,
) -> Result<(), AllocError>
    requires { IsTrue (is_good_frame register.now.frame) }
    ensures { IfOk result
        (λ _. string_bytes text.new ≡ string_bytes text.old ++ map_text register.now total height) }
{
    put(text, MAP_HEAD)?;
    put_count(text, height)?;
    put(text, GROUND)?;
    put_levels(text, register, total)?;
    put_first_names(text, register, total)?;
    put_marks(text, register, register.things.as_slice())?;
    put(text, "</svg>\n")?;
    Ok(())
}

/// Puts the legend below a map that is so high.
fn put_legend(text: &mut String, register: &Register, height: u64) -> Result<(), AllocError>
    ensures { IfOk result
        (λ _. string_bytes text.new ≡ string_bytes text.old ++ legend_text register.now height) }
{
    put(text, "<g transform=\"translate(16 ")?;
    put_count(text, plus(height, 32))?;
    put(text, ")\">\n")?;
    put_rows(text, register, &register.packages)?;
    put(text, "</g>\n</svg>\n")?;
    Ok(())
}

/// Puts a whole drawing.
fn put_drawing(text: &mut String, register: &Register) -> Result<(), AllocError>
    requires { IsTrue (is_good_frame register.now.frame) }
    ensures { IfOk result
        (λ _. string_bytes text.new ≡ string_bytes text.old ++ drawing_text register.now) }
{
    let total = level_total(&register.frame);
    let height = map_height(&finest_of(&register.frame));
    put_head(
        text,
        register,
        whole_height(height, package_count(register)),
    )?;
    put_defs(text, register)?;
    put_map(text, register, total, height)?;
    put_legend(text, register, height)?;
    Ok(())
}

/// The map of a register: one file of SVG that needs nothing else.
///
/// # Errors
///
/// Want of memory.
pub fn drawing_text(alloc: Global, register: &Register) -> Result<String, OutOfMemory>
    requires { IsTrue (is_good_frame register.now.frame) }
    ensures { IfOk result (λ text. string_bytes text ≡ drawing_text register.now) }
{
    let mut text = String::new(alloc);
    put_drawing(&mut text, register)?;
    Ok(text)
}
