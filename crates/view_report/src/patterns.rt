//! The patterns of holders, which a map and its legend show (SVG 1.1).
ghost use Rattle.std.specs.Prelude.{◌≡◌, ◌++◌, IfOk, flat_map, string_bytes};
ghost use Rattle.view_report.specs.Patterns.{lines_of, pattern_row};

use crate::pieces::{pattern_of, put, put_class, put_count};
use crate::registers::Live;
use std::alloc::AllocError;

/// The lines of a pattern, on a square of 8 units; the archive's has none.
fn lines_of(pattern: u64) -> &'static str
    ensures { result.now ≡ lines_of pattern }
{
    match pattern {
        0 => "",
        1 => "<path class=\"s\" d=\"M-2 2L2 -2M0 8L8 0M6 10L10 6\"/>",
        2 => "<path class=\"d\" d=\"M1 1h2v2h-2zM5 5h2v2h-2z\"/>",
        3 => "<path class=\"s\" d=\"M0 2h8M0 6h8\"/>",
        4 => "<path class=\"s\" d=\"M0 4h8M4 0v8\"/>",
        5 => "<path class=\"s\" d=\"M-2 6L2 10M0 0L8 8M6 -2L10 2\"/>",
        6 => "<path class=\"s\" d=\"M2 0v8M6 0v8\"/>",
        _ => "<path class=\"s\" d=\"M0 6L4 2L8 6\"/>",
    }
}

/// Puts the pattern of the holder of this number.
fn put_pattern(text: &mut String, number: usize) -> Result<(), AllocError>
    ensures { IfOk result (λ _. string_bytes text.new ≡ string_bytes text.old ++ pattern_row number) }
{
    put(text, "<pattern id=\"w")?;
    put_count(text, number as u64)?;
    put(text, "\" class=\"")?;
    put_class(text, number)?;
    put(
        text,
        "\" width=\"8\" height=\"8\" patternUnits=\"userSpaceOnUse\"><path class=\"f\" d=\"M0 0h8v8H0z\"/>",
    )?;
    put(text, lines_of(pattern_of(number)))?;
    put(text, "</pattern>\n")?;
    Ok(())
}

/// Puts the patterns of these packages.
///
/// # Errors
///
/// Want of memory.
pub fn put_patterns(text: &mut String, packages: &[Live]) -> Result<(), AllocError>
    ensures { IfOk result
        (λ _. string_bytes text.new ≡ string_bytes text.old
        ++ flat_map (λ p. pattern_row p.number) packages.now) }
{
    for live in packages {
        put_pattern(text, live.number)?;
    }
    Ok(())
}
