//! The legend: a row for each live package.
ghost use Rattle.std.specs.Prelude.{◌≡◌, ◌++◌, IfOk, flat_map, string_bytes};
ghost use Rattle.view_drawing.specs.Legends.{amounts_text, holder_row, rank_of, row_begin, row_end};

use std::alloc::AllocError;
use view_report::levels::times;
use view_report::pieces::{pattern_of, put, put_class, put_count, put_plain_name, word_of};
use view_report::registers::{Live, Register};

/// How many live packages were lent before this receipt: the place of a row among the others.
fn rank_of(packages: &[Live], loan: u64) -> usize
    ensures { result ≡ rank_of packages.now loan }
{
    packages
        .iter()
        .filter(|package| package.loan < loan)
        .count()
}

/// Puts the colour, pattern and shape of the holder of this number, below so many other rows.
fn put_begin(text: &mut String, rank: usize, number: usize) -> Result<(), AllocError>
    ensures { IfOk result
        (λ _. string_bytes text.new ≡ string_bytes text.old ++ row_begin rank number) }
{
    put(text, "<g transform=\"translate(0 ")?;
    put_count(text, times(26, rank as u64))?;
    put(text, ")\"><rect class=\"")?;
    put_class(text, number)?;
    put(text, "\" width=\"28\" height=\"14\" fill=\"url(#w")?;
    put_count(text, number as u64)?;
    put(text, ")\"/><use class=\"")?;
    put_class(text, number)?;
    put(text, "\" x=\"44\" y=\"7\" href=\"#k")?;
    put_count(text, pattern_of(number))?;
    put(text, "\"/><text x=\"60\" y=\"12\">")?;
    Ok(())
}

/// Puts how many sheets and marks a package holds.
fn put_amounts(text: &mut String, sheets: u64, marks: u64) -> Result<(), AllocError>
    ensures { IfOk result
        (λ _. string_bytes text.new ≡ string_bytes text.old ++ amounts_text sheets marks) }
{
    put(text, ": ")?;
    put_count(text, sheets)?;
    put(text, word_of(sheets, " sheet, ", " sheets, "))?;
    put_count(text, marks)?;
    put(text, word_of(marks, " mark", " marks"))?;
    Ok(())
}

/// Puts who holds it, and how much.
fn put_end(text: &mut String, register: &Register, live: &Live) -> Result<(), AllocError>
    ensures { IfOk result
        (λ _. string_bytes text.new ≡ string_bytes text.old ++ row_end register.now live.now) }
{
    put_plain_name(text, &register.names, live.uuid)?;
    put_amounts(text, live.sums.tiles, live.sums.rows)?;
    put(text, "</text></g>\n")?;
    Ok(())
}

/// Puts the row of a package.
fn put_row(text: &mut String, register: &Register, live: &Live) -> Result<(), AllocError>
    ensures { IfOk result
        (λ _. string_bytes text.new ≡ string_bytes text.old ++ holder_row register.now live.now) }
{
    put_begin(text, rank_of(&register.packages, live.loan), live.number)?;
    put_end(text, register, live)?;
    Ok(())
}

/// Puts those of packages.
pub(crate) fn put_rows(
    text: &mut String,
    register: &Register,
    packages: &[Live],
) -> Result<(), AllocError>
    ensures { IfOk result
        (λ _. string_bytes text.new ≡ string_bytes text.old
        ++ flat_map (holder_row register.now) packages.now) }
{
    for live in packages {
        put_row(text, register, live)?;
    }
    Ok(())
}
