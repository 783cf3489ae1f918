//! Texts in columns of fixed widths.
ghost use Rattle.std.specs.Prelude.{◌≡◌, ◌++◌, IfOk, decimal, string_bytes};
ghost use Rattle.sheet_types.specs.Texts.{uuid_text};
ghost use Rattle.view_text.specs.Columns.{at_left, at_right, end_text, gap, spaces};

use itoa::Buffer;
use std::alloc::AllocError;
use uuid::Uuid;

const GAP: &str = "  ";

/// Puts so many spaces behind a text.
fn put_spaces(line: &mut String, count: usize) -> Result<(), AllocError>
    ensures { IfOk result (λ _. string_bytes line.new ≡ string_bytes line.old ++ spaces count) }
{
    for _ in 0..count {
        line.push_str(" ")?;
    }
    Ok(())
}

/// Puts a text behind another.
pub(crate) fn put(line: &mut String, text: &str) -> Result<(), AllocError>
    ensures { IfOk result (λ _. string_bytes line.new ≡ string_bytes line.old ++ text.now) }
{
    line.push_str(text)?;
    Ok(())
}

/// Puts a text at the left of a column of this width, and the gap behind it.
pub(crate) fn put_left(line: &mut String, width: usize, text: &str) -> Result<(), AllocError>
    ensures { IfOk result (λ _. string_bytes line.new ≡ string_bytes line.old ++ at_left width text.now) }
{
    put(line, text)?;
    put_spaces(line, width.saturating_sub(text.len()))?;
    put(line, GAP)?;
    Ok(())
}

/// The same at the right.
pub(crate) fn put_right(line: &mut String, width: usize, text: &str) -> Result<(), AllocError>
    ensures { IfOk result (λ _. string_bytes line.new ≡ string_bytes line.old ++ at_right width text.now) }
{
    put_spaces(line, width.saturating_sub(text.len()))?;
    put(line, text)?;
    put(line, GAP)?;
    Ok(())
}

/// Puts a number at the right of a column.
pub(crate) fn put_number(line: &mut String, width: usize, number: u64) -> Result<(), AllocError>
    ensures { IfOk result (λ _. string_bytes line.new ≡ string_bytes line.old ++ at_right width (decimal number)) }
{
    let mut digits = Buffer::new();
    put_right(line, width, digits.format(number))
}

/// Puts a number behind a text.
pub(crate) fn put_digits(line: &mut String, number: u64) -> Result<(), AllocError>
    ensures { IfOk result (λ _. string_bytes line.new ≡ string_bytes line.old ++ decimal number) }
{
    let mut digits = Buffer::new();
    put(line, digits.format(number))
}

/// Puts a UUID in a column of its own width.
pub(crate) fn put_uuid(line: &mut String, id: Uuid) -> Result<(), AllocError>
    ensures { IfOk result (λ _. string_bytes line.new ≡ string_bytes line.old ++ at_left 36 (uuid_text id)) }
{
    let mut letters = Uuid::encode_buffer();
    put_left(line, 36, id.hyphenated().encode_lower(&mut letters))
}

/// The same of a package that may be none.
pub(crate) fn put_end(line: &mut String, end: Option<Uuid>) -> Result<(), AllocError>
    ensures { IfOk result (λ _. string_bytes line.new ≡ string_bytes line.old ++ at_left 36 (end_text end)) }
{
    match end {
        Some(id) => put_uuid(line, id),
        None => put_left(line, 36, "-"),
    }
}

/// Puts the text of a package that may be none, and no column.
pub(crate) fn put_last_end(line: &mut String, end: Option<Uuid>) -> Result<(), AllocError>
    ensures { IfOk result (λ _. string_bytes line.new ≡ string_bytes line.old ++ end_text end) }
{
    match end {
        Some(id) => {
            let mut letters = Uuid::encode_buffer();
            put(line, id.hyphenated().encode_lower(&mut letters))
        }
        None => put(line, "-"),
    }
}
