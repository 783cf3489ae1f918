//! A JSON array (RFC 8259) over many lines, an object a line.
ghost use Rattle.std.specs.Prelude.{◌≡◌, ◌++◌, ◌∷◌, [], IfOk, List, string_bytes};
ghost use Rattle.serde_json.specs.Data.{Data};
ghost use Rattle.serde_json.specs.View.{view};
ghost use Rattle.serde_json.specs.Written.{comma_if, compact_text};
ghost use Rattle.view_json.specs.Arrays.{IsOpen, Puts, PutsLine, array_text, end_data, text_or_null};

use serde_json::Value;
use sheet_types::collections::Text;
use std::alloc::{AllocError, Global};
use uuid::Uuid;

/// An array that is not closed.
#[derive(Drop)]
pub(crate) struct Lines {
    /// What is written of it.
    text: String,
    /// Whether an object stands there.
    is_later: bool,
}

/// Opens an array.
pub(crate) fn open_array(alloc: Global) -> Result<Lines, AllocError>
    ensures { IfOk result (λ lines. IsOpen [] lines) }
{
    let text = String::from_str(alloc, "[")?;
    Ok(Lines {
        text,
        is_later: false,
    })
}

/// What stands between the object before and the next one.
fn between(is_later: bool) -> &'static str
    ensures { result.now ≡ comma_if is_later ++ (10 ∷ []) }
{
    if is_later { ",\n" } else { "\n" }
}

/// Puts a line behind the others.
fn put_line(lines: &mut Lines, object: &str) -> Result<(), AllocError>
    ensures { IfOk result (λ _. PutsLine object.now lines.old lines.new) }
{
    lines.text.push_str(between(lines.is_later))?;
    lines.text.push_str(object)?;
    lines.is_later = true;
    Ok(())
}

/// Puts an object behind the others.
pub(crate) fn put_object(lines: &mut Lines, object: &str) -> Result<(), AllocError>
    ensures { IfOk result (λ _.
        (d : Data) → object.now ≡ compact_text d → Puts (d ∷ []) lines.old lines.new) }
{
    put_line(lines, object)?;
    Ok(())
}

/// Closes an array.
pub(crate) fn close_array(lines: Lines) -> Result<String, AllocError>
    ensures { IfOk result (λ text.
        (ds : List Data) → IsOpen ds lines → string_bytes text ≡ array_text ds) }
{
    let mut text = lines.text;
    text.push_str("\n]\n")?;
    Ok(text)
}

/// A package that may be absent.
pub(crate) fn end_value(alloc: Global, end: Option<Uuid>) -> Result<Value, AllocError>
    ensures { IfOk result (λ value. view value ≡ end_data end) }
{
    match end {
        Some(id) => {
            let mut letters = Uuid::encode_buffer();
            Value::try_from_str(alloc, id.hyphenated().encode_lower(&mut letters))
        }
        None => Ok(Value::Null),
    }
}

/// A text that may be absent.
pub(crate) fn text_value(alloc: Global, text: &Option<Text>) -> Result<Value, AllocError>
    ensures { IfOk result (λ value. view value ≡ text_or_null text.now) }
{
    match text {
        Some(text) => Value::try_from_str(alloc, text.as_str()),
        None => Ok(Value::Null),
    }
}
