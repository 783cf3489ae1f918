//! Names and texts of SQL between marks, each mark in them twice.
ghost use Rattle.std.specs.Prelude.{◌≡◌, ◌<◌, ◌++◌, ◌∷◌, [], IfOk, OnOk, string_bytes};
ghost use Rattle.field_sql.specs.Naming.{doubled, identifier, literal};

use std::alloc::{AllocError, Global};

/// Puts a text behind another, each mark in it twice.
fn put_doubled(text: &mut String, name: &str, mark: char, pair: &str) -> Result<(), AllocError>
    requires low { mark < 128 }
    requires pair { pair.now ≡ mark ∷ mark ∷ [] }
    ensures { OnOk result (string_bytes text.new ≡ string_bytes text.old ++ doubled mark name.now) }
{
    let mut rest = name;
    'parts: while let Some((part, more)) = rest.split_once(mark) {
        text.push_str(part)?;
        text.push_str(pair)?;
        rest = more;
    }
    text.push_str(rest)?;
    Ok(())
}

/// The name of a table or a column, between quotation marks.
///
/// # Errors
///
/// Want of memory.
pub fn identifier(alloc: Global, name: &str) -> Result<String, AllocError>
    ensures { IfOk result (λ text. string_bytes text ≡ identifier name.now) }
{
    let mut text = String::from_str(alloc, "\"")?;
    put_doubled(&mut text, name, '"', "\"\"")?;
    text.push_str("\"")?;
    Ok(text)
}

/// A text, between apostrophes.
///
/// # Errors
///
/// Want of memory.
pub fn literal(alloc: Global, text: &str) -> Result<String, AllocError>
    ensures { IfOk result (λ made. string_bytes made ≡ literal text.now) }
{
    let mut made = String::from_str(alloc, "'")?;
    put_doubled(&mut made, text, '\'', "''")?;
    made.push_str("'")?;
    Ok(made)
}
