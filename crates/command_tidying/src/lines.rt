//! The lines of files that were taken out.
ghost use Rattle.std.specs.Prelude.{◌≡◌, ◌++◌, IfOk, string_bytes};
ghost use Rattle.command_tidying.specs.Lines.{removed_line, removed_lines};

use std::alloc::{AllocError, Global};

/// Puts the line of a file of this name.
fn put_line(text: &mut String, name: &str) -> Result<(), AllocError>
    ensures { IfOk result (λ _. string_bytes text.new ≡ string_bytes text.old ++ removed_line name.now) }
{
    text.push_str("removed ")?;
    text.push_str(name)?;
    text.push_str("\n")?;
    Ok(())
}

/// A line for each file that was taken out, by its name, in their order.
///
/// # Errors
///
/// Want of memory.
pub fn removed_lines(alloc: Global, names: &[String]) -> Result<String, AllocError>
    ensures { IfOk result (λ text. string_bytes text ≡ removed_lines names.now) }
{
    let mut text = String::new(alloc);
    for name in names {
        put_line(&mut text, name.as_str())?;
    }
    Ok(text)
}
