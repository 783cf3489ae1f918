//! The lines of a tree of tiles, and of a loan of what covers a box.
ghost use Rattle.std.specs.Prelude.{◌≡◌, IfOk, string_bytes};
ghost use Rattle.command_lines.specs.Trees.{counts_line};
ghost use Rattle.command_replies.specs.Receipts.{area_text};

use sheet_types::error::OutOfMemory;
use sheet_types::frame::Rect;
use std::alloc::Global;

/// How many tiles were added and passed over, as a line.
///
/// # Errors
///
/// Want of memory.
pub fn counts_line(alloc: Global, added: u64, passed: u64) -> Result<String, OutOfMemory>
    ensures { IfOk result (λ line. string_bytes line ≡ counts_line added passed) }
{
    Ok(format!(in alloc; "added {added}, passed over {passed}\n")?)
}

/// A rectangle as the word for an area: its zoom, the first and the last of its columns, and of its rows.
///
/// # Errors
///
/// Want of memory.
pub fn area_word(alloc: Global, rect: &Rect) -> Result<String, OutOfMemory>
    ensures { IfOk result (λ word. string_bytes word ≡ area_text rect.now) }
{
    let Rect {
        zoom,
        column,
        last_column,
        row,
        last_row,
    } = *rect;
    Ok(format!(in alloc; "{zoom}/{column}-{last_column}/{row}-{last_row}")?)
}
