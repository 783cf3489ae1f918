//! The lines under which commands are entered.
ghost use Rattle.std.specs.Prelude.{◌≡◌, ℕ, List, IfOk, Some, string_bytes};
ghost use Rattle.sheet_types.specs.Reading.{rect_text};
ghost use Rattle.sheet_types.specs.Texts.{Adds, entry_line, line};

use crate::command::Command;
use crate::error::OutOfMemory;
use crate::fingerprints::Spelled;
use crate::frame::Rect;
use crate::receipt::Moved;
use std::alloc::{AllocError, Global};
use std::fmt;
use uuid::Uuid;

/// The line of a command: its parts with single spaces between them, and no end of line.
///
/// An added item is told by its kind, size and fingerprint alone, so two commands may have one line.
///
/// # Errors
///
/// Want of memory.
pub fn line(alloc: Global, command: &Command) -> Result<String, OutOfMemory>
    ensures { IfOk result (λ text. string_bytes text ≡ line command.now) }
{
    Ok(write_line(alloc, command)?)
}

/// The line of an addition to a package, by what it says of the item: its base, kind, size and
/// fingerprint. A content that has been counted and hashed need not be again.
///
/// # Errors
///
/// Want of memory.
pub fn add_line(alloc: Global, package: Uuid, item: &Moved) -> Result<String, OutOfMemory>
    ensures { IfOk result (λ text. (digest : List ℕ) → item.now.fingerprint ≡ Some digest
        → string_bytes text ≡ entry_line (Adds «package» item.now.base item.now.kind item.now.size digest)) }
{
    Ok(write_add_line(alloc, package, item)?)
}

fn write_add_line(alloc: Global, package: Uuid, item: &Moved) -> Result<String, AllocError>
    ensures { IfOk result (λ text. (digest : List ℕ) → item.now.fingerprint ≡ Some digest
        → string_bytes text ≡ entry_line (Adds «package» item.now.base item.now.kind item.now.size digest)) }
{
    let Moved {
        kind,
        base,
        size,
        ..
    } = *item;
    let digits = Spelled(item.fingerprint.unwrap_or([0; 32]));
    format!(in alloc; "add {package} {base} {kind} {size} {digits}")
}

fn write_line(alloc: Global, command: &Command) -> Result<String, AllocError>
    ensures { IfOk result (λ text. string_bytes text ≡ line command.now) }
{
    match command {
        Command::Add {
            package,
            identity,
            content,
        } => write_add_line(alloc, *package, &Moved::of_content(*identity, content)),
        Command::Delete { package, identity } => format!(in alloc; "delete {package} {identity}"),
        Command::Link {
            package,
            mapping,
            base,
            other,
        } => format!(in alloc; "link {mapping} {package} {base} {other}"),
        Command::Unlink {
            package,
            mapping,
            base,
            other,
        } => format!(in alloc; "unlink {mapping} {package} {base} {other}"),
        Command::Split {
            package,
            child,
            mode,
            rect,
        } => format!(in alloc; "split {package} {child} {mode} {rect}"),
        Command::Merge {
            child,
            into,
            ticket,
        } => format!(in alloc; "merge {child} {into} {ticket}"),
    }
}

impl fmt::Display for Rect {
    ghost output = { λ rect. Some (rect_text rect) };

    fn fmt<W: fmt::Write>(&self, f: &mut fmt::Formatter<W>) -> fmt::Result {
        let Rect {
            zoom,
            column,
            last_column,
            row,
            last_row,
        } = *self;
        write!(f, "{zoom} {column} {last_column} {row} {last_row}")
    }
}
