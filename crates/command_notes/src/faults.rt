//! Where the fault of a list is.
ghost use Rattle.std.specs.Prelude.{◌↔◌, IfOk, IfSome, IfNone, IsTrue, string_bytes};
ghost use Rattle.command_notes.specs.Notes.{Agrees, HasNoNote, IsListNote};

use command_faults::texts::cause_text;
use request_csv::causes::{ListFault, cause_of, read_fault};
use request_csv::lists::ReadFault;
use sheet_types::error::OutOfMemory;
use std::alloc::Global;
use std::fs;

/// Whether this cause is that of the fault that was told, where one was.
fn agrees(cause: ListFault, told: Option<ReadFault>) -> bool
    ensures { IsTrue result ↔ Agrees cause told }
{
    match told {
        Some(fault) => read_fault(cause) == fault,
        None => true,
    }
}

/// The line that says where the fault of a list is. The text is read anew, after the fact: there is
/// no line where it is a list by now, or has another fault than was told.
///
/// # Errors
///
/// Want of memory.
pub fn list_note(
    alloc: Global,
    text: &[u8],
    told: Option<ReadFault>,
) -> Result<Option<String>, OutOfMemory>
    ensures some { IfOk result (λ found. IfSome found (λ note. IsListNote text.now told (string_bytes note))) }
    ensures none { IfOk result (λ found. IfNone found (HasNoNote text.now told)) }
{
    let Some(cause) = cause_of(alloc, text)? else {
        return Ok(None);
    };
    if !agrees(cause, told) {
        return Ok(None);
    }
    let note = cause_text(alloc, cause)?;
    Ok(Some(note))
}

/// Whether a file can be read twice: of a pipe no byte comes again.
pub fn is_read_twice(rt: &HostRuntime, path: &str) -> bool {
    match fs::metadata(rt, path) {
        Ok(found) => found.is_file(),
        Err(_) => false,
    }
}

/// The bytes of a file that can be read again: of a pipe there are none.
pub fn bytes_again(rt: &HostRuntime, path: &str) -> Option<Vec<u8>> {
    if is_read_twice(rt, path) {
        fs::read(rt, path).ok()
    } else {
        None
    }
}
