//! Standard output and standard error: texts, and how a command ended.
use command_folder::endings::{Ending, FAILED, NO_MEMORY, error_of, note_of, output_of, status_of};
use std::alloc::AllocError;
use std::io::{self, ErrorKind};

/// Prints a text on standard error. Where that fails too, the status alone says how the program ended.
pub fn print_error(rt: &HostRuntime, text: &str) {
    let _printed = eprint!(rt; "{text}");
}

/// Says on standard error what is known of an ending beside its lines: where a fault is, or what was refused.
fn print_note(rt: &HostRuntime, note: Result<String, AllocError>) {
    match note {
        Ok(text) if !text.is_empty() => {
            let _printed = eprintln!(rt; "{text}");
        }
        Ok(_) | Err(_) => {}
    }
}

/// Prints a text on standard output, and answers whether it went out.
pub fn is_printed(rt: &HostRuntime, text: &str) -> bool {
    print!(rt; "{text}").is_ok()
}

/// Prints a text that no folder has a part in, and answers the exit status.
pub fn print_text(rt: &HostRuntime, text: &str) -> u8 {
    if is_printed(rt, text) {
        0
    } else {
        output_failed(rt)
    }
}

/// Says that standard output failed, and answers the exit status.
pub fn output_failed(rt: &HostRuntime) -> u8 {
    print_error(rt, error_of(FAILED));
    status_of(FAILED)
}

/// Prints the two lines of an ending and what is known beside them, and answers its status. Where
/// standard output fails, that is the ending.
pub fn tell_lines(
    rt: &HostRuntime,
    output: &str,
    error: &str,
    note: Result<String, AllocError>,
    status: u8,
) -> u8 {
    if !is_printed(rt, output) {
        return output_failed(rt);
    }
    print_error(rt, error);
    print_note(rt, note);
    status
}

/// Tells the ending of a command and this note beside its lines, and answers the exit status.
pub fn tell_ending_with(rt: &HostRuntime, ending: &Ending, note: Result<String, AllocError>) -> u8 {
    tell_lines(
        rt,
        output_of(*ending),
        error_of(*ending),
        note,
        status_of(*ending),
    )
}

/// Tells the ending of a command and what is known beside its lines, and answers the exit status.
pub fn tell_ending(rt: &HostRuntime, ending: &Ending) -> u8 {
    tell_ending_with(rt, ending, note_of(rt.alloc(), *ending))
}

/// Says that memory gave out, and answers the exit status.
pub fn out_of_memory(rt: &HostRuntime) -> u8 {
    tell_ending(rt, &NO_MEMORY)
}

/// Says on standard error what could not be had and why, and answers how the program ends: as given, or for want of
/// memory.
pub fn tell_lack(rt: &HostRuntime, what: &str, error: &io::Error, ending: Ending) -> Ending {
    if error.kind() == ErrorKind::OutOfMemory {
        return NO_MEMORY;
    }
    let _printed = eprintln!(rt; "error: {what}: {error}");
    ending
}
