//! The program `sheetdesk`: the words that it is called with, and the exit status.
#![tactic(auto)]

mod running;
mod sessions;

use crate::sessions::run;
use program_output::printing::out_of_memory;
use program_output::streams::Input;
use std::io;
use std::process::ExitCode;

/// The words of the command line, the program's name first.
fn words_given(rt: &HostRuntime) -> io::Result<Vec<String>> {
    Ok(std::env::args(rt)?.collect(rt.alloc())?)
}

/// The status where the words themselves could not be had: for want of memory, or since one is no
/// UTF-8 and so is no word of any command.
fn tell_unread(rt: &HostRuntime, error: &io::Error) -> u8 {
    if error.kind() == io::ErrorKind::OutOfMemory {
        return out_of_memory(rt);
    }
    match eprintln!(rt; "error: a word of the command line is no UTF-8") {
        Ok(()) | Err(_) => 2,
    }
}

fn main(rt: HostRuntime) -> ExitCode {
    let status = match words_given(&rt) {
        Ok(words) => run(&rt, words.as_slice(), &mut Input::Standard(rt.reader())),
        Err(error) => tell_unread(&rt, &error),
    };
    ExitCode::from(status)
}
