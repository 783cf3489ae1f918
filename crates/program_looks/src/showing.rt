//! What a command that looks prints, or keeps in a file.
use clap::ArgMatches;
use command_folder::endings::{DONE, FAILED};
use command_named::looking::{NamedLook, named_look_for};
use program_output::options::text_of;
use program_output::outputs::look_output;
use program_output::printing::tell_lines;
use program_output::streams::Output;
use program_words::hints::print_hint;
use std::io::Write;
use std::{fs, io};
use views::endings::{Ending, error_of, note_of, output_of, status_of};
use views::looking::{Asked, look_for};

/// Where a look writes: memory, where a file is to keep it.
fn output_for<'r>(rt: &'r HostRuntime, name: &str, given: &ArgMatches<'_>) -> Output<'r> {
    if given.get_str("output").is_some() {
        Output::Kept(Vec::new(rt.alloc()))
    } else {
        look_output(rt, name, given)
    }
}

/// Keeps bytes in a file.
fn keep_bytes(rt: &HostRuntime, path: &str, bytes: &[u8]) -> Ending {
    match fs::write(rt, path, bytes) {
        Ok(()) => Ending::Usual(DONE),
        Err(error) => {
            let _printed = eprintln!(rt; "error: {path}: {error}");
            Ending::Usual(FAILED)
        }
    }
}

/// Keeps in a file what was found. What is said where nothing was goes to standard output.
fn keep_found(rt: &HostRuntime, path: &str, bytes: &[u8], ending: Ending) -> Ending {
    if ending == Ending::Usual(DONE) {
        return keep_bytes(rt, path, bytes);
    }
    match io::writer(rt).write_all(bytes) {
        Ok(()) => ending,
        Err(_) => Ending::Usual(FAILED),
    }
}

/// Tells the ending of a look, and answers the exit status.
fn tell_look(rt: &HostRuntime, ending: &Ending) -> u8 {
    tell_lines(
        rt,
        output_of(*ending),
        error_of(*ending),
        note_of(rt.alloc(), *ending),
        status_of(*ending),
    )
}

/// Keeps what was found, where the command names a file for it, tells how the look ended, and answers the exit status.
fn end_look(rt: &HostRuntime, given: &ArgMatches<'_>, output: &Output<'_>, ending: Ending) -> u8 {
    match (given.get_str("output"), output) {
        (Some(path), Output::Kept(bytes)) => {
            tell_look(rt, &keep_found(rt, path, bytes.as_slice(), ending))
        }
        _ => tell_look(rt, &ending),
    }
}

/// Looks at a folder as its words ask, prints what is found or keeps it in a file, and answers the exit status.
pub fn show(rt: &HostRuntime, name: &str, given: &ArgMatches<'_>, asked: Asked<'_>) -> u8 {
    let mut output = output_for(rt, name, given);
    let ending = look_for(rt, text_of(given, "folder"), asked, &mut output);
    end_look(rt, given, &output, ending)
}

/// The same where a word names what is looked at. What comes nearest to a name that is none is told on standard error.
pub fn show_named(
    rt: &HostRuntime,
    name: &str,
    given: &ArgMatches<'_>,
    asked: NamedLook<'_>,
) -> u8 {
    let mut output = output_for(rt, name, given);
    let (ending, hint) = named_look_for(rt, text_of(given, "folder"), asked, &mut output);
    print_hint(rt, &hint);
    end_look(rt, given, &output, ending)
}
