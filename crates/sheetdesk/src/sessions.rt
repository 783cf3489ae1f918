//! Sessions: commands as a person types them, a line each, carried out one after the other. A folder stays open from
//! line to line.
use crate::running::{carry_out, print_usage};
use clap::ArgMatches;
use program_keeping::keeping::Keeper;
use program_output::options::text_of;
use program_output::printing::{out_of_memory, output_failed, print_error};
use program_output::streams::Input;
use program_words::parsing::parse_words;
use std::io::ErrorKind;
use std::{fs, io};

/// Says on standard error why a line was not carried out, and answers the status that a shell has for it.
fn tell_failure(rt: &HostRuntime, what: &str, error: &io::Error) -> u8 {
    if error.kind() == ErrorKind::OutOfMemory {
        return out_of_memory(rt);
    }
    let _printed = eprintln!(rt; "error: {what}: {error}");
    1
}

/// Carries out the command of this name: over the folder that is kept, or else as a command line does, while none is.
fn carry_out_named(
    keeper: &mut Keeper<'_>,
    words: &[&str],
    name: &str,
    given: &ArgMatches<'_>,
    reader: &mut Input<'_>,
) -> u8 {
    match keeper.carry_out(words, name, given, reader) {
        Some(status) => status,
        None => carry_out(keeper.rt(), words, name, given, reader),
    }
}

/// Carries out a command of a session, the program's name first. A session has none in it.
fn carry_out_words(keeper: &mut Keeper<'_>, words: &[&str], reader: &mut Input<'_>) -> u8 {
    let rt = keeper.rt();
    let matches = match parse_words(rt, words) {
        Ok(matches) => matches,
        Err(error) => {
            keeper.close();
            return print_usage(rt, &error);
        }
    };
    match matches.subcommand() {
        Some((name, given)) if name != "session" => {
            carry_out_named(keeper, words, name, given, reader)
        }
        Some(_) | None => {
            keeper.close();
            print_error(rt, "error: a session has no session in it\n");
            2
        }
    }
}

/// Carries out a typed command over what it reads.
fn carry_out_typed(keeper: &mut Keeper<'_>, typed: &str, reader: &mut Input<'_>) -> u8 {
    let rt = keeper.rt();
    match typed.split(' ').collect::<Vec<&str>>(rt.alloc()) {
        Ok(words) => carry_out_words(keeper, words.as_slice(), reader),
        Err(_) => out_of_memory(rt),
    }
}

/// Carries out a command over what is in a file.
fn carry_out_over(keeper: &mut Keeper<'_>, typed: &str, path: &str) -> u8 {
    let rt = keeper.rt();
    match fs::read(rt, path) {
        Ok(input) => carry_out_typed(keeper, typed, &mut Input::File(input.as_slice())),
        Err(error) => tell_failure(rt, path, &error),
    }
}

/// The status of what the system was asked to do with a path.
fn status_of(rt: &HostRuntime, path: &str, done: io::Result<()>) -> u8 {
    match done {
        Ok(()) => 0,
        Err(error) => tell_failure(rt, path, &error),
    }
}

/// Carries out what is no command of the program: files and folders are made and removed while no folder is kept.
fn carry_out_other(keeper: &mut Keeper<'_>, line: &str) -> u8 {
    let rt = keeper.rt();
    keeper.close();
    if let Some(folder) = line.strip_prefix("mkdir ") {
        return status_of(rt, folder, fs::create_dir(rt, folder));
    }
    if let Some(file) = line.strip_prefix("rm ") {
        return status_of(rt, file, fs::remove_file(rt, file));
    }
    print_error(rt, "error: no line of a session\n");
    2
}

/// Carries one line out, and answers its status.
fn carry_out_line(keeper: &mut Keeper<'_>, line: &str, reader: &mut Input<'_>) -> u8 {
    if !line.starts_with("./sheetdesk ") {
        return carry_out_other(keeper, line);
    }
    match line.split_once(" < ") {
        Some((typed, path)) => carry_out_over(keeper, typed, path),
        None => carry_out_typed(keeper, line, reader),
    }
}

/// Prints a line, what it prints itself, and its status where that is not 0, and answers that. A comment is printed
/// alone.
fn print_line(keeper: &mut Keeper<'_>, line: &str, reader: &mut Input<'_>) -> io::Result<u8> {
    let rt = keeper.rt();
    if line.is_empty() || line.starts_with('#') {
        println!(rt; "{line}")?;
        return Ok(0);
    }
    println!(rt; "$ {line}")?;
    let status = carry_out_line(keeper, line, reader);
    if status != 0 {
        println!(rt; "status {status}")?;
    }
    Ok(status)
}

/// Carries out the lines of a text, and answers 0, whatever the status of each is. Where it is strict, the first line
/// whose status is another is the last, and that is answered.
fn carry_out_lines(
    keeper: &mut Keeper<'_>,
    text: &str,
    is_strict: bool,
    reader: &mut Input<'_>,
) -> io::Result<u8> {
    for line in text.lines() {
        let status = print_line(keeper, line, reader)?;
        if is_strict && status != 0 {
            return Ok(status);
        }
    }
    Ok(0)
}

/// The lines of a file, or the exit status where it has none that can be read.
fn lines_of(rt: &HostRuntime, file: &str) -> Result<String, u8> {
    match fs::read_to_string(rt, file) {
        Ok(text) => Ok(text),
        Err(error) => if error.kind() == ErrorKind::OutOfMemory {
            Err(out_of_memory(rt))
        } else {
            Err(refuse_file(rt))
        }
    }
}

/// Says that a file is no session, and answers the exit status.
fn refuse_file(rt: &HostRuntime) -> u8 {
    match println!(rt; "refused: session") {
        Ok(()) => 1,
        Err(_) => output_failed(rt),
    }
}

/// Carries out what stands in a file, a line each, and answers the exit status: 0 where the last line was reached.
fn run_session(rt: &HostRuntime, given: &ArgMatches<'_>, reader: &mut Input<'_>) -> u8 {
    let text = match lines_of(rt, text_of(given, "file")) {
        Ok(text) => text,
        Err(status) => return status,
    };
    let mut keeper = Keeper::new(rt);
    let ended = carry_out_lines(&mut keeper, text.as_str(), given.get_flag("strict"), reader);
    keeper.close();
    match ended {
        Ok(status) => status,
        Err(_) => output_failed(rt),
    }
}

/// Carries out a command line, the program's name first, over what it reads, and answers the exit status.
/// What it prints goes to standard output and standard error. A subcommand is required.
pub(crate) fn run(rt: &HostRuntime, words: &[String], reader: &mut Input<'_>) -> u8 {
    let matches = match parse_words(rt, words) {
        Ok(matches) => matches,
        Err(error) => return print_usage(rt, &error),
    };
    match matches.subcommand() {
        Some((name, given)) => {
            if name == "session" {
                run_session(rt, given, reader)
            } else {
                carry_out(rt, words, name, given, reader)
            }
        }
        None => 2,
    }
}
