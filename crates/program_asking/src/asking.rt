//! Commands over a folder that a desk serves: the desk is asked, and what it answers is printed.
use crate::desk_drops::drop_by;
use crate::desk_inputs::{Served, bring_by, show_changes_by};
use crate::desk_lines::apply_by;
use crate::desk_lists::import_by;
use crate::desk_trees::put_tree_by;
use crate::desks::{MOST_SENT, ask, tell_unless_passed, words_before};
use clap::ArgMatches;
use desk_asking::desks::{DeskAt, read_desk};
use program_output::desk_files::{desk_file_text, is_held};
use program_output::options::text_of;
use program_output::outputs::{look_output, print_unless_done, verb_output};
use program_output::printing::{output_failed, tell_ending};
use program_output::streams::{Input, Output};
use program_words::kinds::{is_served, is_verb};
use program_words::names::{named_words, print_unnamed};
use std::convert::AsStr;
use std::fs;
use std::io::{self, ErrorKind, Read};

/// The most bytes that a desk is sent of what a command reads: one more than a request may have, so that it refuses a
/// longer one.
const MOST_INPUT: u64 = MOST_SENT + 1;

/// What a reader has, as far as a desk is sent it.
fn read_front<R: Read + Drop>(rt: &HostRuntime, reader: R) -> io::Result<Vec<u8>> {
    let mut bytes = Vec::new(rt.alloc());
    reader.take(MOST_INPUT).read_to_end(&mut bytes)?;
    Ok(bytes)
}

/// The same of a file.
fn read_file(rt: &HostRuntime, path: &str) -> io::Result<Vec<u8>> {
    let mut bytes = fs::read(rt, path)?;
    bytes.truncate(MOST_INPUT as usize);
    Ok(bytes)
}

/// The names in a file, all of them: with fewer a page would be another.
fn read_names(rt: &HostRuntime, path: &str) -> io::Result<Vec<u8>> {
    let bytes = fs::read(rt, path)?;
    if bytes.len() as u64 > MOST_SENT {
        return Err(ErrorKind::FileTooLarge.into());
    }
    Ok(bytes)
}

/// The file of names that a page is made with, where one is given.
fn names_given<'m>(name: &str, given: &ArgMatches<'m>) -> Option<&'m str> {
    match name {
        "report" => given.get_str("names"),
        "map" if given.get_str("zoom").is_none() => given.get_str("names"),
        _ => None,
    }
}

/// What a command reads that a desk carries out: a page its names, a verb the file that its words name, others nothing.
/// It is cut one byte behind what a desk takes.
///
/// # Errors
///
/// Those of the file or the reader, a file of names that is longer than a desk takes, or want of memory.
pub fn input_for(
    rt: &HostRuntime,
    name: &str,
    options: &ArgMatches<'_>,
    reader: &mut Input<'_>,
) -> io::Result<Vec<u8>> {
    if let Some(path) = names_given(name, options) {
        return read_names(rt, path);
    }
    match options.get_str("file") {
        Some(path) if path == "-" => read_front(rt, reader),
        Some(path) => read_file(rt, path),
        None => Ok(Vec::new(rt.alloc())),
    }
}

/// Where a command writes that a desk carries out: memory, where a file is to keep it.
pub fn output_for<'r>(
    rt: &'r HostRuntime,
    name: &str,
    given: &ArgMatches<'_>,
    options: &ArgMatches<'_>,
) -> Output<'r> {
    if given.contains_id("output") {
        Output::Kept(Vec::new(rt.alloc()))
    } else if is_verb(name) || matches!(name, "drop" | "tidy") {
        verb_output(rt, options)
    } else {
        look_output(rt, name, given)
    }
}

/// Keeps in a file what was answered, and answers the exit status.
fn keep_answer(rt: &HostRuntime, path: &str, bytes: &[u8]) -> u8 {
    match fs::write(rt, path, bytes) {
        Ok(()) => 0,
        Err(error) => {
            let _printed = eprintln!(rt; "error: {path}: {error}");
            output_failed(rt)
        }
    }
}

/// Prints what was held back, or keeps it in a file, and answers the exit status.
pub fn finish(rt: &HostRuntime, path: Option<&str>, output: &Output<'_>, status: u8) -> u8 {
    match (path, output) {
        (Some(path), Output::Kept(bytes)) if status == 0 => keep_answer(rt, path, bytes.as_slice()),
        _ => print_unless_done(rt, output, status),
    }
}

/// Has a desk carry out the command of these words over what it reads, and answers the exit status; none where it
/// does not carry such a command out.
fn carry_out_by(
    rt: &HostRuntime,
    desk: &DeskAt<'_>,
    words: &[String],
    input: &[u8],
    path: Option<&str>,
    output: &mut Output<'_>,
) -> Option<u8> {
    match ask(rt, desk, words, input, &mut *output, &mut rt.stderr()) {
        Ok(status) => Some(finish(rt, path, output, status)),
        Err(why) => tell_unless_passed(rt, desk, why),
    }
}

/// Has a desk carry a command out that is one for it, whose options stand among these words, and answers the exit
/// status. What cannot be read the command itself tells.
fn ask_with<'m, W: AsStr>(
    rt: &HostRuntime,
    desk: &DeskAt<'_>,
    words: &[W],
    name: &str,
    given: &ArgMatches<'m>,
    options: &ArgMatches<'m>,
    reader: &mut Input<'_>,
) -> Option<u8> {
    let Ok(behind) = words_before(rt, [name].as_slice(), words, 2) else {
        return None;
    };
    let Ok(input) = input_for(rt, name, options, reader) else {
        return None;
    };
    let path = given.get_str("output");
    let mut output = output_for(rt, name, given, options);
    carry_out_by(
        rt,
        desk,
        behind.as_slice(),
        input.as_slice(),
        path,
        &mut output,
    )
}

/// The same of all words. The options of a verb stand behind the kind of what is put, where there is one.
fn ask_for<'m, W: AsStr>(
    rt: &HostRuntime,
    desk: &DeskAt<'_>,
    words: &[W],
    name: &str,
    given: &ArgMatches<'m>,
    reader: &mut Input<'_>,
) -> Option<u8> {
    match given.subcommand() {
        Some((_, options)) => ask_with(rt, desk, words, name, given, options, reader),
        None => ask_with(rt, desk, words, name, given, given, reader),
    }
}

/// The words of `put` for a tree, where it adds one.
fn tree_words<'m, 'g>(name: &str, given: &'g ArgMatches<'m>) -> Option<&'g ArgMatches<'m>> {
    match given.subcommand() {
        Some((kind, options)) if name == "put" && kind == "tiles" => Some(options),
        _ => None,
    }
}

/// Adds the tiles of a tree by a desk, to the package that a word names, and answers the exit status.
fn put_named_tree(
    rt: &HostRuntime,
    served: &Served<'_, '_>,
    given: &ArgMatches<'_>,
    options: &ArgMatches<'_>,
) -> Option<u8> {
    match named_words(rt, served.folder, "put", given, None) {
        Ok(named) => put_tree_by(rt, served, named.word.as_str(), options),
        Err(why) => Some(tell_ending(rt, &print_unnamed(rt, &why))),
    }
}

/// Has the desk of a folder carry a command out, and answers the exit status. One of several requests is carried out
/// request by request.
fn ask_served<'m, W: AsStr>(
    rt: &HostRuntime,
    served: &Served<'_, '_>,
    words: &[W],
    name: &str,
    given: &ArgMatches<'m>,
    reader: &mut Input<'_>,
) -> Option<u8> {
    if let Some(options) = tree_words(name, given) {
        return put_named_tree(rt, served, given, options);
    }
    match name {
        "apply" => apply_by(rt, &served.desk, words, reader),
        "import" => Some(import_by(rt, &served.desk, given)),
        "drop" if !given.get_flag("dry-run") => drop_by(rt, &served.desk, words, given),
        "bring" if !given.get_flag("dry-run") => bring_by(rt, served, words, reader),
        "bring" | "changes" => show_changes_by(rt, served, name, words, reader),
        _ => ask_for(rt, &served.desk, words, name, given, reader),
    }
}

/// Whether a desk is asked for this command.
fn is_asked(name: &str, given: &ArgMatches<'_>) -> bool {
    matches!(name, "put" | "import" | "drop" | "bring" | "changes") || is_served(name, given)
}

/// Has the desk that serves a command's folder carry the command out, and answers the exit status; none where no desk
/// serves it, or the command is none for a desk.
pub fn ask_desk<W: AsStr>(
    rt: &HostRuntime,
    words: &[W],
    name: &str,
    given: &ArgMatches<'_>,
    reader: &mut Input<'_>,
) -> Option<u8> {
    if !is_asked(name, given) {
        return None;
    }
    let folder = text_of(given, "folder");
    let Some(text) = desk_file_text(rt, folder) else {
        return None;
    };
    if !is_held(rt, folder) {
        return None;
    }
    let Some(desk) = read_desk(text.as_slice()) else {
        return None;
    };
    let served = Served { folder, desk };
    ask_served(rt, &served, words, name, given, reader)
}
