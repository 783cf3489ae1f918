//! A command, carried out: by the desk that serves its folder, or in this process.
use clap::error::ErrorKind;
use clap::{ArgMatches, Error};
use command_folder::endings::Ending;
use command_help::completions::BASH;
use program_asking::asking::ask_desk;
use program_looks::bringing::bring_home;
use program_looks::fields::{print_listing, print_project};
use program_looks::reporting::print_paper;
use program_looks::showing::{show, show_named};
use program_output::notes::fault_note;
use program_output::options::text_of;
use program_output::printing::{
    out_of_memory, output_failed, print_text, tell_ending, tell_ending_with,
};
use program_output::streams::Input;
use program_serving::wishes::{Wish, wish_of};
use program_verbs::rehearsing::rehearse;
use program_verbs::verbs::carry_out as carry_out_verb;
use program_words::kinds::is_bringing;
use program_words::names::{Named, named_words, print_unnamed};
use program_words::parsing::parse_words;
use program_working::working::work;
use std::convert::AsStr;

/// Prints what the command line is answered with where it names nothing to be done: a usage fault, or help.
pub(crate) fn print_usage(rt: &HostRuntime, error: &Error) -> u8 {
    if error.kind() == ErrorKind::OutOfMemory {
        return out_of_memory(rt);
    }
    match error.print(rt) {
        Ok(()) => error.exit_code() as u8,
        Err(_) => output_failed(rt),
    }
}

/// Looks at a folder, where the command wishes to, and answers the exit status.
fn look<'m>(rt: &HostRuntime, name: &str, given: &ArgMatches<'m>, word: &'m str) -> Option<u8> {
    match wish_of(name, given, word) {
        Some(Wish::Asked(asked)) => Some(show(rt, name, given, asked)),
        Some(Wish::Named(asked)) => Some(show_named(rt, name, given, asked)),
        None => None,
    }
}

/// Carries out a command that may change something, and answers how it ended.
fn change<'m>(
    rt: &HostRuntime,
    name: &str,
    given: &ArgMatches<'m>,
    named: &'m Named,
    reader: &mut Input<'_>,
) -> Ending {
    if is_bringing(name) {
        return bring_home(rt, name, given, named.word.as_str(), reader);
    }
    if let Some(ending) = carry_out_verb(rt, name, given, named, reader) {
        return ending;
    }
    match work(rt, name, given, reader) {
        Some(ending) => ending,
        None => rehearse(rt, given, reader),
    }
}

/// The same, and tells how it ended, with where the fault of its list is. Answers the exit status.
fn tell_change<'m>(
    rt: &HostRuntime,
    name: &str,
    given: &ArgMatches<'m>,
    named: &'m Named,
    reader: &mut Input<'_>,
) -> u8 {
    let typed = reader.text();
    let ending = change(rt, name, given, named, reader);
    match fault_note(rt, name, given, typed, &ending) {
        Some(note) => tell_ending_with(rt, &ending, Ok(note)),
        None => tell_ending(rt, &ending),
    }
}

/// Prints a file for people, a page, a drawing or a project, where the command asks for one, and
/// answers how that ended.
fn print_file(rt: &HostRuntime, name: &str, given: &ArgMatches<'_>, word: &str) -> Option<Ending> {
    match print_project(rt, name, given, word) {
        Some(ending) => Some(ending),
        None => print_paper(rt, name, given, word),
    }
}

/// Carries out the command of this name, whose words name these, and answers the exit status.
fn carry_out_named<'m>(
    rt: &HostRuntime,
    name: &str,
    given: &ArgMatches<'m>,
    named: &'m Named,
    reader: &mut Input<'_>,
) -> u8 {
    let word = named.word.as_str();
    if let Some(ending) = print_file(rt, name, given, word) {
        return tell_ending(rt, &ending);
    }
    match look(rt, name, given, word) {
        Some(status) => status,
        None => tell_change(rt, name, given, named, reader),
    }
}

/// Carries out the command of a command line whose words name these. They are parsed once more, so
/// that all words live as long as these do.
fn carry_out_words<'m, W: AsStr>(
    rt: &HostRuntime,
    words: &'m [W],
    named: &'m Named,
    reader: &mut Input<'_>,
) -> u8 {
    let matches = match parse_words(rt, words) {
        Ok(matches) => matches,
        Err(error) => return print_usage(rt, &error),
    };
    match matches.subcommand() {
        Some((name, given)) => carry_out_named(rt, name, given, named, reader),
        None => 2,
    }
}

/// Carries out the command of this name in this process, and answers the exit status.
fn carry_out_here<W: AsStr>(
    rt: &HostRuntime,
    words: &[W],
    name: &str,
    given: &ArgMatches<'_>,
    reader: &mut Input<'_>,
) -> u8 {
    match named_words(rt, text_of(given, "folder"), name, given, None) {
        Ok(named) => carry_out_words(rt, words, &named, reader),
        Err(why) => tell_ending(rt, &print_unnamed(rt, &why)),
    }
}

/// Carries out the command of this name, which a command line asks for, and answers the exit status.
pub(crate) fn carry_out<W: AsStr>(
    rt: &HostRuntime,
    words: &[W],
    name: &str,
    given: &ArgMatches<'_>,
    reader: &mut Input<'_>,
) -> u8 {
    match name {
        "holds" => print_listing(rt, given),
        "completions" => print_text(rt, BASH),
        _ => match ask_desk(rt, words, name, given, reader) {
            Some(status) => status,
            None => carry_out_here(rt, words, name, given, reader),
        },
    }
}
