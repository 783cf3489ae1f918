//! How `clap` is told of a command, from a table of its words.
use clap::{Arg, ArgAction, Command};
use std::alloc::{AllocError, Global};

/// A word of a command. Its texts are its name, what stands for it in the help, and what the help says of it.
#[derive(Clone, Copy)]
pub(crate) enum Word {
    /// By its place; it has to be given.
    Place(&'static str, &'static str, &'static str),
    /// By its place; it may be left out.
    Last(&'static str, &'static str, &'static str),
    /// By its place; where it is left out, the fourth text stands for it.
    LastOr(&'static str, &'static str, &'static str, &'static str),
    /// By its place; it may be left out where the option of the fourth name is given.
    PlaceUnless(&'static str, &'static str, &'static str, &'static str),
    /// Behind `--` and its name; it has to be given.
    Needed(&'static str, &'static str, &'static str),
    /// Behind `--` and its name; it may be left out.
    Value(&'static str, &'static str, &'static str),
    /// The same, where words of these names are given too.
    ValueBeside(&'static str, &'static str, &'static str, &'static [&'static str]),
    /// The same, where the word of the fourth name is given, and that of the fifth is not.
    ValueInstead(&'static str, &'static str, &'static str, &'static str, &'static str),
    /// `--` and its name, with no value.
    Flag(&'static str, &'static str),
    /// The same, or `-` and this letter.
    ShortFlag(&'static str, char, &'static str),
    /// The same, where a word of this name is given too.
    FlagBeside(&'static str, &'static str, &'static str),
}

/// A command: its name, what it is for, what stands behind the list of its words, and these words.
#[derive(Clone, Copy)]
pub(crate) struct Verb {
    pub(crate) name: &'static str,
    pub(crate) about: &'static str,
    pub(crate) after: &'static str,
    pub(crate) words: &'static [Word],
}

/// A command of the program.
#[derive(Clone, Copy)]
pub(crate) enum Entry {
    /// One that is whole with its words.
    One(Verb),
    /// One with commands of its own behind its words, of which one has to be given.
    Many(Verb, &'static [Verb]),
}

/// A word that is given by its place.
fn word_by_place<'a>(
    alloc: Global,
    id: &'static str,
    value: &'static str,
    help: &'static str,
    is_required: bool,
) -> Arg<'a> {
    Arg::new(alloc, id)
        .value_name(value)
        .help(help)
        .required(is_required)
        .action(ArgAction::Set)
}

/// A word that is given behind its name.
fn option<'a>(
    alloc: Global,
    id: &'static str,
    value: &'static str,
    help: &'static str,
    is_required: bool,
) -> Arg<'a> {
    word_by_place(alloc, id, value, help, is_required).long(id)
}

/// A word without a value.
fn flag<'a>(alloc: Global, id: &'static str, help: &'static str) -> Arg<'a> {
    Arg::new(alloc, id)
        .long(id)
        .help(help)
        .action(ArgAction::SetTrue)
}

/// A word that wants others of these names.
fn beside<'a>(arg: Arg<'a>, names: &'static [&'static str]) -> Result<Arg<'a>, AllocError> {
    let mut arg = arg;
    for name in names {
        arg = arg.requires_arg(name)?;
    }
    Ok(arg)
}

/// A word that wants one word, and goes with no other one.
fn instead<'a>(
    arg: Arg<'a>,
    name: &'static str,
    other: &'static str,
) -> Result<Arg<'a>, AllocError> {
    arg.requires_arg(name)?.conflicts_with(other)
}

/// A word as `clap` takes it.
fn arg_of<'a>(alloc: Global, word: Word) -> Result<Arg<'a>, AllocError> {
    match word {
        Word::Place(id, value, help) => Ok(word_by_place(alloc, id, value, help, true)),
        Word::Last(id, value, help) => Ok(word_by_place(alloc, id, value, help, false)),
        Word::LastOr(id, value, help, usual) => {
            Ok(word_by_place(alloc, id, value, help, false).default_value(usual))
        }
        Word::PlaceUnless(id, value, help, name) => {
            word_by_place(alloc, id, value, help, false).required_unless_present(name)
        }
        Word::Needed(id, value, help) => Ok(option(alloc, id, value, help, true)),
        Word::Value(id, value, help) => Ok(option(alloc, id, value, help, false)),
        Word::ValueBeside(id, value, help, names) => {
            beside(option(alloc, id, value, help, false), names)
        }
        Word::ValueInstead(id, value, help, name, other) => {
            instead(option(alloc, id, value, help, false), name, other)
        }
        Word::Flag(id, help) => Ok(flag(alloc, id, help)),
        Word::ShortFlag(id, letter, help) => Ok(flag(alloc, id, help).short(letter)),
        Word::FlagBeside(id, help, name) => flag(alloc, id, help).requires_arg(name),
    }
}

/// A command with its words.
pub(crate) fn command_of<'a>(alloc: Global, verb: Verb) -> Result<Command<'a>, AllocError> {
    let mut command = Command::new(alloc, verb.name)
        .about(verb.about)
        .after_help(verb.after);
    for word in verb.words {
        command = command.arg(arg_of(alloc, *word)?)?;
    }
    Ok(command)
}

/// A command with commands of its own.
pub(crate) fn with_verbs<'a>(
    alloc: Global,
    command: Command<'a>,
    verbs: &'static [Verb],
) -> Result<Command<'a>, AllocError> {
    let mut command = command.subcommand_required(true);
    for verb in verbs {
        command = command.subcommand(command_of(alloc, *verb)?)?;
    }
    Ok(command)
}

/// A command of the program, as `clap` takes it.
fn entry_of<'a>(alloc: Global, entry: Entry) -> Result<Command<'a>, AllocError> {
    match entry {
        Entry::One(verb) => command_of(alloc, verb),
        Entry::Many(verb, verbs) => with_verbs(alloc, command_of(alloc, verb)?, verbs),
    }
}

/// The command line with these commands more.
pub(crate) fn with_entries<'a>(
    alloc: Global,
    command: Command<'a>,
    entries: &'static [Entry],
) -> Result<Command<'a>, AllocError> {
    let mut command = command;
    for entry in entries {
        command = command.subcommand(entry_of(alloc, *entry)?)?;
    }
    Ok(command)
}
