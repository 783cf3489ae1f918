//! Words by which people call packages and items: the UUID that goes by a name stands in its place.
use clap::ArgMatches;
use command_folder::endings::{Ending, FAILED, NO_MEMORY};
use command_names::hints::Whose;
use command_verbs::faults::verb_line;
use command_verbs::names::NameFault;
use command_verbs::verbs::VerbFault;
use program_output::options::text_of;
use program_output::printing::{is_printed, print_error};
use sheet_types::reading::read_uuid;
use std::alloc::AllocError;
use std::fmt::Display;
use std::fs;
use std::io::ErrorKind;
use uuid::Uuid;
use view_names::lists::{ListFault, read_names};
use view_report::registers::Name;

/// The words of a command that name a package or items: as they were typed, or the UUIDs that go by these names.
#[derive(Drop)]
pub struct Named {
    /// The first of them; empty where the command names none.
    pub word: String,
    /// The second one, of `join` and `part`; empty for others.
    pub other: String,
}

/// Why words name nothing: how the program ends, and what standard output and standard error are told before.
#[derive(Drop)]
pub struct Unnamed {
    /// How the program ends.
    pub ending: Ending,
    /// What standard output is told before; each line has its end.
    pub output: String,
    /// The same of standard error.
    pub error: String,
}

/// An ending before which nothing is told.
pub fn end_untold(rt: &HostRuntime, ending: Ending) -> Unnamed {
    Unnamed {
        ending,
        output: String::new(rt.alloc()),
        error: String::new(rt.alloc()),
    }
}

/// One before which standard error is told this text, whose lines have their ends.
pub fn end_told(rt: &HostRuntime, ending: Ending, error: Result<String, AllocError>) -> Unnamed {
    match error {
        Ok(error) => Unnamed {
            ending,
            output: String::new(rt.alloc()),
            error,
        },
        Err(_) => end_untold(rt, NO_MEMORY),
    }
}

/// One that refuses, with these texts.
fn refuse(
    rt: &HostRuntime,
    output: Result<String, AllocError>,
    error: Result<String, AllocError>,
) -> Unnamed {
    let Ok(output) = output else {
        return end_untold(rt, NO_MEMORY);
    };
    let Ok(error) = error else {
        return end_untold(rt, NO_MEMORY);
    };
    Unnamed {
        ending: Ending::NoRequest,
        output,
        error,
    }
}

/// Tells why words name nothing, and answers how the program ends.
pub fn print_unnamed(rt: &HostRuntime, why: &Unnamed) -> Ending {
    if !is_printed(rt, why.output.as_str()) {
        return FAILED;
    }
    print_error(rt, why.error.as_str());
    why.ending
}

/// Says why there are no names.
fn refuse_names<E: Display>(rt: &HostRuntime, path: &str, why: &E) -> Unnamed {
    let output = String::from_str(rt.alloc(), "refused: names\n");
    refuse(rt, output, format!(in rt.alloc(); "names: {path}: {why}\n"))
}

/// The names in the bytes of a file.
fn names_of(rt: &HostRuntime, path: &str, bytes: &[u8]) -> Result<Vec<Name>, Unnamed> {
    match read_names(rt.alloc(), bytes) {
        Ok(names) => Ok(names),
        Err(ListFault::Memory) => Err(end_untold(rt, NO_MEMORY)),
        Err(fault) => Err(refuse_names(rt, path, &fault)),
    }
}

/// The names in a file. One that nobody asked for need not be there.
fn names_in(rt: &HostRuntime, path: &str, is_asked: bool) -> Result<Vec<Name>, Unnamed> {
    match fs::read(rt, path) {
        Ok(bytes) => names_of(rt, path, bytes.as_slice()),
        Err(error) => {
            let is_absent = matches!(error.kind(), ErrorKind::NotFound | ErrorKind::NotADirectory);
            if is_absent && !is_asked {
                return Ok(Vec::new(rt.alloc()));
            }
            Err(refuse_names(rt, path, &error))
        }
    }
}

/// The names for a command: of the file that is asked for, whose bytes whoever asks a desk sends, or of the folder's
/// `names.csv`, which need not be there.
///
/// # Errors
///
/// The file is no list of names or cannot be read, or want of memory.
pub fn names_for(
    rt: &HostRuntime,
    folder: &str,
    given: &ArgMatches<'_>,
    sent: Option<&[u8]>,
) -> Result<Vec<Name>, Unnamed> {
    if let Some(path) = given.get_str("names") {
        return match sent {
            Some(bytes) => names_of(rt, path, bytes),
            None => names_in(rt, path, true),
        };
    }
    match format!(in rt.alloc(); "{folder}/names.csv") {
        Ok(path) => names_in(rt, path.as_str(), false),
        Err(_) => Err(end_untold(rt, NO_MEMORY)),
    }
}

/// What goes by a name, if anything does; an error where two do.
fn find_called(names: &[Name], word: &str) -> Result<Option<Uuid>, (Uuid, Uuid)> {
    let mut found: Option<Uuid> = None;
    for name in names {
        if name.name.is_text(word) {
            match found {
                Some(uuid) if uuid != name.uuid => return Err((uuid, name.uuid)),
                _ => found = Some(name.uuid),
            }
        }
    }
    Ok(found)
}

/// The fault that two go by one name.
fn two_called(whose: Whose, first: Uuid, second: Uuid) -> VerbFault {
    match whose {
        Whose::Package => VerbFault::Unnamed(NameFault::Two(first, second)),
        Whose::Item => VerbFault::Unfound(NameFault::Two(first, second)),
    }
}

/// Says that two go by a name.
fn tell_two(rt: &HostRuntime, fault: &VerbFault) -> Unnamed {
    match verb_line(rt.alloc(), fault) {
        Ok(line) => refuse(rt, Ok(line), Ok(String::new(rt.alloc()))),
        Err(_) => end_untold(rt, NO_MEMORY),
    }
}

/// A word as it was typed, or the UUID that goes by this name. A whole UUID is no name.
fn word_or_uuid(
    rt: &HostRuntime,
    folder: &str,
    given: &ArgMatches<'_>,
    sent: Option<&[u8]>,
    whose: Whose,
    word: &str,
) -> Result<String, Unnamed> {
    let mut found = None;
    if !word.is_empty() && read_uuid(word).is_none() {
        let names = names_for(rt, folder, given, sent)?;
        match find_called(names.as_slice(), word) {
            Ok(called) => found = called,
            Err((first, second)) => {
                return Err(tell_two(rt, &two_called(whose, first, second)));
            }
        }
    }
    let text = match found {
        Some(uuid) => format!(in rt.alloc(); "{uuid}"),
        None => String::from_str(rt.alloc(), word),
    };
    match text {
        Ok(text) => Ok(text),
        Err(_) => Err(end_untold(rt, NO_MEMORY)),
    }
}

/// The word by which a command names a package or an item; of another command none. The first word of `lend` is an area
/// where no second one stands behind it, nor a box.
fn naming_word<'m>(name: &str, given: &ArgMatches<'m>) -> (Whose, &'m str) {
    match name {
        "put" | "manifest" | "export" | "log" | "changes" | "bring" | "report" => {
            (Whose::Package, text_of(given, "package"))
        }
        "return" => (Whose::Package, text_of(given, "loan")),
        "lend" if given.contains_id("second") || given.contains_id("box") => {
            (Whose::Package, text_of(given, "first"))
        }
        "join" | "part" => (Whose::Item, text_of(given, "first")),
        "drop" | "get" | "explain" => (Whose::Item, text_of(given, "identity")),
        _ => (Whose::Package, ""),
    }
}

/// The words of a command that name a package or items, by the names for it. `sent` are the bytes of the file of names,
/// where whoever asks a desk sends them.
///
/// # Errors
///
/// Two go by one name, there are no names to be read, or want of memory.
pub fn named_words(
    rt: &HostRuntime,
    folder: &str,
    name: &str,
    given: &ArgMatches<'_>,
    sent: Option<&[u8]>,
) -> Result<Named, Unnamed> {
    let (whose, first) = naming_word(name, given);
    let second = match name {
        "join" | "part" => text_of(given, "second"),
        _ => "",
    };
    let word = word_or_uuid(rt, folder, given, sent, whose, first)?;
    let other = word_or_uuid(rt, folder, given, sent, whose, second)?;
    Ok(Named { word, other })
}
