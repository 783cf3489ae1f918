//! The package that a word names, by its UUID or by its first digits.
use clap::ArgMatches;
use command_folder::endings::{Ending, NO_MEMORY};
use command_ordering::naming::package_for;
use program_output::options::text_of;
use program_words::hints::{is_short, print_hint};
use std::alloc::AllocError;
use std::io;
use uuid::Uuid;

/// The package that a word names by its first digits. What comes nearest to a name that is none is
/// told on standard error.
fn named_package(rt: &HostRuntime, folder: &str, word: &str) -> Result<Uuid, Ending> {
    let (named, hint) = package_for(rt, folder, word, &mut io::writer(rt));
    print_hint(rt, &hint);
    named
}

/// The package of a command that takes a whole UUID, in the words that it was given in, or in full
/// where these are its first digits.
pub(crate) fn package_given(
    rt: &HostRuntime,
    given: &ArgMatches<'_>,
    word: &str,
) -> Result<String, Ending> {
    let text: Result<String, AllocError> = if is_short(word) {
        let uuid = named_package(rt, text_of(given, "folder"), word)?;
        format!(in rt.alloc(); "{uuid}")
    } else {
        String::from_str(rt.alloc(), word)
    };
    match text {
        Ok(text) => Ok(text),
        Err(_) => Err(NO_MEMORY),
    }
}
