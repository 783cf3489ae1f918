//! The options and words of a command line.
use clap::ArgMatches;

/// The text of an option or a word that has to be given; empty where it is not.
pub fn text_of<'m>(given: &ArgMatches<'m>, id: &str) -> &'m str {
    given.get_str(id).unwrap_or("")
}
