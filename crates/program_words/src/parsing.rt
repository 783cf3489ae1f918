//! The words of a command line, parsed.
use clap::{ArgMatches, Error};
use command_help::words::sheetdesk;
use std::convert::AsStr;

/// What these words ask for, the program's name first.
///
/// # Errors
///
/// They are no use of the program, or ask for help; or want of memory.
pub fn parse_words<'a, W: AsStr>(
    rt: &HostRuntime,
    words: &'a [W],
) -> Result<ArgMatches<'a>, Error> {
    sheetdesk(rt.alloc())?.try_get_matches_from(words)
}
