//! What becomes of the request that a verb makes.
use clap::ArgMatches;
use command_ordering::orders::Purpose;

/// What becomes of the request, by the options of a verb: `--dry-run` only shows it.
pub fn purpose_of(options: &ArgMatches<'_>) -> Purpose {
    if options.get_flag("dry-run") {
        Purpose::Show
    } else {
        Purpose::CarryOut
    }
}

/// The same by all words of a verb. Its options stand behind the kind of what is put, where there is one.
pub fn purpose_given(given: &ArgMatches<'_>) -> Purpose {
    match given.subcommand() {
        Some((_, options)) => purpose_of(options),
        None => purpose_of(given),
    }
}
