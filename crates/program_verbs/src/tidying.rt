//! A folder, made tidy.
use clap::ArgMatches;
use command_folder::endings::Ending;
use commands::tidying::tidy;
use program_output::options::text_of;
use program_output::outputs::{end_verb, verb_output};

/// Removes what older versions and stops left in a folder.
pub(crate) fn tidy_folder(rt: &HostRuntime, given: &ArgMatches<'_>) -> Ending {
    let mut output = verb_output(rt, given);
    let ending = tidy(rt, text_of(given, "folder"), &mut output);
    end_verb(rt, &output, ending)
}
