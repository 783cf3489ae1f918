//! An item is dropped: the identities of the requests are new, and their moment is that of the
//! clock, unless it is given.
use clap::ArgMatches;
use command_folder::endings::Ending;
use command_naming::drops::Dropping;
use command_ordering::dropping::drop_for;
use program_output::clock::NewIdentities;
use program_output::options::text_of;
use program_output::outputs::{end_verb, verb_output};
use program_output::streams::Output;
use program_words::filling::moment_given;
use program_words::hints::print_hint;

/// Drops an item in a folder. What comes nearest to a name that is none is told on standard error.
fn drop_in(
    rt: &HostRuntime,
    folder: &str,
    dropping: &Dropping<'_>,
    output: &mut Output<'_>,
) -> Ending {
    let (ending, hint) = drop_for(
        rt,
        folder,
        dropping,
        &mut NewIdentities { rt },
        &mut *output,
    );
    print_hint(rt, &hint);
    ending
}

/// Drops the item of a folder's packages that a word names.
pub(crate) fn drop_item(rt: &HostRuntime, given: &ArgMatches<'_>, word: &str) -> Ending {
    let at = match moment_given(rt, given) {
        Ok(at) => at,
        Err(ending) => return ending,
    };
    let dropping = Dropping {
        word,
        at: at.as_str(),
        ends_links: given.get_flag("yes"),
        is_shown: given.get_flag("dry-run"),
    };
    let mut output = verb_output(rt, given);
    let ending = drop_in(rt, text_of(given, "folder"), &dropping, &mut output);
    end_verb(rt, &output, ending)
}
