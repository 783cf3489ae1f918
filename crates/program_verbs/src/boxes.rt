//! A loan of the sheets that cover a box, as a person asks for it.
use clap::ArgMatches;
use command_folder::endings::Ending;
use command_ordering::boxes::{BoxedLoan, lend_box_for};
use command_ordering::orders::Purpose;
use command_words::statuses::{Outcome, What};
use program_orders::boxes::box_of;
use program_orders::purposes::purpose_of;
use program_orders::verbs::{if_given, mode_of};
use program_output::options::text_of;
use program_output::outputs::{end_verb, verb_output};
use program_output::streams::Output;
use program_words::filling::given_or_new;
use program_words::hints::print_hint;

/// Lends them in a folder. What comes nearest to a name that is none is told on standard error.
fn lend_box_in(
    rt: &HostRuntime,
    folder: &str,
    boxed: &BoxedLoan<'_>,
    purpose: Purpose,
    output: &mut Output<'_>,
) -> Ending {
    let (ending, hint) = lend_box_for(rt, folder, boxed, purpose, &mut *output);
    print_hint(rt, &hint);
    ending
}

/// Lends the sheets that cover a box, from the package that a word names, if one was given.
pub(crate) fn lend_box(
    rt: &HostRuntime,
    given: &ArgMatches<'_>,
    giver: &str,
    words: &str,
) -> Ending {
    let Some((ground, zoom)) = box_of(given, words) else {
        return Ending::Usual(Outcome::Refused(What::BadNumber));
    };
    let (id, loan, at) = match given_or_new(rt, given) {
        Ok(found) => found,
        Err(ending) => return ending,
    };
    let boxed = BoxedLoan {
        id,
        at: at.as_str(),
        from: if_given(given, "first", giver),
        zoom,
        ground,
        mode: mode_of(given),
        loan,
    };
    let folder = text_of(given, "folder");
    let mut output = verb_output(rt, given);
    let ending = lend_box_in(rt, folder, &boxed, purpose_of(given), &mut output);
    end_verb(rt, &output, ending)
}
