//! `changes` and `bring`: the list of what an edited file holds is read from standard input. What
//! the words leave out is of the clock.
use crate::naming::package_given;
use clap::ArgMatches;
use command_bringing::bringing::Purpose;
use command_bringing::folders::{BringWords, bring_for};
use command_folder::endings::Ending;
use program_output::options::text_of;
use program_output::printing::print_error;
use program_output::streams::{Input, Onlooker};
use program_words::filling::moment_given;
use std::io::{self, Read};

/// What becomes of the requests.
fn purpose_of(name: &str, given: &ArgMatches<'_>) -> Purpose {
    if name == "bring" && !given.get_flag("dry-run") {
        Purpose::CarryOut
    } else if given.get_flag("summary") {
        Purpose::ShowSummary
    } else {
        Purpose::ShowList
    }
}

/// Says on standard error what a refusal means.
fn explain(rt: &HostRuntime, note: &str) {
    if !note.is_empty() {
        print_error(rt, note);
        print_error(rt, "\n");
    }
}

/// Carries the command out of this package, at this moment, with the list that a reader has.
fn bring_from<R: Read + Drop>(
    rt: &HostRuntime,
    name: &str,
    given: &ArgMatches<'_>,
    package: &str,
    moment: &str,
    reader: R,
) -> Ending {
    let words = BringWords {
        package,
        at: moment,
        more: given.get_flag("more"),
    };
    let mut teller = Onlooker::new(rt, false);
    let (ending, note) = bring_for(
        rt,
        text_of(given, "folder"),
        &words,
        purpose_of(name, given),
        reader,
        &mut io::writer(rt),
        &mut teller,
    );
    explain(rt, note);
    ending
}

/// Brings an edited file home into the package that a word names, or shows what that changes, as the name of the
/// command says. The list of what the file holds is read. Answers how it ended.
pub fn bring_home(
    rt: &HostRuntime,
    name: &str,
    given: &ArgMatches<'_>,
    word: &str,
    reader: &mut Input<'_>,
) -> Ending {
    let moment = match moment_given(rt, given) {
        Ok(moment) => moment,
        Err(ending) => return ending,
    };
    match package_given(rt, given, word) {
        Ok(package) => bring_from(rt, name, given, package.as_str(), moment.as_str(), reader),
        Err(ending) => ending,
    }
}
