//! What standard error is told of a list beside the lines of an ending: where its fault is, and
//! which of its requests were refused.
use crate::options::text_of;
use clap::ArgMatches;
use command_folder::endings::Ending;
use command_notes::faults::{bytes_again, list_note};
use command_notes::refusals::Tally;
use command_words::statuses::{Outcome, What};

/// Where the fault of the list of an import is: its file is read again.
fn of_import(rt: &HostRuntime, file: &str, ending: &Ending) -> Option<String> {
    let Ending::Unlisted(told) = ending else {
        return None;
    };
    let bytes = bytes_again(rt, file)?;
    list_note(rt.alloc(), bytes.as_slice(), Some(*told)).unwrap_or(None)
}

/// The same of a rehearsal: of what a session gave it, or of standard input where that is a file.
fn of_rehearsal(rt: &HostRuntime, typed: Option<&[u8]>, ending: &Ending) -> Option<String> {
    let Ending::Usual(Outcome::Refused(What::BadList)) = ending else {
        return None;
    };
    if let Some(bytes) = typed {
        return list_note(rt.alloc(), bytes, None).unwrap_or(None);
    }
    let bytes = bytes_again(rt, "/dev/stdin")?;
    list_note(rt.alloc(), bytes.as_slice(), None).unwrap_or(None)
}

/// The line that says where the fault of a list is, if a command of this name ended for one and its text can be read
/// again. Of `rehearse` that is what a session typed, or standard input where it is a file.
pub fn fault_note(
    rt: &HostRuntime,
    name: &str,
    given: &ArgMatches<'_>,
    typed: Option<&[u8]>,
    ending: &Ending,
) -> Option<String> {
    match name {
        "import" => of_import(rt, text_of(given, "file"), ending),
        "rehearse" => of_rehearsal(rt, typed, ending),
        _ => None,
    }
}

/// What notes the refusals of a list, where a command of this name carries one out.
pub fn tally_for(rt: &HostRuntime, name: &str) -> Option<Tally> {
    if name == "import" {
        Some(Tally::new(rt.alloc()))
    } else {
        None
    }
}

/// Tells standard error of the refusals that were noted.
pub fn print_refusals(rt: &HostRuntime, noted: &Option<Tally>) {
    if let Some(tally) = noted {
        let mut errors = rt.stderr();
        // The report tells them too.
        let _untold = tally.write(rt.alloc(), &mut errors);
    }
}
