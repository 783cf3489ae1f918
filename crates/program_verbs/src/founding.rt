//! A new archive's words: its UUID and its moment are made where they are not given.
use clap::ArgMatches;
use command_folder::endings::{DONE, Ending, OpenFault};
use command_words::arguments::Words;
use commands::init::init;
use program_output::desk_files::names_desk;
use program_output::options::text_of;
use program_output::outputs::{end_verb, verb_output};
use program_words::filling::{moment_given, uuid_text_given};
use store_folder::fault::FolderFault;

/// Tells standard error at which moment an archive is made, where no word gives one.
fn tell_moment(rt: &HostRuntime, given: &ArgMatches<'_>, at: &str) {
    if given.get_str("at").is_none() {
        let _printed = eprintln!(rt; "made at {at}");
    }
}

/// How it ends: a folder that is held, and that a desk serves, holds packages.
fn ending_in(rt: &HostRuntime, folder: &str, ending: Ending) -> Ending {
    match ending {
        Ending::Unopened(OpenFault::Folder(FolderFault::FolderHeld)) if names_desk(rt, folder) => {
            Ending::HoldsPackages
        }
        _ => ending,
    }
}

/// Makes a new archive in a folder.
pub(crate) fn found_archive(rt: &HostRuntime, given: &ArgMatches<'_>) -> Ending {
    let archive = match uuid_text_given(rt, given, "archive") {
        Ok(archive) => archive,
        Err(ending) => return ending,
    };
    let at = match moment_given(rt, given) {
        Ok(at) => at,
        Err(ending) => return ending,
    };
    let words = Words {
        archive: archive.as_str(),
        at: at.as_str(),
        frame: text_of(given, "frame"),
    };
    let mut output = verb_output(rt, given);
    let folder = text_of(given, "folder");
    let ending = ending_in(rt, folder, init(rt, &words, folder, &mut output));
    if ending == DONE && !given.get_flag("quiet") {
        tell_moment(rt, given, at.as_str());
    }
    end_verb(rt, &output, ending)
}
