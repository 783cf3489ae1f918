//! A list of requests, carried out in memory.
use clap::ArgMatches;
use cli::rehearse::rehearse as rehearse_list;
use cli::serving::rehearse_and_serve;
use command_folder::endings::Ending;
use command_words::arguments::{DeskWords, Words};
use command_words::statuses::Outcome;
use program_output::options::text_of;
use program_output::streams::{Input, Onlooker};
use std::io;

/// The words for a new archive.
fn archive_words<'m>(given: &ArgMatches<'m>) -> Words<'m> {
    Words {
        archive: text_of(given, "archive"),
        at: text_of(given, "at"),
        frame: text_of(given, "frame"),
    }
}

/// What a rehearsal comes to, over a reader and standard output. Where a port is given, the world
/// of the list is served.
fn outcome_of(rt: &HostRuntime, given: &ArgMatches<'_>, reader: &mut Input<'_>) -> Outcome {
    let words = archive_words(given);
    let mut teller = Onlooker::new(rt, given.get_flag("log"));
    let mut writer = io::writer(rt);
    let Some(port) = given.get_str("serve") else {
        return rehearse_list(rt.alloc(), &words, reader, &mut writer, &mut teller);
    };
    let desk = DeskWords {
        port,
        count: text_of(given, "count"),
    };
    rehearse_and_serve(
        rt,
        rt.alloc(),
        &words,
        &desk,
        reader,
        &mut writer,
        &mut teller,
    )
    .err()
    .unwrap_or(Outcome::Done)
}

/// Carries out in memory the list that a reader has, by the words of `rehearse`, and answers how it
/// ended. How far it is, and of a desk, standard error is told.
pub fn rehearse(rt: &HostRuntime, given: &ArgMatches<'_>, reader: &mut Input<'_>) -> Ending {
    Ending::Usual(outcome_of(rt, given, reader))
}
