//! What a command does over all packages of a folder: a request, a list of them, or a desk that serves them.
use clap::ArgMatches;
use command_folder::endings::{Ending, FAILED};
use command_words::arguments::DeskWords;
use commands::working::{Asked, work_for};
use program_output::clock::new_key;
use program_output::desk_files::{DeskPlace, is_held};
use program_output::notes::{print_refusals, tally_for};
use program_output::options::text_of;
use program_output::printing::tell_lack;
use program_output::streams::{Input, Onlooker};
use program_serving::serving::FolderClerk;
use std::io;

/// What a command asks to be done over the packages of a folder, if it does.
fn asked_work<'m>(name: &str, given: &ArgMatches<'m>) -> Option<Asked<'m>> {
    match name {
        "apply" => Some(Asked::Apply),
        "import" => Some(Asked::Import(text_of(given, "file"))),
        "serve" => Some(Asked::Serve(DeskWords {
            port: text_of(given, "port"),
            count: text_of(given, "count"),
        })),
        _ => None,
    }
}

/// The key of a desk, new; of another command it is empty.
fn key_for(rt: &HostRuntime, name: &str) -> Result<String, Ending> {
    if name != "serve" {
        return Ok(String::new(rt.alloc()));
    }
    match new_key(rt) {
        Ok(key) => Ok(key),
        Err(error) => Err(tell_lack(rt, "no new key", &error, FAILED)),
    }
}

/// Carries out the work, under this key. How far a list is, which of its records were refused, and of a desk, standard
/// error is told.
fn work_under(
    rt: &HostRuntime,
    name: &str,
    given: &ArgMatches<'_>,
    asked: Asked<'_>,
    key: &str,
    reader: &mut Input<'_>,
) -> Ending {
    let folder = text_of(given, "folder");
    let place = DeskPlace { folder, key };
    let mut teller = Onlooker::of_desk(rt, given.get_flag("log"), place);
    teller.tally = tally_for(rt, name);
    let mut writer = io::writer(rt);
    let mut clerk = FolderClerk::new(rt, folder, key);
    let ending = work_for(
        rt,
        folder,
        asked,
        reader,
        &mut writer,
        &mut teller,
        &mut clerk,
    );
    if name == "serve" {
        // Where nobody else has the folder by now, the file of the desk goes.
        let _held = is_held(rt, folder);
    }
    print_refusals(rt, &teller.tally);
    ending
}

/// Carries out a command that works over all packages of a folder, and answers how it ended; none
/// where a command of this name does not.
pub fn work(
    rt: &HostRuntime,
    name: &str,
    given: &ArgMatches<'_>,
    reader: &mut Input<'_>,
) -> Option<Ending> {
    let asked = asked_work(name, given)?;
    Some(match key_for(rt, name) {
        Ok(key) => work_under(rt, name, given, asked, key.as_str(), reader),
        Err(ending) => ending,
    })
}
