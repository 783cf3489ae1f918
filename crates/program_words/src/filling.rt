//! What the words of a command leave out: it is new, or of the clock.
use clap::ArgMatches;
use command_folder::endings::{Ending, FAILED, NO_MEMORY};
use command_words::statuses::{Outcome, What};
use program_output::clock::{moment_now, new_uuid};
use program_output::printing::tell_lack;
use sheet_types::reading::read_uuid;
use std::io;
use uuid::Uuid;

/// The UUID of an option, or a new one.
///
/// # Errors
///
/// How the program ends: the word is no UUID, there is no new one, or want of memory.
fn uuid_given(rt: &HostRuntime, given: &ArgMatches<'_>, id: &str) -> Result<Uuid, Ending> {
    match given.get_str(id) {
        Some(word) => match read_uuid(word) {
            Some(uuid) => Ok(uuid),
            None => Err(Ending::Usual(Outcome::Refused(What::BadUuid))),
        },
        None => match new_uuid(rt) {
            Ok(uuid) => Ok(uuid),
            Err(error) => Err(tell_lack(rt, "no new UUID", &error, FAILED)),
        },
    }
}

/// The text of an option, as it was typed, or of a new UUID.
///
/// # Errors
///
/// How the program ends: there is no new UUID, or want of memory.
pub fn uuid_text_given(
    rt: &HostRuntime,
    given: &ArgMatches<'_>,
    id: &str,
) -> Result<String, Ending> {
    let text = match given.get_str(id) {
        Some(word) => String::from_str(rt.alloc(), word),
        None => {
            let uuid = uuid_given(rt, given, id)?;
            format!(in rt.alloc(); "{uuid}")
        }
    };
    match text {
        Ok(text) => Ok(text),
        Err(_) => Err(NO_MEMORY),
    }
}

/// The moment of the option `--at`, as it was typed, or that of the clock.
///
/// # Errors
///
/// How the program ends: the clock tells no moment, or want of memory.
pub fn moment_given(rt: &HostRuntime, given: &ArgMatches<'_>) -> Result<String, Ending> {
    let moment = match given.get_str("at") {
        Some(word) => String::from_str(rt.alloc(), word).map_err(io::Error::from),
        None => moment_now(rt),
    };
    match moment {
        Ok(text) => Ok(text),
        Err(error) => Err(tell_lack(rt, "no moment", &error, FAILED)),
    }
}

/// The identities of a verb's request and of what it makes, and its moment: those that the options give, or new ones.
///
/// # Errors
///
/// How the program ends: a word is no UUID, what is new is not to be had, or want of memory.
pub fn given_or_new(
    rt: &HostRuntime,
    options: &ArgMatches<'_>,
) -> Result<(Uuid, Uuid, String), Ending> {
    let id = uuid_given(rt, options, "request")?;
    let identity = uuid_given(rt, options, "as")?;
    let at = moment_given(rt, options)?;
    Ok((id, identity, at))
}
