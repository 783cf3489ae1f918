//! What the words of a command ask of a desk: what they name and leave out, and the deed that they say.
use crate::wishes::{Wish, wish_of};
use clap::ArgMatches;
use command_desk::carrying::Report;
use command_desk::deeds::Deed;
use command_folder::endings::{Ending, FAILED};
use command_ordering::boxes::BoxedLoan;
use command_requests::orders::Order;
use command_words::statuses::{Outcome, What};
use program_orders::boxes::box_of;
use program_orders::purposes::{purpose_given, purpose_of};
use program_orders::verbs::{if_given, mode_of, verb_of};
use program_words::filling::{given_or_new, moment_given};
use program_words::kinds::is_verb;
use program_words::names::{Named, Unnamed, end_untold, named_words};
use sheet_types::reading::read_number;
use std::alloc::AllocError;
use uuid::Uuid;

/// A number is none.
const BAD_NUMBER: Ending = Ending::Usual(Outcome::Refused(What::BadNumber));

/// The number of a row that a word is.
fn row_number(word: &str) -> Option<u64> {
    match read_number(word) {
        Some(number) if number >= 0 => Some(number as u64),
        _ => None,
    }
}

/// The part of a report as which a request is told, where words ask for one.
fn report_of(words: &[&str]) -> Option<Report> {
    if words.len() == 1 && words[0] == "outcome" {
        return Some(Report::Outcome);
    }
    if words.len() == 2 && words[0] == "row" {
        let number = row_number(words[1])?;
        return Some(Report::Row(number));
    }
    None
}

/// The deed that words ask for which are no command of a command line: a client asks so for a part of one.
pub(crate) fn part_of(words: &[&str]) -> Option<Deed<'static>> {
    if words.len() == 1 && words[0] == "frame" {
        return Some(Deed::Frame);
    }
    let report = report_of(words)?;
    Some(Deed::Carry(report))
}

/// The words with the program's name before them, as they are matched.
pub(crate) fn whole_words<'b>(
    rt: &HostRuntime,
    words: &[&'b str],
) -> Result<Vec<&'b str>, AllocError> {
    let mut whole = Vec::new(rt.alloc());
    whole.push("sheetdesk")?;
    whole.extend_from_slice(words)?;
    Ok(whole)
}

/// What the words of a command name, and what they leave out: that is new, or of the clock.
#[derive(Drop)]
pub(crate) struct Filled {
    pub(crate) named: Named,
    pub(crate) id: Uuid,
    pub(crate) identity: Uuid,
    pub(crate) at: String,
}

/// The same where nothing is left out but a moment.
fn fill_moment(named: Named, at: String) -> Filled {
    Filled {
        named,
        id: Uuid::nil(),
        identity: Uuid::nil(),
        at,
    }
}

/// What the words of a verb name and leave out.
fn fill_verb(rt: &HostRuntime, named: Named, options: &ArgMatches<'_>) -> Result<Filled, Ending> {
    let (id, identity, at) = given_or_new(rt, options)?;
    Ok(Filled {
        named,
        id,
        identity,
        at,
    })
}

/// The box of a loan, where one is given.
fn box_given<'m>(name: &str, given: &ArgMatches<'m>) -> Option<&'m str> {
    if name == "lend" {
        given.get_str("box")
    } else {
        None
    }
}

/// Whether the numbers of a box are numbers, where one is given.
fn is_box_read(name: &str, given: &ArgMatches<'_>) -> bool {
    match box_given(name, given) {
        Some(words) => box_of(given, words).is_some(),
        None => true,
    }
}

/// What the words leave out, of a verb, of a command of several requests, or of another.
fn fill_named(
    rt: &HostRuntime,
    name: &str,
    given: &ArgMatches<'_>,
    named: Named,
) -> Result<Filled, Ending> {
    match name {
        "changes" | "bring" | "drop" => {
            let at = moment_given(rt, given)?;
            Ok(fill_moment(named, at))
        }
        _ if !is_verb(name) => Ok(fill_moment(named, String::new(rt.alloc()))),
        _ if !is_box_read(name, given) => Err(BAD_NUMBER),
        _ => match given.subcommand() {
            Some((_, options)) => fill_verb(rt, named, options),
            None => fill_verb(rt, named, given),
        },
    }
}

/// What the words of a command name and leave out. The bytes are those of the file of names that they may name.
pub(crate) fn fill(
    rt: &HostRuntime,
    folder: &str,
    name: &str,
    given: &ArgMatches<'_>,
    bytes: &[u8],
) -> Result<Filled, Unnamed> {
    let named = named_words(rt, folder, name, given, Some(bytes))?;
    match fill_named(rt, name, given, named) {
        Ok(filled) => Ok(filled),
        Err(ending) => Err(end_untold(rt, ending)),
    }
}

/// The loan of what covers the box of these words.
fn box_deed<'m>(
    given: &ArgMatches<'m>,
    filled: &'m Filled,
    words: &str,
) -> Result<Deed<'m>, Ending> {
    let Some((ground, zoom)) = box_of(given, words) else {
        return Err(BAD_NUMBER);
    };
    let boxed = BoxedLoan {
        id: filled.id,
        at: filled.at.as_str(),
        from: if_given(given, "first", filled.named.word.as_str()),
        zoom,
        ground,
        mode: mode_of(given),
        loan: filled.identity,
    };
    Ok(Deed::LendBox(boxed, purpose_of(given)))
}

/// The deed of a verb.
fn verb_deed<'m>(
    name: &str,
    given: &ArgMatches<'m>,
    filled: &'m Filled,
) -> Result<Deed<'m>, Ending> {
    let Some(verb) = verb_of(name, given, &filled.named, filled.identity) else {
        return Err(FAILED);
    };
    let order = Order {
        id: filled.id,
        at: filled.at.as_str(),
        verb,
    };
    Ok(Deed::Order(order, purpose_given(given)))
}

/// The deed of a command that changes something.
fn work_deed<'m>(
    name: &str,
    given: &ArgMatches<'m>,
    filled: &'m Filled,
) -> Result<Deed<'m>, Ending> {
    if name == "apply" {
        return Ok(Deed::Apply);
    }
    match box_given(name, given) {
        Some(words) => box_deed(given, filled, words),
        None => verb_deed(name, given, filled),
    }
}

/// The deed of a command, of those that `command_desk::deeds` carries out.
pub(crate) fn deed_of<'m>(
    name: &str,
    given: &ArgMatches<'m>,
    filled: &'m Filled,
) -> Result<Deed<'m>, Ending> {
    match wish_of(name, given, filled.named.word.as_str()) {
        Some(Wish::Asked(asked)) => Ok(Deed::Look(asked)),
        Some(Wish::Named(asked)) => Ok(Deed::Named(asked)),
        None => work_deed(name, given, filled),
    }
}
