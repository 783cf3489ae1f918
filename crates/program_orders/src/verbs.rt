//! The verb that the words of a command say.
use clap::ArgMatches;
use command_verbs::verbs::{Mark, Verb};
use program_output::options::text_of;
use program_words::names::Named;
use sheet_types::command::Mode;
use uuid::Uuid;

/// What `put` adds to a package, by the kind that its words begin with.
fn put_verb<'m>(given: &ArgMatches<'m>, package: &'m str, identity: Uuid) -> Option<Verb<'m>> {
    let (kind, words) = given.subcommand()?;
    match kind {
        "tile" => Some(Verb::PutTile {
            package,
            place: text_of(words, "place"),
            identity,
        }),
        "media" => Some(Verb::PutMedium {
            package,
            content_type: words.get_str("type"),
            identity,
        }),
        _ => Some(Verb::PutMark {
            package,
            mark: Mark {
                point: text_of(words, "point"),
                code: text_of(words, "code"),
                label: text_of(words, "label"),
            },
            identity,
        }),
    }
}

/// Whether a loan takes along what belongs to other sheets too: `--follow` says so.
pub fn mode_of(given: &ArgMatches<'_>) -> Mode {
    if given.get_flag("follow") {
        Mode::Follow
    } else {
        Mode::Strict
    }
}

/// A word, where one of this id was given.
pub fn if_given<'m>(given: &ArgMatches<'_>, id: &str, word: &'m str) -> Option<&'m str> {
    if given.contains_id(id) {
        Some(word)
    } else {
        None
    }
}

/// The loan that the words ask for. One word is the area; of two the first is the package that lends.
fn lend_verb<'m>(given: &ArgMatches<'m>, giver: &'m str, loan: Uuid) -> Verb<'m> {
    let (from, area) = match given.get_str("second") {
        Some(area) => (Some(giver), area),
        None => (None, text_of(given, "first")),
    };
    Verb::Lend {
        from,
        area,
        mode: mode_of(given),
        loan,
    }
}

/// The verb of a command, if its name is that of one. What it makes gets this identity.
pub fn verb_of<'m>(
    name: &str,
    given: &ArgMatches<'m>,
    named: &'m Named,
    identity: Uuid,
) -> Option<Verb<'m>> {
    let word = named.word.as_str();
    let other = named.other.as_str();
    match name {
        "put" => put_verb(given, word, identity),
        "lend" => Some(lend_verb(given, word, identity)),
        "return" => Some(Verb::Return { loan: word }),
        "join" => Some(Verb::Join {
            first: word,
            second: other,
        }),
        "part" => Some(Verb::Part {
            first: word,
            second: other,
        }),
        _ => None,
    }
}
