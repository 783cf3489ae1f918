//! What a command wishes to look at.
use clap::ArgMatches;
use command_named::looking::NamedLook;
use program_orders::verbs::if_given;
use program_output::options::text_of;
use program_words::hints::is_short;
use view_json::forms::Form;
use views::excerpts::LogWords;
use views::looking::Asked;

/// What is to be looked at.
#[derive(Clone, Copy)]
pub enum Wish<'t> {
    /// What the words say.
    Asked(Asked<'t>),
    /// What goes by a word, as its first digits or in full.
    Named(NamedLook<'t>),
}

/// In which form a command that looks is to tell.
fn form_of(given: &ArgMatches<'_>) -> Form {
    if given.get_flag("json") {
        Form::Json
    } else {
        Form::Table
    }
}

/// What a command asks to look at by a word that names it, if it does. A whole UUID names itself, and needs no search.
fn named_look<'m>(name: &str, given: &ArgMatches<'_>, word: &'m str) -> Option<NamedLook<'m>> {
    match name {
        "get" => Some(NamedLook::Get(word)),
        "explain" if is_short(word) => Some(NamedLook::Explain(form_of(given), word)),
        "manifest" if is_short(word) => Some(NamedLook::Manifest(word)),
        "export" if is_short(word) => Some(NamedLook::Export(word)),
        _ => None,
    }
}

/// What a command asks to look at, by the word that names it, if it looks at a folder.
fn asked_look<'m>(name: &str, given: &ArgMatches<'m>, word: &'m str) -> Option<Asked<'m>> {
    match name {
        "status" => Some(Asked::Status(form_of(given))),
        "log" => Some(Asked::Log(
            form_of(given),
            LogWords {
                package: if_given(given, "package", word),
                from: given.get_str("from"),
                last: given.get_str("last"),
            },
        )),
        "explain" => Some(Asked::Explain(form_of(given), word)),
        "receipt" => Some(Asked::Receipt(text_of(given, "request"))),
        "manifest" => Some(Asked::Manifest(word)),
        "export" => Some(Asked::Export(word)),
        "map" => Some(Asked::Map(given.get_str("zoom"))),
        "audit" => Some(Asked::Audit),
        _ => None,
    }
}

/// What a command wishes to look at, by a name or by its words, if it looks at a folder. `word` is the package or the
/// item that its words name.
pub fn wish_of<'m>(name: &str, given: &ArgMatches<'m>, word: &'m str) -> Option<Wish<'m>> {
    match named_look(name, given, word) {
        Some(asked) => Some(Wish::Named(asked)),
        None => match asked_look(name, given, word) {
            Some(asked) => Some(Wish::Asked(asked)),
            None => None,
        },
    }
}
