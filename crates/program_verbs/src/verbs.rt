//! Commands for people that change what is in a folder, by their names.
use crate::boxes::lend_box;
use crate::dropping::drop_item;
use crate::founding::found_archive;
use crate::ordering::carry_out_verb;
use crate::tidying::tidy_folder;
use crate::trees::put_tree;
use clap::ArgMatches;
use command_folder::endings::Ending;
use program_output::streams::Input;
use program_words::kinds::is_verb;
use program_words::names::Named;

/// Adds the tiles of a tree, or an item.
fn put<'m>(
    rt: &HostRuntime,
    given: &ArgMatches<'m>,
    named: &'m Named,
    reader: &mut Input<'_>,
) -> Ending {
    match given.subcommand() {
        Some((kind, words)) if kind == "tiles" => {
            put_tree(rt, given, words, named.word.as_str())
        }
        _ => carry_out_verb(rt, "put", given, named, reader),
    }
}

/// Lends the sheets that cover a box, or those of an area.
fn lend<'m>(
    rt: &HostRuntime,
    given: &ArgMatches<'m>,
    named: &'m Named,
    reader: &mut Input<'_>,
) -> Ending {
    match given.get_str("box") {
        Some(words) => lend_box(rt, given, named.word.as_str(), words),
        None => carry_out_verb(rt, "lend", given, named, reader),
    }
}

/// Carries out a verb, `drop`, `init` or `tidy`, over what it reads, and answers how it ended; none where a command of
/// this name is none of them.
pub fn carry_out<'m>(
    rt: &HostRuntime,
    name: &str,
    given: &ArgMatches<'m>,
    named: &'m Named,
    reader: &mut Input<'_>,
) -> Option<Ending> {
    match name {
        "init" => Some(found_archive(rt, given)),
        "tidy" => Some(tidy_folder(rt, given)),
        "drop" => Some(drop_item(rt, given, named.word.as_str())),
        "put" => Some(put(rt, given, named, reader)),
        "lend" => Some(lend(rt, given, named, reader)),
        _ if is_verb(name) => Some(carry_out_verb(rt, name, given, named, reader)),
        _ => None,
    }
}
