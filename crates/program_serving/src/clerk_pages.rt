//! What a clerk does over an open world that is no deed: it shows pages, projects, and what a command of several
//! requests would change, and makes the folder tidy.
ghost use Rattle.desk_http.specs.Connections.{IsServedBy};

use crate::clerk_input::Heard;
use crate::clerk_telling::{tell_noted, tell_unnamed, tell_usual};
use crate::clerk_words::Filled;
use clap::ArgMatches;
use command_desk::changing::{Showing, show_changes, show_drop};
use command_desk::frames::Frames;
use command_desk::pages::{show_page, show_project};
use command_field::asking::Ask;
use command_folder::endings::Ending;
use command_names::hints::Hint;
use command_naming::drops::Dropping;
use command_ordering::naming::package_in;
use command_words::statuses::{Outcome, What};
use commands::tidying::tidy_beside;
use program_output::clock::NewIdentities;
use program_words::hints::is_short;
use program_words::names::names_for;
use sheet_types::moments::is_moment;
use sheet_types::reading::read_uuid;
use sqlite::Alter;
use std::io::Write;
use store_shelf::shelf::Shelf;
use uuid::Uuid;
use view_page::pages::Paper;
use world::world::World;

/// A command that a clerk carries out: its words, and what they name and leave out.
#[derive(Clone, Copy)]
pub(crate) struct Errand<'e, 'm> {
    pub(crate) rt: &'e HostRuntime,
    pub(crate) folder: &'e str,
    pub(crate) name: &'e str,
    pub(crate) given: &'e ArgMatches<'m>,
    pub(crate) filled: &'m Filled,
}

/// The live package that a word names, by its UUID or by its first digits; or how the command ends without one.
fn package_named<'t, S: Alter + Drop, W: Write>(
    rt: &HostRuntime,
    world: &World<S>,
    word: &'t str,
    frames: &mut Frames<W>,
) -> (Result<Uuid, Ending>, Option<Hint<'t>>) {
    if is_short(word) {
        return package_in(rt.alloc(), world, word, frames);
    }
    match read_uuid(word) {
        Some(uuid) => (Ok(uuid), None),
        None => (Err(Ending::Usual(Outcome::Refused(What::BadUuid))), None),
    }
}

/// What is asked of the register: its map, its page, or that of a loan.
fn paper_in<'m, S: Alter + Drop, W: Write>(
    errand: &Errand<'_, 'm>,
    world: &World<S>,
    frames: &mut Frames<W>,
) -> (Result<Paper, Ending>, Option<Hint<'m>>) {
    if errand.name == "map" {
        return (Ok(Paper::Map), None);
    }
    if errand.given.get_str("package").is_none() {
        return (Ok(Paper::Whole), None);
    }
    let word = errand.filled.named.word.as_str();
    let (named, hint) = package_named(errand.rt, world, word, frames);
    match named {
        Ok(loan) => (Ok(Paper::Loan(loan)), None),
        Err(ending) => (Err(ending), hint),
    }
}

/// Writes a page or a drawing, with the names of the folder or of these bytes.
fn attend_paper<S: Alter + Drop, W: Write>(
    errand: &Errand<'_, '_>,
    world: &mut World<S>,
    paper: Paper,
    bytes: &[u8],
    frames: &mut Frames<W>,
)
    ensures { IsServedBy S.Store 1 world.old world.new }
{
    match names_for(errand.rt, errand.folder, errand.given, Some(bytes)) {
        Ok(names) => {
            let ending = show_page(errand.rt.alloc(), world, names, paper, &mut *frames);
            tell_usual(errand.rt, ending, &None, frames);
        }
        Err(why) => tell_unnamed(errand.rt, &why, frames),
    }
}

/// Writes the page or the drawing that is asked for.
pub(crate) fn attend_page<S: Alter + Drop, W: Write>(
    errand: &Errand<'_, '_>,
    world: &mut World<S>,
    bytes: &[u8],
    frames: &mut Frames<W>,
)
    ensures { IsServedBy S.Store 1 world.old world.new }
{
    let (paper, hint) = paper_in(errand, world, frames);
    match paper {
        Ok(paper) => attend_paper(errand, world, paper, bytes, frames),
        Err(ending) => tell_usual(errand.rt, ending, &hint, frames),
    }
}

/// Writes the QGIS project of an export, for a file of this name.
pub(crate) fn attend_project<S: Alter + Drop, W: Write>(
    errand: &Errand<'_, '_>,
    world: &mut World<S>,
    file: &str,
    frames: &mut Frames<W>,
)
    ensures { IsServedBy S.Store 1 world.old world.new }
{
    let word = errand.filled.named.word.as_str();
    let (named, hint) = package_named(errand.rt, world, word, frames);
    match named {
        Ok(package) => {
            let ending = show_project(errand.rt.alloc(), world, package, file, &mut *frames);
            tell_usual(errand.rt, ending, &None, frames);
        }
        Err(ending) => tell_usual(errand.rt, ending, &hint, frames),
    }
}

/// What the words of `changes` ask.
fn ask_in<'m, S: Alter + Drop, W: Write>(
    errand: &Errand<'_, 'm>,
    world: &World<S>,
    frames: &mut Frames<W>,
) -> (Result<Ask<'m>, Ending>, Option<Hint<'m>>) {
    let word = errand.filled.named.word.as_str();
    let (named, hint) = package_named(errand.rt, world, word, frames);
    let package = match named {
        Ok(package) => package,
        Err(ending) => return (Err(ending), hint),
    };
    let at = errand.filled.at.as_str();
    if !is_moment(at) {
        return (Err(Ending::Usual(Outcome::Refused(What::BadMoment))), None);
    }
    let more = errand.given.get_flag("more");
    (Ok(Ask { package, at, more }), None)
}

/// How they ask to be shown it.
fn showing_of(given: &ArgMatches<'_>) -> Showing {
    if given.get_flag("summary") {
        Showing::Summary
    } else {
        Showing::List
    }
}

/// Shows what an edited file changes, by the list of what it holds.
pub(crate) fn attend_changes<S: Alter + Drop, H: Shelf<S>, W: Write>(
    errand: &Errand<'_, '_>,
    world: &mut World<S>,
    shelf: &mut H,
    heard: Heard<'_>,
    frames: &mut Frames<W>,
)
    ensures { IsServedBy S.Store 1 world.old world.new }
{
    let rt = errand.rt;
    let (asked, hint) = ask_in(errand, world, frames);
    match asked {
        Ok(ask) => {
            let showing = showing_of(errand.given);
            let (ending, note) = show_changes(
                rt.alloc(),
                world,
                shelf,
                &ask,
                showing,
                heard,
                &mut *frames,
            );
            tell_noted(rt, ending, note, frames);
        }
        Err(ending) => tell_usual(rt, ending, &hint, frames),
    }
}

/// Shows the requests that drop an item, or why it stays.
pub(crate) fn attend_drop<S: Alter + Drop, H: Shelf<S>, W: Write>(
    errand: &Errand<'_, '_>,
    world: &mut World<S>,
    shelf: &mut H,
    frames: &mut Frames<W>,
)
    ensures { IsServedBy S.Store 1 world.old world.new }
{
    let rt = errand.rt;
    let dropping = Dropping {
        word: errand.filled.named.word.as_str(),
        at: errand.filled.at.as_str(),
        ends_links: errand.given.get_flag("yes"),
        is_shown: true,
    };
    let mut identities = NewIdentities { rt };
    let (ending, hint) = show_drop(
        rt.alloc(),
        world,
        shelf,
        &dropping,
        &mut identities,
        &mut *frames,
    );
    tell_usual(rt, ending, &hint, frames);
}

/// Takes out of the folder what its register can do without.
pub(crate) fn attend_tidy<S: Alter + Drop, W: Write>(
    errand: &Errand<'_, '_>,
    world: &mut World<S>,
    frames: &mut Frames<W>,
)
    ensures { IsServedBy S.Store 1 world.old world.new }
{
    let ending = tidy_beside(errand.rt, errand.folder, world, &mut *frames);
    tell_usual(errand.rt, ending, &None, frames);
}
