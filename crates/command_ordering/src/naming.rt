//! The package of a folder that a word names by its first digits.
ghost use Rattle.std.specs.Prelude.{Ok};
ghost use Rattle.command_ordering.specs.Naming.{NamesFor, NamesPackage, TellsName};

use crate::telling::{fault_ending, tell_fault};
use command_folder::endings::Ending;
use command_folder::folders::{OpenFolder, open_folder};
use command_names::hints::{Hint, Whose};
use command_names::searching::Found;
use command_searches::hints::hint_of;
use command_searches::searches::found_package;
use command_verbs::names::NameFault;
use command_verbs::verbs::VerbFault;
use package_tables::fault::Fault;
use sqlite::Alter;
use sqlite_trees::store::Store;
use std::alloc::Global;
use std::io::Write;
use store_folder::opening::close_stores;
use store_folder::start::FolderStore;
use uuid::Uuid;
use world::world::World;

/// The package that is found; or how the program ends without one. Of two both are told.
fn tell_found<'t, W: Write>(
    alloc: Global,
    word: &'t str,
    found: Found,
    writer: &mut W,
) -> (Result<Uuid, Ending>, Option<Hint<'t>>)
    ensures { TellsName writer.old writer.new (W.contents writer.old) (W.contents writer.new)
        word.entry (Ok found) result.0 result.1 }
{
    match found {
        Found::One(id) => (Ok(id), None),
        Found::Two(first, second) => {
            let fault = VerbFault::Unnamed(NameFault::Two(first, second));
            let ending = tell_fault(alloc, &fault, writer);
            (Err(ending), None)
        }
        Found::Nearest(_) => {
            let hint = hint_of(Whose::Package, word, found);
            (Err(Ending::NoSuchPackage), hint)
        }
    }
}

/// The package that was found for a word; or how the program ends without one.
fn tell_name<'t, W: Write>(
    alloc: Global,
    word: &'t str,
    search: &Result<Found, Fault>,
    writer: &mut W,
) -> (Result<Uuid, Ending>, Option<Hint<'t>>)
    ensures { TellsName writer.old writer.new (W.contents writer.old) (W.contents writer.new)
        word.entry search.now result.0 result.1 }
{
    match search {
        Ok(found) => tell_found(alloc, word, *found, writer),
        Err(fault) => (Err(fault_ending(*fault)), None),
    }
}

/// The live package of a world that a word names; or how the program ends without one. Where the word names none,
/// what comes nearest is told beside it.
pub fn package_in<'t, S: Alter + Drop, W: Write>(
    alloc: Global,
    world: &World<S>,
    word: &'t str,
    writer: &mut W,
) -> (Result<Uuid, Ending>, Option<Hint<'t>>)
    ensures { NamesPackage S.Store word.entry world.now writer.old writer.new
        (W.contents writer.old) (W.contents writer.new) result.0 result.1 }
{
    let search = found_package(alloc, world, word);
    tell_name(alloc, word, &search, writer)
}

/// Opens a folder, and answers the package of its that a word names.
pub fn package_for<'t, W: Write>(
    rt: &HostRuntime,
    folder: &str,
    word: &'t str,
    writer: &mut W,
) -> (Result<Uuid, Ending>, Option<Hint<'t>>)
    ensures { NamesFor ⟦<FolderStore as Store>⟧ word.entry writer.old writer.new
        (W.contents writer.old) (W.contents writer.new) result.0 result.1 }
{
    match open_folder(rt, folder) {
        Ok(
            OpenFolder {
                world,
                lock: _lock,
                ..
            },
        ) => {
            let (named, hint) = package_in(rt.alloc(), &world, word, writer);
            close_stores(world.into_stores());
            (named, hint)
        }
        Err(fault) => (Err(Ending::Unopened(fault)), None),
    }
}
