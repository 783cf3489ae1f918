//! What is looked at of the package that a word names.
ghost use Rattle.std.specs.Prelude.{◌≡◌, Ok};
ghost use Rattle.command_named.specs.Packages.{ShowsFound, ShowsPackage, look_of};

use crate::telling::tell_fault;
use command_folder::endings::Ending as CommandEnding;
use command_names::hints::{Hint, Whose};
use command_names::searching::Found;
use command_searches::hints::hint_of;
use command_searches::searches::found_package;
use command_verbs::names::NameFault;
use command_verbs::verbs::VerbFault;
use sqlite::{Alter, Connection};
use std::alloc::Global;
use std::io::Write;
use uuid::Uuid;
use views::endings::Ending;
use views::looking::{Look, look_in};
use views::showing::fault_ending;
use world::world::World;

/// What is looked at of a package.
#[derive(Clone, Copy, Debug, PartialEq, Eq)]
pub enum PackageLook {
    Manifest,
    Export,
}

/// The look at this package.
pub fn look_of<'t>(what: PackageLook, id: Uuid) -> Look<'t>
    ensures { result ≡ look_of what id }
{
    match what {
        PackageLook::Manifest => Look::Manifest(id),
        PackageLook::Export => Look::Export(id),
    }
}

/// Prints what is looked at of the package that was found. Of two both are told; of none what comes
/// nearest is told beside.
fn show_found<'t, S: Alter + Drop, W: Write>(
    alloc: Global,
    world: World<S>,
    what: PackageLook,
    word: &'t str,
    found: Found,
    writer: &mut W,
) -> (Ending, Option<Hint<'t>>, Vec<Connection<S>>)
    ensures { ShowsFound S.Store what word.entry world result.2.items (Ok found) writer.old writer.new
        (W.contents writer.old) (W.contents writer.new) result.0 result.1 }
{
    match found {
        Found::One(id) => {
            let (ending, stores) = look_in(alloc, world, 0, &look_of(what, id), writer);
            (ending, None, stores)
        }
        Found::Two(first, second) => {
            let fault = VerbFault::Unnamed(NameFault::Two(first, second));
            let ending = tell_fault(alloc, &fault, writer);
            (ending, None, world.into_stores())
        }
        Found::Nearest(_) => {
            let hint = hint_of(Whose::Package, word, found);
            let ending = Ending::Usual(CommandEnding::NoSuchPackage);
            (ending, hint, world.into_stores())
        }
    }
}

/// Prints what is looked at of the live package that a word names. The stores of the world are handed on. Where the
/// word names none, what comes nearest is told beside it.
pub fn package_in<'t, S: Alter + Drop, W: Write>(
    alloc: Global,
    world: World<S>,
    what: PackageLook,
    word: &'t str,
    writer: &mut W,
) -> (Ending, Option<Hint<'t>>, Vec<Connection<S>>)
    ensures { ShowsPackage S.Store what word.entry world result.2.items writer.old writer.new
        (W.contents writer.old) (W.contents writer.new) result.0 result.1 }
{
    match found_package(alloc, &world, word) {
        Ok(found) => show_found(alloc, world, what, word, found, writer),
        Err(fault) => (fault_ending(fault), None, world.into_stores()),
    }
}
