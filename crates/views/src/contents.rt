//! What stands in an item of a world.
ghost use Rattle.std.specs.Prelude.{Ok};
ghost use Rattle.views.specs.Contents.{Gets, ShowsData, TellsUnfound, named};
ghost use Rattle.views.specs.Showing.{PrintsAll};

use crate::endings::Ending;
use crate::showing::fault_ending;
use command_folder::endings::{DONE, Ending as CommandEnding, FAILED, NO_MEMORY};
use command_requests::contents::named_data;
use command_verbs::faults::verb_line;
use command_verbs::names::NameFault;
use command_verbs::verbs::VerbFault;
use manifest_csv::sending::send;
use sqlite::Alter;
use std::alloc::Global;
use std::io::Write;
use world::world::World;

/// Writes the line by which a word names no item.
fn tell_unfound<W: Write>(alloc: Global, fault: NameFault, writer: &mut W) -> Ending
    ensures { TellsUnfound writer.old writer.new (W.contents writer.old) (W.contents writer.new) fault result }
{
    let Ok(line) = verb_line(alloc, &VerbFault::Unfound(fault)) else {
        return Ending::Usual(NO_MEMORY);
    };
    match send(writer, line.as_bytes()) {
        Ok(()) => Ending::Usual(CommandEnding::NoRequest),
        Err(_) => Ending::Usual(FAILED),
    }
}

/// Writes what was found.
fn show_bytes<W: Write>(writer: &mut W, bytes: &[u8]) -> Ending
    ensures { PrintsAll bytes.now (W.contents writer.old) (W.contents writer.new) result }
{
    match send(writer, bytes) {
        Ok(()) => Ending::Usual(DONE),
        Err(_) => Ending::Usual(FAILED),
    }
}

/// Writes what was found, or the line by which a word names no item.
fn show_named<W: Write>(alloc: Global, found: Result<Vec<u8>, NameFault>, writer: &mut W) -> Ending
    ensures { ShowsData writer.old writer.new (W.contents writer.old) (W.contents writer.new)
        (Ok (named found (λ bytes. bytes.items))) result }
{
    match found {
        Ok(bytes) => show_bytes(writer, bytes.as_slice()),
        Err(fault) => tell_unfound(alloc, fault, writer),
    }
}

/// Writes what stands in the item that a word names: the bytes of a tile or a medium, the label of a mark.
pub fn get_in<S: Alter + Drop, W: Write>(
    alloc: Global,
    world: &mut World<S>,
    word: &str,
    writer: &mut W,
) -> Ending
    ensures { Gets S.Store word.now world.old world.new writer.old writer.new (W.contents writer.old)
        (W.contents writer.new) result }
{
    match named_data(alloc, world, word) {
        Ok(found) => show_named(alloc, found, writer),
        Err(fault) => fault_ending(fault),
    }
}
