//! The map of a world.
ghost use Rattle.std.specs.Prelude.{◌≡◌, Err};
ghost use Rattle.views.specs.MapEndings.{EndsMap, map_ending};

use crate::endings::Ending;
use crate::printing::{MapFault, print_map};
use command_folder::endings::{DONE, Ending as CommandEnding, FAILED};
use command_words::statuses::{Failure, Outcome};
use sqlite::Alter;
use std::alloc::Global;
use std::io::Write;
use world::world::World;

/// How a map that was not printed ends the program.
fn end_of_map(fault: MapFault) -> Ending
    ensures { result ≡ map_ending (Err fault) }
{
    match fault {
        MapFault::NoSuchZoom => Ending::NoSuchZoom,
        MapFault::Failed(fault) => {
            Ending::Usual(CommandEnding::Usual(Outcome::Stopped(Failure::from(fault))))
        }
        MapFault::Unwritten => Ending::Usual(FAILED),
    }
}

/// Prints the map of a world: of the zoom that is asked for, or of the one that is drawn where none is.
pub fn map_in<S: Alter + Drop, W: Write>(
    alloc: Global,
    world: &mut World<S>,
    zoom: Option<i64>,
    writer: &mut W,
) -> Ending
    ensures { EndsMap S.Store zoom world.old world.new writer.old writer.new (W.contents writer.old)
        (W.contents writer.new) result }
{
    match print_map(alloc, world, zoom, writer) {
        Ok(()) => Ending::Usual(DONE),
        Err(fault) => end_of_map(fault),
    }
}
