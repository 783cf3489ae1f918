//! A kept receipt of a world.
ghost use Rattle.views.specs.Views.{ShowsReceipt};

use crate::endings::Ending;
use crate::showing::show_found;
use sqlite::Alter;
use std::alloc::Global;
use std::io::Write;
use uuid::Uuid;
use view_world::receipts::receipt_line;
use world::world::World;

/// Writes the kept receipt of a request to a world, as the desk has it, on a line.
pub fn receipt_in<S: Alter + Drop, W: Write>(
    alloc: Global,
    world: &mut World<S>,
    request: Uuid,
    writer: &mut W,
) -> Ending
    ensures { ShowsReceipt S.Store request world.old world.new writer.old writer.new (W.contents writer.old)
        (W.contents writer.new) result }
{
    let found = receipt_line(alloc, world, request);
    show_found(writer, found, Ending::NoSuchRequest)
}
