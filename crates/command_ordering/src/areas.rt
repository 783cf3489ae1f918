//! The least area of a world's frame that covers a box.
ghost use Rattle.std.specs.Prelude.{IfOk, option_map, string_bytes};
ghost use Rattle.command_lines.specs.Boxes.{IsAreaOver};

use command_lines::boxes::area_over;
use package_tables::fault::Fault;
use sheet_types::frame::Ground;
use sqlite::Alter;
use std::alloc::Global;
use world::world::World;

/// The word for the least area of a zoom that covers a box; `None` where the frame has no such zoom, or does not
/// have all of the box, or there is nothing of it.
///
/// # Errors
///
/// Want of memory, or a world that has failed.
pub(crate) fn area_in<S: Alter + Drop>(
    alloc: Global,
    world: &World<S>,
    zoom: i64,
    ground: &Ground,
) -> Result<Option<String>, Fault>
    ensures { IfOk result (λ word. IsAreaOver world.now.frame zoom ground.now (option_map string_bytes word)) }
{
    if world.has_failed() {
        return Err(Fault::StoreFault);
    }
    let frame = world.frame();
    match area_over(alloc, &frame, zoom, ground) {
        Ok(word) => Ok(word),
        Err(_) => Err(Fault::OutOfMemory),
    }
}
