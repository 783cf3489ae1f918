//! The frame of a register, by which who adds a tree turns the rows about that run upwards.
ghost use Rattle.std.specs.Prelude.{◌≡◌, IfOk, string_bytes};
ghost use Rattle.sheet_types.specs.Reading.{frame_text};
ghost use Rattle.command_folder.specs.Endings.{done};
ghost use Rattle.command_ordering.specs.Orders.{PrintsLine};

use command_folder::endings::{DONE, Ending, NO_MEMORY};
use command_folder::printing::print;
use sheet_types::frame::Frame;
use sqlite::Alter;
use std::alloc::{AllocError, Global};
use std::io::Write;
use world::world::World;

/// The eleven numbers of a frame, as it is given to `init`.
fn frame_text(alloc: Global, frame: &Frame) -> Result<String, AllocError>
    ensures { IfOk result (λ text. string_bytes text ≡ frame_text frame.now) }
{
    let srs_id = frame.srs_id;
    let west = frame.min_x;
    let south = frame.min_y;
    let east = frame.max_x;
    let north = frame.max_y;
    let width = frame.tile_width;
    let height = frame.tile_height;
    let zoom = frame.first_zoom;
    let levels = frame.levels;
    let columns = frame.matrix_width;
    let rows = frame.matrix_height;
    format!(in alloc;
        "{srs_id},{west},{south},{east},{north},{width},{height},{zoom},{levels},{columns},{rows}"
    )
}

/// Prints the frame of a world.
pub(crate) fn tell_frame<S: Alter + Drop, W: Write>(
    alloc: Global,
    world: &World<S>,
    writer: &mut W,
) -> Ending
    ensures { PrintsLine writer.old writer.new (W.contents writer.old) (W.contents writer.new)
        (frame_text world.now.frame) done result }
{
    let frame = world.frame();
    match frame_text(alloc, &frame) {
        Ok(text) => print(writer, text.as_str(), DONE),
        Err(_) => NO_MEMORY,
    }
}
