//! The map of a world, made whole and then written.
ghost use Rattle.std.specs.Prelude.{◌≡◌, IsTrue, string_bytes};
ghost use Rattle.sheet_types.specs.Matrix.{has_level, is_good_frame};
ghost use Rattle.view_map.specs.Worlds.{IsWorldMap};
ghost use Rattle.view_world.specs.Looks.{LeavesOpen};
ghost use Rattle.world.specs.Worlds.{TellsOf};
ghost use Rattle.views.specs.Printed.{IsPrinted, IsUntouched, LeavesUnprinted};

use crate::gathering::holders_of;
use crate::zooms::zoom_of;
use manifest_csv::sending::send;
use matrix_rules::check::FrameRules;
use package_tables::fault::Fault;
use sheet_types::frame::Frame;
use sqlite::Alter;
use std::alloc::Global;
use std::io::Write;
use view_map::maps::map_text;
use world::world::World;

/// Why a map was not printed.
#[derive(Clone, Copy, Debug, PartialEq, Eq)]
pub enum MapFault {
    /// The frame has no such zoom.
    NoSuchZoom,
    /// A growth was refused, or a store failed.
    Failed(Fault),
    /// The writer failed. A beginning of the map went out, and not all of it.
    Unwritten,
}

/// Whether a frame is good.
fn is_good(frame: &Frame) -> bool
    ensures { IsTrue result → IsTrue (is_good_frame frame.now) }
{
    frame.check().is_ok()
}

/// The map of a world at a zoom, as a text. The frame is that of the world.
fn world_map<S: Alter + Drop>(
    alloc: Global,
    world: &mut World<S>,
    frame: &Frame,
    zoom: i64,
) -> Result<String, Fault>
    requires own { frame.now ≡ world.old.frame }
    requires good { IsTrue (is_good_frame frame.now) }
    requires level { IsTrue (has_level frame.now zoom) }
    ensures told { TellsOf S.Store (λ w text. IsWorldMap w zoom (string_bytes text)) world.old world.new result }
    ensures read { IsUntouched S.Store world.old world.new }
    ensures opens { LeavesOpen S.Store world.old world.new result }
{
    let holders = holders_of(alloc, world, zoom)?;
    match map_text(alloc, frame, zoom, holders.as_slice()) {
        Ok(text) => Ok(text),
        Err(_) => Err(Fault::OutOfMemory),
    }
}

/// Writes the map of a world: who holds which sheets of the zoom that is asked for, or of the one
/// that is drawn where none is. The text is made whole before any of it is written.
///
/// # Errors
///
/// A zoom that the frame does not have, want of memory, a store or a writer that failed. The world is as before.
pub fn print_map<S: Alter + Drop, W: Write>(
    alloc: Global,
    world: &mut World<S>,
    asked: Option<i64>,
    writer: &mut W,
) -> Result<(), MapFault>
    ensures read { IsUntouched S.Store world.old world.new }
    ensures printed { IsPrinted S.Store asked world.old world.new (W.contents writer.old) (W.contents writer.new)
        result }
    ensures unprinted { LeavesUnprinted writer.old writer.new result }
    ensures opens { LeavesOpen S.Store world.old world.new result }
{
    let frame = world.frame();
    // The frame of a world is good, and is asked for that here since no call says so.
    if !is_good(&frame) {
        return Err(MapFault::Failed(Fault::StoreFault));
    }
    let Some(zoom) = zoom_of(&frame, asked) else {
        return Err(MapFault::NoSuchZoom);
    };
    let text = match world_map(alloc, world, &frame, zoom) {
        Ok(text) => text,
        Err(fault) => return Err(MapFault::Failed(fault)),
    };
    match send(writer, text.as_bytes()) {
        Ok(()) => Ok(()),
        Err(_) => Err(MapFault::Unwritten),
    }
}
