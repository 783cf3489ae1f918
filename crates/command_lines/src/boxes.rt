//! The word for the least area that covers a box.
ghost use Rattle.std.specs.Prelude.{IfOk, IsTrue, option_map, string_bytes};
ghost use Rattle.sheet_types.specs.Matrix.{is_good_frame};
ghost use Rattle.command_lines.specs.Boxes.{IsAreaOver};

use crate::trees::area_word;
use command_boxes::covering::covering;
use sheet_types::error::OutOfMemory;
use sheet_types::frame::{Frame, Ground};
use std::alloc::Global;

/// The word for the least area of a zoom that covers a box; `None` where the frame has no such
/// zoom, or does not have all of the box, or there is nothing of it.
///
/// # Errors
///
/// Want of memory.
pub fn area_over(
    alloc: Global,
    frame: &Frame,
    zoom: i64,
    ground: &Ground,
) -> Result<Option<String>, OutOfMemory>
    requires { IsTrue (is_good_frame frame.now) }
    ensures { IfOk result (λ word. IsAreaOver frame.now zoom ground.now (option_map string_bytes word)) }
{
    let Some(rect) = covering(frame, zoom, ground) else {
        return Ok(None);
    };
    match area_word(alloc, &rect) {
        Ok(word) => Ok(Some(word)),
        Err(error) => Err(error),
    }
}
