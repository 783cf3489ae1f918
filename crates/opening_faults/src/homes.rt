//! Whether a loan is where its split says.
ghost use Rattle.std.specs.Prelude.{◌≡◌, ◌↔◌, ◌+◌, IsTrue, Some, true, false};
ghost use Rattle.sheet_types.specs.Opening.{IsBelow};
ghost use Rattle.opening_faults.specs.Frames.{HasGroundOf, HasTilesOf};
ghost use Rattle.opening_faults.specs.Sights.{head_said, head_seen, frame_seen, IsApart, IsAtHomeIn};

use crate::sights::{Sight, StoreHead};
use sheet_types::frame::Frame;

// Whether a head names another as its parent.
fn names_parent(above: &StoreHead, below: &StoreHead) -> bool
    ensures { IsTrue result ↔ (below.now.parent ≡ Some above.now.uuid) }
{
    below.parent == Some(above.uuid)
}

// Whether a head stands one level below another.
fn is_one_below(above: &StoreHead, below: &StoreHead) -> bool
    ensures { IsTrue result ↔ (below.now.depth ≡ above.now.depth + 1) }
{
    above.depth < below.depth && below.depth - above.depth == 1
}

/// Whether a store names another as its parent and stands one level below it; not so where it has no head.
pub fn is_below(above: &StoreHead, below: &Sight) -> bool
    ensures { IsTrue result ↔ IsBelow (Some (head_said above.now)) (head_seen below.now) }
{
    match &below.head {
        Some(below) => names_parent(above, below) && is_one_below(above, below),
        None => false,
    }
}

// Whether two frames lie in one reference system and have the same edges.
fn has_ground_of(frame: &Frame, other: &Frame) -> bool
    ensures { IsTrue result ↔ HasGroundOf frame.now other.now }
{
    frame.srs_id == other.srs_id
        && frame.min_x == other.min_x
        && frame.min_y == other.min_y
        && frame.max_x == other.max_x
        && frame.max_y == other.max_y
}

// Whether two frames are cut into tiles in one way.
fn has_tiles_of(frame: &Frame, other: &Frame) -> bool
    ensures { IsTrue result ↔ HasTilesOf frame.now other.now }
{
    frame.tile_width == other.tile_width
        && frame.tile_height == other.tile_height
        && frame.first_zoom == other.first_zoom
        && frame.levels == other.levels
        && frame.matrix_width == other.matrix_width
        && frame.matrix_height == other.matrix_height
}

// Whether two stores have one frame.
fn has_frame_of(sight: &Sight, root: &Sight) -> bool
    ensures { IsTrue result ↔ (frame_seen sight.now ≡ frame_seen root.now) }
{
    has_ground_of(&sight.frame, &root.frame) && has_tiles_of(&sight.frame, &root.frame)
}

/// Whether a loan has another frame than the archive's store, or does not stand one level below the store of its split.
pub fn is_apart(root: &Sight, above: &StoreHead, loan: &Sight) -> bool
    ensures yes { result ≡ true → IsApart root.now above.now loan.now }
    ensures no { result ≡ false → IsAtHomeIn root.now above.now loan.now }
{
    if has_frame_of(loan, root) {
        !is_below(above, loan)
    } else {
        true
    }
}
