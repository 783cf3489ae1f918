//! The least rectangle of sheets of one zoom that covers a box.
ghost use Rattle.std.specs.Prelude.{◌≡◌, ◌≤ℤ◌, ◌<ℤ◌, ◌*ℤ◌, false, true, pos, IfSome, IfNone};
ghost use Rattle.std.specs.Prelude.{IsTrue};
ghost use Rattle.sheet_types.specs.Matrix.{has_level, is_good_frame};
ghost use Rattle.matrix_rules.specs.Axes.{IsAxis};
ghost use Rattle.command_boxes.specs.Covering.{IsLeastCover, IsStretch, can_cover, has_box};

use matrix_rules::axis::{Axes, Axis, axes_at};
use matrix_rules::ground::has_place;
use sheet_types::frame::{Frame, Ground, Rect};

/// The first and the last tile of an axis between which a stretch from `low` to `high` lies.
fn tiles_over(axis: Axis, low: i64, high: i64) -> (i64, i64)
    requires axis { IsAxis axis }
    requires stretch { (pos 0 ≤ℤ low) × (low <ℤ high) × (high ≤ℤ (axis.tiles *ℤ axis.span)) }
    ensures { IsStretch axis.tiles axis.span low high result.0 result.1 }
{
    (low / axis.span, (high - 1) / axis.span)
}

/// Whether a frame has a zoom: it has the first place of it.
fn has_zoom(frame: &Frame, zoom: i64) -> bool
    requires { IsTrue (is_good_frame frame.now) }
    ensures { result ≡ has_level frame.now zoom }
{
    has_place(frame, zoom, 0, 0)
}

/// Whether a box of some width and height lies on the ground of a frame.
fn has_box(frame: &Frame, ground: &Ground) -> bool
    ensures { result ≡ has_box frame.now ground.now }
{
    let lies = (frame.min_x <= ground.west)
        & (ground.east <= frame.max_x)
        & (frame.min_y <= ground.south)
        & (ground.north <= frame.max_y);
    lies & (ground.west < ground.east) & (ground.south < ground.north)
}

/// The least rectangle of a zoom of the frame that covers a box which lies on its ground.
fn least_cover(frame: &Frame, zoom: i64, ground: &Ground) -> Rect
    requires good { IsTrue (is_good_frame frame.now) }
    requires level { IsTrue (has_level frame.now zoom) }
    requires ground { IsTrue (has_box frame.now ground.now) }
    ensures { IsLeastCover frame.now zoom ground.now result }
{
    let Axes { across, down } = axes_at(frame, zoom);
    let (column, last_column) = tiles_over(
        across,
        ground.west - frame.min_x,
        ground.east - frame.min_x,
    );
    let (row, last_row) = tiles_over(down, frame.max_y - ground.north, frame.max_y - ground.south);
    Rect {
        zoom,
        column,
        last_column,
        row,
        last_row,
    }
}

/// The least rectangle of sheets of a zoom that covers a box; `None` where the frame has no such
/// zoom, or does not have all of the box, or there is nothing of it.
pub fn covering(frame: &Frame, zoom: i64, ground: &Ground) -> Option<Rect>
    requires { IsTrue (is_good_frame frame.now) }
    ensures some { IfSome result (IsLeastCover frame.now zoom ground.now) }
    ensures covered { IfSome result (λ _. can_cover frame.now zoom ground.now ≡ true) }
    ensures none { IfNone result (can_cover frame.now zoom ground.now ≡ false) }
{
    if !has_zoom(frame, zoom) || !has_box(frame, ground) {
        return None;
    }
    Some(least_cover(frame, zoom, ground))
}
