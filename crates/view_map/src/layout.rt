//! How large a map is: the places of a zoom, and the size at which each is drawn.
ghost use Rattle.std.specs.Prelude.{◌≡◌, ◌*◌, ◌≤◌, ℕ, IsTrue};
ghost use Rattle.sheet_types.specs.Matrix.{is_good_frame, has_level};
ghost use Rattle.view_map.specs.Layout.{IsLayout, is_on, layout_of, side};

use crate::holders::Place;
use matrix_rules::axis::axes_at;
use sheet_types::frame::Frame;

/// The places of a zoom, and the width and the height of each in units of the picture.
#[derive(Clone, Copy, PartialEq, Eq)]
pub struct Layout {
    pub columns: u64,
    pub rows: u64,
    /// The width of a place.
    pub width: u64,
    /// The height of a place.
    pub height: u64,
}

/// A side of a place whose shorter side is 24 units, by the two sides of a tile on the ground, both above 0.
fn side(own: u64, other: u64) -> u64
    requires own { 1 ≤ own × own ≤ 2000000000000 }
    requires other { 1 ≤ other }
    ensures side { result ≡ side own other }
    ensures least { 24 ≤ result }
{
    24 * own / own.min(other)
}

/// The layout of a zoom that the frame has. Places are drawn as they lie on the ground, the shorter
/// side 24 units long, the other to a whole unit.
pub fn layout_of(frame: &Frame, zoom: i64) -> Layout
    requires good { IsTrue (is_good_frame frame.now) }
    requires level { IsTrue (has_level frame.now zoom) }
    ensures layout { result ≡ layout_of frame.now zoom }
    ensures fits { IsLayout result }
{
    let axes = axes_at(frame, zoom);
    let across = axes.across.span.unsigned_abs();
    let down = axes.down.span.unsigned_abs();
    Layout {
        columns: axes.across.tiles.unsigned_abs(),
        rows: axes.down.tiles.unsigned_abs(),
        width: side(across, down),
        height: side(down, across),
    }
}

/// Whether the zoom has this place.
pub fn is_on(layout: &Layout, place: &Place) -> bool
    ensures { result ≡ is_on layout.now place.now }
{
    (place.column < layout.columns) & (place.row < layout.rows)
}
