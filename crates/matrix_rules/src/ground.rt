//! The ground of tiles and of rectangles, and what lies inside.
ghost use Rattle.std.specs.Prelude.{◌≡◌, IsTrue};
ghost use Rattle.sheet_types.specs.Matrix.{is_good_frame, has_level, has_place, block_ground, tile_ground};
ghost use Rattle.sheet_types.specs.Matrix.{is_good_rect, lies_within, tile_inside, has_point, point_inside, in_frame};
ghost use Rattle.sheet_types.specs.Matrix.{one_tile};
ghost use Rattle.matrix_rules.specs.Axes.{IsOffset};
ghost use Rattle.matrix_rules.specs.Places.{offsets};

use crate::axis::axes_at;
use sheet_types::frame::{Frame, Ground, Rect};

pub(crate) fn has_level(frame: &Frame, zoom: i64) -> bool
    requires { IsTrue (is_good_frame frame.now) }
    ensures { result ≡ has_level frame.now zoom }
{
    let end = frame.first_zoom + frame.levels;
    (frame.first_zoom <= zoom) & (zoom < end)
}

/// Whether there is such a tile: the frame has the zoom, and the column and the row are among its.
pub fn has_place(frame: &Frame, zoom: i64, column: i64, row: i64) -> bool
    requires { IsTrue (is_good_frame frame.now) }
    ensures { result ≡ has_place frame.now zoom column row }
{
    if !has_level(frame, zoom) {
        return false;
    }
    let axes = axes_at(frame, zoom);
    (0 <= column) & (column < axes.across.tiles) & (0 <= row) & (row < axes.down.tiles)
}

/// Whether both ends of the rectangle are places, the first not past the last.
pub fn is_good(frame: &Frame, rect: &Rect) -> bool
    requires { IsTrue (is_good_frame frame.now) }
    ensures { result ≡ is_good_rect frame.now rect.now }
{
    let first = has_place(frame, rect.zoom, rect.column, rect.row);
    let last = has_place(frame, rect.zoom, rect.last_column, rect.last_row);
    first & last & (rect.column <= rect.last_column) & (rect.row <= rect.last_row)
}

/// Where the ground of a rectangle begins and ends along both axes of its frame.
#[derive(Clone, Copy)]
pub(crate) struct Offsets {
    /// From the western edge of the frame.
    pub(crate) west: i64,
    /// From the western edge of the frame.
    pub(crate) east: i64,
    /// From the northern edge of the frame.
    pub(crate) north: i64,
    /// From the northern edge of the frame.
    pub(crate) south: i64,
}

/// The offsets of a good rectangle.
pub(crate) fn offsets_of(frame: &Frame, rect: &Rect) -> Offsets
    requires good { IsTrue (is_good_frame frame.now) }
    requires rect { IsTrue (is_good_rect frame.now rect.now) }
    ensures offsets { result ≡ offsets frame.now rect.now }
    ensures columns { IsOffset result.west × IsOffset result.east }
    ensures rows { IsOffset result.north × IsOffset result.south }
{
    let axes = axes_at(frame, rect.zoom);
    Offsets {
        west: axes.across.start_of(rect.column),
        east: axes.across.start_of(rect.last_column + 1),
        north: axes.down.start_of(rect.row),
        south: axes.down.start_of(rect.last_row + 1),
    }
}

/// The ground of a good rectangle.
pub fn block(frame: &Frame, rect: &Rect) -> Ground
    requires good { IsTrue (is_good_frame frame.now) }
    requires rect { IsTrue (is_good_rect frame.now rect.now) }
    ensures { result ≡ block_ground frame.now rect.now }
{
    let offsets = offsets_of(frame, rect);
    Ground {
        west: frame.min_x + offsets.west,
        south: frame.max_y - offsets.south,
        east: frame.min_x + offsets.east,
        north: frame.max_y - offsets.north,
    }
}

/// The ground of a tile, or `None` where there is no such place. Row 0 is uppermost (OGC GeoPackage 1.3, 2.2.7).
pub fn ground(frame: &Frame, zoom: i64, column: i64, row: i64) -> Option<Ground>
    requires { IsTrue (is_good_frame frame.now) }
    ensures { result ≡ tile_ground frame.now zoom column row }
{
    if has_place(frame, zoom, column, row) {
        Some(block(frame, &one_tile(zoom, column, row)))
    } else {
        None
    }
}

/// One tile as a rectangle.
fn one_tile(zoom: i64, column: i64, row: i64) -> Rect
    ensures { result ≡ one_tile zoom column row }
{
    Rect {
        zoom,
        column,
        last_column: column,
        row,
        last_row: row,
    }
}

/// Whether a tile of any zoom, which is a place of the frame, lies inside the rectangle, edges allowed.
pub fn tile_inside(frame: &Frame, rect: &Rect, zoom: i64, column: i64, row: i64) -> bool
    requires good { IsTrue (is_good_frame frame.now) }
    requires rect { IsTrue (is_good_rect frame.now rect.now) }
    requires place { IsTrue (has_place frame.now zoom column row) }
    ensures { result ≡ tile_inside frame.now rect.now zoom column row }
{
    let outer = block(frame, rect);
    let tile = block(frame, &one_tile(zoom, column, row));
    lies_within(&outer, &tile)
}

fn lies_within(outer: &Ground, inner: &Ground) -> bool
    ensures { result ≡ lies_within outer.now inner.now }
{
    (outer.west <= inner.west)
        & (inner.east <= outer.east)
        & (outer.south <= inner.south)
        & (inner.north <= outer.north)
}

/// Whether a point in thousandths of the frame's unit lies inside the rectangle: on its west and
/// north edges it does, on its east and south edges it doesn't.
pub fn point_inside(frame: &Frame, rect: &Rect, x: i64, y: i64) -> bool
    requires good { IsTrue (is_good_frame frame.now) }
    requires rect { IsTrue (is_good_rect frame.now rect.now) }
    ensures { result ≡ point_inside frame.now rect.now x y }
{
    has_point(&block(frame, rect), x, y)
}

/// Whether a point in thousandths of the frame's unit lies in the frame: on its west and north
/// edges it does, on its east and south edges it doesn't.
pub fn in_frame(frame: &Frame, x: i64, y: i64) -> bool
    requires { IsTrue (is_good_frame frame.now) }
    ensures { result ≡ in_frame frame.now x y }
{
    let whole = Ground {
        west: frame.min_x,
        south: frame.min_y,
        east: frame.max_x,
        north: frame.max_y,
    };
    has_point(&whole, x, y)
}

fn has_point(area: &Ground, x: i64, y: i64) -> bool
    ensures { result ≡ has_point area.now x y }
{
    (area.west <= x) & (x < area.east) & (area.south < y) & (y <= area.north)
}
