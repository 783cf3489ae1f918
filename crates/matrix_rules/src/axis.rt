//! The axes of a frame at one zoom: what a tile matrix says (OGC GeoPackage 1.3, 2.2.7).
ghost use Rattle.std.specs.Prelude.{◌≡◌, pos, ◌*ℤ◌, ◌≤ℤ◌, int_div, IsTrue};
ghost use Rattle.sheet_types.specs.Matrix.{is_good_frame, has_level};
ghost use Rattle.matrix_rules.specs.Axes.{axis_of, axes, HasPixels, IsAxis, IsOffset};

use crate::check::tiles_at;
use sheet_types::frame::Frame;

/// One axis of a frame at one zoom.
#[derive(Clone, Copy)]
pub struct Axis {
    /// The tiles along it: the columns or the rows.
    pub tiles: i64,
    /// The size of a pixel on the ground.
    pub pixel_size: i64,
    /// The size of a tile on the ground.
    pub span: i64,
}

impl Axis {
    /// Where this tile begins and the one before it ends, from the start of the axis.
    pub(crate) fn start_of(self, tile: i64) -> i64
        requires axis { IsAxis self }
        requires tile { (pos 0 ≤ℤ tile) × (tile ≤ℤ self.tiles) }
        ensures start { result ≡ tile *ℤ self.span }
        ensures range { IsOffset result }
    {
        tile * self.span
    }
}

/// Both axes of a frame at one zoom.
#[derive(Clone, Copy)]
pub struct Axes {
    /// From west to east.
    pub across: Axis,
    /// From north to south.
    pub down: Axis,
}

/// The axes of a frame at a zoom level that it has. Each level doubles the tiles of the one before (profile).
pub fn axes_at(frame: &Frame, zoom: i64) -> Axes
    requires good { IsTrue (is_good_frame frame.now) }
    requires level { IsTrue (has_level frame.now zoom) }
    ensures axes { result ≡ axes frame.now zoom }
    ensures good { IsAxis result.across × IsAxis result.down }
{
    let level = zoom - frame.first_zoom;
    Axes {
        across: axis_of(
            frame.max_x - frame.min_x,
            frame.tile_width,
            frame.matrix_width,
            level,
        ),
        down: axis_of(
            frame.max_y - frame.min_y,
            frame.tile_height,
            frame.matrix_height,
            level,
        ),
    }
}

/// Tiles of so many pixels along this extent, so many levels below the first.
fn axis_of(extent: i64, tile: i64, matrix: i64, level: i64) -> Axis
    requires { HasPixels extent tile matrix level }
    ensures { result ≡ axis_of extent tile matrix level }
{
    let tiles = tiles_at(matrix, level);
    let pixel_size = pixel_size_of(extent, tile, tiles);
    Axis {
        tiles,
        pixel_size,
        span: tile * pixel_size,
    }
}

/// The size of a pixel, where so many tiles of so many pixels make up the extent.
fn pixel_size_of(extent: i64, tile: i64, tiles: i64) -> i64
    requires extent { extent ≤ℤ pos 2000000000000 }
    requires some { (pos 1 ≤ℤ tile) × (pos 1 ≤ℤ tiles) }
    requires pixels { (tiles *ℤ tile) ≤ℤ extent }
    ensures size { result ≡ int_div extent (tiles *ℤ tile) }
    ensures span { IsOffset (tile *ℤ result) }
{
    extent / (tiles * tile)
}
