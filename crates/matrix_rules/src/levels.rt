//! The zoom levels of a frame. OGC GeoPackage 1.3, 2.2.7.
ghost use Rattle.std.specs.Prelude.{◌≡◌, pos, ◌<◌, ◌+ℤ◌, unsigned_abs, IsTrue};
ghost use Rattle.sheet_types.specs.Matrix.{is_good_frame, has_level};

use sheet_types::frame::Frame;

/// The number of zoom levels.
pub fn level_count(frame: &Frame) -> u64
    requires { IsTrue (is_good_frame frame.now) }
    ensures { result ≡ unsigned_abs frame.now.levels }
{
    frame.levels.unsigned_abs()
}

/// The zoom of the level that lies so far below the first.
pub fn zoom_at(frame: &Frame, level: u64) -> i64
    requires good { IsTrue (is_good_frame frame.now) }
    requires level { level < unsigned_abs frame.now.levels }
    ensures zoom { result ≡ frame.now.first_zoom +ℤ pos level }
    ensures level { IsTrue (has_level frame.now result) }
{
    frame.first_zoom + level as i64
}
