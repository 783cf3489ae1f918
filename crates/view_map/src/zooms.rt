//! Which zoom is drawn.
ghost use Rattle.std.specs.Prelude.{◌≡◌, ◌<◌, ◌≤◌, IsTrue, unsigned_abs};
ghost use Rattle.sheet_types.specs.Matrix.{is_good_frame, has_level};
ghost use Rattle.view_map.specs.Zooms.{default_zoom, finest_small, is_small};

use crate::layout::layout_of;
use matrix_rules::levels::{level_count, zoom_at};
use sheet_types::frame::Frame;

/// Whether the frame has this zoom.
pub fn has_level(frame: &Frame, zoom: i64) -> bool
    requires { IsTrue (is_good_frame frame.now) }
    ensures { result ≡ has_level frame.now zoom }
{
    let end = frame.first_zoom + frame.levels;
    (frame.first_zoom <= zoom) & (zoom < end)
}

/// Whether there are at most 10,000 places so many levels below the first.
fn is_small(frame: &Frame, level: u64) -> bool
    requires good { IsTrue (is_good_frame frame.now) }
    requires level { level < unsigned_abs frame.now.levels }
    ensures { result ≡ is_small frame.now level }
{
    let zoom = zoom_at(frame, level);
    let layout = layout_of(frame, zoom);
    let places = u128::from(layout.columns) * u128::from(layout.rows);
    places <= 10_000
}

/// The finest of the first so many levels that has at most 10,000 places, or the first where none has.
fn finest_small(frame: &Frame, levels: u64) -> u64
    requires good { IsTrue (is_good_frame frame.now) }
    requires levels { levels ≤ unsigned_abs frame.now.levels }
    ensures finest { result ≡ finest_small frame.now levels }
    ensures below { 0 < levels → result < levels }
{
    let mut level = levels;
    'levels: while level > 0 {
        level -= 1;
        if is_small(frame, level) {
            return level;
        }
    }
    0
}

/// The zoom that is drawn where none is asked for: the finest that has at most 10,000 places, or
/// the first where none has.
pub fn default_zoom(frame: &Frame) -> i64
    requires { IsTrue (is_good_frame frame.now) }
    ensures zoom { result ≡ default_zoom frame.now }
    ensures level { IsTrue (has_level frame.now result) }
{
    let count = level_count(frame);
    let level = finest_small(frame, count);
    zoom_at(frame, level)
}
