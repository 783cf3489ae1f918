//! The zooms that a map draws, and where a sheet stands in one.
ghost use Rattle.std.specs.Prelude.{◌≡◌, ◌-◌, ◌≤◌, IsTrue};
ghost use Rattle.sheet_types.specs.Matrix.{has_level, is_good_frame};
ghost use Rattle.view_report.specs.Levels.{extent, inset_of, level_at, level_of, level_total, plus, power_of};
ghost use Rattle.view_report.specs.Levels.{scale_of, share, start, times};

use matrix_rules::levels::{level_count, zoom_at};
use sheet_types::frame::Frame;
use view_map::layout::{Layout, layout_of};
use view_map::zooms::default_zoom;

/// A zoom that is drawn.
#[derive(Clone, Copy)]
pub struct Level {
    /// How many zooms are coarser.
    pub index: u64,
    /// How many zooms that are drawn are finer.
    pub finer: u64,
    pub zoom: i64,
    /// Its places, and how large each is.
    pub layout: Layout,
}

/// A product of two numbers, within 64 bits.
pub fn times(a: u64, b: u64) -> u64
    ensures { result ≡ times a b }
{
    a.saturating_mul(b)
}

/// A sum of two numbers, within 64 bits.
pub fn plus(a: u64, b: u64) -> u64
    ensures { result ≡ plus a b }
{
    a.saturating_add(b)
}

/// A part of a whole in ten-thousandths.
pub fn share(part: u64, whole: u64) -> u64
    ensures { result ≡ share part whole }
{
    if whole == 0 {
        return 0;
    }
    times(part, 10000) / whole
}

/// How many places of a finer zoom are as wide as one place.
fn power_of(finer: u64) -> u64
    ensures power { result ≡ power_of finer }
    ensures some { 1 ≤ result }
{
    match finer {
        0 => 1,
        1 => 2,
        2 => 4,
        3 => 8,
        4 => 16,
        5 => 32,
        _ => 64,
    }
}

/// How far a sheet stands inside its place, in hundredths of a unit: the finer the zoom and the
/// deeper the loan, the farther.
pub(crate) fn inset_of(level: &Level, layer: u64) -> u64
    ensures { result ≡ inset_of level.now layer }
{
    let steps = plus(times(100, level.index), times(150, layer));
    plus(75, steps) / power_of(level.finer)
}

/// Where a sheet begins along a side, by its place.
pub(crate) fn start(place: u64, side: u64, inset: u64) -> u64
    ensures { result ≡ start place side inset }
{
    plus(times(100, times(place, side)), inset)
}

/// How far it reaches along the side.
pub(crate) fn extent(side: u64, inset: u64) -> u64
    ensures { result ≡ extent side inset }
{
    times(100, side).saturating_sub(times(2, inset))
}

/// By which a pattern has the same size at each zoom.
pub(crate) fn scale_of(layout: &Layout) -> u64
    ensures { result ≡ scale_of layout.now }
{
    times(5, times(layout.columns, layout.width)) / 28
}

/// How many zooms are drawn: from the first to the finest with at most 10,000 places.
pub fn level_total(frame: &Frame) -> u64
    requires { IsTrue (is_good_frame frame.now) }
    ensures { result ≡ level_total frame.now }
{
    plus(default_zoom(frame).abs_diff(frame.first_zoom), 1)
}

/// A zoom that the frame has.
fn level_of(frame: &Frame, total: u64, index: u64, zoom: i64) -> Level
    requires good { IsTrue (is_good_frame frame.now) }
    requires level { IsTrue (has_level frame.now zoom) }
    ensures { result ≡ level_of frame.now total index zoom }
{
    Level {
        index,
        finer: total.saturating_sub(plus(index, 1)),
        zoom,
        layout: layout_of(frame, zoom),
    }
}

/// The zoom with so many coarser ones, of so many that are drawn.
pub fn level_at(frame: &Frame, total: u64, index: u64) -> Option<Level>
    requires { IsTrue (is_good_frame frame.now) }
    ensures { result ≡ level_at frame.now total index }
{
    if index < level_count(frame) {
        Some(level_of(frame, total, index, zoom_at(frame, index)))
    } else {
        None
    }
}
