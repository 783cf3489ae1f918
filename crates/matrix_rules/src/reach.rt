//! The places of one zoom that lie inside a rectangle.
ghost use Rattle.std.specs.Prelude.{◌≡◌, ℤ, pos, ◌≤ℤ◌, int_div, IsTrue, IfSome, IfNone, false};
ghost use Rattle.sheet_types.specs.Matrix.{is_good_frame, is_good_rect};
ghost use Rattle.matrix_rules.specs.Axes.{IsOffset};
ghost use Rattle.matrix_rules.specs.Places.{is_inside, in_span, AreParts};

use crate::axis::axes_at;
use crate::ground::{has_level, offsets_of};
use crate::spans::Span;
use sheet_types::frame::{Frame, Rect};

/// The places of this zoom that are inside the rectangle, or `None` where none is or the frame hasn't that zoom.
pub fn span(frame: &Frame, rect: &Rect, zoom: i64) -> Option<Span>
    requires good { IsTrue (is_good_frame frame.now) }
    requires rect { IsTrue (is_good_rect frame.now rect.now) }
    ensures places { IfSome result (λ s. (column row : ℤ) → is_inside frame.now rect.now zoom column row
        ≡ in_span s column row) }
    ensures some { IfSome result (λ s. IsTrue (in_span s s.column s.row)) }
    ensures none { IfNone result ((column row : ℤ) → is_inside frame.now rect.now zoom column row ≡ false) }
{
    if !has_level(frame, zoom) {
        return None;
    }
    let outer = offsets_of(frame, rect);
    let axes = axes_at(frame, zoom);
    let (column, last_column) = parts_between(outer.west, outer.east, axes.across.span)?;
    let (row, last_row) = parts_between(outer.north, outer.south, axes.down.span)?;
    Some(Span {
        column,
        last_column,
        row,
        last_row,
    })
}

/// The first and the last of the equal parts that lie between start and end, or `None` where none does.
fn parts_between(start: i64, end: i64, length: i64) -> Option<(i64, i64)>
    requires start { IsOffset start }
    requires end { IsOffset end }
    requires length { (pos 1 ≤ℤ length) × (length ≤ℤ pos 2000000000000) }
    ensures { AreParts start end length result }
{
    let first = whole_parts(start + length - 1, length);
    let past = whole_parts(end, length);
    if first < past {
        Some((first, past - 1))
    } else {
        None
    }
}

/// How many parts of this length an extent has room for.
fn whole_parts(extent: i64, length: i64) -> i64
    requires extent { (pos 0 ≤ℤ extent) × (extent ≤ℤ pos 4000000000000) }
    requires length { pos 1 ≤ℤ length }
    ensures parts { result ≡ int_div extent length }
    ensures range { (pos 0 ≤ℤ result) × (result ≤ℤ pos 4000000000000) }
{
    extent / length
}
