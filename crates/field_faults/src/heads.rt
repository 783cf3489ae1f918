//! Whether a file is one of this package as it is.
ghost use Rattle.std.specs.Prelude.{◌≡◌, ◌^◌, ◌*ℤ◌, ◌≤ℤ◌, pos, unsigned_abs, bytes_eq, codes};
ghost use Rattle.std.specs.Prelude.{take, IsTrue};
ghost use Rattle.std.specs.List.{list_any};
ghost use Rattle.sheet_types.specs.Matrix.{is_good_frame};
ghost use Rattle.field_faults.specs.Heads.{is_number, is_of, is_same, is_stale, has_kind, has_system, width_at_zero};
ghost use Rattle.field_faults.specs.Heads.{height_at_zero, same_corner, same_grid, same_spans, has_grid, tells_frame};
ghost use Rattle.field_faults.specs.Heads.{head_fault};

use field_changes::held::{BadRecord, Export, Held, HeldItem};
use matrix_rules::axis::axes_at;
use matrix_rules::check::FrameRules;
use sheet_types::frame::Frame;
use sheet_types::receipt::MovedKind;
use uuid::Uuid;

/// Why a file is none of this package, in the order in which a reason is looked for.
#[derive(Clone, Copy, PartialEq, Eq)]
pub enum HeadFault {
    /// It was the export of another package; or of none, and more is not all that is asked.
    OtherPackage,
    /// It was the export of this package at another ticket.
    Stale,
    /// Its points have another system, or it has points and no system.
    OtherSystem,
    /// Its tiles have another grid, or it has tiles and no frame.
    OtherFrame,
}

// Whether it was an export of this package, or none where more is all that is asked.
fn is_of(package: Uuid, more: bool, export: Option<Export>) -> bool
    ensures { result ≡ is_of «package» more export }
{
    match export {
        Some(export) => export.package == package,
        None => more,
    }
}

/// Whether a number is this one.
pub(crate) fn is_number(n: u64, number: i64) -> bool
    ensures { result ≡ is_number n number }
{
    0 <= number && number.unsigned_abs() == n
}

// Whether it was one at another ticket.
fn is_stale(ticket: u64, export: Option<Export>) -> bool
    ensures { result ≡ is_stale ticket export }
{
    match export {
        Some(export) => !is_number(ticket, export.ticket),
        None => false,
    }
}

// Whether an item of this kind is there.
fn has_kind(kind: MovedKind, items: &[HeldItem<'_>]) -> bool
    ensures { result ≡ has_kind kind items.now }
{
    items
        .iter()
        .any(|item| kind.number() == item.content.kind().number())
}

// Whether the points have this system.
fn has_system(wanted: i64, system: Option<i64>, has_rows: bool) -> bool
    ensures { result ≡ has_system wanted system has_rows }
{
    match system {
        Some(system) => wanted == system,
        None => !has_rows,
    }
}

/// Whether two numbers are one.
fn is_same(a: i64, b: i64) -> bool
    ensures { result ≡ is_same a b }
{
    a == b
}

/// Whether two frames count from one corner, in one system and by tiles of as many pixels.
fn same_corner(mine: &Frame, theirs: &Frame) -> bool
    ensures { result ≡ same_corner mine.now theirs.now }
{
    is_same(mine.srs_id, theirs.srs_id)
        & is_same(mine.min_x, theirs.min_x)
        & is_same(mine.max_y, theirs.max_y)
        & is_same(mine.tile_width, theirs.tile_width)
        & is_same(mine.tile_height, theirs.tile_height)
}

/// Two to this power.
fn doublings(times: i64) -> i64
    requires { (pos 0 ≤ℤ times) × (times ≤ℤ pos 20) }
    ensures power { result ≡ pos (2 ^ unsigned_abs times) }
    ensures range { (pos 1 ≤ℤ result) × (result ≤ℤ pos (2 ^ 20)) }
{
    1 << times
}

/// A span that lies so many levels below zoom 0, as it is there.
fn at_zero(span: i64, zoom: i64) -> i64
    requires span { (pos 1 ≤ℤ span) × (span ≤ℤ pos 2000000000000) }
    requires zoom { (pos 0 ≤ℤ zoom) × (zoom ≤ℤ pos 20) }
    ensures { result ≡ span *ℤ pos (2 ^ unsigned_abs zoom) }
{
    span * doublings(zoom)
}

/// How wide a tile would be at zoom 0.
fn width_at_zero(frame: &Frame) -> i64
    requires { IsTrue (is_good_frame frame.now) }
    ensures { result ≡ width_at_zero frame.now }
{
    let axes = axes_at(frame, frame.first_zoom);
    at_zero(axes.across.span, frame.first_zoom)
}

/// How high it would be.
fn height_at_zero(frame: &Frame) -> i64
    requires { IsTrue (is_good_frame frame.now) }
    ensures { result ≡ height_at_zero frame.now }
{
    let axes = axes_at(frame, frame.first_zoom);
    at_zero(axes.down.span, frame.first_zoom)
}

/// Whether tiles would be as wide and as high at zoom 0.
fn same_spans(mine: &Frame, theirs: &Frame) -> bool
    requires mine { IsTrue (is_good_frame mine.now) }
    requires theirs { IsTrue (is_good_frame theirs.now) }
    ensures { result ≡ same_spans mine.now theirs.now }
{
    let widths = is_same(width_at_zero(mine), width_at_zero(theirs));
    let heights = is_same(height_at_zero(mine), height_at_zero(theirs));
    widths & heights
}

/// Whether a frame is good.
fn is_good(frame: &Frame) -> bool
    ensures { result ≡ is_good_frame frame.now }
{
    frame.check().is_ok()
}

/// Whether a place of one is the same ground in the other.
fn same_grid(mine: &Frame, theirs: &Frame) -> bool
    requires { IsTrue (is_good_frame mine.now) }
    ensures { result ≡ same_grid mine.now theirs.now }
{
    if !same_corner(mine, theirs) {
        return false;
    }
    if !is_good(theirs) {
        return false;
    }
    same_spans(mine, theirs)
}

/// Whether the tiles have this grid.
fn has_grid(mine: &Frame, frame: &Option<Frame>, has_tiles: bool) -> bool
    requires { IsTrue (is_good_frame mine.now) }
    ensures { result ≡ has_grid mine.now frame.now has_tiles }
{
    match frame {
        Some(theirs) => same_grid(mine, theirs),
        None => !has_tiles,
    }
}

/// Whether the frame is a record that could not be listed.
fn tells_frame(bad: &BadRecord) -> bool
    ensures { result ≡ tells_frame bad.now }
{
    bad.text.as_str().as_bytes().starts_with(b"frame")
}

/// Whether it is so of any of these.
fn frame_is_bad(bad: &[BadRecord]) -> bool
    ensures { result ≡ list_any tells_frame bad.now }
{
    bad.iter().any(|record| tells_frame(record))
}

/// The first reason for which a file is none of this package at this ticket, if there is one.
pub fn head_fault(
    package: Uuid,
    ticket: u64,
    frame: &Frame,
    more: bool,
    held: &Held<'_>,
) -> Option<HeadFault>
    requires { IsTrue (is_good_frame frame.now) }
    ensures { result ≡ head_fault «package» ticket frame.now more held.now }
{
    let items = held.items.as_slice();
    if !is_of(package, more, held.export) {
        return Some(HeadFault::OtherPackage);
    }
    if is_stale(ticket, held.export) {
        return Some(HeadFault::Stale);
    }
    if !has_system(
        frame.srs_id,
        held.system,
        has_kind(MovedKind::RowItem, items),
    ) {
        return Some(HeadFault::OtherSystem);
    }
    if !frame_is_bad(held.bad.as_slice())
        && !has_grid(frame, &held.frame, has_kind(MovedKind::TileItem, items))
    {
        return Some(HeadFault::OtherFrame);
    }
    None
}
