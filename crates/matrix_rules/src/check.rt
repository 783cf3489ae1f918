//! The rules of a frame.
ghost use Rattle.std.specs.Prelude.{◌≡◌, ◌^◌, ◌&&◌, ◌+ℤ◌, ◌-ℤ◌, ◌*ℤ◌, pos, negsuc};
ghost use Rattle.std.specs.Prelude.{◌≤ℤ◌, ◌<ℤ◌, unsigned_abs, MatchResult, Option, None, Some, int_le};
ghost use Rattle.std.specs.Prelude.{int_lt, IsTrue};
ghost use Rattle.sheet_types.specs.declared.frame.FrameFault.{FrameFault};
ghost use Rattle.sheet_types.specs.Matrix.{is_within, is_good_bound, frame_fault, divides, width_at, height_at};
ghost use Rattle.sheet_types.specs.Matrix.{last_level, ten_to_12};

use sheet_types::frame::{Frame, FrameFault};

/// The greatest bound of a frame, and the least taken positive, in thousandths.
const FARTHEST: i64 = 1_000_000_000_000;

/// The rules of a frame, which tell whether it is good.
pub trait FrameRules {
    ghost fault: { Self → Option FrameFault };

    /// The first rule of a frame that this one breaks, in the order of `FrameFault`, or `Ok` where it is good.
    fn check(&self) -> Result<(), FrameFault>
        ensures { MatchResult result (λ _. fault self.now ≡ None) (λ broken. fault self.now ≡ Some broken) };
}

impl FrameRules for Frame {
    ghost fault = { frame_fault };

    fn check(&self) -> Result<(), FrameFault> {
        if !has_good_srs(self) {
            Err(FrameFault::BadSrs)
        } else if !has_good_bounds(self) {
            Err(FrameFault::BadBounds)
        } else if !has_good_tile(self) {
            Err(FrameFault::BadTile)
        } else if !has_good_zooms(self) {
            Err(FrameFault::BadZoom)
        } else if !has_good_matrix(self) {
            Err(FrameFault::BadMatrix)
        } else if !has_even_pixels(self) {
            Err(FrameFault::Uneven)
        } else {
            Ok(())
        }
    }
}

fn has_good_srs(frame: &Frame) -> bool
    ensures { result ≡ is_within (negsuc 0) (pos 999999) frame.now.srs_id }
{
    -1 <= frame.srs_id && frame.srs_id <= 999_999
}

fn is_bound(x: i64) -> bool
    ensures { result ≡ is_good_bound x }
{
    -FARTHEST <= x && x <= FARTHEST
}

fn has_good_bounds(frame: &Frame) -> bool
    ensures { result ≡ (is_good_bound frame.now.min_x && is_good_bound frame.now.min_y && is_good_bound
        frame.now.max_x && is_good_bound frame.now.max_y && int_lt frame.now.min_x frame.now.max_x && int_lt
        frame.now.min_y frame.now.max_y) }
{
    let bounds = is_bound(frame.min_x)
        & is_bound(frame.min_y)
        & is_bound(frame.max_x)
        & is_bound(frame.max_y);
    bounds & (frame.min_x < frame.max_x) & (frame.min_y < frame.max_y)
}

fn has_good_tile(frame: &Frame) -> bool
    ensures { result ≡ (is_within (pos 1) (pos 4096) frame.now.tile_width && is_within (pos 1) (pos 4096)
        frame.now.tile_height) }
{
    1 <= frame.tile_width
        && frame.tile_width <= 4096
        && 1 <= frame.tile_height
        && frame.tile_height <= 4096
}

/// The first zoom that the frame no longer has.
fn zoom_end(frame: &Frame) -> i128
    ensures { result ≡ frame.now.first_zoom +ℤ frame.now.levels }
{
    frame.first_zoom as i128 + frame.levels as i128
}

fn has_good_zooms(frame: &Frame) -> bool
    ensures { result ≡ (int_le (pos 0) frame.now.first_zoom && int_le (pos 1) frame.now.levels && int_le
        (frame.now.first_zoom +ℤ frame.now.levels) (pos 21)) }
{
    (0 <= frame.first_zoom) & (1 <= frame.levels) & (zoom_end(frame) <= 21)
}

fn is_matrix_number(x: i64) -> bool
    ensures { result ≡ is_within (pos 1) (pos 2 *ℤ ten_to_12) x }
{
    1 <= x && x <= 2 * FARTHEST
}

fn has_good_matrix(frame: &Frame) -> bool
    ensures { result ≡ (is_within (pos 1) (pos 2 *ℤ ten_to_12) frame.now.matrix_width && is_within (pos 1)
        (pos 2 *ℤ ten_to_12) frame.now.matrix_height) }
{
    is_matrix_number(frame.matrix_width) && is_matrix_number(frame.matrix_height)
}

/// The tiles along an axis at this many levels below the first.
pub(crate) fn tiles_at(matrix: i64, level: i64) -> i64
    requires matrix { (pos 1 ≤ℤ matrix) × (matrix ≤ℤ pos 2000000000000) }
    requires level { (pos 0 ≤ℤ level) × (level ≤ℤ pos 20) }
    ensures product { result ≡ matrix *ℤ pos (2 ^ unsigned_abs level) }
    ensures range { (pos 1 ≤ℤ result) × (result ≤ℤ pos (2 ^ 61)) }
{
    matrix * doublings(level)
}

/// Two to this power.
fn doublings(times: i64) -> i64
    requires { (pos 0 ≤ℤ times) × (times ≤ℤ pos 20) }
    ensures power { result ≡ pos (2 ^ unsigned_abs times) }
    ensures range { (pos 1 ≤ℤ result) × (result ≤ℤ pos (2 ^ 20)) }
{
    1 << times
}

/// The pixels along an axis; their number passes 64 bits at the greatest numbers that a frame may have.
fn pixels(tiles: i64, tile: i64) -> i128
    requires tiles { (pos 1 ≤ℤ tiles) × (tiles ≤ℤ pos (2 ^ 61)) }
    requires tile { (pos 1 ≤ℤ tile) × (tile ≤ℤ pos 4096) }
    ensures product { result ≡ tiles *ℤ tile }
    ensures positive { pos 0 <ℤ result }
{
    tiles as i128 * tile as i128
}

/// The length of an axis in thousandths.
fn extent(low: i64, high: i64) -> i128
    ensures { result ≡ high -ℤ low }
{
    high as i128 - low as i128
}

fn is_divided(whole: i128, parts: i128) -> bool
    requires { pos 0 <ℤ parts }
    ensures { result ≡ divides parts whole }
{
    whole % parts == 0
}

/// Whether pixels of a whole number of thousandths make up the axis at the last level.
fn is_even(low: i64, high: i64, matrix: i64, tile: i64, levels: i64) -> bool
    requires tile { (pos 1 ≤ℤ tile) × (tile ≤ℤ pos 4096) }
    requires levels { (pos 1 ≤ℤ levels) × (levels ≤ℤ pos 21) }
    requires matrix { (pos 1 ≤ℤ matrix) × (matrix ≤ℤ pos 2000000000000) }
    ensures { result ≡ divides (matrix *ℤ pos (2 ^ unsigned_abs (levels -ℤ pos 1)) *ℤ tile) (high -ℤ low) }
{
    let last = pixels(tiles_at(matrix, levels - 1), tile);
    is_divided(extent(low, high), last)
}

fn has_even_pixels(frame: &Frame) -> bool
    requires tile { IsTrue (is_within (pos 1) (pos 4096) frame.now.tile_width && is_within (pos 1) (pos 4096)
        frame.now.tile_height) }
    requires zooms { IsTrue (int_le (pos 0) frame.now.first_zoom && int_le (pos 1) frame.now.levels && int_le
        (frame.now.first_zoom +ℤ frame.now.levels) (pos 21)) }
    requires matrix { IsTrue (is_within (pos 1) (pos 2 *ℤ ten_to_12) frame.now.matrix_width && is_within (pos 1)
        (pos 2 *ℤ ten_to_12) frame.now.matrix_height) }
    ensures { result ≡ (divides (width_at frame.now (last_level frame.now) *ℤ frame.now.tile_width)
        (frame.now.max_x -ℤ frame.now.min_x) && divides (height_at frame.now (last_level frame.now) *ℤ
        frame.now.tile_height) (frame.now.max_y -ℤ frame.now.min_y)) }
{
    let across = is_even(
        frame.min_x,
        frame.max_x,
        frame.matrix_width,
        frame.tile_width,
        frame.levels,
    );
    let down = is_even(
        frame.min_y,
        frame.max_y,
        frame.matrix_height,
        frame.tile_height,
        frame.levels,
    );
    across & down
}
