//! Which frame the rows of tile matrix sets and tile matrices are of, and whether all fixed rows are its own.
ghost use Rattle.std.specs.Prelude.{◌≡◌, ◌↔◌, ◌∷◌, [], IsTrue, IfOk, Some};
ghost use Rattle.sheet_types.specs.Matrix.{is_good_frame, has_level};
ghost use Rattle.sheet_types.specs.declared.frame.Frame.{Frame as SomeFrame};
ghost use Rattle.package_tables.specs.Fixed.{matrix_set, level_row, levels_of};
ghost use Rattle.package_schema.specs.Frames.{same_set, same_level, relations_at, AreRowsOf, IsFrameOf};

use crate::fixed_rows::{FixedRows, are_contents, are_relations_at, are_systems};
use crate::versions::Version;
use matrix_rules::axis::axes_at;
use matrix_rules::check::FrameRules;
use matrix_rules::levels::{level_count, zoom_at};
use package_tables::fault::Fault;
use package_tables::rows::{TileMatrixRow, TileMatrixSetRow};
use sheet_types::frame::Frame;
use std::alloc::Global;

/// The most zoom levels of a frame: zooms 0 to 20.
const MOST_LEVELS: usize = 21;

/// The one frame whose tile matrices these may be: its bounds are those of the set, its numbers of
/// tiles those of the first level (OGC GeoPackage 1.3, 2.2.6 and 2.2.7).
fn candidate(sets: &[TileMatrixSetRow], levels: &[TileMatrixRow]) -> Option<Frame>
    ensures { (f : SomeFrame) → IsTrue (is_good_frame f) → sets.now ≡ matrix_set f ∷ []
        → levels.now ≡ levels_of f
        → result ≡ Some f }
{
    if sets.len() != 1 || levels.is_empty() || levels.len() > MOST_LEVELS {
        return None;
    }
    let set = &sets[0];
    let first = &levels[0];
    Some(Frame {
        srs_id: set.srs_id,
        min_x: set.min_x,
        min_y: set.min_y,
        max_x: set.max_x,
        max_y: set.max_y,
        tile_width: first.tile_width,
        tile_height: first.tile_height,
        first_zoom: first.zoom_level,
        levels: levels.len() as i64,
        matrix_width: first.matrix_width,
        matrix_height: first.matrix_height,
    })
}

fn is_set(row: &TileMatrixSetRow, frame: &Frame) -> bool
    ensures { result ≡ same_set row.now (matrix_set frame.now) }
{
    row.table_name.is_text("sheet_tiles")
        & (row.srs_id == frame.srs_id)
        & (row.min_x == frame.min_x)
        & (row.min_y == frame.min_y)
        & (row.max_x == frame.max_x)
        & (row.max_y == frame.max_y)
}

/// Whether the one tile matrix set is the frame's.
fn are_sets(rows: &[TileMatrixSetRow], frame: &Frame) -> bool
    ensures { IsTrue result ↔ (rows.now ≡ matrix_set frame.now ∷ []) }
{
    if rows.len() != 1 {
        return false;
    }
    is_set(&rows[0], frame)
}

fn is_level(row: &TileMatrixRow, frame: &Frame, zoom: i64) -> bool
    requires good { IsTrue (is_good_frame frame.now) }
    requires level { IsTrue (has_level frame.now zoom) }
    ensures { result ≡ same_level row.now (level_row frame.now zoom) }
{
    let axes = axes_at(frame, zoom);
    row.table_name.is_text("sheet_tiles")
        & (row.zoom_level == zoom)
        & (row.matrix_width == axes.across.tiles)
        & (row.matrix_height == axes.down.tiles)
        & (row.tile_width == frame.tile_width)
        & (row.tile_height == frame.tile_height)
        & (row.pixel_x_size == axes.across.pixel_size)
        & (row.pixel_y_size == axes.down.pixel_size)
}

/// Whether these are the tile matrices of the frame, by their zooms.
fn are_levels(rows: &[TileMatrixRow], frame: &Frame) -> bool
    requires { IsTrue (is_good_frame frame.now) }
    ensures { IsTrue result ↔ (rows.now ≡ levels_of frame.now) }
{
    if rows.len() as u64 != level_count(frame) {
        return false;
    }
    let mut are = true;
    for at in 0..rows.len() {
        are &= is_level(&rows[at], frame, zoom_at(frame, at as u64));
    }
    are
}

/// Whether all rows are the fixed ones of the frame.
fn are_rows_of(
    frame: &Frame,
    found: &FixedRows,
    alloc: Global,
    version: Version,
) -> Result<bool, Fault>
    requires { IsTrue (is_good_frame frame.now) }
    ensures { IfOk result (λ are. IsTrue are ↔ AreRowsOf (relations_at version) frame.now found.now) }
{
    let systems = are_systems(&found.systems, frame.srs_id, alloc)?;
    let listed = are_contents(&found.listed, frame);
    let sets = are_sets(&found.sets, frame);
    let levels = are_levels(&found.levels, frame);
    let related = are_relations_at(&found.related, version);
    Ok(systems & listed & sets & levels & related)
}

fn is_good(frame: &Frame) -> bool
    ensures { result ≡ is_good_frame frame.now }
{
    frame.check().is_ok()
}

/// The frame whose fixed rows these are at a version; none where there is no such frame.
pub(crate) fn frame_of(
    found: &FixedRows,
    alloc: Global,
    version: Version,
) -> Result<Option<Frame>, Fault>
    ensures { IfOk result (IsFrameOf (relations_at version) found.now) }
{
    let Some(frame) = candidate(&found.sets, &found.levels) else {
        return Ok(None);
    };
    if !is_good(&frame) {
        return Ok(None);
    }
    let are = are_rows_of(&frame, found, alloc, version)?;
    Ok(if are { Some(frame) } else { None })
}
