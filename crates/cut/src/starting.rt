//! The tiles and rows inside a rectangle, by their identities.
ghost use Rattle.std.specs.Prelude.{◌≡◌, ◌+ℤ◌, IsTrue};
ghost use Rattle.sheet_types.specs.Cut.{identities, start};
ghost use Rattle.sheet_types.specs.Matrix.{is_good_frame, is_good_rect};
ghost use Rattle.identity_register.specs.Reach.{Asks};
ghost use Rattle.cut.specs.Gathering.{AreSame, tiles_at, tiles_below};
ghost use Rattle.cut.specs.Taken.{IsInOrder};

use identity_register::reach::Reach;
use matrix_rules::ground::block;
use matrix_rules::levels::{level_count, zoom_at};
use matrix_rules::reach::span;
use package_tables::fault::Fault;
use sheet_types::frame::{Frame, Rect};
use std::alloc::Global;
use uuid::Uuid;

/// The tiles of one zoom that are inside. Nothing is asked where no place of the zoom is.
fn tiles_at<R: Reach>(
    reach: &mut R,
    frame: &Frame,
    rect: &Rect,
    zoom: i64,
    alloc: Global,
) -> Result<Vec<Uuid>, Fault>
    requires ready { R.can_ask reach.old }
    requires frame { IsTrue (is_good_frame frame.now) }
    requires rect { IsTrue (is_good_rect frame.now rect.now) }
    ensures { Asks R.can_ask R.stays R.shows (λ p found. found.items ≡ tiles_at frame.now rect.now p zoom) reach.old
        reach.new result }
{
    match span(frame, rect, zoom) {
        Some(span) => reach.tiles_in(zoom, &span, alloc),
        None => Ok(Vec::new(alloc)),
    }
}

/// The tiles of all zooms that are inside.
fn tiles_inside<R: Reach>(
    reach: &mut R,
    frame: &Frame,
    rect: &Rect,
    alloc: Global,
) -> Result<Vec<Uuid>, Fault>
    requires ready { R.can_ask reach.old }
    requires frame { IsTrue (is_good_frame frame.now) }
    requires rect { IsTrue (is_good_rect frame.now rect.now) }
    ensures { Asks R.can_ask R.stays R.shows (λ p found. AreSame found.items
        (tiles_below frame.now rect.now p (frame.now.first_zoom +ℤ frame.now.levels))) reach.old reach.new result }
{
    let mut found = Vec::new(alloc);
    let levels = level_count(frame);
    for level in 0..levels {
        let tiles = tiles_at(reach, frame, rect, zoom_at(frame, level), alloc)?;
        found.extend_from_slice(&tiles)?;
    }
    Ok(found)
}

/// The tiles and rows that are inside.
pub(crate) fn start<R: Reach>(
    reach: &mut R,
    frame: &Frame,
    rect: &Rect,
    alloc: Global,
) -> Result<Vec<Uuid>, Fault>
    requires ready { R.can_ask reach.old }
    requires frame { IsTrue (is_good_frame frame.now) }
    requires rect { IsTrue (is_good_rect frame.now rect.now) }
    ensures { Asks R.can_ask R.stays R.shows (λ p found. IsInOrder frame.now p
        → AreSame found.items (identities (start frame.now rect.now p))) reach.old reach.new result }
{
    let mut found = tiles_inside(reach, frame, rect, alloc)?;
    let rows = reach.rows_in(&block(frame, rect), alloc)?;
    found.extend_from_slice(&rows)?;
    Ok(found)
}
