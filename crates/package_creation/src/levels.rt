//! The tile matrices of a frame's zoom levels. OGC GeoPackage 1.3, 2.2.7.
ghost use Rattle.std.specs.Prelude.{◌≡◌, [], IsTrue};
ghost use Rattle.sqlite.specs.Held.{state};
ghost use Rattle.sheet_types.specs.Matrix.{is_good_frame, has_level};
ghost use Rattle.store_sql.specs.Transactions.{Steps};
ghost use Rattle.package_tables.specs.Calls.{OnTables};
ghost use Rattle.package_tables.specs.Listed.{matrices};
ghost use Rattle.package_tables.specs.Changes.{Adds, ListBecomes};
ghost use Rattle.package_tables.specs.Fixed.{level_row, levels_of};

use crate::insertions::insert_tile_matrix;
use matrix_rules::axis::axes_at;
use matrix_rules::levels::{level_count, zoom_at};
use package_tables::fault::Fault;
use sheet_types::frame::Frame;
use sqlite::{Alter, Transaction};

/// The tile matrix of one zoom level.
fn insert_level<S: Alter>(
    tx: &mut Transaction<'_, S>,
    frame: &Frame,
    zoom: i64,
) -> Result<(), Fault>
    requires good { IsTrue (is_good_frame frame.now) }
    requires level { IsTrue (has_level frame.now zoom) }
    ensures same_reference { tx.new.conn.ghost_name ≡ tx.old.conn.ghost_name }
    ensures steps { Steps (λ _. OnTables (Adds matrices (level_row frame.now zoom))) (state S.Store tx.old.conn.now)
        (state S.Store tx.new.conn.now) result }
{
    let axes = axes_at(frame, zoom);
    insert_tile_matrix(
        tx,
        "sheet_tiles",
        zoom,
        axes.across.tiles,
        axes.down.tiles,
        frame.tile_width,
        frame.tile_height,
        axes.across.pixel_size,
        axes.down.pixel_size,
    )
}

/// The tile matrices of all zoom levels of a frame.
pub(crate) fn insert_levels<S: Alter>(
    tx: &mut Transaction<'_, S>,
    frame: &Frame,
) -> Result<(), Fault>
    requires { IsTrue (is_good_frame frame.now) }
    ensures same_reference { tx.new.conn.ghost_name ≡ tx.old.conn.ghost_name }
    ensures steps { Steps (λ _. OnTables (ListBecomes matrices [] (levels_of frame.now)))
        (state S.Store tx.old.conn.now) (state S.Store tx.new.conn.now) result }
{
    let levels = level_count(frame);
    for level in 0..levels {
        insert_level(tx, frame, zoom_at(frame, level))?;
    }
    Ok(())
}
