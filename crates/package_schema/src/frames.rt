//! Which frame the fixed rows of a store are of, and whether they are dated.
ghost use Rattle.std.specs.Prelude.{◌≡◌, ◌↔◌, IsTrue};
ghost use Rattle.std.specs.List.{AllByRecursion};
ghost use Rattle.sqlite.specs.Held.{state};
ghost use Rattle.sheet_types.specs.Texts.{is_moment};
ghost use Rattle.store_sql.specs.Transactions.{Rests};
ghost use Rattle.package_tables.specs.Calls.{LooksUp};
ghost use Rattle.package_schema.specs.Frames.{AreDated, AreRead, HasMoment, ReadsFrame};

use crate::fixed_rows::FixedRows;
use crate::frame_rows::frame_of;
use crate::versions::Version;
use package_tables::fault::Fault;
use package_tables::fixed::{
    all_contents, all_relations, all_spatial_ref_sys, all_tile_matrices, all_tile_matrix_sets,
};
use package_tables::rows::ContentsRow;
use sheet_types::frame::Frame;
use sheet_types::moments::is_moment;
use sqlite::{Alter, Connection};
use std::alloc::Global;

/// Whether the last change of a table has a moment.
#[tactic(auto, unfolding(crate::specs::Frames::HasMoment))]
fn has_moment(row: &ContentsRow) -> bool
    ensures { IsTrue result ↔ HasMoment row.now }
{
    is_moment(row.last_change.as_str())
}

/// Whether the last change of each of these tables has one.
pub(crate) fn have_moments(rows: &[ContentsRow]) -> bool
    ensures { IsTrue result ↔ AllByRecursion HasMoment rows.now }
{
    rows.iter().all(has_moment)
}

/// Whether the last change of each table has a moment (`last_change`, OGC GeoPackage 1.3, 1.1.3),
/// in a store whose tables have their form.
///
/// # Errors
///
/// `OutOfMemory` where a growth was refused, and `StoreFault` where the store failed or a text is no UTF-8.
pub fn are_dated<S: Alter>(conn: &mut Connection<S>, alloc: Global) -> Result<bool, Fault>
    requires { Rests (state S.Store conn.old) }
    ensures { LooksUp (λ t dated. IsTrue dated ↔ AreDated t) (state S.Store conn.old) (state S.Store conn.new)
        result }
{
    let rows = all_contents(conn, alloc)?;
    Ok(have_moments(&rows))
}

/// All rows of the tables that are the same in every package but for the frame.
fn read_rows<S: Alter>(conn: &mut Connection<S>, alloc: Global) -> Result<FixedRows, Fault>
    requires { Rests (state S.Store conn.old) }
    ensures { LooksUp AreRead (state S.Store conn.old) (state S.Store conn.new) result }
{
    let systems = all_spatial_ref_sys(conn, alloc)?;
    let listed = all_contents(conn, alloc)?;
    let sets = all_tile_matrix_sets(conn, alloc)?;
    let levels = all_tile_matrices(conn, alloc)?;
    let related = all_relations(conn, alloc)?;
    Ok(FixedRows {
        systems,
        listed,
        sets,
        levels,
        related,
    })
}

/// The frame whose fixed rows the store has, in a store whose tables have their form; none where
/// there is no such frame (OGC GeoPackage 1.3: 1.1.2, 1.1.3, 2.2.6, 2.2.7; OGC 18-000, relations).
///
/// # Errors
///
/// `OutOfMemory` where a growth was refused, and `StoreFault` where the store failed or a text is no UTF-8.
pub fn read_frame<S: Alter>(conn: &mut Connection<S>, alloc: Global) -> Result<Option<Frame>, Fault>
    requires { Rests (state S.Store conn.old) }
    ensures { LooksUp ReadsFrame (state S.Store conn.old) (state S.Store conn.new) result }
{
    let found = read_rows(conn, alloc)?;
    Ok(frame_of(&found, alloc, Version::Second)?)
}
