//! Which frame the fixed rows of a store of the first version are of, and whether they are dated.
//! Each look asks for its own table alone.
ghost use Rattle.std.specs.Prelude.{◌↔◌, pos, true, IsTrue};
ghost use Rattle.std.specs.Ordering.{on, int_cmp};
ghost use Rattle.sqlite.specs.Held.{state};
ghost use Rattle.store_sql.specs.Transactions.{Rests, Looks};
ghost use Rattle.package_tables.specs.Calls.{AreAll, AreThose};
ghost use Rattle.package_tables.specs.Damaged.{AreFormedAt};
ghost use Rattle.package_tables.specs.Package.{tables_of};
ghost use Rattle.package_tables.specs.Shape.{rows_of, IsFormed};
ghost use Rattle.package_tables.specs.Shapes.{contents_shape, relation_shape, spatial_ref_sys_shape};
ghost use Rattle.package_tables.specs.Shapes.{tile_matrix_set_shape, tile_matrix_shape};
ghost use Rattle.package_schema.specs.Frames.{AreDated, AreRead, ReadsFirstFrame};
ghost use Rattle.package_schema.specs.Looking.{Sees};

use crate::fixed_rows::FixedRows;
use crate::frame_rows::frame_of;
use crate::frames::have_moments;
use crate::versions::Version;
use package_tables::fault::Fault;
use package_tables::from_row::all_of;
use package_tables::rows::{
    ContentsRow, RelationRow, SpatialRefSysRow, TileMatrixRow, TileMatrixSetRow,
};
use sheet_types::frame::Frame;
use sqlite::{Alter, Connection};
use std::alloc::Global;

fn read_systems<S: Alter>(
    conn: &mut Connection<S>,
    alloc: Global,
) -> Result<Vec<SpatialRefSysRow>, Fault>
    requires { Rests (state S.Store conn.old) }
    ensures { Looks (Sees (λ db found. IsFormed spatial_ref_sys_shape db
        → AreAll (on (λ x. x.srs_id) int_cmp) (rows_of spatial_ref_sys_shape db) found.items))
        (state S.Store conn.old) (state S.Store conn.new) result }
{
    all_of(
        alloc,
        conn.query_all("SELECT * FROM gpkg_spatial_ref_sys ORDER BY srs_id", &[]),
    )
}

fn read_contents<S: Alter>(
    conn: &mut Connection<S>,
    alloc: Global,
) -> Result<Vec<ContentsRow>, Fault>
    requires { Rests (state S.Store conn.old) }
    ensures { Looks (Sees (λ db found. IsFormed contents_shape db
        → AreThose (λ _. true) (rows_of contents_shape db) found.items)) (state S.Store conn.old)
        (state S.Store conn.new) result }
{
    all_of(
        alloc,
        conn.query_all("SELECT * FROM gpkg_contents ORDER BY table_name", &[]),
    )
}

fn read_sets<S: Alter>(
    conn: &mut Connection<S>,
    alloc: Global,
) -> Result<Vec<TileMatrixSetRow>, Fault>
    requires { Rests (state S.Store conn.old) }
    ensures { Looks (Sees (λ db found. IsFormed tile_matrix_set_shape db
        → AreThose (λ _. true) (rows_of tile_matrix_set_shape db) found.items)) (state S.Store conn.old)
        (state S.Store conn.new) result }
{
    all_of(
        alloc,
        conn.query_all(
            "SELECT * FROM gpkg_tile_matrix_set ORDER BY table_name",
            &[],
        ),
    )
}

fn read_levels<S: Alter>(
    conn: &mut Connection<S>,
    alloc: Global,
) -> Result<Vec<TileMatrixRow>, Fault>
    requires { Rests (state S.Store conn.old) }
    ensures { Looks (Sees (λ db found. IsFormed tile_matrix_shape db
        → AreAll (on (λ x. x.zoom_level) int_cmp) (rows_of tile_matrix_shape db) found.items))
        (state S.Store conn.old) (state S.Store conn.new) result }
{
    all_of(
        alloc,
        conn.query_all("SELECT * FROM gpkg_tile_matrix ORDER BY zoom_level", &[]),
    )
}

fn read_relations<S: Alter>(
    conn: &mut Connection<S>,
    alloc: Global,
) -> Result<Vec<RelationRow>, Fault>
    requires { Rests (state S.Store conn.old) }
    ensures { Looks (Sees (λ db found. IsFormed relation_shape db
        → AreAll (on (λ x. x.id) int_cmp) (rows_of relation_shape db) found.items)) (state S.Store conn.old)
        (state S.Store conn.new) result }
{
    all_of(
        alloc,
        conn.query_all("SELECT * FROM gpkgext_relations ORDER BY id", &[]),
    )
}

/// All rows of the tables that are the same in every package but for the frame.
fn first_rows<S: Alter>(conn: &mut Connection<S>, alloc: Global) -> Result<FixedRows, Fault>
    requires { Rests (state S.Store conn.old) }
    ensures { Looks (Sees (λ db found. AreFormedAt (pos 1) db → AreRead (tables_of db) found))
        (state S.Store conn.old) (state S.Store conn.new) result }
{
    let systems = read_systems(conn, alloc)?;
    let listed = read_contents(conn, alloc)?;
    let sets = read_sets(conn, alloc)?;
    let levels = read_levels(conn, alloc)?;
    let related = read_relations(conn, alloc)?;
    Ok(FixedRows {
        systems,
        listed,
        sets,
        levels,
        related,
    })
}

/// The frame whose fixed rows a store of the first version has, in a store whose fourteen tables
/// have their form; none where there is no such frame.
///
/// # Errors
///
/// `OutOfMemory` where a growth was refused, and `StoreFault` where the store failed or a text is no UTF-8.
pub fn read_first_frame<S: Alter>(
    conn: &mut Connection<S>,
    alloc: Global,
) -> Result<Option<Frame>, Fault>
    requires { Rests (state S.Store conn.old) }
    ensures { Looks (Sees (λ db found. AreFormedAt (pos 1) db → ReadsFirstFrame (tables_of db) found))
        (state S.Store conn.old) (state S.Store conn.new) result }
{
    let found = first_rows(conn, alloc)?;
    Ok(frame_of(&found, alloc, Version::First)?)
}

/// Whether the last change of each table has a moment, in a store whose contents have their form.
///
/// # Errors
///
/// Those of `read_first_frame`.
pub fn is_dated<S: Alter>(conn: &mut Connection<S>, alloc: Global) -> Result<bool, Fault>
    requires { Rests (state S.Store conn.old) }
    ensures { Looks (Sees (λ db dated. IsFormed contents_shape db → (IsTrue dated ↔ AreDated (tables_of db))))
        (state S.Store conn.old) (state S.Store conn.new) result }
{
    let rows = read_contents(conn, alloc)?;
    Ok(have_moments(&rows))
}
