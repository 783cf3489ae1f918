//! What is read of the tables that are the same in every package but for the frame: reference
//! systems, contents, tile matrices and relations; and the moment of their last change. The rows
//! are written when a package is made (`new_packages`).
ghost use Rattle.std.specs.Prelude.{◌≡◌, true};
ghost use Rattle.std.specs.Ordering.{on, int_cmp};
ghost use Rattle.sqlite.specs.State.{Survives};
ghost use Rattle.sqlite.specs.Held.{state};
ghost use Rattle.store_sql.specs.Transactions.{Rests};
ghost use Rattle.package_tables.specs.Calls.{Makes, LooksUp, AreThose, AreAll};
ghost use Rattle.package_tables.specs.Changes.{SetsLastChange};

use crate::fault::{Fault, drop_count};
use crate::from_row::{FromRow, all_of, number_at, text_at};
use crate::rows::{ContentsRow, RelationRow, SpatialRefSysRow, TileMatrixRow, TileMatrixSetRow};
use sqlite::{Alter, Connection, Row, Transaction, params};
use std::alloc::Global;

/// Says when each table changed last, in `last_change` of each row of the contents (OGC GeoPackage 1.3, 1.1.3).
pub fn set_last_change<S: Alter>(tx: &mut Transaction<'_, S>, at: &str) -> Result<(), Fault>
    ensures same_reference { tx.new.conn.ghost_name ≡ tx.old.conn.ghost_name }
    ensures wrote { Makes (SetsLastChange at.now) (state S.Store tx.old.conn.now) (state S.Store tx.new.conn.now)
        result }
    ensures survives { Survives (state S.Store tx.old.conn.now) (state S.Store tx.new.conn.now) (λ _. ⊥) }
{
    drop_count(tx.execute("UPDATE gpkg_contents SET last_change = ?1", params![at]))
}

impl FromRow for SpatialRefSysRow {
    ghost use Rattle.package_tables.specs.Shown.{spatial_ref_sys_shown};

    ghost shown = { spatial_ref_sys_shown };

    fn from_row(row: &Row) -> Result<SpatialRefSysRow, Fault> {
        if row.column_count() != 6 {
            return Err(Fault::StoreFault);
        }
        Ok(SpatialRefSysRow {
            srs_id: number_at(row, 1)?,
            organization_coordsys_id: number_at(row, 3)?,
            srs_name: text_at(row, 0)?,
            organization: text_at(row, 2)?,
            definition: text_at(row, 4)?,
            description: text_at(row, 5)?,
        })
    }
}

/// All reference systems (OGC GeoPackage 1.3, 1.1.2), by their numbers.
pub fn all_spatial_ref_sys<S: Alter>(
    conn: &mut Connection<S>,
    alloc: Global,
) -> Result<Vec<SpatialRefSysRow>, Fault>
    requires { Rests (state S.Store conn.old) }
    ensures { LooksUp (λ t found. AreAll (on (λ x. x.srs_id) int_cmp) t.spatial_ref_sys found.items)
        (state S.Store conn.old) (state S.Store conn.new) result }
{
    all_of(
        alloc,
        conn.query_all("SELECT * FROM gpkg_spatial_ref_sys ORDER BY srs_id", &[]),
    )
}

impl FromRow for ContentsRow {
    ghost use Rattle.package_tables.specs.Shown.{contents_shown};

    ghost shown = { contents_shown };

    fn from_row(row: &Row) -> Result<ContentsRow, Fault> {
        if row.column_count() != 10 {
            return Err(Fault::StoreFault);
        }
        Ok(ContentsRow {
            min_x: number_at(row, 5)?,
            min_y: number_at(row, 6)?,
            max_x: number_at(row, 7)?,
            max_y: number_at(row, 8)?,
            srs_id: number_at(row, 9)?,
            table_name: text_at(row, 0)?,
            data_type: text_at(row, 1)?,
            identifier: text_at(row, 2)?,
            description: text_at(row, 3)?,
            last_change: text_at(row, 4)?,
        })
    }
}

/// All rows of the contents (OGC GeoPackage 1.3, 1.1.3). The text orders them, so that a report of
/// them is always the same; the clause promises no order, as nobody needs one.
pub fn all_contents<S: Alter>(
    conn: &mut Connection<S>,
    alloc: Global,
) -> Result<Vec<ContentsRow>, Fault>
    requires { Rests (state S.Store conn.old) }
    ensures { LooksUp (λ t found. AreThose (λ _. true) t.contents found.items) (state S.Store conn.old)
        (state S.Store conn.new) result }
{
    all_of(
        alloc,
        conn.query_all("SELECT * FROM gpkg_contents ORDER BY table_name", &[]),
    )
}

impl FromRow for TileMatrixSetRow {
    ghost use Rattle.package_tables.specs.Shown.{tile_matrix_set_shown};

    ghost shown = { tile_matrix_set_shown };

    fn from_row(row: &Row) -> Result<TileMatrixSetRow, Fault> {
        if row.column_count() != 6 {
            return Err(Fault::StoreFault);
        }
        Ok(TileMatrixSetRow {
            srs_id: number_at(row, 1)?,
            min_x: number_at(row, 2)?,
            min_y: number_at(row, 3)?,
            max_x: number_at(row, 4)?,
            max_y: number_at(row, 5)?,
            table_name: text_at(row, 0)?,
        })
    }
}

/// All tile matrix sets (OGC GeoPackage 1.3, 2.2.6); as with the contents, no order is promised.
pub fn all_tile_matrix_sets<S: Alter>(
    conn: &mut Connection<S>,
    alloc: Global,
) -> Result<Vec<TileMatrixSetRow>, Fault>
    requires { Rests (state S.Store conn.old) }
    ensures { LooksUp (λ t found. AreThose (λ _. true) t.tile_matrix_set found.items) (state S.Store conn.old)
        (state S.Store conn.new) result }
{
    all_of(
        alloc,
        conn.query_all(
            "SELECT * FROM gpkg_tile_matrix_set ORDER BY table_name",
            &[],
        ),
    )
}

impl FromRow for TileMatrixRow {
    ghost use Rattle.package_tables.specs.Shown.{tile_matrix_shown};

    ghost shown = { tile_matrix_shown };

    fn from_row(row: &Row) -> Result<TileMatrixRow, Fault> {
        if row.column_count() != 8 {
            return Err(Fault::StoreFault);
        }
        Ok(TileMatrixRow {
            zoom_level: number_at(row, 1)?,
            matrix_width: number_at(row, 2)?,
            matrix_height: number_at(row, 3)?,
            tile_width: number_at(row, 4)?,
            tile_height: number_at(row, 5)?,
            pixel_x_size: number_at(row, 6)?,
            pixel_y_size: number_at(row, 7)?,
            table_name: text_at(row, 0)?,
        })
    }
}

/// All tile matrices (OGC GeoPackage 1.3, 2.2.7), by their zooms.
pub fn all_tile_matrices<S: Alter>(
    conn: &mut Connection<S>,
    alloc: Global,
) -> Result<Vec<TileMatrixRow>, Fault>
    requires { Rests (state S.Store conn.old) }
    ensures { LooksUp (λ t found. AreAll (on (λ x. x.zoom_level) int_cmp) t.tile_matrix found.items)
        (state S.Store conn.old) (state S.Store conn.new) result }
{
    all_of(
        alloc,
        conn.query_all("SELECT * FROM gpkg_tile_matrix ORDER BY zoom_level", &[]),
    )
}

impl FromRow for RelationRow {
    ghost use Rattle.package_tables.specs.Shown.{relation_shown};

    ghost shown = { relation_shown };

    fn from_row(row: &Row) -> Result<RelationRow, Fault> {
        if row.column_count() != 7 {
            return Err(Fault::StoreFault);
        }
        Ok(RelationRow {
            id: number_at(row, 0)?,
            base_table_name: text_at(row, 1)?,
            base_primary_column: text_at(row, 2)?,
            related_table_name: text_at(row, 3)?,
            related_primary_column: text_at(row, 4)?,
            relation_name: text_at(row, 5)?,
            mapping_table_name: text_at(row, 6)?,
        })
    }
}

/// All relations (OGC 18-000, extended relations), by their numbers.
pub fn all_relations<S: Alter>(
    conn: &mut Connection<S>,
    alloc: Global,
) -> Result<Vec<RelationRow>, Fault>
    requires { Rests (state S.Store conn.old) }
    ensures { LooksUp (λ t found. AreAll (on (λ x. x.id) int_cmp) t.relations found.items) (state S.Store conn.old)
        (state S.Store conn.new) result }
{
    all_of(
        alloc,
        conn.query_all("SELECT * FROM gpkgext_relations ORDER BY id", &[]),
    )
}
