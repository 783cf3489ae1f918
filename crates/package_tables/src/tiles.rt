//! The statements on `sheet_tiles`.
ghost use Rattle.std.specs.Prelude.{◌≡◌, ◌&&◌, int_le, map};
ghost use Rattle.std.specs.List.{list_any};
ghost use Rattle.std.specs.Ordering.{int_eq, int_cmp, on};
ghost use Rattle.sqlite.specs.State.{Survives};
ghost use Rattle.sqlite.specs.Held.{state};
ghost use Rattle.store_sql.specs.Transactions.{Rests};
ghost use Rattle.package_tables.specs.Calls.{Makes, LooksUp, IsOneOf, AreNumbersOf, AreAll};
ghost use Rattle.package_tables.specs.Listed.{tiles};
ghost use Rattle.package_tables.specs.Changes.{Adds, DropsTile};

use crate::fault::{Fault, drop_count};
use crate::from_row::{FromRow, all_of, bytes_at, first_of, number_at};
use crate::numbers::{has_any, numbers_of};
use crate::rows::TileRow;
use sqlite::{Alter, Connection, Row, Transaction, params};
use std::alloc::Global;

impl FromRow for TileRow {
    ghost use Rattle.package_tables.specs.Shown.{tile_shown};

    ghost shown = { tile_shown };

    fn from_row(row: &Row) -> Result<TileRow, Fault> {
        if row.column_count() != 5 {
            return Err(Fault::StoreFault);
        }
        Ok(TileRow {
            id: number_at(row, 0)?,
            zoom_level: number_at(row, 1)?,
            tile_column: number_at(row, 2)?,
            tile_row: number_at(row, 3)?,
            tile_data: bytes_at(row, 4)?,
        })
    }
}

/// Puts a tile in, under a number and a place that are free.
pub fn insert_tile<S: Alter>(
    tx: &mut Transaction<'_, S>,
    id: i64,
    zoom_level: i64,
    tile_column: i64,
    tile_row: i64,
    tile_data: &[u8],
) -> Result<(), Fault>
    ensures same_reference { tx.new.conn.ghost_name ≡ tx.old.conn.ghost_name }
    ensures wrote { Makes (Adds tiles (record {
      id = id;
      zoom_level = zoom_level;
      tile_column = tile_column;
      tile_row = tile_row;
      tile_data = tile_data.now;
    })) (state S.Store tx.old.conn.now)
        (state S.Store tx.new.conn.now) result }
    ensures survives { Survives (state S.Store tx.old.conn.now) (state S.Store tx.new.conn.now) (λ _. ⊥) }
{
    drop_count(tx.execute(
        "INSERT INTO sheet_tiles VALUES (?1, ?2, ?3, ?4, ?5)",
        params![id, zoom_level, tile_column, tile_row, tile_data],
    ))
}

/// Takes out the tile of this number.
pub fn delete_tile<S: Alter>(tx: &mut Transaction<'_, S>, id: i64) -> Result<(), Fault>
    ensures same_reference { tx.new.conn.ghost_name ≡ tx.old.conn.ghost_name }
    ensures wrote { Makes (DropsTile id) (state S.Store tx.old.conn.now) (state S.Store tx.new.conn.now) result }
    ensures survives { Survives (state S.Store tx.old.conn.now) (state S.Store tx.new.conn.now) (λ _. ⊥) }
{
    drop_count(tx.execute("DELETE FROM sheet_tiles WHERE id = ?1", params![id]))
}

/// The tile of this number.
pub fn tile_by_id<S: Alter>(conn: &mut Connection<S>, id: i64) -> Result<Option<TileRow>, Fault>
    requires { Rests (state S.Store conn.old) }
    ensures { LooksUp (λ t. IsOneOf (λ x. int_eq x.id id) t.tiles) (state S.Store conn.old) (state S.Store conn.new)
        result }
{
    first_of(conn.query_all("SELECT * FROM sheet_tiles WHERE id = ?1", params![id]))
}

/// All tiles, by their numbers.
pub fn all_tiles<S: Alter>(conn: &mut Connection<S>, alloc: Global) -> Result<Vec<TileRow>, Fault>
    requires { Rests (state S.Store conn.old) }
    ensures { LooksUp (λ t found. AreAll (on (λ x. x.id) int_cmp) t.tiles found.items) (state S.Store conn.old)
        (state S.Store conn.new) result }
{
    all_of(
        alloc,
        conn.query_all("SELECT * FROM sheet_tiles ORDER BY id", &[]),
    )
}

/// The numbers of all tiles, in the order of the table. Only an index is read, so no bytes of a tile are.
pub fn tile_ids<S: Alter>(conn: &mut Connection<S>, alloc: Global) -> Result<Vec<i64>, Fault>
    requires { Rests (state S.Store conn.old) }
    ensures { LooksUp (λ t found. found.items ≡ map (λ r. r.id) t.tiles) (state S.Store conn.old)
        (state S.Store conn.new) result }
{
    numbers_of(alloc, conn.query_all("SELECT id FROM sheet_tiles", &[]))
}

/// Whether there is a tile in this place.
pub fn has_tile_at<S: Alter>(
    conn: &mut Connection<S>,
    zoom_level: i64,
    tile_column: i64,
    tile_row: i64,
) -> Result<bool, Fault>
    requires { Rests (state S.Store conn.old) }
    ensures { LooksUp (λ t found. found ≡ list_any (λ x. int_eq x.zoom_level zoom_level && int_eq x.tile_column
        tile_column && int_eq x.tile_row tile_row) t.tiles) (state S.Store conn.old) (state S.Store conn.new) result }
{
    has_any(conn.query_all(
        "SELECT id FROM sheet_tiles WHERE zoom_level = ?1 AND tile_column = ?2 AND tile_row = ?3",
        params![zoom_level, tile_column, tile_row],
    ))
}

/// The numbers of the tiles of a zoom level from the first to the last of some columns, and from the first to the last of
/// some rows.
pub fn tile_ids_between<S: Alter>(
    conn: &mut Connection<S>,
    alloc: Global,
    zoom_level: i64,
    first_column: i64,
    last_column: i64,
    first_row: i64,
    last_row: i64,
) -> Result<Vec<i64>, Fault>
    requires { Rests (state S.Store conn.old) }
    ensures { LooksUp (λ t found. AreNumbersOf (λ r. r.id) (λ x. int_eq x.zoom_level zoom_level && int_le
        first_column x.tile_column && int_le x.tile_column last_column && int_le first_row x.tile_row && int_le
        x.tile_row last_row) t.tiles found.items) (state S.Store conn.old) (state S.Store conn.new) result }
{
    all_of(
        alloc,
        conn.query_all(
            "SELECT id FROM sheet_tiles WHERE zoom_level = ?1 AND tile_column >= ?2 AND tile_column <= ?3 AND tile_row >= ?4 AND tile_row <= ?5",
            params![zoom_level, first_column, last_column, first_row, last_row],
        ),
    )
}
