//! The rows of the user tables one after the other, so that no more than one content is in memory.
ghost use Rattle.std.specs.Prelude.{◌≡◌, filter};
ghost use Rattle.sqlite.specs.Held.{state};
ghost use Rattle.store_sql.specs.Transactions.{Rests};
ghost use Rattle.identity_register.specs.Gathered.{tile_placed, medium_placed, attributes_placed};
ghost use Rattle.package_tables.specs.Calls.{LooksUp, IsLeast};
ghost use Rattle.package_items.specs.Walks.{is_past, IsNextRow};

use crate::user_tables::UserTable;
use identity_register::kinds::{MEDIUM, ROW, TILE};
use identity_register::whole::Placed;
use package_tables::fault::Fault;
use package_tables::from_row::first_of;
use package_tables::rows::{AttributeRow, MediaRow, TileRow};
use sheet_types::command::Content;
use sqlite::{Alter, Connection, params};

/// The tile of the least number after the last one; the first, where there is no last one.
fn tile_past<S: Alter>(
    conn: &mut Connection<S>,
    last: Option<i64>,
) -> Result<Option<TileRow>, Fault>
    requires { Rests (state S.Store conn.old) }
    ensures { LooksUp (λ t. IsLeast (λ x. x.id) (filter (λ x. is_past last x.id) t.tiles)) (state S.Store conn.old)
        (state S.Store conn.new) result }
{
    match last {
        None => first_of(conn.query_all("SELECT * FROM sheet_tiles ORDER BY id LIMIT 1", &[])),
        Some(id) => first_of(conn.query_all(
            "SELECT * FROM sheet_tiles WHERE id > ?1 ORDER BY id LIMIT 1",
            params![id],
        )),
    }
}

/// The medium of the least number after the last one; the first, where there is no last one.
fn medium_past<S: Alter>(
    conn: &mut Connection<S>,
    last: Option<i64>,
) -> Result<Option<MediaRow>, Fault>
    requires { Rests (state S.Store conn.old) }
    ensures { LooksUp (λ t. IsLeast (λ x. x.id) (filter (λ x. is_past last x.id) t.media)) (state S.Store conn.old)
        (state S.Store conn.new) result }
{
    match last {
        None => first_of(conn.query_all("SELECT * FROM sheet_media ORDER BY id LIMIT 1", &[])),
        Some(id) => first_of(conn.query_all(
            "SELECT * FROM sheet_media WHERE id > ?1 ORDER BY id LIMIT 1",
            params![id],
        )),
    }
}

/// The attributes row of the least number after the last one; the first, where there is no last one.
fn attributes_past<S: Alter>(
    conn: &mut Connection<S>,
    last: Option<i64>,
) -> Result<Option<AttributeRow>, Fault>
    requires { Rests (state S.Store conn.old) }
    ensures { LooksUp (λ t. IsLeast (λ x. x.id) (filter (λ x. is_past last x.id) t.rows)) (state S.Store conn.old)
        (state S.Store conn.new) result }
{
    match last {
        None => first_of(conn.query_all("SELECT * FROM sheet_rows ORDER BY id LIMIT 1", &[])),
        Some(id) => first_of(conn.query_all(
            "SELECT * FROM sheet_rows WHERE id > ?1 ORDER BY id LIMIT 1",
            params![id],
        )),
    }
}

/// A tile with its kind and number.
fn placed_tile(tile: TileRow) -> Placed
    ensures { result ≡ tile_placed tile }
{
    Placed {
        kind: TILE,
        number: tile.id,
        content: Content::Tile {
            zoom: tile.zoom_level,
            column: tile.tile_column,
            row: tile.tile_row,
            bytes: tile.tile_data,
        },
    }
}

/// A medium with its kind and number.
fn placed_medium(medium: MediaRow) -> Placed
    ensures { result ≡ medium_placed medium }
{
    Placed {
        kind: MEDIUM,
        number: medium.id,
        content: Content::Media {
            content_type: medium.content_type,
            bytes: medium.data,
        },
    }
}

/// An attributes row with its kind and number.
fn placed_attributes(row: AttributeRow) -> Placed
    ensures { result ≡ attributes_placed row }
{
    Placed {
        kind: ROW,
        number: row.id,
        content: Content::Row {
            x: row.x,
            y: row.y,
            code: row.code,
            label: row.label,
        },
    }
}

/// The row of the least number after the last one in a table; the first, where there is no last one.
pub(crate) fn next_row<S: Alter>(
    conn: &mut Connection<S>,
    table: UserTable,
    last: Option<i64>,
) -> Result<Option<Placed>, Fault>
    requires { Rests (state S.Store conn.old) }
    ensures { LooksUp (IsNextRow table last) (state S.Store conn.old) (state S.Store conn.new) result }
{
    match table {
        UserTable::TileTable => match tile_past(conn, last)? {
            None => Ok(None),
            Some(tile) => Ok(Some(placed_tile(tile))),
        },
        UserTable::MediaTable => match medium_past(conn, last)? {
            None => Ok(None),
            Some(medium) => Ok(Some(placed_medium(medium))),
        },
        UserTable::RowTable => match attributes_past(conn, last)? {
            None => Ok(None),
            Some(row) => Ok(Some(placed_attributes(row))),
        },
    }
}
