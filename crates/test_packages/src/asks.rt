// What is asked of the tables of a package at rest: any statement's rows, and look-ups by number, by
// place and by span.

use crate::lines::Line;
use package_tables::attributes::{attribute_by_id, attribute_ids_within};
use package_tables::fault::Fault;
use package_tables::media::medium_by_id;
use package_tables::tiles::{has_tile_at, tile_by_id, tile_ids_between};
use sqlite::{Alter, Connection, Error};
use std::alloc::{AllocError, Global};
use store_sql::forms::is_inert;
use test_values::{answered, at_rest};

fn texts_of<S: Alter>(a: Global, conn: &mut Connection<S>, sql: &str) -> Result<String, Error> {
    let rows = conn.query_all(sql, &[])?;
    let mut told = String::new(a);
    for row in &rows {
        let text: String = row.get(0)?;
        told.push_str(&text)?;
        told.push(';')?;
    }
    Ok(told)
}

/// The first column of each row that a statement answers, a text, with an end behind it.
pub(crate) fn rows_told<S: Alter>(
    a: Global,
    conn: &mut Connection<S>,
    sql: &str,
) -> Result<String, Fault> {
    Ok(texts_of(a, conn, sql)?)
}

fn counted(a: Global, count: usize) -> Result<String, AllocError> {
    format!(in a; "{count}")
}

/// What a look-up tells: of rows their number.
pub(crate) fn asked<S: Alter>(
    a: Global,
    conn: &mut Connection<S>,
    line: Line,
) -> Result<String, Fault> {
    at_rest(conn)?;
    let n = line.n;
    match line.kind {
        "tile_at" => answered(a, has_tile_at(conn, n[0], n[1], n[2])?),
        "tiles_between" => {
            let tiles = tile_ids_between(conn, a, n[0], n[1], n[2], n[3], n[4])?;
            Ok(counted(a, tiles.len())?)
        }
        "rows_within" => {
            let rows = attribute_ids_within(conn, a, n[0], n[1], n[2], n[3])?;
            Ok(counted(a, rows.len())?)
        }
        "has_tile" => answered(a, tile_by_id(conn, n[0])?.is_some()),
        "has_medium" => answered(a, medium_by_id(conn, n[0])?.is_some()),
        "has_row" => answered(a, attribute_by_id(conn, n[0])?.is_some()),
        "is_inert" => answered(a, is_inert(conn.schema())),
        _ => Ok(String::from_str(a, "no question")?),
    }
}
