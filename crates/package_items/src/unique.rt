//! What the UNIQUE constraints of the tables exclude, seen for itself before anything rests on it.
//! An error is want of memory, or a store that failed or in which something is there twice; the
//! store holds what it held.
ghost use Rattle.std.specs.Prelude.{◌≡◌, map, true, IfOk};
ghost use Rattle.std.specs.BTreeSet.{IsFromIterResult};
ghost use Rattle.std.specs.List.{IsDistinct};
ghost use Rattle.std.specs.Ordering.{eq_by_cmp};
ghost use Rattle.sqlite.specs.Held.{state};
ghost use Rattle.store_sql.specs.Transactions.{Rests};
ghost use Rattle.package_tables.specs.Calls.{LooksUp};
ghost use Rattle.package_tables.specs.Mappings.{mapping_rows};
ghost use Rattle.identity_register.specs.Numbering.{is_pair};
ghost use Rattle.std.specs.Prelude.{Contains};
ghost use Rattle.package_items.specs.Spots.{spot_at, is_same_spot};
ghost use Rattle.package_items.specs.Tied.{AreUnique, is_same_row, is_same_uuid, is_same_place};
ghost use Rattle.package_items.specs.Uniques.{AreIdentitiesUnique, ArePairsUnique};

use crate::next_rows::next_row;
use crate::user_tables::UserTable;
use identity_register::whole::Placed;
use package_tables::fault::Fault;
use package_tables::identities::all_identities;
use package_tables::mappings::all_pairs;
use package_tables::rows::{IdentityRow, MappingRow};
use sheet_types::command::{Content, Mapping};
use sqlite::{Alter, Connection};
use std::alloc::{AllocError, Global};
use std::collections::BTreeSet;

/// These keys as a set.
fn set_of<K: Ord + Drop>(alloc: Global, keys: Vec<K>) -> Result<BTreeSet<K>, AllocError>
    ensures { IfOk result (IsFromIterResult K.cmp keys.items) }
{
    keys.into_iter().collect(alloc)
}

/// Whether no two of these keys are equal.
fn are_apart<K: Ord + Drop>(alloc: Global, keys: Vec<K>) -> Result<bool, Fault>
    ensures { IfOk result (λ apart. apart ≡ true → IsDistinct (eq_by_cmp K.cmp) keys.items) }
{
    let count = keys.len();
    let set = set_of(alloc, keys)?;
    Ok(set.len() == count)
}

/// The kinds and numbers of identity rows.
fn numbers_of(alloc: Global, rows: &[IdentityRow]) -> Result<Vec<(i64, i64)>, Fault>
    ensures { IfOk result (λ keys. keys.items ≡ map (λ r. (r.kind, r.local_id)) rows.now) }
{
    Ok(
        rows.iter()
            .map(|row| (row.kind, row.local_id))
            .collect(alloc)?,
    )
}

/// The UUIDs of identity rows, as they are written.
fn uuids_of(alloc: Global, rows: &[IdentityRow]) -> Result<Vec<&[u8]>, Fault>
    ensures { IfOk result (λ keys. map (λ k. k.now) keys.items ≡ map (λ r. r.uuid) rows.now) }
{
    let mut keys = Vec::with_capacity(alloc, rows.len())?;
    for row in rows {
        keys.push(row.uuid.as_str().as_bytes())?;
    }
    Ok(keys)
}

/// The numbers of both rows of mapping rows.
fn ends_of(alloc: Global, pairs: &[MappingRow]) -> Result<Vec<(i64, i64)>, Fault>
    ensures { IfOk result (λ keys. keys.items ≡ map (λ r. (r.base_id, r.related_id)) pairs.now) }
{
    Ok(
        pairs
            .iter()
            .map(|pair| (pair.base_id, pair.related_id))
            .collect(alloc)?,
    )
}

/// Sees that no two of these identity rows are of one row, and no two have one UUID.
fn see_rows(alloc: Global, rows: &[IdentityRow]) -> Result<(), Fault>
    ensures numbers { IfOk result (λ _. IsDistinct is_same_row rows.now) }
    ensures uuids { IfOk result (λ _. IsDistinct is_same_uuid rows.now) }
{
    let numbers = numbers_of(alloc, rows)?;
    let uuids = uuids_of(alloc, rows)?;
    if are_apart(alloc, numbers)? & are_apart(alloc, uuids)? {
        Ok(())
    } else {
        Err(Fault::StoreFault)
    }
}

/// Sees that no two of these mapping rows relate the same two rows.
fn see_pairs(alloc: Global, pairs: &[MappingRow]) -> Result<(), Fault>
    ensures { IfOk result (λ _. IsDistinct is_pair pairs.now) }
{
    let ends = ends_of(alloc, pairs)?;
    if are_apart(alloc, ends)? {
        Ok(())
    } else {
        Err(Fault::StoreFault)
    }
}

/// Sees that no two identities of the store are of one row, and no two have one UUID.
fn see_identities<S: Alter>(conn: &mut Connection<S>, alloc: Global) -> Result<(), Fault>
    requires { Rests (state S.Store conn.old) }
    ensures { LooksUp (λ t _. AreIdentitiesUnique t) (state S.Store conn.old) (state S.Store conn.new) result }
{
    let rows = all_identities(conn, alloc)?;
    see_rows(alloc, &rows)
}

/// Sees that no two rows of a mapping table relate the same two rows.
fn see_mapping<S: Alter>(
    conn: &mut Connection<S>,
    mapping: Mapping,
    alloc: Global,
) -> Result<(), Fault>
    requires { Rests (state S.Store conn.old) }
    ensures { LooksUp (λ t _. IsDistinct is_pair (mapping_rows mapping t)) (state S.Store conn.old)
        (state S.Store conn.new) result }
{
    let pairs = all_pairs(conn, mapping, alloc)?;
    see_pairs(alloc, &pairs)
}

/// Sees the same of all mapping tables.
fn see_mappings<S: Alter>(conn: &mut Connection<S>, alloc: Global) -> Result<(), Fault>
    requires { Rests (state S.Store conn.old) }
    ensures { LooksUp (λ t _. ArePairsUnique t) (state S.Store conn.old) (state S.Store conn.new) result }
{
    see_mapping(conn, Mapping::TilesMedia, alloc)?;
    see_mapping(conn, Mapping::RowsMedia, alloc)?;
    see_mapping(conn, Mapping::RowsTiles, alloc)
}

/// A tile's number and its place (OGC GeoPackage 1.3, 2.2.8).
#[derive(Clone, Copy)]
struct Spot {
    number: i64,
    zoom: i64,
    column: i64,
    row: i64,
}

/// Where a tile lies.
fn spot_of(tile: &Placed) -> Spot
    ensures { result ≡ spot_at tile.now }
{
    match &tile.content {
        Content::Tile {
            zoom,
            column,
            row,
            ..
        } => Spot {
            number: tile.number,
            zoom: *zoom,
            column: *column,
            row: *row,
        },
        Content::Media { .. } | Content::Row { .. } => Spot {
            number: tile.number,
            zoom: 0,
            column: 0,
            row: 0,
        },
    }
}

/// The places of spots.
fn places_of(alloc: Global, spots: &[Spot]) -> Result<Vec<(i64, i64, i64)>, Fault>
    ensures { IfOk result (λ keys. keys.items ≡ map (λ s. (s.zoom, s.column, s.row)) spots.now) }
{
    Ok(
        spots
            .iter()
            .map(|spot| (spot.zoom, spot.column, spot.row))
            .collect(alloc)?,
    )
}

/// Sees that no two spots are one place.
fn see_spots(alloc: Global, spots: &[Spot]) -> Result<(), Fault>
    ensures { IfOk result (λ _. IsDistinct is_same_spot spots.now) }
{
    let places = places_of(alloc, spots)?;
    if are_apart(alloc, places)? {
        Ok(())
    } else {
        Err(Fault::StoreFault)
    }
}

/// Sees that no two tiles of the store are in one place. Their data are in memory one at a time.
fn see_places<S: Alter>(conn: &mut Connection<S>, alloc: Global) -> Result<(), Fault>
    requires { Rests (state S.Store conn.old) }
    ensures { LooksUp (λ t _. IsDistinct is_same_place t.tiles) (state S.Store conn.old) (state S.Store conn.new)
        result }
{
    let mut spots = Vec::new(alloc);
    let mut last = None;
    for _ in 0..u64::MAX {
        match next_row(conn, UserTable::TileTable, last)? {
            None => return see_spots(alloc, &spots),
            Some(tile) => {
                spots.push(spot_of(&tile))?;
                last = Some(tile.number);
            }
        }
    }
    Err(Fault::StoreFault)
}

/// Sees that no identity, no place of a tile and no pair is there twice.
///
/// # Errors
///
/// `StoreFault` where one is, which the constraints of the tables exclude; want of memory, or a store that failed.
pub fn check_unique<S: Alter>(conn: &mut Connection<S>, alloc: Global) -> Result<(), Fault>
    requires { Rests (state S.Store conn.old) }
    ensures { LooksUp (λ t _. AreUnique t) (state S.Store conn.old) (state S.Store conn.new) result }
{
    see_identities(conn, alloc)?;
    see_places(conn, alloc)?;
    see_mappings(conn, alloc)
}
