//! Whether rows, identities and mapping rows belong together: their numbers are read, a statement a
//! table, and compared in memory. An error is want of memory, or a store that failed; the store
//! holds what it held.
ghost use Rattle.std.specs.Prelude.{◌≡◌, ◌++◌, pos, map, true, IfOk, IsPermutation, IsSorted};
ghost use Rattle.std.specs.List.{AllByRecursion};
ghost use Rattle.sqlite.specs.Held.{state};
ghost use Rattle.store_sql.specs.Transactions.{Rests};
ghost use Rattle.package_tables.specs.Calls.{LooksUp};
ghost use Rattle.package_tables.specs.Package.{Tables};
ghost use Rattle.package_items.specs.Answers.{Decides};
ghost use Rattle.package_items.specs.Tied.{AreTied};
ghost use Rattle.package_items.specs.Ties.{key_cmp, name_key, row_keys, has_names, AreKeysOf};

use crate::sorted::{has, has_all, in_order};
use identity_register::kinds::{MEDIUM, ROW, TILE, number_of_kind};
use package_tables::attributes::attribute_ids;
use package_tables::fault::Fault;
use package_tables::identities::all_identities;
use package_tables::mappings::all_pairs;
use package_tables::media::medium_ids;
use package_tables::rows::{IdentityRow, MappingRow};
use package_tables::tiles::tile_ids;
use sheet_types::command::Mapping;
use sqlite::{Alter, Connection};
use std::alloc::Global;

/// All by which a store's tables are tied: the kinds and numbers of its identities and of its rows,
/// and its mapping rows.
#[derive(Drop)]
struct TieKeys {
    names: Vec<(i64, i64)>,
    rows: Vec<(i64, i64)>,
    tiles_media: Vec<MappingRow>,
    rows_media: Vec<MappingRow>,
    rows_tiles: Vec<MappingRow>,
}

/// The kinds and numbers of identity rows.
fn names_of(alloc: Global, rows: Vec<IdentityRow>) -> Result<Vec<(i64, i64)>, Fault>
    ensures { IfOk result (λ names. names.items ≡ map name_key rows.items) }
{
    let names = rows.into_iter().map(|row| (row.kind, row.local_id));
    Ok(names.collect(alloc)?)
}

/// The kinds and numbers of all identities.
fn read_names<S: Alter>(conn: &mut Connection<S>, alloc: Global) -> Result<Vec<(i64, i64)>, Fault>
    requires { Rests (state S.Store conn.old) }
    ensures { LooksUp (λ t names. IsPermutation (map name_key t.identities) names.items) (state S.Store conn.old)
        (state S.Store conn.new) result }
{
    let rows = all_identities(conn, alloc)?;
    names_of(alloc, rows)
}

/// The numbers of rows of the three user tables, each with its kind.
fn keys_of(
    alloc: Global,
    tiles: Vec<i64>,
    media: Vec<i64>,
    rows: Vec<i64>,
) -> Result<Vec<(i64, i64)>, Fault>
    ensures { IfOk result (λ keys. keys.items ≡ map (λ n. (pos 1, n)) tiles.items
        ++ map (λ n. (pos 2, n)) media.items
        ++ map (λ n. (pos 3, n)) rows.items) }
{
    let tiles = tiles.into_iter().map(|number| (TILE, number));
    let media = media.into_iter().map(|number| (MEDIUM, number));
    let rows = rows.into_iter().map(|number| (ROW, number));
    Ok(tiles.chain(media).chain(rows).collect(alloc)?)
}

/// The kinds and numbers of all rows of the user tables.
fn read_rows<S: Alter>(conn: &mut Connection<S>, alloc: Global) -> Result<Vec<(i64, i64)>, Fault>
    requires { Rests (state S.Store conn.old) }
    ensures { LooksUp (λ t keys. IsPermutation (row_keys t) keys.items) (state S.Store conn.old)
        (state S.Store conn.new) result }
{
    let tiles = tile_ids(conn, alloc)?;
    let media = medium_ids(conn, alloc)?;
    let rows = attribute_ids(conn, alloc)?;
    keys_of(alloc, tiles, media, rows)
}

/// All of it, read a table at a time.
fn read_keys<S: Alter>(conn: &mut Connection<S>, alloc: Global) -> Result<TieKeys, Fault>
    requires { Rests (state S.Store conn.old) }
    ensures { LooksUp AreKeysOf (state S.Store conn.old) (state S.Store conn.new) result }
{
    let names = read_names(conn, alloc)?;
    let rows = read_rows(conn, alloc)?;
    let tiles_media = all_pairs(conn, Mapping::TilesMedia, alloc)?;
    let rows_media = all_pairs(conn, Mapping::RowsMedia, alloc)?;
    let rows_tiles = all_pairs(conn, Mapping::RowsTiles, alloc)?;
    Ok(TieKeys {
        names,
        rows,
        tiles_media,
        rows_media,
        rows_tiles,
    })
}

/// Whether both numbers of a mapping row are those of identities, each of the kind that the mapping relates.
fn has_names(names: &[(i64, i64)], mapping: Mapping, pair: MappingRow) -> bool
    requires { IsSorted key_cmp names.now }
    ensures { result ≡ has_names names.now mapping pair }
{
    let base = has(names, &(number_of_kind(mapping.base_kind()), pair.base_id));
    let other = has(
        names,
        &(number_of_kind(mapping.other_kind()), pair.related_id),
    );
    base & other
}

/// Whether those of each mapping row are.
fn have_names(names: &[(i64, i64)], mapping: Mapping, pairs: &[MappingRow]) -> bool
    requires { IsSorted key_cmp names.now }
    ensures { Decides (AllByRecursion (λ r. has_names names.now mapping r ≡ true) pairs.now) result }
{
    for pair in pairs {
        if !has_names(names, mapping, *pair) {
            return false;
        }
    }
    true
}

/// Whether tables that have these keys are tied.
fn are_tied_by(keys: TieKeys) -> bool
    ensures { (t : Tables) → AreKeysOf t keys → Decides (AreTied t) result }
{
    let names = in_order(keys.names);
    let rows = in_order(keys.rows);
    let rows_have_names = has_all(&names, &rows);
    let names_have_rows = has_all(&rows, &names);
    let tiles_media = have_names(&names, Mapping::TilesMedia, &keys.tiles_media);
    let rows_media = have_names(&names, Mapping::RowsMedia, &keys.rows_media);
    let rows_tiles = have_names(&names, Mapping::RowsTiles, &keys.rows_tiles);
    rows_have_names & names_have_rows & tiles_media & rows_media & rows_tiles
}

/// Whether each row of the user tables has an identity, each identity a row, and each mapping row
/// the rows of its numbers. What is compared is in memory: two numbers a row, an identity and a
/// mapping row.
pub fn are_tied<S: Alter>(conn: &mut Connection<S>, alloc: Global) -> Result<bool, Fault>
    requires { Rests (state S.Store conn.old) }
    ensures { LooksUp (λ t. Decides (AreTied t)) (state S.Store conn.old) (state S.Store conn.new) result }
{
    let keys = read_keys(conn, alloc)?;
    Ok(are_tied_by(keys))
}
