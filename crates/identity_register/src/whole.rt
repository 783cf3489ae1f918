//! What a whole package holds, read by one statement a table. Identity rows and the rows of the
//! user tables are both read in the order of kind and number, so that each identity meets its
//! content without a look-up. An error is want of memory, a store that failed, or rows that no
//! package has; the store holds what it held.
ghost use Rattle.std.specs.Prelude.{◌≡◌, ◌++◌, map, bytes_eq, IfOk, IfErr, IsTrue, IsPermutation};
ghost use Rattle.std.specs.List.{AllByRecursion, AllZip, IsDistinct};
ghost use Rattle.sqlite.specs.Held.{state};
ghost use Rattle.store_sql.specs.Transactions.{Rests, Looks};
ghost use Rattle.sheet_types.specs.Lines.{IsUuid};
ghost use Rattle.sheet_types.specs.Ordered.{IsArranged};
ghost use Rattle.sheet_types.specs.Texts.{uuid_text};
ghost use Rattle.sheet_types.specs.World.{item_key, link_key};
ghost use Rattle.package_tables.specs.Calls.{LooksUp};
ghost use Rattle.identity_register.specs.Calls.{Sees};
ghost use Rattle.identity_register.specs.Gathered.{tile_placed, medium_placed, attributes_placed, IsPlaced, IsItemOf};
ghost use Rattle.identity_register.specs.Gathered.{AreItemsBy, IsNamed, IsLinkOf, AreLinksIn, AreLinksBy};

use crate::kinds::{MEDIUM, ROW, TILE, number_of_kind};
use crate::row_contents::{of_attributes, of_medium, of_tile};
use crate::stored_texts::stored_uuid;
use package_tables::attributes::all_attributes;
use package_tables::fault::Fault;
use package_tables::identities::all_identities;
use package_tables::mappings::all_pairs;
use package_tables::media::all_media;
use package_tables::rows::{AttributeRow, IdentityRow, MappingRow, MediaRow, TileRow};
use package_tables::tiles::all_tiles;
use sheet_types::command::{Content, Item, Mapping, Relation};
use sheet_types::sorting::{item_is_before, link_is_before};
use sqlite::{Alter, Connection};
use std::alloc::Global;
use uuid::Uuid;

/// The content of a row of a user table, under its kind and its number.
#[derive(Drop)]
pub struct Placed {
    pub kind: i64,
    pub number: i64,
    pub content: Content,
}

/// What rows of the user tables hold, by kind and number.
fn contents_of(
    tiles: Vec<TileRow>,
    media: Vec<MediaRow>,
    rows: Vec<AttributeRow>,
    alloc: Global,
) -> Result<Vec<Placed>, Fault>
    ensures { IfOk result (λ placed. placed.items ≡ map tile_placed tiles.items ++ map medium_placed media.items
        ++ map attributes_placed rows.items) }
{
    let tiles = tiles.into_iter().map(|tile| Placed {
        kind: TILE,
        number: tile.id,
        content: of_tile(tile),
    });
    let media = media.into_iter().map(|medium| Placed {
        kind: MEDIUM,
        number: medium.id,
        content: of_medium(medium),
    });
    let rows = rows.into_iter().map(|row| Placed {
        kind: ROW,
        number: row.id,
        content: of_attributes(row),
    });
    Ok(tiles.chain(media).chain(rows).collect(alloc)?)
}

/// What the user tables hold, by kind and number.
fn all_contents<S: Alter>(conn: &mut Connection<S>, alloc: Global) -> Result<Vec<Placed>, Fault>
    requires { Rests (state S.Store conn.old) }
    ensures { LooksUp (λ t placed. AllByRecursion (IsPlaced t) placed.items) (state S.Store conn.old)
        (state S.Store conn.new) result }
{
    let tiles = all_tiles(conn, alloc)?;
    let media = all_media(conn, alloc)?;
    let rows = all_attributes(conn, alloc)?;
    contents_of(tiles, media, rows, alloc)
}

/// The item of an identity row and of the content at its kind and number.
fn item_at(row: &IdentityRow, placed: Placed) -> Result<Item, Fault>
    ensures identity { IfOk result (λ i. row.now.uuid ≡ uuid_text i.identity) }
    ensures fit { IfOk result (λ i. IsUuid i.identity) }
    ensures content { IfOk result (λ i. placed ≡ record {
      kind = row.now.kind;
      number = row.now.local_id;
      content = i.content;
    }) }
{
    if row.kind != placed.kind || row.local_id != placed.number {
        return Err(Fault::StoreFault);
    }
    let identity = stored_uuid(row.uuid.as_str())?;
    Ok(Item {
        identity,
        content: placed.content,
    })
}

/// The items of identity rows, whose contents come in the same order.
fn items_of(rows: &[IdentityRow], placed: Vec<Placed>, alloc: Global) -> Result<Vec<Item>, Fault>
    ensures { IfOk result (λ items. AllZip (IsItemOf placed.items) rows.now items.items) }
{
    let mut items = Vec::new(alloc);
    let mut left = placed.into_iter();
    for row in rows {
        let Some(next) = left.next() else {
            return Err(Fault::StoreFault);
        };
        items.push(item_at(row, next)?)?;
    }
    Ok(items)
}

/// The items by kind and identity; a fault where one is there twice, as in no package.
pub(crate) fn items_in_order(mut items: Vec<Item>) -> Result<Vec<Item>, Fault>
    ensures same { IfOk result (λ sorted. IsPermutation items.items sorted.items) }
    ensures order { IfOk result (λ sorted. IsArranged item_key sorted.items) }
    ensures twice { IfErr result (λ _. IsDistinct bytes_eq (map item_key items.items) → ⊥) }
{
    items.sort_unstable_by_key(|item| (item.content.kind().number(), item.identity));
    if items.is_sorted_by(|item, next| item_is_before(item, next)) {
        Ok(items)
    } else {
        Err(Fault::StoreFault)
    }
}

/// All items of the package whose identity rows these are, by kind and identity.
fn items_by<S: Alter>(
    conn: &mut Connection<S>,
    rows: &[IdentityRow],
    alloc: Global,
) -> Result<Vec<Item>, Fault>
    requires { Rests (state S.Store conn.old) }
    ensures { LooksUp (λ t found. AreItemsBy rows.now t found.items) (state S.Store conn.old) (state S.Store conn.new)
        result }
{
    let placed = all_contents(conn, alloc)?;
    let items = items_of(rows, placed, alloc)?;
    items_in_order(items)
}

/// The UUID that the row of this kind and number has, among identity rows in the order of both.
fn name_of(rows: &[IdentityRow], kind: i64, number: i64) -> Result<Uuid, Fault>
    ensures { IfOk result (λ id. IsNamed rows.now kind number id) }
{
    let found = rows.binary_search_by_key(&(kind, number), |row| (row.kind, row.local_id));
    let Ok(place) = found else {
        return Err(Fault::StoreFault);
    };
    let row = &rows[place];
    if row.kind != kind || row.local_id != number {
        return Err(Fault::StoreFault);
    }
    stored_uuid(row.uuid.as_str())
}

/// The link of a row of a mapping table.
fn link_of(mapping: Mapping, rows: &[IdentityRow], pair: MappingRow) -> Result<Relation, Fault>
    ensures { IfOk result (λ link. IsLinkOf mapping rows.now pair link) }
{
    let base = name_of(rows, number_of_kind(mapping.base_kind()), pair.base_id)?;
    let other = name_of(rows, number_of_kind(mapping.other_kind()), pair.related_id)?;
    Ok(Relation {
        mapping,
        base,
        other,
    })
}

/// The links of the rows of a mapping table.
fn links_of(
    mapping: Mapping,
    rows: &[IdentityRow],
    pairs: &[MappingRow],
    alloc: Global,
) -> Result<Vec<Relation>, Fault>
    ensures { IfOk result (λ links. AllZip (IsLinkOf mapping rows.now) pairs.now links.items) }
{
    let mut links = Vec::new(alloc);
    for pair in pairs {
        links.push(link_of(mapping, rows, *pair)?)?;
    }
    Ok(links)
}

/// The links of one mapping table of the package whose identity rows these are.
fn links_in<S: Alter>(
    conn: &mut Connection<S>,
    mapping: Mapping,
    rows: &[IdentityRow],
    alloc: Global,
) -> Result<Vec<Relation>, Fault>
    requires { Rests (state S.Store conn.old) }
    ensures { LooksUp (λ t links. AreLinksIn mapping rows.now t links.items) (state S.Store conn.old)
        (state S.Store conn.new) result }
{
    let pairs = all_pairs(conn, mapping, alloc)?;
    links_of(mapping, rows, &pairs, alloc)
}

/// The links by mapping, base and other end; a fault where one is there twice, as in no package.
pub(crate) fn links_in_order(mut links: Vec<Relation>) -> Result<Vec<Relation>, Fault>
    ensures same { IfOk result (λ sorted. IsPermutation links.items sorted.items) }
    ensures order { IfOk result (λ sorted. IsArranged link_key sorted.items) }
    ensures twice { IfErr result (λ _. AllByRecursion (λ l. IsUuid l.base) links.items
        → IsDistinct bytes_eq (map link_key links.items) → ⊥) }
{
    links.sort_unstable_by_key(|link| (link.mapping.link_kind().number(), link.base, link.other));
    if links.is_sorted_by(|link, next| link_is_before(link, next)) {
        Ok(links)
    } else {
        Err(Fault::StoreFault)
    }
}

/// All links of the package whose identity rows these are, by mapping, base and other end.
pub(crate) fn links_by<S: Alter>(
    conn: &mut Connection<S>,
    rows: &[IdentityRow],
    alloc: Global,
) -> Result<Vec<Relation>, Fault>
    requires { Rests (state S.Store conn.old) }
    ensures { LooksUp (λ t found. AreLinksBy rows.now t found.items) (state S.Store conn.old) (state S.Store conn.new)
        result }
{
    let mut links = links_in(conn, Mapping::TilesMedia, rows, alloc)?;
    let rows_media = links_in(conn, Mapping::RowsMedia, rows, alloc)?;
    let rows_tiles = links_in(conn, Mapping::RowsTiles, rows, alloc)?;
    links.extend_from_slice(&rows_media)?;
    links.extend_from_slice(&rows_tiles)?;
    links_in_order(links)
}

/// All items of the package, by kind and identity, and all its links, by mapping, base and other
/// end. The identity rows are read once for both.
pub fn holdings<S: Alter>(
    conn: &mut Connection<S>,
    alloc: Global,
) -> Result<(Vec<Item>, Vec<Relation>), Fault>
    requires { Rests (state S.Store conn.old) }
    ensures { Looks (Sees (λ f p held. (held.0.items ≡ p.items) × (held.1.items ≡ p.links)))
        (state S.Store conn.old)
        (state S.Store conn.new) result }
{
    let rows = all_identities(conn, alloc)?;
    let items = items_by(conn, &rows, alloc)?;
    let links = links_by(conn, &rows, alloc)?;
    Ok((items, links))
}
