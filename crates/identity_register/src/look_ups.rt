//! What is asked of a package at rest, each by a key or an index. An error is want of memory, a
//! store that failed, or rows that no package has; the store holds what it held.
ghost use Rattle.std.specs.Prelude.{◌≡◌, true, bytes_eq, IfOk};
ghost use Rattle.std.specs.Bool.{then_some};
ghost use Rattle.std.specs.List.{list_any};
ghost use Rattle.sqlite.specs.Held.{state};
ghost use Rattle.store_sql.specs.Transactions.{Rests, Looks};
ghost use Rattle.sheet_types.specs.Cut.{has_end};
ghost use Rattle.sheet_types.specs.Ordered.{has};
ghost use Rattle.sheet_types.specs.Lines.{IsUuid};
ghost use Rattle.sheet_types.specs.Refuse.{is_at};
ghost use Rattle.sheet_types.specs.Texts.{uuid_text};
ghost use Rattle.sheet_types.specs.World.{has_item, item_of, link_key};
ghost use Rattle.package_tables.specs.Calls.{LooksUp, IsOneOf};
ghost use Rattle.identity_register.specs.Answers.{is_named_by, is_linked_row, is_end, AreMappingsOf, are_ends};
ghost use Rattle.identity_register.specs.Answers.{link_state, IsContentOf};
ghost use Rattle.identity_register.specs.Calls.{Sees};

use crate::kinds::{MEDIUM, ROW, TILE, number_of_kind};
use crate::row_contents::{of_attributes, of_medium, of_tile};
use package_tables::attributes::attribute_by_id;
use package_tables::fault::Fault;
use package_tables::identities::identity_by_uuid;
use package_tables::mappings::{pair_of_base, pair_of_ends, pair_of_related};
use package_tables::media::medium_by_id;
use package_tables::rows::IdentityRow;
use package_tables::tiles::{has_tile_at as has_row_at, tile_by_id};
use sheet_types::command::{Content, Item, Mapping, Relation};
use sqlite::{Alter, Connection};
use uuid::Uuid;

/// The row that stands for an item.
pub(crate) fn row_of<S: Alter>(
    conn: &mut Connection<S>,
    identity: Uuid,
) -> Result<Option<IdentityRow>, Fault>
    requires { Rests (state S.Store conn.old) }
    ensures looked { LooksUp (λ t. IsOneOf (λ x. bytes_eq x.uuid (uuid_text identity)) t.identities)
        (state S.Store conn.old) (state S.Store conn.new) result }
    ensures fit { IsUuid identity }
{
    let mut buffer = Uuid::encode_buffer();
    let text = identity.hyphenated().encode_lower(&mut buffer);
    identity_by_uuid(conn, text)
}

/// Whether the package has a tile at this place.
pub fn has_tile_at<S: Alter>(
    conn: &mut Connection<S>,
    zoom: i64,
    column: i64,
    row: i64,
) -> Result<bool, Fault>
    requires { Rests (state S.Store conn.old) }
    ensures { Looks (Sees (λ f p found. found ≡ list_any (λ i. is_at zoom column row i.content) p.items))
        (state S.Store conn.old) (state S.Store conn.new) result }
{
    let found = has_row_at(conn, zoom, column, row)?;
    Ok(found)
}

/// Whether rows of these kinds can be the ends of a relation (OGC 18-000, user-defined mapping tables).
fn are_ends(mapping: Mapping, base: i64, other: i64) -> bool
    ensures { result ≡ are_ends mapping base other }
{
    base == number_of_kind(mapping.base_kind()) && other == number_of_kind(mapping.other_kind())
}

/// What a package says of a link that is to come in.
#[derive(Clone, Copy, PartialEq, Eq)]
pub enum LinkState {
    /// The package has no item of one of the ends, or of neither.
    UnknownEnd,
    /// It has both, and one is not of the kind that the mapping relates.
    WrongKinds,
    /// The ends are right, and no link relates them.
    Absent,
    /// The package has this link.
    There,
}

/// How a link stands in the package: the rows of its ends are looked up, and their pair where they
/// are of the right kinds.
pub fn link_state<S: Alter>(
    conn: &mut Connection<S>,
    relation: Relation,
) -> Result<LinkState, Fault>
    requires { Rests (state S.Store conn.old) }
    ensures told { Looks (Sees (λ f p found. found ≡ link_state p relation)) (state S.Store conn.old)
        (state S.Store conn.new) result }
    ensures fit { IsUuid relation.base }
{
    let Some(base) = row_of(conn, relation.base)? else {
        return Ok(LinkState::UnknownEnd);
    };
    let Some(other) = row_of(conn, relation.other)? else {
        return Ok(LinkState::UnknownEnd);
    };
    if !are_ends(relation.mapping, base.kind, other.kind) {
        return Ok(LinkState::WrongKinds);
    }
    let pair = pair_of_ends(conn, relation.mapping, base.local_id, other.local_id)?;
    let there = pair.is_some();
    Ok(if there {
        LinkState::There
    } else {
        LinkState::Absent
    })
}

/// Whether the package has this link.
pub fn has_link<S: Alter>(conn: &mut Connection<S>, relation: Relation) -> Result<bool, Fault>
    requires { Rests (state S.Store conn.old) }
    ensures { Looks (Sees (λ f p found. found ≡ has link_key (link_key relation) p.links)) (state S.Store conn.old)
        (state S.Store conn.new) result }
{
    match link_state(conn, relation)? {
        LinkState::There => Ok(true),
        LinkState::UnknownEnd | LinkState::WrongKinds | LinkState::Absent => Ok(false),
    }
}

/// The two mappings that relate items of a kind, which each kind has; a fault where the number is of no kind.
pub(crate) fn mappings_of(kind: i64) -> Result<(Mapping, Mapping), Fault>
    ensures { IfOk result (λ both. AreMappingsOf kind both.0 both.1) }
{
    match kind {
        TILE => Ok((Mapping::TilesMedia, Mapping::RowsTiles)),
        MEDIUM => Ok((Mapping::TilesMedia, Mapping::RowsMedia)),
        ROW => Ok((Mapping::RowsMedia, Mapping::RowsTiles)),
        _ => Err(Fault::StoreFault),
    }
}

/// Whether the table of a mapping names the row of this kind and number; the mapping relates items of that kind.
fn is_named_by<S: Alter>(
    conn: &mut Connection<S>,
    mapping: Mapping,
    kind: i64,
    number: i64,
) -> Result<bool, Fault>
    requires rests { Rests (state S.Store conn.old) }
    requires end { is_end mapping kind ≡ true }
    ensures { LooksUp (λ t found. found ≡ is_named_by mapping kind number t) (state S.Store conn.old)
        (state S.Store conn.new) result }
{
    if kind == number_of_kind(mapping.base_kind()) {
        let found = pair_of_base(conn, mapping, number)?;
        return Ok(found.is_some());
    }
    let found = pair_of_related(conn, mapping, number)?;
    Ok(found.is_some())
}

/// Whether a mapping table names the row of this kind and number.
fn row_is_linked<S: Alter>(conn: &mut Connection<S>, kind: i64, number: i64) -> Result<bool, Fault>
    requires { Rests (state S.Store conn.old) }
    ensures { LooksUp (λ t found. found ≡ is_linked_row kind number t) (state S.Store conn.old)
        (state S.Store conn.new) result }
{
    let (one, another) = mappings_of(kind)?;
    let by_one = is_named_by(conn, one, kind, number)?;
    let by_another = is_named_by(conn, another, kind, number)?;
    Ok(by_one | by_another)
}

/// Whether a link of the package names the item; `None` where the package has no such item.
pub fn is_linked<S: Alter>(conn: &mut Connection<S>, identity: Uuid) -> Result<Option<bool>, Fault>
    requires { Rests (state S.Store conn.old) }
    ensures { Looks (Sees (λ f p found. found ≡ then_some (has_item p identity)
        (list_any (has_end identity) p.links))) (state S.Store conn.old) (state S.Store conn.new) result }
{
    match row_of(conn, identity)? {
        None => Ok(None),
        Some(row) => {
            let linked = row_is_linked(conn, row.kind, row.local_id)?;
            Ok(Some(linked))
        }
    }
}

/// What the row of this kind and number holds.
pub(crate) fn content_of<S: Alter>(
    conn: &mut Connection<S>,
    kind: i64,
    number: i64,
) -> Result<Content, Fault>
    requires { Rests (state S.Store conn.old) }
    ensures { LooksUp (IsContentOf kind number) (state S.Store conn.old) (state S.Store conn.new) result }
{
    match kind {
        TILE => {
            let tile = tile_by_id(conn, number)?.ok_or(Fault::StoreFault)?;
            Ok(of_tile(tile))
        }
        MEDIUM => {
            let medium = medium_by_id(conn, number)?.ok_or(Fault::StoreFault)?;
            Ok(of_medium(medium))
        }
        ROW => {
            let row = attribute_by_id(conn, number)?.ok_or(Fault::StoreFault)?;
            Ok(of_attributes(row))
        }
        _ => Err(Fault::StoreFault),
    }
}

/// The item of this identity, with its content.
pub fn find<S: Alter>(conn: &mut Connection<S>, identity: Uuid) -> Result<Option<Item>, Fault>
    requires { Rests (state S.Store conn.old) }
    ensures { Looks (Sees (λ f p found. found ≡ item_of p identity)) (state S.Store conn.old)
        (state S.Store conn.new)
        result }
{
    match row_of(conn, identity)? {
        None => Ok(None),
        Some(row) => {
            let content = content_of(conn, row.kind, row.local_id)?;
            Ok(Some(Item { identity, content }))
        }
    }
}
