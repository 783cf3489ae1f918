//! What is asked of a package for a cut: its tiles by place, its rows by ground, its links by their
//! ends, each by a key or an index. An error is want of memory, a store that failed, or rows that
//! no package has; the store holds what it held.
ghost use Rattle.std.specs.Prelude.{◌≡◌, pos, true, map, IfOk, IsTrue, IsPermutation};
ghost use Rattle.std.specs.List.{AllZip};
ghost use Rattle.sqlite.specs.State.{HasCleanDisk};
ghost use Rattle.sqlite.specs.Held.{state};
ghost use Rattle.store_sql.specs.Staying.{Stays};
ghost use Rattle.store_sql.specs.Transactions.{Rests, Looks};
ghost use Rattle.sheet_types.specs.Ordered.{IsArranged};
ghost use Rattle.sheet_types.specs.World.{Package, base_kind, kind_number, other_kind};
ghost use Rattle.package_tables.specs.Calls.{Answers, LooksUp};
ghost use Rattle.identity_register.specs.Answers.{is_end};
ghost use Rattle.identity_register.specs.Calls.{Sees};
ghost use Rattle.identity_register.specs.Gathered.{IsNamed};
ghost use Rattle.identity_register.specs.Reach.{Asks, ShowsPackage, tiles_in, rows_in, links_of, AreLinksAt};

use crate::kinds::{ROW, TILE, number_of_kind};
use crate::look_ups::{mappings_of, row_of};
use crate::stored_texts::stored_uuid;
use crate::whole::links_in_order;
use matrix_rules::spans::Span;
use package_tables::attributes::attribute_ids_within;
use package_tables::fault::Fault;
use package_tables::identities::identity_by_key;
use package_tables::mappings::{pairs_of_base, pairs_of_related};
use package_tables::rows::MappingRow;
use package_tables::tiles::tile_ids_between;
use sheet_types::command::{Mapping, Relation};
use sheet_types::frame::Ground;
use sheet_types::sorting::uuid_is_before;
use sqlite::{Alter, Connection};
use std::alloc::Global;
use uuid::Uuid;

/// A package of which these three questions are asked. Each answer is sorted, and asking changes nothing.
pub trait Reach {
    /// It can be asked.
    ghost can_ask: { Self → Type 0 };

    /// Nothing has changed since it was the first of these.
    ghost stays: { Self → Self → Type 0 };

    /// What it holds is this package.
    ghost shows: { Self → Package → Type 0 };

    /// The tiles of a zoom whose places belong to the block.
    fn tiles_in(&mut self, zoom: i64, span: &Span, alloc: Global) -> Result<Vec<Uuid>, Fault>
        requires { can_ask self.old }
        ensures { Asks can_ask stays shows (λ p found. found.items ≡ tiles_in p zoom span.now) self.old self.new
            result };

    /// The rows whose points lie on the ground: on its west and north edges they do, on its east
    /// and south edges they don't.
    fn rows_in(&mut self, ground: &Ground, alloc: Global) -> Result<Vec<Uuid>, Fault>
        requires { can_ask self.old }
        ensures { Asks can_ask stays shows (λ p found. found.items ≡ rows_in p ground.now) self.old self.new result };

    /// The links that have the item at either end, of every mapping.
    fn links_of(&mut self, identity: Uuid, alloc: Global) -> Result<Vec<Relation>, Fault>
        requires { can_ask self.old }
        ensures { Asks can_ask stays shows (λ p found. found.items ≡ links_of p identity) self.old self.new result };
}

/// The numbers of the bases of relations.
fn base_numbers(pairs: &[MappingRow], alloc: Global) -> Result<Vec<i64>, Fault>
    ensures { IfOk result (λ numbers. numbers.items ≡ map (λ r. r.base_id) pairs.now) }
{
    Ok(pairs.iter().map(|pair| pair.base_id).collect(alloc)?)
}

/// The numbers of their other ends.
fn other_numbers(pairs: &[MappingRow], alloc: Global) -> Result<Vec<i64>, Fault>
    ensures { IfOk result (λ numbers. numbers.items ≡ map (λ r. r.related_id) pairs.now) }
{
    Ok(pairs.iter().map(|pair| pair.related_id).collect(alloc)?)
}

/// The identity of the row of this kind and number.
fn name_at<S: Alter>(conn: &mut Connection<S>, kind: i64, number: i64) -> Result<Uuid, Fault>
    requires { Rests (state S.Store conn.old) }
    ensures { LooksUp (λ t id. IsNamed t.identities kind number id) (state S.Store conn.old) (state S.Store conn.new)
        result }
{
    let row = identity_by_key(conn, kind, number)?.ok_or(Fault::StoreFault)?;
    stored_uuid(row.uuid.as_str())
}

/// The identities of the rows of these numbers of a kind. Where there are none, nothing is asked.
fn names_of<S: Alter>(
    conn: &mut Connection<S>,
    kind: i64,
    numbers: &[i64],
    alloc: Global,
) -> Result<Vec<Uuid>, Fault>
    requires { Rests (state S.Store conn.old) }
    ensures stays { Stays (state S.Store conn.old) (state S.Store conn.new) }
    ensures told { HasCleanDisk (state S.Store conn.new) → IsTrue (state S.Store conn.old).is_open
        → IfOk result (λ names. IsTrue (state S.Store conn.new).is_open
        × Answers (λ t names. AllZip (IsNamed t.identities kind) numbers.now names.items) names
        (state S.Store conn.old).now (state S.Store conn.new).now) }
{
    let mut names = Vec::new(alloc);
    for number in numbers {
        names.push(name_at(conn, kind, *number)?)?;
    }
    Ok(names)
}

/// Identities in their order; a fault where one is there twice, as in no package.
fn names_in_order(mut names: Vec<Uuid>) -> Result<Vec<Uuid>, Fault>
    ensures same { IfOk result (λ sorted. IsPermutation names.items sorted.items) }
    ensures order { IfOk result (λ sorted. IsArranged (λ id. id) sorted.items) }
{
    names.sort_unstable();
    if names.is_sorted_by(|id, next| uuid_is_before(*id, *next)) {
        Ok(names)
    } else {
        Err(Fault::StoreFault)
    }
}

/// The tiles of a zoom whose places belong to the block, by their identities.
pub fn tiles_in<S: Alter>(
    conn: &mut Connection<S>,
    zoom: i64,
    span: &Span,
    alloc: Global,
) -> Result<Vec<Uuid>, Fault>
    requires { Rests (state S.Store conn.old) }
    ensures { Looks (Sees (λ f p found. found.items ≡ tiles_in p zoom span.now)) (state S.Store conn.old)
        (state S.Store conn.new) result }
{
    let Span {
        column,
        last_column,
        row,
        last_row,
    } = *span;
    let numbers = tile_ids_between(conn, alloc, zoom, column, last_column, row, last_row)?;
    let names = names_of(conn, TILE, &numbers, alloc)?;
    names_in_order(names)
}

/// The rows whose points lie on the ground, by their identities.
pub fn rows_in<S: Alter>(
    conn: &mut Connection<S>,
    ground: &Ground,
    alloc: Global,
) -> Result<Vec<Uuid>, Fault>
    requires { Rests (state S.Store conn.old) }
    ensures { Looks (Sees (λ f p found. found.items ≡ rows_in p ground.now)) (state S.Store conn.old)
        (state S.Store conn.new) result }
{
    let Ground {
        west,
        south,
        east,
        north,
    } = *ground;
    let numbers = attribute_ids_within(conn, alloc, west, east, south, north)?;
    let names = names_of(conn, ROW, &numbers, alloc)?;
    names_in_order(names)
}

/// The links of a mapping from one base to each of these items.
fn links_from(
    mapping: Mapping,
    base: Uuid,
    others: &[Uuid],
    alloc: Global,
) -> Result<Vec<Relation>, Fault>
    ensures { IfOk result (λ links. links.items ≡ map (λ other. record
        { mapping = mapping; base = base; other = other }) others.now) }
{
    let links = others.iter().map(|other| Relation {
        mapping,
        base,
        other: *other,
    });
    Ok(links.collect(alloc)?)
}

/// The links of a mapping from each of these bases to one item.
fn links_to(
    mapping: Mapping,
    other: Uuid,
    bases: &[Uuid],
    alloc: Global,
) -> Result<Vec<Relation>, Fault>
    ensures { IfOk result (λ links. links.items ≡ map (λ base. record
        { mapping = mapping; base = base; other = other }) bases.now) }
{
    let links = bases.iter().map(|base| Relation {
        mapping,
        base: *base,
        other,
    });
    Ok(links.collect(alloc)?)
}

/// The links of a mapping whose base is the row of this number, which is that of the identity.
fn links_at_base<S: Alter>(
    conn: &mut Connection<S>,
    mapping: Mapping,
    number: i64,
    identity: Uuid,
    alloc: Global,
) -> Result<Vec<Relation>, Fault>
    requires { Rests (state S.Store conn.old) }
    ensures { LooksUp (λ t links. AreLinksAt mapping (pos (kind_number (base_kind mapping))) number identity t
        links.items) (state S.Store conn.old) (state S.Store conn.new) result }
{
    let pairs = pairs_of_base(conn, alloc, mapping, number)?;
    let numbers = other_numbers(&pairs, alloc)?;
    let kind = number_of_kind(mapping.other_kind());
    let others = names_of(conn, kind, &numbers, alloc)?;
    links_from(mapping, identity, &others, alloc)
}

/// The links of a mapping whose other end is the row of this number, which is that of the identity.
fn links_at_other<S: Alter>(
    conn: &mut Connection<S>,
    mapping: Mapping,
    number: i64,
    identity: Uuid,
    alloc: Global,
) -> Result<Vec<Relation>, Fault>
    requires { Rests (state S.Store conn.old) }
    ensures { LooksUp (λ t links. AreLinksAt mapping (pos (kind_number (other_kind mapping))) number identity t
        links.items) (state S.Store conn.old) (state S.Store conn.new) result }
{
    let pairs = pairs_of_related(conn, alloc, mapping, number)?;
    let numbers = base_numbers(&pairs, alloc)?;
    let kind = number_of_kind(mapping.base_kind());
    let bases = names_of(conn, kind, &numbers, alloc)?;
    links_to(mapping, identity, &bases, alloc)
}

/// The links of a mapping at the row of this kind and number, which is that of the identity; the
/// mapping relates items of that kind.
fn links_at<S: Alter>(
    conn: &mut Connection<S>,
    mapping: Mapping,
    kind: i64,
    number: i64,
    identity: Uuid,
    alloc: Global,
) -> Result<Vec<Relation>, Fault>
    requires rests { Rests (state S.Store conn.old) }
    requires end { is_end mapping kind ≡ true }
    ensures { LooksUp (λ t links. AreLinksAt mapping kind number identity t links.items) (state S.Store conn.old)
        (state S.Store conn.new) result }
{
    if kind == number_of_kind(mapping.base_kind()) {
        return links_at_base(conn, mapping, number, identity, alloc);
    }
    links_at_other(conn, mapping, number, identity, alloc)
}

/// The links that have the item at either end, by mapping, base and other end.
pub fn links_of<S: Alter>(
    conn: &mut Connection<S>,
    identity: Uuid,
    alloc: Global,
) -> Result<Vec<Relation>, Fault>
    requires { Rests (state S.Store conn.old) }
    ensures { Looks (Sees (λ f p found. found.items ≡ links_of p identity)) (state S.Store conn.old)
        (state S.Store conn.new) result }
{
    let Some(row) = row_of(conn, identity)? else {
        return Ok(Vec::new(alloc));
    };
    let (one, another) = mappings_of(row.kind)?;
    let mut links = links_at(conn, one, row.kind, row.local_id, identity, alloc)?;
    let more = links_at(conn, another, row.kind, row.local_id, identity, alloc)?;
    links.extend_from_slice(&more)?;
    links_in_order(links)
}

/// A connection at rest, which shows a package where its disk is clean and it reads as that.
impl<S: Alter> Reach for Connection<S> {
    ghost use Rattle.sqlite.specs.Held.{state};
    ghost use Rattle.store_sql.specs.Staying.{Stays};
    ghost use Rattle.store_sql.specs.Transactions.{Rests};
    ghost use Rattle.identity_register.specs.Reach.{ShowsPackage};

    ghost can_ask = { λ conn. Rests (state S.Store conn) };

    ghost stays = { λ was now. Stays (state S.Store was) (state S.Store now) };

    ghost shows = { λ conn. ShowsPackage (state S.Store conn) };

    fn tiles_in(&mut self, zoom: i64, span: &Span, alloc: Global) -> Result<Vec<Uuid>, Fault> {
        tiles_in(self, zoom, span, alloc)
    }

    fn rows_in(&mut self, ground: &Ground, alloc: Global) -> Result<Vec<Uuid>, Fault> {
        rows_in(self, ground, alloc)
    }

    fn links_of(&mut self, identity: Uuid, alloc: Global) -> Result<Vec<Relation>, Fault> {
        links_of(self, identity, alloc)
    }
}
