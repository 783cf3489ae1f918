//! The receipt of a split or a merge, made before anything is written: what is moved, and how much that is.
ghost use Rattle.std.specs.Prelude.{◌≡◌, ◌<◌, ◌++◌, not, map, Some, IfOk, IsPermutation, length};
ghost use Rattle.std.specs.Prelude.{slice_get, sum_by};
ghost use Rattle.std.specs.Prelude.{option_map};
ghost use Rattle.sheet_types.specs.Cut.{Cut, moved_of};
ghost use Rattle.sheet_types.specs.Ordered.{IsArranged};
ghost use Rattle.sheet_types.specs.Step.{receipt_over, count_of, links_of};
ghost use Rattle.sheet_types.specs.World.{Package, item_of, item_moved, link_moved, moved_key, is_item_kind};
ghost use Rattle.register_lending.specs.Selecting.{IsSelectionOf, IsPart};
ghost use Rattle.world_queries.specs.Asking.{AsksAll};
ghost use Rattle.world_members.specs.Members.{AllRest};

use identity_register::selection::Selection;
use package_tables::fault::Fault;
use sheet_types::collections::{MovedList, Text};
use sheet_types::command::{Relation, Request};
use sheet_types::lines::line;
use sheet_types::receipt::{Moved, MovedKind, Receipt};
use sheet_types::sorting::moved_is_before;
use sqlite::Alter;
use std::alloc::Global;
use uuid::Uuid;
use world_members::members::Member;
use world_queries::asking_one::item_at;

/// What a receipt says of the item under an identity in the package of the member at a place, if there is one.
fn thing_at<S: Alter + Drop>(
    members: &mut Vec<Member<S>>,
    at: usize,
    identity: Uuid,
) -> Result<Option<Moved>, Fault>
    requires within { at < length members.old.items }
    requires rests { AllRest S.Store members.old.items }
    ensures { AsksAll S.Store
        (λ w thing. (p : Package) → slice_get w.packages at ≡ Some p
        → thing ≡ option_map item_moved (item_of p identity))
        members.old.items members.new.items result }
{
    match item_at(members, at, identity)? {
        Some(item) => Ok(Some(Moved::of_item(&item))),
        None => Ok(None),
    }
}

/// The same of each of these identities; a fault where there is none under one of them, which no selection names.
fn things_under<S: Alter + Drop>(
    members: &mut Vec<Member<S>>,
    at: usize,
    alloc: Global,
    identities: &[Uuid],
) -> Result<Vec<Moved>, Fault>
    requires within { at < length members.old.items }
    requires rests { AllRest S.Store members.old.items }
    ensures { AsksAll S.Store
        (λ w things. (p : Package) → slice_get w.packages at ≡ Some p
        → map (λ id. option_map item_moved (item_of p id)) identities.now ≡ map Some things.items)
        members.old.items members.new.items result }
{
    let mut things = Vec::new(alloc);
    for identity in identities {
        let Some(thing) = thing_at(members, at, *identity)? else {
            return Err(Fault::StoreFault);
        };
        things.push(thing)?;
    }
    Ok(things)
}

/// Things by kind and base; a fault where one is there twice, as in no package.
fn in_order(mut things: Vec<Moved>) -> Result<Vec<Moved>, Fault>
    ensures same { IfOk result (λ sorted. IsPermutation things.items sorted.items) }
    ensures order { IfOk result (λ sorted. IsArranged moved_key sorted.items) }
{
    things.sort_unstable_by_key(|thing| (thing.kind.number(), thing.base));
    if things.is_sorted_by(|thing, next| moved_is_before(thing, next)) {
        Ok(things)
    } else {
        Err(Fault::StoreFault)
    }
}

/// Things, and behind them what a receipt says of these links.
fn with_links(alloc: Global, things: Vec<Moved>, links: &[Relation]) -> Result<Vec<Moved>, Fault>
    ensures { IfOk result (λ all. all.items ≡ things.items ++ map link_moved links.now) }
{
    let linked = links.iter().map(|link| Moved::of_link(link));
    Ok(things.into_iter().chain(linked).collect(alloc)?)
}

/// What is selected of the package of the member at a place, as a receipt names it: items by kind
/// and identity, then links.
///
/// # Errors
///
/// Want of memory, or a store that failed.
pub(crate) fn things_at<S: Alter + Drop>(
    members: &mut Vec<Member<S>>,
    at: usize,
    alloc: Global,
    selection: &Selection,
) -> Result<MovedList, Fault>
    requires within { at < length members.old.items }
    requires rests { AllRest S.Store members.old.items }
    ensures { AsksAll S.Store
        (λ w things. (p : Package) (c : Cut) → slice_get w.packages at ≡ Some p → IsSelectionOf c selection.now
        → IsPart c p → things ≡ moved_of c.items c.links)
        members.old.items members.new.items result }
{
    let items = things_under(members, at, alloc, &selection.identities)?;
    let sorted = in_order(items)?;
    let things = with_links(alloc, sorted, &selection.links)?;
    Ok(MovedList::from_vec(things))
}

/// How many of these things are of a kind.
fn count_of(things: &[Moved], kind: MovedKind) -> u64
    ensures { result ≡ count_of kind things.now }
{
    things
        .iter()
        .filter(|thing| kind.number() == thing.kind.number())
        .count() as u64
}

/// Whether it is the kind of a link.
fn is_link_kind(kind: MovedKind) -> bool
    ensures { result ≡ not (is_item_kind kind) }
{
    match kind {
        MovedKind::TileItem | MovedKind::MediaItem | MovedKind::RowItem => false,
        MovedKind::TilesMediaLink | MovedKind::RowsMediaLink | MovedKind::RowsTilesLink => true,
    }
}

/// How many of these things are links.
fn links_of(things: &[Moved]) -> u64
    ensures { result ≡ links_of things.now }
{
    things
        .iter()
        .filter(|thing| is_link_kind(thing.kind))
        .count() as u64
}

/// The bytes that these things count for; a fault where they have more than 64 bits, which no package holds.
fn bytes_of(things: &[Moved]) -> Result<u64, Fault>
    ensures { IfOk result (λ bytes. bytes ≡ sum_by (λ m. m.size) things.now) }
{
    let mut bytes: u64 = 0;
    for thing in things {
        let Some(more) = bytes.checked_add(thing.size) else {
            return Err(Fault::StoreFault);
        };
        bytes = more;
    }
    Ok(bytes)
}

/// The receipt of this number for a request that moves these things.
///
/// # Errors
///
/// Want of memory; a fault of the store where the bytes of the things have more than 64 bits, which no package holds.
pub(crate) fn receipt_of_things(
    alloc: Global,
    seq: u64,
    request: &Request,
    things: MovedList,
) -> Result<Receipt, Fault>
    ensures { IfOk result (λ receipt. receipt ≡ receipt_over seq request.now things) }
{
    let bytes = bytes_of(things.as_slice())?;
    let (Ok(at), Ok(text)) = (request.at.try_clone(), line(alloc, &request.command)) else {
        return Err(Fault::OutOfMemory);
    };
    Ok(Receipt {
        seq,
        request: request.id,
        at,
        line: Text::from_string(text),
        source: request.command.source(),
        target: request.command.target(),
        tiles: count_of(things.as_slice(), MovedKind::TileItem),
        media: count_of(things.as_slice(), MovedKind::MediaItem),
        rows: count_of(things.as_slice(), MovedKind::RowItem),
        links: links_of(things.as_slice()),
        bytes,
        items: things,
    })
}
