//! Whether a package is within its limits once a list of requests is carried out. Nothing is carried out.
ghost use Rattle.std.specs.Prelude.{◌≡◌, ◌+◌, ◌||◌, ◌&&◌, ℕ, List, not, nat_le, count_by, IfOk};
ghost use Rattle.std.specs.Ordering.{nat_cmp};
ghost use Rattle.std.specs.Cmp.Lexicographic.{slice_cmp};
ghost use Rattle.std.specs.BTreeSet.{contains};
ghost use Rattle.sheet_types.specs.Ordered.{is_among};
ghost use Rattle.sheet_types.specs.Refuse.{greatest_items, greatest_links};
ghost use Rattle.sheet_types.specs.Texts.{kind_of};
ghost use Rattle.sheet_types.specs.World.{kind_is};
ghost use Rattle.sheet_types.specs.declared.command.Item.{Item};
ghost use Rattle.sheet_types.specs.declared.receipt.MovedKind.{MovedKind};
ghost use Rattle.field_home_laws.specs.Free.{adds_kind, deleted, ids_deleted, is_linking, is_unlinking, keeps_package};
ghost use Rattle.field_home_laws.specs.Free.{links_behind};

use field_changes::changes::Holdings;
use package_tables::fault::Fault;
use sheet_types::checks::{GREATEST_ITEMS, GREATEST_LINKS};
use sheet_types::command::{Command, Item, Relation, Request};
use sheet_types::receipt::MovedKind;
use std::alloc::Global;
use std::collections::BTreeSet;
use uuid::Uuid;

/// Whether so many, and others, are no more than the most.
fn fits(some: u64, others: u64, most: u64) -> bool
    ensures { result ≡ nat_le (some + others) most }
{
    if some > most {
        return false;
    }
    others <= most - some
}

/// Whether a request adds an item of this kind.
fn adds_kind(request: &Request, kind: MovedKind) -> bool
    ensures { result ≡ adds_kind kind request.now.command }
{
    match &request.command {
        Command::Add { content, .. } => kind.number() == content.kind().number(),
        _ => false,
    }
}

/// How many items of this kind requests add.
fn adds_of(requests: &[Request], kind: MovedKind) -> usize
    ensures { result ≡ count_by (λ q. adds_kind kind q.command) requests.now }
{
    requests
        .iter()
        .filter(|request| adds_kind(request, kind))
        .count()
}

/// How many links they make.
fn links_made(requests: &[Request]) -> usize
    ensures { result ≡ count_by (λ q. is_linking q.command) requests.now }
{
    requests
        .iter()
        .filter(|request| matches!(request.command, Command::Link { .. }))
        .count()
}

/// How many links they end.
fn links_ended(requests: &[Request]) -> usize
    ensures { result ≡ count_by (λ q. is_unlinking q.command) requests.now }
{
    requests
        .iter()
        .filter(|request| matches!(request.command, Command::Unlink { .. }))
        .count()
}

/// Puts the identity that a request deletes among others.
fn put_deleted(gone: &mut BTreeSet<Uuid>, request: &Request) -> Result<(), Fault>
    ensures { IfOk result (λ _. (id : List ℕ) → contains (slice_cmp nat_cmp) gone.new id
        ≡ (contains (slice_cmp nat_cmp) gone.old id || is_among (deleted request.now.command) id)) }
{
    if let Command::Delete { identity, .. } = &request.command {
        gone.insert(*identity)?;
    }
    Ok(())
}

/// The identities that requests delete.
fn deleted_by(alloc: Global, requests: &[Request]) -> Result<BTreeSet<Uuid>, Fault>
    ensures { IfOk result (λ gone. (id : List ℕ) → contains (slice_cmp nat_cmp) gone id
        ≡ is_among (ids_deleted requests.now) id) }
{
    let mut gone = BTreeSet::new(alloc);
    for request in requests {
        put_deleted(&mut gone, request)?;
    }
    Ok(gone)
}

/// Whether an item is of this kind, and none of these.
fn is_staying(item: &Item, kind: MovedKind, gone: &BTreeSet<Uuid>) -> bool
    ensures { result ≡ (kind_is kind (kind_of item.now.content) && not
        (contains (slice_cmp nat_cmp) gone.now item.now.identity)) }
{
    (kind.number() == item.content.kind().number()) & !gone.contains(&item.identity)
}

/// How many items of this kind are none of these.
fn staying_of(items: &[Item], kind: MovedKind, gone: &BTreeSet<Uuid>) -> usize
    ensures { result ≡ count_by (λ i. kind_is kind (kind_of i.content) && not
        (contains (slice_cmp nat_cmp) gone.now i.identity)) items.now }
{
    items
        .iter()
        .filter(|item| is_staying(item, kind, gone))
        .count()
}

/// Whether there are no more items of this kind than a package may have, once those that go are
/// gone and those that come are there.
fn keeps_kind(requests: &[Request], items: &[Item], gone: &BTreeSet<Uuid>, kind: MovedKind) -> bool
    ensures { result ≡ nat_le (count_by (λ q. adds_kind kind q.command) requests.now
        + count_by (λ i. kind_is kind (kind_of i.content) && not (contains (slice_cmp nat_cmp) gone.now i.identity)) items.now) greatest_items }
{
    let coming = adds_of(requests, kind) as u64;
    let staying = staying_of(items, kind, gone) as u64;
    fits(coming, staying, GREATEST_ITEMS)
}

/// Whether there are no more links.
fn keeps_links(requests: &[Request], links: &[Relation]) -> bool
    ensures { result ≡ nat_le (links_behind requests.now links.now) greatest_links }
{
    let coming = links_made(requests) as u64;
    let staying = links.len().saturating_sub(links_ended(requests)) as u64;
    fits(coming, staying, GREATEST_LINKS)
}

/// Whether a package that holds this is within its limits once the requests are carried out.
///
/// # Errors
///
/// Want of memory.
pub(crate) fn keeps_package(
    alloc: Global,
    requests: &[Request],
    holdings: &Holdings<'_>,
) -> Result<bool, Fault>
    ensures { IfOk result (λ keeps. keeps ≡ keeps_package requests.now holdings.now.items.now
        holdings.now.links.now) }
{
    let gone = deleted_by(alloc, requests)?;
    let tiles = keeps_kind(requests, holdings.items, &gone, MovedKind::TileItem);
    let media = keeps_kind(requests, holdings.items, &gone, MovedKind::MediaItem);
    let rows = keeps_kind(requests, holdings.items, &gone, MovedKind::RowItem);
    let links = keeps_links(requests, holdings.links);
    Ok(tiles & media & rows & links)
}
