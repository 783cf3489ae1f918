//! Whether what came to each package is what left it and what it holds.
ghost use Rattle.std.specs.Prelude.{◌≡◌, ◌↔◌, ◌+◌, ℕ, List, false, sum_by, IsTrue, IfOk};
ghost use Rattle.std.specs.List.{AllByRecursion};
ghost use Rattle.std.specs.Ordering.{nat_cmp};
ghost use Rattle.std.specs.Cmp.Lexicographic.{slice_cmp};
ghost use Rattle.std.specs.BTreeSet.{contains};
ghost use Rattle.sheet_types.specs.Ordered.{has};
ghost use Rattle.sheet_types.specs.World.{World};
ghost use Rattle.sheet_ledger.specs.Parts.{SumsAddUp};
ghost use Rattle.sheet_types.specs.Step.{count_of};
ghost use Rattle.sheet_ledger.specs.Flows.{HasFlows, flow_in};
ghost use Rattle.sheet_balance.specs.Holders.{IsHeldWith, ComesUp, ComesUpIn};

use crate::holders::Holder;
use sheet_ledger::flows::{Flow, flow_of, flows};
use sheet_types::error::OutOfMemory;
use sheet_types::receipt::{Moved, MovedKind, Receipt};
use std::alloc::{AllocError, Global};
use std::collections::{BTreeMap, BTreeSet};
use uuid::Uuid;

/// Whether for each of the five measures, and for every UUID, what came is what left and what is held.
///
/// # Errors
///
/// Want of memory.
pub fn sums_add_up(
    alloc: Global,
    ledger: &[Receipt],
    holders: &[Holder],
) -> Result<bool, OutOfMemory>
    ensures { IfOk result (λ up. (w : World) → IsHeldWith ledger.now holders.now w → IsTrue up ↔ SumsAddUp w) }
{
    let flows = flows(alloc, ledger)?;
    let seen = are_sums_of(&flows, ledger, holders);
    let uuids = uuids_of(alloc, holders)?;
    let unseen = all_left(&flows, &uuids);
    Ok(seen & unseen)
}

// Whether what came to each package that is seen is what left it and what it holds.
fn are_sums_of(flows: &BTreeMap<Uuid, Flow>, ledger: &[Receipt], holders: &[Holder]) -> bool
    requires { HasFlows flows.now ledger.now }
    ensures { IsTrue result ↔ AllByRecursion (ComesUpIn ledger.now) holders.now }
{
    for holder in holders {
        let flow = flow_of(flows, holder.uuid);
        if !adds_up(&flow, holder.items.as_slice(), holder.links.as_slice()) {
            return false;
        }
    }
    true
}

// The UUIDs of the packages that are seen.
fn uuids_of(alloc: Global, holders: &[Holder]) -> Result<BTreeSet<Uuid>, AllocError>
    ensures { IfOk result (λ uuids. (p : List ℕ) → contains (slice_cmp nat_cmp) uuids p
        ≡ has (λ h. h.uuid) p holders.now) }
{
    let mut uuids = BTreeSet::new(alloc);
    for holder in holders {
        uuids.insert(holder.uuid)?;
    }
    Ok(uuids)
}

// Whether all that came to packages that are none of these left them.
fn all_left(flows: &BTreeMap<Uuid, Flow>, uuids: &BTreeSet<Uuid>) -> bool
    ensures { IsTrue result ↔ ((p : List ℕ) → contains (slice_cmp nat_cmp) uuids.now p ≡ false
        → (flow_in flows.now p).came ≡ (flow_in flows.now p).left) }
{
    for (package, flow) in flows.iter() {
        if !has_left(uuids, package, flow) {
            return false;
        }
    }
    true
}

// Whether a package is one of these, or all that came to it left it.
fn has_left(uuids: &BTreeSet<Uuid>, package: &Uuid, flow: &Flow) -> bool
    ensures { IsTrue result ↔ (contains (slice_cmp nat_cmp) uuids.now «package».now ≡ false
        → flow.now.came ≡ flow.now.left) }
{
    uuids.contains(package) || (flow.came == flow.left)
}

// Whether what came is what left and what is held.
fn adds_up(flow: &Flow, items: &[Moved], links: &[Moved]) -> bool
    ensures { IsTrue result ↔ ComesUp flow.now items.now links.now }
{
    came_up(
        flow.came.tiles,
        flow.left.tiles,
        count_of(items, MovedKind::TileItem),
    ) & came_up(
        flow.came.media,
        flow.left.media,
        count_of(items, MovedKind::MediaItem),
    ) & came_up(
        flow.came.rows,
        flow.left.rows,
        count_of(items, MovedKind::RowItem),
    ) & came_up(flow.came.links, flow.left.links, links.len())
        & sizes_come_up(flow.came.bytes, flow.left.bytes, items)
}

// Whether so many came as left and are held.
fn came_up(came: u128, left: u128, held: usize) -> bool
    ensures { IsTrue result ↔ (came ≡ left + held) }
{
    (left <= came) && (came - left == held as u128)
}

// How many are of this kind.
fn count_of(things: &[Moved], kind: MovedKind) -> usize
    ensures { result ≡ count_of kind things.now }
{
    things
        .iter()
        .filter(|moved| kind.number() == moved.kind.number())
        .count()
}

// Whether so many bytes came as left and are held.
fn sizes_come_up(came: u128, left: u128, items: &[Moved]) -> bool
    ensures { IsTrue result ↔ (came ≡ left + sum_by (λ m. m.size) items.now) }
{
    if came < left {
        return false;
    }
    let mut rest = came - left;
    for moved in items {
        if rest < u128::from(moved.size) {
            return false;
        }
        rest -= u128::from(moved.size);
    }
    rest == 0
}
