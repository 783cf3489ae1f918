//! The least package among live stores that are not what they ought to be.
ghost use Rattle.std.specs.Prelude.{◌≡◌, ◌↔◌, [], true, false, Some, slice_get, IsTrue, IfOk, IfSome};
ghost use Rattle.std.specs.Prelude.{IfNone};
ghost use Rattle.sheet_types.specs.Opening.{IsLeast, IsNever};
ghost use Rattle.opening_faults.specs.Foreign.{Adds};
ghost use Rattle.opening_faults.specs.Unfit.{IsUnfitAt, IsUnfit};

use crate::least::least_of;
use crate::sights::Sight;
use sheet_types::error::OutOfMemory;
use std::alloc::{AllocError, Global};
use uuid::Uuid;

/// The least UUID of a store that is live and not fit, by what is said of each place; a place of
/// which nothing is said counts as neither.
///
/// # Errors
///
/// Want of memory.
pub fn least_unfit(
    alloc: Global,
    sights: &[Sight],
    live: &[bool],
    fit: &[bool],
) -> Result<Option<Uuid>, OutOfMemory>
    ensures some { IfOk result (λ least. IfSome least (λ id. IsLeast (IsUnfit live.now fit.now sights.now) id)) }
    ensures none { IfOk result (λ least. IfNone least (IsNever (IsUnfit live.now fit.now sights.now))) }
{
    let ids = unfit_ids(alloc, sights, live, fit)?;
    Ok(least_of(ids.as_slice()))
}

// The UUIDs of the stores that are live and not fit.
fn unfit_ids(
    alloc: Global,
    sights: &[Sight],
    live: &[bool],
    fit: &[bool],
) -> Result<Vec<Uuid>, AllocError>
    ensures { IfOk result (λ ids. Adds (IsUnfit live.now fit.now sights.now) [] ids.items) }
{
    let mut ids = Vec::new(alloc);
    for place in 0..sights.len() {
        let sight = &sights[place];
        push_unfit(&mut ids, sight, is_unfit(live, fit, place))?;
    }
    Ok(ids)
}

// Whether the store at a place is live and not fit.
fn is_unfit(live: &[bool], fit: &[bool], place: usize) -> bool
    ensures { IsTrue result ↔ ((slice_get live.now place ≡ Some true) × (slice_get fit.now place ≡ Some false)) }
{
    match (live.get(place), fit.get(place)) {
        (Some(live), Some(fit)) => *live && !*fit,
        _ => false,
    }
}

// Puts the UUID of a store behind the others, where it is not fit.
fn push_unfit(ids: &mut Vec<Uuid>, sight: &Sight, unfit: bool) -> Result<(), AllocError>
    ensures { IfOk result (λ _. Adds (IsUnfitAt unfit sight.now) ids.old.items ids.new.items) }
{
    if !unfit {
        return Ok(());
    }
    let Some(head) = &sight.head else {
        return Ok(());
    };
    ids.push(head.uuid)?;
    Ok(())
}
