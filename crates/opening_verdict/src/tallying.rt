//! What a world keeps of each live package.
ghost use Rattle.std.specs.Prelude.{◌≡◌, true, List, None, length, map, IfOk, IfErr};
ghost use Rattle.std.specs.List.{AllZip};
ghost use Rattle.opening_faults.specs.declared.faults.RecoverFault.TheVariants.{StoreFault};
ghost use Rattle.sheet_types.specs.declared.receipt.Receipt.{Receipt as ModelReceipt};
ghost use Rattle.opening_verdict.specs.Tickets.{TellsLast};
ghost use Rattle.opening_verdict.specs.Tallies.{TellsSums, IsKeptBy, IsKeptAt, AreKept, IsSomeUnkept, IsWantOr};

use crate::holdings::sums_of;
use crate::tickets::{last_receipts, ticket_of};
use crate::verdict::Kept;
use opening_faults::faults::RecoverFault;
use opening_faults::sights::{Sight, StoreHead};
use sheet_balance::sights::Sight as PackageSight;
use sheet_types::error::OutOfMemory;
use sheet_types::receipt::{Receipt, Sums};
use std::alloc::{AllocError, Global};
use std::collections::BTreeMap;
use uuid::Uuid;

/// Whose each store is, in turn. What else the stores say of themselves is let go.
///
/// # Errors
///
/// Want of memory.
pub(crate) fn all_heads(
    alloc: Global,
    sights: Vec<Sight>,
) -> Result<Vec<Option<StoreHead>>, AllocError>
    ensures { IfOk result (λ heads. heads.items ≡ map (λ s. s.head) sights.items) }
{
    sights.iter().map(|sight: &Sight| sight.head).collect(alloc)
}

/// How much each package holds, in turn.
///
/// # Errors
///
/// Want of memory.
pub(crate) fn all_sums(
    alloc: Global,
    held: &[PackageSight],
) -> Result<Vec<Option<Sums>>, OutOfMemory>
    ensures { IfOk result (λ sums. AllZip TellsSums held.now sums.items) }
{
    let mut all = Vec::new(alloc);
    for sight in held {
        all.push(sums_of(sight))?;
    }
    Ok(all)
}

// What is kept of the package of this head.
fn kept_of(
    head: StoreHead,
    sums: Option<Sums>,
    last: &BTreeMap<Uuid, u64>,
) -> Result<Kept, RecoverFault>
    ensures kept { IfOk result (λ kept. (ledger : List ModelReceipt) → TellsLast last.now ledger
        → IsKeptBy ledger head sums kept) }
    ensures fault { IfErr result (λ fault. (fault ≡ StoreFault) × (sums ≡ None)) }
{
    let Some(sums) = sums else {
        return Err(RecoverFault::StoreFault);
    };
    let ticket = ticket_of(last, head.uuid);
    Ok(Kept { head, sums, ticket })
}

// What is kept of a store: of a live one its package.
fn kept_at(
    head: Option<StoreHead>,
    live: bool,
    sums: Option<Sums>,
    last: &BTreeMap<Uuid, u64>,
) -> Result<Option<Kept>, RecoverFault>
    ensures kept { IfOk result (λ kept. (ledger : List ModelReceipt) → TellsLast last.now ledger
        → IsKeptAt ledger head live sums kept) }
    ensures fault { IfErr result (λ fault. (fault ≡ StoreFault) × (live ≡ true) × (sums ≡ None)) }
{
    match (live, head) {
        (true, Some(head)) => Ok(Some(kept_of(head, sums, last)?)),
        _ => Ok(None),
    }
}

/// What is kept of each store, in turn.
///
/// # Errors
///
/// `StoreFault` where a live package holds 2^64 bytes or more, and want of memory.
pub(crate) fn all_kept(
    alloc: Global,
    heads: &[Option<StoreHead>],
    live: &[bool],
    sums: &[Option<Sums>],
    ledger: &[Receipt],
) -> Result<Vec<Option<Kept>>, RecoverFault>
    requires live { length live.now ≡ length heads.now }
    requires sums { length sums.now ≡ length heads.now }
    ensures kept { IfOk result (λ kept. AreKept ledger.now heads.now live.now sums.now kept.items) }
    ensures fault { IfErr result (λ fault. IsWantOr (IsSomeUnkept live.now sums.now) fault) }
{
    let last = last_receipts(alloc, ledger)?;
    let mut all = Vec::new(alloc);
    for place in 0..heads.len() {
        let kept = kept_at(heads[place], live[place], sums[place], &last)?;
        all.push(kept)?;
    }
    Ok(all)
}
