//! Whether a ledger is sound: each receipt may follow those before it.
ghost use Rattle.std.specs.Prelude.{◌↔◌, [], IsTrue, IfOk};
ghost use Rattle.sheet_types.specs.Balance.{IsLedger};
ghost use Rattle.sheet_ledger.specs.Parts.{AreWellFormed, FollowEachOther, SoundIsItsParts};

use crate::agreeing::agree;
use crate::entering::are_entered;
use crate::forms::{are_counted, are_in_order, have_things};
use crate::laws::sound_is_its_parts;
use crate::moving::start_where_they_ended;
use crate::newness::{add_what_is_new, lend_new_packages};
use crate::numbering::{are_numbered, have_new_requests};
use sheet_types::error::OutOfMemory;
use sheet_types::receipt::Receipt;
use std::alloc::Global;
use uuid::Uuid;

/// Whether these receipts, in the order of their numbers, are a sound ledger of this archive.
///
/// # Errors
///
/// Want of memory.
pub fn is_sound(alloc: Global, archive: Uuid, receipts: &[Receipt]) -> Result<bool, OutOfMemory>
    ensures { IfOk result (λ sound. IsTrue sound ↔ IsLedger archive [] receipts.now) }
{
    sound_is_its_parts();
    let formed = are_well_formed(receipts);
    let follow = follow_each_other(alloc, archive, receipts)?;
    Ok(formed & follow)
}

// Whether each receipt by itself is one that there may be.
fn are_well_formed(receipts: &[Receipt]) -> bool
    ensures { IsTrue result ↔ AreWellFormed receipts.now }
{
    are_entered(receipts) & have_things(receipts) & are_in_order(receipts) & are_counted(receipts)
}

// Whether each receipt follows those before it.
fn follow_each_other(
    alloc: Global,
    archive: Uuid,
    receipts: &[Receipt],
) -> Result<bool, OutOfMemory>
    ensures { IfOk result (λ follow. IsTrue follow ↔ FollowEachOther archive receipts.now) }
{
    let numbers = are_numbered(receipts);
    let requests = have_new_requests(alloc, receipts)?;
    let from_source = start_where_they_ended(alloc, receipts)?;
    let never_before = add_what_is_new(alloc, receipts)?;
    let agrees = agree(alloc, receipts)?;
    let new_loans = lend_new_packages(alloc, archive, receipts)?;
    Ok(numbers & requests & from_source & never_before & agrees & new_loans)
}
