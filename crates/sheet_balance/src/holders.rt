//! What the judge sees of a package whose receipts stand in the ledger.
ghost use Rattle.std.specs.Prelude.{◌≡◌, ◌++◌, map, Some, IfOk};
ghost use Rattle.sheet_types.specs.Balance.{archive_of};
ghost use Rattle.sheet_types.specs.World.{World};
ghost use Rattle.sheet_balance.specs.Holders.{IsHeld, IsRestOf, archive_seen};

use crate::sights::Sight;
use sheet_types::collections::MovedList;
use sheet_types::receipt::Receipt;
use std::alloc::{AllocError, Global};
use uuid::Uuid;

/// A package as the judge sees it once its receipts stand in the ledger: of these it has the
/// numbers alone.
#[derive(Drop)]
pub struct Holder {
    pub uuid: Uuid,
    /// The package that it was lent by; none of the archive.
    pub parent: Option<Uuid>,
    /// The number of the split that made it; 0 of the archive.
    pub loan: u64,
    /// Its items, as `Moved::of_item` says them, in their order.
    pub items: MovedList,
    /// Its links, as `Moved::of_link` says them, in their order.
    pub links: MovedList,
    /// The numbers of its receipts, in their order.
    pub numbers: Vec<u64>,
}

/// Takes the receipts out of a package and puts them behind the others.
///
/// # Errors
///
/// Want of memory.
pub(crate) fn holder_of(
    alloc: Global,
    sight: Sight,
    receipts: &mut Vec<Receipt>,
) -> Result<Holder, AllocError>
    ensures rest { IfOk result (λ holder. IsRestOf holder sight) }
    ensures moved { IfOk result (λ _. receipts.new.items ≡ receipts.old.items ++ sight.receipts.items) }
{
    let numbers = numbers_of(alloc, sight.receipts.as_slice())?;
    push_all(receipts, sight.receipts)?;
    Ok(Holder {
        uuid: sight.uuid,
        parent: sight.parent,
        loan: sight.loan,
        items: sight.items,
        links: sight.links,
        numbers,
    })
}

// Puts these behind the others.
fn push_all(all: &mut Vec<Receipt>, receipts: Vec<Receipt>) -> Result<(), AllocError>
    ensures { IfOk result (λ _. all.new.items ≡ all.old.items ++ receipts.items) }
{
    all.extend(receipts)
}

// The numbers of receipts, in turn.
fn numbers_of(alloc: Global, receipts: &[Receipt]) -> Result<Vec<u64>, AllocError>
    ensures { IfOk result (λ numbers. numbers.items ≡ map (λ r. r.seq) receipts.now) }
{
    receipts
        .iter()
        .map(|receipt: &Receipt| receipt.seq)
        .collect(alloc)
}

/// The UUID of the package without parent.
pub fn archive_of(holders: &[Holder]) -> Option<Uuid>
    ensures { (w : World) → IsHeld holders.now w → result ≡ Some (archive_of w) }
{
    first_archive(holders)
}

// The UUID of the first without parent.
fn first_archive(holders: &[Holder]) -> Option<Uuid>
    ensures { result ≡ archive_seen holders.now }
{
    for holder in holders {
        if holder.parent.is_none() {
            return Some(holder.uuid);
        }
    }
    None
}
