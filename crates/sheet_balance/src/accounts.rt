//! The account of packages: all their receipts in one ledger, and of each package the rest.
ghost use Rattle.std.specs.Prelude.{◌≡◌, ◌≤◌, flat_map, length, sum_by, IfOk};
ghost use Rattle.std.specs.List.{AllZip};
ghost use Rattle.sheet_types.specs.Ordered.{arranged};
ghost use Rattle.sheet_types.specs.World.{World, receipt_key};
ghost use Rattle.sheet_balance.specs.Accounts.{IsAccountOf};
ghost use Rattle.sheet_balance.specs.Holders.{IsRestOf};
ghost use Rattle.sheet_balance.specs.Sights.{IsSeen};

use crate::holders::{Holder, holder_of};
use crate::merges::are_together;
use crate::sights::Sight;
use crate::splits::{Lent, splits_of};
use sheet_types::error::OutOfMemory;
use sheet_types::receipt::Receipt;
use std::alloc::{AllocError, Global};
use std::collections::BTreeMap;
use uuid::Uuid;

/// All that the judge asks of packages. Each receipt is here once, in the ledger. What is asked of
/// receipts by the package in which they stand was asked before.
#[derive(Drop)]
pub struct Account {
    /// The receipts of all packages, in the order of their numbers.
    pub ledger: Vec<Receipt>,
    /// The packages, in turn.
    pub holders: Vec<Holder>,
    /// Under each package the splits that have it as target.
    pub splits: BTreeMap<Uuid, Vec<Lent>>,
    /// Whether each merge stands where each split of its source before it stands.
    pub together: bool,
}

/// The account of packages that are seen so. Their receipts are moved into the ledger.
///
/// # Errors
///
/// Want of memory.
pub fn account_of(alloc: Global, sights: Vec<Sight>) -> Result<Account, OutOfMemory>
    ensures { IfOk result (λ account. (w : World) → IsSeen sights.items w → IsAccountOf account w) }
{
    let splits = splits_of(alloc, sights.as_slice())?;
    let together = are_together(&splits, sights.as_slice());
    let (receipts, holders) = parted(alloc, sights)?;
    let ledger = in_order(receipts)?;
    Ok(Account {
        ledger,
        holders,
        splits,
        together,
    })
}

// How many receipts all packages have; never more than there are.
fn receipt_count(sights: &[Sight]) -> usize
    ensures { result ≤ sum_by (λ s. length s.receipts.items) sights.now }
{
    let mut count: usize = 0;
    for sight in sights {
        count = count.saturating_add(sight.receipts.len());
    }
    count
}

// The receipts of all packages in turn, and the rest of each. Room for the receipts is made once.
fn parted(alloc: Global, sights: Vec<Sight>) -> Result<(Vec<Receipt>, Vec<Holder>), AllocError>
    ensures receipts { IfOk result (λ parts. parts.0.items ≡ flat_map (λ s. s.receipts.items) sights.items) }
    ensures rests { IfOk result (λ parts. AllZip IsRestOf parts.1.items sights.items) }
{
    let mut receipts = Vec::with_capacity(alloc, receipt_count(sights.as_slice()))?;
    let mut holders = Vec::with_capacity(alloc, sights.len())?;
    for sight in sights {
        let holder = holder_of(alloc, sight, &mut receipts)?;
        holders.push(holder)?;
    }
    Ok((receipts, holders))
}

// The receipts in the order of their numbers.
fn in_order(receipts: Vec<Receipt>) -> Result<Vec<Receipt>, AllocError>
    ensures { IfOk result (λ ledger. ledger.items ≡ arranged receipt_key receipts.items) }
{
    let mut ledger = receipts;
    ledger.sort_by_key(|receipt: &Receipt| receipt.seq)?;
    Ok(ledger)
}
