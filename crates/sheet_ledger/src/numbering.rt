//! Whether receipts are numbered in turn, and whether each is of a request of its own.
ghost use Rattle.std.specs.Prelude.{◌≡◌, ◌↔◌, [], IsTrue, IfOk};
ghost use Rattle.sheet_ledger.specs.Parts.{EachAfter, HasNextNumber, HasNewRequest};

use sheet_types::error::OutOfMemory;
use sheet_types::receipt::Receipt;
use std::alloc::Global;
use std::collections::BTreeSet;
use uuid::Uuid;

/// Whether the numbers of these receipts are 1, 2, 3 and so on.
pub fn are_numbered(receipts: &[Receipt]) -> bool
    ensures { IsTrue result ↔ EachAfter HasNextNumber [] receipts.now }
{
    for (at, receipt) in receipts.iter().enumerate() {
        if receipt.seq != at as u64 + 1 {
            return false;
        }
    }
    true
}

/// Whether no two of these receipts are of one request.
///
/// # Errors
///
/// Want of memory.
pub fn have_new_requests(alloc: Global, receipts: &[Receipt]) -> Result<bool, OutOfMemory>
    ensures { IfOk result (λ new. IsTrue new ↔ EachAfter HasNewRequest [] receipts.now) }
{
    let mut seen: BTreeSet<Uuid> = BTreeSet::new(alloc);
    for receipt in receipts {
        if !seen.insert(receipt.request)? {
            return Ok(false);
        }
    }
    Ok(true)
}
