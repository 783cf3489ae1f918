//! The account over receipts.
ghost use Rattle.std.specs.Prelude.{IfOk};
ghost use Rattle.sheet_ledger.specs.Accounts.{KeepsCustody};
ghost use Rattle.sheet_ledger.specs.Flows.{HasFlows};

use crate::accounts::Account;
use crate::flows::flows;
use crate::places::places;
use sheet_types::error::OutOfMemory;
use sheet_types::receipt::Receipt;
use std::alloc::Global;

/// The account of receipts in the order of their numbers: each thing stands in the target of the
/// last that names it, and each package has what came to it less what left it.
///
/// # Errors
///
/// Want of memory.
pub fn account(alloc: Global, receipts: &[Receipt]) -> Result<Account, OutOfMemory>
    ensures custody { IfOk result (λ account. KeepsCustody account.places receipts.now) }
    ensures sums { IfOk result (λ account. HasFlows account.flows receipts.now) }
{
    let places = places(alloc, receipts)?;
    let flows = flows(alloc, receipts)?;
    Ok(Account { places, flows })
}
