//! Whether a world is balanced.
ghost use Rattle.std.specs.Prelude.{◌↔◌, [], IsTrue, IfOk};
ghost use Rattle.sheet_types.specs.Balance.{Balanced, IsLedger, archive_of};
ghost use Rattle.sheet_types.specs.World.{World};
ghost use Rattle.sheet_balance.specs.Accounts.{IsAccountOf, IsAccounted};
ghost use Rattle.sheet_balance.specs.Sights.{IsSeen};

use crate::accounts::{Account, account_of};
use crate::holders::archive_of;
use crate::holding::holds_what_is_kept;
use crate::homes::are_at_home;
use crate::loans::are_loans;
use crate::sights::Sight;
use crate::sums::sums_add_up;
use sheet_ledger::soundness::is_sound;
use sheet_types::error::OutOfMemory;
use std::alloc::Global;

/// Whether the world whose packages are seen so is balanced: its ledger is sound, and accounts for
/// each thing and for the sums of each package. Yes exactly where it is.
///
/// # Errors
///
/// Want of memory.
pub fn judge(alloc: Global, sights: Vec<Sight>) -> Result<bool, OutOfMemory>
    ensures { IfOk result (λ balanced. (w : World) → IsSeen sights.items w → IsTrue balanced ↔ Balanced w) }
{
    let account = account_of(alloc, sights)?;
    judge_account(alloc, &account)
}

/// The same by its account.
///
/// # Errors
///
/// Want of memory.
pub fn judge_account(alloc: Global, account: &Account) -> Result<bool, OutOfMemory>
    ensures { IfOk result (λ balanced. (w : World) → IsAccountOf account.now w → IsTrue balanced ↔ Balanced w) }
{
    let Some(archive) = archive_of(account.holders.as_slice()) else {
        return Ok(false);
    };
    if !is_sound(alloc, archive, account.ledger.as_slice())? {
        return Ok(false);
    }
    is_accounted(alloc, account)
}

// Whether a sound ledger accounts for what is held, and its receipts stand where they ought to.
fn is_accounted(alloc: Global, account: &Account) -> Result<bool, OutOfMemory>
    ensures { IfOk result (λ accounted. (w : World) → IsAccountOf account.now w
        → IsLedger (archive_of w) [] account.now.ledger.items → IsTrue accounted ↔ IsAccounted w) }
{
    let ledger = account.ledger.as_slice();
    let holders = account.holders.as_slice();
    let custody = holds_what_is_kept(alloc, ledger, holders)?;
    let sums = sums_add_up(alloc, ledger, holders)?;
    let loans = are_loans(alloc, ledger, &account.splits, holders)?;
    let homes = are_at_home(alloc, ledger, holders)?;
    Ok(custody & sums & loans & homes & account.together)
}
