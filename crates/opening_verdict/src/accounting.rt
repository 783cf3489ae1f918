//! The last two faults: the ledger that does not account for what is held, and the item that is not as it was added.
ghost use Rattle.std.specs.Prelude.{◌≡◌, [], length, IfOk, IfErr};
ghost use Rattle.sheet_types.specs.Balance.{Balanced, altered};
ghost use Rattle.sheet_types.specs.Ordered.{arranged, IsArranged};
ghost use Rattle.sheet_types.specs.World.{World};
ghost use Rattle.sheet_balance.specs.Accounts.{IsAccountOf};
ghost use Rattle.opening_verdict.specs.Accounts.{sight_key, taken, IsWorldOf, IsInAccount, IsLastOf};

use crate::arranging::{arranged_live, do_rise};
use opening_faults::altered::least_altered;
use opening_faults::faults::RecoverFault;
use sheet_balance::accounts::{Account, account_of};
use sheet_balance::judging::judge_account;
use sheet_balance::sights::Sight as PackageSight;
use sheet_types::receipt::Receipt;
use std::alloc::Global;

/// The ledger of the live packages, where none of the last two faults holds; else the first that does.
/// Their receipts are moved into it.
///
/// # Errors
///
/// The last two faults, and want of memory.
pub(crate) fn ledger_in_account(
    alloc: Global,
    held: Vec<PackageSight>,
    live: &[bool],
) -> Result<Vec<Receipt>, RecoverFault>
    requires { length live.now ≡ length held.items }
    ensures ledger { IfOk result (λ ledger. (w : World) → IsWorldOf
        (arranged sight_key (taken live.now held.items)) w
        → IsInAccount ledger.items w) }
    ensures fault { IfErr result (λ fault. (w : World) → IsWorldOf (arranged sight_key (taken live.now held.items)) w
        → IsLastOf w fault) }
{
    let sorted = arranged_live(alloc, held, live)?;
    check_apart(sorted.as_slice())?;
    let account = account_of(alloc, sorted)?;
    check_balance(alloc, &account)?;
    check_altered(alloc, &account)?;
    Ok(account.ledger)
}

// That no two packages have one UUID.
fn check_apart(sights: &[PackageSight]) -> Result<(), RecoverFault>
    ensures apart { IfOk result (λ _. IsArranged sight_key sights.now) }
    ensures fault { IfErr result (λ fault. (w : World) → IsWorldOf sights.now w → IsLastOf w fault) }
{
    if !do_rise(sights) {
        return Err(RecoverFault::OutOfAccount);
    }
    Ok(())
}

// That the ledger accounts for the packages.
fn check_balance(alloc: Global, account: &Account) -> Result<(), RecoverFault>
    ensures balanced { IfOk result (λ _. (w : World) → IsAccountOf account.now w → Balanced w) }
    ensures fault { IfErr result (λ fault. (w : World) → IsAccountOf account.now w → IsLastOf w fault) }
{
    if !judge_account(alloc, account)? {
        return Err(RecoverFault::OutOfAccount);
    }
    Ok(())
}

// That each item is as it was added.
fn check_altered(alloc: Global, account: &Account) -> Result<(), RecoverFault>
    ensures unaltered { IfOk result (λ _. (w : World) → IsAccountOf account.now w → altered w ≡ []) }
    ensures fault { IfErr result (λ fault. (w : World) → IsAccountOf account.now w → Balanced w
        → IsLastOf w fault) }
{
    match least_altered(alloc, account.ledger.as_slice(), account.holders.as_slice())? {
        Some(id) => Err(RecoverFault::Altered(id)),
        None => Ok(()),
    }
}
