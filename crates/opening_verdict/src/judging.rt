//! The verdict over stores.
ghost use Rattle.std.specs.Prelude.{List, IfOk, IfErr};
ghost use Rattle.sheet_laws.specs.Laws.{StoreSight};
ghost use Rattle.opening_verdict.specs.Views.{AreSeenAs, IsFaultOf, IsVerdictOf};

use crate::accounting::ledger_in_account;
use crate::checking::check;
use crate::seen::{Parts, StoreSeen, parts_of};
use crate::tallying::{all_heads, all_kept, all_sums};
use crate::verdict::Verdict;
use opening_faults::faults::RecoverFault;
use std::alloc::Global;

/// What stores come to that are seen so: the first of the nine faults whose condition holds, or
/// which of them are live and what a world keeps of each.
///
/// # Errors
///
/// The nine faults, want of memory, and `StoreFault` where a live package holds 2^64 bytes or more.
pub fn judge_all(alloc: Global, seen: Vec<StoreSeen>) -> Result<Verdict, RecoverFault>
    ensures stands { IfOk result (λ verdict. (views : List StoreSight) → AreSeenAs seen.items views
        → IsVerdictOf verdict views) }
    ensures fault { IfErr result (λ fault. (views : List StoreSight) → AreSeenAs seen.items views
        → IsFaultOf views fault) }
{
    let Parts {
        sights,
        formed,
        tied,
        held,
    } = parts_of(alloc, seen)?;
    let live = check(alloc, &sights, &formed, &tied)?;
    let heads = all_heads(alloc, sights)?;
    let sums = all_sums(alloc, &held)?;
    let ledger = ledger_in_account(alloc, held, &live)?;
    let kept = all_kept(alloc, &heads, &live, &sums, &ledger)?;
    let count = ledger.len() as u64;
    Ok(Verdict { kept, count })
}
