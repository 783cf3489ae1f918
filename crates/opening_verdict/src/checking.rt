//! The first seven faults, in their order: one function a fault.
ghost use Rattle.std.specs.Prelude.{◌≡◌, Bool, List, IfOk, IfErr};
ghost use Rattle.sheet_types.specs.Opening.{IsNever};
ghost use Rattle.opening_faults.specs.Sights.{IsOne, TwoCopies, MissingPackage, ForeignFrame};
ghost use Rattle.opening_faults.specs.Splits.{AreOpenSplits};
ghost use Rattle.opening_verdict.specs.Checks.{flags_of, HasUnfit, AreChecked, IsFirstOf};

use opening_faults::archives::{has_no_archive, has_two_archives};
use opening_faults::faults::RecoverFault;
use opening_faults::foreign::least_foreign;
use opening_faults::least::{least_copied, least_missing};
use opening_faults::reaching::reach;
use opening_faults::sights::Sight;
use opening_faults::splits::OpenSplit;
use opening_faults::unfit::least_unfit;
use std::alloc::Global;

/// Which stores are live, place by place, where none of the first seven faults holds; else the first that does.
///
/// # Errors
///
/// The first seven faults, and want of memory.
pub fn check(
    alloc: Global,
    sights: &[Sight],
    formed: &[bool],
    tied: &[bool],
) -> Result<Vec<bool>, RecoverFault>
    ensures live { IfOk result (λ live. live.items ≡ flags_of sights.now) }
    ensures checked { IfOk result (λ _. AreChecked sights.now formed.now tied.now) }
    ensures fault { IfErr result (λ fault. IsFirstOf sights.now formed.now tied.now fault) }
{
    check_archives(sights)?;
    let reached = reach(alloc, sights)?;
    let live = reached.live.as_slice();
    check_formed(alloc, sights, live, formed)?;
    check_splits(alloc, sights, reached.splits.as_slice())?;
    check_tied(alloc, sights, live, tied)?;
    Ok(reached.live)
}

// That one store is an archive's.
fn check_archives(sights: &[Sight]) -> Result<(), RecoverFault>
    ensures one { IfOk result (λ _. IsOne sights.now) }
    ensures fault { IfErr result (λ fault. (formed tied : List Bool) → IsFirstOf sights.now formed tied fault) }
{
    if has_no_archive(sights) {
        return Err(RecoverFault::NoArchive);
    }
    if has_two_archives(sights) {
        return Err(RecoverFault::TwoArchives);
    }
    Ok(())
}

// That each live store is formed.
fn check_formed(
    alloc: Global,
    sights: &[Sight],
    live: &[bool],
    formed: &[bool],
) -> Result<(), RecoverFault>
    requires one { IsOne sights.now }
    requires live { live.now ≡ flags_of sights.now }
    ensures formed { IfOk result (λ _. IsNever (HasUnfit sights.now formed.now)) }
    ensures fault { IfErr result (λ fault. (tied : List Bool) → IsFirstOf sights.now formed.now tied fault) }
{
    match least_unfit(alloc, sights, live, formed)? {
        Some(id) => Err(RecoverFault::NotAPackage(id)),
        None => Ok(()),
    }
}

// That each open split has one loan, and that it is at home.
fn check_splits(alloc: Global, sights: &[Sight], splits: &[OpenSplit]) -> Result<(), RecoverFault>
    requires one { IsOne sights.now }
    requires splits { AreOpenSplits sights.now splits.now }
    ensures no_copies { IfOk result (λ _. IsNever (TwoCopies sights.now)) }
    ensures none_missing { IfOk result (λ _. IsNever (MissingPackage sights.now)) }
    ensures at_home { IfOk result (λ _. IsNever (ForeignFrame sights.now)) }
    ensures fault { IfErr result (λ fault. (formed tied : List Bool) → IsNever (HasUnfit sights.now formed)
        → IsFirstOf sights.now formed tied fault) }
{
    check_copies(alloc, sights, splits)?;
    check_missing(alloc, sights, splits)?;
    check_homes(alloc, sights, splits)
}

// That no two stores are the loan of an open split.
fn check_copies(alloc: Global, sights: &[Sight], splits: &[OpenSplit]) -> Result<(), RecoverFault>
    requires one { IsOne sights.now }
    requires splits { AreOpenSplits sights.now splits.now }
    ensures no_copies { IfOk result (λ _. IsNever (TwoCopies sights.now)) }
    ensures fault { IfErr result (λ fault. (formed tied : List Bool) → IsNever (HasUnfit sights.now formed)
        → IsFirstOf sights.now formed tied fault) }
{
    match least_copied(alloc, sights, splits)? {
        Some(id) => Err(RecoverFault::TwoCopies(id)),
        None => Ok(()),
    }
}

// That some store is the loan of each open split.
fn check_missing(alloc: Global, sights: &[Sight], splits: &[OpenSplit]) -> Result<(), RecoverFault>
    requires one { IsOne sights.now }
    requires splits { AreOpenSplits sights.now splits.now }
    requires no_copies { IsNever (TwoCopies sights.now) }
    ensures none_missing { IfOk result (λ _. IsNever (MissingPackage sights.now)) }
    ensures fault { IfErr result (λ fault. (formed tied : List Bool) → IsNever (HasUnfit sights.now formed)
        → IsFirstOf sights.now formed tied fault) }
{
    match least_missing(alloc, sights, splits)? {
        Some(id) => Err(RecoverFault::MissingPackage(id)),
        None => Ok(()),
    }
}

// That each loan of an open split is at home.
fn check_homes(alloc: Global, sights: &[Sight], splits: &[OpenSplit]) -> Result<(), RecoverFault>
    requires one { IsOne sights.now }
    requires splits { AreOpenSplits sights.now splits.now }
    requires no_copies { IsNever (TwoCopies sights.now) }
    requires none_missing { IsNever (MissingPackage sights.now) }
    ensures at_home { IfOk result (λ _. IsNever (ForeignFrame sights.now)) }
    ensures fault { IfErr result (λ fault. (formed tied : List Bool) → IsNever (HasUnfit sights.now formed)
        → IsFirstOf sights.now formed tied fault) }
{
    match least_foreign(alloc, sights, splits)? {
        Some(id) => Err(RecoverFault::ForeignFrame(id)),
        None => Ok(()),
    }
}

// That each live store is tied.
fn check_tied(
    alloc: Global,
    sights: &[Sight],
    live: &[bool],
    tied: &[bool],
) -> Result<(), RecoverFault>
    requires live { live.now ≡ flags_of sights.now }
    ensures tied { IfOk result (λ _. IsNever (HasUnfit sights.now tied.now)) }
    ensures fault { IfErr result (λ fault. (formed : List Bool) → IsOne sights.now
        → IsNever (HasUnfit sights.now formed) → IsNever (TwoCopies sights.now)
        → IsNever (MissingPackage sights.now)
        → IsNever (ForeignFrame sights.now) → IsFirstOf sights.now formed tied.now fault) }
{
    match least_unfit(alloc, sights, live, tied)? {
        Some(id) => Err(RecoverFault::Dangling(id)),
        None => Ok(()),
    }
}
