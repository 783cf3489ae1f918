//! The least package of which no store is there, or two.
ghost use Rattle.std.specs.Prelude.{◌≡◌, ◌≢◌, ℕ, List, count_by, IfOk, IfSome, IfNone};
ghost use Rattle.sheet_types.specs.Lines.{IsUuid};
ghost use Rattle.sheet_types.specs.Opening.{IsLeast, IsNever};
ghost use Rattle.sheet_types.specs.Texts.{uuid_text};
ghost use Rattle.opening_faults.specs.Copies.{copies_of, told, is_doubled};
ghost use Rattle.opening_faults.specs.Least.{IsLeastOf, AreWanted, IsPushed, lesser, is_wanted};
ghost use Rattle.opening_faults.specs.Sights.{is_loan_of, TwoCopies, MissingPackage};
ghost use Rattle.opening_faults.specs.Splits.{AreOpenSplits, claim_made};

use crate::copies::{Copies, copies_of, count_heads};
use crate::keys::LoanKey;
use crate::sights::Sight;
use crate::splits::OpenSplit;
use sheet_ledger::fitting::fits;
use sheet_types::error::OutOfMemory;
use sheet_types::reading::read_stored_uuid;
use sheet_types::sorting::uuid_is_before;
use std::alloc::{AllocError, Global};
use std::collections::BTreeMap;
use uuid::Uuid;

/// Which loans are looked for: those that no store is, or those that two are.
#[derive(Clone, Copy)]
pub enum Wanted {
    Missing,
    Doubled,
}

/// The least UUID of an open split that two stores or more are the loan of.
///
/// # Errors
///
/// Want of memory.
pub fn least_copied(
    alloc: Global,
    sights: &[Sight],
    splits: &[OpenSplit],
) -> Result<Option<Uuid>, OutOfMemory>
    requires { AreOpenSplits sights.now splits.now }
    ensures some { IfOk result (λ least. IfSome least (λ id. IsLeast (TwoCopies sights.now) id)) }
    ensures none { IfOk result (λ least. IfNone least (IsNever (TwoCopies sights.now))) }
{
    let ids = ids_wanted(alloc, sights, splits, Wanted::Doubled)?;
    Ok(least_of(ids.as_slice()))
}

/// The least UUID of an open split that no store is the loan of.
///
/// # Errors
///
/// Want of memory.
pub fn least_missing(
    alloc: Global,
    sights: &[Sight],
    splits: &[OpenSplit],
) -> Result<Option<Uuid>, OutOfMemory>
    requires { AreOpenSplits sights.now splits.now }
    ensures some { IfOk result (λ least. IfSome least (λ id. IsLeast (MissingPackage sights.now) id)) }
    ensures none { IfOk result (λ least. IfNone least (IsNever (MissingPackage sights.now))) }
{
    let ids = ids_wanted(alloc, sights, splits, Wanted::Missing)?;
    Ok(least_of(ids.as_slice()))
}

// The UUIDs of the open splits that are looked for.
fn ids_wanted(
    alloc: Global,
    sights: &[Sight],
    splits: &[OpenSplit],
    wanted: Wanted,
) -> Result<Vec<Uuid>, OutOfMemory>
    ensures { IfOk result (λ ids. AreWanted (λ split. is_wanted wanted
        (told (count_by (is_loan_of (claim_made split)) sights.now))) splits.now ids.items) }
{
    let counts = count_heads(alloc, sights)?;
    let ids = wanted_among(alloc, &counts, splits, wanted)?;
    Ok(ids)
}

// The UUIDs of those that are looked for, by the counts.
fn wanted_among(
    alloc: Global,
    counts: &BTreeMap<LoanKey, Copies>,
    splits: &[OpenSplit],
    wanted: Wanted,
) -> Result<Vec<Uuid>, OutOfMemory>
    ensures { IfOk result (λ ids. AreWanted (λ split. is_wanted wanted (copies_of counts.now split)) splits.now
        ids.items) }
{
    let mut ids = Vec::new(alloc);
    for split in splits {
        let copies = copies_of(counts, split)?;
        push_wanted(&mut ids, split, is_wanted(wanted, copies))?;
    }
    Ok(ids)
}

// Whether as many copies are looked for.
fn is_wanted(wanted: Wanted, copies: Option<Copies>) -> bool
    ensures { result ≡ is_wanted wanted copies }
{
    match wanted {
        Wanted::Missing => copies.is_none(),
        Wanted::Doubled => is_doubled(copies),
    }
}

// Whether there are two copies or more.
fn is_doubled(copies: Option<Copies>) -> bool
    ensures { result ≡ is_doubled copies }
{
    match copies {
        Some(Copies::More) => true,
        Some(Copies::One) | None => false,
    }
}

// Puts the UUID of a split behind the others, where the split is looked for and its target is a UUID.
fn push_wanted(ids: &mut Vec<Uuid>, split: &OpenSplit, wanted: bool) -> Result<(), AllocError>
    ensures { IfOk result (λ _. IsPushed wanted split.now.target ids.old.items ids.new.items) }
{
    if !wanted {
        return Ok(());
    }
    let Some(id) = stored_id(split.target.as_str()) else {
        return Ok(());
    };
    ids.push(id)?;
    Ok(())
}

// The UUID of which this is the text.
fn stored_id(text: &str) -> Option<Uuid>
    ensures some { IfSome result (λ id. text.now ≡ uuid_text id) }
    ensures fit { IfSome result (λ id. IsUuid id) }
    ensures none { IfNone result ((id : List ℕ) → IsUuid id → text.now ≢ uuid_text id) }
{
    let id = read_stored_uuid(text)?;
    fits(id);
    Some(id)
}

/// The least of some UUIDs, if there are any.
pub fn least_of(ids: &[Uuid]) -> Option<Uuid>
    ensures { IsLeastOf result ids.now }
{
    let mut least = None;
    for id in ids {
        least = Some(lesser(least, *id));
    }
    least
}

// The lesser of two, or the second where there is no first.
fn lesser(least: Option<Uuid>, id: Uuid) -> Uuid
    ensures { result ≡ lesser least id }
{
    match least {
        Some(least) => { if uuid_is_before(least, id) { least } else { id } }
        None => id,
    }
}
