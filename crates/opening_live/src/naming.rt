//! Which stores may live: those of an archive, and those that a store names by a split that it does not itself say has
//! come home. All that live are among them, and of loans that came home hardly one.
ghost use Rattle.std.specs.Prelude.{◌≡◌, ◌||◌, ◌&&◌, ℕ, List, map, filter, bytes_eq, IfOk};
ghost use Rattle.std.specs.List.{list_any};
ghost use Rattle.std.specs.Ordering.{nat_cmp};
ghost use Rattle.std.specs.Cmp.Lexicographic.{slice_cmp};
ghost use Rattle.std.specs.BTreeSet.{contains};
ghost use Rattle.opening_faults.specs.Sights.{claim_said, claims_seen, is_root};
ghost use Rattle.opening_faults.specs.Merges.{HasMerges, is_open_by};
ghost use Rattle.opening_faults.specs.Splits.{split_made, makes_key, is_lent_in};
ghost use Rattle.opening_live.specs.Named.{names, names_by};

use opening_faults::archives::is_root;
use opening_faults::keys::LoanKey;
use opening_faults::merging::{is_open, note_merges};
use opening_faults::sights::{Sight, StoreClaim, StoreHead};
use opening_faults::splits::OpenSplit;
use sheet_types::error::OutOfMemory;
use std::alloc::{AllocError, Global};
use std::collections::{BTreeMap, BTreeSet};

/// Of each package the last merge that a store claims.
fn merges_of(alloc: Global, claims: &[StoreClaim]) -> Result<BTreeMap<String, i64>, AllocError>
    ensures { IfOk result (λ merges. HasMerges merges (map claim_said claims.now)) }
{
    let mut merges = BTreeMap::new(alloc);
    note_merges(alloc, &mut merges, claims)?;
    Ok(merges)
}

/// Notes a key.
fn note(loans: &mut BTreeSet<LoanKey>, key: LoanKey) -> Result<(), OutOfMemory>
    ensures { IfOk result (λ _. (q : List ℕ) →
        contains (slice_cmp nat_cmp) loans.new q ≡ (contains (slice_cmp nat_cmp) loans.old q || bytes_eq key q)) }
{
    loans.insert(key)?;
    Ok(())
}

/// Notes the key of the loan that a split made.
fn note_split(loans: &mut BTreeSet<LoanKey>, split: &OpenSplit) -> Result<(), OutOfMemory>
    ensures { IfOk result (λ _. (key : List ℕ) →
        contains (slice_cmp nat_cmp) loans.new key ≡ (contains (slice_cmp nat_cmp) loans.old key || makes_key key
        split.now)) }
{
    match LoanKey::of_split(split)? {
        Some(key) => note(loans, key),
        None => Ok(()),
    }
}

/// Notes the loan of a claim, where it is a split that is open by these merges.
fn note_claim(
    loans: &mut BTreeSet<LoanKey>,
    merges: &BTreeMap<String, i64>,
    head: &StoreHead,
    claim: &StoreClaim,
) -> Result<(), OutOfMemory>
    ensures { IfOk result (λ _. (key : List ℕ) →
        contains (slice_cmp nat_cmp) loans.new key ≡ (contains (slice_cmp nat_cmp) loans.old key
        || names (is_open_by merges.now) head.now (claim_said claim.now) key)) }
{
    if !is_open(merges, claim) {
        return Ok(());
    }
    let target = claim.target.try_clone()?;
    let split = OpenSplit {
        above: *head,
        target,
        seq: claim.seq,
    };
    note_split(loans, &split)
}

/// Notes the loans of those of some claims that are splits that are open by these merges.
fn note_claims(
    loans: &mut BTreeSet<LoanKey>,
    merges: &BTreeMap<String, i64>,
    head: &StoreHead,
    claims: &[StoreClaim],
) -> Result<(), OutOfMemory>
    ensures { IfOk result (λ _. (key : List ℕ) →
        contains (slice_cmp nat_cmp) loans.new key ≡ (contains (slice_cmp nat_cmp) loans.old key
        || list_any (λ claim. names (is_open_by merges.now) head.now (claim_said claim) key) claims.now)) }
{
    for claim in claims {
        note_claim(loans, merges, head, claim)?;
    }
    Ok(())
}

/// Notes the loans that a store names.
fn note_store(
    alloc: Global,
    loans: &mut BTreeSet<LoanKey>,
    sight: &Sight,
) -> Result<(), OutOfMemory>
    ensures { IfOk result (λ _. (key : List ℕ) →
        contains (slice_cmp nat_cmp) loans.new key ≡ (contains (slice_cmp nat_cmp) loans.old key || names_by sight.now
        key)) }
{
    match &sight.head {
        Some(head) => {
            let merges = merges_of(alloc, sight.claims.as_slice())?;
            note_claims(loans, &merges, head, sight.claims.as_slice())
        }
        None => Ok(()),
    }
}

/// The loans that stores name.
pub(crate) fn loans_named(alloc: Global, sights: &[Sight]) -> Result<BTreeSet<LoanKey>, OutOfMemory>
    ensures { IfOk result (λ loans. (key : List ℕ) →
        contains (slice_cmp nat_cmp) loans key ≡ list_any (λ s. names_by s key) sights.now) }
{
    let mut loans = BTreeSet::new(alloc);
    for sight in sights {
        note_store(alloc, &mut loans, sight)?;
    }
    Ok(loans)
}

/// Whether a store is one of these loans.
fn is_lent(alloc: Global, loans: &BTreeSet<LoanKey>, sight: &Sight) -> Result<bool, OutOfMemory>
    ensures { IfOk result (λ lent. lent ≡ is_lent_in loans.now sight.now) }
{
    match &sight.head {
        Some(head) => Ok(loans.contains(&LoanKey::of_head(alloc, head)?)),
        None => Ok(false),
    }
}

/// Whether a store is an archive's or one of these loans.
fn is_named(alloc: Global, loans: &BTreeSet<LoanKey>, sight: &Sight) -> Result<bool, OutOfMemory>
    ensures { IfOk result (λ named. named ≡ (is_root sight.now || is_lent_in loans.now sight.now)) }
{
    if is_root(sight) {
        return Ok(true);
    }
    is_lent(alloc, loans, sight)
}

/// Which stores are an archive's or one of these loans.
pub(crate) fn all_named(
    alloc: Global,
    loans: &BTreeSet<LoanKey>,
    sights: &[Sight],
) -> Result<Vec<bool>, OutOfMemory>
    ensures { IfOk result (λ flags. flags.items ≡ map (λ s. is_root s || is_lent_in loans.now s) sights.now) }
{
    let mut flags = Vec::new(alloc);
    for sight in sights {
        let named = is_named(alloc, loans, sight)?;
        flags.push(named)?;
    }
    Ok(flags)
}

/// Those of some stores that are an archive's or one of these loans.
pub(crate) fn those_named(
    alloc: Global,
    loans: &BTreeSet<LoanKey>,
    sights: Vec<Sight>,
) -> Result<Vec<Sight>, OutOfMemory>
    ensures { IfOk result (λ chosen. chosen.items ≡ filter (λ s. is_root s || is_lent_in loans.now s)
        sights.items) }
{
    let mut chosen = Vec::new(alloc);
    for sight in sights {
        if is_named(alloc, loans, &sight)? {
            chosen.push(sight)?;
        }
    }
    Ok(chosen)
}
