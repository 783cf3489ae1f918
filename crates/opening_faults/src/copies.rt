//! How many stores are the loan of each open split.
ghost use Rattle.std.specs.Prelude.{◌≡◌, ℕ, List, Some, bytes_eq, count_by, if◌then◌else◌, IfOk};
ghost use Rattle.std.specs.Ordering.{nat_cmp};
ghost use Rattle.std.specs.Cmp.Lexicographic.{slice_cmp};
ghost use Rattle.std.specs.BTreeMap.{get};
ghost use Rattle.opening_faults.specs.Splits.{has_key};
ghost use Rattle.opening_faults.specs.Copies.{told, told_more, copies_of};

use crate::keys::LoanKey;
use crate::sights::Sight;
use crate::splits::OpenSplit;
use sheet_types::error::OutOfMemory;
use std::alloc::Global;
use std::collections::BTreeMap;

/// How many stores have a key, as far as it matters.
#[derive(Clone, Copy)]
pub enum Copies {
    One,
    More,
}

/// Of each key that a store has whether one store has it or more.
///
/// # Errors
///
/// Want of memory.
pub fn count_heads(
    alloc: Global,
    sights: &[Sight],
) -> Result<BTreeMap<LoanKey, Copies>, OutOfMemory>
    ensures { IfOk result (λ counts. (key : List ℕ) → get (slice_cmp nat_cmp) counts key
        ≡ told (count_by (has_key key) sights.now)) }
{
    let mut counts = BTreeMap::new(alloc);
    for sight in sights {
        count_sight(alloc, &mut counts, sight)?;
    }
    Ok(counts)
}

// Counts a store, where it has a head.
fn count_sight(
    alloc: Global,
    counts: &mut BTreeMap<LoanKey, Copies>,
    sight: &Sight,
) -> Result<(), OutOfMemory>
    ensures { IfOk result (λ _. (key : List ℕ) → get (slice_cmp nat_cmp) counts.new key
        ≡ (if has_key key sight.now then Some (told_more (get (slice_cmp nat_cmp) counts.old key)) else get
        (slice_cmp nat_cmp) counts.old key)) }
{
    match &sight.head {
        Some(head) => count_key(counts, LoanKey::of_head(alloc, head)?),
        None => Ok(()),
    }
}

// Counts a key.
fn count_key(counts: &mut BTreeMap<LoanKey, Copies>, key: LoanKey) -> Result<(), OutOfMemory>
    ensures { IfOk result (λ _. (q : List ℕ) → get (slice_cmp nat_cmp) counts.new q
        ≡ (if bytes_eq key q then Some (told_more (get (slice_cmp nat_cmp) counts.old q)) else get (slice_cmp nat_cmp)
        counts.old q)) }
{
    let more = one_more(counts.get(&key).copied());
    counts.insert(key, more)?;
    Ok(())
}

// One store more.
fn one_more(copies: Option<Copies>) -> Copies
    ensures { result ≡ told_more copies }
{
    match copies {
        Some(_) => Copies::More,
        None => Copies::One,
    }
}

/// How many stores are the loan of a split.
///
/// # Errors
///
/// Want of memory.
pub fn copies_of(
    counts: &BTreeMap<LoanKey, Copies>,
    split: &OpenSplit,
) -> Result<Option<Copies>, OutOfMemory>
    ensures { IfOk result (λ copies. copies ≡ copies_of counts.now split.now) }
{
    match LoanKey::of_split(split)? {
        Some(key) => Ok(counts.get(&key).copied()),
        None => Ok(None),
    }
}
