//! Which splits are open: of each package the greatest number of a merge is noted.
ghost use Rattle.std.specs.Prelude.{◌≡◌, ◌&&◌, ◌||◌, ℕ, ℤ, List, false, map, length, bytes_eq};
ghost use Rattle.std.specs.Prelude.{nat_lt, int_lt, IfOk};
ghost use Rattle.std.specs.List.{list_any};
ghost use Rattle.std.specs.Option.{option_map_or};
ghost use Rattle.sheet_types.specs.Opening.{claims_merge};
ghost use Rattle.opening_faults.specs.Sights.{claim_said};
ghost use Rattle.opening_faults.specs.Merges.{is_above, is_open_by, merges_after};

use crate::claiming::{claims_merge, claims_split};
use crate::sights::StoreClaim;
use std::alloc::{AllocError, Global};
use std::collections::BTreeMap;

/// Notes the merges among some claims: of each source the greatest number.
///
/// # Errors
///
/// Want of memory; then some of them may be noted.
pub fn note_merges(
    alloc: Global,
    merges: &mut BTreeMap<String, i64>,
    claims: &[StoreClaim],
) -> Result<(), AllocError>
    ensures { IfOk result (λ _. (source : List ℕ) (n : ℤ) → is_above merges.new source n
        ≡ (is_above merges.old source n || list_any (merges_after source n) (map claim_said claims.now))) }
{
    for claim in claims {
        note_claim(alloc, merges, claim)?;
    }
    Ok(())
}

// Notes a claim where it is a merge.
fn note_claim(
    alloc: Global,
    merges: &mut BTreeMap<String, i64>,
    claim: &StoreClaim,
) -> Result<(), AllocError>
    ensures { IfOk result (λ _. (source : List ℕ) (n : ℤ) → is_above merges.new source n
        ≡ (is_above merges.old source n || merges_after source n (claim_said claim.now))) }
{
    if !claims_merge(claim) {
        return Ok(());
    }
    note_merge(alloc, merges, claim.source.as_str(), claim.seq)
}

// Notes a merge of this source and number.
fn note_merge(
    alloc: Global,
    merges: &mut BTreeMap<String, i64>,
    source: &str,
    seq: i64,
) -> Result<(), AllocError>
    ensures { IfOk result (λ _. (p : List ℕ) (n : ℤ) → is_above merges.new p n
        ≡ (is_above merges.old p n || (bytes_eq source.now p && int_lt n seq))) }
{
    let last = merges.get(source).copied();
    let name = String::from_str(alloc, source)?;
    merges.insert(name, greatest(last, seq))?;
    Ok(())
}

// The greater of two numbers, or the second where there is no first.
fn greatest(last: Option<i64>, seq: i64) -> i64
    ensures { (n : ℤ) → int_lt n result ≡ (option_map_or (int_lt n) last false || int_lt n seq) }
{
    match last {
        Some(last) => greater(last, seq),
        None => seq,
    }
}

// The greater of two numbers.
fn greater(a: i64, b: i64) -> i64
    ensures { (n : ℤ) → int_lt n result ≡ (int_lt n a || int_lt n b) }
{
    if a < b { b } else { a }
}

/// Whether a claim is a split with a target of which no later merge is noted.
pub fn is_open(merges: &BTreeMap<String, i64>, claim: &StoreClaim) -> bool
    ensures { result ≡ is_open_by merges.now (claim_said claim.now) }
{
    claims_split(claim) && has_target(claim) && !is_merged(merges, claim)
}

// Whether a claim names a target.
fn has_target(claim: &StoreClaim) -> bool
    ensures { result ≡ nat_lt 0 (length claim.now.target) }
{
    !claim.target.as_str().is_empty()
}

// Whether a merge of a greater number is noted of the target.
fn is_merged(merges: &BTreeMap<String, i64>, claim: &StoreClaim) -> bool
    ensures { result ≡ is_above merges.now claim.now.target claim.now.seq }
{
    match merges.get(claim.target.as_str()) {
        Some(last) => claim.seq < *last,
        None => false,
    }
}
