//! Which stores are live, and which splits are open.
ghost use Rattle.std.specs.Prelude.{◌≡◌, ◌++◌, ◌||◌, ◌&&◌, ◌∷◌, ℕ, ℤ, suc, List, [], map};
ghost use Rattle.std.specs.Prelude.{filter, flat_map, unwrap_or};
ghost use Rattle.std.specs.Prelude.{slice_get, bytes_eq, IfOk, if◌then◌else◌};
ghost use Rattle.std.specs.List.{list_any};
ghost use Rattle.std.specs.Ordering.{nat_cmp};
ghost use Rattle.std.specs.Cmp.Lexicographic.{slice_cmp};
ghost use Rattle.std.specs.BTreeSet.{contains};
ghost use Rattle.opening_faults.specs.Sights.{claim_said, claims_seen, claims_at, is_live_store, is_root};
ghost use Rattle.opening_faults.specs.Standings.{standing, is_fresh, is_found, one_later};
ghost use Rattle.opening_faults.specs.Turns.{IsTurn, said_before, splits_at};
ghost use Rattle.opening_faults.specs.Merges.{HasMerges, is_above, is_open_by, merges_after};
ghost use Rattle.opening_faults.specs.Splits.{AreOpenSplits, splits_in, splits_among, split_made, makes_key};
ghost use Rattle.opening_faults.specs.Splits.{is_lent_in};
ghost use Rattle.opening_faults.specs.declared.sights.Sight.{Sight};
ghost use Rattle.opening_faults.specs.declared.standing.Standing.{Standing};
ghost use Rattle.opening_faults.specs.declared.standing.Standing.TheVariants.{Stray, Fresh};

use crate::archives::is_root;
use crate::keys::LoanKey;
use crate::merging::{is_open, note_merges};
use crate::sights::{Sight, StoreClaim, StoreHead};
use crate::splits::{OpenSplit, Reached};
use crate::standing::Standing;
use sheet_types::error::OutOfMemory;
use std::alloc::{AllocError, Global};
use std::collections::{BTreeMap, BTreeSet};

/// What is found from the archive downwards: a store of a round is the loan of a split of a store
/// found before that no merge found before undoes. A split is judged by what is found up to the
/// round of its store.
///
/// # Errors
///
/// Want of memory.
pub fn reach(alloc: Global, sights: &[Sight]) -> Result<Reached, OutOfMemory>
    ensures live { IfOk result (λ reached. reached.live.items ≡ map (is_live_store sights.now) sights.now) }
    ensures splits { IfOk result (λ reached. AreOpenSplits sights.now reached.splits.items) }
{
    let mut standings = first_standings(alloc, sights)?;
    let mut merges = BTreeMap::new(alloc);
    let mut splits = Vec::new(alloc);
    for round in 0..sights.len() {
        standings = one_round(
            alloc,
            &mut merges,
            &mut splits,
            sights,
            standings.as_slice(),
        )?;
    }
    let opened = open_now(alloc, &mut merges, sights, standings.as_slice())?;
    push_all(&mut splits, opened)?;
    let live = found_flags(alloc, standings.as_slice())?;
    Ok(Reached { live, splits })
}

// One round: the open splits of the stores that are found just now are listed, and the stores that they made are found.
fn one_round(
    alloc: Global,
    merges: &mut BTreeMap<String, i64>,
    splits: &mut Vec<OpenSplit>,
    sights: &[Sight],
    standings: &[Standing],
) -> Result<Vec<Standing>, OutOfMemory>
    ensures { IfOk result (λ later. (k : ℕ) → IsTurn sights.now k standings.now merges.old splits.old.items
        → IsTurn sights.now (suc k) later.items merges.new splits.new.items) }
{
    let opened = open_now(alloc, merges, sights, standings)?;
    let loans = keys_of(alloc, opened.as_slice())?;
    let later = later_standings(alloc, sights, standings, &loans)?;
    push_all(splits, opened)?;
    Ok(later)
}

// The open splits of the stores that are found just now, whose merges are noted first.
fn open_now(
    alloc: Global,
    merges: &mut BTreeMap<String, i64>,
    sights: &[Sight],
    standings: &[Standing],
) -> Result<Vec<OpenSplit>, OutOfMemory>
    ensures merged { IfOk result (λ _. (k : ℕ) → standings.now ≡ map (standing k sights.now) sights.now
        → HasMerges merges.old (said_before sights.now k) → HasMerges merges.new (claims_at k sights.now)) }
    ensures opened { IfOk result (λ opened. (k : ℕ) → standings.now ≡ map (standing k sights.now) sights.now
        → HasMerges merges.old (said_before sights.now k) → opened.items ≡ splits_at k sights.now) }
{
    note_fresh(alloc, merges, sights, standings)?;
    let opened = open_splits(alloc, merges, sights, standings)?;
    Ok(opened)
}

// Puts these behind the others.
fn push_all(splits: &mut Vec<OpenSplit>, more: Vec<OpenSplit>) -> Result<(), AllocError>
    ensures { IfOk result (λ _. splits.new.items ≡ splits.old.items ++ more.items) }
{
    splits.extend(more)
}

// How each store stands before any round.
fn first_standings(alloc: Global, sights: &[Sight]) -> Result<Vec<Standing>, AllocError>
    ensures { IfOk result (λ standings. standings.items ≡ map (standing 0 sights.now) sights.now) }
{
    sights.iter().map(first_standing).collect(alloc)
}

// How a store stands before any round.
fn first_standing(sight: &Sight) -> Standing
    ensures { result ≡ (if is_root sight.now then Fresh else Stray) }
{
    if is_root(sight) {
        Standing::Fresh
    } else {
        Standing::Stray
    }
}

// Which of the stores are found.
fn found_flags(alloc: Global, standings: &[Standing]) -> Result<Vec<bool>, AllocError>
    ensures { IfOk result (λ live. live.items ≡ map is_found standings.now) }
{
    standings.iter().map(is_found).collect(alloc)
}

// Whether a store is found.
fn is_found(standing: &Standing) -> bool
    ensures { result ≡ is_found standing.now }
{
    match standing {
        Standing::Stray => false,
        Standing::Fresh | Standing::Settled => true,
    }
}

// Whether a store is found just now.
fn is_fresh(standing: Standing) -> bool
    ensures { result ≡ is_fresh standing }
{
    match standing {
        Standing::Fresh => true,
        Standing::Stray | Standing::Settled => false,
    }
}

// How the store at a place stands.
fn standing_at(standings: &[Standing], place: usize) -> Standing
    ensures { result ≡ unwrap_or (slice_get standings.now place) Stray }
{
    standings.get(place).copied().unwrap_or(Standing::Stray)
}

// Notes the merges of the stores that are found just now.
fn note_fresh(
    alloc: Global,
    merges: &mut BTreeMap<String, i64>,
    sights: &[Sight],
    standings: &[Standing],
) -> Result<(), AllocError>
    ensures { IfOk result (λ _. (t : Sight → Standing) → standings.now ≡ map t sights.now
        → (source : List ℕ) (n : ℤ)
        → is_above merges.new source n ≡ (is_above merges.old source n || list_any (merges_after source n)
        (flat_map claims_seen (filter (λ s. is_fresh (t s)) sights.now)))) }
{
    for place in 0..sights.len() {
        let sight = &sights[place];
        note_sight(alloc, merges, sight, standing_at(standings, place))?;
    }
    Ok(())
}

// Notes the merges of a store, where it is found just now.
fn note_sight(
    alloc: Global,
    merges: &mut BTreeMap<String, i64>,
    sight: &Sight,
    standing: Standing,
) -> Result<(), AllocError>
    ensures { IfOk result (λ _. (source : List ℕ) (n : ℤ) → is_above merges.new source n
        ≡ (is_above merges.old source n || (is_fresh standing && list_any (merges_after source n)
        (claims_seen sight.now)))) }
{
    if !is_fresh(standing) {
        return Ok(());
    }
    note_merges(alloc, merges, sight.claims.as_slice())
}

// The open splits of the stores that are found just now, by the merges noted.
fn open_splits(
    alloc: Global,
    merges: &BTreeMap<String, i64>,
    sights: &[Sight],
    standings: &[Standing],
) -> Result<Vec<OpenSplit>, OutOfMemory>
    ensures { IfOk result (λ opened. (t : Sight → Standing) → standings.now ≡ map t sights.now
        → opened.items ≡ splits_among (is_open_by merges.now) t sights.now) }
{
    let mut opened = Vec::new(alloc);
    for place in 0..sights.len() {
        let sight = &sights[place];
        push_fresh(&mut opened, merges, sight, standing_at(standings, place))?;
    }
    Ok(opened)
}

// Puts the open splits of a store behind the others, where it is found just now.
fn push_fresh(
    opened: &mut Vec<OpenSplit>,
    merges: &BTreeMap<String, i64>,
    sight: &Sight,
    standing: Standing,
) -> Result<(), OutOfMemory>
    ensures { IfOk result (λ _. opened.new.items ≡ opened.old.items
        ++ (if is_fresh standing then splits_in (is_open_by merges.now) sight.now else [])) }
{
    if !is_fresh(standing) {
        return Ok(());
    }
    push_open(opened, merges, sight)
}

// Puts the open splits of a store behind the others; none where it has no head.
fn push_open(
    opened: &mut Vec<OpenSplit>,
    merges: &BTreeMap<String, i64>,
    sight: &Sight,
) -> Result<(), OutOfMemory>
    ensures { IfOk result (λ _. opened.new.items ≡ opened.old.items ++ splits_in (is_open_by merges.now) sight.now) }
{
    match &sight.head {
        Some(head) => push_claims(opened, merges, head, sight.claims.as_slice()),
        None => Ok(()),
    }
}

// Puts the open ones of some claims behind the others, as splits.
fn push_claims(
    opened: &mut Vec<OpenSplit>,
    merges: &BTreeMap<String, i64>,
    head: &StoreHead,
    claims: &[StoreClaim],
) -> Result<(), OutOfMemory>
    ensures { IfOk result (λ _. opened.new.items ≡ opened.old.items
        ++ map (split_made head.now) (filter (is_open_by merges.now) (map claim_said claims.now))) }
{
    for claim in claims {
        push_claim(opened, merges, head, claim)?;
    }
    Ok(())
}

// Puts a claim behind the others, where it is an open split.
fn push_claim(
    opened: &mut Vec<OpenSplit>,
    merges: &BTreeMap<String, i64>,
    head: &StoreHead,
    claim: &StoreClaim,
) -> Result<(), OutOfMemory>
    ensures { IfOk result (λ _. opened.new.items ≡ opened.old.items
        ++ (if is_open_by merges.now (claim_said claim.now) then split_made head.now (claim_said claim.now)
        ∷ [] else [])) }
{
    if !is_open(merges, claim) {
        return Ok(());
    }
    let target = claim.target.try_clone()?;
    opened.push(OpenSplit {
        above: *head,
        target,
        seq: claim.seq,
    })?;
    Ok(())
}

// The keys of the loans that some splits made.
fn keys_of(alloc: Global, splits: &[OpenSplit]) -> Result<BTreeSet<LoanKey>, OutOfMemory>
    ensures { IfOk result (λ loans. (key : List ℕ) → contains (slice_cmp nat_cmp) loans key
        ≡ list_any (makes_key key) splits.now) }
{
    let mut loans = BTreeSet::new(alloc);
    for split in splits {
        note_key(&mut loans, split)?;
    }
    Ok(loans)
}

// Notes the key of the loan that a split made.
fn note_key(loans: &mut BTreeSet<LoanKey>, split: &OpenSplit) -> Result<(), OutOfMemory>
    ensures { IfOk result (λ _. (key : List ℕ) → contains (slice_cmp nat_cmp) loans.new key
        ≡ (contains (slice_cmp nat_cmp) loans.old key || makes_key key split.now)) }
{
    match LoanKey::of_split(split)? {
        Some(key) => note(loans, key),
        None => Ok(()),
    }
}

// Notes a key.
fn note(loans: &mut BTreeSet<LoanKey>, key: LoanKey) -> Result<(), OutOfMemory>
    ensures { IfOk result (λ _. (q : List ℕ) → contains (slice_cmp nat_cmp) loans.new q
        ≡ (contains (slice_cmp nat_cmp) loans.old q || bytes_eq key q)) }
{
    loans.insert(key)?;
    Ok(())
}

// Whether a store is one of these loans.
fn is_lent(alloc: Global, loans: &BTreeSet<LoanKey>, sight: &Sight) -> Result<bool, OutOfMemory>
    ensures { IfOk result (λ lent. lent ≡ is_lent_in loans.now sight.now) }
{
    match &sight.head {
        Some(head) => Ok(loans.contains(&LoanKey::of_head(alloc, head)?)),
        None => Ok(false),
    }
}

// How each store stands one round later, where these loans are open.
fn later_standings(
    alloc: Global,
    sights: &[Sight],
    standings: &[Standing],
    loans: &BTreeSet<LoanKey>,
) -> Result<Vec<Standing>, OutOfMemory>
    ensures { IfOk result (λ later. (t : Sight → Standing) → standings.now ≡ map t sights.now
        → later.items ≡ map (λ s. one_later (t s) (is_lent_in loans.now s)) sights.now) }
{
    let mut later = Vec::new(alloc);
    for place in 0..sights.len() {
        let sight = &sights[place];
        let lent = is_lent(alloc, loans, sight)?;
        later.push(one_later(standing_at(standings, place), lent))?;
    }
    Ok(later)
}

// How a store stands one round later.
fn one_later(standing: Standing, lent: bool) -> Standing
    ensures { result ≡ one_later standing lent }
{
    match standing {
        Standing::Stray => {
            if lent {
                Standing::Fresh
            } else {
                Standing::Stray
            }
        }
        Standing::Fresh | Standing::Settled => Standing::Settled,
    }
}
