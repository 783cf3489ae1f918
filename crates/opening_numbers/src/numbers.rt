//! The greatest number of a receipt that names what a fault is of.
ghost use Rattle.std.specs.Prelude.{◌≡◌, bytes_eq, false, map, pos, slice_get, unwrap_or, IfOk};
ghost use Rattle.opening_faults.specs.Copies.{copies_of};
ghost use Rattle.opening_faults.specs.Sights.{claim_said, is_live_store};
ghost use Rattle.opening_faults.specs.Splits.{AreOpenSplits};
ghost use Rattle.sheet_ledger.specs.Entries.{entry_said};
ghost use Rattle.opening_numbers.specs.Numbers.{adds_item, adds_this, are_so_many, is_count, may_be_named, Among};
ghost use Rattle.opening_numbers.specs.Numbers.{IsAdditionOf, IsGreatest, IsLast, IsOfAddition, IsOfSplit, IsOfStore};
ghost use Rattle.opening_numbers.specs.Numbers.{IsSplitOf, Names};

use opening_faults::claiming::is_text_of;
use opening_faults::copies::{Copies, copies_of, count_heads};
use opening_faults::faults::RecoverFault;
use opening_faults::keys::LoanKey;
use opening_faults::reaching::reach;
use opening_faults::sights::{Sight, StoreClaim};
use opening_faults::splits::OpenSplit;
use sheet_ledger::entries::{LineEntry, read_line};
use sheet_types::error::OutOfMemory;
use std::alloc::Global;
use std::collections::BTreeMap;
use uuid::Uuid;

/// How many stores are the loan of the open splits that are looked for.
#[derive(Clone, Copy)]
enum Loans {
    /// None.
    Missing,
    /// One or more.
    Present,
    /// Two or more.
    Doubled,
}

// Whether so many stores are told.
fn are_so_many(loans: Loans, copies: Option<Copies>) -> bool
    ensures { result ≡ are_so_many loans copies }
{
    match (loans, copies) {
        (Loans::Missing, None) => true,
        (Loans::Present, Some(_)) => true,
        (Loans::Doubled, Some(Copies::More)) => true,
        _ => false,
    }
}

// The number of a claim; 0 where it is negative.
fn number_of(seq: i64) -> u64
    ensures { IsLast (λ n. seq ≡ pos n) result }
{
    match u64::try_from(seq) {
        Ok(number) => number,
        Err(_) => 0,
    }
}

// The number of a split, where it is of this package and has so many loans; else 0.
fn split_number(split: &OpenSplit, copies: Option<Copies>, id: Uuid, loans: Loans) -> u64
    ensures { IsLast (IsOfSplit id loans copies split.now) result }
{
    if !is_text_of(id, split.target.as_str()) {
        return 0;
    }
    if !are_so_many(loans, copies) {
        return 0;
    }
    number_of(split.seq)
}

// The greatest of the numbers of such splits.
fn last_split(
    counts: &BTreeMap<LoanKey, Copies>,
    splits: &[OpenSplit],
    id: Uuid,
    loans: Loans,
) -> Result<u64, OutOfMemory>
    ensures { IfOk result (IsLast (Among (λ split. IsOfSplit id loans (copies_of counts.now split) split)
        splits.now)) }
{
    let mut last: u64 = 0;
    for split in splits {
        let copies = copies_of(counts, split)?;
        last = last.max(split_number(split, copies, id, loans));
    }
    Ok(last)
}

// The greatest number of an open split of this package that has so many loans; 0 where there is none.
fn number_of_split(
    alloc: Global,
    sights: &[Sight],
    splits: &[OpenSplit],
    id: Uuid,
    loans: Loans,
) -> Result<u64, OutOfMemory>
    requires { AreOpenSplits sights.now splits.now }
    ensures { IfOk result (IsLast (IsSplitOf (is_count loans) sights.now id)) }
{
    let counts = count_heads(alloc, sights)?;
    last_split(&counts, splits, id, loans)
}

// Whether an item has this identity.
fn is_same(identity: Uuid, id: Uuid) -> bool
    ensures { result ≡ bytes_eq identity id }
{
    identity == id
}

// Whether an entry is the addition of this item.
fn adds_this(entry: LineEntry, id: Uuid) -> bool
    ensures { result ≡ adds_this id (entry_said entry) }
{
    match entry {
        LineEntry::Add { identity, .. } => is_same(identity, id),
        _ => false,
    }
}

// Whether the line of a claim is that of the addition of this item.
fn adds_item(claim: &StoreClaim, id: Uuid) -> bool
    ensures { result ≡ adds_item id (claim_said claim.now) }
{
    match read_line(claim.line.as_str()) {
        Some(entry) => adds_this(entry, id),
        None => false,
    }
}

// The number of a claim, where it is an addition of this item; else 0.
fn addition_number(claim: &StoreClaim, id: Uuid) -> u64
    ensures { IsLast (IsOfAddition id claim.now) result }
{
    if !adds_item(claim, id) {
        return 0;
    }
    number_of(claim.seq)
}

// The greatest number of an addition of this item among claims; 0 where there is none.
fn last_addition_in(claims: &[StoreClaim], id: Uuid) -> u64
    ensures { IsLast (Among (IsOfAddition id) claims.now) result }
{
    let mut last: u64 = 0;
    for claim in claims {
        last = last.max(addition_number(claim, id));
    }
    last
}

// The same of a store, where it lives.
fn store_number(sight: &Sight, is_live: bool, id: Uuid) -> u64
    ensures { IsLast (IsOfStore id is_live sight.now) result }
{
    if !is_live {
        return 0;
    }
    last_addition_in(sight.claims.as_slice(), id)
}

// Whether the store at a place lives.
fn is_live_at(live: &[bool], place: usize) -> bool
    ensures { result ≡ unwrap_or (slice_get live.now place) false }
{
    live.get(place).copied().unwrap_or(false)
}

// The same of all stores.
fn number_of_addition(sights: &[Sight], live: &[bool], id: Uuid) -> u64
    requires { live.now ≡ map (is_live_store sights.now) sights.now }
    ensures { IsLast (IsAdditionOf sights.now id) result }
{
    let mut last: u64 = 0;
    for place in 0..sights.len() {
        last = last.max(store_number(&sights[place], is_live_at(live, place), id));
    }
    last
}

// The greatest number of a receipt that names what a fault is of; 0 where there is none.
fn last_number(alloc: Global, sights: &[Sight], fault: RecoverFault) -> Result<u64, OutOfMemory>
    ensures { IfOk result (IsLast (Names sights.now fault)) }
{
    let reached = reach(alloc, sights)?;
    let (splits, live) = (reached.splits.as_slice(), reached.live.as_slice());
    match fault {
        RecoverFault::TwoCopies(id) => {
            number_of_split(alloc, sights, splits, id, Loans::Doubled)
        }
        RecoverFault::MissingPackage(id) => {
            number_of_split(alloc, sights, splits, id, Loans::Missing)
        }
        RecoverFault::ForeignFrame(id) => {
            number_of_split(alloc, sights, splits, id, Loans::Present)
        }
        RecoverFault::Altered(id) => Ok(number_of_addition(sights, live, id)),
        _ => Ok(0),
    }
}

/// Whether a receipt may name what a fault is of: a package that an open split lent, or an item.
pub fn may_be_named(fault: RecoverFault) -> bool
    ensures { result ≡ may_be_named fault }
{
    matches!(
        fault,
        RecoverFault::TwoCopies(_)
            | RecoverFault::MissingPackage(_)
            | RecoverFault::ForeignFrame(_)
            | RecoverFault::Altered(_)
    )
}

/// The number of the receipt that names what a fault is of, by what the stores say of themselves:
/// of the open split whose loan is missing, doubled or not at home, or of the addition of the item
/// in a store that lives. Of several it is the greatest; `None` where there is none.
///
/// # Errors
///
/// Want of memory.
pub fn receipt_number(
    alloc: Global,
    sights: &[Sight],
    fault: RecoverFault,
) -> Result<Option<u64>, OutOfMemory>
    ensures { IfOk result (IsGreatest (Names sights.now fault)) }
{
    match last_number(alloc, sights, fault)? {
        0 => Ok(None),
        number => Ok(Some(number)),
    }
}
