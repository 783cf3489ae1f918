//! Which loans are open by some receipts.
ghost use Rattle.std.specs.Prelude.{◌≡◌, ℕ, List, ◌&&◌, ◌||◌, not, bytes_eq, ◌++◌, ◌∷◌, []};
ghost use Rattle.std.specs.Prelude.{if◌then◌else◌, unwrap_or, false, nat_lt, IfOk};
ghost use Rattle.std.specs.List.{list_any};
ghost use Rattle.std.specs.Option.{option_map_or};
ghost use Rattle.std.specs.Ordering.{nat_cmp};
ghost use Rattle.std.specs.Cmp.Lexicographic.{slice_cmp};
ghost use Rattle.std.specs.BTreeMap.{get};
ghost use Rattle.sheet_ledger.specs.Lending.{is_open_by};
ghost use Rattle.sheet_types.specs.Custody.{is_add, is_split, is_merge, ends_at, after, is_open_among, open_loans};

use crate::entries::{LineEntry, read_line, verb_of};
use sheet_types::error::OutOfMemory;
use sheet_types::receipt::Receipt;
use std::alloc::{AllocError, Global};
use std::collections::BTreeMap;
use uuid::Uuid;

/// Whether the line of a receipt is that of an addition.
pub fn is_add(receipt: &Receipt) -> bool
    ensures { result ≡ is_add receipt.now }
{
    let line = receipt.line.as_str();
    match verb_of(line) {
        "add" => matches!(read_line(line), Some(LineEntry::Add { .. })),
        _ => false,
    }
}

/// Whether the line of a receipt is that of a split.
pub fn is_split(receipt: &Receipt) -> bool
    ensures { result ≡ is_split receipt.now }
{
    let line = receipt.line.as_str();
    match verb_of(line) {
        "split" => matches!(read_line(line), Some(LineEntry::Split { .. })),
        _ => false,
    }
}

/// Whether the line of a receipt is that of a merge.
pub fn is_merge(receipt: &Receipt) -> bool
    ensures { result ≡ is_merge receipt.now }
{
    let line = receipt.line.as_str();
    match verb_of(line) {
        "merge" => matches!(read_line(line), Some(LineEntry::Merge { .. })),
        _ => false,
    }
}

/// For each package that a merge among the receipts has as source the greatest number of one.
///
/// # Errors
///
/// Want of memory.
pub fn last_merges(alloc: Global, receipts: &[Receipt]) -> Result<BTreeMap<Uuid, u64>, AllocError>
    ensures { IfOk result (λ m. (p : List ℕ) (n : ℕ) → option_map_or (nat_lt n) (get (slice_cmp nat_cmp) m p)
        false ≡ list_any (λ r. is_merge r && ends_at r.source p) (after n receipts.now)) }
{
    let mut merges = BTreeMap::new(alloc);
    for receipt in receipts {
        note_receipt(&mut merges, receipt)?;
    }
    Ok(merges)
}

// Notes a receipt where it is a merge.
fn note_receipt(merges: &mut BTreeMap<Uuid, u64>, receipt: &Receipt) -> Result<(), AllocError>
    ensures { IfOk result (λ _. (p : List ℕ) (n : ℕ) → option_map_or (nat_lt n)
        (get (slice_cmp nat_cmp) merges.new p) false ≡ (option_map_or (nat_lt n)
        (get (slice_cmp nat_cmp) merges.old p) false || (is_merge receipt.now && ends_at receipt.now.source p &&
        nat_lt n receipt.now.seq))) }
{
    let Some(source) = receipt.source else {
        return Ok(());
    };
    if !is_merge(receipt) {
        return Ok(());
    }
    note_merge(merges, source, receipt.seq)?;
    Ok(())
}

// Notes a merge of this source and number.
fn note_merge(merges: &mut BTreeMap<Uuid, u64>, source: Uuid, seq: u64) -> Result<(), AllocError>
    ensures { IfOk result (λ _. (p : List ℕ) (n : ℕ) → option_map_or (nat_lt n)
        (get (slice_cmp nat_cmp) merges.new p) false ≡ (option_map_or (nat_lt n)
        (get (slice_cmp nat_cmp) merges.old p) false || (bytes_eq source p && nat_lt n seq))) }
{
    let last = merges.get(&source).copied().unwrap_or(0);
    merges.insert(source, last.max(seq))?;
    Ok(())
}

/// Whether the split of this target and number is open, by the last merges: no merge of a greater
/// number has the target as source.
pub fn is_open(merges: &BTreeMap<Uuid, u64>, target: Uuid, seq: u64) -> bool
    ensures { result ≡ not (option_map_or (nat_lt seq) (get (slice_cmp nat_cmp) merges.now target) false) }
{
    match merges.get(&target) {
        Some(last) => *last <= seq,
        None => true,
    }
}

/// The loans that are open by these receipts: the target and the number of each split among them
/// that has a target which no merge among them of a greater number has as source.
///
/// # Errors
///
/// Want of memory.
pub fn open_loans(alloc: Global, receipts: &[Receipt]) -> Result<Vec<(Uuid, u64)>, OutOfMemory>
    ensures { IfOk result (λ loans. loans.items ≡ open_loans receipts.now) }
{
    Ok(list_open(alloc, receipts)?)
}

fn list_open(alloc: Global, receipts: &[Receipt]) -> Result<Vec<(Uuid, u64)>, AllocError>
    ensures { IfOk result (λ loans. loans.items ≡ open_loans receipts.now) }
{
    let merges = last_merges(alloc, receipts)?;
    let mut loans = Vec::new(alloc);
    for receipt in receipts {
        push_open(&mut loans, &merges, receipt)?;
    }
    Ok(loans)
}

// Puts the target and the number of a receipt behind the others, where it is a split that is open by the last merges.
fn push_open(
    loans: &mut Vec<(Uuid, u64)>,
    merges: &BTreeMap<Uuid, u64>,
    receipt: &Receipt,
) -> Result<(), AllocError>
    ensures { IfOk result (λ _. loans.new.items ≡ loans.old.items
        ++ (if is_open_by merges.now receipt.now then (unwrap_or receipt.now.target [], receipt.now.seq)
        ∷ [] else [])) }
{
    let Some(target) = receipt.target else {
        return Ok(());
    };
    if !is_split(receipt) {
        return Ok(());
    }
    if !is_open(merges, target, receipt.seq) {
        return Ok(());
    }
    loans.push((target, receipt.seq))?;
    Ok(())
}
