//! The number of the last receipt that names a package.
ghost use Rattle.std.specs.Prelude.{◌≡◌, ℕ, List, IfOk, if◌then◌else◌, bytes_eq, max};
ghost use Rattle.sheet_types.specs.Custody.{ends_at, names_package};
ghost use Rattle.sheet_types.specs.declared.receipt.Receipt.{Receipt as ModelReceipt};
ghost use Rattle.opening_verdict.specs.Tickets.{last_in, last_naming, TellsLast};

use sheet_types::error::OutOfMemory;
use sheet_types::receipt::Receipt;
use std::alloc::{AllocError, Global};
use std::collections::BTreeMap;
use uuid::Uuid;

/// For each package that one of these receipts names the greatest number of one that does.
///
/// # Errors
///
/// Want of memory.
pub fn last_receipts(alloc: Global, ledger: &[Receipt]) -> Result<BTreeMap<Uuid, u64>, OutOfMemory>
    ensures { IfOk result (λ last. TellsLast last ledger.now) }
{
    Ok(note_all(alloc, ledger)?)
}

fn note_all(alloc: Global, ledger: &[Receipt]) -> Result<BTreeMap<Uuid, u64>, AllocError>
    ensures { IfOk result (λ last. TellsLast last ledger.now) }
{
    let mut last = BTreeMap::new(alloc);
    for receipt in ledger {
        note_receipt(&mut last, receipt)?;
    }
    Ok(last)
}

// Notes the number of a receipt under both its ends.
fn note_receipt(last: &mut BTreeMap<Uuid, u64>, receipt: &Receipt) -> Result<(), AllocError>
    ensures { IfOk result (λ _. (p : List ℕ) → last_in last.new p
        ≡ (if names_package p receipt.now then max (last_in last.old p) receipt.now.seq else last_in last.old p)) }
{
    note_end(last, &receipt.source, receipt.seq)?;
    note_end(last, &receipt.target, receipt.seq)
}

// Notes a number under an end, where there is one.
fn note_end(last: &mut BTreeMap<Uuid, u64>, end: &Option<Uuid>, seq: u64) -> Result<(), AllocError>
    ensures { IfOk result (λ _. (p : List ℕ) → last_in last.new p
        ≡ (if ends_at end.now p then max (last_in last.old p) seq else last_in last.old p)) }
{
    match end {
        Some(package) => note_package(last, *package, seq),
        None => Ok(()),
    }
}

// Notes a number under a package.
fn note_package(last: &mut BTreeMap<Uuid, u64>, package: Uuid, seq: u64) -> Result<(), AllocError>
    ensures { IfOk result (λ _. (p : List ℕ) → last_in last.new p
        ≡ (if bytes_eq «package» p then max (last_in last.old p) seq else last_in last.old p)) }
{
    let before = last.get(&package).copied().unwrap_or(0);
    last.insert(package, before.max(seq))?;
    Ok(())
}

/// The number that is noted under a package, 0 where there is none: that of the last receipt that names it.
pub fn ticket_of(last: &BTreeMap<Uuid, u64>, package: Uuid) -> u64
    ensures { (ledger : List ModelReceipt) → TellsLast last.now ledger → result ≡ last_naming «package» ledger }
{
    last.get(&package).copied().unwrap_or(0)
}
