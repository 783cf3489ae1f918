//! The ledger as a table: a line for each receipt that is asked for.
ghost use Rattle.std.specs.Prelude.{◌≡◌, ◌≤◌, ◌++◌, IfOk, drop, filter, flat_map, length, map};
ghost use Rattle.std.specs.Prelude.{string_bytes};
ghost use Rattle.sheet_types.specs.Texts.{uuid_text};
ghost use Rattle.command_verbs.specs.Verbs.{text_of};
ghost use Rattle.sheet_types.specs.declared.receipt.Receipt.{Receipt};
ghost use Rattle.view_text.specs.Ledgers.{asked_of, begins_end, counts_columns, excerpt_of, headings, is_asked};
ghost use Rattle.view_text.specs.Ledgers.{ledger_line, passed, touches};
ghost use Rattle.view_text.specs.Ways.{first_word};

use crate::columns::{put, put_end, put_left, put_number};
use crate::ways::first_word;
use command_verbs::names::has_beginning;
use itoa::Buffer;
use sheet_types::receipt::Receipt;
use std::alloc::{AllocError, Global};
use uuid::Uuid;

/// Which receipts of a ledger are asked for: those that name a package, from a number on, and the last so many of them.
#[derive(Clone, Copy)]
pub struct Excerpt<'t> {
    /// A word for the package; all packages where there is none.
    pub package: Option<&'t str>,
    /// The least number of a receipt.
    pub from: u64,
    /// At most how many; all where it is not said.
    pub last: Option<usize>,
}

/// The names of the columns, in their widths.
fn headings() -> &'static str
    ensures { result.now ≡ headings }
{
    "   receipt  at                        what    from                                  to                                     things  bytes\n"
}

/// Whether a word may name the package at an end of a receipt.
fn begins_end(word: &str, end: Option<Uuid>) -> bool
    ensures { result ≡ begins_end word.now end }
{
    match end {
        Some(id) => has_beginning(word, id),
        None => false,
    }
}

/// Whether a word may name the package that a receipt moved things from or to.
fn touches(word: Option<&str>, receipt: &Receipt) -> bool
    ensures { result ≡ touches (text_of word.entry) receipt.now }
{
    match word {
        Some(word) => begins_end(word, receipt.source) || begins_end(word, receipt.target),
        None => true,
    }
}

/// Whether a receipt is asked for, but for how many are.
fn is_asked(excerpt: &Excerpt<'_>, receipt: &Receipt) -> bool
    ensures { result ≡ is_asked (text_of excerpt.now.«package») excerpt.now.from receipt.now }
{
    excerpt.from <= receipt.seq && touches(excerpt.package, receipt)
}

/// The receipts that are asked for, but for how many are.
fn asked_among<'r>(
    alloc: Global,
    receipts: &'r [Receipt],
    excerpt: &Excerpt<'_>,
) -> Result<Vec<&'r Receipt>, AllocError>
    ensures { IfOk result (λ found. map (λ r. r.now) found.items
        ≡ filter (is_asked (text_of excerpt.now.«package») excerpt.now.from) receipts.now) }
{
    let mut found = Vec::new(alloc);
    for receipt in receipts {
        if is_asked(excerpt, receipt) {
            found.push(receipt)?;
        }
    }
    Ok(found)
}

/// How many of so many are passed over, so that the last ones are left.
fn count_passed(last: Option<usize>, count: usize) -> usize
    ensures value { result ≡ passed last count }
    ensures bound { result ≤ count }
{
    match last {
        Some(last) => count.saturating_sub(last),
        None => 0,
    }
}

/// The last so many of some receipts.
fn last_among<'r>(
    alloc: Global,
    found: &[&'r Receipt],
    last: Option<usize>,
) -> Result<Vec<&'r Receipt>, AllocError>
    ensures { IfOk result (λ asked. asked.items ≡ drop (passed last (length found.now)) found.now) }
{
    let start = count_passed(last, found.len());
    let mut asked = Vec::new(alloc);
    asked.extend_from_slice(&found[start..])?;
    Ok(asked)
}

/// The receipts of a ledger that are asked for, in their order.
///
/// # Errors
///
/// Want of memory.
pub fn asked_of<'r>(
    alloc: Global,
    receipts: &'r [Receipt],
    excerpt: &Excerpt<'_>,
) -> Result<Vec<&'r Receipt>, AllocError>
    ensures { IfOk result (λ asked. map (λ r. r.now) asked.items ≡ asked_of receipts.now excerpt.now) }
{
    let found = asked_among(alloc, receipts, excerpt)?;
    let asked = last_among(alloc, found.as_slice(), excerpt.last)?;
    Ok(asked)
}

/// Puts how many things moved by a receipt, and their bytes, as the end of its line.
fn put_counts(text: &mut String, receipt: &Receipt) -> Result<(), AllocError>
    ensures { IfOk result (λ _. string_bytes text.new ≡ string_bytes text.old ++ counts_columns receipt.now) }
{
    let mut digits = Buffer::new();
    put_number(text, 7, receipt.items.as_slice().len() as u64)?;
    put(text, digits.format(receipt.bytes))?;
    put(text, "\n")?;
    Ok(())
}

/// Puts the line of a receipt: its number, moment and command, its two ends, how many things moved, and their bytes.
fn put_receipt(text: &mut String, receipt: &Receipt) -> Result<(), AllocError>
    ensures { IfOk result (λ _. string_bytes text.new ≡ string_bytes text.old ++ ledger_line receipt.now) }
{
    put_number(text, 10, receipt.seq)?;
    put_left(text, 24, receipt.at.as_str())?;
    put_left(text, 6, first_word(receipt.line.as_str()))?;
    put_end(text, receipt.source)?;
    put_end(text, receipt.target)?;
    put_counts(text, receipt)?;
    Ok(())
}

/// Puts the lines of receipts.
fn put_receipts(text: &mut String, receipts: &[&Receipt]) -> Result<(), AllocError>
    ensures { IfOk result (λ _. string_bytes text.new ≡ string_bytes text.old
        ++ flat_map (λ r. ledger_line r.now) receipts.now) }
{
    for receipt in receipts {
        put_receipt(text, receipt)?;
    }
    Ok(())
}

/// A line of headings, and a line for each receipt of a ledger that is asked for, in their order.
///
/// # Errors
///
/// Want of memory.
pub fn excerpt_text(
    alloc: Global,
    ledger: &[Receipt],
    excerpt: &Excerpt<'_>,
) -> Result<String, AllocError>
    ensures { IfOk result (λ text. string_bytes text ≡ excerpt_of ledger.now excerpt.now) }
{
    let asked = asked_of(alloc, ledger, excerpt)?;
    let mut text = String::new(alloc);
    put(&mut text, headings())?;
    put_receipts(&mut text, asked.as_slice())?;
    Ok(text)
}
