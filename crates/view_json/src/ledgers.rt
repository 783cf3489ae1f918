//! The ledger as JSON.
ghost use Rattle.std.specs.Prelude.{◌≡◌, ◌++◌, ◌∷◌, [], IfOk, List, map, string_bytes};
ghost use Rattle.serde_json.specs.View.{view};
ghost use Rattle.serde_json.specs.Written.{compact_text};
ghost use Rattle.view_json.specs.Arrays.{Puts};
ghost use Rattle.view_json.specs.Ledgers.{excerpt_json, receipt_data};

use crate::arrays::{Lines, close_array, end_value, open_array, put_object};
use serde_json::{Value, json};
use sheet_types::receipt::Receipt;
use std::alloc::{AllocError, Global};
use view_text::ledgers::{Excerpt, asked_of};
use view_text::ways::first_word;

/// The JSON of a receipt, as the table has it.
fn receipt_value(alloc: Global, receipt: &Receipt) -> Result<Value, AllocError>
    ensures { IfOk result (λ value. view value ≡ receipt_data receipt.now) }
{
    let from = end_value(alloc, receipt.source)?;
    let to = end_value(alloc, receipt.target)?;
    let things = receipt.items.as_slice().len() as u64;
    let what = first_word(receipt.line.as_str());
    json!(in alloc; {
        "at": receipt.at.as_str(),
        "bytes": receipt.bytes,
        "from": &from,
        "receipt": receipt.seq,
        "things": things,
        "to": &to,
        "what": what
    })
}

/// Its text.
fn receipt_text(alloc: Global, receipt: &Receipt) -> Result<String, AllocError>
    ensures { IfOk result (λ text. string_bytes text ≡ compact_text (receipt_data receipt.now)) }
{
    let value = receipt_value(alloc, receipt)?;
    let text = value.to_string(alloc)?;
    Ok(text)
}

/// Puts the object of a receipt.
fn put_receipt(alloc: Global, lines: &mut Lines, receipt: &Receipt) -> Result<(), AllocError>
    ensures { IfOk result (λ _. Puts (receipt_data receipt.now ∷ []) lines.old lines.new) }
{
    let text = receipt_text(alloc, receipt)?;
    put_object(lines, text.as_str())?;
    Ok(())
}

/// Puts the objects of receipts.
fn put_receipts(alloc: Global, lines: &mut Lines, receipts: &[&Receipt]) -> Result<(), AllocError>
    ensures { IfOk result (λ _.
        Puts (map (λ r. receipt_data r.now) receipts.now) lines.old lines.new) }
{
    for receipt in receipts {
        put_receipt(alloc, lines, receipt)?;
    }
    Ok(())
}

/// An object for each receipt of a ledger that is asked for, in their order, as one array.
///
/// # Errors
///
/// Want of memory.
pub fn excerpt_json(
    alloc: Global,
    ledger: &[Receipt],
    excerpt: &Excerpt<'_>,
) -> Result<String, AllocError>
    ensures { IfOk result (λ text. string_bytes text ≡ excerpt_json ledger.now excerpt.now) }
{
    let asked = asked_of(alloc, ledger, excerpt)?;
    let mut lines = open_array(alloc)?;
    put_receipts(alloc, &mut lines, asked.as_slice())?;
    let text = close_array(lines)?;
    Ok(text)
}
