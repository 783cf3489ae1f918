//! The ledger: a row for each receipt that is shown, and the receipts as they are hashed.
ghost use Rattle.std.specs.Prelude.{◌≡◌, ◌++◌, IfOk, flat_map, string_bytes};
ghost use Rattle.view_report.specs.Ledgers.{moved_text, raw_if, raw_line, receipt_if, receipt_row, what_text};

use crate::escaping::{put_escaped, put_moment, put_raw};
use crate::holders::put_end;
use crate::holdings::put_pair;
use crate::pieces::{first_shown, put, put_count, put_receipt, put_short, put_sums, put_thing};
use crate::registers::{Register, command_of};
use desk_replies::bodies::receipt_body;
use sheet_types::error::OutOfMemory;
use sheet_types::receipt::{Moved, Receipt};
use std::alloc::{AllocError, Global};

/// Puts one thing that was moved.
fn put_moved(text: &mut String, register: &Register, moved: &Moved) -> Result<(), AllocError>
    ensures { IfOk result (λ _. string_bytes text.new ≡ string_bytes text.old ++ moved_text register.now moved.now) }
{
    match moved.other {
        Some(other) => put_pair(text, register, moved.base, other),
        None => put_thing(text, register, moved.base),
    }
}

/// Puts what a receipt moved: the thing where it is one, else how much.
fn put_what(text: &mut String, register: &Register, receipt: &Receipt) -> Result<(), AllocError>
    ensures { IfOk result (λ _. string_bytes text.new ≡ string_bytes text.old
        ++ what_text register.now receipt.now receipt.now.items) }
{
    match receipt.items.as_slice() {
        [one] => put_moved(text, register, one),
        _ => put_sums(
            text,
            receipt.tiles,
            receipt.media,
            receipt.rows,
            receipt.links,
        ),
    }
}

/// Puts the row of a receipt.
fn put_row(text: &mut String, register: &Register, receipt: &Receipt) -> Result<(), AllocError>
    ensures { IfOk result (λ _. string_bytes text.new ≡ string_bytes text.old
        ++ receipt_row register.now receipt.now) }
{
    put(text, "<tr id=\"r")?;
    put_count(text, receipt.seq)?;
    put(text, "\"><th scope=\"row\" class=\"n\">")?;
    put_receipt(text, register, receipt.seq)?;
    put(text, "</th><td class=\"t\">")?;
    put_moment(text, receipt.at.as_str())?;
    put(text, "</td><td class=\"v\">")?;
    put_escaped(text, command_of(receipt))?;
    put(text, "</td><td class=\"w\">")?;
    put_what(text, register, receipt)?;
    put(text, "</td><td>")?;
    put_end(
        text,
        register,
        receipt.source,
        "<span class=\"q\">new</span>",
    )?;
    put(text, " &rarr; ")?;
    put_end(
        text,
        register,
        receipt.target,
        "<span class=\"q\">gone</span>",
    )?;
    put(text, "</td><td class=\"n\" data-l=\"bytes\">")?;
    put_count(text, receipt.bytes)?;
    put(text, "</td><td data-l=\"request\">")?;
    put_short(text, receipt.request)?;
    put(text, "</td></tr>\n")?;
    Ok(())
}

/// Puts it, where the receipt is shown.
fn put_row_if(text: &mut String, register: &Register, receipt: &Receipt) -> Result<(), AllocError>
    ensures { IfOk result (λ _. string_bytes text.new ≡ string_bytes text.old
        ++ receipt_if register.now receipt.now) }
{
    if receipt.seq <= first_shown(register) {
        Ok(())
    } else {
        put_row(text, register, receipt)
    }
}

/// Puts the rows of the receipts that are shown.
pub(crate) fn put_rows(
    text: &mut String,
    register: &Register,
    receipts: &[Receipt],
) -> Result<(), AllocError>
    ensures { IfOk result (λ _. string_bytes text.new ≡ string_bytes text.old
        ++ flat_map (receipt_if register.now) receipts.now) }
{
    for receipt in receipts {
        put_row_if(text, register, receipt)?;
    }
    Ok(())
}

/// Puts a receipt as it is hashed.
fn put_raw_line(alloc: Global, text: &mut String, receipt: &Receipt) -> Result<(), OutOfMemory>
    ensures { IfOk result (λ _. string_bytes text.new ≡ string_bytes text.old ++ raw_line receipt.now) }
{
    let json = receipt_body(alloc, receipt)?;
    put_raw(text, json.as_str())?;
    put(text, "\n")?;
    Ok(())
}

/// Puts it, where the receipt is shown.
fn put_raw_if(
    alloc: Global,
    text: &mut String,
    register: &Register,
    receipt: &Receipt,
) -> Result<(), OutOfMemory>
    ensures { IfOk result (λ _. string_bytes text.new ≡ string_bytes text.old ++ raw_if register.now receipt.now) }
{
    if receipt.seq <= first_shown(register) {
        Ok(())
    } else {
        put_raw_line(alloc, text, receipt)
    }
}

/// Puts the receipts that are shown as they are hashed, a line each.
pub(crate) fn put_raws(
    alloc: Global,
    text: &mut String,
    register: &Register,
    receipts: &[Receipt],
) -> Result<(), OutOfMemory>
    ensures { IfOk result (λ _. string_bytes text.new ≡ string_bytes text.old
        ++ flat_map (raw_if register.now) receipts.now) }
{
    for receipt in receipts {
        put_raw_if(alloc, text, register, receipt)?;
    }
    Ok(())
}
