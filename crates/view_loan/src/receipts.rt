//! The receipts that name a loan.
ghost use Rattle.std.specs.Prelude.{◌≡◌, ◌++◌, IfOk, flat_map, string_bytes};
ghost use Rattle.view_loan.specs.Receipts.{names_package, receipt_if, receipt_row, told_moved, told_what};

use crate::pieces::{put_keeper_or, put_told, put_told_pair};
use sheet_types::receipt::{Moved, Receipt};
use std::alloc::AllocError;
use uuid::Uuid;
use view_report::escaping::{put_escaped, put_moment};
use view_report::pieces::{put, put_count, put_short, put_sums};
use view_report::registers::{Register, command_of, ends_at};

/// Puts one thing that was moved.
fn put_moved(text: &mut String, register: &Register, moved: &Moved) -> Result<(), AllocError>
    ensures { IfOk result (λ _. string_bytes text.new ≡ string_bytes text.old ++ told_moved register.now moved.now) }
{
    match moved.other {
        Some(other) => put_told_pair(text, register, moved.base, other),
        None => put_told(text, register, moved.base),
    }
}

/// Puts what a receipt moved: the thing where it is one, else how much.
fn put_what(text: &mut String, register: &Register, receipt: &Receipt) -> Result<(), AllocError>
    ensures { IfOk result (λ _. string_bytes text.new ≡ string_bytes text.old
        ++ told_what register.now receipt.now receipt.now.items) }
{
    match receipt.items.as_slice() {
        [one] => put_moved(text, register, one),
        _ => put_sums(
            text,
            receipt.tiles,
            receipt.media,
            receipt.rows,
            receipt.links,
        ),
    }
}

/// Puts the row of a receipt.
fn put_row(text: &mut String, register: &Register, receipt: &Receipt) -> Result<(), AllocError>
    ensures { IfOk result (λ _. string_bytes text.new ≡ string_bytes text.old
        ++ receipt_row register.now receipt.now) }
{
    put(text, "<tr id=\"r")?;
    put_count(text, receipt.seq)?;
    put(text, "\"><th scope=\"row\" class=\"n\">")?;
    put_count(text, receipt.seq)?;
    put(text, "</th><td class=\"t\">")?;
    put_moment(text, receipt.at.as_str())?;
    put(text, "</td><td class=\"v\">")?;
    put_escaped(text, command_of(receipt))?;
    put(text, "</td><td class=\"w\">")?;
    put_what(text, register, receipt)?;
    put(text, "</td><td>")?;
    put_keeper_or(
        text,
        register,
        receipt.source,
        "<span class=\"q\">new</span>",
    )?;
    put(text, " &rarr; ")?;
    put_keeper_or(
        text,
        register,
        receipt.target,
        "<span class=\"q\">gone</span>",
    )?;
    put(text, "</td><td class=\"n\" data-l=\"bytes\">")?;
    put_count(text, receipt.bytes)?;
    put(text, "</td><td data-l=\"request\">")?;
    put_short(text, receipt.request)?;
    put(text, "</td></tr>\n")?;
    Ok(())
}

/// Whether a receipt names a package.
fn names_package(id: Uuid, receipt: &Receipt) -> bool
    ensures { result ≡ names_package id receipt.now }
{
    ends_at(receipt.source, id) || ends_at(receipt.target, id)
}

/// Puts the row of a receipt that names a loan.
fn put_row_if(
    text: &mut String,
    register: &Register,
    loan: Uuid,
    receipt: &Receipt,
) -> Result<(), AllocError>
    ensures { IfOk result (λ _. string_bytes text.new ≡ string_bytes text.old
        ++ receipt_if register.now loan receipt.now) }
{
    if names_package(loan, receipt) {
        put_row(text, register, receipt)
    } else {
        Ok(())
    }
}

/// Puts the rows of all receipts that name a loan.
pub(crate) fn put_rows(
    text: &mut String,
    register: &Register,
    loan: Uuid,
    receipts: &[Receipt],
) -> Result<(), AllocError>
    ensures { IfOk result (λ _. string_bytes text.new ≡ string_bytes text.old
        ++ flat_map (receipt_if register.now loan) receipts.now) }
{
    for receipt in receipts {
        put_row_if(text, register, loan, receipt)?;
    }
    Ok(())
}
