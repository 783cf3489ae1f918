//! Who holds what: a row for each live package, and one for each loan that came home.
ghost use Rattle.std.specs.Prelude.{◌≡◌, ◌++◌, IfOk, flat_map, string_bytes};
ghost use Rattle.std.specs.List.{list_any};
ghost use Rattle.view_report.specs.Holders.{cell_text, dated_text, end_text, full_name, home_if, home_of, home_row};
ghost use Rattle.view_report.specs.Holders.{is_merge, lent_text, package_row, sum_cells, when_text};

use crate::escaping::put_moment;
use crate::lists::Names;
use crate::pieces::{
    put, put_called, put_count, put_holder, put_receipt, put_short, put_sums, put_swatch, put_uuid,
};
use crate::registers::{Live, Register, command_of, receipt_found};
use sheet_types::receipt::{Receipt, Sums};
use std::alloc::AllocError;
use uuid::Uuid;

/// Puts what people call a package, and its UUID.
pub(crate) fn put_full_name(text: &mut String, names: &Names, id: Uuid) -> Result<(), AllocError>
    ensures { IfOk result (λ _. string_bytes text.new ≡ string_bytes text.old ++ full_name names.now id) }
{
    put_called(text, names, id)?;
    put_short(text, id)?;
    Ok(())
}

/// Puts a cell with a number, and the word of its column.
fn put_cell(text: &mut String, word: &str, number: u64) -> Result<(), AllocError>
    ensures { IfOk result (λ _. string_bytes text.new ≡ string_bytes text.old ++ cell_text word.now number) }
{
    put(text, "<td class=\"n\" data-l=\"")?;
    put(text, word)?;
    put(text, "\">")?;
    put_count(text, number)?;
    put(text, "</td>")?;
    Ok(())
}

/// Puts the cells of what is held.
pub(crate) fn put_sum_cells(text: &mut String, sums: Sums) -> Result<(), AllocError>
    ensures { IfOk result (λ _. string_bytes text.new ≡ string_bytes text.old ++ sum_cells sums) }
{
    put_cell(text, "sheets", sums.tiles)?;
    put_cell(text, "media", sums.media)?;
    put_cell(text, "marks", sums.rows)?;
    put_cell(text, "links", sums.links)?;
    put_cell(text, "bytes", sums.bytes)?;
    Ok(())
}

/// Puts the moment of a receipt and this number.
fn put_dated(
    text: &mut String,
    register: &Register,
    receipt: &Receipt,
    seq: u64,
) -> Result<(), AllocError>
    ensures { IfOk result (λ _. string_bytes text.new ≡ string_bytes text.old
        ++ dated_text register.now receipt.now seq) }
{
    put_moment(text, receipt.at.as_str())?;
    put(text, " &middot; ")?;
    put_receipt(text, register, seq)?;
    Ok(())
}

/// Puts the moment of a receipt and its number, where there is such a receipt.
///
/// # Errors
///
/// Want of memory.
pub fn put_when(text: &mut String, register: &Register, seq: u64) -> Result<(), AllocError>
    ensures { IfOk result (λ _. string_bytes text.new ≡ string_bytes text.old ++ when_text register.now seq) }
{
    match receipt_found(&register.receipts, seq) {
        Some(receipt) => put_dated(text, register, receipt, seq),
        None => put(text, "&ndash;"),
    }
}

/// Puts an end of a receipt, or a word where it has none.
pub(crate) fn put_end(
    text: &mut String,
    register: &Register,
    end: Option<Uuid>,
    none: &str,
) -> Result<(), AllocError>
    ensures { IfOk result (λ _. string_bytes text.new ≡ string_bytes text.old
        ++ end_text register.now end none.now) }
{
    match end {
        Some(id) => put_holder(text, register, id),
        None => put(text, none),
    }
}

/// Puts where a package came from, and when.
fn put_lent(text: &mut String, register: &Register, live: &Live) -> Result<(), AllocError>
    ensures { IfOk result (λ _. string_bytes text.new ≡ string_bytes text.old ++ lent_text register.now live.now) }
{
    put(text, "<td data-l=\"lent by\">")?;
    put_end(text, register, live.parent, "&ndash;")?;
    put(text, "</td><td class=\"t\" data-l=\"lent since\">")?;
    put_when(text, register, live.loan)?;
    put(text, "</td><td class=\"t\" data-l=\"last change\">")?;
    put_when(text, register, live.ticket)?;
    put(text, "</td></tr>\n")?;
    Ok(())
}

/// Puts the row of a live package.
fn put_package(text: &mut String, register: &Register, live: &Live) -> Result<(), AllocError>
    ensures { IfOk result (λ _. string_bytes text.new ≡ string_bytes text.old ++ package_row register.now live.now) }
{
    put(text, "<tr id=\"p-")?;
    put_uuid(text, live.uuid)?;
    put(text, "\"><th scope=\"row\">")?;
    put_swatch(text, live.number)?;
    put(text, "<a href=\"#d-")?;
    put_uuid(text, live.uuid)?;
    put(text, "\">")?;
    put_full_name(text, &register.names, live.uuid)?;
    put(text, "</a></th>")?;
    put_sum_cells(text, live.sums)?;
    put_lent(text, register, live)?;
    Ok(())
}

/// Puts the rows of live packages.
pub(crate) fn put_packages(
    text: &mut String,
    register: &Register,
    packages: &[Live],
) -> Result<(), AllocError>
    ensures { IfOk result (λ _. string_bytes text.new ≡ string_bytes text.old
        ++ flat_map (package_row register.now) packages.now) }
{
    for live in packages {
        put_package(text, register, live)?;
    }
    Ok(())
}

/// Whether a receipt is that of a merge.
fn is_merge(receipt: &Receipt) -> bool
    ensures { result ≡ is_merge receipt.now }
{
    command_of(receipt) == "merge"
}

/// Whether a loan came home by one of these receipts.
pub(crate) fn has_merges(receipts: &[Receipt]) -> bool
    ensures { result ≡ list_any is_merge receipts.now }
{
    receipts.iter().any(|receipt| is_merge(receipt))
}

/// Puts the row of a loan that came home by this receipt.
fn put_home(
    text: &mut String,
    register: &Register,
    receipt: &Receipt,
    child: Uuid,
) -> Result<(), AllocError>
    ensures { IfOk result (λ _. string_bytes text.new ≡ string_bytes text.old
        ++ home_row register.now receipt.now child) }
{
    put(text, "<tr id=\"p-")?;
    put_uuid(text, child)?;
    put(text, "\"><th scope=\"row\">")?;
    put_full_name(text, &register.names, child)?;
    put(text, "</th><td data-l=\"home to\">")?;
    put_end(text, register, receipt.target, "&ndash;")?;
    put(text, "</td><td class=\"t\" data-l=\"home\">")?;
    put_dated(text, register, receipt, receipt.seq)?;
    put(text, "</td><td data-l=\"with\">")?;
    put_sums(
        text,
        receipt.tiles,
        receipt.media,
        receipt.rows,
        receipt.links,
    )?;
    put(text, "</td></tr>\n")?;
    Ok(())
}

/// Puts it, where the receipt is that of a merge.
fn put_home_of(
    text: &mut String,
    register: &Register,
    receipt: &Receipt,
    child: Uuid,
) -> Result<(), AllocError>
    ensures { IfOk result (λ _. string_bytes text.new ≡ string_bytes text.old
        ++ home_of register.now receipt.now child) }
{
    if is_merge(receipt) {
        put_home(text, register, receipt, child)
    } else {
        Ok(())
    }
}

/// Puts it, where the receipt has a source.
fn put_home_if(text: &mut String, register: &Register, receipt: &Receipt) -> Result<(), AllocError>
    ensures { IfOk result (λ _. string_bytes text.new ≡ string_bytes text.old ++ home_if register.now receipt.now) }
{
    match receipt.source {
        Some(child) => put_home_of(text, register, receipt, child),
        None => Ok(()),
    }
}

/// Puts the rows of all loans that came home by these receipts.
pub(crate) fn put_homes(
    text: &mut String,
    register: &Register,
    receipts: &[Receipt],
) -> Result<(), AllocError>
    ensures { IfOk result (λ _. string_bytes text.new ≡ string_bytes text.old
        ++ flat_map (home_if register.now) receipts.now) }
{
    for receipt in receipts {
        put_home_if(text, register, receipt)?;
    }
    Ok(())
}
