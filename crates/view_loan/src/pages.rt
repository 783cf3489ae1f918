//! A whole custody page.
ghost use Rattle.std.specs.Prelude.{◌≡◌, ◌++◌, IfOk, IsTrue, length, option_map, string_bytes};
ghost use Rattle.sheet_types.specs.Matrix.{is_good_frame};
ghost use Rattle.view_loan.specs.Pages.{IsOwn, TellsLoan, account_section, end_text, head_text, lists_text, loan_of};
ghost use Rattle.view_loan.specs.Pages.{told_if, told_text};

use crate::lent::put_all_lent;
use crate::receipts::put_rows;
use crate::verdicts::put_verdict;
use crate::words::{
    ACCOUNT_HEAD, BODY, CHECK, DUE_HEAD, LEDGER_HEAD, LENT_HEAD, NAVIGATION, SIGNATURES,
};
use sheet_ledger::flows::{flow_of, flows};
use sheet_types::error::OutOfMemory;
use sheet_types::receipt::Receipt;
use std::alloc::{AllocError, Global};
use uuid::Uuid;
use view_report::accounts::put_account;
use view_report::digests::ledger_digest;
use view_report::drawing::put_map;
use view_report::holdings::{put_items, put_ties};
use view_report::lists::Things;
use view_report::patterns::put_patterns;
use view_report::pieces::{put, put_count, put_plain_name, put_uuid};
use view_report::registers::{Live, Register, is_same, live_of, receipt_found};
use view_report::style::STYLE;
use view_report::words::{HEAD, SHAPES};

/// The live package of this UUID and its lender, if it is a loan.
fn loan_of(register: &Register, loan: Uuid) -> Option<(Live, Uuid)>
    ensures { result ≡ loan_of register.now loan }
{
    let live = live_of(&register.packages, loan)?;
    let lender = live.parent?;
    Some((*live, lender))
}

/// How many receipts there are.
fn receipt_count(register: &Register) -> u64
    ensures { result ≡ length register.now.receipts.items }
{
    register.receipts.len() as u64
}

/// Puts the beginning of a page.
fn put_head(text: &mut String, register: &Register, live: &Live) -> Result<(), AllocError>
    ensures { IfOk result (λ _. string_bytes text.new ≡ string_bytes text.old ++ head_text register.now live.now) }
{
    put(text, HEAD)?;
    put(text, "Custody of ")?;
    put_plain_name(text, &register.names, live.uuid)?;
    put(text, STYLE)?;
    put(text, BODY)?;
    put_plain_name(text, &register.names, live.uuid)?;
    put(text, "</h1>\n<p class=\"lead\">Archive <code>")?;
    put_uuid(text, register.archive)?;
    put(text, "</code>, as of receipt ")?;
    put_count(text, receipt_count(register))?;
    put(text, ".</p>\n")?;
    put(text, NAVIGATION)?;
    put_patterns(text, &register.packages)?;
    put(text, SHAPES)?;
    Ok(())
}

/// Puts what went out by a receipt, the receipts that name the loan, and what it holds.
fn put_lists(
    text: &mut String,
    register: &Register,
    live: &Live,
    receipt: &Receipt,
) -> Result<(), AllocError>
    ensures { IfOk result (λ _. string_bytes text.new ≡ string_bytes text.old
        ++ lists_text register.now live.now receipt.now) }
{
    put(text, LENT_HEAD)?;
    put_all_lent(text, register, receipt.items.as_slice())?;
    put(text, LEDGER_HEAD)?;
    put_rows(text, register, live.uuid, &register.receipts)?;
    put(text, DUE_HEAD)?;
    put_items(text, register, live.uuid, register.things.as_slice())?;
    put_ties(text, register, live.uuid, &register.ties)?;
    Ok(())
}

/// Puts the account of a loan, and places for signatures.
fn put_own_account(
    alloc: Global,
    text: &mut String,
    register: &Register,
    live: &Live,
) -> Result<(), OutOfMemory>
    ensures { IfOk result (λ _. string_bytes text.new ≡ string_bytes text.old
        ++ account_section register.now live.now) }
{
    let flows = flows(alloc, &register.receipts)?;
    let flow = flow_of(&flows, live.uuid);
    put(text, ACCOUNT_HEAD)?;
    put_account(text, register, live, &flow)?;
    put(text, SIGNATURES)?;
    Ok(())
}

/// Puts all but the map, by the receipt that made the loan.
fn put_told(
    alloc: Global,
    text: &mut String,
    register: &Register,
    live: &Live,
    lender: Uuid,
    receipt: &Receipt,
) -> Result<(), OutOfMemory>
    ensures { IfOk result (λ _. string_bytes text.new ≡ string_bytes text.old
        ++ told_text register.now live.now lender receipt.now) }
{
    let digest = ledger_digest(alloc, &register.receipts)?;
    put_head(text, register, live)?;
    put_verdict(text, register, live, lender, receipt, &digest)?;
    put_lists(text, register, live, receipt)?;
    put_own_account(alloc, text, register, live)?;
    Ok(())
}

/// Puts it, where the register has that receipt.
fn put_told_if(
    alloc: Global,
    text: &mut String,
    register: &Register,
    live: &Live,
    lender: Uuid,
) -> Result<(), OutOfMemory>
    ensures { IfOk result (λ _. string_bytes text.new ≡ string_bytes text.old
        ++ told_if register.now live.now lender) }
{
    match receipt_found(&register.receipts, live.loan) {
        Some(receipt) => put_told(alloc, text, register, live, lender, receipt),
        None => Ok(()),
    }
}

/// The register with the things of one package alone.
fn only(register: Register, holder: Uuid) -> Result<Register, AllocError>
    ensures { IfOk result (λ own. IsOwn register holder own) }
{
    let Register {
        archive,
        frame,
        packages,
        things,
        ties,
        receipts,
        names,
    } = register;
    let mut held = things.into_vec();
    held.retain(|thing| is_same(thing.holder, holder));
    let kept = Things::new(held)?;
    Ok(Register {
        archive,
        frame,
        packages,
        things: kept,
        ties,
        receipts,
        names,
    })
}

/// Puts the map of what a register has, with this loan for its legend, and the end of the page.
fn put_end(text: &mut String, own: &Register, live: Live) -> Result<(), AllocError>
    requires { IsTrue (is_good_frame own.now.frame) }
    ensures { IfOk result (λ _. string_bytes text.new ≡ string_bytes text.old ++ end_text own.now live) }
{
    put_map(text, own, &[live])?;
    put(text, CHECK)?;
    Ok(())
}

/// The custody page of a loan: one file of HTML 5 that needs nothing else. There is none of what is
/// no loan, or does not live.
///
/// # Errors
///
/// Want of memory.
pub fn loan_page(
    alloc: Global,
    register: Register,
    loan: Uuid,
) -> Result<Option<String>, OutOfMemory>
    requires { IsTrue (is_good_frame register.frame) }
    ensures { IfOk result (λ found. TellsLoan register loan (option_map string_bytes found)) }
{
    let Some((live, lender)) = loan_of(&register, loan) else {
        return Ok(None);
    };
    let mut text = String::new(alloc);
    put_told_if(alloc, &mut text, &register, &live, lender)?;
    let own = only(register, live.uuid)?;
    put_end(&mut text, &own, live)?;
    Ok(Some(text))
}
