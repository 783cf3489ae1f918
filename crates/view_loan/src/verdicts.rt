//! What a loan is: who lent it, when, by which request, and what it waits for.
ghost use Rattle.std.specs.Prelude.{◌≡◌, ◌++◌, IfOk, flat_map, string_bytes};
ghost use Rattle.std.specs.List.{list_any};
ghost use Rattle.view_loan.specs.Verdicts.{amounts_text, is_below, lending_text, own_loan, own_loan_if, own_loans};
ghost use Rattle.view_loan.specs.Verdicts.{own_rows, request_text, verdict_text};

use crate::pieces::{put_keeper, put_whole_name};
use crate::words::VERDICT;
use sheet_types::fingerprints::spell;
use sheet_types::receipt::Receipt;
use std::alloc::AllocError;
use uuid::Uuid;
use view_report::escaping::put_escaped;
use view_report::holders::put_when;
use view_report::pieces::{put, put_sums};
use view_report::registers::{Live, Register, ends_at};

/// Whether a package is a loan of this one.
fn is_below(loan: Uuid, live: &Live) -> bool
    ensures { result ≡ is_below loan live.now }
{
    ends_at(live.parent, loan)
}

/// Whether a loan has lent on.
fn has_loans(packages: &[Live], loan: Uuid) -> bool
    ensures { result ≡ list_any (is_below loan) packages.now }
{
    packages.iter().any(|live| is_below(loan, live))
}

/// Puts one loan of a loan.
fn put_own_loan(text: &mut String, register: &Register, live: &Live) -> Result<(), AllocError>
    ensures { IfOk result (λ _. string_bytes text.new ≡ string_bytes text.old ++ own_loan register.now live.now) }
{
    put(text, "<span class=\"a\">")?;
    put_keeper(text, register, live.uuid)?;
    put(text, "</span>")?;
    Ok(())
}

/// Puts a package, if it is a loan of this one.
fn put_own_loan_if(
    text: &mut String,
    register: &Register,
    loan: Uuid,
    live: &Live,
) -> Result<(), AllocError>
    ensures { IfOk result (λ _. string_bytes text.new ≡ string_bytes text.old
        ++ own_loan_if register.now loan live.now) }
{
    if is_below(loan, live) {
        put_own_loan(text, register, live)
    } else {
        Ok(())
    }
}

/// Puts the loans of a loan among these packages.
fn put_own_among(
    text: &mut String,
    register: &Register,
    loan: Uuid,
    packages: &[Live],
) -> Result<(), AllocError>
    ensures { IfOk result (λ _. string_bytes text.new ≡ string_bytes text.old
        ++ flat_map (own_loan_if register.now loan) packages.now) }
{
    for live in packages {
        put_own_loan_if(text, register, loan, live)?;
    }
    Ok(())
}

/// Puts the loans of a loan.
fn put_own_rows(text: &mut String, register: &Register, loan: Uuid) -> Result<(), AllocError>
    ensures { IfOk result (λ _. string_bytes text.new ≡ string_bytes text.old ++ own_rows register.now loan) }
{
    put(text, "<li><b>Comes home after its own loans</b> ")?;
    put_own_among(text, register, loan, &register.packages)?;
    put(text, "</li>\n")?;
    Ok(())
}

/// Puts them, where there are any.
fn put_own_loans(text: &mut String, register: &Register, loan: Uuid) -> Result<(), AllocError>
    ensures { IfOk result (λ _. string_bytes text.new ≡ string_bytes text.old ++ own_loans register.now loan) }
{
    if has_loans(&register.packages, loan) {
        put_own_rows(text, register, loan)
    } else {
        Ok(())
    }
}

/// Puts who lent a loan, and when.
fn put_lending(
    text: &mut String,
    register: &Register,
    live: &Live,
    lender: Uuid,
) -> Result<(), AllocError>
    ensures { IfOk result (λ _. string_bytes text.new ≡ string_bytes text.old
        ++ lending_text register.now live.now lender) }
{
    put_whole_name(text, &register.names, live.uuid)?;
    put(text, "</li>\n<li class=\"big\"><b>Lender</b> ")?;
    put_whole_name(text, &register.names, lender)?;
    put(text, "</li>\n<li><b>Lent</b> ")?;
    put_when(text, register, live.loan)?;
    put(text, "</li>\n<li><b>Last change</b> ")?;
    put_when(text, register, live.ticket)?;
    put(text, "</li>\n")?;
    Ok(())
}

/// Puts how much went out, and how much comes home.
fn put_amounts(text: &mut String, live: &Live, receipt: &Receipt) -> Result<(), AllocError>
    ensures { IfOk result (λ _. string_bytes text.new ≡ string_bytes text.old ++ amounts_text live.now receipt.now) }
{
    put(text, "<li><b>Went out</b> ")?;
    put_sums(
        text,
        receipt.tiles,
        receipt.media,
        receipt.rows,
        receipt.links,
    )?;
    put(text, "</li>\n<li><b>Due home</b> ")?;
    put_sums(
        text,
        live.sums.tiles,
        live.sums.media,
        live.sums.rows,
        live.sums.links,
    )?;
    put(text, "</li>\n")?;
    Ok(())
}

/// Puts by which request it was made, and the digest of the ledger.
fn put_request(text: &mut String, receipt: &Receipt, digest: &[u8; 32]) -> Result<(), AllocError>
    ensures { IfOk result (λ _. string_bytes text.new ≡ string_bytes text.old
        ++ request_text receipt.now digest.now) }
{
    let mut letters = [0; 64];
    put(
        text,
        "<li class=\"big\"><b>Request</b> <code class=\"line\">",
    )?;
    put_escaped(text, receipt.line.as_str())?;
    put(
        text,
        "</code></li>\n<li class=\"big\"><b>SHA-256 of the ledger</b> <code class=\"sha\">",
    )?;
    put(text, spell(digest, &mut letters))?;
    put(text, "</code></li>\n</ul>\n</section>\n")?;
    Ok(())
}

/// Puts what a loan is.
pub(crate) fn put_verdict(
    text: &mut String,
    register: &Register,
    live: &Live,
    lender: Uuid,
    receipt: &Receipt,
    digest: &[u8; 32],
) -> Result<(), AllocError>
    ensures { IfOk result (λ _. string_bytes text.new ≡ string_bytes text.old
        ++ verdict_text register.now live.now lender receipt.now digest.now) }
{
    put(text, VERDICT)?;
    put_lending(text, register, live, lender)?;
    put_amounts(text, live, receipt)?;
    put_own_loans(text, register, live.uuid)?;
    put_request(text, receipt, digest)?;
    Ok(())
}
