//! A whole page.
ghost use Rattle.std.specs.Prelude.{◌≡◌, ◌++◌, IfOk, IsTrue, length, string_bytes};
ghost use Rattle.sheet_types.specs.Matrix.{is_good_frame};
ghost use Rattle.view_report.specs.Pages.{account_section, head_text, home_rows, home_table, holders_section};
ghost use Rattle.view_report.specs.Pages.{holdings_section, ledger_section, page_text, verdict_section};

use crate::accounts::put_accounts;
use crate::digests::ledger_digest;
use crate::drawing::put_map;
use crate::holders::{has_merges, put_homes, put_packages};
use crate::holdings::put_holdings;
use crate::ledgers::{put_raws, put_rows};
use crate::patterns::put_patterns;
use crate::pieces::{put, put_count, put_plain_name, put_uuid};
use crate::registers::Register;
use crate::style::STYLE;
use crate::words::{
    ACCOUNT_HEAD, BODY, CHECK, HEAD, HOLDERS_HEAD, HOLDINGS_HEAD, HOMES_HEAD, LEDGER_HEAD,
    NAVIGATION, RAW_HEAD, SHAPES, TABLE_END, VERDICT,
};
use sheet_ledger::flows::flows;
use sheet_types::error::OutOfMemory;
use sheet_types::fingerprints::spell;
use std::alloc::{AllocError, Global};

/// How many receipts there are.
fn receipt_count(register: &Register) -> u64
    ensures { result ≡ length register.now.receipts.items }
{
    register.receipts.len() as u64
}

/// How many packages live.
fn package_count(register: &Register) -> u64
    ensures { result ≡ length register.now.packages.items }
{
    register.packages.len() as u64
}

/// Puts the beginning of a page.
fn put_head(text: &mut String, register: &Register) -> Result<(), AllocError>
    ensures { IfOk result (λ _. string_bytes text.new ≡ string_bytes text.old ++ head_text register.now) }
{
    put(text, HEAD)?;
    put_plain_name(text, &register.names, register.archive)?;
    put(text, STYLE)?;
    put(text, BODY)?;
    put_plain_name(text, &register.names, register.archive)?;
    put(text, "</h1>\n<p class=\"lead\">Archive <code>")?;
    put_uuid(text, register.archive)?;
    put(text, "</code>, as of receipt ")?;
    put_count(text, receipt_count(register))?;
    put(text, ".</p>\n")?;
    put(text, NAVIGATION)?;
    put_patterns(text, &register.packages)?;
    put(text, SHAPES)?;
    Ok(())
}

/// Puts that all is in order, with the digest of the ledger.
fn put_verdict(text: &mut String, register: &Register, digest: &[u8; 32]) -> Result<(), AllocError>
    ensures { IfOk result (λ _. string_bytes text.new ≡ string_bytes text.old
        ++ verdict_section register.now digest.now) }
{
    let mut letters = [0; 64];
    put(text, VERDICT)?;
    put_count(text, receipt_count(register))?;
    put(text, "</li>\n<li><b>Live packages</b> ")?;
    put_count(text, package_count(register))?;
    put(
        text,
        "</li>\n<li class=\"big\"><b>SHA-256 of the ledger</b> <code class=\"sha\">",
    )?;
    put(text, spell(digest, &mut letters))?;
    put(text, "</code></li>\n</ul>\n</section>\n")?;
    Ok(())
}

/// Puts the loans that came home.
fn put_home_rows(text: &mut String, register: &Register) -> Result<(), AllocError>
    ensures { IfOk result (λ _. string_bytes text.new ≡ string_bytes text.old ++ home_rows register.now) }
{
    put(text, HOMES_HEAD)?;
    put_homes(text, register, &register.receipts)?;
    put(text, TABLE_END)?;
    Ok(())
}

/// Puts them, where there are any.
fn put_home_table(text: &mut String, register: &Register) -> Result<(), AllocError>
    ensures { IfOk result (λ _. string_bytes text.new ≡ string_bytes text.old ++ home_table register.now) }
{
    if has_merges(&register.receipts) {
        put_home_rows(text, register)
    } else {
        Ok(())
    }
}

/// Puts who holds what.
fn put_holders(text: &mut String, register: &Register) -> Result<(), AllocError>
    ensures { IfOk result (λ _. string_bytes text.new ≡ string_bytes text.old ++ holders_section register.now) }
{
    put(text, HOLDERS_HEAD)?;
    put_packages(text, register, &register.packages)?;
    put(text, TABLE_END)?;
    put_home_table(text, register)?;
    Ok(())
}

/// Puts what each package holds.
fn put_all_holdings(text: &mut String, register: &Register) -> Result<(), AllocError>
    ensures { IfOk result (λ _. string_bytes text.new ≡ string_bytes text.old ++ holdings_section register.now) }
{
    put(text, HOLDINGS_HEAD)?;
    put_holdings(text, register, &register.packages)?;
    Ok(())
}

/// Puts the ledger.
fn put_ledger(alloc: Global, text: &mut String, register: &Register) -> Result<(), OutOfMemory>
    ensures { IfOk result (λ _. string_bytes text.new ≡ string_bytes text.old ++ ledger_section register.now) }
{
    put(text, LEDGER_HEAD)?;
    put_rows(text, register, &register.receipts)?;
    put(text, RAW_HEAD)?;
    put_raws(alloc, text, register, &register.receipts)?;
    Ok(())
}

/// Puts the account of each package.
fn put_account(alloc: Global, text: &mut String, register: &Register) -> Result<(), OutOfMemory>
    ensures { IfOk result (λ _. string_bytes text.new ≡ string_bytes text.old ++ account_section register.now) }
{
    let flows = flows(alloc, &register.receipts)?;
    put(text, ACCOUNT_HEAD)?;
    put_accounts(text, register, &flows, &register.packages)?;
    put(text, CHECK)?;
    Ok(())
}

/// Puts a whole page.
fn put_page(alloc: Global, text: &mut String, register: &Register) -> Result<(), OutOfMemory>
    requires { IsTrue (is_good_frame register.now.frame) }
    ensures { IfOk result (λ _. string_bytes text.new ≡ string_bytes text.old ++ page_text register.now) }
{
    let digest = ledger_digest(alloc, &register.receipts)?;
    put_head(text, register)?;
    put_verdict(text, register, &digest)?;
    put_holders(text, register)?;
    put_map(text, register, &register.packages)?;
    put_all_holdings(text, register)?;
    put_ledger(alloc, text, register)?;
    put_account(alloc, text, register)?;
    Ok(())
}

/// The page of a register: one file of HTML 5 that needs nothing else.
///
/// # Errors
///
/// Want of memory.
pub fn page_text(alloc: Global, register: &Register) -> Result<String, OutOfMemory>
    requires { IsTrue (is_good_frame register.now.frame) }
    ensures { IfOk result (λ text. string_bytes text ≡ page_text register.now) }
{
    let mut text = String::new(alloc);
    put_page(alloc, &mut text, register)?;
    Ok(text)
}
