//! The account of each package: what came in, what went out, and what is held.
ghost use Rattle.std.specs.Prelude.{◌≡◌, ◌++◌, IfOk, flat_map, string_bytes};
ghost use Rattle.sheet_ledger.specs.Flows.{HasFlows};
ghost use Rattle.view_report.specs.Accounts.{account_of, account_text, held_row, total_cell, totals_row};

use crate::holders::put_sum_cells;
use crate::pieces::{put, put_name, put_swatch, put_total};
use crate::registers::{Live, Register};
use sheet_ledger::flows::{Flow, Totals, flow_of};
use sheet_types::receipt::Sums;
use std::alloc::AllocError;
use std::collections::BTreeMap;
use uuid::Uuid;

/// Puts a cell with a sum.
fn put_total_cell(text: &mut String, number: u128) -> Result<(), AllocError>
    ensures { IfOk result (λ _. string_bytes text.new ≡ string_bytes text.old ++ total_cell number) }
{
    put(text, "<td class=\"n\">")?;
    put_total(text, number)?;
    put(text, "</td>")?;
    Ok(())
}

/// Puts the row of what came in or went out.
fn put_totals(text: &mut String, word: &str, totals: &Totals) -> Result<(), AllocError>
    ensures { IfOk result (λ _. string_bytes text.new ≡ string_bytes text.old ++ totals_row word.now totals.now) }
{
    put(text, "<tr><th scope=\"row\">")?;
    put(text, word)?;
    put(text, "</th>")?;
    put_total_cell(text, totals.tiles)?;
    put_total_cell(text, totals.media)?;
    put_total_cell(text, totals.rows)?;
    put_total_cell(text, totals.links)?;
    put_total_cell(text, totals.bytes)?;
    put(text, "</tr>\n")?;
    Ok(())
}

/// Puts the row of what is held.
fn put_held(text: &mut String, sums: Sums) -> Result<(), AllocError>
    ensures { IfOk result (λ _. string_bytes text.new ≡ string_bytes text.old ++ held_row sums) }
{
    put(text, "<tr class=\"sum\"><th scope=\"row\">held</th>")?;
    put_sum_cells(text, sums)?;
    put(text, "</tr>\n</tbody>\n")?;
    Ok(())
}

/// Puts the account of a package by its flow.
///
/// # Errors
///
/// Want of memory.
pub fn put_account(
    text: &mut String,
    register: &Register,
    live: &Live,
    flow: &Flow,
) -> Result<(), AllocError>
    ensures { IfOk result (λ _. string_bytes text.new ≡ string_bytes text.old
        ++ account_text register.now live.now flow.now) }
{
    put(
        text,
        "<tbody>\n<tr class=\"name\"><th scope=\"rowgroup\" colspan=\"6\">",
    )?;
    put_swatch(text, live.number)?;
    put(text, "<b>")?;
    put_name(text, &register.names, live.uuid)?;
    put(text, "</b></th></tr>\n")?;
    put_totals(text, "came in", &flow.came)?;
    put_totals(text, "went out", &flow.left)?;
    put_held(text, live.sums)?;
    Ok(())
}

/// Puts it by the flows of all receipts.
fn put_account_by(
    text: &mut String,
    register: &Register,
    flows: &BTreeMap<Uuid, Flow>,
    live: &Live,
) -> Result<(), AllocError>
    requires { HasFlows flows.now register.now.receipts.items }
    ensures { IfOk result (λ _. string_bytes text.new ≡ string_bytes text.old ++ account_of register.now live.now) }
{
    let flow = flow_of(flows, live.uuid);
    put_account(text, register, live, &flow)?;
    Ok(())
}

/// Puts the accounts of packages, by the flows of all receipts.
pub(crate) fn put_accounts(
    text: &mut String,
    register: &Register,
    flows: &BTreeMap<Uuid, Flow>,
    packages: &[Live],
) -> Result<(), AllocError>
    requires { HasFlows flows.now register.now.receipts.items }
    ensures { IfOk result (λ _. string_bytes text.new ≡ string_bytes text.old
        ++ flat_map (account_of register.now) packages.now) }
{
    for live in packages {
        put_account_by(text, register, flows, live)?;
    }
    Ok(())
}
