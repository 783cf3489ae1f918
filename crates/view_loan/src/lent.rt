//! What was lent, and who has each thing now.
ghost use Rattle.std.specs.Prelude.{◌≡◌, ◌++◌, IfOk, flat_map, string_bytes};
ghost use Rattle.view_loan.specs.Lent.{also_told, fingerprint_text, item_keeper, lent_item, lent_link, lent_row};
ghost use Rattle.view_loan.specs.Lent.{link_keeper};

use crate::pieces::{put_keeper, put_told_pair, tie_found};
use sheet_types::receipt::Moved;
use std::alloc::AllocError;
use uuid::Uuid;
use view_report::holdings::kind_word;
use view_report::pieces::{put, put_about, put_count, put_digest, put_short};
use view_report::registers::{Register, thing_found};

/// Puts who has an item.
fn put_item_keeper(text: &mut String, register: &Register, id: Uuid) -> Result<(), AllocError>
    ensures { IfOk result (λ _. string_bytes text.new ≡ string_bytes text.old ++ item_keeper register.now id) }
{
    match thing_found(&register.things, id) {
        Some(found) => put_keeper(text, register, found.holder),
        None => put(text, "<span class=\"q\">deleted</span>"),
    }
}

/// Puts who has a link.
fn put_link_keeper(
    text: &mut String,
    register: &Register,
    base: Uuid,
    other: Uuid,
) -> Result<(), AllocError>
    ensures { IfOk result (λ _. string_bytes text.new ≡ string_bytes text.old
        ++ link_keeper register.now base other) }
{
    match tie_found(&register.ties, base, other) {
        Some(found) => put_keeper(text, register, found.holder),
        None => put(text, "<span class=\"q\">ended</span>"),
    }
}

/// Puts an item in a few words behind a word, where a package holds it.
fn put_also_told(text: &mut String, register: &Register, id: Uuid) -> Result<(), AllocError>
    ensures { IfOk result (λ _. string_bytes text.new ≡ string_bytes text.old ++ also_told register.now id) }
{
    match thing_found(&register.things, id) {
        Some(found) => {
            put(text, " ")?;
            put_about(text, &register.names, found)
        }
        None => Ok(()),
    }
}

/// Puts a SHA-256, where there is one.
fn put_fingerprint(text: &mut String, fingerprint: &Option<[u8; 32]>) -> Result<(), AllocError>
    ensures { IfOk result (λ _. string_bytes text.new ≡ string_bytes text.old ++ fingerprint_text fingerprint.now) }
{
    match fingerprint {
        Some(digest) => put_digest(text, digest),
        None => Ok(()),
    }
}

/// Puts the row of an item that was lent.
fn put_lent_item(text: &mut String, register: &Register, moved: &Moved) -> Result<(), AllocError>
    ensures { IfOk result (λ _. string_bytes text.new ≡ string_bytes text.old ++ lent_item register.now moved.now) }
{
    put(text, "<tr><th scope=\"row\">")?;
    put(text, kind_word(moved.kind))?;
    put_also_told(text, register, moved.base)?;
    put(text, "</th><td>")?;
    put_short(text, moved.base)?;
    put(text, "</td><td class=\"n\" data-l=\"bytes\">")?;
    put_count(text, moved.size)?;
    put(text, "</td><td>")?;
    put_fingerprint(text, &moved.fingerprint)?;
    put(text, "</td><td data-l=\"now with\">")?;
    put_item_keeper(text, register, moved.base)?;
    put(text, "</td></tr>\n")?;
    Ok(())
}

/// Puts the row of a link that was lent.
fn put_lent_link(
    text: &mut String,
    register: &Register,
    moved: &Moved,
    other: Uuid,
) -> Result<(), AllocError>
    ensures { IfOk result (λ _. string_bytes text.new ≡ string_bytes text.old
        ++ lent_link register.now moved.now other) }
{
    put(text, "<tr><th scope=\"row\">")?;
    put(text, kind_word(moved.kind))?;
    put(text, "</th><td colspan=\"3\">")?;
    put_told_pair(text, register, moved.base, other)?;
    put(text, "</td><td data-l=\"now with\">")?;
    put_link_keeper(text, register, moved.base, other)?;
    put(text, "</td></tr>\n")?;
    Ok(())
}

/// Puts the row of one thing that was lent.
fn put_lent(text: &mut String, register: &Register, moved: &Moved) -> Result<(), AllocError>
    ensures { IfOk result (λ _. string_bytes text.new ≡ string_bytes text.old ++ lent_row register.now moved.now) }
{
    match moved.other {
        Some(other) => put_lent_link(text, register, moved, other),
        None => put_lent_item(text, register, moved),
    }
}

/// Puts the rows of all that was lent.
pub(crate) fn put_all_lent(
    text: &mut String,
    register: &Register,
    items: &[Moved],
) -> Result<(), AllocError>
    ensures { IfOk result (λ _. string_bytes text.new ≡ string_bytes text.old
        ++ flat_map (lent_row register.now) items.now) }
{
    for moved in items {
        put_lent(text, register, moved)?;
    }
    Ok(())
}
