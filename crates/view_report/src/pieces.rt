//! The pieces that recur in a page (HTML 5).
ghost use Rattle.std.specs.Fmt.{signed_decimal};
ghost use Rattle.std.specs.Prelude.{◌≡◌, ◌++◌, IfOk, decimal, string_bytes};
ghost use Rattle.hex.specs.Hex.{encode_lower};
ghost use Rattle.sheet_types.specs.Texts.{uuid_text};
ghost use Rattle.view_report.specs.Pieces.{about_text, amount_text, called, class_text, colour_of, digest_text};
ghost use Rattle.view_report.specs.Pieces.{first_shown, found_text, holder_class, holder_text, label_text, mark_text};
ghost use Rattle.view_report.specs.Pieces.{name_text, pattern_of, place_text, plain_name, receipt_text, sheet_text};
ghost use Rattle.view_report.specs.Pieces.{short_text, some_text, sums_text, swatch_text, thing_text, word_of};

use crate::escaping::put_escaped;
use crate::lists::Names;
use crate::registers::{About, Register, Thing, live_of, name_of, thing_found};
use itoa::Buffer;
use sheet_types::fingerprints::spell;
use std::alloc::AllocError;
use uuid::Uuid;

/// How many receipts are shown at most: the newest.
const SHOWN: usize = 2000;

/// Puts a text behind another.
///
/// # Errors
///
/// Want of memory.
pub fn put(text: &mut String, word: &str) -> Result<(), AllocError>
    ensures { IfOk result (λ _. string_bytes text.new ≡ string_bytes text.old ++ word.now) }
{
    text.push_str(word)?;
    Ok(())
}

/// Puts a number.
///
/// # Errors
///
/// Want of memory.
pub fn put_count(text: &mut String, number: u64) -> Result<(), AllocError>
    ensures { IfOk result (λ _. string_bytes text.new ≡ string_bytes text.old ++ decimal number) }
{
    let mut digits = Buffer::new();
    put(text, digits.format(number))
}

/// Puts a number that may be negative.
///
/// # Errors
///
/// Want of memory.
pub fn put_signed(text: &mut String, number: i64) -> Result<(), AllocError>
    ensures { IfOk result (λ _. string_bytes text.new ≡ string_bytes text.old ++ signed_decimal number) }
{
    let mut digits = Buffer::new();
    put(text, digits.format(number))
}

/// Puts a sum of receipts.
pub(crate) fn put_total(text: &mut String, number: u128) -> Result<(), AllocError>
    ensures { IfOk result (λ _. string_bytes text.new ≡ string_bytes text.old ++ decimal number) }
{
    let mut digits = Buffer::new();
    put(text, digits.format(number))
}

/// Puts a UUID.
///
/// # Errors
///
/// Want of memory.
pub fn put_uuid(text: &mut String, id: Uuid) -> Result<(), AllocError>
    ensures { IfOk result (λ _. string_bytes text.new ≡ string_bytes text.old ++ uuid_text id) }
{
    let mut letters = Uuid::encode_buffer();
    put(text, id.hyphenated().encode_lower(&mut letters))
}

/// Puts a UUID of which the style shows the beginning.
///
/// # Errors
///
/// Want of memory.
pub fn put_short(text: &mut String, id: Uuid) -> Result<(), AllocError>
    ensures { IfOk result (λ _. string_bytes text.new ≡ string_bytes text.old ++ short_text id) }
{
    put(text, "<code class=\"id\">")?;
    put_uuid(text, id)?;
    put(text, "</code>")?;
    Ok(())
}

/// Puts a SHA-256 in the same way.
///
/// # Errors
///
/// Want of memory.
pub fn put_digest(text: &mut String, digest: &[u8; 32]) -> Result<(), AllocError>
    ensures { IfOk result (λ _. string_bytes text.new ≡ string_bytes text.old ++ digest_text digest.now) }
{
    let mut letters = [0; 64];
    put(text, "<code class=\"id\">")?;
    put(text, spell(digest, &mut letters))?;
    put(text, "</code>")?;
    Ok(())
}

/// Puts foreign text that keeps its own direction, where there is any.
pub(crate) fn put_label(text: &mut String, label: &str) -> Result<(), AllocError>
    ensures { IfOk result (λ _. string_bytes text.new ≡ string_bytes text.old ++ label_text label.now) }
{
    if label.is_empty() {
        return Ok(());
    }
    put(text, "<bdi>")?;
    put_escaped(text, label)?;
    put(text, "</bdi>")
}

/// Puts what people call a package or a sheet, or its UUID.
///
/// # Errors
///
/// Want of memory.
pub fn put_name(text: &mut String, names: &Names, id: Uuid) -> Result<(), AllocError>
    ensures { IfOk result (λ _. string_bytes text.new ≡ string_bytes text.old ++ name_text names.now id) }
{
    match name_of(names, id) {
        Some(found) => put_label(text, found.name.as_str()),
        None => put_short(text, id),
    }
}

/// The same where no element may stand.
///
/// # Errors
///
/// Want of memory.
pub fn put_plain_name(text: &mut String, names: &Names, id: Uuid) -> Result<(), AllocError>
    ensures { IfOk result (λ _. string_bytes text.new ≡ string_bytes text.old ++ plain_name names.now id) }
{
    match name_of(names, id) {
        Some(found) => put_escaped(text, found.name.as_str()),
        None => put_uuid(text, id),
    }
}

/// The colour of a holder by its number: the archive has its own, and loans five in turn.
pub(crate) fn colour_of(number: usize) -> u64
    ensures { result ≡ colour_of number }
{
    if number == 0 {
        return 0;
    }
    let turn = (number - 1) % 5 + 1;
    turn as u64
}

/// Its pattern and its shape: the archive's, and seven in turn.
pub fn pattern_of(number: usize) -> u64
    ensures { result ≡ pattern_of number }
{
    if number == 0 {
        return 0;
    }
    let turn = (number - 1) % 7 + 1;
    turn as u64
}

/// Puts the class of a holder's colour.
///
/// # Errors
///
/// Want of memory.
pub fn put_class(text: &mut String, number: usize) -> Result<(), AllocError>
    ensures { IfOk result (λ _. string_bytes text.new ≡ string_bytes text.old ++ class_text number) }
{
    put(text, "c")?;
    put_count(text, colour_of(number))?;
    Ok(())
}

/// Puts a sample of a holder's colour and pattern.
pub(crate) fn put_swatch(text: &mut String, number: usize) -> Result<(), AllocError>
    ensures { IfOk result (λ _. string_bytes text.new ≡ string_bytes text.old ++ swatch_text number) }
{
    put(text, "<svg class=\"sw ")?;
    put_class(text, number)?;
    put(
        text,
        "\" width=\"30\" height=\"16\" aria-hidden=\"true\"><rect x=\"1\" y=\"1\" width=\"28\" height=\"14\" fill=\"url(#w",
    )?;
    put_count(text, number as u64)?;
    put(text, ")\"/></svg>")?;
    Ok(())
}

/// Puts the class of a package: its colour while it lives.
///
/// # Errors
///
/// Want of memory.
pub fn put_holder_class(text: &mut String, register: &Register, id: Uuid) -> Result<(), AllocError>
    ensures { IfOk result (λ _. string_bytes text.new ≡ string_bytes text.old ++ holder_class register.now id) }
{
    match live_of(&register.packages, id) {
        Some(live) => put_class(text, live.number),
        None => put(text, "g"),
    }
}

/// Puts a package as an end of a receipt: one that lives in its colour, one that came home without.
pub(crate) fn put_holder(text: &mut String, register: &Register, id: Uuid) -> Result<(), AllocError>
    ensures { IfOk result (λ _. string_bytes text.new ≡ string_bytes text.old ++ holder_text register.now id) }
{
    put(text, "<a class=\"h ")?;
    put_holder_class(text, register, id)?;
    put(text, "\" href=\"#p-")?;
    put_uuid(text, id)?;
    put(text, "\">")?;
    put_name(text, &register.names, id)?;
    put(text, "</a>")?;
    Ok(())
}

/// The number of the first receipt that is shown.
pub(crate) fn first_shown(register: &Register) -> u64
    ensures { result ≡ first_shown register.now }
{
    register.receipts.len().saturating_sub(SHOWN) as u64
}

/// Puts the number of a receipt, which leads to its row where it has one.
pub(crate) fn put_receipt(
    text: &mut String,
    register: &Register,
    seq: u64,
) -> Result<(), AllocError>
    ensures { IfOk result (λ _. string_bytes text.new ≡ string_bytes text.old ++ receipt_text register.now seq) }
{
    if seq <= first_shown(register) {
        return put_count(text, seq);
    }
    put(text, "<a href=\"#r")?;
    put_count(text, seq)?;
    put(text, "\">")?;
    put_count(text, seq)?;
    put(text, "</a>")
}

/// The word for one of something, or for another number.
pub fn word_of<'t>(number: u64, one: &'t str, many: &'t str) -> &'t str
    ensures { result.now ≡ word_of number one.now many.now }
{
    if number == 1 { one } else { many }
}

/// Puts how many there are of something.
fn put_some(text: &mut String, number: u64, one: &str, many: &str) -> Result<(), AllocError>
    ensures { IfOk result (λ _. string_bytes text.new ≡ string_bytes text.old ++ some_text number one.now many.now) }
{
    put(text, "<span class=\"a\">")?;
    put_count(text, number)?;
    put(text, word_of(number, one, many))?;
    put(text, "</span>")?;
    Ok(())
}

/// Puts it, where there are any.
fn put_amount(text: &mut String, number: u64, one: &str, many: &str) -> Result<(), AllocError>
    ensures { IfOk result (λ _. string_bytes text.new ≡ string_bytes text.old
        ++ amount_text number one.now many.now) }
{
    if number == 0 {
        Ok(())
    } else {
        put_some(text, number, one, many)
    }
}

/// Puts how much was moved or is held.
///
/// # Errors
///
/// Want of memory.
pub fn put_sums(
    text: &mut String,
    tiles: u64,
    media: u64,
    rows: u64,
    links: u64,
) -> Result<(), AllocError>
    ensures { IfOk result (λ _. string_bytes text.new ≡ string_bytes text.old ++ sums_text tiles media rows links) }
{
    put_amount(text, tiles, " sheet", " sheets")?;
    put_amount(text, media, " medium", " media")?;
    put_amount(text, rows, " mark", " marks")?;
    put_amount(text, links, " link", " links")?;
    Ok(())
}

/// Puts what people call a package or a sheet and a space, where they have a name for it.
///
/// # Errors
///
/// Want of memory.
pub fn put_called(text: &mut String, names: &Names, id: Uuid) -> Result<(), AllocError>
    ensures { IfOk result (λ _. string_bytes text.new ≡ string_bytes text.old ++ called names.now id) }
{
    match name_of(names, id) {
        Some(found) => {
            put_label(text, found.name.as_str())?;
            put(text, " ")
        }
        None => Ok(()),
    }
}

/// Puts the place of a sheet.
///
/// # Errors
///
/// Want of memory.
pub fn put_place(text: &mut String, zoom: i64, column: i64, row: i64) -> Result<(), AllocError>
    ensures { IfOk result (λ _. string_bytes text.new ≡ string_bytes text.old ++ place_text zoom column row) }
{
    put_signed(text, zoom)?;
    put(text, "/")?;
    put_signed(text, column)?;
    put(text, "/")?;
    put_signed(text, row)?;
    Ok(())
}

/// Puts a mark in a few words.
fn put_mark(text: &mut String, code: i64, label: &str) -> Result<(), AllocError>
    ensures { IfOk result (λ _. string_bytes text.new ≡ string_bytes text.old ++ mark_text code label.now) }
{
    put_signed(text, code)?;
    put(text, " ")?;
    put_label(text, label)?;
    Ok(())
}

/// Puts a sheet in a few words.
fn put_sheet(
    text: &mut String,
    names: &Names,
    id: Uuid,
    zoom: i64,
    column: i64,
    row: i64,
) -> Result<(), AllocError>
    ensures { IfOk result (λ _. string_bytes text.new ≡ string_bytes text.old
        ++ sheet_text names.now id zoom column row) }
{
    put_called(text, names, id)?;
    put_place(text, zoom, column, row)?;
    Ok(())
}

/// Puts what an item is, in a few words.
///
/// # Errors
///
/// Want of memory.
pub fn put_about(text: &mut String, names: &Names, thing: &Thing) -> Result<(), AllocError>
    ensures { IfOk result (λ _. string_bytes text.new ≡ string_bytes text.old ++ about_text names.now thing.now) }
{
    match &thing.about {
        About::Sheet { zoom, column, row } => {
            put_sheet(text, names, thing.identity, *zoom, *column, *row)
        }
        About::Medium { content_type } => put_label(text, content_type.as_str()),
        About::Mark { code, label, .. } => put_mark(text, *code, label.as_str()),
    }
}

/// Puts an item as a link that leads to its row.
fn put_found(text: &mut String, names: &Names, id: Uuid, thing: &Thing) -> Result<(), AllocError>
    ensures { IfOk result (λ _. string_bytes text.new ≡ string_bytes text.old ++ found_text names.now id thing.now) }
{
    put(text, "<a href=\"#i-")?;
    put_uuid(text, id)?;
    put(text, "\">")?;
    put_about(text, names, thing)?;
    put(text, "</a>")?;
    Ok(())
}

/// Puts an item that a receipt or a link names: told where a package holds it, else by its UUID.
pub(crate) fn put_thing(text: &mut String, register: &Register, id: Uuid) -> Result<(), AllocError>
    ensures { IfOk result (λ _. string_bytes text.new ≡ string_bytes text.old ++ thing_text register.now id) }
{
    match thing_found(&register.things, id) {
        Some(found) => put_found(text, &register.names, id, found),
        None => put_short(text, id),
    }
}
