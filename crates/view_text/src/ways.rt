//! The way of an item through the packages, as receipts tell it.
ghost use Rattle.std.specs.Prelude.{◌≡◌, ◌++◌, ◌∷◌, [], ℕ, List, true, false, IfOk, MatchOption};
ghost use Rattle.std.specs.Prelude.{string_bytes};
ghost use Rattle.std.specs.List.{before_first, list_any};
ghost use Rattle.sheet_types.specs.Balance.{names_identity};
ghost use Rattle.sheet_types.specs.Custody.{ends_at};
ghost use Rattle.sheet_types.specs.World.{is_item_kind};
ghost use Rattle.view_text.specs.Ways.{first_word, is_end_of, names_end, naming_word, place_by, place_line, speaks_of};
ghost use Rattle.view_text.specs.Ways.{way_line, way_lines, way_of};

use crate::columns::{put, put_end, put_last_end, put_left, put_number, put_uuid};
use sheet_types::receipt::{Moved, MovedKind, Receipt};
use std::alloc::{AllocError, Global};
use uuid::Uuid;

fn is_item(kind: MovedKind) -> bool
    ensures { result ≡ is_item_kind kind }
{
    match kind {
        MovedKind::TileItem | MovedKind::MediaItem | MovedKind::RowItem => true,
        MovedKind::TilesMediaLink | MovedKind::RowsMediaLink | MovedKind::RowsTilesLink => false,
    }
}

/// Whether the other end of a link is this one.
fn ends_at(end: Option<Uuid>, identity: Uuid) -> bool
    ensures { result ≡ ends_at end identity }
{
    match end {
        Some(end) => end == identity,
        None => false,
    }
}

/// Whether a thing is a link that ends there.
fn is_end_of(thing: &Moved, identity: Uuid) -> bool
    ensures { result ≡ is_end_of identity thing.now }
{
    !is_item(thing.kind) && (thing.base == identity || ends_at(thing.other, identity))
}

/// Whether a receipt names an identity as that of an item.
fn names_item(receipt: &Receipt, identity: Uuid) -> bool
    ensures { result ≡ names_identity identity receipt.now }
{
    receipt
        .items
        .as_slice()
        .iter()
        .any(|thing| is_item(thing.kind) && thing.base == identity)
}

/// Whether a receipt moved a link that ends there.
fn names_end(receipt: &Receipt, identity: Uuid) -> bool
    ensures { result ≡ names_end identity receipt.now }
{
    receipt
        .items
        .as_slice()
        .iter()
        .any(|thing| is_end_of(thing, identity))
}

/// How a receipt names an identity that it names.
fn naming_word(as_item: bool, as_end: bool) -> &'static str
    ensures { result.now ≡ naming_word as_item as_end }
{
    match (as_item, as_end) {
        (true, true) => "both",
        (true, false) => "item",
        (false, _) => "link",
    }
}

/// How a receipt names an identity: as that of an item, of an end of a link, or of both. `None` where it does not.
pub fn named_as(receipt: &Receipt, identity: Uuid) -> Option<&'static str>
    ensures { MatchOption result (speaks_of identity receipt.now ≡ false)
        (λ word. (speaks_of identity receipt.now ≡ true) × (word.now
        ≡ naming_word (names_identity identity receipt.now) (names_end identity receipt.now))) }
{
    let as_item = names_item(receipt, identity);
    let as_end = names_end(receipt, identity);
    if as_item || as_end {
        Some(naming_word(as_item, as_end))
    } else {
        None
    }
}

/// The first word of a line, which is the command where it is that of a receipt.
pub fn first_word(line: &str) -> &str
    ensures { result.now ≡ first_word line.now }
{
    match line.split_once(' ') {
        Some((word, _)) => word,
        None => line,
    }
}

/// Puts the line of a receipt that names an identity so.
fn put_line(
    text: &mut String,
    receipt: &Receipt,
    as_item: bool,
    as_end: bool,
) -> Result<(), AllocError>
    ensures { IfOk result (λ _. (id : List ℕ) → names_identity id receipt.now ≡ as_item
        → names_end id receipt.now ≡ as_end → string_bytes text.new ≡ string_bytes text.old
        ++ way_line id receipt.now) }
{
    put_number(text, 10, receipt.seq)?;
    put_left(text, 24, receipt.at.as_str())?;
    put_uuid(text, receipt.request)?;
    put_left(text, 6, first_word(receipt.line.as_str()))?;
    put_left(text, 4, naming_word(as_item, as_end))?;
    put_end(text, receipt.source)?;
    put_last_end(text, receipt.target)?;
    put(text, "\n")?;
    Ok(())
}

/// Puts the line of a receipt, if it names the identity.
fn put_if_named(text: &mut String, receipt: &Receipt, identity: Uuid) -> Result<(), AllocError>
    ensures { IfOk result (λ _. string_bytes text.new ≡ string_bytes text.old
        ++ way_lines identity (receipt.now ∷ [])) }
{
    let as_item = names_item(receipt, identity);
    let as_end = names_end(receipt, identity);
    if as_item || as_end {
        put_line(text, receipt, as_item, as_end)?;
    }
    Ok(())
}

/// Puts the lines of the receipts that name the identity.
fn put_lines(text: &mut String, receipts: &[Receipt], identity: Uuid) -> Result<(), AllocError>
    ensures { IfOk result (λ _. string_bytes text.new ≡ string_bytes text.old ++ way_lines identity receipts.now) }
{
    for receipt in receipts {
        put_if_named(text, receipt, identity)?;
    }
    Ok(())
}

/// Where an item stands: the target of the last receipt that names it.
pub fn place_by(receipts: &[Receipt], identity: Uuid) -> Option<Uuid>
    ensures { result ≡ place_by receipts.now identity }
{
    let mut place = None;
    for receipt in receipts {
        if names_item(receipt, identity) {
            place = receipt.target;
        }
    }
    place
}

/// Puts the line that says where an item stands.
fn put_place(text: &mut String, place: Option<Uuid>) -> Result<(), AllocError>
    ensures { IfOk result (λ _. string_bytes text.new ≡ string_bytes text.old ++ place_line place) }
{
    match place {
        Some(package) => {
            let mut letters = Uuid::encode_buffer();
            put(text, "now in ")?;
            put(text, package.hyphenated().encode_lower(&mut letters))?;
            put(text, "\n")?;
        }
        None => put(text, "now nowhere\n")?,
    }
    Ok(())
}

/// Whether a receipt names the identity.
pub fn is_spoken_of(receipts: &[Receipt], identity: Uuid) -> bool
    ensures { result ≡ list_any (speaks_of identity) receipts.now }
{
    receipts.iter().any(|receipt| names_item(receipt, identity) || names_end(receipt, identity))
}

/// The way of an item by receipts in the order of their numbers: a line for each that names its
/// identity, and where it stands. `None` where no receipt names it.
///
/// # Errors
///
/// Want of memory.
pub fn way_text(
    alloc: Global,
    receipts: &[Receipt],
    identity: Uuid,
) -> Result<Option<String>, AllocError>
    ensures { IfOk result (λ found. MatchOption found (list_any (speaks_of identity) receipts.now ≡ false)
        (λ text. (list_any (speaks_of identity) receipts.now ≡ true)
        × (string_bytes text ≡ way_of identity receipts.now))) }
{
    if !is_spoken_of(receipts, identity) {
        return Ok(None);
    }
    let mut text = String::new(alloc);
    put_lines(&mut text, receipts, identity)?;
    put_place(&mut text, place_by(receipts, identity))?;
    Ok(Some(text))
}
