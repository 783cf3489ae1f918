//! The way of an item as JSON.
ghost use Rattle.std.specs.Prelude.{◌≡◌, ◌++◌, ◌∷◌, [], IfOk, List, MatchOption, false, string_bytes};
ghost use Rattle.std.specs.Prelude.{true};
ghost use Rattle.std.specs.List.{list_any};
ghost use Rattle.serde_json.specs.View.{view};
ghost use Rattle.serde_json.specs.Written.{compact_text};
ghost use Rattle.view_text.specs.Ways.{speaks_of};
ghost use Rattle.view_json.specs.Arrays.{Puts};
ghost use Rattle.view_json.specs.Ways.{naming_data, naming_object, place_data, way_datas, way_json};

use crate::arrays::{Lines, close_array, end_value, open_array, put_object};
use serde_json::{Value, json};
use sheet_types::receipt::Receipt;
use std::alloc::{AllocError, Global};
use uuid::Uuid;
use view_text::ways::{first_word, is_spoken_of, named_as, place_by};

/// The JSON of a receipt that names an identity so, by the values of its ends.
fn naming_object(
    alloc: Global,
    receipt: &Receipt,
    naming: &str,
    from: &Value,
    to: &Value,
) -> Result<Value, AllocError>
    ensures { IfOk result (λ value.
        view value ≡ naming_object receipt.now naming.now (view from.now) (view to.now)) }
{
    let mut letters = Uuid::encode_buffer();
    let request = receipt.request.hyphenated().encode_lower(&mut letters);
    let what = first_word(receipt.line.as_str());
    json!(in alloc; {
        "as": naming,
        "at": receipt.at.as_str(),
        "from": from,
        "receipt": receipt.seq,
        "request": request,
        "to": to,
        "what": what
    })
}

/// The JSON of a receipt that names an identity so.
fn naming_value(alloc: Global, receipt: &Receipt, naming: &str) -> Result<Value, AllocError>
    ensures { IfOk result (λ value. view value ≡ naming_data receipt.now naming.now) }
{
    let from = end_value(alloc, receipt.source)?;
    let to = end_value(alloc, receipt.target)?;
    let value = naming_object(alloc, receipt, naming, &from, &to)?;
    Ok(value)
}

/// Its text.
fn naming_text(alloc: Global, receipt: &Receipt, naming: &str) -> Result<String, AllocError>
    ensures { IfOk result (λ text.
        string_bytes text ≡ compact_text (naming_data receipt.now naming.now)) }
{
    let value = naming_value(alloc, receipt, naming)?;
    let text = value.to_string(alloc)?;
    Ok(text)
}

/// Puts that object.
fn put_named(
    alloc: Global,
    lines: &mut Lines,
    receipt: &Receipt,
    naming: &str,
) -> Result<(), AllocError>
    ensures { IfOk result (λ _.
        Puts (naming_data receipt.now naming.now ∷ []) lines.old lines.new) }
{
    let text = naming_text(alloc, receipt, naming)?;
    put_object(lines, text.as_str())?;
    Ok(())
}

/// Puts the object of a receipt, if it names the identity.
fn put_if_named(
    alloc: Global,
    lines: &mut Lines,
    receipt: &Receipt,
    identity: Uuid,
) -> Result<(), AllocError>
    ensures { IfOk result (λ _. Puts (way_datas identity (receipt.now ∷ [])) lines.old lines.new) }
{
    match named_as(receipt, identity) {
        Some(naming) => {
            put_named(alloc, lines, receipt, naming)?;
            Ok(())
        }
        None => Ok(()),
    }
}

/// Puts the objects of the receipts that name the identity.
fn put_receipts(
    alloc: Global,
    lines: &mut Lines,
    receipts: &[Receipt],
    identity: Uuid,
) -> Result<(), AllocError>
    ensures { IfOk result (λ _. Puts (way_datas identity receipts.now) lines.old lines.new) }
{
    for receipt in receipts {
        put_if_named(alloc, lines, receipt, identity)?;
    }
    Ok(())
}

/// The JSON of where an item stands.
fn place_value(alloc: Global, place: Option<Uuid>) -> Result<Value, AllocError>
    ensures { IfOk result (λ value. view value ≡ place_data place) }
{
    let now = end_value(alloc, place)?;
    json!(in alloc; {"now": &now})
}

/// Its text.
fn place_text(alloc: Global, place: Option<Uuid>) -> Result<String, AllocError>
    ensures { IfOk result (λ text. string_bytes text ≡ compact_text (place_data place)) }
{
    let value = place_value(alloc, place)?;
    let text = value.to_string(alloc)?;
    Ok(text)
}

/// Puts that object.
fn put_place(alloc: Global, lines: &mut Lines, place: Option<Uuid>) -> Result<(), AllocError>
    ensures { IfOk result (λ _. Puts (place_data place ∷ []) lines.old lines.new) }
{
    let text = place_text(alloc, place)?;
    put_object(lines, text.as_str())?;
    Ok(())
}

/// An object for each receipt that names the identity, in their order, and a last one for where the item stands, as one
/// array.
fn way_array(alloc: Global, receipts: &[Receipt], identity: Uuid) -> Result<String, AllocError>
    ensures { IfOk result (λ text. string_bytes text ≡ way_json identity receipts.now) }
{
    let mut lines = open_array(alloc)?;
    put_receipts(alloc, &mut lines, receipts, identity)?;
    put_place(alloc, &mut lines, place_by(receipts, identity))?;
    let text = close_array(lines)?;
    Ok(text)
}

/// The way of an item by receipts in the order of their numbers: an object for each that names its identity, and a last
/// one for where it stands now, as one array. `None` where no receipt names it.
///
/// # Errors
///
/// Want of memory.
pub fn way_json(
    alloc: Global,
    receipts: &[Receipt],
    identity: Uuid,
) -> Result<Option<String>, AllocError>
    ensures { IfOk result (λ found.
        MatchOption found (list_any (speaks_of identity) receipts.now ≡ false)
        (λ text. (list_any (speaks_of identity) receipts.now ≡ true)
        × (string_bytes text ≡ way_json identity receipts.now))) }
{
    if !is_spoken_of(receipts, identity) {
        return Ok(None);
    }
    let text = way_array(alloc, receipts, identity)?;
    Ok(Some(text))
}
