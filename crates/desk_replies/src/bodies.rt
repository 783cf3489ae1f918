//! The JSON of receipts and refusals (RFC 8259).
ghost use Rattle.std.specs.Prelude.{◌≡◌, IfOk, option_map, string_bytes};
ghost use Rattle.serde_json.specs.View.{view};
ghost use Rattle.serde_json.specs.Written.{compact_text};
ghost use Rattle.desk_replies.specs.Bodies.{receipt_data, receipt_text, refusal_data, refusal_detail, refusal_text};

use serde_json::{Value, json};
use sheet_types::error::OutOfMemory;
use sheet_types::receipt::Receipt;
use sheet_types::refusal::Refusal;
use sheet_types::words::OrEmpty;
use std::alloc::{AllocError, Global};
use uuid::Uuid;

/// The JSON of a receipt.
fn receipt_value(alloc: Global, receipt: &Receipt) -> Result<Value, AllocError>
    ensures { IfOk result (λ value. view value ≡ receipt_data receipt.now) }
{
    let mut first = Uuid::encode_buffer();
    let mut second = Uuid::encode_buffer();
    let mut third = Uuid::encode_buffer();
    let from = OrEmpty(receipt.source).encode_lower(&mut first);
    let to = OrEmpty(receipt.target).encode_lower(&mut second);
    let request = receipt.request.hyphenated().encode_lower(&mut third);
    let items = receipt.items.as_slice().len() as u64;
    json!(in alloc; {
        "at": receipt.at.as_str(),
        "bytes": receipt.bytes,
        "from": from,
        "items": items,
        "line": receipt.line.as_str(),
        "links": receipt.links,
        "media": receipt.media,
        "request": request,
        "rows": receipt.rows,
        "seq": receipt.seq,
        "tiles": receipt.tiles,
        "to": to
    })
}

/// The body of a receipt.
pub fn receipt_body(alloc: Global, receipt: &Receipt) -> Result<String, OutOfMemory>
    ensures { IfOk result (λ text. string_bytes text ≡ receipt_text receipt.now) }
{
    let value = receipt_value(alloc, receipt)?;
    Ok(value.to_string(alloc)?)
}

/// What a reason carries, as text.
fn refusal_detail(alloc: Global, why: &Refusal) -> Result<Option<String>, AllocError>
    ensures { IfOk result (λ detail. option_map string_bytes detail ≡ refusal_detail why.now) }
{
    match why {
        Refusal::CutLink(item) => Ok(Some(format!(in alloc; "{item}")?)),
        Refusal::Stale(last) => Ok(Some(format!(in alloc; "{last}")?)),
        Refusal::LoanOpen(loan) => Ok(Some(format!(in alloc; "{loan}")?)),
        Refusal::Collides(tile) => Ok(Some(format!(in alloc; "{tile}")?)),
        _ => Ok(None),
    }
}

/// The JSON of a refusal.
fn refusal_value(alloc: Global, why: &Refusal) -> Result<Value, AllocError>
    ensures { IfOk result (λ value. view value ≡ refusal_data why.now) }
{
    let name = why.name();
    let number = why.number();
    match refusal_detail(alloc, why)? {
        Some(detail) =>
            json!(in alloc; {"detail": detail.as_str(), "name": name, "refusal": number}),
        None => json!(in alloc; {"name": name, "refusal": number}),
    }
}

/// The body of a refusal.
pub fn refusal_body(alloc: Global, why: &Refusal) -> Result<String, OutOfMemory>
    ensures { IfOk result (λ text. string_bytes text ≡ refusal_text why.now) }
{
    let value = refusal_value(alloc, why)?;
    Ok(value.to_string(alloc)?)
}
