//! The SHA-256 of a ledger: of its receipts in order, each as its JSON with LF (FIPS 180-4, 6.2).
ghost use Rattle.std.specs.Prelude.{◌≡◌, ◌++◌, ◌∷◌, [], IfOk, List, OnOk, decimal, length, ℕ};
ghost use Rattle.json.specs.Print.{print};
ghost use Rattle.json.specs.Token.{key, number, string};
ghost use Rattle.sha2.specs.Hashers.{Holds256};
ghost use Rattle.sheet_types.specs.Reading.{optional_uuid_text};
ghost use Rattle.desk_replies.specs.Bodies.{receipt_text};
ghost use Rattle.view_report.specs.Ledgers.{hashed_line, ledger_digest};

use json::Writer;
use sha2::{Digest, Sha256};
use sheet_types::error::OutOfMemory;
use sheet_types::receipt::Receipt;
use sheet_types::words::OrEmpty;
use std::alloc::{AllocError, Global};
use uuid::Uuid;

/// Writes a member that is a text.
fn write_text(writer: &mut Writer, name: &str, text: &str) -> Result<(), AllocError>
    ensures before { OnOk result (writer.new.before ≡ writer.old.before) }
    ensures tokens { OnOk result
        (writer.new.tokens ≡ writer.old.tokens ++ key name.now ∷ string text.now ∷ []) }
{
    writer.key(name)?;
    writer.string(text)?;
    Ok(())
}

/// Writes a member that is a number.
fn write_count(writer: &mut Writer, name: &str, count: u64) -> Result<(), AllocError>
    ensures before { OnOk result (writer.new.before ≡ writer.old.before) }
    ensures tokens { OnOk result
        (writer.new.tokens ≡ writer.old.tokens ++ key name.now ∷ number (decimal count) ∷ []) }
{
    writer.key(name)?;
    writer.u64(count)?;
    Ok(())
}

/// Writes a member that is a UUID, or the empty text where there is none.
fn write_end(writer: &mut Writer, name: &str, end: Option<Uuid>) -> Result<(), AllocError>
    ensures before { OnOk result (writer.new.before ≡ writer.old.before) }
    ensures tokens { OnOk result
        (writer.new.tokens
        ≡ writer.old.tokens ++ key name.now ∷ string (optional_uuid_text end) ∷ []) }
{
    let mut letters = Uuid::encode_buffer();
    let text = OrEmpty(end).encode_lower(&mut letters);
    write_text(writer, name, text)?;
    Ok(())
}

/// How many things a receipt moved.
fn thing_count(receipt: &Receipt) -> u64
    ensures { result ≡ length receipt.now.items }
{
    receipt.items.as_slice().len() as u64
}

/// Writes the JSON of a receipt as tokens, without the tree of values of `receipt_body`: a ledger may be long.
fn write_receipt(writer: &mut Writer, receipt: &Receipt) -> Result<(), AllocError>
    requires { writer.old.tokens ≡ [] }
    ensures before { OnOk result (writer.new.before ≡ writer.old.before) }
    ensures text { OnOk result (print writer.new.tokens ≡ receipt_text receipt.now) }
{
    writer.begin_object()?;
    write_text(writer, "at", receipt.at.as_str())?;
    write_count(writer, "bytes", receipt.bytes)?;
    write_end(writer, "from", receipt.source)?;
    write_count(writer, "items", thing_count(receipt))?;
    write_text(writer, "line", receipt.line.as_str())?;
    write_count(writer, "links", receipt.links)?;
    write_count(writer, "media", receipt.media)?;
    write_end(writer, "request", Some(receipt.request))?;
    write_count(writer, "rows", receipt.rows)?;
    write_count(writer, "seq", receipt.seq)?;
    write_count(writer, "tiles", receipt.tiles)?;
    write_end(writer, "to", receipt.target)?;
    writer.end_object()?;
    Ok(())
}

/// A receipt as it is hashed: its JSON with LF, in the room of the line before it.
fn hashed_line(mut line: Vec<u8>, receipt: &Receipt) -> Result<Vec<u8>, AllocError>
    ensures { IfOk result (λ next. next.items ≡ hashed_line receipt.now) }
{
    line.clear();
    let mut writer = Writer::new(line);
    write_receipt(&mut writer, receipt)?;
    let mut next = writer.into_inner();
    next.push(b'\n')?;
    Ok(next)
}

/// Hashes one receipt more, in the room of the line before it.
fn add_receipt(line: Vec<u8>, hasher: &mut Sha256, receipt: &Receipt) -> Result<Vec<u8>, AllocError>
    ensures { OnOk result ((m : List ℕ) → Holds256 hasher.old m
        → Holds256 hasher.new (m ++ hashed_line receipt.now)) }
{
    let next = hashed_line(line, receipt)?;
    hasher.update(next.as_slice());
    Ok(next)
}

/// The digest of these receipts.
///
/// # Errors
///
/// Want of memory.
pub fn ledger_digest(alloc: Global, receipts: &[Receipt]) -> Result<[u8; 32], OutOfMemory>
    ensures { IfOk result (λ digest. digest ≡ ledger_digest receipts.now) }
{
    let mut hasher = Sha256::new();
    let mut line = Vec::new(alloc);
    for receipt in receipts {
        line = add_receipt(line, &mut hasher, receipt)?;
    }
    Ok(hasher.finalize())
}
