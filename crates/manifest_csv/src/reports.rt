//! The report of an import, line by line, in room that was reserved before.
ghost use Rattle.std.specs.Prelude.{◌≡◌, ◌≤◌, ◌+◌, ◌++◌, IfOk, length, string_bytes, string_len};
ghost use Rattle.std.specs.String.{string_capacity};
ghost use Rattle.manifest_csv.specs.Reports.{refusal_of, report_header, report_line, seq_of};

use itoa::Buffer;
use sheet_types::error::OutOfMemory;
use sheet_types::receipt::Receipt;
use sheet_types::refusal::Refusal;
use std::alloc::Global;
use uuid::Uuid;

/// The header line of a report.
pub fn header_line() -> &'static str
    ensures { result.now ≡ report_header }
{
    "line,request,seq,refusal\n"
}

/// A buffer with room for the longest line of a report.
pub fn line_buffer(alloc: Global) -> Result<String, OutOfMemory>
    ensures { IfOk result (λ buffer. 128 ≤ string_capacity buffer) }
{
    Ok(String::with_capacity(alloc, 128)?)
}

// The number of the receipt, 0 for a refusal.
fn seq(reply: &Result<Receipt, Refusal>) -> u64
    ensures { result ≡ seq_of reply.now }
{
    match reply {
        Ok(receipt) => receipt.seq,
        Err(_) => 0,
    }
}

// The number of the refusal, 0 for a receipt.
fn refusal(reply: &Result<Receipt, Refusal>) -> u8
    ensures { result ≡ refusal_of reply.now }
{
    match reply {
        Ok(_) => 0,
        Err(refusal) => refusal.number(),
    }
}

// Appends where there is room.
fn put(buffer: &mut String, text: &str)
    requires { string_len buffer.old + length text.now ≤ string_capacity buffer.old }
    ensures bytes { string_bytes buffer.new ≡ string_bytes buffer.old ++ text.now }
    ensures len { string_len buffer.new ≡ string_len buffer.old + length text.now }
    ensures room { string_capacity buffer.old ≤ string_capacity buffer.new }
{
    buffer.push_str(text).unwrap();
}

/// Puts the line of the `n`-th request in place of what the buffer held. It wants no memory, so it
/// can't fail once the request was carried out.
pub fn put_line(buffer: &mut String, n: u64, id: Uuid, reply: &Result<Receipt, Refusal>)
    requires room { 128 ≤ string_capacity buffer.old }
    ensures text { string_bytes buffer.new ≡ report_line n id reply.now }
    ensures room { 128 ≤ string_capacity buffer.new }
{
    buffer.clear();
    let mut digits = Buffer::new();
    put(buffer, digits.format(n));
    put(buffer, ",");
    let mut letters = Uuid::encode_buffer();
    put(buffer, id.hyphenated().encode_lower(&mut letters));
    put(buffer, ",");
    put(buffer, digits.format(seq(reply)));
    put(buffer, ",");
    put(buffer, digits.format(refusal(reply)));
    put(buffer, "\n");
}
