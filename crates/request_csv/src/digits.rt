//! Bytes in hexadecimal, by a table: of digits as they come, a branch for each is guessed wrong,
//! and takes ten times as long.
ghost use Rattle.std.specs.Prelude.{◌≡◌, ◌≢◌, ◌*◌, ◌<◌, ℕ, List, length, Ok, Err, IfOk, IfSome};
ghost use Rattle.std.specs.Prelude.{IfNone, true, false};
ghost use Rattle.hex.specs.Hex.{decode_of, decode_pairs, pair_value};
ghost use Rattle.hex.specs.declared.error.FromHexError.{FromHexError};
ghost use Rattle.request_csv.specs.Digits.{digit_value, AreDigits};

use sheet_types::error::OutOfMemory;
use std::alloc::Global;

/// The value of a digit in either case; 255 of any other byte.
fn digit_value(byte: u8) -> u8
    ensures { result ≡ digit_value byte }
{
    match byte {
        b'A'..=b'F' => byte - b'A' + 10,
        b'a'..=b'f' => byte - b'a' + 10,
        b'0'..=b'9' => byte - b'0',
        _ => 255,
    }
}

/// The same of each byte.
fn digit_values() -> [u8; 256]
    ensures { AreDigits result }
{
    let mut values = [255u8; 256];
    for i in 0..256usize {
        values[i] = digit_value(i as u8);
    }
    values
}

/// The byte of two digits.
#[tactic(auto, using(crate::proofs::DigitFacts::byte_read, crate::proofs::DigitFacts::byte_unread))]
fn byte_of(values: &[u8; 256], high: u8, low: u8) -> Option<u8>
    requires { AreDigits values.now }
    ensures some { IfSome result (λ byte. (i : ℕ) → pair_value high low i ≡ Ok byte) }
    ensures none { IfNone result ((i : ℕ) → (fault : FromHexError) × (pair_value high low i ≡ Err fault)) }
{
    let first = values[high as usize];
    let second = values[low as usize];
    if first < 16 && second < 16 {
        Some(first * 16 + second)
    } else {
        None
    }
}

/// Whether a text has digits alone; if so, what bytes they are.
fn decode_into(values: &[u8; 256], text: &[u8], bytes: &mut [u8]) -> bool
    requires values { AreDigits values.now }
    requires room { length text.now ≡ 2 * length bytes.old }
    ensures digits { result ≡ true → decode_pairs 0 text.now ≡ Ok bytes.new }
    ensures others { result ≡ false → (found : List ℕ) → decode_pairs 0 text.now ≢ Ok found }
{
    for i in 0..bytes.len() {
        let Some(byte) = byte_of(values, text[2 * i], text[2 * i + 1]) else {
            return false;
        };
        bytes[i] = byte;
    }
    true
}

/// The bytes of a text in hexadecimal, with an even number of digits in either case.
///
/// # Errors
///
/// Want of memory.
#[tactic(auto, using(crate::proofs::DigitFacts::of_even, crate::proofs::DigitFacts::of_odd))]
pub(crate) fn decode_hex(alloc: Global, text: &[u8]) -> Result<Option<Vec<u8>>, OutOfMemory>
    ensures some { IfOk result (λ found. IfSome found (λ bytes. decode_of text.now ≡ Ok bytes.items)) }
    ensures none { IfOk result (λ found. IfNone found ((bytes : List ℕ) → decode_of text.now ≢ Ok bytes)) }
{
    if text.len() % 2 != 0 {
        return Ok(None);
    }
    let mut bytes = vec![in alloc; 0u8; text.len() / 2]?;
    let values = digit_values();
    if decode_into(&values, text, bytes.as_mut_slice()) {
        Ok(Some(bytes))
    } else {
        Ok(None)
    }
}
