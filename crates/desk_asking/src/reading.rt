//! Lines and numbers, read from a reader.
ghost use Rattle.std.specs.Prelude.{◌≡◌, ◌≢◌, ◌++◌, ◌∷◌, [], ℕ, ◌<◌, ◌^◌, IfOk, OnOk};
ghost use Rattle.std.specs.Prelude.{IfSome, IfNone};
ghost use Rattle.std.specs.Prelude.{decimal};
ghost use Rattle.std.specs.Io.KnownBytes.{Consumes};
ghost use Rattle.std.specs.Str.{IsUtf8};

use crate::answers::AnswerFault;
use itoa::Buffer;
use std::alloc::Global;
use std::io::Read;
use std::str;

/// The most bytes of a line.
const MOST_LINE: u32 = 8192;

/// Fills a piece with the next bytes.
pub(crate) fn fill_piece<R: Read>(reader: &mut R, piece: &mut [u8]) -> Result<(), AnswerFault>
    ensures { OnOk result (Consumes (R.remaining reader.old) (R.remaining reader.new) piece.new) }
{
    match reader.read_exact(piece) {
        Ok(()) => Ok(()),
        Err(_) => Err(AnswerFault::Cut),
    }
}

/// The next byte.
fn take_byte<R: Read>(reader: &mut R) -> Result<u8, AnswerFault>
    ensures { IfOk result (λ byte. Consumes (R.remaining reader.old) (R.remaining reader.new)
        (byte ∷ [])) }
{
    let mut one = [0u8; 1];
    fill_piece(reader, &mut one)?;
    Ok(one[0])
}

/// Puts a byte behind a line.
fn put_byte(line: &mut Vec<u8>, byte: u8) -> Result<(), AnswerFault>
    ensures { OnOk result (line.new.items ≡ line.old.items ++ byte ∷ []) }
{
    match line.push(byte) {
        Ok(()) => Ok(()),
        Err(_) => Err(AnswerFault::Memory),
    }
}

/// The bytes before the next end of a line, which is taken too.
pub(crate) fn take_line<R: Read>(alloc: Global, reader: &mut R) -> Result<Vec<u8>, AnswerFault>
    ensures { IfOk result (λ line. Consumes (R.remaining reader.old) (R.remaining reader.new)
        (line.items ++ 10 ∷ [])) }
{
    let mut line = Vec::new(alloc);
    'bytes: for _byte in 0..MOST_LINE {
        let byte = take_byte(&mut *reader)?;
        if byte == b'\n' {
            return Ok(line);
        }
        put_byte(&mut line, byte)?;
    }
    Err(AnswerFault::Cut)
}

/// Bytes that are a text.
fn text_of(bytes: &[u8]) -> Option<&str>
    ensures some { IfSome result (λ text. text.now ≡ bytes.now) }
    ensures none { IfNone result (¬ IsUtf8 bytes.now) }
{
    match str::from_utf8(bytes) {
        Ok(text) => Some(text),
        Err(_) => None,
    }
}

/// The number of a text in plain decimal: no leading zero, within 64 bits; `None` of any other text.
#[tactic(auto, using(crate::proofs::Texts::decimal_parses))]
fn read_digits(text: &str) -> Option<u64>
    ensures some { IfSome result (λ number. text.now ≡ decimal number) }
    ensures none { IfNone result ((number : ℕ) → number < 2 ^ 64
        → text.now ≢ decimal number) }
{
    let Ok(number) = text.parse::<u64>() else {
        return None;
    };
    let mut digits = Buffer::new();
    if digits.format(number) == text {
        Some(number)
    } else {
        None
    }
}

/// The same of bytes.
pub(crate) fn read_size(bytes: &[u8]) -> Option<u64>
    ensures some { IfSome result (λ number. bytes.now ≡ decimal number) }
    ensures none { IfNone result ((number : ℕ) → number < 2 ^ 64
        → bytes.now ≢ decimal number) }
{
    let Some(text) = text_of(bytes) else {
        return None;
    };
    match read_digits(text) {
        Some(number) => Some(number),
        None => None,
    }
}
