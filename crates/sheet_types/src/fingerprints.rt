//! The digests of contents, and their texts (FIPS 180-4, 6.2).
ghost use Rattle.std.specs.Prelude.{◌≡◌, ◌≢◌, ◌++◌, ◌∷◌, [], List, ℕ, Some, IfSome, IfNone};
ghost use Rattle.std.specs.Prelude.{length};
ghost use Rattle.std.specs.Fmt.{signed_decimal};
ghost use Rattle.sha2.specs.Hashers.{Holds256};
ghost use Rattle.sha2.specs.Sha256.{sha256};
ghost use Rattle.hex.specs.Hex.{encode_lower};
ghost use Rattle.sheet_types.specs.Reading.{IsDigest, digit_value};
ghost use Rattle.sheet_types.specs.Texts.{fingerprint, spaced};

use crate::command::Content;
use itoa::Buffer;
use sha2::{Digest, Sha256};
use std::fmt;

// Hashes a number after a space.
fn add_number(hasher: &mut Sha256, number: i64)
    ensures { (m : List ℕ) → Holds256 hasher.old m → Holds256 hasher.new (m ++ (32 ∷ signed_decimal number)) }
{
    let mut digits = Buffer::new();
    hasher.update(" ");
    hasher.update(digits.format(number));
}

// Begins with a first line of a word and three numbers.
fn begin_line(word: &str, a: i64, b: i64, c: i64) -> Sha256
    ensures { Holds256 result (spaced (word.now ∷ signed_decimal a ∷ signed_decimal b ∷ signed_decimal c
        ∷ [])) }
{
    let mut hasher = Sha256::new();
    hasher.update(word);
    add_number(&mut hasher, a);
    add_number(&mut hasher, b);
    add_number(&mut hasher, c);
    hasher
}

// Ends the first line, and hashes the data.
fn end_with(mut hasher: Sha256, rest: &[u8]) -> [u8; 32]
    ensures { (m : List ℕ) → Holds256 hasher m → result ≡ sha256 (m ++ (10 ∷ rest.now)) }
{
    hasher.update("\n");
    hasher.update(rest);
    hasher.finalize()
}

/// The SHA-256 (FIPS 180-4, 6.2) of a content's first line and data. They are hashed in pieces, and not copied.
pub fn fingerprint(content: &Content) -> [u8; 32]
    ensures { result ≡ fingerprint content.now }
{
    match content {
        Content::Tile {
            zoom,
            column,
            row,
            bytes,
        } => end_with(begin_line("tile", *zoom, *column, *row), bytes.as_slice()),
        Content::Media {
            content_type,
            bytes,
        } => {
            let mut hasher = Sha256::new();
            hasher.update("media ");
            hasher.update(content_type.as_str());
            end_with(hasher, bytes.as_slice())
        }
        Content::Row { x, y, code, label } => {
            end_with(begin_line("row", *x, *y, *code), label.as_str().as_bytes())
        }
    }
}

/// A digest that prints as its 64 hexadecimal digits in lower case.
#[derive(Clone, Copy, PartialEq, Eq)]
pub struct Spelled(pub [u8; 32]);

impl fmt::Display for Spelled {
    ghost output = { λ digest. Some (encode_lower digest.0) };

    fn fmt<W: fmt::Write>(&self, f: &mut fmt::Formatter<W>) -> fmt::Result {
        let mut buffer = [0; 64];
        f.write_str(spell(&self.0, &mut buffer))
    }
}

/// The 64 hexadecimal digits of a digest in lower case, written into a buffer.
pub fn spell<'b>(digest: &[u8; 32], buffer: &'b mut [u8; 64]) -> &'b str
    ensures { result.now ≡ encode_lower digest.now }
{
    hex::encode_to_slice(digest, buffer).unwrap();
    match str::from_utf8(buffer) {
        Ok(text) => text,
        Err(_) => unreachable!(),
    }
}

// The value of a lower-case hexadecimal digit, told without a branch; some number below 16 of any other byte.
fn digit_value(digit: u8) -> u8
    ensures { result ≡ digit_value digit }
{
    (digit % 16 + 9 * (digit / 64)) % 16
}

// The digest that 64 digits spell; some bytes where they spell none. Digits of a digest come at
// random, so a branch on each would be guessed wrong half the time.
fn decode(text: &[u8]) -> [u8; 32]
    requires { length text.now ≡ 64 }
    ensures { (digest : List ℕ) → IsDigest digest → text.now ≡ encode_lower digest → result ≡ digest }
{
    let mut digest = [0; 32];
    for place in 0..32 {
        digest[place] = digit_value(text[2 * place]) * 16 + digit_value(text[2 * place + 1]);
    }
    digest
}

/// The digest that a text of exactly 64 lower-case hexadecimal digits spells.
pub fn read_fingerprint(text: &str) -> Option<[u8; 32]>
    ensures some { IfSome result (λ digest. text.now ≡ encode_lower digest) }
    ensures none { IfNone result ((digest : List ℕ) → IsDigest digest → text.now ≢ encode_lower digest) }
{
    if text.len() != 64 {
        return None;
    }
    let digest = decode(text.as_bytes());
    let mut buffer = [0; 64];
    if spell(&digest, &mut buffer) == text {
        Some(digest)
    } else {
        None
    }
}
