//! Where a desk listens and the word that it knows its askers by, as a text that its folder holds.
ghost use Rattle.std.specs.Prelude.{◌≡◌, ◌≢◌, ◌<◌, ◌^◌, ◌∷◌, ◌++◌, [], ℕ, List};
ghost use Rattle.std.specs.Prelude.{length, IfOk, IfSome, IfNone, true};
ghost use Rattle.std.specs.Prelude.{string_bytes, decimal};
ghost use Rattle.std.specs.List.{list_all};
ghost use Rattle.desk_asking.specs.Desks.{desk_text, is_key, is_key_digit};

use crate::reading::read_size;
use std::alloc::{AllocError, Global};

/// Where a desk listens, and the key of those who may ask it.
#[derive(Clone, Copy, Debug, PartialEq, Eq)]
pub struct DeskAt<'t> {
    /// The port of 127.0.0.1.
    pub port: u16,
    /// 32 hexadecimal digits, letters in lower case.
    pub key: &'t [u8],
}

/// The text that says where a desk listens.
///
/// # Errors
///
/// Want of memory.
pub fn desk_text(alloc: Global, port: u16, key: &str) -> Result<String, AllocError>
    ensures { IfOk result (λ text. string_bytes text ≡ desk_text port key.now) }
{
    format!(in alloc; "{port} {key}\n")
}

/// Whether a byte may stand in a key.
fn is_key_digit(byte: u8) -> bool
    ensures { result ≡ is_key_digit byte }
{
    byte >= b'0' && byte <= b'9' || byte >= b'a' && byte <= b'f'
}

/// Whether all bytes of a text may stand in a key.
fn are_key_digits(text: &[u8]) -> bool
    ensures { result ≡ list_all is_key_digit text.now }
{
    text.iter().all(|byte| is_key_digit(*byte))
}

/// Whether a text is a key.
pub fn is_key(text: &[u8]) -> bool
    ensures { result ≡ is_key text.now }
{
    text.len() == 32 && are_key_digits(text)
}

/// What stands before a last byte, where that is this one.
#[tactic(auto, using(crate::proofs::Texts::last_of, crate::proofs::Texts::has_last))]
fn before_end(text: &[u8], end: u8) -> Option<&[u8]>
    ensures some { IfSome result (λ front. text.now ≡ front.now ++ end ∷ []) }
    ensures none { IfNone result ((front : List ℕ) → text.now ≢ front ++ end ∷ []) }
{
    match text.split_last() {
        Some((last, front)) => if *last == end { Some(front) } else { None },
        None => None,
    }
}

/// The port of a text in plain decimal.
#[tactic(auto, using(std::proofs::lemmas::Fmt::decimal_injective))]
fn port_of(text: &[u8]) -> Option<u16>
    ensures some { IfSome result (λ port. text.now ≡ decimal port) }
    ensures none { IfNone result ((port : ℕ) → port < 2 ^ 16 → text.now ≢ decimal port) }
{
    let Some(number) = read_size(text) else {
        return None;
    };
    if number > 65535 {
        return None;
    }
    Some(number as u16)
}

/// What stands before a space, where a port does, and a key.
fn desk_of<'t>(front: &[u8], key: &'t [u8]) -> Option<DeskAt<'t>>
    ensures some { IfSome result (λ desk. (front.now ≡ decimal desk.port ++ 32 ∷ [])
        × (desk.key.now ≡ key.now) × (is_key key.now ≡ true)) }
    ensures none { IfNone result ((port : ℕ) → port < 2 ^ 16 → is_key key.now ≡ true
        → front.now ≢ decimal port ++ 32 ∷ []) }
{
    if !is_key(key) {
        return None;
    }
    let Some(digits) = before_end(front, b' ') else {
        return None;
    };
    match port_of(digits) {
        Some(port) => Some(DeskAt { port, key }),
        None => None,
    }
}

/// What a text says of where a desk listens; `None` of any text that `desk_text` does not write.
pub fn read_desk(text: &[u8]) -> Option<DeskAt<'_>>
    ensures some { IfSome result (λ desk. (text.now ≡ desk_text desk.port desk.key.now)
        × (is_key desk.key.now ≡ true)) }
    ensures none { IfNone result ((port : ℕ) (key : List ℕ) → port < 2 ^ 16
        → is_key key ≡ true → text.now ≢ desk_text port key) }
{
    let Some(line) = before_end(text, b'\n') else {
        return None;
    };
    if line.len() < 32 {
        return None;
    }
    let (front, key) = line.split_at(line.len() - 32);
    match desk_of(front, key) {
        Some(desk) => Some(desk),
        None => None,
    }
}
