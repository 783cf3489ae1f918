//! The bytes by which a command is asked for.
ghost use Rattle.std.specs.Prelude.{◌≡◌, ◌++◌, ℕ, List, length, IfOk, OnOk, decimal};
ghost use Rattle.desk_asking.specs.Requests.{body_text, counted, head_text, key_text, request_text, size_text};
ghost use Rattle.desk_asking.specs.Requests.{start_text, word_text};

use crate::desks::DeskAt;
use itoa::Buffer;
use std::alloc::{AllocError, Global};

/// Puts a number in decimal.
fn put_number(text: &mut Vec<u8>, number: usize) -> Result<(), AllocError>
    ensures { IfOk result (λ _. text.new.items ≡ text.old.items ++ decimal number) }
{
    let mut digits = Buffer::new();
    text.extend_from_slice(digits.format(number as u64).as_bytes())
}

/// Puts some bytes behind their number.
fn put_counted(text: &mut Vec<u8>, bytes: &[u8]) -> Result<(), AllocError>
    ensures { IfOk result (λ _. text.new.items ≡ text.old.items ++ counted bytes.now) }
{
    put_number(&mut *text, bytes.len())?;
    text.extend_from_slice(b"\n")?;
    text.extend_from_slice(bytes)
}

/// Puts a word.
fn put_word(text: &mut Vec<u8>, word: &String) -> Result<(), AllocError>
    ensures { IfOk result (λ _. text.new.items ≡ text.old.items ++ word_text word.now) }
{
    put_counted(&mut *text, word.as_bytes())?;
    text.extend_from_slice(b"\n")
}

/// The body that asks for the command of these words, with what standard input has. The words are those of a command
/// line behind the program's name.
///
/// # Errors
///
/// Want of memory.
pub fn body_of(alloc: Global, words: &[String], input: &[u8]) -> Result<Vec<u8>, AllocError>
    ensures { IfOk result (λ body. body.items ≡ body_text words.now input.now) }
{
    let mut text = Vec::new(alloc);
    put_number(&mut text, words.len())?;
    text.extend_from_slice(b"\n")?;
    'words: for word in words {
        put_word(&mut text, word)?;
    }
    put_counted(&mut text, input)?;
    Ok(text)
}

/// Puts what a head begins with, up to the port.
fn put_start(text: &mut Vec<u8>, port: u16) -> Result<(), AllocError>
    ensures { OnOk result (text.new.items ≡ text.old.items ++ start_text port) }
{
    text.extend_from_slice(b"POST /commands HTTP/1.1\r\nHost: 127.0.0.1:")?;
    put_number(&mut *text, port as usize)?;
    Ok(())
}

/// Puts the key.
fn put_key(text: &mut Vec<u8>, key: &[u8]) -> Result<(), AllocError>
    ensures { OnOk result (text.new.items ≡ text.old.items ++ key_text key.now) }
{
    text.extend_from_slice(b"\r\nSheetdesk-Key: ")?;
    text.extend_from_slice(key)?;
    Ok(())
}

/// Puts how many bytes the body has, and the end of the head.
fn put_size(text: &mut Vec<u8>, size: usize) -> Result<(), AllocError>
    ensures { OnOk result (text.new.items ≡ text.old.items ++ size_text size) }
{
    text.extend_from_slice(b"\r\nContent-Length: ")?;
    put_number(&mut *text, size)?;
    text.extend_from_slice(b"\r\n\r\n")?;
    Ok(())
}

/// Puts the head of a request whose body has so many bytes.
fn put_head(text: &mut Vec<u8>, desk: &DeskAt<'_>, size: usize) -> Result<(), AllocError>
    ensures { OnOk result (text.new.items
        ≡ text.old.items ++ head_text desk.now.port desk.now.key.now size) }
{
    put_start(&mut *text, desk.port)?;
    put_key(&mut *text, desk.key)?;
    put_size(&mut *text, size)?;
    Ok(())
}

/// The request that asks a desk to carry out the command of these words, with what standard input has. The words are
/// those of a command line behind the program's name.
///
/// # Errors
///
/// Want of memory.
pub fn request_for(
    alloc: Global,
    desk: &DeskAt<'_>,
    words: &[String],
    input: &[u8],
) -> Result<Vec<u8>, AllocError>
    ensures { IfOk result (λ text. text.items
        ≡ request_text desk.now.port desk.now.key.now words.now input.now) }
{
    let body = body_of(alloc, words, input)?;
    let mut text = Vec::new(alloc);
    put_head(&mut text, desk, body.len())?;
    text.extend_from_slice(body.as_slice())?;
    Ok(text)
}
