//! The body in which a command is asked: its words, each with its length before it, and its standard input.
use sheet_types::reading::read_number;
use std::alloc::{AllocError, Global};
use std::str::from_utf8;

/// The most bytes of a word or of a standard input.
const MOST_BYTES: i64 = 4_194_304;

/// The most words of a command.
const MOST_WORDS: usize = 100;

/// A command as it is asked.
#[derive(Drop)]
pub struct Asked<'b> {
    /// The words of the command line, without the program's name.
    pub words: Vec<&'b str>,
    /// What stands on standard input.
    pub input: &'b [u8],
}

/// The number on the first line of a text, and what stands behind that line.
fn number_line<'b>(text: &'b [u8]) -> Option<(usize, &'b [u8])> {
    let end = text.iter().position(|byte| *byte == b'\n')?;
    let Ok(digits) = from_utf8(&text[..end]) else {
        return None;
    };
    let number = read_number(digits)?;
    if number < 0 || number > MOST_BYTES {
        return None;
    }
    Some((number as usize, &text[end + 1..]))
}

/// The first word of a text, and what stands behind its line.
fn word_line<'b>(text: &'b [u8]) -> Option<(&'b str, &'b [u8])> {
    let (size, rest) = number_line(text)?;
    if size >= rest.len() {
        return None;
    }
    let Ok(word) = from_utf8(&rest[..size]) else {
        return None;
    };
    if rest[size] != b'\n' {
        return None;
    }
    Some((word, &rest[size + 1..]))
}

/// So many words, and what stands behind them.
///
/// # Errors
///
/// Want of memory.
fn read_words<'b>(
    alloc: Global,
    count: usize,
    text: &'b [u8],
) -> Result<Option<(Vec<&'b str>, &'b [u8])>, AllocError> {
    let mut words = Vec::new(alloc);
    let mut rest = text;
    for _turn in 0..count {
        let Some((word, behind)) = word_line(rest) else {
            return Ok(None);
        };
        words.push(word)?;
        rest = behind;
    }
    Ok(Some((words, rest)))
}

/// The command that a body asks; none where it is no such body.
///
/// # Errors
///
/// Want of memory.
pub fn read_asked<'b>(alloc: Global, body: &'b [u8]) -> Result<Option<Asked<'b>>, AllocError> {
    let Some((count, rest)) = number_line(body) else {
        return Ok(None);
    };
    if count > MOST_WORDS {
        return Ok(None);
    }
    let Some((words, rest)) = read_words(alloc, count, rest)? else {
        return Ok(None);
    };
    let Some((size, input)) = number_line(rest) else {
        return Ok(None);
    };
    if size != input.len() {
        return Ok(None);
    }
    Ok(Some(Asked { words, input }))
}
