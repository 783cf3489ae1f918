//! What a command reads at a desk: the standard input of the body that asks it, or a file that was left in the folder
//! since it is too long for a body.
use command_desk::words::Asked;
use command_folder::endings::FAILED;
use program_words::kinds::is_bringing;
use program_words::names::{Unnamed, end_told};
use std::fs::{self, File};
use std::io::{self, Read};

/// What the name of such a file begins with.
const FRONT: &str = "sheetdesk.input-";

/// What a command reads.
#[derive(Drop)]
pub(crate) enum Heard<'b> {
    /// What stood in the body.
    Body(&'b [u8]),
    /// A file, whose name is gone.
    File(File),
}

impl<'b> Heard<'b> {
    /// What stood in the body.
    pub(crate) fn bytes(&self) -> &'b [u8] {
        match self {
            Heard::Body(bytes) => bytes,
            Heard::File(_) => b"",
        }
    }

    /// Whether a command of this name can read it.
    pub(crate) fn is_for(&self, name: &str) -> bool {
        match self {
            Heard::Body(_) => true,
            Heard::File(_) => is_bringing(name),
        }
    }
}

impl<'b> Read for Heard<'b> {
    fn read(&mut self, buf: &mut [u8]) -> io::Result<usize> {
        match self {
            Heard::Body(bytes) => bytes.read(buf),
            Heard::File(file) => file.read(buf),
        }
    }
}

/// The words of a command, and what it reads.
#[derive(Drop)]
pub(crate) struct Command<'b> {
    pub(crate) words: &'b [&'b str],
    pub(crate) heard: Heard<'b>,
}

/// Whether a byte may stand in the name of a file that was left, behind its beginning.
fn is_name_byte(byte: u8) -> bool {
    byte.is_ascii_alphanumeric() || byte == b'-' || byte == b'.'
}

/// Whether a word is the name of a file that was left. So it names no other file, nor one of another folder.
fn is_left_name(word: &str) -> bool {
    match word.strip_prefix(FRONT) {
        Some(rest) => rest.as_bytes().iter().all(|byte| is_name_byte(*byte)),
        None => false,
    }
}

/// Opens a file that was left in a folder. Its name goes at once, and what it holds goes when it was read.
///
/// # Errors
///
/// Those of the folder, or want of memory.
fn open_left(rt: &HostRuntime, folder: &str, name: &str) -> io::Result<File> {
    let path = format!(in rt.alloc(); "{folder}/{name}")?;
    let file = File::open(rt, path.as_str())?;
    fs::remove_file(rt, path.as_str())?;
    Ok(file)
}

/// The same, or what is told where it is not to be had.
fn hear_left<'b>(rt: &HostRuntime, folder: &str, name: &str) -> Result<Heard<'b>, Unnamed> {
    match open_left(rt, folder, name) {
        Ok(file) => Ok(Heard::File(file)),
        Err(error) => {
            let text = format!(in rt.alloc(); "error: {folder}/{name}: {error}\n");
            Err(end_told(rt, FAILED, text))
        }
    }
}

/// The command that is asked, and what it reads: words behind `from` and a name read the file of that name. None where
/// the name is that of no file that was left.
pub(crate) fn command_of<'b>(
    rt: &HostRuntime,
    folder: &str,
    asked: &'b Asked<'b>,
) -> Option<Result<Command<'b>, Unnamed>> {
    let words = asked.words.as_slice();
    if words.len() < 2 || words[0] != "from" {
        let heard = Heard::Body(asked.input);
        return Some(Ok(Command { words, heard }));
    }
    if !is_left_name(words[1]) {
        return None;
    }
    Some(match hear_left(rt, folder, words[1]) {
        Ok(heard) => Ok(Command {
            words: &words[2..],
            heard,
        }),
        Err(why) => Err(why),
    })
}
