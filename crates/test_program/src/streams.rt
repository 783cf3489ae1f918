// Streams that the tests give: a reader that may fail at its end, a writer that had been written to before, and who
// is told how far an import is.
ghost use Rattle.std.specs.Prelude.{None};

use desk_http::telling::DeskTeller;
use manifest_csv::progress::Teller;
use package_tables::fault::Fault;
use sha2::{Digest, Sha256};
use sheet_types::receipt::Receipt;
use sheet_types::refusal::Refusal;
use std::alloc::{AllocError, Global};
use std::io::{Error, ErrorKind, Read, Result as IoResult};
use std::str::from_utf8;
use test_lists::Narrow;

// How a reader gives a text: whole, or this many bytes at most, one by one, and then it fails.
#[derive(Clone, Copy)]
pub(crate) enum Reads {
    Whole,
    Fails(usize),
}

#[derive(Drop)]
pub(crate) struct Giving<'a> {
    text: &'a [u8],
    fails: bool,
}

impl<'a> Giving<'a> {
    pub(crate) fn new(text: &'a str, reads: Reads) -> Giving<'a> {
        let text = text.as_bytes();
        match reads {
            Reads::Whole => Giving { text, fails: false },
            Reads::Fails(most) => Giving {
                text: &text[..text.len().min(most)],
                fails: true,
            },
        }
    }
}

impl<'a> Read for Giving<'a> {
    fn read(&mut self, buf: &mut [u8]) -> IoResult<usize> {
        if !self.fails {
            return self.text.read(buf);
        }
        if self.text.is_empty() {
            return Err(Error::from(ErrorKind::BrokenPipe));
        }
        let taking = buf.len().min(1);
        buf[..taking].copy_from_slice(&self.text[..taking]);
        self.text = &self.text[taking..];
        Ok(taking)
    }
}

// Room for all that a test writes.
pub(crate) const WHOLE: usize = 1_000_000;

// A writer with room for so many bytes behind one that it was given before.
pub(crate) fn paper(alloc: Global, room: usize) -> Result<Narrow, AllocError> {
    let mut out = Narrow::new(alloc, room.saturating_add(1));
    out.taken.push(b'>')?;
    Ok(out)
}

// Room for more than the hexadecimal of 16 MiB.
pub(crate) const GREAT: usize = 40_000_000;

// What was written: all of a text, so many bytes of one, what begins and ends in two, or so many bytes of this SHA-256.
#[derive(Clone, Copy)]
pub(crate) enum Wrote {
    All(&'static str),
    Front(&'static str, usize),
    Ends(&'static str, &'static str),
    Sha256(usize, &'static str),
}

pub(crate) const NOTHING: Wrote = Wrote::All("");

// The SHA-256 of bytes, in hexadecimal.
fn sha256_of(alloc: Global, bytes: &[u8]) -> Result<String, AllocError> {
    let mut hasher = Sha256::new();
    hasher.update(bytes);
    let digest = hasher.finalize();
    hex::encode(alloc, digest.as_slice())
}

fn is_digest(alloc: Global, bytes: &[u8], text: &str) -> bool {
    match sha256_of(alloc, bytes) {
        Ok(digest) => digest.as_str() == text,
        Err(_) => false,
    }
}

pub(crate) fn is_wrote(alloc: Global, out: &[u8], wrote: Wrote) -> bool {
    match wrote {
        Wrote::All(text) => out == text.as_bytes(),
        Wrote::Front(text, count) => out.len() == count && text.as_bytes().starts_with(out),
        Wrote::Ends(front, back) => {
            out.starts_with(front.as_bytes()) && out.ends_with(back.as_bytes())
        }
        Wrote::Sha256(length, digest) => out.len() == length && is_digest(alloc, out, digest),
    }
}

// How it ended; where something else was written, that too.
pub(crate) fn judged(
    alloc: Global,
    ended: String,
    out: &[u8],
    wrote: Wrote,
) -> Result<String, Fault> {
    if is_wrote(alloc, out, wrote) {
        return Ok(ended);
    }
    if let Wrote::Sha256(_, _) = wrote {
        return Ok(format!(in alloc; "{} and wrote {} bytes", ended.as_str(), out.len())?);
    }
    let text = from_utf8(out).unwrap_or("no text");
    Ok(format!(in alloc; "{} and wrote {text}", ended.as_str())?)
}

// The same of what was written on a paper.
pub(crate) fn judged_paper(
    alloc: Global,
    ended: String,
    out: &Narrow,
    wrote: Wrote,
) -> Result<String, Fault> {
    match out.taken.as_slice().split_first() {
        Some((b'>', written)) => judged(alloc, ended, written, wrote),
        _ => Ok(String::from_str(alloc, "what was written before is gone")?),
    }
}

// Notes what it is told.
#[derive(Drop)]
pub(crate) struct Noted {
    pub(crate) told: Vec<(u64, u64)>,
}

impl Teller for Noted {
    ghost told = { λ _. None };

    fn tell(&mut self, done: u64, all: u64, _reply: &Result<Receipt, Refusal>) {
        // Where there is no memory, the test finds less than it wants.
        let _noted = self.told.push((done, all));
    }
}

// Notes what it is told of a desk, a line each.
#[derive(Drop)]
pub(crate) struct DeskNotes {
    pub(crate) alloc: Global,
    pub(crate) text: Vec<u8>,
}

impl DeskNotes {
    pub(crate) fn new(alloc: Global) -> DeskNotes {
        DeskNotes {
            alloc,
            text: Vec::new(alloc),
        }
    }

    fn note(&mut self, first: &[u8], second: &[u8]) {
        for piece in [first, b" ", second, b"\n"] {
            // Where there is no memory, the test finds less than it wants.
            let _noted = self.text.extend_from_slice(piece);
        }
    }
}

impl Teller for DeskNotes {
    ghost told = { λ _. None };

    fn tell(&mut self, _done: u64, _all: u64, _reply: &Result<Receipt, Refusal>) {}
}

impl DeskTeller for DeskNotes {
    fn tell_port(&mut self, _port: u16) {
        self.note(b"port", b"told");
    }

    fn tell_exchange(&mut self, line: &[u8], status: &[u8]) {
        self.note(line, status);
    }
}
