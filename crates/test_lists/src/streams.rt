//! A writer and a reader that fail.

use std::alloc::Global;
use std::io::{Error, ErrorKind, Read, Result as IoResult, Write};

/// Takes seven bytes a call at most, and fails once it has taken as many as it has room for.
#[derive(Drop)]
pub struct Narrow {
    /// What it has taken.
    pub taken: Vec<u8>,
    room: usize,
}

impl Narrow {
    /// With room for so many bytes.
    pub fn new(alloc: Global, room: usize) -> Narrow {
        Narrow {
            taken: Vec::new(alloc),
            room,
        }
    }
}

impl Write for Narrow {
    fn write(&mut self, buf: &[u8]) -> IoResult<usize> {
        let left = self.room.saturating_sub(self.taken.len());
        let taking = left.min(buf.len()).min(7);
        if taking == 0 {
            return Err(Error::from(ErrorKind::BrokenPipe));
        }
        if self.taken.extend_from_slice(&buf[..taking]).is_err() {
            return Err(Error::from(ErrorKind::OutOfMemory));
        }
        Ok(taking)
    }

    fn flush(&mut self) -> IoResult<()> {
        Ok(())
    }
}

/// Gives its bytes one by one, and then fails.
#[derive(Drop)]
pub struct Failing<'a> {
    text: &'a [u8],
    at: usize,
}

impl<'a> Failing<'a> {
    /// Over these bytes.
    pub fn new(text: &'a [u8]) -> Failing<'a> {
        Failing { text, at: 0 }
    }
}

impl<'a> Read for Failing<'a> {
    fn read(&mut self, buf: &mut [u8]) -> IoResult<usize> {
        match (self.text.get(self.at), buf.first_mut()) {
            (Some(byte), Some(place)) => {
                *place = *byte;
                self.at = self.at.saturating_add(1);
                Ok(1)
            }
            _ => Err(Error::from(ErrorKind::BrokenPipe)),
        }
    }
}
