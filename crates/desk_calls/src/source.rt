//! Where the bytes of a request come from, and whether that can fail.
ghost use Rattle.std.specs.Prelude.{List, ℕ, Option, Some, IsOk, ⊤};
ghost use Rattle.std.specs.Io.KnownBytes.{ReadConsumes};
ghost use Rattle.std.specs.Io.{ReadsAtMost};

use std::io::{ErrorKind, Read};

/// Why bytes were not taken.
#[derive(Clone, Copy, Debug, PartialEq, Eq)]
pub enum SourceFault {
    /// The reader was interrupted, and may be asked again.
    Interrupted,
    /// The reader failed.
    Failed,
}

/// What bytes come from.
pub trait Source {
    // The bytes that come from here on, where they are known.
    ghost remaining: { Self → Option (List ℕ) };
    // Nothing that is taken fails.
    ghost never_fails: { Self → Type 0 };

    /// Takes some of the next bytes; none only at the end, or for no room.
    fn take(&mut self, buf: &mut [u8]) -> Result<usize, SourceFault>
        ensures bound { ReadsAtMost result buf.new }
        ensures bytes { ReadConsumes (remaining self.old) (remaining self.new) result buf.new }
        ensures sound { never_fails self.old → IsOk result }
        ensures keeps { never_fails self.old → never_fails self.new };
}

/// Bytes in memory, which never fail.
#[derive(Drop)]
pub struct Memory<'a>(pub &'a [u8]);

impl<'a> Source for Memory<'a> {
    ghost remaining = { λ s. Some s.0.now };

    ghost never_fails = { λ _. ⊤ };

    fn take(&mut self, buf: &mut [u8]) -> Result<usize, SourceFault> {
        match self.0.read(buf) {
            Ok(taken) => Ok(taken),
            Err(_) => Err(SourceFault::Failed),
        }
    }
}

/// Any reader.
#[derive(Drop)]
pub struct Outer<R>(pub R);

impl<R: Read> Source for Outer<R> {
    ghost remaining = { λ s. R.remaining s.0 };

    ghost never_fails = { λ _. ⊥ };

    fn take(&mut self, buf: &mut [u8]) -> Result<usize, SourceFault> {
        match self.0.read(buf) {
            Ok(taken) => Ok(taken),
            Err(fault) => {
                if fault.kind() == ErrorKind::Interrupted {
                    Err(SourceFault::Interrupted)
                } else {
                    Err(SourceFault::Failed)
                }
            }
        }
    }
}
