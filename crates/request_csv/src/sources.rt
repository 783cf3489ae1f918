//! Where the bytes of a list come from, and whether that can fail.
ghost use Rattle.std.specs.Prelude.{◌≡◌, false, ⊤};

use std::io::{Read, Result as IoResult};

/// What the bytes of a list come from.
pub trait ListSource: Read {
    /// Nothing that is read of it fails.
    ghost never_fails: { Type 0 };

    /// Whether what is read of it may fail.
    fn may_fail() -> bool
        ensures { never_fails → result ≡ false };
}

impl<'a> ListSource for &'a [u8] {
    ghost never_fails = { ⊤ };

    fn may_fail() -> bool
        ensures { ⊤ → result ≡ false }
    {
        false
    }
}

/// Any reader, which may fail.
#[derive(Drop)]
pub struct Stream<R>(pub R);

impl<R: Read> Read for Stream<R> {
    ghost remaining = { λ s. R.remaining s.0 };

    fn read(&mut self, buf: &mut [u8]) -> IoResult<usize> {
        self.0.read(buf)
    }
}

impl<R: Read> ListSource for Stream<R> {
    ghost never_fails = { ⊥ };

    fn may_fail() -> bool
        ensures { ⊥ → result ≡ false }
    {
        true
    }
}
