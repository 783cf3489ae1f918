//! A connection that ends at a moment, however slowly its other side goes on.
ghost use Rattle.std.specs.Io.{ReadsAtMost};

use crate::fronts::Front;
use arrayvec::ArrayVec;
use std::io::{self, ErrorKind, Read, Write};
use std::net::TcpStream;
use std::rt::Clock;
use std::time::{Duration, Instant};

/// How long a connection may take in all, in seconds.
pub const PATIENCE: u64 = 20;

/// How many bytes can be looked at before they are read.
const MOST_AHEAD: usize = 16;

/// The stream of a connection, with the time that is left for it and the front of what went through.
#[derive(Drop)]
pub struct Timed<'a, C: Clock> {
    stream: &'a TcpStream,
    clock: &'a C,
    begun: Instant,
    front: Front,
    // What was looked at, and how much of it was read since.
    ahead: ArrayVec<u8, MOST_AHEAD>,
    given: usize,
    // Each write has the whole time anew.
    is_renewed: bool,
}

impl<'a, C: Clock> Timed<'a, C> {
    /// A stream whose connection began at this moment.
    pub fn new(stream: &'a TcpStream, clock: &'a C, begun: Instant) -> Timed<'a, C> {
        Timed {
            stream,
            clock,
            begun,
            front: Front::new(),
            ahead: ArrayVec::new(),
            given: 0,
            is_renewed: false,
        }
    }

    /// Gives each write the whole time anew, so that a long answer goes on as long as the other side takes it.
    pub(crate) fn renew_each(&mut self) {
        self.is_renewed = true;
    }

    /// Whether what comes begins so. What was looked at is read again by whoever reads next.
    pub(crate) fn begins_with(&mut self, front: &[u8]) -> bool {
        for _piece in 0..MOST_AHEAD {
            let had = self.ahead.len();
            if had >= front.len() || !front.starts_with(self.ahead.as_slice()) {
                break;
            }
            if !self.look_on(front.len() - had) {
                break;
            }
        }
        self.ahead.as_slice() == front
    }

    /// Looks at some bytes more. Answers whether any came.
    fn look_on(&mut self, most: usize) -> bool {
        let mut piece = [0u8; 16];
        let room = most.min(MOST_AHEAD);
        match self.take_some(&mut piece[..room]) {
            Ok(count) => {
                for byte in &piece[..count] {
                    let _full = self.ahead.try_push(*byte);
                }
                count > 0
            }
            Err(_) => false,
        }
    }

    /// Takes bytes from the stream.
    fn take_some(&mut self, buf: &mut [u8]) -> io::Result<usize>
        ensures { ReadsAtMost result buf.new }
    {
        let left = self.time_left()?;
        let mut stream = self.stream;
        stream.set_read_timeout(Some(left))?;
        let count = stream.read(buf)?;
        self.front.keep(&buf[..count]);
        Ok(count)
    }

    /// The first bytes that were read, or written.
    pub(crate) fn front(&self) -> &[u8] {
        self.front.bytes()
    }

    /// How long the connection may still take, more than nothing.
    ///
    /// # Errors
    ///
    /// `TimedOut` where its time is over; a clock that fails.
    fn time_left(&self) -> io::Result<Duration> {
        let gone = self.begun.elapsed(self.clock)?;
        match Duration::from_secs(PATIENCE).checked_sub(gone) {
            Some(left) if !left.is_zero() => Ok(left),
            _ => Err(io::Error::from(ErrorKind::TimedOut)),
        }
    }
}

impl<'a, C: Clock> Read for Timed<'a, C> {
    fn read(&mut self, buf: &mut [u8]) -> io::Result<usize> {
        let ahead = self.ahead.as_slice();
        if self.given < ahead.len() {
            let mut rest = &ahead[self.given..];
            let count = rest.read(buf)?;
            self.given = self.given.saturating_add(count);
            return Ok(count);
        }
        let count = self.take_some(buf)?;
        Ok(count)
    }
}

impl<'a, C: Clock> Write for Timed<'a, C> {
    fn write(&mut self, buf: &[u8]) -> io::Result<usize> {
        if self.is_renewed {
            self.begun = Instant::now(self.clock)?;
        }
        let left = self.time_left()?;
        let mut stream = self.stream;
        stream.set_write_timeout(Some(left))?;
        let count = stream.write(buf)?;
        self.front.keep(&buf[..count]);
        Ok(count)
    }

    fn flush(&mut self) -> io::Result<()> {
        let mut stream = self.stream;
        stream.flush()
    }
}
