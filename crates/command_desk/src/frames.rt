//! The frames in which a command is answered: what goes to standard output and to standard error, and the exit status.
use manifest_csv::sending::send;
use std::alloc::Global;
use std::io::{ErrorKind, Result, Write};

/// How many bytes of standard output are kept before they go out.
const MOST_KEPT: usize = 32_768;

/// Writes bytes whole.
fn send_whole<W: Write>(writer: &mut W, bytes: &[u8]) -> Result<()> {
    match send(writer, bytes) {
        Ok(()) => Ok(()),
        Err(_) => Err(ErrorKind::BrokenPipe.into()),
    }
}

/// Writes a frame of a kind.
fn send_frame<W: Write>(alloc: Global, writer: &mut W, kind: u8, bytes: &[u8]) -> Result<()> {
    let size = bytes.len();
    let head = format!(in alloc; "{kind} {size}\n")?;
    send_whole(writer, head.as_bytes())?;
    send_whole(writer, bytes)
}

/// Writes standard output as frames. What is told of standard error goes out behind what was written before.
#[derive(Drop)]
pub struct Frames<W> {
    writer: W,
    alloc: Global,
    kept: Vec<u8>,
}

impl<W: Write> Frames<W> {
    /// An answer of which nothing went out yet.
    pub fn new(alloc: Global, writer: W) -> Frames<W> {
        Frames {
            writer,
            alloc,
            kept: Vec::new(alloc),
        }
    }

    /// Writes what was kept.
    fn send_kept(&mut self) -> Result<()> {
        if self.kept.is_empty() {
            return Ok(());
        }
        send_frame(self.alloc, &mut self.writer, 1, self.kept.as_slice())?;
        self.kept.clear();
        Ok(())
    }

    /// Tells standard error a text.
    ///
    /// # Errors
    ///
    /// The writer's, or want of memory.
    pub fn tell_error(&mut self, text: &str) -> Result<()> {
        if text.is_empty() {
            return Ok(());
        }
        self.send_kept()?;
        send_frame(self.alloc, &mut self.writer, 2, text.as_bytes())
    }

    /// Ends the answer with the exit status.
    ///
    /// # Errors
    ///
    /// The writer's, or want of memory.
    pub fn end(&mut self, status: u8) -> Result<()> {
        self.send_kept()?;
        let last = format!(in self.alloc; "0 {status}\n")?;
        send_whole(&mut self.writer, last.as_bytes())
    }

    /// Says that the command is not carried out here.
    ///
    /// # Errors
    ///
    /// The writer's.
    pub fn pass_on(&mut self) -> Result<()> {
        send_whole(&mut self.writer, b"3 0\n")
    }
}

impl<W: Write> Write for Frames<W> {
    fn write(&mut self, buf: &[u8]) -> Result<usize> {
        self.kept.extend_from_slice(buf)?;
        if self.kept.len() >= MOST_KEPT {
            self.send_kept()?;
        }
        Ok(buf.len())
    }

    fn flush(&mut self) -> Result<()> {
        self.send_kept()
    }
}
