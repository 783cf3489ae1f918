//! How far the opening of a folder is, told on a writer.
use command_words::progress::write_opening;
use opening_stores::watching::Watcher;
use std::io::{IsTerminal, Stderr, Write};

/// Writes how many packages of a folder are read, where there is a writer. Where it fails, nothing more comes of it.
#[derive(Drop)]
pub struct OpeningLine<W: Write + Drop> {
    /// Where the line goes.
    pub writer: Option<W>,
}

impl<W: Write + Drop> Watcher for OpeningLine<W> {
    fn looked_at(&mut self, done: usize, all: usize) {
        if let Some(writer) = &mut self.writer {
            // An opening goes on where nobody can be told how far it is.
            let _untold = write_opening(writer, done as u64, all as u64);
        }
    }
}

/// On standard error, where that is a terminal.
pub(crate) fn opening_line(rt: &HostRuntime) -> OpeningLine<Stderr> {
    let terminal = rt.stderr();
    if terminal.is_terminal() {
        OpeningLine {
            writer: Some(terminal),
        }
    } else {
        OpeningLine { writer: None }
    }
}
