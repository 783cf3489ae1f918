//! Which records of a list were refused, and why.
use command_faults::texts::{more_text, record_text};
use sheet_types::receipt::Receipt;
use sheet_types::refusal::Refusal;
use std::alloc::{AllocError, Global};
use std::io::{Result as IoResult, Write};

/// How many refusals are told one by one.
const MOST: usize = 20;

/// The refusals of a list: the lines of the first of them, and how many there are.
#[derive(Drop)]
pub struct Tally {
    lines: Vec<String>,
    count: u64,
}

impl Tally {
    /// Of no refusal.
    pub fn new(alloc: Global) -> Tally {
        Tally {
            lines: Vec::new(alloc),
            count: 0,
        }
    }

    /// Notes one more, and keeps its line where it is of the first.
    fn note_line(&mut self, line: Result<String, AllocError>) {
        self.count = self.count.saturating_add(1);
        if self.lines.len() >= MOST {
            return;
        }
        if let Ok(line) = line {
            // Without memory it is counted alone.
            let _noted = self.lines.push(line);
        }
    }

    /// Notes what came of the request of this number. Want of memory and a fault of a store end a list, and are told at
    /// its end.
    pub fn note(&mut self, alloc: Global, number: u64, reply: &Result<Receipt, Refusal>) {
        match reply {
            Ok(_) | Err(Refusal::OutOfMemory) | Err(Refusal::StoreFault) => {}
            Err(why) => self.note_line(record_text(alloc, number, why)),
        }
    }

    /// Notes a refusal whose line a desk told.
    pub fn note_told(&mut self, alloc: Global, line: &str) {
        self.note_line(String::from_str(alloc, line));
    }

    /// Writes the lines of the first, and how many more there are.
    ///
    /// # Errors
    ///
    /// Want of memory, or a writer that fails.
    pub fn write<W: Write>(&self, alloc: Global, writer: &mut W) -> IoResult<()> {
        for line in self.lines.iter() {
            writer.write_all(line.as_bytes())?;
            writer.write_all(b"\n")?;
        }
        let more = self.count.saturating_sub(self.lines.len() as u64);
        if more > 0 {
            let text = more_text(alloc, more)?;
            writer.write_all(text.as_bytes())?;
            writer.write_all(b"\n")?;
        }
        Ok(())
    }
}
