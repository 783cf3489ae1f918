//! What calls told, beside what was expected of them.

use package_tables::fault::Fault;
use std::alloc::{AllocError, Global};

/// Notes each answer that is not the one that was expected, by its number from 1 on. It has no
/// clause and no exit, so what it is given is straight code, and a test asserts once that nothing
/// is wrong.
#[derive(Drop)]
pub struct Checked {
    alloc: Global,
    number: u32,
    is_lost: bool,
    wrong: String,
}

impl Checked {
    /// With nothing told.
    pub fn new(alloc: Global) -> Checked {
        Checked {
            alloc,
            number: 0,
            is_lost: false,
            wrong: String::new(alloc),
        }
    }

    fn note(&mut self, found: &str, expected: &str) -> Result<(), AllocError> {
        let line = format!(in self.alloc; "{}: {found}, not {expected}\n", self.number)?;
        self.wrong.push_str(line.as_str())
    }

    /// An answer in words.
    pub fn is(&mut self, found: &str, expected: &str) {
        self.number = self.number.saturating_add(1);
        if found != expected && self.note(found, expected).is_err() {
            self.is_lost = true;
        }
    }

    /// A call that told a text, or a fault, which goes by its name.
    pub fn told(&mut self, found: Result<String, Fault>, expected: &str) {
        match &found {
            Ok(text) => self.is(text.as_str(), expected),
            Err(Fault::OutOfMemory) => self.is("OutOfMemory", expected),
            Err(Fault::StoreFault) => self.is("StoreFault", expected),
        }
    }

    /// A call that answered yes.
    pub fn holds(&mut self, answer: Result<bool, Fault>) {
        match answer {
            Ok(true) => self.is("yes", "yes"),
            Ok(false) => self.is("no", "yes"),
            Err(Fault::OutOfMemory) => self.is("OutOfMemory", "yes"),
            Err(Fault::StoreFault) => self.is("StoreFault", "yes"),
        }
    }

    /// The answers that were wrong, one a line, each with its number.
    pub fn wrong(&self) -> &str {
        if self.is_lost {
            "an answer was wrong, and there was no memory to note it"
        } else {
            self.wrong.as_str()
        }
    }
}
