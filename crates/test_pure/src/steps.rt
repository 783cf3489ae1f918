//! A test as data: questions, and what each is to be told. A table is one text, a question a line,
//! so that a further one costs no proof, and one loop asks them all.

use crate::accounts::{ledger_of, line_told};
use crate::asking::asking_of;
use crate::balances::world_of;
use crate::bodies::body_of;
use crate::calls::call_of;
use crate::claims::{claims_of, verdict_of};
use crate::exports::export_of;
use crate::frames::frame_of;
use crate::keys::keys_of;
use crate::lists::list_of;
use crate::orders::order_of;
use crate::replies::reply_of;
use crate::values::{content_of, words_of};
use sheet_types::error::OutOfMemory;
use std::alloc::Global;
use std::fmt::{Debug, Display};
use uuid::Uuid;

/// What a question is told, a word after the other. It has no clause and no exit, so that what
/// tells is straight code: want of memory is noted.
#[derive(Drop)]
pub(crate) struct Told {
    text: String,
    is_lost: bool,
}

impl Told {
    /// With nothing told.
    fn new(alloc: Global) -> Told {
        Told {
            text: String::new(alloc),
            is_lost: false,
        }
    }

    /// A word, or a text.
    pub(crate) fn word(&mut self, word: &str) {
        if self.text.push_str(word).is_err() {
            self.is_lost = true;
        }
    }

    /// A value as it prints.
    pub(crate) fn value<T: Display>(&mut self, value: &T) {
        if write!(self.text, "{value}").is_err() {
            self.is_lost = true;
        }
    }

    /// The name of a value.
    pub(crate) fn name<T: Debug>(&mut self, value: &T) {
        if write!(self.text, "{value:?}").is_err() {
            self.is_lost = true;
        }
    }

    /// A word, and a value behind it.
    pub(crate) fn worded<T: Display>(&mut self, word: &str, value: &T) {
        self.word(word);
        self.value(value);
    }

    /// A value, or that there is none.
    pub(crate) fn some<T: Display>(&mut self, found: &Option<T>) {
        match found {
            Some(value) => self.value(value),
            None => self.word("-"),
        }
    }

    /// Numbers, each with an end behind it.
    pub(crate) fn numbers<T: Display>(&mut self, numbers: &[T]) {
        for number in numbers {
            self.value(number);
            self.word(";");
        }
    }

    /// Yes or no.
    pub(crate) fn answer(&mut self, is_so: bool) {
        self.word(if is_so { "yes" } else { "no" });
    }

    /// A plus or a minus.
    pub(crate) fn sign(&mut self, is_so: bool) {
        self.word(if is_so { "+" } else { "-" });
    }

    /// Bytes that are a text.
    pub(crate) fn bytes(&mut self, bytes: &[u8]) {
        self.word(str::from_utf8(bytes).unwrap_or("no text"));
    }

    /// That a question cannot be read, which nothing expects.
    pub(crate) fn unread(&mut self, question: &str) {
        self.word("no question: ");
        self.word(question);
    }

    /// Of a table, what was not told as expected.
    pub(crate) fn wrong(&self) -> &str {
        if self.is_lost {
            "an answer was wrong, and there was no memory to note it"
        } else {
            self.text.as_str()
        }
    }
}

/// A UUID by its first byte and its last.
pub(crate) fn uuid(first: u8, last: u8) -> Uuid {
    Uuid::from_bytes([first, 0, 0, 0, 0, 0, 0x40, 0, 0x80, 0, 0, 0, 0, 0, 0, last])
}

/// How many rows a table has, and they, one a line: a question, and in brackets what it is to be
/// told. A line that begins with `#` says something of those below it, and is none.
#[derive(Clone, Copy)]
pub(crate) struct Table(pub usize, pub &'static str);

/// What the questions of a table are of.
#[derive(Clone, Copy)]
pub(crate) enum Of {
    Frames,
    // Texts that are read.
    Words,
    Contents,
    Orders,
    // Lines of a ledger, and ledgers.
    Lines,
    Ledgers,
    Worlds,
    Claims,
    Verdicts,
    // Bytes of a connection, and of responses.
    Calls,
    Replies,
    Bodies,
    // What a desk is asked, and its answers.
    Asking,
    Lists,
    Exports,
    // Free keys, and what a link becomes.
    Keys,
}

fn tell(alloc: Global, of: Of, question: &str, told: &mut Told) -> Result<(), OutOfMemory> {
    match of {
        Of::Frames => frame_of(question, told),
        Of::Words => words_of(question, told),
        Of::Lines => line_told(question, told),
        Of::Contents => content_of(alloc, question, told)?,
        Of::Orders => order_of(alloc, question, told)?,
        Of::Ledgers => ledger_of(alloc, question, told)?,
        Of::Worlds => world_of(alloc, question, told)?,
        Of::Claims => claims_of(alloc, question, told)?,
        Of::Verdicts => verdict_of(alloc, question, told)?,
        Of::Calls => call_of(alloc, question, told)?,
        Of::Replies => reply_of(alloc, question, told)?,
        Of::Asking => asking_of(alloc, question, told)?,
        Of::Bodies => body_of(alloc, question, told)?,
        Of::Lists => list_of(alloc, question, told)?,
        Of::Exports => export_of(alloc, question, told)?,
        Of::Keys => keys_of(alloc, question, told)?,
    }
    Ok(())
}

/// What stands in brackets.
pub(crate) fn in_brackets(words: &str) -> Option<&str> {
    match words.strip_prefix('[') {
        Some(inner) => inner.strip_suffix(']'),
        None => None,
    }
}

// The question of a row, and what it is to be told.
fn parts(row: &str) -> Option<(&str, &str)> {
    let (question, answer) = row.split_once(" => ")?;
    Some((question, in_brackets(answer)?))
}

// Notes a row whose question was not told what was expected, with what it was told.
fn ask(alloc: Global, of: Of, row: &str, wrong: &mut Told) -> Result<(), OutOfMemory> {
    let (question, answer) = parts(row).unwrap_or((row, "no row"));
    let expected = unescaped(alloc, answer)?;
    let mut told = Told::new(alloc);
    let has_memory = tell(alloc, of, question, &mut told).is_ok() && !told.is_lost;
    if !has_memory || told.text.as_str() != expected.as_str() {
        wrong.word(row);
        wrong.worded(
            if has_memory {
                ", told "
            } else {
                ", no memory "
            },
            &told.text,
        );
        wrong.word("\n");
    }
    Ok(())
}

/// What a table told that was not expected.
pub(crate) fn wrong_of(alloc: Global, of: Of, table: Table) -> Told {
    let mut wrong = Told::new(alloc);
    let mut found = 0usize;
    for row in table.1.lines() {
        if !row.starts_with('#') {
            if ask(alloc, of, row, &mut wrong).is_err() {
                wrong.unread(row);
            }
            found = found.saturating_add(1);
        }
    }
    if found != table.0 {
        wrong.word("another number of rows");
    }
    wrong
}

/// The first word of a question, and what is left.
pub(crate) fn cut(words: &str) -> (&str, &str) {
    words.split_once(' ').unwrap_or((words, ""))
}

/// The parts of a word between points, six at most; those that it has not are empty.
pub(crate) fn points(word: &str) -> [&str; 6] {
    let mut found = [""; 6];
    let mut count = 0usize;
    for part in word.split('.') {
        if let Some(place) = found.get_mut(count) {
            *place = part;
        }
        count = count.saturating_add(1);
    }
    found
}

/// The numbers of a question, eight at most; those that it has not are 0.
pub(crate) fn numbers(words: &str) -> Option<[i64; 8]> {
    let mut found = [0; 8];
    if words.is_empty() {
        return Some(found);
    }
    let mut count = 0usize;
    for word in words.split(' ') {
        let place = found.get_mut(count)?;
        *place = word.parse::<i64>().ok()?;
        count = count.saturating_add(1);
    }
    Some(found)
}

/// The text that a row stands for, which has no ends of lines and no quotation marks: a tilde is CR
/// LF, `^` LF, a backtick a mark.
pub(crate) fn unescaped(alloc: Global, words: &str) -> Result<String, OutOfMemory> {
    let mut text = String::new(alloc);
    for letter in words.chars() {
        match letter {
            '~' => text.push_str("\r\n")?,
            '^' => text.push('\n')?,
            '`' => text.push('"')?,
            other => text.push(other)?,
        }
    }
    Ok(text)
}
