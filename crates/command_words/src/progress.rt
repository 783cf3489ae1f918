//! How far an import or an opening is, told on a writer: a line for each thousand requests, and one
//! that counts packages.
ghost use Rattle.std.specs.Prelude.{◌≡◌, ◌↔◌, None, OnOk, IsTrue};
ghost use Rattle.std.specs.Io.KnownBytes.{Appends};
ghost use Rattle.command_words.specs.Progress.{IsDue, are_read, counted_text, opening_text, progress_text};

use itoa::Buffer;
pub use manifest_csv::progress::{Silent, Teller};
use manifest_csv::sending::{WriteFault, send};
use sheet_types::receipt::Receipt;
use sheet_types::refusal::Refusal;
use std::io::Write;

/// Whether a count is told: of each thousandth request.
pub fn is_due(done: u64) -> bool
    ensures { IsTrue result ↔ IsDue done }
{
    done % 1000 == 0
}

/// Writes two counts, and what is said of them.
fn write_counts<W: Write>(
    writer: &mut W,
    done: u64,
    all: u64,
    what: &[u8],
) -> Result<(), WriteFault>
    ensures ok { OnOk result (Appends (W.contents writer.old) (W.contents writer.new)
        (counted_text done all what.now)) }
{
    let mut digits = Buffer::new();
    send(writer, digits.format(done).as_bytes())?;
    send(writer, b" of ")?;
    send(writer, digits.format(all).as_bytes())?;
    send(writer, what)
}

/// Writes that of `all` requests so many are done, as one line.
///
/// # Errors
///
/// A writer that failed. A beginning of the line went out, and not all of it.
pub fn write_progress<W: Write>(writer: &mut W, done: u64, all: u64) -> Result<(), WriteFault>
    ensures ok { OnOk result (Appends (W.contents writer.old) (W.contents writer.new) (progress_text done all)) }
{
    write_counts(writer, done, all, b" requests are done\n")
}

/// What is said of packages: the line is written over until all are read.
fn are_read(done: u64, all: u64) -> &'static [u8]
    ensures { result.now ≡ are_read done all }
{
    if done < all {
        b" packages are read\r"
    } else {
        b" packages are read\n"
    }
}

/// Writes that of `all` packages so many are read. The next such text is written over this one, until all are read.
///
/// # Errors
///
/// A writer that failed. A beginning of the text went out, and not all of it.
pub fn write_opening<W: Write>(writer: &mut W, done: u64, all: u64) -> Result<(), WriteFault>
    ensures ok { OnOk result (Appends (W.contents writer.old) (W.contents writer.new) (opening_text done all)) }
{
    write_counts(writer, done, all, are_read(done, all))
}

/// Writes a line for each thousand requests that are done. Where the writer fails, nothing more comes of it.
#[derive(Drop)]
pub struct Progress<W: Write + Drop> {
    /// Where the lines go.
    pub writer: W,
}

impl<W: Write + Drop> Progress<W> {
    /// Of `all` requests so many are done.
    pub fn tell_count(&mut self, done: u64, all: u64) {
        if is_due(done) {
            // An import goes on where nobody can be told how far it is.
            let _untold = write_progress(&mut self.writer, done, all);
        }
    }
}

impl<W: Write + Drop> Teller for Progress<W> {
    ghost told = { λ _. None };

    fn tell(&mut self, done: u64, all: u64, _reply: &Result<Receipt, Refusal>) {
        self.tell_count(done, all);
    }
}
