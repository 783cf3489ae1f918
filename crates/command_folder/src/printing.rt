//! A text out, and how a call of the program ends after it.
ghost use Rattle.std.specs.Prelude.{OnErr, OnOk};
ghost use Rattle.std.specs.Io.KnownBytes.{Appends};
ghost use Rattle.manifest_csv.specs.Sent.{WentOut};
ghost use Rattle.command_folder.specs.Printing.{Prints, with_end};

use crate::endings::{Ending, FAILED};
use manifest_csv::sending::{WriteFault, send};
use std::io::Write;

/// Writes bytes, and ends as is due. Where the writer fails, a beginning of them went out, and the
/// call ends as failed.
pub fn print_bytes<W: Write>(writer: &mut W, bytes: &[u8], due: Ending) -> Ending
    ensures { Prints bytes.now due (W.contents writer.old) (W.contents writer.new) result }
{
    match send(writer, bytes) {
        Ok(()) => due,
        Err(_) => FAILED,
    }
}

/// The same of a text.
pub fn print<W: Write>(writer: &mut W, text: &str, due: Ending) -> Ending
    ensures { Prints text.now due (W.contents writer.old) (W.contents writer.new) result }
{
    print_bytes(writer, text.as_bytes(), due)
}

/// Writes a text and the end of its line.
fn write_line<W: Write>(writer: &mut W, text: &str) -> Result<(), WriteFault>
    ensures ok { OnOk result (Appends (W.contents writer.old) (W.contents writer.new) (with_end text.now)) }
    ensures err { OnErr result (WentOut (W.contents writer.old) (W.contents writer.new) (with_end text.now)) }
{
    send(writer, text.as_bytes())?;
    send(writer, b"\n")?;
    Ok(())
}

/// Writes a text and the end of its line, and ends as is due.
pub fn tell_line<W: Write>(writer: &mut W, text: &str, ending: Ending) -> Ending
    ensures { Prints (with_end text.now) ending (W.contents writer.old) (W.contents writer.new) result }
{
    match write_line(writer, text) {
        Ok(()) => ending,
        Err(_) => FAILED,
    }
}
