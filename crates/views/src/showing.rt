//! A text out, and how the program ends after it.
ghost use Rattle.std.specs.Prelude.{◌≡◌, string_bytes};
ghost use Rattle.views.specs.Showing.{PrintsAll, Shows, ShowsText, stopped, told, told_if};

use crate::endings::Ending;
use command_folder::endings::{DONE, Ending as CommandEnding, FAILED};
use command_words::statuses::{Failure, Outcome};
use manifest_csv::sending::send;
use package_tables::fault::Fault;
use std::io::Write;

/// How the program ends where memory or a store gave out.
pub fn fault_ending(fault: Fault) -> Ending
    ensures { result ≡ stopped fault }
{
    Ending::Usual(CommandEnding::Usual(Outcome::Stopped(Failure::from(fault))))
}

/// Writes a text, and all is done.
fn print<W: Write>(writer: &mut W, text: &str) -> Ending
    ensures { PrintsAll text.now (W.contents writer.old) (W.contents writer.new) result }
{
    match send(writer, text.as_bytes()) {
        Ok(()) => Ending::Usual(DONE),
        Err(_) => Ending::Usual(FAILED),
    }
}

/// Writes what was found, or tells what gave out.
pub(crate) fn show<W: Write>(writer: &mut W, text: Result<String, Fault>) -> Ending
    ensures { ShowsText (told string_bytes text) writer.old writer.new (W.contents writer.old) (W.contents writer.new)
        result }
{
    match text {
        Ok(text) => print(writer, text.as_str()),
        Err(fault) => fault_ending(fault),
    }
}

/// The same, where nothing may have been found, and the program ends so then.
pub(crate) fn show_found<W: Write>(
    writer: &mut W,
    found: Result<Option<String>, Fault>,
    none: Ending,
) -> Ending
    ensures { Shows (told_if string_bytes found) none writer.old writer.new (W.contents writer.old)
        (W.contents writer.new) result }
{
    match found {
        Ok(Some(text)) => print(writer, text.as_str()),
        Ok(None) => none,
        Err(fault) => fault_ending(fault),
    }
}
