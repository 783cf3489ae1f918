//! The reply to a request as JSON, on a line, and how a call of the program ends after it.
ghost use Rattle.std.specs.Prelude.{◌≡◌, Err, Ok};
ghost use Rattle.sheet_types.specs.declared.refusal.Refusal.TheVariants as refusal;
ghost use Rattle.desk_replies.specs.Bodies.{refusal_text};
ghost use Rattle.command_folder.specs.Replies.{PrintsReply, ask_again, refusal_ending};

use crate::endings::{DONE, Ending, FAILED, NO_MEMORY};
use crate::printing::tell_line;
use desk_replies::bodies::{receipt_body, refusal_body};
use sheet_types::receipt::Receipt;
use sheet_types::refusal::Refusal;
use std::alloc::Global;
use std::io::Write;

/// What is printed where memory was wanting, and nothing has changed.
fn no_memory_body() -> &'static str
    ensures { result.now ≡ refusal_text refusal.OutOfMemory }
{
    "{\"name\":\"OutOfMemory\",\"refusal\":24}"
}

/// What is printed where a receipt stands, and memory was wanting for its text.
pub fn ask_again_body() -> &'static str
    ensures { result.now ≡ ask_again }
{
    "{\"fault\":\"ask again\"}"
}

/// Writes a receipt, which stands whatever memory its text finds.
pub fn tell_receipt<W: Write>(alloc: Global, receipt: &Receipt, writer: &mut W) -> Ending
    ensures { PrintsReply (Ok receipt.now) (W.contents writer.old) (W.contents writer.new) result }
{
    match receipt_body(alloc, receipt) {
        Ok(text) => tell_line(writer, text.as_str(), DONE),
        Err(_) => tell_line(writer, ask_again_body(), NO_MEMORY),
    }
}

/// How the program ends after a refusal: declined, or what gave out.
pub fn refusal_ending(why: &Refusal) -> Ending
    ensures { result ≡ refusal_ending why.now }
{
    match why {
        Refusal::OutOfMemory => NO_MEMORY,
        Refusal::StoreFault => FAILED,
        _ => Ending::Declined(*why),
    }
}

/// Writes a refusal. Where memory is wanting for its text, that is told.
pub fn tell_refusal<W: Write>(alloc: Global, why: &Refusal, writer: &mut W) -> Ending
    ensures { PrintsReply (Err why.now) (W.contents writer.old) (W.contents writer.new) result }
{
    let ending = refusal_ending(why);
    match refusal_body(alloc, why) {
        Ok(text) => tell_line(writer, text.as_str(), ending),
        Err(_) => tell_line(writer, no_memory_body(), NO_MEMORY),
    }
}
