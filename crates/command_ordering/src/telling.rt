//! Texts out, and how the program ends after them.
ghost use Rattle.std.specs.Prelude.{◌≡◌, IfOk, string_bytes};
ghost use Rattle.command_folder.specs.declared.endings.Ending.TheVariants.{NoRequest};
ghost use Rattle.command_verbs.specs.Faults.{verb_line};
ghost use Rattle.command_ordering.specs.Orders.{PrintsLine};
ghost use Rattle.command_ordering.specs.Telling.{TellsRefused, refusal_line, stopped};

use command_folder::endings::{Ending, FAILED, NO_MEMORY};
use command_folder::printing::print;
use command_folder::replies::refusal_ending;
use command_verbs::faults::verb_line;
use command_verbs::verbs::VerbFault;
use command_words::statuses::{Failure, Outcome};
use desk_replies::bodies::refusal_body;
use manifest_csv::sending::send;
use package_tables::fault::Fault;
use sheet_types::error::OutOfMemory;
use sheet_types::refusal::Refusal;
use std::alloc::Global;
use std::io::Write;

/// How the program ends where memory or a store gave out.
pub(crate) fn fault_ending(fault: Fault) -> Ending
    ensures { result ≡ stopped fault }
{
    Ending::Usual(Outcome::Stopped(Failure::from(fault)))
}

/// Writes the line of a fault by which there is no request.
pub(crate) fn tell_fault<W: Write>(alloc: Global, fault: &VerbFault, writer: &mut W) -> Ending
    ensures { PrintsLine writer.old writer.new (W.contents writer.old) (W.contents writer.new)
        (verb_line fault.now) NoRequest result }
{
    let Ok(line) = verb_line(alloc, fault) else {
        return NO_MEMORY;
    };
    match send(writer, line.as_bytes()) {
        Ok(()) => Ending::NoRequest,
        Err(_) => FAILED,
    }
}

/// A refusal as JSON, on a line.
fn refusal_line(alloc: Global, why: &Refusal) -> Result<String, OutOfMemory>
    ensures { IfOk result (λ line. string_bytes line ≡ refusal_line why.now) }
{
    let mut line = refusal_body(alloc, why)?;
    line.push_str("\n")?;
    Ok(line)
}

/// Tells that the register refused a request.
pub(crate) fn tell_refused<W: Write>(alloc: Global, why: &Refusal, writer: &mut W) -> Ending
    ensures { TellsRefused writer.old writer.new (W.contents writer.old) (W.contents writer.new) why.now result }
{
    let due = refusal_ending(why);
    match refusal_line(alloc, why) {
        Ok(line) => print(writer, line.as_str(), due),
        Err(_) => NO_MEMORY,
    }
}
