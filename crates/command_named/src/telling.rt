//! How a look ends that finds two, or gives out.
ghost use Rattle.command_verbs.specs.Faults.{verb_line};
ghost use Rattle.command_named.specs.Telling.{TellsLine};

use command_folder::endings::{Ending as CommandEnding, FAILED, NO_MEMORY};
use command_verbs::faults::verb_line;
use command_verbs::verbs::VerbFault;
use manifest_csv::sending::send;
use std::alloc::Global;
use std::io::Write;
use views::endings::Ending;

/// Writes the line of a word that may name two.
pub(crate) fn tell_fault<W: Write>(alloc: Global, fault: &VerbFault, writer: &mut W) -> Ending
    ensures { TellsLine writer.old writer.new (W.contents writer.old) (W.contents writer.new)
        (verb_line fault.now) result }
{
    let Ok(line) = verb_line(alloc, fault) else {
        return Ending::Usual(NO_MEMORY);
    };
    match send(writer, line.as_bytes()) {
        Ok(()) => Ending::Usual(CommandEnding::NoRequest),
        Err(_) => Ending::Usual(FAILED),
    }
}
