//! What an edited file changes, shown or carried out in a world.
ghost use Rattle.std.specs.Prelude.{◌≡◌};
ghost use Rattle.command_folder.specs.Endings.{done};
ghost use Rattle.request_writing.specs.RequestTexts.{list_text};
ghost use Rattle.command_bringing.specs.Brings.{Brings, EndsAnswer, IsBroughtHome, PrintsText, Serves};
ghost use Rattle.command_bringing.specs.Homecoming.{ComesHome};
ghost use Rattle.command_bringing.specs.Telling.{refusal_text, summary_text};
ghost use Rattle.command_folder.specs.declared.endings.Ending.TheVariants.{NoRequest};

use crate::telling::{note_of, refusal_text, summary_text};
use command_field::asking::{Answer, Ask, answer_of};
use command_folder::endings::{DONE, Ending, NO_MEMORY};
use command_folder::printing::{print, print_bytes};
use command_words::statuses::{Failure, Outcome, end_of_import};
use manifest_csv::importing::carry_out;
use manifest_csv::progress::Teller;
use request_writing::texts::list_text;
use sheet_types::command::Request;
use sqlite::Alter;
use std::alloc::Global;
use std::io::{Read, Write};
use store_shelf::shelf::Shelf;
use world::world::World;

/// What becomes of the requests.
#[derive(Clone, Copy, Debug, PartialEq, Eq)]
pub enum Purpose {
    /// They are printed as a list, and nothing changes.
    ShowList,
    /// How many there are is printed, and nothing changes.
    ShowSummary,
    /// They are carried out, and the report is printed.
    CarryOut,
}

/// Writes the text of a list.
fn show_list<W: Write>(alloc: Global, requests: &[Request], writer: &mut W) -> Ending
    ensures { PrintsText writer.old writer.new (W.contents writer.old) (W.contents writer.new)
        (list_text requests.now) done result }
{
    match list_text(alloc, requests) {
        Ok(text) => print_bytes(writer, text.as_slice(), DONE),
        Err(_) => NO_MEMORY,
    }
}

/// Writes how many requests there are.
fn show_summary<W: Write>(alloc: Global, requests: &[Request], writer: &mut W) -> Ending
    ensures { PrintsText writer.old writer.new (W.contents writer.old) (W.contents writer.new)
        (summary_text requests.now) done result }
{
    match summary_text(alloc, requests) {
        Ok(text) => print(writer, text.as_str(), DONE),
        Err(_) => NO_MEMORY,
    }
}

/// Carries requests out in a world, and writes the report.
fn bring_home<S: Alter + Drop, H: Shelf<S>, W: Write, T: Teller>(
    alloc: Global,
    world: &mut World<S>,
    shelf: &mut H,
    requests: &[Request],
    writer: &mut W,
    teller: &mut T,
) -> Ending
    ensures { IsBroughtHome S.Store writer.old writer.new (W.contents writer.old) (W.contents writer.new)
        requests.now world.old world.new (H.failures_of shelf.old) (H.failures_of shelf.new) result }
{
    match carry_out(alloc, world, shelf, requests, writer, teller) {
        Ok(()) => DONE,
        Err(fault) => Ending::Usual(end_of_import(fault)),
    }
}

/// Shows requests, or carries them out in a world.
fn serve<S: Alter + Drop, H: Shelf<S>, W: Write, T: Teller>(
    alloc: Global,
    world: &mut World<S>,
    shelf: &mut H,
    purpose: Purpose,
    requests: &[Request],
    writer: &mut W,
    teller: &mut T,
) -> Ending
    ensures { Serves S.Store writer.old writer.new (W.contents writer.old) (W.contents writer.new)
        purpose requests.now world.old world.new (H.failures_of shelf.old) (H.failures_of shelf.new) result }
{
    match purpose {
        Purpose::ShowList => show_list(alloc, requests, writer),
        Purpose::ShowSummary => show_summary(alloc, requests, writer),
        Purpose::CarryOut => bring_home(alloc, world, shelf, requests, writer, teller),
    }
}

/// Writes why there are no requests.
fn refuse<W: Write>(alloc: Global, answer: &Answer, writer: &mut W) -> Ending
    ensures { PrintsText writer.old writer.new (W.contents writer.old) (W.contents writer.new)
        (refusal_text answer.now) NoRequest result }
{
    match refusal_text(alloc, answer) {
        Ok(text) => print(writer, text.as_str(), Ending::NoRequest),
        Err(_) => NO_MEMORY,
    }
}

/// Shows or carries out what was answered, or writes why there are no requests.
fn end_answer<S: Alter + Drop, H: Shelf<S>, W: Write, T: Teller>(
    alloc: Global,
    world: &mut World<S>,
    shelf: &mut H,
    purpose: Purpose,
    answer: &Answer,
    writer: &mut W,
    teller: &mut T,
) -> Ending
    ensures { EndsAnswer S.Store writer.old writer.new (W.contents writer.old) (W.contents writer.new)
        purpose answer.now world.old world.new (H.failures_of shelf.old) (H.failures_of shelf.new) result }
{
    match answer {
        Answer::Asked(requests) => serve(
            alloc,
            world,
            shelf,
            purpose,
            requests.as_slice(),
            writer,
            teller,
        ),
        Answer::NoSuchPackage
        | Answer::NoList
        | Answer::OtherPackage
        | Answer::Stale(_)
        | Answer::OtherSystem
        | Answer::OtherFrame
        | Answer::Items(_)
        | Answer::TwoAlike
        | Answer::NotFree(_) => refuse(alloc, answer, writer),
    }
}

/// Reads a list of what a file holds, and shows or carries out the requests that make a package of
/// a world hold that. Answers besides what is said of a refusal in plain words.
pub fn bring_in<S: Alter + Drop, H: Shelf<S>, R: Read + Drop, W: Write, T: Teller>(
    alloc: Global,
    world: &mut World<S>,
    shelf: &mut H,
    ask: &Ask<'_>,
    purpose: Purpose,
    reader: R,
    writer: &mut W,
    teller: &mut T,
) -> (Ending, &'static str)
    ensures brings { Brings S.Store writer.old writer.new (W.contents writer.old) (W.contents writer.new)
        ask.now (R.remaining reader) purpose world.old world.new (H.failures_of shelf.old) (H.failures_of shelf.new) result.0 }
    ensures home { ComesHome S.Store ask.now (R.remaining reader) purpose world.old world.new result.0 }
{
    match answer_of(alloc, world, ask, reader) {
        Ok(answer) => {
            let ending = end_answer(alloc, world, shelf, purpose, &answer, writer, teller);
            (ending, note_of(&answer))
        }
        Err(fault) => (Ending::Usual(Outcome::Stopped(Failure::from(fault))), ""),
    }
}
