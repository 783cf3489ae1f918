//! One request is carried out for somebody who carries out several, and its reply told as a part of what he prints.
ghost use Rattle.std.specs.Prelude.{◌≡◌, ◌∷◌, []};
ghost use Rattle.command_ordering.specs.Telling.{replies_ending};
ghost use Rattle.command_desk.specs.Carrying.{Carries, CarriesRow, IsCarriedFor, row_ending};
ghost use Rattle.command_desk.specs.declared.carrying.Report.TheVariants.{Outcome};

use command_folder::endings::{DONE, Ending, FAILED, NO_MEMORY};
use command_folder::printing::print;
use command_lines::drops::outcomes_text;
use commands::applying::asked_of;
use manifest_csv::reports::{line_buffer, put_line};
use sheet_types::command::Request;
use sheet_types::receipt::Receipt;
use sheet_types::refusal::Refusal;
use sqlite::Alter;
use std::alloc::Global;
use std::io::Write;
use store_shelf::shelf::Shelf;
use world::world::World;

/// As a part of what the reply to a request is told.
#[derive(Clone, Copy, Debug, PartialEq, Eq)]
pub enum Report {
    /// The row of this number of an import's report.
    Row(u64),
    /// The line of a request of several.
    Outcome,
}

/// How it ends behind the row of this number: an import goes on after a refusal, of which standard error is told, and
/// stops where memory or a store gave out.
fn row_ending(n: u64, reply: &Result<Receipt, Refusal>) -> Ending
    ensures { result ≡ row_ending n reply.now }
{
    match reply {
        Ok(_) => DONE,
        Err(Refusal::OutOfMemory) => NO_MEMORY,
        Err(Refusal::StoreFault) => FAILED,
        Err(why) => Ending::RecordDeclined(n, *why),
    }
}

/// How it ends behind a line: as after several requests whose only reply it is.
fn line_ending(reply: &Result<Receipt, Refusal>) -> Ending
    ensures { result ≡ replies_ending (reply.now ∷ []) }
{
    match reply {
        Ok(_) => DONE,
        Err(Refusal::OutOfMemory) => NO_MEMORY,
        Err(Refusal::StoreFault) => FAILED,
        Err(why) => Ending::Declined(*why),
    }
}

/// Carries a request out, and writes the row of this number. The room for it is had before.
fn carry_row<S: Alter + Drop, H: Shelf<S>, W: Write>(
    alloc: Global,
    world: &mut World<S>,
    shelf: &mut H,
    n: u64,
    request: &Request,
    writer: &mut W,
) -> Ending
    ensures { CarriesRow S.Store n request.now world.old world.new writer.old writer.new
        (W.contents writer.old) (W.contents writer.new) result }
{
    let Ok(mut buffer) = line_buffer(alloc) else {
        return NO_MEMORY;
    };
    let reply = world.apply(alloc, request, shelf);
    put_line(&mut buffer, n, request.id, &reply);
    print(writer, buffer.as_str(), row_ending(n, &reply))
}

/// Carries a request out, and writes what came of it.
fn carry_line<S: Alter + Drop, H: Shelf<S>, W: Write>(
    alloc: Global,
    world: &mut World<S>,
    shelf: &mut H,
    request: Request,
    writer: &mut W,
) -> Ending
    ensures { IsCarriedFor S.Store Outcome request world.old world.new writer.old writer.new
        (W.contents writer.old) (W.contents writer.new) result }
{
    let reply = world.apply(alloc, &request, shelf);
    let due = line_ending(&reply);
    let requests = [request];
    let replies = [reply];
    match outcomes_text(alloc, requests.as_slice(), replies.as_slice()) {
        Ok(text) => print(writer, text.as_str(), due),
        Err(_) => NO_MEMORY,
    }
}

/// Carries out the request that bytes are, and tells the reply as this part. Where they are none, or room for a row is
/// wanting, nothing is done.
pub fn carry_in<S: Alter + Drop, H: Shelf<S>, W: Write>(
    alloc: Global,
    world: &mut World<S>,
    shelf: &mut H,
    report: Report,
    body: &[u8],
    writer: &mut W,
) -> Ending
    ensures { Carries S.Store report body.now world.old world.new writer.old writer.new
        (W.contents writer.old) (W.contents writer.new) result }
{
    let request = match asked_of(alloc, body) {
        Ok(request) => request,
        Err(ending) => return ending,
    };
    match report {
        Report::Row(n) => carry_row(alloc, world, shelf, n, &request, writer),
        Report::Outcome => carry_line(alloc, world, shelf, request, writer),
    }
}
