//! A request list, carried out by a world, and the report of it.
ghost use Rattle.std.specs.Prelude.{◌≡◌, ◌≤◌, length};
ghost use Rattle.std.specs.String.{string_capacity};
ghost use Rattle.manifest_csv.specs.Imports.{Imports, ImportsWith, IsCarried, IsEndOf, IsListOf, IsReportedWith};

use crate::progress::Teller;
use crate::reports::{header_line, line_buffer, put_line};
use crate::sending::{WriteFault, send};
use package_tables::fault::Fault;
use request_csv::lists::{ReadFault, read_requests};
use request_csv::sources::Stream;
use sheet_types::command::Request;
use sheet_types::error::OutOfMemory;
use sheet_types::receipt::Receipt;
use sheet_types::refusal::Refusal;
use sqlite::Alter;
use std::alloc::Global;
use std::io::{Read, Write};
use store_shelf::shelf::Shelf;
use world::world::World;

/// Why an import did not go through.
#[derive(Clone, Copy, PartialEq, Eq)]
pub enum ImportFault {
    /// The list was not read. Nothing was carried out and nothing was written.
    Unread(ReadFault),
    /// The reply to the request of this number tells this fault. Its line is the last of the report.
    Stopped(u64, Fault),
    /// The writer failed. The requests up to the line being written were carried out, and a
    /// beginning of the report went out, and not all of it.
    Unwritten,
}

impl From<ReadFault> for ImportFault {
    ghost use Rattle.manifest_csv.specs.declared.importing.ImportFault.TheVariants.{Unread};

    ghost from_gives = { λ fault why. why ≡ Unread fault };

    fn from(fault: ReadFault) -> ImportFault {
        ImportFault::Unread(fault)
    }
}

impl From<WriteFault> for ImportFault {
    ghost use Rattle.manifest_csv.specs.declared.importing.ImportFault.TheVariants.{Unwritten};

    ghost from_gives = { λ fault why. why ≡ Unwritten };

    fn from(_fault: WriteFault) -> ImportFault {
        ImportFault::Unwritten
    }
}

/// The fault that a reply ends an import with, if it does.
pub fn end_of(reply: &Result<Receipt, Refusal>) -> Option<Fault>
    ensures { IsEndOf reply.now result }
{
    match reply {
        Err(Refusal::OutOfMemory) => Some(Fault::OutOfMemory),
        Err(Refusal::StoreFault) => Some(Fault::StoreFault),
        _ => None,
    }
}

/// Carries the requests out in their order, and writes the line of each before the next is carried
/// out. The teller is told of each whose line was written.
fn report_each<S: Alter + Drop, H: Shelf<S>, W: Write, T: Teller>(
    alloc: Global,
    world: &mut World<S>,
    requests: &[Request],
    shelf: &mut H,
    buffer: &mut String,
    writer: &mut W,
    teller: &mut T,
) -> Result<(), ImportFault>
    requires room { 128 ≤ string_capacity buffer.old }
    ensures { IsReportedWith S.Store H.asks H.takes H.failures_of (length requests.now) requests.now
        world.old world.new shelf.old shelf.new (W.contents writer.old) (W.contents writer.new)
        (T.told teller.old) (T.told teller.new) result }
{
    for at in 0..requests.len() {
        let request = &requests[at];
        let reply = world.apply(alloc, request, shelf);
        put_line(buffer, at as u64 + 1, request.id, &reply);
        send(writer, buffer.as_bytes())?;
        teller.tell(at as u64 + 1, requests.len() as u64, &reply);
        if let Some(fault) = end_of(&reply) {
            return Err(ImportFault::Stopped(at as u64 + 1, fault));
        }
    }
    Ok(())
}

/// Carries out the requests of a list that was read, and writes the report of it. The shelf gives
/// the stores of the packages that a request makes, and is asked for no other. Room for the longest
/// line is there before the first is written. A refusal is reported, and the import goes on. The
/// teller is told of each request whose line was written.
///
/// # Errors
///
/// Want of memory for a line, as if the list had not been read; a request that want of memory or a
/// store stopped; or a writer that failed.
pub fn carry_out<S: Alter + Drop, H: Shelf<S>, W: Write, T: Teller>(
    alloc: Global,
    world: &mut World<S>,
    shelf: &mut H,
    requests: &[Request],
    writer: &mut W,
    teller: &mut T,
) -> Result<(), ImportFault>
    ensures carried { IsCarried S.Store requests.now world.old world.new
        (H.failures_of shelf.old) (H.failures_of shelf.new)
        (W.contents writer.old) (W.contents writer.new) result }
    ensures imported { IsListOf requests.now (λ text. Imports S.Store text world.old world.new
        (H.failures_of shelf.old) (H.failures_of shelf.new)
        writer.old writer.new (W.contents writer.old) (W.contents writer.new) result) }
    ensures along { IsListOf requests.now (λ text. ImportsWith S.Store H.asks H.takes H.failures_of
        text world.old world.new shelf.old shelf.new (W.contents writer.old) (W.contents writer.new)
        (T.told teller.old) (T.told teller.new) result) }
{
    let Ok(mut buffer) = line_buffer(alloc) else {
        return Err(ImportFault::Unread(ReadFault::Memory));
    };
    send(writer, header_line().as_bytes())?;
    report_each(alloc, world, requests, shelf, &mut buffer, writer, teller)
}

/// Carries out the request list of a reader and writes the report of it, as `carry_out` does. The
/// whole list is read before anything is carried out.
///
/// # Errors
///
/// A list that is not read, a request that want of memory or a store stopped, or a writer that failed.
pub fn import<S: Alter + Drop, H: Shelf<S>, R: Read + Drop, W: Write, T: Teller>(
    alloc: Global,
    world: &mut World<S>,
    shelf: &mut H,
    reader: R,
    writer: &mut W,
    teller: &mut T,
) -> Result<(), ImportFault>
    ensures imported { Imports S.Store (R.remaining reader) world.old world.new
        (H.failures_of shelf.old) (H.failures_of shelf.new)
        writer.old writer.new (W.contents writer.old) (W.contents writer.new) result }
    ensures along { ImportsWith S.Store H.asks H.takes H.failures_of (R.remaining reader)
        world.old world.new shelf.old shelf.new (W.contents writer.old) (W.contents writer.new)
        (T.told teller.old) (T.told teller.new) result }
{
    let requests = read_requests(alloc, Stream(reader))?;
    carry_out(alloc, world, shelf, requests.as_slice(), writer, teller)
}
