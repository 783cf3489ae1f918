//! A rehearsal whose world is then served to connections of this machine.
ghost use Rattle.std.specs.Prelude.{◌≡◌, ℕ, List, Err};
ghost use Rattle.sheet_types.specs.World.{new_world};
ghost use Rattle.sheet_types.specs.declared.frame.Frame.{Frame};
ghost use Rattle.command_words.specs.Arguments.{Asks, AsksDesk, IsFirstUnserved};
ghost use Rattle.cli.specs.Rehearsals.{IsInMemory};
ghost use Rattle.cli.specs.Servings.{Leaves, RehearsesAndServes};
ghost use Rattle.manifest_csv.specs.Imports.{IsListOf};
ghost use Rattle.command_words.specs.declared.statuses.What.{What};
ghost use Rattle.command_words.specs.declared.statuses.Outcome.TheVariants.{Refused};

use crate::rehearse::{are_few, handed_on};
use command_words::arguments::{DeskWords, Rehearsal, Words, read_serving};
use command_words::statuses::{Failure, Outcome, end_of_import};
use desk_http::connections::serve_each;
use desk_http::listening::listen;
use desk_http::telling::DeskTeller;
use manifest_csv::importing::ImportFault;
use manifest_csv::progress::Teller;
use request_csv::lists::read_requests;
use request_csv::sources::Stream;
use sheet_types::command::Request;
use sqlite::{Alter, FileStore, MemStore};
use std::alloc::Global;
use std::io::{Read, Write};
use std::net::{Net, TcpListener, TcpStream};
use std::rt::Clock;
use store_memory::MemoryFile;
use store_shelf::file_memory::MemoryFileShelf;
use store_shelf::memory::MemoryShelf;
use store_shelf::shelf::Shelf;
use world::world::World;

/// The world that connections left, by where its stores are.
#[derive(Drop)]
pub enum LeftWorld {
    /// In the engine's arrays.
    Arrays(World<MemStore>),
    /// In files in memory.
    Files(World<FileStore<MemoryFile>>),
}

/// Does what `rehearse` does with the first words, and then serves the world that the list led to:
/// so many connections of 127.0.0.1 at the port, one after the other. The world as they left it
/// comes back. The teller is told of the port and of each connection.
/// The words are read first, and then the port is taken, so that a client may connect while the
/// list is carried out. Where a word cannot be read or the port cannot be had, nothing is read and
/// nothing is written.
///
/// # Errors
///
/// How the program ended where nothing was served: a word or the list that was refused, or what gave out.
pub fn rehearse_and_serve<
    N: Net<Listener = TcpListener, Stream = TcpStream> + Clock,
    R: Read + Drop,
    W: Write,
    T: Teller + DeskTeller,
>(
    net: &N,
    alloc: Global,
    words: &Words<'_>,
    desk: &DeskWords<'_>,
    reader: R,
    writer: &mut W,
    teller: &mut T,
) -> Result<LeftWorld, Outcome>
    ensures refused { (what : What) → IsFirstUnserved words.now.archive.now words.now.at.now words.now.frame.now
        desk.now.port.now desk.now.count.now what → result ≡ Err (Refused what) }
    ensures unwritten { (what : What) → IsFirstUnserved words.now.archive.now words.now.at.now words.now.frame.now
        desk.now.port.now desk.now.count.now what → writer.new ≡ writer.old }
    ensures served { (uuid moment : List ℕ) (frame : Frame) (port count : ℕ)
        → Asks words.now.archive.now words.now.at.now words.now.frame.now uuid moment frame
        → AsksDesk desk.now.port.now desk.now.count.now port count
        → Leaves (new_world uuid frame) count (R.remaining reader) writer.old writer.new (W.contents writer.old)
        (W.contents writer.new) result }
{
    let (rehearsal, desk) = match read_serving(words, desk) {
        Ok(asked) => asked,
        Err(what) => return Err(Outcome::Refused(what)),
    };
    let listener = match listen(net, desk.port) {
        Ok(listener) => listener,
        Err(_) => return Err(Outcome::Stopped(Failure::StoreFault)),
    };
    teller.tell_port(desk.port);
    serve_rehearsal(
        net, alloc, &rehearsal, &listener, desk.count, reader, writer, teller,
    )
}

/// Carries a list out in the world of a new archive, writes its report and its packages, and then
/// serves so many connections of the listener over that world. The world as they left it comes
/// back.
/// It is in the engine's arrays where the requests and the connections are few, and in files in
/// memory where they are many.
///
/// # Errors
///
/// How the rehearsal ended where it was not done. Nothing was served.
pub fn serve_rehearsal<C: Clock, R: Read + Drop, W: Write, T: Teller + DeskTeller>(
    clock: &C,
    alloc: Global,
    rehearsal: &Rehearsal<'_>,
    listener: &TcpListener,
    count: u32,
    reader: R,
    writer: &mut W,
    teller: &mut T,
) -> Result<LeftWorld, Outcome>
    ensures { Leaves (new_world rehearsal.now.archive rehearsal.now.frame) count (R.remaining reader) writer.old
        writer.new (W.contents writer.old) (W.contents writer.new) result }
{
    match read_requests(alloc, Stream(reader)) {
        Ok(requests) => served_by_either(
            clock,
            alloc,
            rehearsal,
            listener,
            count,
            requests.as_slice(),
            writer,
            teller,
        ),
        Err(fault) => Err(end_of_import(ImportFault::Unread(fault))),
    }
}

// In the engine's arrays, or in files in memory.
fn served_by_either<C: Clock, W: Write, T: Teller + DeskTeller>(
    clock: &C,
    alloc: Global,
    rehearsal: &Rehearsal<'_>,
    listener: &TcpListener,
    count: u32,
    requests: &[Request],
    writer: &mut W,
    teller: &mut T,
) -> Result<LeftWorld, Outcome>
    ensures { IsListOf requests.now (λ text. Leaves (new_world rehearsal.now.archive rehearsal.now.frame) count text
        writer.old writer.new (W.contents writer.old) (W.contents writer.new) result) }
{
    if are_few(requests, u64::from(count)) {
        let mut shelf = MemoryShelf::new(alloc);
        match served_over::<MemStore, MemoryShelf, C, W, T>(
            clock, alloc, rehearsal, listener, count, &mut shelf, requests, writer, teller,
        ) {
            Ok(world) => Ok(LeftWorld::Arrays(world)),
            Err(outcome) => Err(outcome),
        }
    } else {
        let mut shelf = MemoryFileShelf::new(alloc);
        match served_over::<FileStore<MemoryFile>, MemoryFileShelf, C, W, T>(
            clock, alloc, rehearsal, listener, count, &mut shelf, requests, writer, teller,
        ) {
            Ok(world) => Ok(LeftWorld::Files(world)),
            Err(outcome) => Err(outcome),
        }
    }
}

// Over the stores of this shelf, which are in memory.
fn served_over<S: Alter + Drop, H: Shelf<S>, C: Clock, W: Write, T: Teller + DeskTeller>(
    clock: &C,
    alloc: Global,
    rehearsal: &Rehearsal<'_>,
    listener: &TcpListener,
    count: u32,
    shelf: &mut H,
    requests: &[Request],
    writer: &mut W,
    teller: &mut T,
) -> Result<World<S>, Outcome>
    ensures { IsInMemory S.Store → IsListOf requests.now (λ text. RehearsesAndServes S.Store
        (new_world rehearsal.now.archive rehearsal.now.frame) count text writer.old writer.new (W.contents writer.old)
        (W.contents writer.new) result) }
{
    let mut world = handed_on::<S, H, W, T>(alloc, rehearsal, shelf, requests, writer, teller)?;
    // The world is handed back whichever way its desk ended.
    let _ended = serve_each(clock, alloc, &mut world, shelf, listener, count, teller);
    Ok(world)
}
