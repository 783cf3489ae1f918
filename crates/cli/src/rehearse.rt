//! A rehearsal: what a list of requests would come to, shown by a world in memory that ends with the program.
ghost use Rattle.std.specs.Prelude.{◌≡◌, ℕ, List, map, IfOk, string_bytes};
ghost use Rattle.sheet_types.specs.World.{new_world};
ghost use Rattle.sheet_types.specs.declared.frame.Frame.{Frame};
ghost use Rattle.world_members.specs.Members.{AllClean};
ghost use Rattle.world.specs.Worlds.{StandsFor};
ghost use Rattle.command_words.specs.Arguments.{Asks, IsFirstUnread};
ghost use Rattle.manifest_csv.specs.Imports.{IsListOf};
ghost use Rattle.cli.specs.Rehearsals.{package_line, package_text, packages_text, live_text, StandsOn, Writes};
ghost use Rattle.cli.specs.Rehearsals.{Rehearses, IsInMemory};
ghost use Rattle.cli.specs.Servings.{HandsOn};
ghost use Rattle.command_words.specs.declared.statuses.What.{What};
ghost use Rattle.command_words.specs.declared.statuses.Outcome.TheVariants.{Refused};

use command_words::arguments::{Rehearsal, Words, read_rehearsal};
use command_words::statuses::{Failure, Outcome, end_of_import};
use manifest_csv::importing::{ImportFault, carry_out};
use manifest_csv::package_manifests::write_manifest;
use manifest_csv::progress::Teller;
use manifest_csv::sending::send;
use request_csv::lists::read_requests;
use request_csv::sources::Stream;
use sheet_types::command::{Command, Request};
use sqlite::{Alter, FileStore, MemStore};
use std::alloc::{AllocError, Global};
use std::io::{Read, Write};
use store_memory::MemoryFile;
use store_shelf::file_memory::MemoryFileShelf;
use store_shelf::memory::MemoryShelf;
use store_shelf::shelf::Shelf;
use uuid::Uuid;
use world::reading::PackageSight;
use world::world::World;

/// Makes the archive that the words ask for in memory, imports the request list of the reader into
/// it, and writes the report of the import and then, for each live package by its UUID, a line that
/// names it and its manifest.
/// The words are read first: where one of them cannot be, nothing is read and nothing is written.
/// The teller is told how many of how many requests are done; what is written does not depend on
/// it.
pub fn rehearse<R: Read + Drop, W: Write, T: Teller>(
    alloc: Global,
    words: &Words<'_>,
    reader: R,
    writer: &mut W,
    teller: &mut T,
) -> Outcome
    ensures refused { (what : What) → IsFirstUnread words.now.archive.now words.now.at.now words.now.frame.now what
        → result ≡ Refused what }
    ensures unwritten { (what : What) → IsFirstUnread words.now.archive.now words.now.at.now words.now.frame.now what
        → writer.new ≡ writer.old }
    ensures carried { (uuid moment : List ℕ) (frame : Frame)
        → Asks words.now.archive.now words.now.at.now words.now.frame.now uuid moment frame
        → Rehearses (new_world uuid frame) (R.remaining reader) writer.old writer.new (W.contents writer.old)
        (W.contents writer.new) result }
{
    match read_rehearsal(words) {
        Ok(rehearsal) => carried_out(alloc, &rehearsal, reader, writer, teller),
        Err(what) => Outcome::Refused(what),
    }
}

/// The world that the words ask for.
fn new_world<S: Alter + Drop, H: Shelf<S>>(
    alloc: Global,
    rehearsal: &Rehearsal<'_>,
    shelf: &mut H,
) -> Result<World<S>, Failure>
    ensures { IfOk result (λ world. AllClean S.Store world.members
        → StandsFor S.Store world (new_world rehearsal.now.archive rehearsal.now.frame)) }
{
    let conn = shelf.blank(rehearsal.archive)?;
    Ok(World::create(
        alloc,
        conn,
        rehearsal.archive,
        rehearsal.at,
        &rehearsal.frame,
    )?)
}

/// The line that names a package before its manifest.
fn package_line(alloc: Global, package: Uuid) -> Result<String, AllocError>
    ensures { IfOk result (λ line. string_bytes line ≡ package_line «package») }
{
    format!(in alloc; "package {package}\n")
}

/// Writes the line that names a package, and its manifest.
fn write_package<S: Alter + Drop, W: Write>(
    alloc: Global,
    world: &mut World<S>,
    package: Uuid,
    writer: &mut W,
) -> Result<(), Failure>
    ensures stands { StandsOn S.Store world.old world.new }
    ensures written { Writes S.Store (λ w. package_text w «package») world.old world.new (W.contents writer.old)
        (W.contents writer.new) result }
{
    let line = package_line(alloc, package)?;
    send(writer, line.as_bytes())?;
    write_manifest(alloc, world, package, writer)?;
    Ok(())
}

/// Writes the names and the manifests of these packages, one after the other.
fn write_each<S: Alter + Drop, W: Write>(
    alloc: Global,
    world: &mut World<S>,
    sights: &[PackageSight],
    writer: &mut W,
) -> Result<(), Failure>
    ensures stands { StandsOn S.Store world.old world.new }
    ensures written { Writes S.Store (λ w. packages_text w (map (λ s. s.uuid) sights.now)) world.old world.new
        (W.contents writer.old) (W.contents writer.new) result }
{
    for sight in sights {
        write_package(alloc, world, sight.uuid, writer)?;
    }
    Ok(())
}

/// Writes the name and the manifest of each live package, by UUID.
fn write_packages<S: Alter + Drop, W: Write>(
    alloc: Global,
    world: &mut World<S>,
    writer: &mut W,
) -> Result<(), Failure>
    ensures stands { StandsOn S.Store world.old world.new }
    ensures written { Writes S.Store live_text world.old world.new (W.contents writer.old) (W.contents writer.new)
        result }
{
    let sights = world.packages(alloc)?;
    write_each(alloc, world, sights.as_slice(), writer)
}

// How many requests a world in the engine's arrays is asked for at most. A request costs less there
// than in files up to some ten thousand items, and more beyond: what comes into the middle of an
// index moves all behind it.
const FEW: u64 = 4096;

// How many where some of them take something out: for each thing that goes an array goes through
// all that its table holds.
const FEW_THAT_TAKE: u64 = 1024;

/// Whether a command takes things out of a package.
fn takes_out(command: &Command) -> bool {
    match command {
        Command::Delete { .. } | Command::Unlink { .. } | Command::Split { .. } => true,
        Command::Add { .. } | Command::Link { .. } | Command::Merge { .. } => false,
    }
}

/// Whether the engine's arrays serve these requests, and so many more, sooner than files in memory do.
pub(crate) fn are_few(requests: &[Request], more: u64) -> bool {
    let takes = requests.iter().any(|request| takes_out(&request.command));
    let most = if takes { FEW_THAT_TAKE } else { FEW };
    (requests.len() as u64).saturating_add(more) <= most
}

// The world, the import and the manifests.
fn carried_out<R: Read + Drop, W: Write, T: Teller>(
    alloc: Global,
    rehearsal: &Rehearsal<'_>,
    reader: R,
    writer: &mut W,
    teller: &mut T,
) -> Outcome
    ensures { Rehearses (new_world rehearsal.now.archive rehearsal.now.frame) (R.remaining reader) writer.old
        writer.new (W.contents writer.old) (W.contents writer.new) result }
{
    match read_requests(alloc, Stream(reader)) {
        Ok(requests) => over_either(alloc, rehearsal, requests.as_slice(), writer, teller),
        Err(fault) => end_of_import(ImportFault::Unread(fault)),
    }
}

// In the engine's arrays where the requests are few, and in files in memory where they are many.
fn over_either<W: Write, T: Teller>(
    alloc: Global,
    rehearsal: &Rehearsal<'_>,
    requests: &[Request],
    writer: &mut W,
    teller: &mut T,
) -> Outcome
    ensures { IsListOf requests.now (λ text. Rehearses (new_world rehearsal.now.archive rehearsal.now.frame) text
        writer.old writer.new (W.contents writer.old) (W.contents writer.new) result) }
{
    if are_few(requests, 0) {
        let mut shelf = MemoryShelf::new(alloc);
        over::<MemStore, MemoryShelf, W, T>(alloc, rehearsal, &mut shelf, requests, writer, teller)
    } else {
        let mut shelf = MemoryFileShelf::new(alloc);
        over::<FileStore<MemoryFile>, MemoryFileShelf, W, T>(
            alloc, rehearsal, &mut shelf, requests, writer, teller,
        )
    }
}

// Over the stores of this shelf, which are in memory.
fn over<S: Alter + Drop, H: Shelf<S>, W: Write, T: Teller>(
    alloc: Global,
    rehearsal: &Rehearsal<'_>,
    shelf: &mut H,
    requests: &[Request],
    writer: &mut W,
    teller: &mut T,
) -> Outcome
    ensures { IsInMemory S.Store → IsListOf requests.now (λ text. Rehearses
        (new_world rehearsal.now.archive rehearsal.now.frame) text writer.old writer.new (W.contents writer.old)
        (W.contents writer.new) result) }
{
    match handed_on::<S, H, W, T>(alloc, rehearsal, shelf, requests, writer, teller) {
        Ok(_) => Outcome::Done,
        Err(outcome) => outcome,
    }
}

/// The world that a rehearsal comes to, once its report and its packages are written; or how it ended before.
pub(crate) fn handed_on<S: Alter + Drop, H: Shelf<S>, W: Write, T: Teller>(
    alloc: Global,
    rehearsal: &Rehearsal<'_>,
    shelf: &mut H,
    requests: &[Request],
    writer: &mut W,
    teller: &mut T,
) -> Result<World<S>, Outcome>
    ensures { IsInMemory S.Store → IsListOf requests.now (λ text. HandsOn S.Store
        (new_world rehearsal.now.archive rehearsal.now.frame) text writer.old writer.new (W.contents writer.old)
        (W.contents writer.new) result) }
{
    let mut world = match new_world::<S, H>(alloc, rehearsal, shelf) {
        Ok(world) => world,
        Err(failure) => return Err(Outcome::Stopped(failure)),
    };
    if let Err(fault) = carry_out(alloc, &mut world, shelf, requests, writer, teller) {
        return Err(end_of_import(fault));
    }
    match write_packages(alloc, &mut world, writer) {
        Ok(()) => Ok(world),
        Err(failure) => Err(Outcome::Stopped(failure)),
    }
}
