//! A new archive in a folder that holds no packages.
ghost use Rattle.std.specs.Prelude.{◌≡◌, ℕ, List, IfOk, IfErr, OnOk, string_bytes};
ghost use Rattle.sqlite.specs.Held.{state};
ghost use Rattle.sqlite.specs.State.{HasCleanDisk};
ghost use Rattle.sheet_types.specs.declared.frame.Frame.{Frame};
ghost use Rattle.store_sql.specs.Blank.{IsBlank, no_schema};
ghost use Rattle.command_words.specs.Arguments.{Asks, IsFirstUnread};
ghost use Rattle.command_words.specs.declared.statuses.What.{What};
ghost use Rattle.command_words.specs.declared.statuses.Outcome.TheVariants.{Refused};
ghost use Rattle.commands.specs.Printing.{archive_line};
ghost use Rattle.commands.specs.Subcommands.{AreNewStores, Inits, IsFounded, IsNew, IsUnmade};
ghost use Rattle.command_folder.specs.declared.endings.Ending.TheVariants.{Usual};

use command_folder::endings::{DONE, Ending, FAILED, NO_MEMORY, OpenFault};
use command_words::arguments::{Rehearsal, Words, read_rehearsal};
use command_words::statuses::{Failure, Outcome};
use manifest_csv::sending::send;
use sqlite::{Alter, Connection};
use sqlite_trees::store::Store;
use std::alloc::{AllocError, Global};
use std::io::Write;
use store_folder::fault::FolderFault;
use store_folder::founding::{blank_unfinished, finish, remove_unfinished};
use store_folder::listing::list;
use store_folder::locking::lock_folder;
use store_folder::start::FolderStore;
use uuid::Uuid;
use world::world::World;

/// The world of a new archive, in a store that is blank.
fn new_world<S: Alter + Drop>(
    alloc: Global,
    rehearsal: &Rehearsal<'_>,
    conn: Connection<S>,
) -> Result<World<S>, Failure>
    requires { HasCleanDisk (state S.Store conn) → IsBlank no_schema (state S.Store conn).now }
    ensures { IfOk result (IsNew S.Store rehearsal.now.archive rehearsal.now.at.now rehearsal.now.frame) }
{
    let world = World::create(
        alloc,
        conn,
        rehearsal.archive,
        rehearsal.at,
        &rehearsal.frame,
    )?;
    // Whoever asks also learns that it has no store beside.
    world.has_failed();
    Ok(world)
}

/// The stores of the same world, all of them.
fn new_stores<S: Alter + Drop>(
    alloc: Global,
    rehearsal: &Rehearsal<'_>,
    conn: Connection<S>,
) -> Result<Vec<Connection<S>>, Failure>
    requires { HasCleanDisk (state S.Store conn) → IsBlank no_schema (state S.Store conn).now }
    ensures { IfOk result (λ stores. AreNewStores S.Store rehearsal.now.archive rehearsal.now.at.now
        rehearsal.now.frame stores.items) }
{
    let world = new_world(alloc, rehearsal, conn)?;
    Ok(world.into_stores())
}

/// The line that names an archive.
fn archive_line(alloc: Global, archive: Uuid) -> Result<String, AllocError>
    ensures { IfOk result (λ line. string_bytes line ≡ archive_line archive) }
{
    format!(in alloc; "archive {archive}\n")
}

/// Makes a new archive in a file that is no package's yet, and gives it the archive's name once it is whole.
fn make_whole(rt: &HostRuntime, rehearsal: &Rehearsal<'_>, folder: &str) -> Result<(), Ending>
    ensures founded { OnOk result (IsFounded ⟦<FolderStore as Store>⟧ rehearsal.now.archive rehearsal.now.at.now
        rehearsal.now.frame) }
    ensures unmade { IfErr result IsUnmade }
{
    let conn = match blank_unfinished(rt, folder, rehearsal.archive) {
        Ok(conn) => conn,
        Err(fault) => return Err(folder_ending(fault)),
    };
    let made: Result<Vec<Connection<FolderStore>>, Failure> = new_stores(
        rt.alloc(),
        rehearsal,
        conn,
    );
    match made {
        Ok(stores) => match finish(rt, folder, rehearsal.archive, stores) {
            Ok(()) => Ok(()),
            Err(fault) => Err(folder_ending(fault)),
        },
        Err(failure) => Err(Ending::Usual(Outcome::Stopped(failure))),
    }
}

/// Makes the file of a new archive in a folder. Where it cannot be made whole, what was made of it is removed.
fn make(rt: &HostRuntime, rehearsal: &Rehearsal<'_>, folder: &str) -> Result<(), Ending>
    ensures founded { OnOk result (IsFounded ⟦<FolderStore as Store>⟧ rehearsal.now.archive rehearsal.now.at.now
        rehearsal.now.frame) }
    ensures unmade { IfErr result IsUnmade }
{
    let made = make_whole(rt, rehearsal, folder);
    if made.is_err() {
        // The fault is told, whatever becomes of the file.
        let _removed = remove_unfinished(rt, folder, rehearsal.archive);
    }
    made
}

/// Makes the archive in a folder that holds no packages, while no other process works in it.
fn make_alone(rt: &HostRuntime, rehearsal: &Rehearsal<'_>, folder: &str) -> Result<(), Ending>
    ensures founded { OnOk result (IsFounded ⟦<FolderStore as Store>⟧ rehearsal.now.archive rehearsal.now.at.now
        rehearsal.now.frame) }
    ensures unmade { IfErr result IsUnmade }
{
    let _lock = match lock_folder(rt, folder) {
        Ok(lock) => lock,
        Err(fault) => return Err(folder_ending(fault)),
    };
    match list(rt, folder) {
        Ok(listing) if listing.holds_packages => Err(Ending::HoldsPackages),
        Ok(_) => make(rt, rehearsal, folder),
        Err(fault) => Err(folder_ending(fault)),
    }
}

/// How a folder that fails ends the program.
fn folder_ending(fault: FolderFault) -> Ending
    ensures { IsUnmade result }
{
    Ending::Unopened(OpenFault::from(fault))
}

/// Makes the archive that good words ask for in a folder that holds no packages, and writes the line that names it.
fn make_archive<W: Write>(
    rt: &HostRuntime,
    rehearsal: &Rehearsal<'_>,
    folder: &str,
    writer: &mut W,
) -> Ending
    ensures { Inits ⟦<FolderStore as Store>⟧ rehearsal.now.archive rehearsal.now.at.now rehearsal.now.frame
        writer.old writer.new (W.contents writer.old) (W.contents writer.new) result }
{
    let line = match archive_line(rt.alloc(), rehearsal.archive) {
        Ok(line) => line,
        Err(_) => return NO_MEMORY,
    };
    if let Err(ending) = make_alone(rt, rehearsal, folder) {
        return ending;
    }
    match send(writer, line.as_bytes()) {
        Ok(()) => DONE,
        Err(_) => FAILED,
    }
}

/// Makes the archive that the words ask for, as `<uuid>.gpkg` in a folder that is there and holds
/// no packages, and writes the line that names it.
/// The words are read first: where one of them cannot be, nothing is made and nothing is written.
pub fn init<W: Write>(rt: &HostRuntime, words: &Words<'_>, folder: &str, writer: &mut W) -> Ending
    ensures refused { (what : What) → IsFirstUnread words.now.archive.now words.now.at.now words.now.frame.now what
        → result ≡ Usual (Refused what) }
    ensures unwritten { (what : What) → IsFirstUnread words.now.archive.now words.now.at.now words.now.frame.now what
        → writer.new ≡ writer.old }
    ensures made { (uuid moment : List ℕ) (frame : Frame) → Asks words.now.archive.now words.now.at.now
        words.now.frame.now uuid moment frame → Inits ⟦<FolderStore as Store>⟧ uuid moment frame
        writer.old writer.new (W.contents writer.old) (W.contents writer.new) result }
{
    match read_rehearsal(words) {
        Ok(rehearsal) => make_archive(rt, &rehearsal, folder, writer),
        Err(what) => Ending::Usual(Outcome::Refused(what)),
    }
}
