//! A folder, made tidy: files that its register can do without are taken out.
ghost use Rattle.std.specs.Prelude.{◌≡◌, ⊤, IfOk, IfSome};
ghost use Rattle.sqlite.specs.Held.{state};
ghost use Rattle.package_schema.specs.Looking.{LooksAt};
ghost use Rattle.opening_v1.specs.Either.{IsSeenAtEither};
ghost use Rattle.store_sql.specs.Transactions.{Rests};
ghost use Rattle.commands.specs.Tidies.{EndsTidy, IsLookedAt, StaysTidy, TellsTidied, Tidies, TidiesBeside};
ghost use Rattle.commands.specs.Tidies.{TidiesFolder, TidiesWorld, tidy_ending};

use crate::registers::{register_in, register_of};
use command_folder::endings::{DONE, Ending, FAILED, NO_MEMORY};
use command_folder::folders::{OpenFolder, open_folder};
use command_tidying::lines::removed_lines;
use command_tidying::tidying::{Tidied, tidy_by};
use command_tidying::yard::Yard;
use command_words::statuses::{Failure, Outcome};
use manifest_csv::sending::send;
use opening_v1::either::survey_either;
use opening_verdict::seen::StoreSeen;
use package_tables::fault::Fault;
use sqlite::{Alter, Connection};
use sqlite_trees::store::Store;
use std::alloc::Global;
use std::io::Write;
use store_folder::fault::FolderFault;
use store_folder::listing::folder_bytes;
use store_folder::opening::{close_stores, open_stores};
use store_folder::removing::remove;
use store_folder::start::FolderStore;
use store_sql::resting::is_at_rest;
use uuid::Uuid;
use world::world::World;

/// What is seen of a store; `None` where it fails.
fn look_into<S: Alter>(
    alloc: Global,
    conn: &mut Connection<S>,
) -> Result<Option<StoreSeen>, FolderFault>
    ensures { IfOk result (λ found. IfSome found (IsLookedAt S.Store conn.old conn.new)) }
{
    if !is_at_rest(conn) {
        return Ok(None);
    }
    match survey_either(conn, alloc) {
        Ok(seen) => Ok(Some(seen)),
        Err(Fault::OutOfMemory) => Err(FolderFault::OutOfMemory),
        Err(Fault::StoreFault) => Ok(None),
    }
}

/// The same of the first of some stores, which are handed back.
fn look_first<S: Alter + Drop>(
    alloc: Global,
    mut stores: Vec<Connection<S>>,
) -> (Result<Option<StoreSeen>, FolderFault>, Vec<Connection<S>>) {
    if stores.is_empty() {
        return (Ok(None), stores);
    }
    let seen = look_into(alloc, &mut stores[0]);
    (seen, stores)
}

/// A folder of the file system.
#[derive(Drop)]
struct FolderYard<'f> {
    rt: &'f HostRuntime,
    folder: &'f str,
}

impl<'f> Yard for FolderYard<'f> {
    // No clause can speak of the files of a folder: these bodies have to be read.
    ghost listed = { λ bytes. ⊤ };

    ghost shown = { λ uuid seen. ⊤ };

    ghost removes = { λ name old new. ⊤ };

    fn names(&self, _alloc: Global) -> Result<Vec<u8>, FolderFault> {
        Ok(folder_bytes(self.rt, self.folder)?)
    }

    fn look(&self, alloc: Global, package: Uuid) -> Result<Option<StoreSeen>, FolderFault> {
        match open_stores(self.rt, self.folder, [package].as_slice()) {
            Ok(stores) => {
                let (seen, stores) = look_first(alloc, stores);
                close_stores(stores);
                seen
            }
            Err(FolderFault::OutOfMemory) => Err(FolderFault::OutOfMemory),
            Err(_) => Ok(None),
        }
    }

    fn remove_file(&mut self, name: &str) -> Result<(), FolderFault> {
        remove(self.rt, self.folder, name)
    }
}

/// How the program ends after files were taken out.
fn ending_of(fault: Option<FolderFault>) -> Ending
    ensures { result ≡ tidy_ending fault }
{
    match fault {
        None => DONE,
        Some(FolderFault::OutOfMemory) => NO_MEMORY,
        Some(_) => FAILED,
    }
}

/// Tells what was taken out.
fn tell<W: Write>(alloc: Global, done: &Tidied, writer: &mut W) -> Ending
    ensures { TellsTidied done.now writer.old writer.new
        (W.contents writer.old) (W.contents writer.new) result }
{
    let Ok(text) = removed_lines(alloc, &done.names) else {
        return NO_MEMORY;
    };
    match send(writer, text.as_bytes()) {
        Ok(()) => ending_of(done.fault),
        Err(_) => FAILED,
    }
}

/// Makes the folder of a world tidy. The world ends with it; its stores are handed on, only read.
///
/// # Errors
///
/// Want of memory, a store that failed, or a world that has: nothing is taken out then.
fn tidy_world<S: Alter + Drop, Y: Yard>(
    alloc: Global,
    world: World<S>,
    yard: &mut Y,
) -> (Result<Tidied, Fault>, Vec<Connection<S>>)
    ensures { TidiesWorld S.Store Y.listed Y.shown Y.removes world result.1.items
        yard.old yard.new result.0 }
{
    let (register, stores) = register_of(alloc, world);
    match register {
        Ok(register) => (Ok(tidy_by(alloc, yard, &register)), stores),
        Err(fault) => (Err(fault), stores),
    }
}

/// Makes the folder of a world tidy, and writes a line for each file that was taken out.
pub fn tidy_in<S: Alter + Drop, Y: Yard, W: Write>(
    alloc: Global,
    world: World<S>,
    yard: &mut Y,
    writer: &mut W,
) -> (Ending, Vec<Connection<S>>)
    ensures { EndsTidy S.Store Y.listed Y.shown Y.removes world result.1.items yard.old yard.new
        writer.old writer.new (W.contents writer.old) (W.contents writer.new) result.0 }
{
    let (done, stores) = tidy_world(alloc, world, yard);
    match done {
        Ok(done) => (tell(alloc, &done, writer), stores),
        Err(fault) => (
            Ending::Usual(Outcome::Stopped(Failure::from(fault))),
            stores,
        ),
    }
}

/// Makes the folder of a world that stays tidy, and writes a line for each file that was taken out. The world is only
/// read: what lives in it is neither looked into by the yard nor taken out.
pub fn tidy_over<S: Alter + Drop, Y: Yard, W: Write>(
    alloc: Global,
    world: &mut World<S>,
    yard: &mut Y,
    writer: &mut W,
) -> Ending
    ensures { StaysTidy S.Store Y.listed Y.shown Y.removes world.old world.new yard.old yard.new
        writer.old writer.new (W.contents writer.old) (W.contents writer.new) result }
{
    match register_in(alloc, world) {
        Ok(register) => {
            let done = tidy_by(alloc, yard, &register);
            tell(alloc, &done, writer)
        }
        Err(fault) => Ending::Usual(Outcome::Stopped(Failure::from(fault))),
    }
}

/// The same of a folder of the file system, whose world this is and which is locked for it.
pub fn tidy_beside<S: Alter + Drop, W: Write>(
    rt: &HostRuntime,
    folder: &str,
    world: &mut World<S>,
    writer: &mut W,
) -> Ending
    ensures { TidiesBeside S.Store world.old world.new
        writer.old writer.new (W.contents writer.old) (W.contents writer.new) result }
{
    let mut yard = FolderYard { rt, folder };
    tidy_over(rt.alloc(), world, &mut yard, writer)
}

/// Opens a folder, and makes it tidy by a yard.
fn tidy_at<Y: Yard, W: Write>(
    rt: &HostRuntime,
    folder: &str,
    yard: &mut Y,
    writer: &mut W,
) -> Ending
    ensures { Tidies ⟦<FolderStore as Store>⟧ Y.listed Y.shown Y.removes yard.old yard.new
        writer.old writer.new (W.contents writer.old) (W.contents writer.new) result }
{
    match open_folder(rt, folder) {
        Ok(
            OpenFolder {
                world,
                lock: _lock,
                ..
            },
        ) => {
            let (ending, stores) = tidy_in(rt.alloc(), world, yard, writer);
            close_stores(stores);
            ending
        }
        Err(fault) => Ending::Unopened(fault),
    }
}

/// Takes out of a folder what its register can do without, and writes a line for each file: of loans that came home,
/// of splits that were stopped, and what stands beside no package.
pub fn tidy<W: Write>(rt: &HostRuntime, folder: &str, writer: &mut W) -> Ending
    ensures { TidiesFolder ⟦<FolderStore as Store>⟧ writer.old writer.new
        (W.contents writer.old) (W.contents writer.new) result }
{
    let mut yard = FolderYard { rt, folder };
    tidy_at(rt, folder, &mut yard, writer)
}
