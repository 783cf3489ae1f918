//! What is done over a folder: the words, and the one place in which its stores are opened for it.
//! All that is made of a world stands in functions over any store.
ghost use Rattle.std.specs.Prelude.{IfNone, IfSome};
ghost use Rattle.commands.specs.Works.{Asks, EndsWork, IsUnread, OpensFor, Worked, Works};

use crate::importing::import_file;
use crate::serving::serve_world;
use crate::streaming::apply_each_in;
use command_folder::endings::Ending;
use command_folder::folders::{OpenFolder, open_folder};
use command_words::arguments::{Desk, DeskWords, read_desk};
use command_words::statuses::{Outcome, What};
use desk_http::clerks::Clerk;
use desk_http::telling::DeskTeller;
use manifest_csv::progress::Teller;
use sqlite::{Alter, Connection};
use sqlite_trees::store::Store;
use std::io::{Read, Write};
use store_folder::opening::close_stores;
use store_folder::shelf::FolderShelf;
use store_folder::start::FolderStore;
use store_shelf::shelf::Shelf;
use world::world::World;

/// What is done, by its words as they were typed.
#[derive(Clone, Copy)]
pub enum Asked<'t> {
    /// Requests as JSON are read, a line each or one alone, and carried out, and their replies written as JSON, a line
    /// each.
    Apply,
    /// The request list of this file is carried out, and its report written.
    Import(&'t str),
    /// So many connections of 127.0.0.1 at a port are served, one after the other.
    Serve(DeskWords<'t>),
}

/// The same, the words read.
#[derive(Clone, Copy)]
pub enum Work<'t> {
    Apply,
    Import(&'t str),
    Serve(Desk),
}

/// What words ask for; `None` where a number of theirs is none, or out of its range.
fn read_asked(asked: Asked<'_>) -> Option<Work<'_>>
    ensures some { IfSome result (Asks asked.entry) }
    ensures none { IfNone result (IsUnread asked.entry) }
{
    match asked {
        Asked::Apply => Some(Work::Apply),
        Asked::Import(file) => Some(Work::Import(file)),
        Asked::Serve(words) => match read_desk(&words) {
            Some(desk) => Some(Work::Serve(desk)),
            None => None,
        },
    }
}

/// Does it over a world and a shelf. The teller is told of each request of a list that is done, and of each connection
/// of a desk. The clerk carries out the commands that are asked of a desk.
fn do_work<
    S: Alter + Drop,
    H: Shelf<S>,
    R: Read + Drop,
    W: Write,
    T: Teller + DeskTeller,
    K: Clerk,
>(
    rt: &HostRuntime,
    world: &mut World<S>,
    shelf: &mut H,
    work: Work<'_>,
    reader: R,
    writer: &mut W,
    teller: &mut T,
    clerk: &mut K,
) -> Ending
    ensures { Worked S.Store (R.remaining reader) world.old world.new
        writer.old writer.new (W.contents writer.old) (W.contents writer.new) work.entry result }
{
    match work {
        Work::Apply => apply_each_in(rt.alloc(), world, shelf, reader, writer),
        Work::Import(file) => import_file(rt, world, shelf, file, writer, teller),
        Work::Serve(desk) => serve_world(rt, world, shelf, desk, teller, clerk),
    }
}

/// The same of a world that ends with it: its stores are handed on.
fn work_in<
    S: Alter + Drop,
    H: Shelf<S>,
    R: Read + Drop,
    W: Write,
    T: Teller + DeskTeller,
    K: Clerk,
>(
    rt: &HostRuntime,
    mut world: World<S>,
    shelf: &mut H,
    work: Work<'_>,
    reader: R,
    writer: &mut W,
    teller: &mut T,
    clerk: &mut K,
) -> (Ending, Vec<Connection<S>>)
    ensures { EndsWork S.Store (R.remaining reader) world result.1.items
        writer.old writer.new (W.contents writer.old) (W.contents writer.new) work.entry result.0 }
{
    let ending = do_work(rt, &mut world, shelf, work, reader, writer, teller, clerk);
    (ending, world.into_stores())
}

/// Opens a folder, and does it over its world.
///
/// The one place where a folder's stores are handed to a function over any store: the check pays
/// for their type at each such call anew.
fn work_at<R: Read + Drop, W: Write, T: Teller + DeskTeller, K: Clerk>(
    rt: &HostRuntime,
    folder: &str,
    work: Work<'_>,
    reader: R,
    writer: &mut W,
    teller: &mut T,
    clerk: &mut K,
) -> Ending
    ensures { OpensFor ⟦<FolderStore as Store>⟧ (R.remaining reader) work.entry
        writer.old writer.new (W.contents writer.old) (W.contents writer.new) result }
{
    match open_folder(rt, folder) {
        Ok(
            OpenFolder {
                world,
                lock: _lock,
                ..
            },
        ) => {
            let mut shelf = FolderShelf::new(rt, folder);
            let (ending, stores) = work_in(
                rt, world, &mut shelf, work, reader, writer, teller, clerk,
            );
            close_stores(stores);
            ending
        }
        Err(fault) => Ending::Unopened(fault),
    }
}

/// Does what words ask for over the packages of a folder. The words are read first: where they
/// cannot be, nothing is opened and nothing is written.
/// The folder is opened before anything is read.
pub fn work_for<R: Read + Drop, W: Write, T: Teller + DeskTeller, K: Clerk>(
    rt: &HostRuntime,
    folder: &str,
    asked: Asked<'_>,
    reader: R,
    writer: &mut W,
    teller: &mut T,
    clerk: &mut K,
) -> Ending
    ensures { Works ⟦<FolderStore as Store>⟧ (R.remaining reader) asked.entry
        writer.old writer.new (W.contents writer.old) (W.contents writer.new) result }
{
    match read_asked(asked) {
        Some(work) => work_at(rt, folder, work, reader, writer, teller, clerk),
        None => Ending::Usual(Outcome::Refused(What::BadNumber)),
    }
}
