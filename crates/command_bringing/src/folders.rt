//! The words, and the folder whose package is to hold what a file holds.
ghost use Rattle.std.specs.Prelude.{IfErr, IfOk};
ghost use Rattle.command_bringing.specs.Opens.{Asks, BringsFor, EndsBring, IsUnread, OpensBring};

use crate::bringing::{Purpose, bring_in};
use command_field::asking::Ask;
use command_folder::endings::Ending;
use command_folder::folders::{OpenFolder, open_folder};
use command_words::statuses::{Outcome, What};
use manifest_csv::progress::Teller;
use sheet_types::moments::is_moment;
use sheet_types::reading::read_uuid;
use sqlite::{Alter, Connection};
use sqlite_trees::store::Store;
use std::alloc::Global;
use std::io::{Read, Write};
use store_folder::opening::close_stores;
use store_folder::shelf::FolderShelf;
use store_folder::start::FolderStore;
use store_shelf::shelf::Shelf;
use world::world::World;

/// The words of a command that brings a file home.
#[derive(Clone, Copy)]
pub struct BringWords<'a> {
    /// The UUID of the package.
    pub package: &'a str,
    /// The moment of the requests.
    pub at: &'a str,
    /// Whether nothing is taken away.
    pub more: bool,
}

/// What words ask for.
fn read_ask<'a>(words: &BringWords<'a>) -> Result<Ask<'a>, What>
    ensures ok { IfOk result (Asks words.now) }
    ensures err { IfErr result (IsUnread words.now) }
{
    let Some(package) = read_uuid(words.package) else {
        return Err(What::BadUuid);
    };
    if !is_moment(words.at) {
        return Err(What::BadMoment);
    }
    Ok(Ask {
        package,
        at: words.at,
        more: words.more,
    })
}

/// Brings a file home into a world that ends with it: its stores are handed on.
fn bring_with<S: Alter + Drop, H: Shelf<S>, R: Read + Drop, W: Write, T: Teller>(
    alloc: Global,
    mut world: World<S>,
    shelf: &mut H,
    ask: &Ask<'_>,
    purpose: Purpose,
    reader: R,
    writer: &mut W,
    teller: &mut T,
) -> (Ending, &'static str, Vec<Connection<S>>)
    ensures { EndsBring S.Store writer.old writer.new (W.contents writer.old) (W.contents writer.new)
        ask.now (R.remaining reader) purpose world result.2.items result.0 }
{
    let (ending, note) = bring_in(
        alloc, &mut world, shelf, ask, purpose, reader, writer, teller,
    );
    (ending, note, world.into_stores())
}

/// Opens a folder, and brings a file home into its world.
fn bring_at<R: Read + Drop, W: Write, T: Teller>(
    rt: &HostRuntime,
    folder: &str,
    ask: &Ask<'_>,
    purpose: Purpose,
    reader: R,
    writer: &mut W,
    teller: &mut T,
) -> (Ending, &'static str)
    ensures { OpensBring ⟦<FolderStore as Store>⟧ writer.old writer.new (W.contents writer.old)
        (W.contents writer.new)
        ask.now (R.remaining reader) purpose result.0 }
{
    match open_folder(rt, folder) {
        Ok(
            OpenFolder {
                world,
                lock: _lock,
                ..
            },
        ) => {
            let mut shelf = FolderShelf::new(rt, folder);
            let (ending, note, stores) = bring_with(
                rt.alloc(),
                world,
                &mut shelf,
                ask,
                purpose,
                reader,
                writer,
                teller,
            );
            close_stores(stores);
            (ending, note)
        }
        Err(fault) => (Ending::Unopened(fault), ""),
    }
}

/// Reads a list of what a file holds, and shows or carries out the requests that make a package of
/// a folder hold that. The words are read first; then the folder is opened, and
/// then the list is read. Answers besides what is said of a refusal in plain words.
pub fn bring_for<R: Read + Drop, W: Write, T: Teller>(
    rt: &HostRuntime,
    folder: &str,
    words: &BringWords<'_>,
    purpose: Purpose,
    reader: R,
    writer: &mut W,
    teller: &mut T,
) -> (Ending, &'static str)
    ensures { BringsFor ⟦<FolderStore as Store>⟧ writer.old writer.new (W.contents writer.old)
        (W.contents writer.new)
        words.now (R.remaining reader) purpose result.0 }
{
    match read_ask(words) {
        Ok(ask) => bring_at(rt, folder, &ask, purpose, reader, writer, teller),
        Err(what) => (Ending::Usual(Outcome::Refused(what)), ""),
    }
}
