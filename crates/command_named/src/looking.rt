//! What is looked at in a folder by a word that names a package or an item.
//! The one place where a folder's stores are handed to functions over any store.
ghost use Rattle.command_named.specs.Looking.{NamedLooked, OpensNamed};

use crate::items::item_in;
use crate::packages::{PackageLook, package_in};
use crate::ways::named_way_in;
use command_folder::endings::Ending as CommandEnding;
use command_folder::folders::{OpenFolder, open_folder};
use command_names::hints::Hint;
use sqlite::{Alter, Connection};
use sqlite_trees::store::Store;
use std::alloc::Global;
use std::io::Write;
use store_folder::opening::close_stores;
use store_folder::start::FolderStore;
use view_json::forms::Form;
use views::endings::Ending;
use world::world::World;

/// What is looked at, by the word that names it.
#[derive(Clone, Copy)]
pub enum NamedLook<'t> {
    /// What stands in this item.
    Get(&'t str),
    /// The way of this item in a form. The item may be deleted since.
    Explain(Form, &'t str),
    /// The manifest of this package.
    Manifest(&'t str),
    /// The SQL of this package.
    Export(&'t str),
}

/// Prints what a word names in a world, whose stores are handed on. Where it names none, what comes
/// nearest is told beside it.
fn named_in<'t, S: Alter + Drop, W: Write>(
    alloc: Global,
    world: World<S>,
    asked: NamedLook<'t>,
    writer: &mut W,
) -> (Ending, Option<Hint<'t>>, Vec<Connection<S>>)
    ensures { NamedLooked S.Store world result.2.items writer.old writer.new
        (W.contents writer.old) (W.contents writer.new) asked.entry result.0 result.1 }
{
    match asked {
        NamedLook::Get(word) => item_in(alloc, world, word, writer),
        NamedLook::Explain(form, word) => named_way_in(alloc, world, form, word, writer),
        NamedLook::Manifest(word) => package_in(alloc, world, PackageLook::Manifest, word, writer),
        NamedLook::Export(word) => package_in(alloc, world, PackageLook::Export, word, writer),
    }
}

/// Opens a folder, and prints what a word names in its world.
/// Where it names none, what comes nearest is told beside it.
pub fn named_look_for<'t, W: Write>(
    rt: &HostRuntime,
    folder: &str,
    asked: NamedLook<'t>,
    writer: &mut W,
) -> (Ending, Option<Hint<'t>>)
    ensures { OpensNamed ⟦<FolderStore as Store>⟧ asked.entry writer.old writer.new
        (W.contents writer.old) (W.contents writer.new) result.0 result.1 }
{
    match open_folder(rt, folder) {
        Ok(
            OpenFolder {
                world,
                lock: _lock,
                ..
            },
        ) => {
            let (ending, hint, stores) = named_in(rt.alloc(), world, asked, writer);
            close_stores(stores);
            (ending, hint)
        }
        Err(fault) => (Ending::Usual(CommandEnding::Unopened(fault)), None),
    }
}
