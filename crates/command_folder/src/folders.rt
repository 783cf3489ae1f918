//! A folder of packages, opened as the world that its stores stand for.
ghost use Rattle.std.specs.Prelude.{IfErr, IfOk};
ghost use Rattle.command_folder.specs.Choosing.{AreJustOpened};
ghost use Rattle.command_folder.specs.Folders.{IsFaultOfStores, IsFolderBeside, IsWorldAt, IsWorldOf};

use crate::choosing::{FolderGlances, choose};
use crate::endings::OpenFault;
use crate::numbering::with_number;
use crate::watching::opening_line;
use opening::recovering::{Recovered, Unopened, recover};
use opening_stores::watching::Watcher;
use sqlite::{Alter, Connection};
use sqlite_trees::store::Store;
use std::alloc::Global;
use store_folder::fault::FolderFault;
use store_folder::listing::list;
use store_folder::locking::{FolderLock, lock_folder};
use store_folder::opening::{close_stores, open_stores};
use store_folder::start::FolderStore;
use uuid::Uuid;
use world::world::World;

/// The world that these stores stand for, each just opened, and how many are not of it; or why there
/// is none. A fault that a receipt names is told with its number, where the stores can be looked at
/// again. The stores that are not of the world are handed back. The watcher is told how many are
/// read.
fn world_of<S: Alter + Drop, W: Watcher>(
    alloc: Global,
    stores: Vec<Connection<S>>,
    watcher: &mut W,
) -> (Result<(World<S>, usize), OpenFault>, Vec<Connection<S>>)
    requires { AreJustOpened S.Store stores.items }
    ensures world { IfOk result.0 (λ found. IsWorldOf S.Store stores.items found.1 found.0) }
    ensures fault { IfErr result.0 (IsFaultOfStores S.Store stores.items) }
{
    match recover(alloc, stores, watcher) {
        Ok(Recovered { world, strays }) => {
            let count = strays.len();
            (Ok((world, count)), strays)
        }
        Err(Unopened { fault, stores }) => {
            let (told, stores) = with_number(alloc, fault, stores);
            (Err(told), stores)
        }
    }
}

/// A folder that is open.
#[derive(Drop)]
pub struct OpenFolder {
    /// The world that its packages stand for.
    pub world: World<FolderStore>,
    /// How many stores are of no live package.
    pub strays: usize,
    /// While it is held, no other process works in the folder.
    pub lock: FolderLock,
}

/// The world that these packages of a folder stand for, and how many of their stores are not of it.
/// Those are closed, and all of them where there is no world.
fn world_at(
    rt: &HostRuntime,
    folder: &str,
    packages: &[Uuid],
) -> Result<(World<FolderStore>, usize), OpenFault>
    ensures { IfOk result (λ found. IsWorldAt ⟦<FolderStore as Store>⟧ packages.now found.1 found.0) }
{
    let stores = open_stores(rt, folder, packages)?;
    let mut line = opening_line(rt);
    let (found, rest) = world_of(rt.alloc(), stores, &mut line);
    close_stores(rest);
    found
}

/// The world of all files of a folder whose name is that of a package's file. Of many only those are held open that
/// live, and the others are glanced at, one after the other.
fn world_in(
    rt: &HostRuntime,
    folder: &str,
    packages: Vec<Uuid>,
) -> Result<(World<FolderStore>, usize), OpenFault>
    ensures { IfOk result (λ found. IsFolderBeside ⟦<FolderStore as Store>⟧ found.1 found.0) }
{
    let chosen = choose(rt.alloc(), &FolderGlances { rt, folder }, packages)?;
    let (world, beside) = world_at(rt, folder, &chosen.packages)?;
    match beside.checked_add(chosen.left) {
        Some(strays) => Ok((world, strays)),
        None => Err(OpenFault::Folder(FolderFault::OutOfMemory)),
    }
}

/// The world that the packages of a folder stand for: of all files whose name is that of a package's
/// file. Those of packages that are not live are closed, and all of them where there is no world.
/// The lock of the folder is taken before anything is looked at. Standard error is told how many are
/// read, where it is a terminal.
///
/// # Errors
///
/// A folder or a file that cannot be had, also since another process has it; want of memory; or the
/// first fault whose condition holds of the stores.
pub fn open_folder(rt: &HostRuntime, folder: &str) -> Result<OpenFolder, OpenFault>
    ensures { IfOk result (λ opened. IsFolderBeside ⟦<FolderStore as Store>⟧ opened.strays opened.world) }
{
    let lock = lock_folder(rt, folder)?;
    let listing = list(rt, folder)?;
    let (world, strays) = world_in(rt, folder, listing.packages)?;
    Ok(OpenFolder {
        world,
        strays,
        lock,
    })
}
