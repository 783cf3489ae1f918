//! The QGIS project of an export, written out.
ghost use Rattle.std.specs.Prelude.{◌≡◌};
ghost use Rattle.sheet_types.specs.World.{World as ModelWorld, is_live};
ghost use Rattle.world.specs.Worlds.{StandsFor};
ghost use Rattle.view_field.specs.Projects.{AsksProject, EndsProject, OpensProject};

use command_folder::endings::{DONE, Ending, FAILED, NO_MEMORY};
use command_folder::folders::{OpenFolder, open_folder};
use command_words::statuses::{Outcome, What};
use manifest_csv::sending::send;
use sheet_types::reading::read_uuid;
use sqlite::Alter;
use sqlite_trees::store::Store;
use std::alloc::Global;
use std::io::Write;
use store_folder::opening::close_stores;
use store_folder::start::FolderStore;
use uuid::Uuid;
use view_project::projects::project;
use world::world::World;

/// Whether a package is live.
fn is_live<S: Alter + Drop>(world: &World<S>, package: Uuid) -> bool
    ensures { (w : ModelWorld) → StandsFor S.Store world.now w → result ≡ is_live w «package» }
{
    world.sums(package).is_some()
}

/// Writes the project of an export of a live package, for a file of this name that lies beside it.
/// The stores are not asked.
pub fn project_in<S: Alter + Drop, W: Write>(
    alloc: Global,
    world: &World<S>,
    package: Uuid,
    name: &str,
    writer: &mut W,
) -> Ending
    ensures { EndsProject S.Store «package» name.now world.now
        writer.old writer.new (W.contents writer.old) (W.contents writer.new) result }
{
    if !is_live(world, package) {
        return Ending::NoSuchPackage;
    }
    let Ok(text) = project(alloc, &world.frame(), name) else {
        return NO_MEMORY;
    };
    match send(writer, text.as_bytes()) {
        Ok(()) => DONE,
        Err(_) => FAILED,
    }
}

/// Opens a folder, and writes the project of an export of its package.
fn project_at<W: Write>(
    rt: &HostRuntime,
    folder: &str,
    package: Uuid,
    name: &str,
    writer: &mut W,
) -> Ending
    ensures { OpensProject ⟦<FolderStore as Store>⟧ «package» name.now
        writer.old writer.new (W.contents writer.old) (W.contents writer.new) result }
{
    match open_folder(rt, folder) {
        Ok(
            OpenFolder {
                world,
                lock: _lock,
                ..
            },
        ) => {
            let ending = project_in(rt.alloc(), &world, package, name, writer);
            close_stores(world.into_stores());
            ending
        }
        Err(fault) => Ending::Unopened(fault),
    }
}

/// Writes the project of an export of a package, by its UUID with hyphens, for a file of this name
/// that lies beside it. The UUID is read first: where it cannot be, nothing is opened.
pub fn project_for<W: Write>(
    rt: &HostRuntime,
    folder: &str,
    package: &str,
    name: &str,
    writer: &mut W,
) -> Ending
    ensures { AsksProject ⟦<FolderStore as Store>⟧ «package».now name.now
        writer.old writer.new (W.contents writer.old) (W.contents writer.new) result }
{
    match read_uuid(package) {
        Some(uuid) => project_at(rt, folder, uuid, name, writer),
        None => Ending::Usual(Outcome::Refused(What::BadUuid)),
    }
}
