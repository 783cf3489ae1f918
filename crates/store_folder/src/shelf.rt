//! A shelf of stores in the files of a folder.
ghost use Rattle.std.specs.Prelude.{◌≡◌, ◌≤◌, ⊤, IfOk};
ghost use Rattle.sqlite_disk.specs.Disk.{CountsFault, MoreFaults};
ghost use Rattle.sqlite.specs.Files.{file_state};
ghost use Rattle.sqlite.specs.Held.{IsNew};
ghost use Rattle.sqlite.specs.State.{HasCleanDisk};
ghost use Rattle.store_sql.specs.Blank.{IsBlank, no_schema};

use crate::fault::{FolderFault, fault_of};
use crate::founding::is_free;
use crate::names::{file_name, path_of};
use crate::opening::files_at;
use crate::removing::remove_store;
use crate::start::{Empty, FolderStore};
use sqlite::{Connection, Error, ErrorCode};
use store_faults::shelf::ShelfFault;
use store_shelf::shelf::Shelf;
use uuid::Uuid;

/// Makes each store in the file of its package, in place of whatever stood there under its name,
/// and takes away that of a package that comes back. The folder is there already.
#[derive(Drop)]
pub struct FolderShelf<'f> {
    rt: &'f HostRuntime,
    folder: &'f str,
    failures: u64,
    remnants: u64,
}

impl<'f> FolderShelf<'f> {
    /// A shelf over this folder that has not failed.
    pub fn new(rt: &'f HostRuntime, folder: &'f str) -> FolderShelf<'f>
        ensures { ⟦<FolderShelf<'f> as Shelf<FolderStore>>⟧.failures_of result ≡ 0 }
    {
        FolderShelf {
            rt,
            folder,
            failures: 0,
            remnants: 0,
        }
    }

    /// How often the files of a package that came back could not be removed.
    pub fn remnants(&self) -> u64
        ensures { result ≡ self.now.remnants }
    {
        self.remnants
    }
}

impl<'f> Shelf<FolderStore> for FolderShelf<'f> {
    ghost failures_of = { λ shelf. shelf.failures };

    // No clause can speak of the files of a folder. That a register asks for no package but the one
    // that it promises is proved over all shelves.
    ghost asks = { λ uuid old new. ⊤ };

    ghost takes = { λ uuid store old new. ⊤ };

    fn blank(&mut self, package: Uuid) -> Result<Connection<FolderStore>, ShelfFault>
        ensures blank { IfOk result (λ conn. HasCleanDisk (file_state conn)
            → IsBlank no_schema (file_state conn).now) }
        ensures fresh { IfOk result IsNew }
        ensures counts { CountsFault result self.old.failures self.new.failures }
    {
        match blank_in_folder(self.rt, self.folder, package) {
            Ok(store) => Ok(store),
            Err(fault) => Err(count_fault(fault.into(), &mut self.failures)),
        }
    }

    // The files are closed first, and no log is copied: they are to go. What stays is a stray of
    // the folder. A file of the package's name that is still held is that of another store, under a
    // name that is not its own: it stays.
    fn retire(&mut self, package: Uuid, store: FolderStore)
        ensures counts { self.new.failures ≡ self.old.failures }
        ensures more { self.old.remnants ≤ self.new.remnants }
    {
        drop(store);
        if remove_unheld(self.rt, self.folder, package).is_err() {
            self.remnants = self.remnants.saturating_add(1);
        }
    }

    fn failures(&self) -> u64 {
        self.failures
    }
}

/// The fault, which is counted.
fn count_fault(fault: ShelfFault, failures: &mut u64) -> ShelfFault
    ensures rises { MoreFaults failures.old failures.new }
    ensures more { failures.old ≤ failures.new }
{
    *failures = failures.saturating_add(1);
    fault
}

/// Sees that no store has the file of a package open. Whoever renames files may have a live package
/// in it, which must not go.
fn see_unheld(rt: &HostRuntime, folder: &str, package: Uuid) -> Result<(), FolderFault> {
    let name = file_name(rt.alloc(), package)?;
    let path = path_of(rt.alloc(), folder, name.as_str())?;
    if is_free(rt, path.as_str()) {
        return Ok(());
    }
    match files_at(rt, path.as_str()) {
        Err(Error::SqliteFailure(ErrorCode::DatabaseBusy)) => Err(FolderFault::PackageHeld(
            package,
        )),
        Err(Error::SqliteFailure(ErrorCode::OutOfMemory)) => Err(FolderFault::OutOfMemory),
        _ => Ok(()),
    }
}

/// Removes the files of a package, unless a store has them open.
fn remove_unheld(rt: &HostRuntime, folder: &str, package: Uuid) -> Result<(), FolderFault> {
    see_unheld(rt, folder, package)?;
    remove_store(rt, folder, package)
}

/// An empty store in the file of a package, in place of whatever stood there. That it is empty is
/// known under the premise of `Empty`, since its files were removed before.
///
/// # Errors
///
/// `PackageHeld`, where a store has that file open; else what `remove_store` and the opening of a new file answer.
pub fn blank_in_folder(
    rt: &HostRuntime,
    folder: &str,
    package: Uuid,
) -> Result<Connection<FolderStore>, FolderFault>
    ensures blank { IfOk result (λ conn. HasCleanDisk (file_state conn)
        → IsBlank no_schema (file_state conn).now) }
    ensures fresh { IfOk result IsNew }
{
    remove_unheld(rt, folder, package)?;
    let name = file_name(rt.alloc(), package)?;
    blank_named(rt, folder, package, name.as_str())
}

/// An empty store of a package in the file of this name, which is not there.
pub(crate) fn blank_named(
    rt: &HostRuntime,
    folder: &str,
    package: Uuid,
    name: &str,
) -> Result<Connection<FolderStore>, FolderFault>
    ensures blank { IfOk result (λ conn. HasCleanDisk (file_state conn)
        → IsBlank no_schema (file_state conn).now) }
    ensures fresh { IfOk result IsNew }
{
    let path = path_of(rt.alloc(), folder, name)?;
    match Connection::open_from(rt, path.as_str(), false, Empty) {
        Ok(conn) => Ok(conn),
        Err((error, _)) => Err(fault_of(package, error)),
    }
}
