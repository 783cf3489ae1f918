//! The store of a new archive: it is made under another name, and gets its own when it is whole. So
//! what stops before leaves no package.
ghost use Rattle.std.specs.Prelude.{◌≡◌, IfErr, IfOk, string_bytes};
ghost use Rattle.sqlite.specs.Files.{file_state};
ghost use Rattle.sqlite.specs.Held.{IsNew};
ghost use Rattle.sqlite.specs.State.{HasCleanDisk};
ghost use Rattle.store_sql.specs.Blank.{IsBlank, no_schema};
ghost use Rattle.store_folder.specs.Names.{unfinished_name};
ghost use Rattle.store_folder.specs.declared.fault.FolderFault.TheVariants.{NameUnsettled};

use crate::closing::close_all;
use crate::fault::{FolderFault, fault_of};
use crate::names::{file_name, path_of};
use crate::removing::{remove_beside, remove_files};
use crate::shelf::blank_named;
use crate::start::FolderStore;
use sqlite::Connection;
use std::alloc::{AllocError, Global};
use std::fs::{self, File};
use std::io;
use uuid::Uuid;

/// The name of the file of a package that is not whole yet: that of its file and `-new`. It ends as
/// no package's file does.
pub fn unfinished_name(alloc: Global, package: Uuid) -> Result<String, AllocError>
    ensures { IfOk result (λ name. string_bytes name ≡ unfinished_name «package») }
{
    format!(in alloc; "{package}.gpkg-new")
}

/// An empty store in a file that is no package's yet. What an earlier call or a package of this
/// UUID left goes first: a log that stayed would be taken for that of the new file. The file of a
/// package itself is left alone.
///
/// # Errors
///
/// What the removal of such files and the opening of a new one answer.
pub fn blank_unfinished(
    rt: &HostRuntime,
    folder: &str,
    package: Uuid,
) -> Result<Connection<FolderStore>, FolderFault>
    ensures blank { IfOk result (λ conn. HasCleanDisk (file_state conn)
        → IsBlank no_schema (file_state conn).now) }
    ensures fresh { IfOk result IsNew }
{
    let file = file_name(rt.alloc(), package)?;
    remove_beside(rt, folder, file.as_str())?;
    let name = unfinished_name(rt.alloc(), package)?;
    blank_named(rt, folder, package, name.as_str())
}

/// Removes what was made of a package that is not whole.
pub fn remove_unfinished(rt: &HostRuntime, folder: &str, package: Uuid) -> Result<(), FolderFault> {
    let name = unfinished_name(rt.alloc(), package)?;
    remove_files(rt, folder, name.as_str())
}

/// Copies each log into its database, and closes both. A log that cannot be copied is a fault.
fn close_whole(package: Uuid, conns: Vec<Connection<FolderStore>>) -> Result<(), FolderFault> {
    match close_all(conns) {
        Ok(()) => Ok(()),
        Err(error) => Err(fault_of(package, error)),
    }
}

/// Has the system write down which names the files of a folder have.
fn sync_names(rt: &HostRuntime, folder: &str) -> Result<(), FolderFault> {
    let path = path_of(rt.alloc(), folder, "")?;
    let open = File::open(rt, path.as_str())?;
    open.sync_all()?;
    Ok(())
}

/// Whether a name of a folder is no file's.
pub(crate) fn is_free(rt: &HostRuntime, path: &str) -> bool {
    match fs::symlink_metadata(rt, path) {
        Ok(_) => false,
        Err(error) => error.kind() == io::ErrorKind::NotFound,
    }
}

/// Gives a file of a folder another name, which is no file's.
// The system's call puts it in place of a file that has the name. The kit has no call that refuses.
fn rename(rt: &HostRuntime, folder: &str, from: &str, to: &str) -> Result<(), FolderFault> {
    let from = path_of(rt.alloc(), folder, from)?;
    let to = path_of(rt.alloc(), folder, to)?;
    if !is_free(rt, to.as_str()) {
        return Err(FolderFault::StoreFault);
    }
    fs::rename(rt, from.as_str(), to.as_str())?;
    Ok(())
}

/// Has the system write down the name that a package has got. Whatever fails here, the package stands.
fn settle(rt: &HostRuntime, folder: &str, package: Uuid) -> Result<(), FolderFault>
    ensures { IfErr result (λ fault. fault ≡ NameUnsettled «package») }
{
    match sync_names(rt, folder) {
        Ok(()) => Ok(()),
        Err(_) => Err(FolderFault::NameUnsettled(package)),
    }
}

/// Closes the store of a package, which is whole now, and gives its file the package's name: all at
/// once, so that whoever looks finds the package or none. What stands beside the file, an empty
/// log, goes.
///
/// # Errors
///
/// A log that cannot be copied, a name that is taken, a file that cannot be renamed, or want of
/// memory: there is no package then.
/// `NameUnsettled` where it has its name, and the system did not write that down.
pub fn finish(
    rt: &HostRuntime,
    folder: &str,
    package: Uuid,
    conns: Vec<Connection<FolderStore>>,
) -> Result<(), FolderFault> {
    close_whole(package, conns)?;
    let unfinished = unfinished_name(rt.alloc(), package)?;
    let name = file_name(rt.alloc(), package)?;
    rename(rt, folder, unfinished.as_str(), name.as_str())?;
    // An empty log that stays under this name is nobody's.
    let _removed = remove_files(rt, folder, unfinished.as_str());
    settle(rt, folder, package)
}
