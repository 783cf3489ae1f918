//! The store of a package, taken out of its folder.
ghost use Rattle.std.specs.Prelude.{◌≡◌, ⊤, ℕ, List, IfOk, map, nat_eq};
ghost use Rattle.std.specs.List.{starts_with};
ghost use Rattle.store_folder.specs.Removals.{RemovesAllBeside, RemovesBeside, RemovesIfBeside};
ghost use Rattle.store_folder.specs.Removals.{RemovesWithAllBeside, RemovesWithBeside};

use crate::fault::FolderFault;
use crate::listing::folder_bytes;
use crate::names::{file_name, names_in, path_of};
use std::alloc::AllocGlobal;
use std::rt::Files;
use std::{fs, io};
use uuid::Uuid;

/// Whether a file is one of those that the engine keeps beside the file of a package, or that file:
/// the log, the journal.
pub fn is_beside(name: &[u8], file: &str) -> bool
    ensures { result ≡ starts_with nat_eq name.now file.now }
{
    name.starts_with(file.as_bytes())
}

/// Removes a file of a folder. One that is not there is no fault.
///
/// # Errors
///
/// A file that cannot be removed, as a folder of such a name; or want of memory.
pub fn remove<R: Files + AllocGlobal>(rt: &R, folder: &str, name: &str) -> Result<(), FolderFault> {
    let path = path_of(rt.alloc(), folder, name)?;
    match fs::remove_file(rt, path.as_str()) {
        Ok(()) => Ok(()),
        Err(error) if error.kind() == io::ErrorKind::NotFound => Ok(()),
        Err(error) => Err(error.into()),
    }
}

/// What takes files out of a folder.
pub trait RemoveFile {
    /// The file of this name was taken out of the folder between these two states, if it was there,
    /// and no other was. Who takes files out by this trait alone can show it of a name by such a
    /// call, and by nothing else.
    ghost removes: { List ℕ → Self → Self → Type 0 };

    /// Removes the file of this name. One that is not there is no fault.
    fn remove_file(&mut self, name: &[u8]) -> Result<(), FolderFault>
        ensures { removes name.now self.old self.new };
}

/// The files of a folder of the file system.
#[derive(Drop)]
struct FolderFiles<'f, R> {
    rt: &'f R,
    folder: &'f str,
}

impl<'f, R: Files + AllocGlobal> RemoveFile for FolderFiles<'f, R> {
    // No clause can speak of the files of a folder: this body has to be read.
    ghost removes = { λ name old new. ⊤ };

    fn remove_file(&mut self, name: &[u8]) -> Result<(), FolderFault> {
        match str::from_utf8(name) {
            Ok(name) => remove(self.rt, self.folder, name),
            Err(_) => Err(FolderFault::StoreFault),
        }
    }
}

/// Removes a file whose name begins as this one and is longer, or does nothing.
fn remove_if_beside<F: RemoveFile>(
    files: &mut F,
    name: &[u8],
    file: &str,
) -> Result<(), FolderFault>
    ensures { RemovesIfBeside F.removes name.now file.now files.old files.new }
{
    if is_beside(name, file) && name.len() > file.len() {
        return files.remove_file(name);
    }
    Ok(())
}

/// Removes each of these files whose name begins with this one and is longer, and no other.
pub fn remove_beside_each<F: RemoveFile>(
    files: &mut F,
    names: &[&[u8]],
    file: &str,
) -> Result<(), FolderFault>
    ensures no_other { RemovesBeside F.removes file.now files.old files.new }
    ensures all { IfOk result (λ _. RemovesAllBeside F.removes
        (map (λ name. name.now) names.now) file.now files.old files.new) }
{
    for name in names {
        remove_if_beside(files, name, file)?;
    }
    Ok(())
}

/// Removes the file of this name, and then each of these whose name begins with it and is longer,
/// and no other.
pub fn remove_with_beside<F: RemoveFile>(
    files: &mut F,
    names: &[&[u8]],
    file: &str,
) -> Result<(), FolderFault>
    ensures no_other { RemovesWithBeside F.removes file.now files.old files.new }
    ensures all { IfOk result (λ _. RemovesWithAllBeside F.removes
        (map (λ name. name.now) names.now) file.now files.old files.new) }
{
    files.remove_file(file.as_bytes())?;
    remove_beside_each(files, names, file)
}

/// Removes the file of a package, and then each file whose name begins as that file's does: first
/// the database, since a log without one means nothing.
///
/// # Errors
///
/// A folder that cannot be read, or a file that cannot be removed, as a folder of such a name or a
/// name that is no UTF-8; or want of memory. What was removed before stays removed.
pub fn remove_store<R: Files + AllocGlobal>(
    rt: &R,
    folder: &str,
    package: Uuid,
) -> Result<(), FolderFault> {
    let file = file_name(rt.alloc(), package)?;
    remove_files(rt, folder, file.as_str())
}

/// Removes the file of this name, and then each file whose name begins with it.
pub(crate) fn remove_files<R: Files + AllocGlobal>(
    rt: &R,
    folder: &str,
    file: &str,
) -> Result<(), FolderFault> {
    let bytes = folder_bytes(rt, folder)?;
    let names = names_in(rt.alloc(), bytes.as_slice())?;
    remove_with_beside(&mut FolderFiles { rt, folder }, names.as_slice(), file)
}

/// Removes each file whose name begins with this one and is longer.
pub(crate) fn remove_beside<R: Files + AllocGlobal>(
    rt: &R,
    folder: &str,
    file: &str,
) -> Result<(), FolderFault> {
    let bytes = folder_bytes(rt, folder)?;
    let names = names_in(rt.alloc(), bytes.as_slice())?;
    remove_beside_each(&mut FolderFiles { rt, folder }, names.as_slice(), file)
}
