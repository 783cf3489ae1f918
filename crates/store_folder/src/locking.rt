//! The lock of a folder: while one process works in it, no other does.
use crate::fault::FolderFault;
use crate::names::path_of;
use std::fs::{File, TryLockError};
use std::io::ErrorKind;
use std::os::fd::AsRawFd;

/// The name of the file whose lock is the folder's. It stays there, and is empty.
const LOCK_FILE: &str = "sheetdesk.lock";

/// The lock of a folder. The system lets it go where this value is dropped, or the process ends in whatever way.
#[derive(Drop)]
pub struct FolderLock {
    file: File,
}

/// The file of the lock, made where it is not there.
fn lock_file(rt: &HostRuntime, folder: &str) -> Result<File, FolderFault> {
    if folder.is_empty() {
        return Err(FolderFault::FolderUnread);
    }
    let path = path_of(rt.alloc(), folder, LOCK_FILE)?;
    let opened = File::options()
        .read(true)
        .write(true)
        .create(true)
        .open(rt, path.as_str());
    let file = match opened {
        Ok(file) => file,
        Err(error) if error.kind() == ErrorKind::OutOfMemory => {
            return Err(FolderFault::OutOfMemory);
        }
        Err(_) => return Err(FolderFault::FolderUnread),
    };
    // What is meant for a standard stream that was closed must not land in this file.
    if file.as_raw_fd() <= 2 {
        return Ok(file.try_clone()?);
    }
    Ok(file)
}

/// Takes the lock of a folder. It waits for nobody.
///
/// # Errors
///
/// Another process that has the lock, or this one; a folder that is not there; a file that cannot
/// be made or locked; or want of memory.
pub fn lock_folder(rt: &HostRuntime, folder: &str) -> Result<FolderLock, FolderFault> {
    let file = lock_file(rt, folder)?;
    match file.try_lock() {
        Ok(()) => Ok(FolderLock { file }),
        Err(TryLockError::WouldBlock) => Err(FolderFault::FolderHeld),
        Err(TryLockError::Error(error)) => Err(error.into()),
    }
}
