//! The file by which the desk of a folder is found: where it listens, and the key of those who may ask it.
use desk_asking::desks::{desk_text, read_desk};
use std::alloc::AllocError;
use std::fs::{self, File};
use std::io::{self, Write};
use std::os::unix::fs::OpenOptionsExt;
use store_folder::fault::FolderFault;
use store_folder::locking::lock_folder;

/// A folder that is served, and the key of its desk.
#[derive(Clone, Copy)]
pub struct DeskPlace<'r> {
    /// The folder, as it was typed.
    pub folder: &'r str,
    /// The key: 32 hexadecimal digits; empty where nobody may ask.
    pub key: &'r str,
}

/// The path of the file. It lies beside the lock, which stays empty.
fn desk_path(rt: &HostRuntime, folder: &str) -> Result<String, AllocError> {
    format!(in rt.alloc(); "{folder}/sheetdesk.desk")
}

/// Writes at which port a desk listens. The file is made anew, so that nobody has it open, and its owner alone may read
/// it.
///
/// # Errors
///
/// Those of the folder, or want of memory.
pub fn keep_desk(rt: &HostRuntime, place: &DeskPlace<'_>, port: u16) -> io::Result<()> {
    let path = desk_path(rt, place.folder)?;
    let text = desk_text(rt.alloc(), port, place.key)?;
    // What a desk left that was killed.
    let _removed = fs::remove_file(rt, path.as_str());
    let mut file = File::options()
        .write(true)
        .create_new(true)
        .mode(0o600)
        .open(rt, path.as_str())?;
    file.write_all(text.as_bytes())
}

/// What the file of a folder says; none where no desk left one that may be read.
pub fn desk_file_text(rt: &HostRuntime, folder: &str) -> Option<Vec<u8>> {
    let Ok(path) = desk_path(rt, folder) else {
        return None;
    };
    fs::read(rt, path.as_str()).ok()
}

/// Whether the file of a folder says where a desk listens.
pub fn names_desk(rt: &HostRuntime, folder: &str) -> bool {
    match desk_file_text(rt, folder) {
        Some(text) => read_desk(text.as_slice()).is_some(),
        None => false,
    }
}

/// Whether another process works in a folder. Where none does, no desk serves it, and the file that one left is
/// removed.
pub fn is_held(rt: &HostRuntime, folder: &str) -> bool {
    match lock_folder(rt, folder) {
        Ok(_lock) => {
            if let Ok(path) = desk_path(rt, folder) {
                let _removed = fs::remove_file(rt, path.as_str());
            }
            false
        }
        Err(fault) => fault == FolderFault::FolderHeld,
    }
}
