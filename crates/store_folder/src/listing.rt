//! What a folder of the file system holds.
ghost use Rattle.std.specs.Prelude.{◌≡◌, ℕ, List, IfOk, IfSome};
ghost use Rattle.std.specs.List.{list_any};
ghost use Rattle.store_folder.specs.Names.{names_in, is_package_file, ArePackagesIn};

use crate::fault::FolderFault;
use crate::names::{holds_packages, names_in, packages_in};
use std::alloc::{AllocGlobal, Global};
use std::io::{self, Read};
use std::rt::Files;
use uuid::Uuid;

/// What a folder holds, by the names of its files.
#[derive(Drop)]
pub struct Listing {
    /// The packages that have a file there, each once, in the order of their UUIDs.
    pub packages: Vec<Uuid>,
    /// Whether the name of any file ends in `.gpkg`, be it a package's or not.
    pub holds_packages: bool,
}

/// Takes all names of an open folder. A read gives whole names alone, and fails where the next one
/// has no room, so each is offered more than the longest name of a file wants.
fn take_names<D: Read>(dir: &mut D, bytes: &mut Vec<u8>) -> io::Result<()> {
    let mut piece = [0u8; 4096];
    for _ in 0..u64::MAX {
        let taken = dir.read(&mut piece)?;
        if taken == 0 {
            break;
        }
        bytes.extend_from_slice(&piece[..taken])?;
    }
    Ok(())
}

/// The bytes of an open folder: its names, each ended by a NUL.
pub fn folder_bytes<R: Files + AllocGlobal>(rt: &R, folder: &str) -> io::Result<Vec<u8>> {
    if folder.is_empty() {
        return Err(io::ErrorKind::NotFound.into());
    }
    // The slash follows a link to a folder.
    let path = format!(in rt.alloc(); "{folder}/")?;
    let mut bytes = Vec::new(rt.alloc());
    let mut dir = rt.open_dir(path.as_str())?;
    take_names(&mut dir, &mut bytes)?;
    Ok(bytes)
}

/// What the bytes of an open folder tell.
pub fn listing_of(alloc: Global, bytes: &[u8]) -> Result<Listing, FolderFault>
    ensures packages { IfOk result (λ listing. ArePackagesIn (names_in bytes.now) listing.packages.items) }
    ensures any { IfOk result (λ listing. listing.holds_packages ≡ list_any is_package_file (names_in bytes.now)) }
{
    let names = names_in(alloc, bytes)?;
    let packages = packages_in(alloc, names.as_slice())?;
    Ok(Listing {
        packages,
        holds_packages: holds_packages(names.as_slice()),
    })
}

/// What a folder holds.
///
/// # Errors
///
/// A folder that is not there or cannot be read, or want of memory.
pub fn list<R: Files + AllocGlobal>(rt: &R, folder: &str) -> Result<Listing, FolderFault> {
    match folder_bytes(rt, folder) {
        Ok(bytes) => listing_of(rt.alloc(), bytes.as_slice()),
        Err(error) if error.kind() == io::ErrorKind::OutOfMemory => Err(FolderFault::OutOfMemory),
        Err(_) => Err(FolderFault::FolderUnread),
    }
}
