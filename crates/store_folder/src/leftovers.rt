//! What stands in a folder beside no package: logs without their database, and what was left of
//! archives that were never whole.
ghost use Rattle.std.specs.Prelude.{◌≡◌, ◌++◌, ℕ, List, All, Contains, IfNone, IfOk, IfSome};
ghost use Rattle.std.specs.Prelude.{IsTrue, map};
ghost use Rattle.std.specs.Prelude.{string_bytes};
ghost use Rattle.std.specs.List.Sorted.{IsStrictlySortedBy};
ghost use Rattle.std.specs.String.{string_cmp};
ghost use Rattle.sheet_types.specs.Lines.{IsUuid};
ghost use Rattle.store_folder.specs.Leftovers.{IsBeside, IsLeftover, IsLeftoverIn, IsNoneWith};
ghost use Rattle.store_folder.specs.Leftovers.{IsOnly, IsToldIn, IsToldOf, MayPush, Tells};
ghost use Rattle.store_folder.specs.Names.{file_name, names_in};

use crate::fault::FolderFault;
use crate::listing::{folder_bytes, listing_of};
use crate::names::{file_name, names_in, package_of, path_of};
use std::alloc::{AllocError, Global};
use std::fs;
use uuid::Uuid;

/// The package of a name that begins as its file's does, and ends so.
fn package_before(name: &[u8], end: &[u8]) -> Option<Uuid>
    ensures some { IfSome result (λ id. name.now ≡ file_name id ++ end.now) }
    ensures only { IfSome result (IsOnly name.now) }
    ensures none { IfNone result (IsNoneWith name.now end.now) }
{
    match name.strip_suffix(end) {
        Some(file) => package_of(file),
        None => None,
    }
}

/// The package beside whose file a file of this name stands: the log, the journal, and what is not
/// whole yet, with its own.
pub fn package_beside(name: &[u8]) -> Option<Uuid>
    ensures some { IfSome result (λ id. IsBeside id name.now) }
    ensures only { IfSome result (IsOnly name.now) }
    ensures none { IfNone result ((id : List ℕ) → IsUuid id → ¬ IsBeside id name.now) }
{
    package_before(name, b"-wal".as_slice())
        .or(package_before(name, b"-shm".as_slice()))
        .or(package_before(name, b"-journal".as_slice()))
        .or(package_before(name, b"-new".as_slice()))
        .or(package_before(name, b"-new-wal".as_slice()))
        .or(package_before(name, b"-new-journal".as_slice()))
}

/// Whether a name stands beside no package of these.
fn is_leftover(name: &[u8], packages: &[Uuid]) -> bool
    ensures left { IsTrue result → IsLeftover packages.now name.now }
    ensures all { (id : List ℕ) → IsUuid id → IsBeside id name.now → ¬ Contains packages.now id
        → IsTrue result }
{
    match package_beside(name) {
        Some(package) => !packages.contains(&package),
        None => false,
    }
}

/// Puts a name behind others, as a text. One that is no UTF-8 is left out.
fn push_text(alloc: Global, texts: &mut Vec<String>, name: &[u8]) -> Result<(), AllocError>
    ensures { IfOk result (λ _. MayPush name.now texts.old.items texts.new.items) }
{
    if let Ok(text) = str::from_utf8(name) {
        texts.push(String::from_str(alloc, text)?)?;
    }
    Ok(())
}

/// Those of the names that stand beside no package of these, as texts.
fn leftovers_among(
    alloc: Global,
    names: &[&[u8]],
    packages: &[Uuid],
) -> Result<Vec<String>, AllocError>
    ensures left { IfOk result (λ found.
        All (λ text. IsLeftover packages.now (string_bytes text)) found.items) }
    ensures there { IfOk result (λ found. All (λ text.
        Contains (map (λ name. name.now) names.now) (string_bytes text)) found.items) }
    ensures all { IfOk result (λ found. (name : List ℕ)
        → Contains (map (λ name. name.now) names.now) name → IsToldOf packages.now name
        → Tells found.items name) }
{
    let mut found = Vec::new(alloc);
    for name in names {
        if is_leftover(name, packages) {
            push_text(alloc, &mut found, name)?;
        }
    }
    Ok(found)
}

/// The names of the files of a folder that stand beside no package, each once, in their order; of
/// the folder's bytes, in which each name is ended by a NUL. A name that is no UTF-8 is none of
/// them.
///
/// # Errors
///
/// Want of memory.
pub fn leftovers_in(alloc: Global, bytes: &[u8]) -> Result<Vec<String>, FolderFault>
    ensures left { IfOk result (λ found.
        All (λ text. IsLeftoverIn (names_in bytes.now) (string_bytes text)) found.items) }
    ensures all { IfOk result (λ found. (name : List ℕ) → IsToldIn (names_in bytes.now) name
        → Tells found.items name) }
    ensures rising { IfOk result (λ found. IsStrictlySortedBy string_cmp found.items) }
{
    let listing = listing_of(alloc, bytes)?;
    let names = names_in(alloc, bytes)?;
    let mut texts = leftovers_among(alloc, names.as_slice(), &listing.packages)?;
    texts.sort_unstable();
    texts.dedup();
    Ok(texts)
}

/// The same of a folder by its path.
///
/// # Errors
///
/// A folder that cannot be read, or want of memory.
pub fn leftovers(rt: &HostRuntime, folder: &str) -> Result<Vec<String>, FolderFault> {
    let bytes = folder_bytes(rt, folder)?;
    leftovers_in(rt.alloc(), bytes.as_slice())
}

/// The size of the page that the engine writes of a database in which nothing is.
const PAGE: usize = 4096;

/// Whether these bytes are none, or a database of one page that names no table: the page is a leaf
/// without cells (SQLite's file format, sections
/// 1.3 and 1.6).
fn says_nothing(bytes: &[u8]) -> bool {
    bytes.is_empty()
        || bytes.len() == PAGE
            && bytes.starts_with(b"SQLite format 3\0".as_slice())
            && bytes[100] == 13
            && bytes[103] == 0
            && bytes[104] == 0
}

/// Whether the file of a package is there, and nothing is in it.
///
/// # Errors
///
/// A file that is not there or cannot be read, or want of memory.
pub fn is_empty_file(rt: &HostRuntime, folder: &str, package: Uuid) -> Result<bool, FolderFault> {
    let file = file_name(rt.alloc(), package)?;
    let path = path_of(rt.alloc(), folder, file.as_str())?;
    let found = fs::symlink_metadata(rt, path.as_str())?;
    if !found.is_file() || found.len() > PAGE as u64 {
        return Ok(false);
    }
    let bytes = fs::read(rt, path.as_str())?;
    Ok(says_nothing(bytes.as_slice()))
}
