//! The stores of a folder, opened.
ghost use Rattle.std.specs.Prelude.{◌≡◌, ◌≤◌, ◌+◌, ◌*◌, ◌/◌, ◌++◌, ◌∷◌, [], ℕ, List, ⊤, IfOk};
ghost use Rattle.std.specs.Prelude.{IsTrue, OnOk, All, length, max, min};
ghost use Rattle.std.specs.List.{AllZip};
ghost use Rattle.sqlite.specs.Files.{IsOpened, file_state};
ghost use Rattle.sqlite.specs.Held.{IsNew};
ghost use Rattle.sqlite.specs.State.{HasCleanDisk};
ghost use Rattle.sqlite_std_file.specs.File.{file_is_usable};
ghost use Rattle.store_folder.specs.Opened.{IsJustOpened};

use crate::closing::close_all;
use crate::fault::{FolderFault, fault_of};
use crate::names::{file_name, path_of};
use crate::start::{Empty, FolderStore};
use sqlite::{Connection, Error, ErrorCode};
use sqlite_disk::{Files, Start};
use sqlite_pager::Options;
use sqlite_std_file::{FileFrom, OpenError, open as open_pair};
use std::alloc::AllocError;
use std::fs;
use std::hash::{BuildHasher, RandomState};
use std::io::ErrorKind;
use std::os::unix::fs::MetadataExt;
use uuid::Uuid;

/// How many pages the log of a file takes before they are copied into the file: 16 MB of them.
/// Four times what stock SQLite takes: each copying waits for the disk twice.
const LOG_FRAMES: usize = 4000;

/// The cause that the name of a file shows, where the file of a package could not be opened.
fn cause_at(rt: &HostRuntime, path: &str, package: Uuid) -> Option<FolderFault> {
    match fs::symlink_metadata(rt, path) {
        Ok(found) if found.is_symlink() => Some(FolderFault::Link(package)),
        Ok(found) if found.nlink() > 1 => Some(FolderFault::SecondName(package)),
        Ok(_) | Err(_) => None,
    }
}

/// The same of the file or of its log.
fn cause_of(
    rt: &HostRuntime,
    path: &str,
    package: Uuid,
) -> Result<Option<FolderFault>, AllocError> {
    let log = format!(in rt.alloc(); "{path}-wal")?;
    Ok(cause_at(rt, path, package).or(cause_at(rt, log.as_str(), package)))
}

/// Why the file of a package could not be opened.
fn fault_at(rt: &HostRuntime, path: &str, package: Uuid, error: Error) -> FolderFault {
    let fault = fault_of(package, error);
    if fault == FolderFault::OutOfMemory {
        return fault;
    }
    match cause_of(rt, path, package) {
        Ok(Some(cause)) => cause,
        Ok(None) | Err(_) => fault,
    }
}

/// How many pages of a store are kept in memory at most: 8 MB of them.
const MOST_PAGES: usize = 2_000;

/// How many a store has at least.
const FEW_PAGES: usize = 40;

/// How many pages the stores of a folder have in memory together, where each has at least a few: 16
/// MB of them.
const ALL_PAGES: usize = 4_000;

/// How many they share however small their files are, so that a new store may grow.
const SPARE_PAGES: usize = 2_000;

/// The bytes of a page.
const PAGE_BYTES: u64 = 4_096;

/// How many pages each of some stores may have in memory. The engine takes the room for all of
/// them when it opens a store, so a small file is given few.
#[derive(Clone, Copy)]
pub struct CacheRoom {
    /// Of a file that has no page.
    least: usize,
    /// Of a large one.
    most: usize,
}

/// An equal share of so many pages, within the limits of one store.
fn share_of(pages: usize, stores: usize) -> usize
    ensures least { FEW_PAGES ≤ result }
    ensures most { result ≤ MOST_PAGES }
    ensures together { result * stores ≤ max «pages» (FEW_PAGES * stores) }
{
    if stores == 0 {
        return MOST_PAGES;
    }
    (pages / stores).clamp(FEW_PAGES, MOST_PAGES)
}

impl CacheRoom {
    /// The room of each of so many stores.
    pub fn of_each(stores: usize) -> CacheRoom
        ensures least { FEW_PAGES ≤ result.least }
        ensures together { result.most * stores ≤ max ALL_PAGES (FEW_PAGES * stores) }
        ensures spare { result.least * stores ≤ max SPARE_PAGES (FEW_PAGES * stores) }
    {
        CacheRoom {
            least: share_of(SPARE_PAGES, stores),
            most: share_of(ALL_PAGES, stores),
        }
    }

    /// How many pages are kept in memory of a store whose file has so many bytes: as many as the
    /// file has, and a few that it may grow by.
    pub fn pages_of(self, bytes: u64) -> usize
        ensures { result ≡ max self.least (min self.most (bytes / PAGE_BYTES + FEW_PAGES)) }
    {
        let own = (bytes / PAGE_BYTES) as usize + FEW_PAGES;
        own.min(self.most).max(self.least)
    }
}

/// The database at a path and its log, opened as files.
pub(crate) fn files_at(rt: &HostRuntime, path: &str) -> Result<Files<FileFrom<Empty>>, Error>
    ensures { IfOk result (λ files. IsTrue (file_is_usable ⟦<Empty as Start>⟧ files.log)
        × IsTrue (file_is_usable ⟦<Empty as Start>⟧ files.db)) }
{
    match open_pair(rt, path, Empty) {
        Ok(files) => Ok(files),
        Err(OpenError::OutOfMemory) => Err(Error::SqliteFailure(ErrorCode::OutOfMemory)),
        Err(OpenError::Busy) => Err(Error::SqliteFailure(ErrorCode::DatabaseBusy)),
        Err(OpenError::Io(error)) if error.kind() == ErrorKind::OutOfMemory => {
            Err(Error::SqliteFailure(ErrorCode::OutOfMemory))
        }
        Err(_) => Err(Error::SqliteFailure(ErrorCode::CannotOpen)),
    }
}

/// A store in the files of a path, with so many pages in memory.
fn connect(rt: &HostRuntime, path: &str, pages: usize) -> Result<Connection<FolderStore>, Error>
    ensures opened { IfOk result (λ conn. HasCleanDisk (file_state conn) → IsOpened conn) }
    ensures fresh { IfOk result IsNew }
{
    let files = files_at(rt, path)?;
    let Ok(state) = RandomState::new(rt) else {
        return Err(Error::SqliteFailure(ErrorCode::CannotOpen));
    };
    let mut options = Options::new(state.hash_one(&0u8));
    options.cache_pages = pages;
    options.checkpoint_frames = LOG_FRAMES;
    match Connection::open_files_with(rt.alloc(), files, options, false) {
        Ok(mut conn) => {
            conn.set_clock(rt);
            Ok(conn)
        }
        Err((error, _)) => Err(error),
    }
}

/// How many bytes the file of a path has; none where it cannot be told.
fn bytes_at(rt: &HostRuntime, path: &str) -> u64 {
    match fs::symlink_metadata(rt, path) {
        Ok(found) => found.len(),
        Err(_) => 0,
    }
}

/// The store of a package, just opened: at rest, adopted, and without a limit of steps. As many of its
/// pages are kept in memory as the room gives to its file.
///
/// # Errors
///
/// A file that another process has, or this one; a link, or a file with a second name; want of
/// memory; a file that is no database or that fails.
pub fn open_store(
    rt: &HostRuntime,
    folder: &str,
    package: Uuid,
    room: CacheRoom,
) -> Result<Connection<FolderStore>, FolderFault>
    ensures opened { IfOk result (λ conn. IsJustOpened (file_state conn)) }
    ensures fresh { IfOk result IsNew }
{
    let name = file_name(rt.alloc(), package)?;
    let path = path_of(rt.alloc(), folder, name.as_str())?;
    let pages = room.pages_of(bytes_at(rt, path.as_str()));
    match connect(rt, path.as_str(), pages) {
        Ok(conn) => Ok(conn),
        Err(error) => Err(fault_at(rt, path.as_str(), package, error)),
    }
}

/// Puts one more behind a list.
fn push<T: Drop>(list: &mut Vec<T>, item: T) -> Result<(), FolderFault>
    ensures { OnOk result (list.new.items ≡ list.old.items ++ item ∷ []) }
{
    match list.push(item) {
        Ok(()) => Ok(()),
        Err(_) => Err(FolderFault::OutOfMemory),
    }
}

/// What a folder has one of for each package.
// A loop over any such thing is proved for less than one over stores of a folder.
trait InFolder: Drop {
    /// What is known of it when it was just opened.
    ghost is_just_opened: { Self → Type 0 };

    /// It is in no transaction, and has no limit of steps.
    ghost is_new: { Self → Type 0 };

    /// It is that of the package of this UUID. Who opens by this trait alone can show it by such a
    /// call, and by nothing else.
    ghost is_of: { List ℕ → Self → Type 0 };

    /// Opens that of one package, which may have so much room in memory.
    fn open(
        rt: &HostRuntime,
        folder: &str,
        package: Uuid,
        room: CacheRoom,
    ) -> Result<Self, FolderFault>
        ensures opened { IfOk result is_just_opened }
        ensures fresh { IfOk result is_new }
        ensures own { IfOk result (λ it. is_of «package» it) };
}

impl InFolder for Connection<FolderStore> {
    ghost use Rattle.sqlite.specs.Files.{file_state};
    ghost use Rattle.sqlite.specs.Held.{IsNew};
    ghost use Rattle.store_folder.specs.Opened.{IsJustOpened};

    ghost is_just_opened = { λ conn. IsJustOpened (file_state conn) };

    ghost is_new = { λ conn. IsNew conn };

    // No clause can speak of what a path leads to: `open_store` has to be read.
    ghost is_of = { λ uuid conn. ⊤ };

    fn open(
        rt: &HostRuntime,
        folder: &str,
        package: Uuid,
        room: CacheRoom,
    ) -> Result<Connection<FolderStore>, FolderFault> {
        open_store(rt, folder, package, room)
    }
}

/// That of each of these packages, in their order, or the first fault.
fn open_each<T: InFolder>(
    rt: &HostRuntime,
    folder: &str,
    packages: &[Uuid],
) -> Result<Vec<T>, FolderFault>
    ensures opened { IfOk result (λ stores. All T.is_just_opened stores.items) }
    ensures fresh { IfOk result (λ stores. All T.is_new stores.items) }
    ensures own { IfOk result (λ stores. AllZip T.is_of packages.now stores.items) }
    ensures each { IfOk result (λ stores. length stores.items ≡ length packages.now) }
{
    let room = CacheRoom::of_each(packages.len());
    let mut stores = Vec::with_capacity(rt.alloc(), packages.len())?;
    for package in packages {
        let store = T::open(rt, folder, *package, room)?;
        push(&mut stores, store)?;
    }
    Ok(stores)
}

/// The stores of these packages, in their order, each just opened. The more there are, and the smaller
/// their files, the fewer pages of each are kept in memory.
///
/// # Errors
///
/// The first that cannot be opened. Those that were are closed again.
pub fn open_stores(
    rt: &HostRuntime,
    folder: &str,
    packages: &[Uuid],
) -> Result<Vec<Connection<FolderStore>>, FolderFault>
    ensures opened { IfOk result (λ conns. All (λ conn. IsJustOpened (file_state conn)) conns.items) }
    ensures fresh { IfOk result (λ conns. All (λ conn. IsNew conn) conns.items) }
    ensures each { IfOk result (λ conns. length conns.items ≡ length packages.now) }
{
    open_each(rt, folder, packages)
}

/// Copies the logs of these stores into their databases, so that each is whole in its one file, and
/// closes them. What a log holds that cannot be copied stays in it, and counts.
pub fn close_stores(conns: Vec<Connection<FolderStore>>) {
    let _copied = close_all(conns);
}
