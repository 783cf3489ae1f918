//! A blank store over two files.
ghost use Rattle.std.specs.Prelude.{◌≡◌, [], IfOk, IfErr, IsTrue};
ghost use Rattle.sqlite.specs.Files.{file_state, IsOpened};
ghost use Rattle.sqlite.specs.Held.{IsNew};
ghost use Rattle.sqlite.specs.Opening.{is_open_error};
ghost use Rattle.sqlite.specs.State.{HasCleanDisk};
ghost use Rattle.store_sql.specs.Blank.{IsBlank, no_schema};

use crate::MemoryFile;
use crate::blank::open_blank;
use sqlite::{Connection, Error, FileStore};
use sqlite_disk::{Disk, Files};
use sqlite_pager::Options;
use std::alloc::Global;

// How many frames the log has before they are copied into the database file. In memory a copy costs
// no wait, and a short log is little memory.
const CHECKPOINT_FRAMES: usize = 100;

// How many pages a store keeps beside its files, which are in memory themselves. Their memory is
// taken when the store is opened.
const CACHE_PAGES: usize = 200;

/// As `open_blank`, except that files which cannot be opened are gone.
fn open_empty<D: Disk + Drop>(
    alloc: Global,
    files: Files<D>,
    options: Options,
) -> Result<Connection<FileStore<D>>, Error>
    requires log { IsTrue (D.Disk.is_usable files.log) }
    requires db { IsTrue (D.Disk.is_usable files.db) }
    requires empty { D.Disk.seen files.db ≡ [] }
    ensures opened { IfOk result (λ conn. HasCleanDisk (file_state conn) → IsOpened conn) }
    ensures blank { IfOk result (λ conn. HasCleanDisk (file_state conn) → IsBlank no_schema (file_state conn).now) }
    ensures fresh { IfOk result IsNew }
    ensures named { IfErr result (λ e. IsTrue (is_open_error e)) }
{
    match open_blank(alloc, files, options) {
        Ok(conn) => Ok(conn),
        Err((error, _)) => Err(error),
    }
}

/// A blank store in two files that are in memory, which are gone with its connection. The seed is
/// for the salts of the log.
///
/// # Errors
///
/// Want of memory: `OutOfMemory`, or `SystemIoFailure` where a file could not grow.
pub fn blank_in_files(alloc: Global, seed: u64) -> Result<Connection<FileStore<MemoryFile>>, Error>
    ensures clean { IfOk result (λ conn. HasCleanDisk (file_state conn)) }
    ensures opened { IfOk result IsOpened }
    ensures blank { IfOk result (λ conn. IsBlank no_schema (file_state conn).now) }
    ensures fresh { IfOk result IsNew }
    ensures named { IfErr result (λ e. IsTrue (is_open_error e)) }
{
    let files = Files {
        log: MemoryFile::new(alloc),
        db: MemoryFile::new(alloc),
    };
    let options = Options {
        cache_pages: CACHE_PAGES,
        spill_pages: CACHE_PAGES,
        checkpoint_frames: CHECKPOINT_FRAMES,
        seed,
    };
    open_empty(alloc, files, options)
}
