//! A store over files that hold nothing yet.
ghost use Rattle.std.specs.Prelude.{◌≡◌, [], IsTrue, IfOk, IfErr};
ghost use Rattle.sqlite.specs.Held.{IsNew};
ghost use Rattle.sqlite.specs.Opening.{is_open_error};
ghost use Rattle.sqlite.specs.State.{HasCleanDisk};
ghost use Rattle.sqlite.specs.Files.{file_state, IsOpened, IsCleanLeft, FailsToOpenFiles, LeavesFiles};
ghost use Rattle.store_sql.specs.Blank.{IsBlank, no_schema};

use sqlite::{Connection, Error, FileStore, Files, Leftover, Options};
use sqlite_disk::Disk;
use std::alloc::Global;

/// An empty store over a database file of no bytes. What its log holds is dropped. A fault is that of
/// `Connection::open_files`, with what is left of the files.
pub fn open_blank<D: Disk + Drop>(
    alloc: Global,
    files: Files<D>,
    options: Options,
) -> Result<Connection<FileStore<D>>, (Error, Leftover<D>)>
    requires log { IsTrue (D.Disk.is_usable files.log) }
    requires db { IsTrue (D.Disk.is_usable files.db) }
    requires empty { D.Disk.seen files.db ≡ [] }
    ensures named { IfErr result (λ e. IsTrue (is_open_error e.0)) }
    ensures blank { IfOk result (λ conn. HasCleanDisk (file_state conn) → IsBlank no_schema (file_state conn).now) }
    ensures opened { IfOk result (λ conn. HasCleanDisk (file_state conn) → IsOpened conn) }
    ensures fresh { IfOk result IsNew }
    ensures cause { IfErr result (λ e. IsCleanLeft e.1 → FailsToOpenFiles files e.1 e.0) }
    ensures unharmed { IfErr result (λ e. IsCleanLeft e.1 → LeavesFiles files e.1) }
{
    Connection::open_files(alloc, files, options)
}
