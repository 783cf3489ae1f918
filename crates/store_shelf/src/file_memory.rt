//! A shelf of stores in files that are in memory.
ghost use Rattle.std.specs.Prelude.{◌≡◌, ⊤, IfOk, IfErr};
ghost use Rattle.sqlite_disk.specs.Disk.{CountsFault};
ghost use Rattle.sqlite.specs.Files.{file_state};
ghost use Rattle.sqlite.specs.Held.{IsNew};
ghost use Rattle.store_sql.specs.Blank.{IsBlank, no_schema};
ghost use Rattle.store_faults.specs.declared.shelf.ShelfFault.TheVariants.{OutOfMemory};

use crate::shelf::{Shelf, count_failure};
use sqlite::{Connection, FileStore};
use std::alloc::Global;
use store_faults::shelf::ShelfFault;
use store_memory::{MemoryFile, blank_in_files};
use uuid::Uuid;

// For the salts of the logs. No log outlives the store that wrote it, so none has to be told from another.
const SEED: u64 = 1;

/// Each store is gone with its connection, so nothing stands under any UUID. A store costs more
/// than one of `MemoryShelf` while it has few rows, and less once it has thousands: it keeps trees.
#[derive(Drop)]
pub struct MemoryFileShelf {
    alloc: Global,
    failures: u64,
}

impl MemoryFileShelf {
    /// A shelf that has not failed.
    pub fn new(alloc: Global) -> MemoryFileShelf
        ensures { ⟦<MemoryFileShelf as Shelf<FileStore<MemoryFile>>>⟧.failures_of result ≡ 0 }
    {
        MemoryFileShelf { alloc, failures: 0 }
    }
}

impl Shelf<FileStore<MemoryFile>> for MemoryFileShelf {
    ghost failures_of = { λ shelf. shelf.failures };

    // Nothing stands under any UUID, so it is all the same which one it was.
    ghost asks = { λ uuid old new. ⊤ };

    // The store is gone when it is dropped, so none is left.
    ghost takes = { λ uuid store old new. ⊤ };

    fn blank(&mut self, _package: Uuid) -> Result<Connection<FileStore<MemoryFile>>, ShelfFault>
        ensures blank { IfOk result (λ conn. IsBlank no_schema (file_state conn).now) }
        ensures fresh { IfOk result IsNew }
        ensures counts { CountsFault result self.old.failures self.new.failures }
        ensures fault { IfErr result (λ fault. fault ≡ OutOfMemory) }
    {
        let made = blank_in_files(self.alloc, SEED);
        count_failure(made, &mut self.failures)
    }

    fn retire(&mut self, _package: Uuid, _store: FileStore<MemoryFile>)
        ensures { self.new ≡ self.old }
    {}

    fn failures(&self) -> u64 {
        self.failures
    }
}
