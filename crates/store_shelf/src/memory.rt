//! A shelf of stores in memory.
ghost use Rattle.std.specs.Prelude.{◌≡◌, ⊤, IfOk, IfErr};
ghost use Rattle.sqlite_disk.specs.Disk.{CountsFault};
ghost use Rattle.sqlite.specs.Held.{IsNew, state};
ghost use Rattle.sqlite.specs.Steps.{over_memory};
ghost use Rattle.store_sql.specs.Blank.{IsBlank, no_schema};
ghost use Rattle.store_faults.specs.declared.shelf.ShelfFault.TheVariants.{OutOfMemory};

use crate::shelf::{Shelf, count_failure};
use sqlite::{Connection, MemStore};
use std::alloc::Global;
use store_faults::shelf::ShelfFault;
use uuid::Uuid;

/// Each store is gone with its connection, so nothing stands under any UUID.
#[derive(Drop)]
pub struct MemoryShelf {
    alloc: Global,
    failures: u64,
}

impl MemoryShelf {
    /// A shelf that has not failed.
    pub fn new(alloc: Global) -> MemoryShelf
        ensures { ⟦<MemoryShelf as Shelf<MemStore>>⟧.failures_of result ≡ 0 }
    {
        MemoryShelf { alloc, failures: 0 }
    }
}

impl Shelf<MemStore> for MemoryShelf {
    ghost failures_of = { λ shelf. shelf.failures };

    // Nothing stands under any UUID, so it is all the same which one it was.
    ghost asks = { λ uuid old new. ⊤ };

    // The store is gone when it is dropped, so none is left.
    ghost takes = { λ uuid store old new. ⊤ };

    fn blank(&mut self, _package: Uuid) -> Result<Connection<MemStore>, ShelfFault>
        ensures blank { IfOk result (λ conn. IsBlank no_schema (state over_memory conn).now) }
        ensures fresh { IfOk result IsNew }
        ensures counts { CountsFault result self.old.failures self.new.failures }
        ensures fault { IfErr result (λ fault. fault ≡ OutOfMemory) }
    {
        let made = Connection::open_in_memory(self.alloc);
        count_failure(made, &mut self.failures)
    }

    fn retire(&mut self, _package: Uuid, _store: MemStore)
        ensures { self.new ≡ self.old }
    {}

    fn failures(&self) -> u64 {
        self.failures
    }
}
