//! A shelf, as a register asks it for the store of a new package and gives back that of one that is not live.
ghost use Rattle.std.specs.Prelude.{◌≡◌, ℕ, List, Ok, IfOk, IfErr};
ghost use Rattle.sqlite_disk.specs.Disk.{CountsFault};
ghost use Rattle.sqlite.specs.Held.{IsNew, state};
ghost use Rattle.sqlite.specs.State.{HasCleanDisk};
ghost use Rattle.store_sql.specs.Blank.{IsBlank, no_schema};
ghost use Rattle.store_faults.specs.declared.shelf.ShelfFault.TheVariants.{OutOfMemory};

use sqlite::{Alter, Connection};
use store_faults::shelf::ShelfFault;
use uuid::Uuid;

/// Makes the stores of packages, one a UUID, counts how often it could not, and takes them back.
pub trait Shelf<S: Alter> {
    /// How often it has failed.
    ghost failures_of: { Self → ℕ };

    /// It was asked once for the store of the package of this UUID, between these two states, and for
    /// no other. Each shelf says what that is. A register knows nothing of it but that `blank` does
    /// it, so where it promises this of a package it asked for that one and for no other.
    ghost asks: { List ℕ → Self → Self → Type 0 };

    /// It was given back this store, as that of the package of this UUID, between these two states, and
    /// nothing else. Each shelf says what that is. Only `retire` does it, so where a register promises
    /// this of a store it gave back that one, as it was then, and for no other package.
    ghost takes: { List ℕ → S → Self → Self → Type 0 };

    /// An empty store in place of whatever stood under this UUID, in no transaction and without a limit
    /// of steps. Each fault is counted, of either kind, and nothing else is. A count of 2^64 - 1 stays,
    /// and counts as risen.
    fn blank(&mut self, package: Uuid) -> Result<Connection<S>, ShelfFault>
        ensures blank { IfOk result (λ conn. HasCleanDisk (state S.Store conn)
            → IsBlank no_schema (state S.Store conn).now) }
        ensures fresh { IfOk result IsNew }
        ensures counts { CountsFault result (failures_of self.old) (failures_of self.new) }
        ensures asks { asks «package» self.old self.new };

    /// Takes back the store of a package that is not live, as that of a loan that came home. It answers no
    /// fault and counts none: what a shelf cannot take away lies beside the register and harms nothing.
    fn retire(&mut self, package: Uuid, store: S)
        ensures counts { failures_of self.new ≡ failures_of self.old }
        ensures takes { takes «package» store self.old self.new };

    /// How often `blank` has answered a fault.
    fn failures(&self) -> u64
        ensures { result ≡ failures_of self.now };
}

// The store that was made in memory. Nothing but memory can have been wanting where none was, which is counted.
pub(crate) fn count_failure<T, E>(made: Result<T, E>, failures: &mut u64) -> Result<T, ShelfFault>
where
    T: Drop,
    E: Drop,
    ensures made { IfOk result (λ store. made ≡ Ok store) }
    ensures counts { CountsFault result failures.old failures.new }
    ensures fault { IfErr result (λ fault. fault ≡ OutOfMemory) }
{
    match made {
        Ok(store) => Ok(store),
        Err(_) => {
            *failures = failures.saturating_add(1);
            Err(ShelfFault::OutOfMemory)
        }
    }
}
