//! Why stores stand for no world.
ghost use Rattle.std.specs.Prelude.{◌≡◌};
ghost use Rattle.opening_faults.specs.declared.faults.RecoverFault.TheVariants.{OutOfMemory};

use sheet_types::error::OutOfMemory as NoMemory;
use std::alloc::{AllocError, AllocFailed};
use thiserror::Error;
use uuid::Uuid;

/// The first of nine faults whose condition holds, in their order; want of memory and a failing
/// store stand outside the order. It prints as its name, without its value.
#[derive(Clone, Copy, PartialEq, Eq, Debug, Error)]
pub enum RecoverFault {
    /// No store says that it is an archive's.
    #[error("NoArchive")]
    NoArchive,
    /// Two stores or more say that they are an archive's.
    #[error("TwoArchives")]
    TwoArchives,
    /// A live store lacks a table of its form, its fixed rows are not those of a good frame, or a
    /// value is out of its range: of these the least package.
    #[error("NotAPackage")]
    NotAPackage(Uuid),
    /// Two stores are the loan of one open split: of these loans the least.
    #[error("TwoCopies")]
    TwoCopies(Uuid),
    /// No store is the loan of an open split: of these loans the least.
    #[error("MissingPackage")]
    MissingPackage(Uuid),
    /// A loan has another frame than the archive, or is not one level below the store of its split:
    /// of these loans the least.
    #[error("ForeignFrame")]
    ForeignFrame(Uuid),
    /// A row without identity, an identity without row, or a mapping row without row: of these packages the least.
    #[error("Dangling")]
    Dangling(Uuid),
    /// The ledger is not sound, or does not account for what the packages hold.
    #[error("OutOfAccount")]
    OutOfAccount,
    /// An item is not what an addition says: of these identities the least.
    #[error("Altered")]
    Altered(Uuid),
    /// A growth was refused.
    #[error("OutOfMemory")]
    OutOfMemory,
    /// A store failed, otherwise than for memory.
    #[error("StoreFault")]
    StoreFault,
}

impl From<NoMemory> for RecoverFault {
    ghost from_gives = { λ _ fault. fault ≡ OutOfMemory };

    fn from(_error: NoMemory) -> RecoverFault {
        RecoverFault::OutOfMemory
    }
}

impl From<AllocError> for RecoverFault {
    ghost from_gives = { λ _ fault. fault ≡ OutOfMemory };

    fn from(_error: AllocError) -> RecoverFault {
        RecoverFault::OutOfMemory
    }
}

impl<T: Drop> From<AllocFailed<T>> for RecoverFault {
    ghost from_gives = { λ _ fault. fault ≡ OutOfMemory };

    fn from(_error: AllocFailed<T>) -> RecoverFault {
        RecoverFault::OutOfMemory
    }
}
