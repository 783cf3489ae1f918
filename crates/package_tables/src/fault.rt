//! Why a call on a package fails.
ghost use Rattle.std.specs.Prelude.{◌≡◌, IsOk, MatchResult};
ghost use Rattle.package_tables.specs.Faults.{fault_of};
ghost use Rattle.package_tables.specs.declared.fault.Fault.TheVariants.{OutOfMemory};

use sqlite::{Error, ErrorCode};
use std::alloc::{AllocError, AllocFailed};
use std::fmt;

/// Why a call on the store of a package failed.
#[derive(Clone, Copy, PartialEq, Eq, Debug, thiserror::Error)]
pub enum Fault {
    /// A growth was refused.
    #[error("OutOfMemory")]
    OutOfMemory,
    /// The store failed, or gave rows that no package can have.
    #[error("StoreFault")]
    StoreFault,
}

impl From<Error> for Fault {
    ghost from_gives = { λ error fault. fault ≡ fault_of error };

    fn from(error: Error) -> Fault {
        match error {
            Error::SqliteFailure(ErrorCode::OutOfMemory) => Fault::OutOfMemory,
            _ => Fault::StoreFault,
        }
    }
}

impl From<AllocError> for Fault {
    ghost from_gives = { λ _ fault. fault ≡ OutOfMemory };

    fn from(_error: AllocError) -> Fault {
        Fault::OutOfMemory
    }
}

impl<T: Drop> From<AllocFailed<T>> for Fault {
    ghost from_gives = { λ _ fault. fault ≡ OutOfMemory };

    fn from(_error: AllocFailed<T>) -> Fault {
        Fault::OutOfMemory
    }
}

/// What a write answers, its count of rows dropped.
pub fn drop_count(outcome: Result<usize, Error>) -> Result<(), Fault>
    ensures { MatchResult outcome (λ _. IsOk result) (λ error. result ≡ Err (fault_of error)) }
{
    match outcome {
        Ok(_) => Ok(()),
        Err(error) => Err(Fault::from(error)),
    }
}
