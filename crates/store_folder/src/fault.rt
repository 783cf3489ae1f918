//! Why a folder could not be read, or a store in it not be had.
ghost use Rattle.std.specs.Prelude.{◌≡◌, IfOk, string_bytes};
ghost use Rattle.store_folder.specs.Faults.{cause_text, of_error, shelf_fault};

use sqlite::{Error as SqliteError, ErrorCode};
use std::alloc::{AllocError, Global};
use std::io;
use store_faults::shelf::ShelfFault;
use thiserror::Error;
use uuid::Uuid;

/// Why a folder could not be read, or a store in it not be had.
#[derive(Clone, Copy, Debug, PartialEq, Eq, Error)]
pub enum FolderFault {
    /// A growth was refused.
    #[error("OutOfMemory")]
    OutOfMemory,
    /// Another process works in the folder.
    #[error("StoreFault")]
    FolderHeld,
    /// Another process has the file of this package open.
    #[error("StoreFault")]
    PackageHeld(Uuid),
    /// The name of this package's file, or of its log, is a symbolic link.
    #[error("StoreFault")]
    Link(Uuid),
    /// The file of this package, or its log, has a second name.
    #[error("StoreFault")]
    SecondName(Uuid),
    /// The file of this package has its name, and the system did not write that down: a power loss
    /// may take the name again.
    #[error("StoreFault")]
    NameUnsettled(Uuid),
    /// The file of this package could not be opened or read, or is no database.
    #[error("StoreFault")]
    PackageFailed(Uuid),
    /// The folder is not there, or cannot be read.
    #[error("StoreFault")]
    FolderUnread,
    /// A file in the folder failed.
    #[error("StoreFault")]
    StoreFault,
}

/// What a person can be told of a fault beside its name, without the end of a line. It is empty
/// where nothing more is known.
pub fn cause_text(alloc: Global, fault: FolderFault) -> Result<String, AllocError>
    ensures { IfOk result (λ text. string_bytes text ≡ cause_text fault) }
{
    match fault {
        FolderFault::OutOfMemory | FolderFault::StoreFault => Ok(String::new(alloc)),
        FolderFault::FolderHeld => String::from_str(alloc, "another process may hold the folder"),
        FolderFault::PackageHeld(id) => {
            format!(in alloc; "another process may hold the package {id}")
        }
        FolderFault::Link(id) => format!(in alloc; "{id}.gpkg or its log is a symbolic link"),
        FolderFault::SecondName(id) => format!(in alloc; "{id}.gpkg or its log has a second name"),
        FolderFault::FolderUnread => {
            String::from_str(
                alloc,
                "the folder is not there, or cannot be read and written",
            )
        }
        FolderFault::PackageFailed(id) => {
            format!(in alloc;
                "{id}.gpkg cannot be opened, is no database, or too many files are open"
            )
        }
        FolderFault::NameUnsettled(id) => {
            format!(in alloc; "{id}.gpkg stands, but a power loss may take its name")
        }
    }
}

impl From<AllocError> for FolderFault {
    ghost use Rattle.store_folder.specs.declared.fault.FolderFault.TheVariants.{OutOfMemory};

    ghost from_gives = { λ _ fault. fault ≡ OutOfMemory };

    fn from(_want: AllocError) -> FolderFault {
        FolderFault::OutOfMemory
    }
}

impl From<io::Error> for FolderFault {
    ghost use Rattle.std.specs.IoError.{error_kind};
    ghost use Rattle.store_folder.specs.Faults.{of_kind};

    ghost from_gives = { λ error fault. fault ≡ of_kind (error_kind error) };

    fn from(error: io::Error) -> FolderFault {
        match error.kind() {
            io::ErrorKind::OutOfMemory => FolderFault::OutOfMemory,
            _ => FolderFault::StoreFault,
        }
    }
}

/// What the store of a package failed of.
pub fn fault_of(package: Uuid, error: SqliteError) -> FolderFault
    ensures { result ≡ of_error «package» error }
{
    match error {
        SqliteError::SqliteFailure(ErrorCode::OutOfMemory) => FolderFault::OutOfMemory,
        SqliteError::SqliteFailure(ErrorCode::DatabaseBusy) => FolderFault::PackageHeld(package),
        _ => FolderFault::PackageFailed(package),
    }
}

impl From<FolderFault> for ShelfFault {
    ghost use Rattle.store_folder.specs.Faults.{shelf_fault};

    ghost from_gives = { λ fault shelf. shelf ≡ shelf_fault fault };

    fn from(fault: FolderFault) -> ShelfFault {
        match fault {
            FolderFault::OutOfMemory => ShelfFault::OutOfMemory,
            _ => ShelfFault::StoreFault,
        }
    }
}
