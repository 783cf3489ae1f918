//! How the program ends: its exit status, and the line that it prints before.
ghost use Rattle.std.specs.Prelude.{◌≡◌};
ghost use Rattle.command_words.specs.Endings.{error_text, import_outcome, outcome_status, output_text};

use manifest_csv::importing::ImportFault;
use manifest_csv::package_manifests::ManifestFault;
use manifest_csv::sending::WriteFault;
use package_tables::fault::Fault;
use request_csv::lists::ReadFault;
use std::alloc::AllocError;
use store_faults::shelf::ShelfFault;
use thiserror::Error;
use world::creating::CreateFault;

/// What a refusal names: the first thing that could not be read.
#[derive(Clone, Copy, Debug, PartialEq, Eq, Error)]
pub enum What {
    /// The archive's identity is no UUID.
    #[error("uuid")]
    BadUuid,
    /// The moment is none.
    #[error("at")]
    BadMoment,
    /// The frame is not eleven numbers, or it breaks a rule of frames.
    #[error("frame")]
    BadFrame,
    /// A port or a count is no number, or out of its range.
    #[error("number")]
    BadNumber,
    /// The request list has another header, a record that is no request, or could not be read to its end.
    #[error("list")]
    BadList,
}

/// What the program could not go on for.
#[derive(Clone, Copy, Debug, PartialEq, Eq, Error)]
pub enum Failure {
    /// A growth was refused.
    #[error("OutOfMemory")]
    OutOfMemory,
    /// A store failed, or what the program writes to.
    #[error("StoreFault")]
    StoreFault,
}

impl From<AllocError> for Failure {
    ghost use Rattle.command_words.specs.declared.statuses.Failure.TheVariants.{OutOfMemory};

    ghost from_gives = { λ want failure. failure ≡ OutOfMemory };

    fn from(_want: AllocError) -> Failure {
        Failure::OutOfMemory
    }
}

impl From<Fault> for Failure {
    ghost use Rattle.command_words.specs.Failures.{of_fault};

    ghost from_gives = { λ fault failure. failure ≡ of_fault fault };

    fn from(fault: Fault) -> Failure {
        match fault {
            Fault::OutOfMemory => Failure::OutOfMemory,
            Fault::StoreFault => Failure::StoreFault,
        }
    }
}

impl From<ShelfFault> for Failure {
    ghost use Rattle.command_words.specs.Failures.{of_shelf};

    ghost from_gives = { λ fault failure. failure ≡ of_shelf fault };

    fn from(fault: ShelfFault) -> Failure {
        match fault {
            ShelfFault::OutOfMemory => Failure::OutOfMemory,
            ShelfFault::StoreFault => Failure::StoreFault,
        }
    }
}

impl From<CreateFault> for Failure {
    ghost use Rattle.command_words.specs.Failures.{of_creation};

    ghost from_gives = { λ fault failure. failure ≡ of_creation fault };

    fn from(fault: CreateFault) -> Failure {
        match fault {
            CreateFault::Failed(fault) => Failure::from(fault),
            CreateFault::BadFrame(_) | CreateFault::BadText => Failure::StoreFault,
        }
    }
}

impl From<WriteFault> for Failure {
    ghost use Rattle.command_words.specs.declared.statuses.Failure.TheVariants.{StoreFault};

    ghost from_gives = { λ fault failure. failure ≡ StoreFault };

    fn from(_fault: WriteFault) -> Failure {
        Failure::StoreFault
    }
}

impl From<ManifestFault> for Failure {
    ghost use Rattle.command_words.specs.Failures.{of_manifest};

    ghost from_gives = { λ fault failure. failure ≡ of_manifest fault };

    fn from(fault: ManifestFault) -> Failure {
        match fault {
            ManifestFault::Failed(fault) => Failure::from(fault),
            ManifestFault::Unknown | ManifestFault::Unwritten => Failure::StoreFault,
        }
    }
}

/// The end of a call of the program.
#[derive(Clone, Copy, Debug, PartialEq, Eq)]
pub enum Outcome {
    /// All was done, and what it prints is printed.
    Done,
    /// Something could not be read, and nothing was done.
    Refused(What),
    /// Memory or a store gave out; what was done and printed before stands.
    Stopped(Failure),
}

/// The exit status: 0 done, 1 refused, 3 stopped. A wrong usage, which ends before there is an outcome, has 2.
pub fn status_of(outcome: Outcome) -> u8
    ensures { result ≡ outcome_status outcome }
{
    match outcome {
        Outcome::Done => 0,
        Outcome::Refused(_) => 1,
        Outcome::Stopped(_) => 3,
    }
}

/// What goes to standard output at the end: the line `refused: ` and what was refused, or nothing.
pub fn output_of(outcome: Outcome) -> &'static str
    ensures { result.now ≡ output_text outcome }
{
    match outcome {
        Outcome::Refused(What::BadUuid) => "refused: uuid\n",
        Outcome::Refused(What::BadMoment) => "refused: at\n",
        Outcome::Refused(What::BadFrame) => "refused: frame\n",
        Outcome::Refused(What::BadNumber) => "refused: number\n",
        Outcome::Refused(What::BadList) => "refused: list\n",
        Outcome::Done | Outcome::Stopped(_) => "",
    }
}

/// What goes to standard error at the end: the line `store: ` and the name of what gave out, or nothing.
pub fn error_of(outcome: Outcome) -> &'static str
    ensures { result.now ≡ error_text outcome }
{
    match outcome {
        Outcome::Stopped(Failure::OutOfMemory) => "store: OutOfMemory\n",
        Outcome::Stopped(Failure::StoreFault) => "store: StoreFault\n",
        Outcome::Done | Outcome::Refused(_) => "",
    }
}

/// How an import ends the program, unless it went through.
pub fn end_of_import(fault: ImportFault) -> Outcome
    ensures { result ≡ import_outcome fault }
{
    match fault {
        ImportFault::Unread(ReadFault::Memory) => Outcome::Stopped(Failure::OutOfMemory),
        ImportFault::Unread(_) => Outcome::Refused(What::BadList),
        ImportFault::Stopped(_, fault) => Outcome::Stopped(Failure::from(fault)),
        ImportFault::Unwritten => Outcome::Stopped(Failure::StoreFault),
    }
}
