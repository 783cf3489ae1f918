//! What a connection asks of the desk.
ghost use Rattle.std.specs.Prelude.{◌≡◌};

use sheet_types::command::Request;
use sheet_types::error::OutOfMemory;
use thiserror::Error;
use uuid::Uuid;

/// The first check that fails, where one does before the world is asked.
#[derive(Clone, Copy, Debug, PartialEq, Eq)]
pub enum Flaw {
    /// A page of another address asks, by its Origin field (RFC 6454, section 7) or by its Host field
    /// (RFC 9110, section 7.2).
    BadOrigin,
    /// The head, a field, or the body is not as it has to be.
    BadRequest,
    /// The path has no route.
    NoSuchPath,
    /// The route has another method.
    BadMethod,
    /// There is no Content-Length.
    NoLength,
    /// The Content-Length is over the limit.
    TooLarge,
}

/// What all the bytes of a connection ask, where there is one.
#[derive(Drop)]
pub enum Call {
    /// A check failed.
    Refused(Flaw),
    /// A request is to be carried out.
    Apply(Request),
    /// The list of packages.
    Packages,
    /// The manifest of a package; none where its text is no UUID.
    Manifest(Option<Uuid>),
    /// The kept receipt of a request; none where its text is no UUID.
    Receipt(Option<Uuid>),
}

/// What a head asks.
#[derive(Drop)]
pub enum Asked {
    /// This, whatever follows.
    Now(Call),
    /// What a body of this size asks.
    Body(usize),
}

/// Why it is not known what a connection asks.
#[derive(Clone, Copy, Debug, PartialEq, Eq, Error)]
pub enum CallFault {
    /// The source of its bytes failed.
    #[error("the reader failed")]
    Failed,
    /// A growth was refused.
    #[error("out of memory")]
    Memory,
}

impl From<OutOfMemory> for CallFault {
    ghost use Rattle.desk_calls.specs.declared.calls.CallFault.TheVariants.{Memory};

    ghost from_gives = { λ want fault. fault ≡ Memory };

    fn from(_want: OutOfMemory) -> CallFault {
        CallFault::Memory
    }
}
