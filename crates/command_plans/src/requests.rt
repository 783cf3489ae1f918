//! Commands as requests, each under an identity of its own.
ghost use Rattle.std.specs.Prelude.{◌≡◌, ℕ, List, Option, Some, IfOk};
ghost use Rattle.command_plans.specs.Requests.{command_of};

use command_verbs::verbs::request_of;
use sheet_types::command::{Command, Request};
use sheet_types::error::OutOfMemory;
use std::alloc::{AllocError, AllocFailed, Global};
use uuid::Uuid;

/// Where the identities of requests come from.
pub trait Identities {
    /// One call gave this identity, or none, between these two states. Each source says what that is.
    /// Nothing is known of it but that `next_identity` does it. So where a function promises it of
    /// each of its identities, from one state to the next, each has a call of its own.
    ghost gives: { Option (List ℕ) → Self → Self → Type 0 };

    /// One that is new, where it can be had.
    fn next_identity(&mut self) -> Option<Uuid>
        ensures { gives result self.old self.new };
}

/// Why there are no requests.
#[derive(Clone, Copy, Debug, PartialEq, Eq)]
pub enum PlanFault {
    /// A growth was refused.
    OutOfMemory,
    /// No new identity could be had.
    NoIdentity,
}

impl From<OutOfMemory> for PlanFault {
    fn from(_error: OutOfMemory) -> PlanFault {
        PlanFault::OutOfMemory
    }
}

impl From<AllocError> for PlanFault {
    fn from(_error: AllocError) -> PlanFault {
        PlanFault::OutOfMemory
    }
}

impl<T: Drop> From<AllocFailed<T>> for PlanFault {
    fn from(_error: AllocFailed<T>) -> PlanFault {
        PlanFault::OutOfMemory
    }
}

/// A command as a request under a new identity, at this moment.
///
/// # Errors
///
/// Want of memory, or of a new identity.
pub fn request_from<N: Identities>(
    alloc: Global,
    at: &str,
    command: Command,
    identities: &mut N,
) -> Result<Request, PlanFault>
    ensures asks { IfOk result (λ request. (command_of request ≡ command) × (request.at ≡ at.now)) }
    ensures gives { IfOk result (λ request. N.gives (Some request.id) identities.old identities.new) }
{
    let Some(id) = identities.next_identity() else {
        return Err(PlanFault::NoIdentity);
    };
    Ok(request_of(alloc, id, at, command)?)
}
