//! Where the turn of a store failed, and why.
ghost use Rattle.std.specs.Prelude.{◌≡◌, ◌≢◌, ◌↔◌, IsTrue};
ghost use Rattle.package_tables.specs.Faults.{fault_of};
ghost use Rattle.package_tables.specs.declared.fault.Fault.TheVariants.{OutOfMemory};
ghost use Rattle.register_lending.specs.Faults.{fault_in, turn_refusal};
ghost use Rattle.register_lending.specs.declared.turn_fault.TurnFault.TheVariants.{Before, Committing};

use package_tables::fault::Fault;
use sheet_types::refusal::Refusal;
use sqlite::Error;

/// Where the change of a package failed, and why.
#[derive(Clone, Copy, PartialEq, Eq, Debug, thiserror::Error)]
pub enum TurnFault {
    /// Before its commit: nothing was changed.
    #[error("{0}")]
    Before(Fault),
    /// When it was committed: the store may have the change or not.
    #[error("{0}")]
    Committing(Fault),
}

impl TurnFault {
    /// Whether the world is not to be used any more: its store failed, or may have a change or not.
    pub fn is_lasting(&self) -> bool
        ensures { IsTrue result ↔ (self.now ≢ Before OutOfMemory) }
    {
        match self {
            TurnFault::Before(fault) => *fault == Fault::StoreFault,
            TurnFault::Committing(_) => true,
        }
    }

    /// How it is told in a reply.
    pub fn refusal(&self) -> Refusal
        ensures { result ≡ turn_refusal self.now }
    {
        match self {
            TurnFault::Before(fault) | TurnFault::Committing(fault) => match fault {
                Fault::OutOfMemory => Refusal::OutOfMemory,
                Fault::StoreFault => Refusal::StoreFault,
            },
        }
    }
}

impl From<TurnFault> for Fault {
    ghost from_gives = { λ turn fault. fault ≡ fault_in turn };

    fn from(turn: TurnFault) -> Fault {
        match turn {
            TurnFault::Before(fault) | TurnFault::Committing(fault) => fault,
        }
    }
}

impl From<Fault> for TurnFault {
    ghost from_gives = { λ fault turn. turn ≡ Before fault };

    fn from(fault: Fault) -> TurnFault {
        TurnFault::Before(fault)
    }
}

impl From<Error> for TurnFault {
    ghost from_gives = { λ error turn. turn ≡ Committing (fault_of error) };

    fn from(error: Error) -> TurnFault {
        TurnFault::Committing(Fault::from(error))
    }
}
