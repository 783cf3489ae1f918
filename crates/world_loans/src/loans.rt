//! What is due after a decision: all that a split or a merge needs, made before anything is written.
ghost use Rattle.std.specs.Prelude.{◌≡◌, ◌↔◌, IsTrue};
ghost use Rattle.world_loans.specs.Loans.{SplitRefusedInTurn, SplitRefusedAsUnknown, LentWhereAccepted};
ghost use Rattle.world_loans.specs.Loans.{ReturnedWhereAccepted, MergeRefusedInTurn, MergeRefusedAsUnknown};
ghost use Rattle.world_loans.specs.ServeFaults.{IsLastingFault, told_refusal};

use identity_register::selection::Selection;
use package_tables::fault::Fault;
use register_lending::turn_fault::TurnFault;
use sheet_types::receipt::{Receipt, Sums};
use sheet_types::refusal::Refusal;
use store_faults::shelf::ShelfFault;
use uuid::Uuid;

/// A split that is due.
#[derive(Drop)]
pub struct Lending {
    /// Where the member stands whose package lends.
    pub at: usize,
    /// Where the child will stand.
    pub child_at: usize,
    /// The UUID of the child.
    pub child: Uuid,
    /// That of the package that lends.
    pub parent: Uuid,
    /// How many loans the child is below the archive.
    pub depth: u64,
    /// What is lent.
    pub selection: Selection,
    /// The reply.
    pub receipt: Receipt,
    /// What the package holds after the split.
    pub left: Sums,
    /// What the child holds.
    pub lent: Sums,
}

/// A merge that is due.
#[derive(Drop)]
pub struct Returning {
    /// Where the member of the child stands.
    pub from: usize,
    /// Where that of its parent stands.
    pub into: usize,
    /// All that the child holds.
    pub selection: Selection,
    /// The reply.
    pub receipt: Receipt,
    /// What the parent holds after the merge.
    pub sums: Sums,
}

/// Why a request was neither answered nor carried out.
#[derive(Clone, Copy, PartialEq, Eq, Debug)]
pub enum ServeFault {
    /// The shelf had no store for a new package: nothing was changed, and no store of the world has failed.
    Unshelved(Fault),
    /// A store failed or memory was wanting, in a look-up or in the turn of a store.
    Turn(TurnFault),
}

impl ServeFault {
    /// Whether the world is not to be used any more: a store of it failed, or may have a change or not.
    pub fn is_lasting(&self) -> bool
        ensures { IsTrue result ↔ IsLastingFault self.now }
    {
        match self {
            ServeFault::Unshelved(_) => false,
            ServeFault::Turn(turn) => turn.is_lasting(),
        }
    }

    /// How it is told in a reply.
    pub fn refusal(&self) -> Refusal
        ensures { result ≡ told_refusal self.now }
    {
        match self {
            ServeFault::Turn(turn) => turn.refusal(),
            ServeFault::Unshelved(fault) => match fault {
                Fault::OutOfMemory => Refusal::OutOfMemory,
                Fault::StoreFault => Refusal::StoreFault,
            },
        }
    }
}

impl From<ShelfFault> for ServeFault {
    ghost use Rattle.world_loans.specs.ServeFaults.{shelf_fault};
    ghost use Rattle.world_loans.specs.declared.loans.ServeFault.TheVariants.{Unshelved};

    ghost from_gives = { λ fault why. why ≡ Unshelved (shelf_fault fault) };

    fn from(fault: ShelfFault) -> ServeFault {
        match fault {
            ShelfFault::OutOfMemory => ServeFault::Unshelved(Fault::OutOfMemory),
            ShelfFault::StoreFault => ServeFault::Unshelved(Fault::StoreFault),
        }
    }
}

impl From<TurnFault> for ServeFault {
    ghost use Rattle.world_loans.specs.declared.loans.ServeFault.TheVariants.{Turn};

    ghost from_gives = { λ turn why. why ≡ Turn turn };

    fn from(turn: TurnFault) -> ServeFault {
        ServeFault::Turn(turn)
    }
}

impl From<Fault> for ServeFault {
    ghost use Rattle.register_lending.specs.declared.turn_fault.TurnFault.TheVariants.{Before};
    ghost use Rattle.world_loans.specs.declared.loans.ServeFault.TheVariants.{Turn};

    ghost from_gives = { λ fault why. why ≡ Turn (Before fault) };

    fn from(fault: Fault) -> ServeFault {
        ServeFault::Turn(TurnFault::Before(fault))
    }
}

/// A new split that is not refused is due, where what is due was made of it.
pub fn lent_where_accepted()
    ensures { LentWhereAccepted }
{}

/// A new merge that is not refused is due, where what is due was made of it.
pub fn returned_where_accepted()
    ensures { ReturnedWhereAccepted }
{}

/// A new merge of live packages is refused for the first reason that holds: its texts, a foreign
/// parent, a stale ticket, an open loan, a taken place, or what would be too many.
pub fn merge_refused_in_turn()
    ensures { MergeRefusedInTurn }
{}

/// A new merge one of whose packages is not live is refused for that.
pub fn merge_refused_as_unknown()
    ensures { MergeRefusedAsUnknown }
{}

/// A new split of a live package is refused for the first reason that holds: a used UUID, its
/// texts, its rectangle, the depth, nothing to lend, a torn link, or what would be too many.
pub fn split_refused_in_turn()
    ensures { SplitRefusedInTurn }
{}

/// A new split whose package is not live is refused for that.
pub fn split_refused_as_unknown()
    ensures { SplitRefusedAsUnknown }
{}
