//! The change of one member of a world: its store takes a turn, and what is kept of it is brought up to date.
ghost use Rattle.std.specs.Prelude.{◌≡◌, ◌<◌, ℕ, ◌+◌, ◌∷◌, [], length, vec_capacity, Err, OnOk, OnErr};
ghost use Rattle.sheet_types.specs.World.{World};
ghost use Rattle.store_sql.specs.Stores.{LeavesEither};
ghost use Rattle.world_changes.specs.Dating.{AreDated};
ghost use Rattle.world_members.specs.Laws.{package_of};
ghost use Rattle.world_members.specs.Members.{AllRest, AllClean, AllOpen, AreMembers};
ghost use Rattle.world_members.specs.Turning.{CarriesOutAt, IsDue, DueWhereAccepted, LeavesAsBefore, LeftAs};
ghost use Rattle.world_members.specs.Turning.{world_after};
ghost use Rattle.package_tables.specs.declared.fault.Fault.{Fault};
ghost use Rattle.register_lending.specs.declared.turn_fault.TurnFault.TheVariants.{Before};

use crate::carrying_out::apply_to_package;
use register_lending::turn_fault::TurnFault;
use sheet_types::command::Command;
use sheet_types::receipt::{Receipt, Sums};
use sqlite::Alter;
use world_members::members::Member;

/// Carries a command out in the store of the member at a place, with its receipt. The sums are
/// those of the member's package after the command; they are kept of it where all went well.
///
/// # Errors
///
/// Want of memory, or a store that failed, before the commit or in it (`TurnFault`). What is kept
/// of the member is as it was.
pub fn turn_at<S: Alter + Drop>(
    members: &mut Vec<Member<S>>,
    at: usize,
    command: &Command,
    receipt: &Receipt,
    sums: Sums,
) -> Result<(), TurnFault>
    requires within { at < length members.old.items }
    requires rests { AllRest S.Store members.old.items }
    ensures turned { CarriesOutAt S.Store receipt.now command.now sums members.old.items members.new.items at result }
    ensures rests { AllRest S.Store members.new.items }
    ensures clean { AllClean S.Store members.new.items → AllClean S.Store members.old.items }
    ensures opens { AllClean S.Store members.new.items → OnOk result
        (AllOpen S.Store members.old.items → AllOpen S.Store members.new.items) }
    ensures capacity { vec_capacity members.new ≡ vec_capacity members.old }
    ensures done { OnOk result ((w : World) (count : ℕ) → AreMembers S.Store members.old.items count w
        → IsDue w at receipt.now command.now sums → AreMembers S.Store members.new.items (count + 1)
        (world_after receipt.now command.now w)) }
    ensures dated { OnOk result ((w : World) (count : ℕ) → AllClean S.Store members.new.items
        → AreMembers S.Store members.old.items count w → IsDue w at receipt.now command.now sums
        → AreDated S.Store w.frame receipt.now.at (package_of command.now ∷ []) members.new.items) }
    ensures undone { OnErr result ((w : World) (count : ℕ) → AreMembers S.Store members.old.items count w
        → AreMembers S.Store members.new.items count w) }
    ensures crash { (w : World) (count : ℕ) → AreMembers S.Store members.old.items count w
        → IsDue w at receipt.now command.now sums → AllOpen S.Store members.old.items
        → LeavesEither S.Store (λ m. m.conn) (LeftAs w.frame) members.new.items w.packages
        (world_after receipt.now command.now w).packages }
    ensures unharmed { (fault : Fault) → result ≡ Err (Before fault)
        → LeavesAsBefore S.Store members.old.items members.new.items }
{
    let member = &mut members[at];
    apply_to_package(&mut member.conn, command, receipt)?;
    member.sums = sums;
    member.ticket = receipt.seq;
    Ok(())
}

/// A request to change one package that is new and not refused is due where its package stands,
/// which is what `turn_at` asks of it.
pub fn due_where_accepted()
    ensures { DueWhereAccepted }
{}
