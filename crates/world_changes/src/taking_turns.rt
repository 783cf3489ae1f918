//! The turn that one member's store takes in a split or in a merge, with the receipt; what is kept
//! of the member is brought up to date after the commit.
ghost use Rattle.std.specs.Prelude.{◌≡◌, ◌<◌, Err, IsTrue, OnOk, length, vec_capacity};
ghost use Rattle.sqlite.specs.Held.{state};
ghost use Rattle.sqlite.specs.State.{HasCleanDisk};
ghost use Rattle.store_sql.specs.Staying.{Stays};
ghost use Rattle.store_sql.specs.Transactions.{Rests};
ghost use Rattle.package_tables.specs.declared.fault.Fault.{Fault};
ghost use Rattle.register_lending.specs.Lending.{Lends, TakesHome};
ghost use Rattle.world_members.specs.Members.{AllRest};
ghost use Rattle.custody.specs.Homing.{FromClean};
ghost use Rattle.world_members.specs.Turning.{LeavesAsBefore};
ghost use Rattle.world_changes.specs.Turns.{TakesTurn, LeavesNoMore};
ghost use Rattle.register_lending.specs.declared.turn_fault.TurnFault.TheVariants.{Before};

use register_lending::lending::lend;
use register_lending::returning::take_home;
use register_lending::turn_fault::TurnFault;
use sqlite::{Alter, Connection};
use world_loans::loans::{Lending, Returning};
use world_members::members::Member;

/// The package at the place of a split lends what is selected.
pub(crate) fn lend_at<S: Alter + Drop>(
    members: &mut Vec<Member<S>>,
    due: &Lending,
) -> Result<(), TurnFault>
    requires within { due.now.at < length members.old.items }
    requires rests { AllRest S.Store members.old.items }
    ensures turned { TakesTurn S.Store (Lends due.now.receipt due.now.selection) due.now.left due.now.receipt.seq
        members.old.items members.new.items due.now.at result }
    ensures capacity { vec_capacity members.new ≡ vec_capacity members.old }
    ensures unharmed { (fault : Fault) → result ≡ Err (Before fault)
        → LeavesAsBefore S.Store members.old.items members.new.items }
{
    let member = &mut members[due.at];
    lend(&mut member.conn, &due.selection, &due.receipt)?;
    member.sums = due.left;
    member.ticket = due.receipt.seq;
    Ok(())
}

/// The package at a place takes home what a child holds, whose member is out of the list. The child is only read.
pub(crate) fn take_home_at<S: Alter + Drop>(
    members: &mut Vec<Member<S>>,
    at: usize,
    child: &mut Connection<S>,
    due: &Returning,
) -> Result<(), TurnFault>
    requires within { at < length members.old.items }
    requires rests { AllRest S.Store members.old.items }
    requires child { Rests (state S.Store child.old) }
    ensures child { Stays (state S.Store child.old) (state S.Store child.new) }
    ensures opens { HasCleanDisk (state S.Store child.new) → OnOk result (IsTrue (state S.Store child.new).is_open) }
    ensures turned { TakesTurn S.Store (FromClean (state S.Store child.new)
        (TakesHome due.now.receipt due.now.selection (state S.Store child.old).now)) due.now.sums due.now.receipt.seq
        members.old.items members.new.items at result }
    ensures capacity { vec_capacity members.new ≡ vec_capacity members.old }
    ensures unharmed { (fault : Fault) → result ≡ Err (Before fault)
        → LeavesNoMore S.Store members.old.items members.new.items }
{
    let member = &mut members[at];
    take_home(child, &mut member.conn, &due.selection, &due.receipt)?;
    member.sums = due.sums;
    member.ticket = due.receipt.seq;
    Ok(())
}
