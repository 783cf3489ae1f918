//! A merge among the members of a world: the child's member leaves the list, the parent takes its
//! turn, and the child's connection is handed out; or the child comes back to its place.
ghost use Rattle.std.specs.Prelude.{◌≡◌, ◌<◌, ℕ, ◌∷◌, [], OnOk, length, vec_capacity};
ghost use Rattle.sheet_types.specs.World.{World};
ghost use Rattle.world_loans.specs.Loans.{IsReturned, place_without};
ghost use Rattle.world_members.specs.Members.{AllRest, AllClean, AreMembers};
ghost use Rattle.world_changes.specs.Dating.{AreDated};
ghost use Rattle.world_changes.specs.Leaving.{AreClean};
ghost use Rattle.world_changes.specs.Merges.{Merges, left_by};

use crate::taking_turns::take_home_at;
use register_lending::turn_fault::TurnFault;
use sheet_types::receipt::Receipt;
use sqlite::{Alter, Connection};
use world_loans::loans::Returning;
use world_members::members::Member;
use world_members::reserving::insert_reserved;

/// Where a member stands when the one at another place is out of the list.
fn place_without(gone: usize, at: usize) -> usize
    ensures { result ≡ place_without gone at }
{
    if gone < at { at - 1 } else { at }
}

/// The parent takes home what the child holds, with the receipt of the merge. The child's
/// connection is handed out beside it: it was only read. After the commit nothing takes memory.
///
/// # Errors
///
/// Want of memory, or a store that failed, before the commit or in it (`TurnFault`). The child stands where it stood.
pub fn merge_at<S: Alter + Drop>(
    members: &mut Vec<Member<S>>,
    due: Returning,
) -> Result<(Receipt, Connection<S>), TurnFault>
    requires from { due.from < length members.old.items }
    requires into { due.into < length members.old.items }
    requires two { ¬ (due.from ≡ due.into) }
    requires rests { AllRest S.Store members.old.items }
    ensures merges { Merges S.Store due members.old.items members.new.items result }
    ensures dated { OnOk result ((w next : World) (count : ℕ) → AllClean S.Store members.new.items
        → AreClean S.Store (left_by result) → AreMembers S.Store members.old.items count w
        → (it : IsReturned w next due)
        → AreDated S.Store w.frame due.receipt.at (it.parent.uuid ∷ []) members.new.items) }
    ensures capacity { vec_capacity members.new ≡ vec_capacity members.old }
{
    let mut child = members.remove(due.from);
    let into = place_without(due.from, due.into);
    match take_home_at(members, into, &mut child.conn, &due) {
        Ok(()) => Ok((due.receipt, child.conn)),
        Err(why) => {
            insert_reserved(members, due.from, child);
            Err(why)
        }
    }
}
