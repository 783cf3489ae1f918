//! What a world is asked of a list before it is carried out: whether an identity was ever used, and
//! whether there is room for the receipts.
ghost use Rattle.std.specs.Prelude.{◌≡◌, OnOk};
ghost use Rattle.std.specs.List.{list_any};
ghost use Rattle.sheet_types.specs.Custody.{is_used};
ghost use Rattle.sheet_types.specs.World.{World as ModelWorld};
ghost use Rattle.world_members.specs.Members.{AllClean, AllOpen};
ghost use Rattle.world_members.specs.Steps.{is_past_limits};
ghost use Rattle.world.specs.Knowing.{has_room, members_have_room};
ghost use Rattle.world.specs.Worlds.{IsRead, StandsFor, TellsOf};

use crate::world::World;
use package_tables::fault::Fault;
use sheet_types::checks::{GREATEST_PACKAGES, GREATEST_RECEIPTS};
use sqlite::Alter;
use uuid::Uuid;
use world_members::members::Member;
use world_queries::recalling::was_used;
use world_queries::too_many::is_past_limits;

/// Whether a member is past the limits of a package.
fn any_past_limits<S: Alter + Drop>(members: &[Member<S>]) -> bool
    ensures { result ≡ list_any (λ m. is_past_limits m.sums) members.now }
{
    members.iter().any(|member| is_past_limits(member.sums))
}

/// Whether members with so many receipts are within the limits, and so many receipts more are none too many.
fn members_have_room<S: Alter + Drop>(members: &[Member<S>], count: u64, more: u64) -> bool
    ensures { result ≡ members_have_room members.now count more }
{
    if any_past_limits(members) {
        return false;
    }
    if members.len() > GREATEST_PACKAGES {
        return false;
    }
    if count > GREATEST_RECEIPTS {
        return false;
    }
    more <= GREATEST_RECEIPTS - count
}

impl<S: Alter + Drop> World<S> {
    /// Whether an identity was ever that of an item. One that no receipt names is told without a look into a store.
    ///
    /// # Errors
    ///
    /// Want of memory, or a store that failed. The world has not failed by that.
    pub fn is_used(&mut self, identity: Uuid) -> Result<bool, Fault>
        ensures told { TellsOf S.Store (λ w found. found ≡ is_used w identity) self.old self.new result }
        ensures read { IsRead S.Store self.old self.new }
        ensures opens { AllClean S.Store self.new.members → OnOk result
            (AllOpen S.Store self.old.members → AllOpen S.Store self.new.members) }
    {
        was_used(&mut self.members, &self.known, identity)
    }

    /// Whether all packages and the ledger are within their limits, and so many receipts more are
    /// none too many. Nothing is looked up.
    pub fn has_room(&self, more: u64) -> bool
        ensures { (w : ModelWorld) → StandsFor S.Store self.now w → result ≡ has_room w more }
    {
        members_have_room(self.members.as_slice(), self.count, more)
    }
}
