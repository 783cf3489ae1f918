//! What a world is asked for without changing it: the packages, what one of them holds and how
//! much, and a kept receipt.
ghost use Rattle.std.specs.Prelude.{◌≡◌, ◌<◌, ◌≤◌, ◌+◌, ◌++◌, ℕ, Some, IfOk, OnOk, map};
ghost use Rattle.std.specs.Prelude.{length, slice_get, vec_len};
ghost use Rattle.std.specs.Prelude.{vec_capacity};
ghost use Rattle.std.specs.Option.{option_map};
ghost use Rattle.sheet_types.specs.Answers.{sums_of, package_sights, holdings_answer, receipt_answer};
ghost use Rattle.sheet_types.specs.World.{World as ModelWorld, Package};
ghost use Rattle.world_queries.specs.Asking.{AsksAll};
ghost use Rattle.world_members.specs.Members.{AllRest, AllClean, AllOpen, AreMembers};
ghost use Rattle.world.specs.Reading.{sight_of, member_sight};
ghost use Rattle.world.specs.Worlds.{StandsFor, IsRead, TellsOf, held};

use crate::world::World;
use package_tables::fault::Fault;
use sheet_types::command::{Item, Relation};
use sheet_types::receipt::{Receipt, Sums};
use sqlite::{Alter, Connection};
use std::alloc::Global;
use uuid::Uuid;
use world_members::members::Member;
use world_members::reserving::push_reserved;
use world_queries::asking::place_of;
use world_queries::asking_one::holdings_at;
use world_queries::recalling::find_kept;

/// What the list of packages says of a live one: its parent, where it is a loan, how many loans it
/// is below the archive, and the number of the last receipt of it, 0 where there is none.
#[derive(Clone, Copy, PartialEq, Eq)]
pub struct PackageSight {
    /// The package's own.
    pub uuid: Uuid,
    /// The package that it is lent from, none of the archive.
    pub parent: Option<Uuid>,
    /// How many loans it is below the archive.
    pub depth: u64,
    /// The number of the last receipt that names the package, 0 where there is none.
    pub ticket: u64,
}

/// The items and the links of a package, if it is live.
pub fn holdings_in<S: Alter + Drop>(
    members: &mut Vec<Member<S>>,
    alloc: Global,
    package: Uuid,
) -> Result<Option<(Vec<Item>, Vec<Relation>)>, Fault>
    requires { AllRest S.Store members.old.items }
    ensures { AsksAll S.Store
        (λ w found. option_map (λ held. (held.0.items, held.1.items)) found ≡ holdings_answer w «package»)
        members.old.items members.new.items result }
{
    match place_of(members.as_slice(), package) {
        Some(at) => Ok(Some(holdings_at(members, at, alloc)?)),
        None => Ok(None),
    }
}

/// What the list of packages says of the package of a member.
fn sight_of<S: Alter + Drop>(member: &Member<S>) -> PackageSight
    ensures { result ≡ member_sight member.now }
{
    PackageSight {
        uuid: member.uuid,
        parent: member.parent,
        depth: member.depth,
        ticket: member.ticket,
    }
}

/// What the list of packages says of the packages of all members, in their order.
pub fn sights_of<S: Alter + Drop>(
    members: &[Member<S>],
    alloc: Global,
) -> Result<Vec<PackageSight>, Fault>
    ensures { IfOk result (λ sights. sights.items ≡ map member_sight members.now) }
{
    let mut sights = Vec::with_capacity(alloc, members.len())?;
    for member in members {
        sights.push(sight_of(member))?;
    }
    Ok(sights)
}

/// How much a package holds, if it is live, from what is kept of it.
pub fn sums_in<S: Alter + Drop>(members: &[Member<S>], package: Uuid) -> Option<Sums>
    ensures { (w : ModelWorld) → (count : ℕ) → AreMembers S.Store members.now count w
        → result ≡ sums_of w «package» }
{
    match place_of(members, package) {
        Some(at) => Some(members[at].sums),
        None => None,
    }
}

/// The stores of members, in their order, behind those that a list has. Takes no memory: the list has room for them.
fn stores_of<S: Alter + Drop>(
    members: Vec<Member<S>>,
    mut stores: Vec<Connection<S>>,
) -> Vec<Connection<S>>
    requires room { length members.items + vec_len stores ≤ vec_capacity stores }
    ensures { result.items ≡ stores.items ++ map (λ m. m.conn) members.items }
{
    for member in members {
        push_reserved(&mut stores, member.conn);
    }
    stores
}

impl<S: Alter + Drop> World<S> {
    /// The live packages by UUID. Nothing is looked up.
    ///
    /// # Errors
    ///
    /// Want of memory.
    pub fn packages(&self, alloc: Global) -> Result<Vec<PackageSight>, Fault>
        ensures { IfOk result (λ sights. (w : ModelWorld) → StandsFor S.Store self.now w
            → map sight_of sights.items ≡ package_sights w) }
    {
        sights_of(self.members.as_slice(), alloc)
    }

    /// How many tiles, media, attributes rows and links a live package holds, and the bytes of its
    /// items. `None` for a package that is not live. Nothing is looked up.
    pub fn sums(&self, package: Uuid) -> Option<Sums>
        ensures { (w : ModelWorld) → StandsFor S.Store self.now w → result ≡ sums_of w «package» }
    {
        sums_in(self.members.as_slice(), package)
    }

    /// The items of a live package by kind and identity, and its links by mapping, base and medium.
    /// `None` for a package that is not live.
    ///
    /// # Errors
    ///
    /// Want of memory, or a store that failed. The world has not failed by that.
    pub fn holdings(
        &mut self,
        alloc: Global,
        package: Uuid,
    ) -> Result<Option<(Vec<Item>, Vec<Relation>)>, Fault>
        ensures told { TellsOf S.Store (λ w found. option_map (λ held. (held.0.items, held.1.items)) found
            ≡ holdings_answer w «package») self.old self.new result }
        ensures read { IsRead S.Store self.old self.new }
        ensures opens { AllClean S.Store self.new.members → OnOk result
            (AllOpen S.Store self.old.members → AllOpen S.Store self.new.members) }
    {
        holdings_in(&mut self.members, alloc, package)
    }

    /// The kept receipt of a request, if it came before.
    ///
    /// # Errors
    ///
    /// Want of memory, or a store that failed. The world has not failed by that.
    pub fn receipt(&mut self, alloc: Global, id: Uuid) -> Result<Option<Receipt>, Fault>
        ensures told { TellsOf S.Store (λ w found. found ≡ receipt_answer w id) self.old self.new result }
        ensures read { IsRead S.Store self.old self.new }
        ensures opens { AllClean S.Store self.new.members → OnOk result
            (AllOpen S.Store self.old.members → AllOpen S.Store self.new.members) }
    {
        find_kept(&mut self.members, &self.known, alloc, id)
    }

    /// The stores that the world holds: the strays, and behind them those of its packages in their
    /// order. Takes no memory.
    pub fn into_stores(self) -> Vec<Connection<S>>
        ensures { result.items ≡ held S.Store self }
    {
        stores_of(self.members, self.strays)
    }
}
