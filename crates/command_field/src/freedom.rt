//! Whether what a list of requests asks for is free in a world: looked at before anything is
//! carried out. The world is only read.
ghost use Rattle.std.specs.Prelude.{◌≡◌, false, true, IfOk, MatchOption};
ghost use Rattle.std.specs.List.{list_any, AllByRecursion};
ghost use Rattle.sheet_types.specs.Refuse.{identity_used};
ghost use Rattle.sheet_types.specs.World.{World as ModelWorld};
ghost use Rattle.world.specs.Worlds.{IsRead, StandsFor, TellsOf};
ghost use Rattle.command_requests.specs.Listing.{IsUntouched};
ghost use Rattle.field_home_laws.specs.Free.{keeps_limits};
ghost use Rattle.field_run_laws.specs.Lists.{is_kept};
ghost use Rattle.command_field.specs.Freedom.{takes, AreApart, IsFreeOrTaken, IsNewIn, IsTwice};

use crate::identities::{added_ids, first_twice, request_ids};
use crate::limits::keeps_package;
use field_changes::changes::Holdings;
use package_tables::fault::Fault;
use sheet_types::command::{Command, Request};
use sqlite::Alter;
use std::alloc::Global;
use uuid::Uuid;
use world::world::World;

/// What a list asks for that is not free.
#[derive(Clone, Copy, Debug, PartialEq, Eq)]
pub enum Taken {
    /// A new item would get this identity, which an item had before, or another new one gets.
    Identity(Uuid),
    /// A request would get this identity, which a request had before, or another one of the list gets.
    Request(Uuid),
    /// A package, the world or its ledger would be past a limit.
    TooMany,
}

/// What two requests of a list ask for both.
fn twice_in(alloc: Global, requests: &[Request]) -> Result<Option<Taken>, Fault>
    ensures { IfOk result (λ found. MatchOption found (AreApart requests.now) (λ taken. IsTwice requests.now taken)) }
{
    let added = added_ids(alloc, requests)?;
    if let Some(id) = first_twice(alloc, added.as_slice())? {
        return Ok(Some(Taken::Identity(id)));
    }
    let ids = request_ids(alloc, requests)?;
    if let Some(id) = first_twice(alloc, ids.as_slice())? {
        return Ok(Some(Taken::Request(id)));
    }
    Ok(None)
}

/// The identity that a request adds, where an item had it.
fn identity_taken<S: Alter + Drop>(
    world: &mut World<S>,
    request: &Request,
) -> Result<Option<Taken>, Fault>
    ensures told { TellsOf S.Store (λ w found. MatchOption found (identity_used w request.now.command ≡ false)
        (λ taken. takes w taken request.now ≡ true))
        world.old world.new result }
    ensures read { IsUntouched S.Store world.old world.new }
{
    let Command::Add { identity, .. } = &request.command else {
        return Ok(None);
    };
    if world.is_used(*identity)? {
        return Ok(Some(Taken::Identity(*identity)));
    }
    Ok(None)
}

/// Its own identity, where a request of it came before.
fn request_taken<S: Alter + Drop>(
    alloc: Global,
    world: &mut World<S>,
    request: &Request,
) -> Result<Option<Taken>, Fault>
    ensures told { TellsOf S.Store (λ w found. MatchOption found (is_kept w request.now ≡ false)
        (λ taken. takes w taken request.now ≡ true))
        world.old world.new result }
    ensures read { IsRead S.Store world.old world.new }
{
    let receipt = world.receipt(alloc, request.id)?;
    if receipt.is_some() {
        return Ok(Some(Taken::Request(request.id)));
    }
    Ok(None)
}

/// What a request asks for that is taken.
fn taken_by<S: Alter + Drop>(
    alloc: Global,
    world: &mut World<S>,
    request: &Request,
) -> Result<Option<Taken>, Fault>
    ensures told { TellsOf S.Store (λ w found. MatchOption found (IsNewIn w request.now)
        (λ taken. takes w taken request.now ≡ true))
        world.old world.new result }
    ensures read { IsUntouched S.Store world.old world.new }
{
    if let Some(taken) = identity_taken(world, request)? {
        return Ok(Some(taken));
    }
    request_taken(alloc, world, request)
}

/// What the first request asks for that asks for what is taken.
fn first_taken<S: Alter + Drop>(
    alloc: Global,
    world: &mut World<S>,
    requests: &[Request],
) -> Result<Option<Taken>, Fault>
    ensures told { TellsOf S.Store (λ w found. MatchOption found (AllByRecursion (IsNewIn w) requests.now)
        (λ taken. list_any (takes w taken) requests.now ≡ true)) world.old world.new result }
    ensures read { IsUntouched S.Store world.old world.new }
{
    for request in requests {
        if let Some(taken) = taken_by(alloc, world, request)? {
            return Ok(Some(taken));
        }
    }
    Ok(None)
}

/// Whether the limits are kept by a package that holds this, by the world and by its ledger.
fn keeps_limits<S: Alter + Drop>(
    alloc: Global,
    world: &World<S>,
    holdings: &Holdings<'_>,
    requests: &[Request],
) -> Result<bool, Fault>
    ensures { IfOk result (λ keeps. (w : ModelWorld) → StandsFor S.Store world.now w
        → keeps ≡ keeps_limits w holdings.now.items.now holdings.now.links.now requests.now) }
{
    if !world.has_room(requests.len() as u64) {
        return Ok(false);
    }
    keeps_package(alloc, requests, holdings)
}

/// What a list asks for that is not free, for a package that holds this. An empty list asks for nothing.
///
/// # Errors
///
/// Want of memory, or a store that failed.
pub fn taken_in<S: Alter + Drop>(
    alloc: Global,
    world: &mut World<S>,
    holdings: &Holdings<'_>,
    requests: &[Request],
) -> Result<Option<Taken>, Fault>
    ensures told { TellsOf S.Store (λ w found. IsFreeOrTaken w holdings.now.items.now holdings.now.links.now
        requests.now found)
        world.old world.new result }
    ensures read { IsUntouched S.Store world.old world.new }
{
    if requests.is_empty() {
        return Ok(None);
    }
    if let Some(taken) = twice_in(alloc, requests)? {
        return Ok(Some(taken));
    }
    if let Some(taken) = first_taken(alloc, world, requests)? {
        return Ok(Some(taken));
    }
    if keeps_limits(alloc, world, holdings, requests)? {
        Ok(None)
    } else {
        Ok(Some(Taken::TooMany))
    }
}
