//! An item that a word names is dropped.
ghost use Rattle.std.specs.Prelude.{◌≡◌, IfOk, MatchResult, map};
ghost use Rattle.command_plans.specs.Drops.{drop_commands};
ghost use Rattle.command_plans.specs.Requests.{AreRequestsFor, GivesEach, id_of};
ghost use Rattle.command_requests.specs.Listing.{IsUntouched};
ghost use Rattle.command_naming.specs.Drops.{DropsHeld, DropsItem, DropsNamed, may_drop};

use crate::naming::pick_one;
use command_drops::dropping::{Dropped, drop_held};
use command_drops::holding::{Holding, holding_of};
use command_names::searching::Found;
use command_plans::drops::drop_requests;
use command_plans::requests::{Identities, PlanFault};
use command_searches::searches::found_item;
use command_verbs::names::NameFault;
use package_tables::fault::Fault;
use sheet_types::command::{Relation, Request};
use sqlite::Alter;
use std::alloc::Global;
use store_shelf::shelf::Shelf;
use uuid::Uuid;
use world::world::World;

/// What is to be dropped: the item of a word, at a moment. Whether its links may be ended for it,
/// and whether its requests are only shown.
#[derive(Clone, Copy)]
pub struct Dropping<'t> {
    pub word: &'t str,
    pub at: &'t str,
    pub ends_links: bool,
    pub is_shown: bool,
}

/// What came of it.
#[derive(Drop)]
pub enum DropOutcome {
    /// The word names no item: this was found for it.
    Unnamed(NameFault, Found),
    /// The item stays, since it has these links, which may not be ended.
    Linked(Vec<Relation>),
    /// These requests drop it. Nothing was carried out.
    Planned(Vec<Request>),
    /// It was dropped, or a request was refused.
    Dropped(Dropped),
}

/// Whether an item that is held so may be dropped.
fn may_drop(dropping: &Dropping<'_>, holding: &Holding) -> bool
    ensures { result ≡ may_drop dropping.now holding.now }
{
    dropping.ends_links || holding.links.is_empty()
}

/// The requests that drop an item which is held so.
fn plan_drop<N: Identities>(
    alloc: Global,
    at: &str,
    id: Uuid,
    holding: &Holding,
    identities: &mut N,
) -> Result<Vec<Request>, Fault>
    ensures asks { IfOk result (λ requests. AreRequestsFor at.now
        (drop_commands holding.now.holder id holding.now.links.items) requests.items) }
    ensures gives { IfOk result (λ requests. GivesEach N.gives (map id_of requests.items)
        identities.old identities.new) }
{
    let links = holding.links.as_slice();
    match drop_requests(alloc, at, holding.holder, id, links, identities) {
        Ok(requests) => Ok(requests),
        Err(PlanFault::OutOfMemory) => Err(Fault::OutOfMemory),
        Err(PlanFault::NoIdentity) => Err(Fault::StoreFault),
    }
}

/// Drops an item which is held so, or shows how. One that has links stays, where these may not be ended.
fn drop_so<S: Alter + Drop, H: Shelf<S>, N: Identities>(
    alloc: Global,
    world: &mut World<S>,
    shelf: &mut H,
    dropping: &Dropping<'_>,
    id: Uuid,
    holding: Holding,
    identities: &mut N,
) -> Result<DropOutcome, Fault>
    ensures { MatchResult result (λ outcome. DropsHeld S.Store N.gives dropping.now id holding world.old world.new
        identities.old identities.new outcome (H.failures_of shelf.old) (H.failures_of shelf.new))
        (λ fault. world.new ≡ world.old) }
{
    if !may_drop(dropping, &holding) {
        return Ok(DropOutcome::Linked(holding.links));
    }
    if dropping.is_shown {
        return match plan_drop(alloc, dropping.at, id, &holding, identities) {
            Ok(requests) => Ok(DropOutcome::Planned(requests)),
            Err(fault) => Err(fault),
        };
    }
    match drop_held(alloc, world, shelf, dropping.at, id, &holding, identities) {
        Ok(dropped) => Ok(DropOutcome::Dropped(dropped)),
        Err(fault) => Err(fault),
    }
}

/// The same of an item that a live package holds.
fn drop_item<S: Alter + Drop, H: Shelf<S>, N: Identities>(
    alloc: Global,
    world: &mut World<S>,
    shelf: &mut H,
    dropping: &Dropping<'_>,
    id: Uuid,
    identities: &mut N,
) -> Result<DropOutcome, Fault>
    ensures { MatchResult result (λ outcome. DropsItem S.Store N.gives dropping.now id world.old world.new
        identities.old identities.new outcome (H.failures_of shelf.old) (H.failures_of shelf.new))
        (λ fault. IsUntouched S.Store world.old world.new) }
{
    match holding_of(alloc, world, id) {
        Ok(Some(holding)) => {
            match drop_so(alloc, world, shelf, dropping, id, holding, identities) {
                Ok(outcome) => Ok(outcome),
                Err(fault) => Err(fault),
            }
        }
        Ok(None) => Err(Fault::StoreFault),
        Err(fault) => Err(fault),
    }
}

/// Drops the item that a word names, or shows how: its links are ended, and then it is deleted,
/// each by a request of its own. One that has links stays, where these may not be ended.
///
/// # Errors
///
/// Want of memory or of new identities, or a store that failed. Nothing was carried out then.
pub fn drop_named<S: Alter + Drop, H: Shelf<S>, N: Identities>(
    alloc: Global,
    world: &mut World<S>,
    shelf: &mut H,
    dropping: &Dropping<'_>,
    identities: &mut N,
) -> Result<DropOutcome, Fault>
    ensures { MatchResult result (λ outcome. DropsNamed S.Store N.gives dropping.now world.old world.new
        identities.old identities.new outcome (H.failures_of shelf.old) (H.failures_of shelf.new))
        (λ fault. IsUntouched S.Store world.old world.new) }
{
    let found = match found_item(alloc, world, dropping.word) {
        Ok(found) => found,
        Err(fault) => return Err(fault),
    };
    match pick_one(dropping.word, &found) {
        Ok(id) => match drop_item(alloc, world, shelf, dropping, id, identities) {
            Ok(outcome) => Ok(outcome),
            Err(fault) => Err(fault),
        },
        Err(fault) => Ok(DropOutcome::Unnamed(fault, found)),
    }
}
