//! An item is dropped in a world.
ghost use Rattle.std.specs.Prelude.{◌≡◌, IfOk, OnErr, map};
ghost use Rattle.command_plans.specs.Drops.{drop_commands};
ghost use Rattle.command_plans.specs.Requests.{AreRequestsFor, GivesEach, id_of};
ghost use Rattle.command_drops.specs.Dropping.{IsDropped};

use crate::holding::Holding;
use command_plans::drops::drop_requests;
use command_plans::requests::{Identities, PlanFault};
use package_tables::fault::Fault;
use sheet_types::command::Request;
use sheet_types::receipt::Receipt;
use sheet_types::refusal::Refusal;
use sqlite::Alter;
use std::alloc::Global;
use store_shelf::shelf::Shelf;
use uuid::Uuid;
use world::world::World;

/// The requests that dropped an item, and a reply for each.
#[derive(Drop)]
pub struct Dropped {
    pub requests: Vec<Request>,
    pub replies: Vec<Result<Receipt, Refusal>>,
}

/// The requests that drop an item which is held so.
fn requests_for<N: Identities>(
    alloc: Global,
    at: &str,
    id: Uuid,
    holding: &Holding,
    identities: &mut N,
) -> Result<Vec<Request>, Fault>
    ensures asks { IfOk result (λ requests. AreRequestsFor at.now
        (drop_commands holding.now.holder id holding.now.links.items) requests.items) }
    ensures gives { IfOk result (λ requests. GivesEach N.gives (map id_of requests.items)
        identities.old identities.new) }
{
    let links = holding.links.as_slice();
    match drop_requests(alloc, at, holding.holder, id, links, identities) {
        Ok(requests) => Ok(requests),
        Err(PlanFault::OutOfMemory) => Err(Fault::OutOfMemory),
        Err(PlanFault::NoIdentity) => Err(Fault::StoreFault),
    }
}

/// Drops an item which is held so, at this moment: its links are ended, and then it is deleted,
/// each by a request of its own, under an identity of its own.
///
/// # Errors
///
/// Want of memory, or of new identities. Nothing was carried out then.
pub fn drop_held<S: Alter + Drop, H: Shelf<S>, N: Identities>(
    alloc: Global,
    world: &mut World<S>,
    shelf: &mut H,
    at: &str,
    id: Uuid,
    holding: &Holding,
    identities: &mut N,
) -> Result<Dropped, Fault>
    ensures dropped { IfOk result (λ dropped. IsDropped S.Store N.gives at.now id holding.now world.old world.new
        identities.old identities.new dropped (H.failures_of shelf.old) (H.failures_of shelf.new)) }
    ensures undone { OnErr result (world.new ≡ world.old) }
{
    let requests = requests_for(alloc, at, id, holding, identities)?;
    match world.run(alloc, requests.as_slice(), shelf) {
        Ok(replies) => Ok(Dropped { requests, replies }),
        Err(_) => Err(Fault::OutOfMemory),
    }
}
