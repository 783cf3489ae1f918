//! The requests that drop an item.
ghost use Rattle.std.specs.Prelude.{◌≡◌, IfOk, map};
ghost use Rattle.command_plans.specs.Drops.{drop_commands, has_end, links_of, unlink};
ghost use Rattle.command_plans.specs.Requests.{AreRequestsFor, GivesEach, id_of};

use crate::requests::{Identities, PlanFault, request_from};
use sheet_types::command::{Command, Relation, Request};
use sheet_types::error::OutOfMemory;
use std::alloc::Global;
use uuid::Uuid;

/// Whether an item is an end of a link.
fn has_end(id: Uuid, link: &Relation) -> bool
    ensures { result ≡ has_end id link.now }
{
    link.base == id || link.other == id
}

/// The links of an item, among those of its package.
///
/// # Errors
///
/// Want of memory.
pub fn links_of(alloc: Global, links: &[Relation], id: Uuid) -> Result<Vec<Relation>, OutOfMemory>
    ensures { IfOk result (λ found. found.items ≡ links_of id links.now) }
{
    let mut found = Vec::new(alloc);
    for link in links {
        if has_end(id, link) {
            found.push(*link)?;
        }
    }
    Ok(found)
}

/// The end of a link.
fn unlink(holder: Uuid, link: &Relation) -> Command
    ensures { result ≡ unlink holder link.now }
{
    Command::Unlink {
        package: holder,
        mapping: link.mapping,
        base: link.base,
        other: link.other,
    }
}

/// The requests that end links.
fn unlink_requests<N: Identities>(
    alloc: Global,
    at: &str,
    holder: Uuid,
    links: &[Relation],
    identities: &mut N,
) -> Result<Vec<Request>, PlanFault>
    ensures asks { IfOk result (λ requests. AreRequestsFor at.now (map (unlink holder) links.now) requests.items) }
    ensures gives { IfOk result (λ requests. GivesEach N.gives (map id_of requests.items)
        identities.old identities.new) }
{
    let mut requests = Vec::new(alloc);
    for link in links {
        let request = request_from(alloc, at, unlink(holder, link), identities)?;
        requests.push(request)?;
    }
    Ok(requests)
}

/// The requests that drop an item which has these links, all at this moment: each link is ended,
/// and then the item is deleted. Each request has the identity of a call of its own.
///
/// # Errors
///
/// Want of memory, or of new identities.
pub fn drop_requests<N: Identities>(
    alloc: Global,
    at: &str,
    holder: Uuid,
    id: Uuid,
    links: &[Relation],
    identities: &mut N,
) -> Result<Vec<Request>, PlanFault>
    ensures asks { IfOk result (λ requests. AreRequestsFor at.now (drop_commands holder id links.now) requests.items) }
    ensures gives { IfOk result (λ requests. GivesEach N.gives (map id_of requests.items)
        identities.old identities.new) }
{
    let mut requests = unlink_requests(alloc, at, holder, links, identities)?;
    let command = Command::Delete {
        package: holder,
        identity: id,
    };
    let request = request_from(alloc, at, command, identities)?;
    requests.push(request)?;
    Ok(requests)
}
