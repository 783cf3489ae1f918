//! The identities that a list of requests gives: those of the requests, and those of the items that they add.
ghost use Rattle.std.specs.Prelude.{◌≡◌, ◌++◌, map, is_some, IfOk, IfSome};
ghost use Rattle.field_home_laws.specs.Free.{ids_added};
ghost use Rattle.field_run_laws.specs.Lists.{has_twice};
ghost use Rattle.field_run_laws.specs.Ready.{added};
ghost use Rattle.command_field.specs.Freedom.{StandsTwice};

use package_tables::fault::Fault;
use sheet_types::command::{Command, Request};
use std::alloc::Global;
use std::collections::BTreeSet;
use uuid::Uuid;

/// The identities of requests.
///
/// # Errors
///
/// Want of memory.
pub(crate) fn request_ids(alloc: Global, requests: &[Request]) -> Result<Vec<Uuid>, Fault>
    ensures { IfOk result (λ ids. ids.items ≡ map (λ q. q.id) requests.now) }
{
    Ok(requests.iter().map(|request| request.id).collect(alloc)?)
}

/// Puts the identity that a request adds behind others.
fn push_added(ids: &mut Vec<Uuid>, request: &Request) -> Result<(), Fault>
    ensures { IfOk result (λ _. ids.new.items ≡ ids.old.items ++ added request.now.command) }
{
    if let Command::Add { identity, .. } = &request.command {
        ids.push(*identity)?;
    }
    Ok(())
}

/// The identities of the items that requests add.
///
/// # Errors
///
/// Want of memory.
pub(crate) fn added_ids(alloc: Global, requests: &[Request]) -> Result<Vec<Uuid>, Fault>
    ensures { IfOk result (λ ids. ids.items ≡ ids_added requests.now) }
{
    let mut ids = Vec::new(alloc);
    for request in requests {
        push_added(&mut ids, request)?;
    }
    Ok(ids)
}

/// The first of these that stands behind one that is the same.
///
/// # Errors
///
/// Want of memory.
pub(crate) fn first_twice(alloc: Global, ids: &[Uuid]) -> Result<Option<Uuid>, Fault>
    ensures twice { IfOk result (λ found. is_some found ≡ has_twice ids.now) }
    ensures there { IfOk result (λ found. IfSome found (StandsTwice ids.now)) }
{
    let mut seen = BTreeSet::new(alloc);
    for id in ids {
        if !seen.insert(*id)? {
            return Ok(Some(*id));
        }
    }
    Ok(None)
}
