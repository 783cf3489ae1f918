//! The request list.
ghost use Rattle.std.specs.Prelude.{◌≡◌, ◌++◌, map, if◌then◌else◌, [], IfOk};
ghost use Rattle.sheet_types.specs.Cut.{identities};
ghost use Rattle.field_changes.specs.Ids.{request_of};
ghost use Rattle.field_changes.specs.Asked.{unlinking, deleting, adding, linking, commands};

use crate::ids::Asker;
use sheet_types::command::{Command, Item, Relation, Request};
use sheet_types::error::OutOfMemory;
use std::alloc::Global;
use uuid::Uuid;

/// What requests do to a package, in four parts.
#[derive(Drop)]
pub struct Parts {
    pub unlinks: Vec<Relation>,
    pub deletes: Vec<Uuid>,
    pub adds: Vec<Item>,
    pub links: Vec<Relation>,
}

// The requests that end links, behind the others.
fn ask_unlinks(
    alloc: Global,
    asker: &Asker<'_>,
    requests: &mut Vec<Request>,
    links: &[Relation],
) -> Result<(), OutOfMemory>
    ensures { IfOk result (λ _. requests.new.items ≡ requests.old.items
        ++ map (request_of asker.now.package asker.now.ticket asker.now.at.now)
        (map (unlinking asker.now.package) links.now)) }
{
    for link in links {
        let request = asker.ask(
            alloc,
            Command::Unlink {
                package: asker.package,
                mapping: link.mapping,
                base: link.base,
                other: link.other,
            },
        )?;
        requests.push(request)?;
    }
    Ok(())
}

// The requests that delete items, behind the others.
fn ask_deletes(
    alloc: Global,
    asker: &Asker<'_>,
    requests: &mut Vec<Request>,
    ids: &[Uuid],
) -> Result<(), OutOfMemory>
    ensures { IfOk result (λ _. requests.new.items ≡ requests.old.items
        ++ map (request_of asker.now.package asker.now.ticket asker.now.at.now)
        (map (deleting asker.now.package) ids.now)) }
{
    for identity in ids {
        let request = asker.ask(
            alloc,
            Command::Delete {
                package: asker.package,
                identity: *identity,
            },
        )?;
        requests.push(request)?;
    }
    Ok(())
}

// The requests that add items, behind the others. No content is copied.
fn ask_adds(
    alloc: Global,
    asker: &Asker<'_>,
    requests: &mut Vec<Request>,
    items: Vec<Item>,
) -> Result<(), OutOfMemory>
    ensures { IfOk result (λ _. requests.new.items ≡ requests.old.items
        ++ map (request_of asker.now.package asker.now.ticket asker.now.at.now)
        (map (adding asker.now.package) items.items)) }
{
    for item in items {
        let Item { identity, content } = item;
        let request = asker.ask(
            alloc,
            Command::Add {
                package: asker.package,
                identity,
                content,
            },
        )?;
        requests.push(request)?;
    }
    Ok(())
}

// The requests that link items, behind the others.
fn ask_links(
    alloc: Global,
    asker: &Asker<'_>,
    requests: &mut Vec<Request>,
    links: &[Relation],
) -> Result<(), OutOfMemory>
    ensures { IfOk result (λ _. requests.new.items ≡ requests.old.items
        ++ map (request_of asker.now.package asker.now.ticket asker.now.at.now)
        (map (linking asker.now.package) links.now)) }
{
    for link in links {
        let request = asker.ask(
            alloc,
            Command::Link {
                package: asker.package,
                mapping: link.mapping,
                base: link.base,
                other: link.other,
            },
        )?;
        requests.push(request)?;
    }
    Ok(())
}

/// The requests for the four parts, in their order.
///
/// # Errors
///
/// Want of memory.
pub fn requests(alloc: Global, asker: &Asker<'_>, parts: Parts) -> Result<Vec<Request>, OutOfMemory>
    ensures { IfOk result (λ requests. requests.items ≡ map (request_of asker.now.package asker.now.ticket
        asker.now.at.now) (commands asker.now.package parts)) }
{
    let Parts {
        unlinks,
        deletes,
        adds,
        links,
    } = parts;
    let mut requests = Vec::new(alloc);
    ask_unlinks(alloc, asker, &mut requests, unlinks.as_slice())?;
    ask_deletes(alloc, asker, &mut requests, deletes.as_slice())?;
    ask_adds(alloc, asker, &mut requests, adds)?;
    ask_links(alloc, asker, &mut requests, links.as_slice())?;
    Ok(requests)
}
