//! The requests that make a package hold what a file holds.
ghost use Rattle.std.specs.Prelude.{◌≡◌, [], if◌then◌else◌, IfOk, IfErr};
ghost use Rattle.sheet_types.specs.Cut.{identities};
ghost use Rattle.field_changes.specs.Asked.{ArePartsFor, AreChanges, IsWhyUnasked};
ghost use Rattle.field_changes.specs.Parts.{beyond, gone};
ghost use Rattle.field_changes.specs.declared.changes.Unasked.TheVariants as unasked;

use crate::asking::{Parts, requests};
use crate::ends::links_of;
use crate::held::{HeldItem, HeldLink};
use crate::ids::Asker;
use crate::naming::{Named, names};
use crate::parts::{beyond, gone_items, items_in_order, links_in_order, new_items};
use sheet_types::command::{Item, Relation, Request};
use sheet_types::error::OutOfMemory;
use std::alloc::Global;
use thiserror::Error;
use uuid::Uuid;

/// Why no requests were made of what a package could hold.
#[derive(Clone, Copy, Debug, PartialEq, Eq, Error)]
pub enum Unasked {
    /// An end of a link is no item of the file, or a link is there twice.
    #[error("list")]
    List,
    /// Two new items were given one identity, which SHA-256 makes as good as impossible.
    #[error("identity")]
    Identity,
    /// A growth was refused.
    #[error("out of memory")]
    Memory,
}

impl From<OutOfMemory> for Unasked {
    ghost from_gives = { λ want made. made ≡ unasked.Memory };

    fn from(_want: OutOfMemory) -> Unasked {
        Unasked::Memory
    }
}

/// What a package holds at a ticket, in the register's order.
#[derive(Clone, Copy)]
pub struct Holdings<'a> {
    pub items: &'a [Item],
    pub links: &'a [Relation],
}

// The links that the file has not; none where nothing is taken away.
fn unlinks(
    alloc: Global,
    more: bool,
    file_links: &[Relation],
    links: &[Relation],
) -> Result<Vec<Relation>, OutOfMemory>
    ensures { IfOk result (λ left. left.items ≡ (if more then [] else beyond file_links.now links.now)) }
{
    if more {
        return Ok(Vec::new(alloc));
    }
    beyond(alloc, file_links, links)
}

// The items by which nothing in the file is called; none where nothing is taken away.
fn deletes(
    alloc: Global,
    more: bool,
    names: &[Named],
    items: &[Item],
) -> Result<Vec<Uuid>, OutOfMemory>
    ensures { IfOk result (λ ids. ids.items ≡ (if more then [] else identities (gone names.now items.now))) }
{
    if more {
        return Ok(Vec::new(alloc));
    }
    gone_items(alloc, names, items)
}

/// The four parts of the requests, for a package that holds this and a file of these items and
/// links. With `more` nothing is taken away.
///
/// # Errors
///
/// `List` where an end of a link is no item of the file or a link is there twice, `Identity` where
/// two new items have one identity, and want of memory.
pub fn parts_for(
    alloc: Global,
    asker: &Asker<'_>,
    holdings: &Holdings<'_>,
    more: bool,
    file: Vec<HeldItem<'_>>,
    held: &[HeldLink],
) -> Result<Parts, Unasked>
    ensures parts { IfOk result (λ parts. ArePartsFor asker.now.package asker.now.ticket holdings.now.items.now
        holdings.now.links.now more file.entry.items held.now parts) }
    ensures why { IfErr result (IsWhyUnasked asker.now.package asker.now.ticket holdings.now.items.now
        holdings.now.links.now file.entry.items held.now) }
{
    let names = names(
        alloc,
        asker.package,
        asker.ticket,
        holdings.items,
        file.as_slice(),
    )?;
    let found = links_of(alloc, names.as_slice(), held)?;
    let Some(file_links) = found else {
        return Err(Unasked::List);
    };
    let unlinks = unlinks(alloc, more, file_links.as_slice(), holdings.links)?;
    let deletes = deletes(alloc, more, names.as_slice(), holdings.items)?;
    let unsorted = new_items(alloc, names.as_slice(), file)?;
    let Ok(adds) = items_in_order(unsorted) else {
        return Err(Unasked::Identity);
    };
    let left = beyond(alloc, holdings.links, file_links.as_slice())?;
    let Ok(links) = links_in_order(left) else {
        return Err(Unasked::List);
    };
    Ok(Parts {
        unlinks,
        deletes,
        adds,
        links,
    })
}

/// The requests that make a package hold what a file holds: of the package and the ticket that
/// `asker` names, at its moment.
///
/// Whether an identity was used in the world, or a request is kept there, is left to the world,
/// which refuses such a request.
///
/// # Errors
///
/// As `parts_for`.
pub fn changes(
    alloc: Global,
    asker: &Asker<'_>,
    holdings: &Holdings<'_>,
    more: bool,
    file: Vec<HeldItem<'_>>,
    held: &[HeldLink],
) -> Result<Vec<Request>, Unasked>
    ensures made { IfOk result (λ requests. AreChanges asker.now.package asker.now.ticket asker.now.at.now
        holdings.now.items.now holdings.now.links.now more file.entry.items held.now requests.items) }
    ensures why { IfErr result (IsWhyUnasked asker.now.package asker.now.ticket holdings.now.items.now
        holdings.now.links.now file.entry.items held.now) }
{
    let parts = parts_for(alloc, asker, holdings, more, file, held)?;
    Ok(requests(alloc, asker, parts)?)
}
