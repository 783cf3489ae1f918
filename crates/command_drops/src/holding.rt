//! Which package holds an item, and the links that it has there.
ghost use Rattle.std.specs.Prelude.{◌≡◌, IfOk, option_map};
ghost use Rattle.world.specs.Worlds.{IsRead, TellsOf};
ghost use Rattle.command_requests.specs.Listing.{IsUntouched};
ghost use Rattle.command_drops.specs.Holding.{AreLinksIn, AreLinksOf, IsHeldAmong, IsHeldIn, holds};

use command_plans::drops::links_of;
use command_requests::listing::packages_of;
use command_verbs::names::PackageEntry;
use package_tables::fault::Fault;
use sheet_types::command::{Item, Relation};
use sqlite::Alter;
use std::alloc::Global;
use uuid::Uuid;
use world::world::World;

/// Where an item stands, and the links that it has there.
#[derive(Drop)]
pub struct Holding {
    pub holder: Uuid,
    pub links: Vec<Relation>,
}

/// Whether an item is among these.
fn holds(items: &[Item], id: Uuid) -> bool
    ensures { result ≡ holds items.now id }
{
    items.iter().any(|item| item.identity == id)
}

/// The links of an item among those of a package, if the package holds it.
fn links_among(
    alloc: Global,
    items: &[Item],
    links: &[Relation],
    id: Uuid,
) -> Result<Option<Vec<Relation>>, Fault>
    ensures { IfOk result (λ found. AreLinksOf items.now links.now id (option_map (λ v. v.items) found)) }
{
    if !holds(items, id) {
        return Ok(None);
    }
    match links_of(alloc, links, id) {
        Ok(found) => Ok(Some(found)),
        Err(_) => Err(Fault::OutOfMemory),
    }
}

/// The same of a package of a world.
fn links_in<S: Alter + Drop>(
    alloc: Global,
    world: &mut World<S>,
    holder: Uuid,
    id: Uuid,
) -> Result<Option<Vec<Relation>>, Fault>
    ensures told { TellsOf S.Store (λ w found. AreLinksIn w holder id (option_map (λ v. v.items) found)) world.old
        world.new result }
    ensures read { IsRead S.Store world.old world.new }
{
    let Some((items, links)) = world.holdings(alloc, holder)? else {
        return Err(Fault::StoreFault);
    };
    links_among(alloc, items.as_slice(), links.as_slice(), id)
}

/// The first of these packages that holds an item, and its links there.
fn held_among<S: Alter + Drop>(
    alloc: Global,
    world: &mut World<S>,
    packages: &[PackageEntry],
    id: Uuid,
) -> Result<Option<Holding>, Fault>
    ensures told { TellsOf S.Store (λ w found. IsHeldAmong w packages.now id found) world.old world.new result }
    ensures read { IsUntouched S.Store world.old world.new }
{
    for entry in packages {
        if let Some(links) = links_in(alloc, world, entry.uuid, id)? {
            return Ok(Some(Holding {
                holder: entry.uuid,
                links,
            }));
        }
    }
    Ok(None)
}

/// Which live package holds an item, and its links there; `None` where none does. The world is only read.
///
/// # Errors
///
/// Want of memory, or a store that failed. The world has not failed by that.
pub fn holding_of<S: Alter + Drop>(
    alloc: Global,
    world: &mut World<S>,
    id: Uuid,
) -> Result<Option<Holding>, Fault>
    ensures told { TellsOf S.Store (λ w found. IsHeldIn w id found) world.old world.new result }
    ensures read { IsUntouched S.Store world.old world.new }
{
    let packages = packages_of(alloc, world)?;
    let found = held_among(alloc, world, packages.as_slice(), id)?;
    Ok(found)
}
