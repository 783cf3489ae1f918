//! The live packages of a world and their items, as words can name them.
ghost use Rattle.std.specs.Prelude.{◌≡◌, IfOk, map, flat_map};
ghost use Rattle.sheet_types.specs.Answers.{package_sights};
ghost use Rattle.sheet_types.specs.World.{World as ModelWorld};
ghost use Rattle.command_verbs.specs.Names.{sight};
ghost use Rattle.world.specs.Worlds.{IsRead, StandsFor, TellsOf};
ghost use Rattle.command_requests.specs.Listing.{IsUntouched, entry_of, item_entry, items_under};

use command_verbs::items::ItemEntry;
use command_verbs::names::PackageEntry;
use package_tables::fault::Fault;
use sheet_types::command::Item;
use sqlite::Alter;
use std::alloc::Global;
use uuid::Uuid;
use world::reading::PackageSight;
use world::world::World;

/// What is listed of one package.
fn entry_of(sight: &PackageSight) -> PackageEntry
    ensures { result ≡ entry_of sight.now }
{
    PackageEntry {
        uuid: sight.uuid,
        parent: sight.parent,
        depth: sight.depth,
        ticket: sight.ticket,
    }
}

/// What is listed of some.
fn entries_of(alloc: Global, sights: &[PackageSight]) -> Result<Vec<PackageEntry>, Fault>
    ensures { IfOk result (λ entries. entries.items ≡ map entry_of sights.now) }
{
    Ok(sights.iter().map(|sight| entry_of(sight)).collect(alloc)?)
}

/// The live packages by UUID, as words can name them.
///
/// # Errors
///
/// Want of memory.
pub fn packages_of<S: Alter + Drop>(
    alloc: Global,
    world: &World<S>,
) -> Result<Vec<PackageEntry>, Fault>
    ensures { IfOk result (λ entries. (w : ModelWorld) → StandsFor S.Store world.now w
        → map sight entries.items ≡ package_sights w) }
{
    let sights = world.packages(alloc)?;
    entries_of(alloc, sights.as_slice())
}

/// What is listed of an item that a package holds.
fn item_entry(holder: Uuid, item: &Item) -> ItemEntry
    ensures { result ≡ item_entry holder item.now }
{
    ItemEntry {
        holder,
        identity: item.identity,
        kind: item.content.kind(),
    }
}

/// What is listed of the items of a package.
fn items_of(alloc: Global, holder: Uuid, items: &[Item]) -> Result<Vec<ItemEntry>, Fault>
    ensures { IfOk result (λ entries. entries.items ≡ map (item_entry holder) items.now) }
{
    let mut entries = Vec::new(alloc);
    for item in items {
        entries.push(item_entry(holder, item))?;
    }
    Ok(entries)
}

/// The same of a package of a world.
fn items_in<S: Alter + Drop>(
    alloc: Global,
    world: &mut World<S>,
    holder: Uuid,
) -> Result<Vec<ItemEntry>, Fault>
    ensures told { TellsOf S.Store (λ w entries. entries.items ≡ items_under w holder) world.old world.new result }
    ensures read { IsRead S.Store world.old world.new }
{
    let Some((items, _links)) = world.holdings(alloc, holder)? else {
        return Err(Fault::StoreFault);
    };
    items_of(alloc, holder, items.as_slice())
}

/// The same of packages that the world listed, in turn.
pub(crate) fn items_among<S: Alter + Drop>(
    alloc: Global,
    world: &mut World<S>,
    packages: &[PackageEntry],
) -> Result<Vec<ItemEntry>, Fault>
    ensures told { TellsOf S.Store (λ w entries. entries.items ≡ flat_map (λ p. items_under w p.uuid) packages.now)
        world.old world.new result }
    ensures read { IsUntouched S.Store world.old world.new }
{
    let mut entries = Vec::new(alloc);
    for entry in packages {
        let more = items_in(alloc, world, entry.uuid)?;
        entries.extend_from_slice(&more)?;
    }
    Ok(entries)
}
