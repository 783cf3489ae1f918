//! One item of a live package.
ghost use Rattle.std.specs.Prelude.{◌≡◌, Some};
ghost use Rattle.sheet_types.specs.World.{holdings};
ghost use Rattle.manifest_csv.specs.ByItems.{IsItemOf};
ghost use Rattle.view_world.specs.Looks.{LeavesOpen};
ghost use Rattle.world.specs.Worlds.{IsRead, TellsOf};

use manifest_csv::questions::ItemOf;
use package_tables::fault::Fault;
use sheet_types::command::Item;
use sqlite::Alter;
use std::alloc::Global;
use uuid::Uuid;
use world::world::World;

/// The item of an identity in a live package; a fault where there is none.
///
/// # Errors
///
/// Want of memory, a store that failed, a package that is not live, or one without such an item. The world has not
/// failed by that.
pub fn item_in<S: Alter + Drop>(
    alloc: Global,
    world: &mut World<S>,
    package: Uuid,
    identity: Uuid,
) -> Result<Item, Fault>
    ensures told { TellsOf S.Store (λ w item. IsItemOf (holdings w «package») identity (Some item))
        world.old world.new result }
    ensures read { IsRead S.Store world.old world.new }
    ensures opens { LeavesOpen S.Store world.old world.new result }
{
    match world.ask(alloc, package, &ItemOf { identity })? {
        Some(Some(item)) => Ok(item),
        _ => Err(Fault::StoreFault),
    }
}
