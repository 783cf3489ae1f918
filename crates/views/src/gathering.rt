//! What is drawn of the packages of a world.
ghost use Rattle.std.specs.List.{AllZip};
ghost use Rattle.std.specs.Prelude.{map};
ghost use Rattle.view_map.specs.Worlds.{AreHolders, IsHolder};
ghost use Rattle.view_world.specs.Looks.{LeavesOpen};
ghost use Rattle.world.specs.Reading.{sight_of};
ghost use Rattle.world.specs.Worlds.{IsRead, TellsOf};
ghost use Rattle.views.specs.Printed.{IsUntouched};

use package_tables::fault::Fault;
use sheet_types::command::Item;
use sqlite::Alter;
use std::alloc::Global;
use std::slice::from_ref;
use uuid::Uuid;
use view_items::parts::{Part, parts_in};
use view_map::holders::{Holder, Place};
use view_map::places::places_of;
use world::reading::PackageSight;
use world::world::World;

/// The place of a tile of this zoom.
#[derive(Clone, Copy)]
struct PlaceAt {
    zoom: i64,
}

impl Part<Place> for PlaceAt {
    ghost use Rattle.std.specs.Prelude.{[], ◌∷◌};
    ghost use Rattle.view_map.specs.Worlds.{places_of};

    ghost parts = { λ part item. places_of part.zoom (item ∷ []) };

    fn put(&self, alloc: Global, item: &Item, kept: &mut Vec<Place>) -> Result<(), Fault> {
        let mut places: Vec<Place> = places_of(alloc, self.zoom, from_ref(item))?;
        kept.append(&mut places)?;
        Ok(())
    }
}

/// What is drawn of a package that the world listed.
fn holder_of<S: Alter + Drop>(
    alloc: Global,
    world: &mut World<S>,
    zoom: i64,
    sight: PackageSight,
) -> Result<Holder, Fault>
    ensures told { TellsOf S.Store (λ w holder. IsHolder w zoom (sight_of sight) holder) world.old world.new result }
    ensures read { IsRead S.Store world.old world.new }
    ensures opens { LeavesOpen S.Store world.old world.new result }
{
    let uuid: Uuid = sight.uuid;
    let (places, _links) = parts_in(alloc, world, uuid, &PlaceAt { zoom })?;
    Ok(Holder {
        uuid,
        depth: sight.depth,
        places,
    })
}

/// The same of packages that the world listed, in turn.
fn holders_among<S: Alter + Drop>(
    alloc: Global,
    world: &mut World<S>,
    zoom: i64,
    sights: &[PackageSight],
) -> Result<Vec<Holder>, Fault>
    ensures told { TellsOf S.Store (λ w holders. AllZip (IsHolder w zoom) (map sight_of sights.now) holders.items)
        world.old world.new result }
    ensures read { IsUntouched S.Store world.old world.new }
    ensures opens { LeavesOpen S.Store world.old world.new result }
{
    let mut holders = Vec::new(alloc);
    for sight in sights {
        let holder = holder_of(alloc, world, zoom, *sight)?;
        holders.push(holder)?;
    }
    Ok(holders)
}

/// What is drawn of each live package, by UUID: its tiles of this zoom.
///
/// # Errors
///
/// Want of memory, or a store that failed. The world has not failed by that.
pub fn holders_of<S: Alter + Drop>(
    alloc: Global,
    world: &mut World<S>,
    zoom: i64,
) -> Result<Vec<Holder>, Fault>
    ensures told { TellsOf S.Store (λ w holders. AreHolders w zoom holders.items) world.old world.new result }
    ensures read { IsUntouched S.Store world.old world.new }
    ensures opens { LeavesOpen S.Store world.old world.new result }
{
    let sights = world.packages(alloc)?;
    holders_among(alloc, world, zoom, sights.as_slice())
}
