//! The list of live packages.
ghost use Rattle.std.specs.Prelude.{◌≡◌, IfOk, map};
ghost use Rattle.sheet_types.specs.World.{World as ModelWorld};
ghost use Rattle.world.specs.Reading.{sight_of};
ghost use Rattle.world.specs.Worlds.{StandsFor};
ghost use Rattle.desk_replies.specs.Bodies.{all_listed};
ghost use Rattle.desk_replies.specs.Responses.{outgoing_bytes, packages_response};
ghost use Rattle.desk_http.specs.Listing.{listed_in};
ghost use Rattle.desk_http.specs.Served.{Tells};
ghost use Rattle.desk_calls.specs.declared.calls.Call.TheVariants as call;

use desk_replies::fixed::Fixed;
use desk_replies::packages::{Listed, list_response};
use desk_replies::replies::Outgoing;
use sheet_types::error::OutOfMemory;
use sheet_types::receipt::Sums;
use sqlite::Alter;
use std::alloc::Global;
use world::reading::PackageSight;
use world::world::World;

const NO_SUMS: Sums = Sums {
    tiles: 0,
    media: 0,
    rows: 0,
    links: 0,
    bytes: 0,
};

/// What is told of one package.
fn listed_of<S: Alter + Drop>(world: &World<S>, sight: &PackageSight) -> Listed
    ensures { (w : ModelWorld) → StandsFor S.Store world.now w → result ≡ listed_in w (sight_of sight.now) }
{
    // a package that is listed is live, and has its sums
    let sums = match world.sums(sight.uuid) {
        Some(sums) => sums,
        None => NO_SUMS,
    };
    Listed {
        uuid: sight.uuid,
        parent: sight.parent,
        depth: sight.depth,
        ticket: sight.ticket,
        sums,
    }
}

/// What is told of each of these packages.
fn each_listed<S: Alter + Drop>(
    alloc: Global,
    world: &World<S>,
    sights: &[PackageSight],
) -> Result<Vec<Listed>, OutOfMemory>
    ensures { IfOk result (λ list. (w : ModelWorld) → StandsFor S.Store world.now w
        → list.items ≡ map (listed_in w) (map sight_of sights.now)) }
{
    let mut list = Vec::new(alloc);
    'sights: for sight in sights {
        list.push(listed_of(world, sight))?;
    }
    Ok(list)
}

/// What is told of each live package, by UUID.
fn all_listed<S: Alter + Drop>(alloc: Global, world: &World<S>) -> Result<Vec<Listed>, OutOfMemory>
    ensures { IfOk result (λ list. (w : ModelWorld) → StandsFor S.Store world.now w
        → list.items ≡ all_listed w) }
{
    let Ok(sights) = world.packages(alloc) else {
        return Err(OutOfMemory);
    };
    let list = each_listed(alloc, world, sights.as_slice())?;
    Ok(list)
}

/// The response with the list of packages.
fn packages_made<S: Alter + Drop>(alloc: Global, world: &World<S>) -> Result<Vec<u8>, OutOfMemory>
    ensures { IfOk result (λ bytes. (w : ModelWorld) → StandsFor S.Store world.now w
        → bytes.items ≡ packages_response w) }
{
    let list = all_listed(alloc, world)?;
    let bytes = list_response(alloc, list.as_slice())?;
    Ok(bytes)
}

/// What goes out for the list of packages.
pub fn packages_call<S: Alter + Drop>(alloc: Global, world: &World<S>) -> Outgoing
    ensures { Tells S.Store call.Packages world.now (outgoing_bytes result) world.now }
{
    match packages_made(alloc, world) {
        Ok(bytes) => Outgoing::Made(bytes),
        Err(_) => Outgoing::Fixed(Fixed::OutOfMemory),
    }
}
