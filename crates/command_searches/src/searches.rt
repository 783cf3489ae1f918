//! A search among the live packages of a world, and among the items that they hold.
ghost use Rattle.std.specs.Prelude.{◌++◌, ℕ, IfOk, List, flat_map};
ghost use Rattle.sheet_types.specs.World.{World as ModelWorld};
ghost use Rattle.world.specs.Worlds.{IsRead, StandsFor, TellsOf};
ghost use Rattle.command_names.specs.Searching.{IsFound};
ghost use Rattle.command_requests.specs.Listing.{IsUntouched};
ghost use Rattle.command_searches.specs.Searches.{IsItemFound, IsPackageFound, identities_under};

use command_names::searching::{Found, found_among, found_named, nothing};
use command_requests::listing::packages_of;
use command_verbs::names::PackageEntry;
use package_tables::fault::Fault;
use sqlite::Alter;
use std::alloc::Global;
use uuid::Uuid;
use world::world::World;

/// The live package that a word names. Nothing is looked up in a store.
///
/// # Errors
///
/// Want of memory.
pub fn found_package<S: Alter + Drop>(
    alloc: Global,
    world: &World<S>,
    word: &str,
) -> Result<Found, Fault>
    ensures { IfOk result (λ found. (w : ModelWorld) → StandsFor S.Store world.now w
        → IsPackageFound w word.now found) }
{
    let packages = packages_of(alloc, world)?;
    Ok(found_named(word, nothing(), packages.as_slice()))
}

/// What is found with the items of one more package of a world.
fn found_in<S: Alter + Drop>(
    alloc: Global,
    world: &mut World<S>,
    holder: Uuid,
    word: &str,
    found: Found,
) -> Result<Found, Fault>
    ensures told { TellsOf S.Store (λ w next. (before : List (List ℕ)) → IsFound word.now before found
        → IsFound word.now (before ++ identities_under w holder) next) world.old world.new result }
    ensures read { IsRead S.Store world.old world.new }
{
    let Some((items, _links)) = world.holdings(alloc, holder)? else {
        return Err(Fault::StoreFault);
    };
    Ok(found_among(word, found, items.as_slice()))
}

/// What is found among the items of packages that the world listed, in turn.
fn found_in_each<S: Alter + Drop>(
    alloc: Global,
    world: &mut World<S>,
    packages: &[PackageEntry],
    word: &str,
) -> Result<Found, Fault>
    ensures told { TellsOf S.Store (λ w found. IsFound word.now
        (flat_map (λ p. identities_under w p.uuid) packages.now) found) world.old world.new result }
    ensures read { IsUntouched S.Store world.old world.new }
{
    let mut found = nothing();
    for entry in packages {
        found = found_in(alloc, world, entry.uuid, word, found)?;
    }
    Ok(found)
}

/// The item of a live package that a word names. What one package holds is in memory at a time, and
/// of it nothing is kept.
///
/// # Errors
///
/// Want of memory, or a store that failed. The world has not failed by that.
pub fn found_item<S: Alter + Drop>(
    alloc: Global,
    world: &mut World<S>,
    word: &str,
) -> Result<Found, Fault>
    ensures told { TellsOf S.Store (λ w found. IsItemFound w word.now found) world.old world.new result }
    ensures read { IsUntouched S.Store world.old world.new }
{
    let packages = packages_of(alloc, world)?;
    let found = found_in_each(alloc, world, packages.as_slice(), word)?;
    Ok(found)
}
