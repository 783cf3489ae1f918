//! The tiles of a tree come into the package that a word names.
ghost use Rattle.std.specs.Prelude.{◌≡◌, MatchResult};
ghost use Rattle.command_requests.specs.Listing.{IsUntouched};
ghost use Rattle.command_naming.specs.Trees.{AddsBeside, AddsNamed, target_of};

use crate::naming::pick_one;
use command_names::searching::Found;
use command_plans::requests::Identities;
use command_searches::searches::found_package;
use command_trees::adding::{AddFault, Counts, Sheets, Target, add_files};
use command_verbs::areas::Place;
use command_verbs::names::NameFault;
use package_tables::fault::Fault;
use sqlite::Alter;
use std::alloc::Global;
use store_shelf::shelf::Shelf;
use uuid::Uuid;
use world::world::World;

/// The words for a tree: the package, the moment, and whether rows run upwards.
#[derive(Clone, Copy)]
pub struct TreeWords<'t> {
    pub package: &'t str,
    pub at: &'t str,
    pub is_upward: bool,
}

/// What came of it.
#[derive(Drop)]
pub enum TreeOutcome {
    /// The word names no package: this was found for it.
    Unnamed(NameFault, Found),
    /// So many were added and passed over; all of them, or those before a fault.
    Added(Counts, Result<(), AddFault>),
}

/// Into which package the tiles come, and how.
fn target_of<'t>(words: &TreeWords<'t>, package: Uuid) -> Target<'t>
    ensures { result ≡ target_of words.now «package» }
{
    Target {
        package,
        at: words.at,
        is_upward: words.is_upward,
    }
}

/// Adds the tiles of files to a live package.
fn add_to<S: Alter + Drop, H: Shelf<S>, N: Identities, F: Sheets>(
    alloc: Global,
    world: &mut World<S>,
    shelf: &mut H,
    target: &Target<'_>,
    files: &[Place],
    sheets: &mut F,
    identities: &mut N,
) -> Result<(Counts, Result<(), AddFault>), Fault>
    ensures { MatchResult result (λ it. AddsBeside S.Store N.gives F.gives target.now files.now
        (record { world = world.old; ids = identities.old; sheets = sheets.old })
        (record { world = world.new; ids = identities.new; sheets = sheets.new }) it.0 it.1)
        (λ fault. IsUntouched S.Store world.old world.new) }
{
    match world.holdings(alloc, target.package) {
        Ok(Some((items, _links))) => {
            let items = items.as_slice();
            let (counts, outcome) = add_files(
                alloc, world, shelf, target, items, files, sheets, identities,
            );
            Ok((counts, outcome))
        }
        Ok(None) => Err(Fault::StoreFault),
        Err(fault) => Err(fault),
    }
}

/// Adds the tiles of files, in turn, to the live package that a word names. Those that are there
/// with the same content are passed over.
///
/// # Errors
///
/// Want of memory, or a store that failed, before anything was added.
pub fn add_named<S: Alter + Drop, H: Shelf<S>, N: Identities, F: Sheets>(
    alloc: Global,
    world: &mut World<S>,
    shelf: &mut H,
    words: &TreeWords<'_>,
    files: &[Place],
    sheets: &mut F,
    identities: &mut N,
) -> Result<TreeOutcome, Fault>
    ensures { MatchResult result (AddsNamed S.Store N.gives F.gives words.now files.now
        (record { world = world.old; ids = identities.old; sheets = sheets.old })
        (record { world = world.new; ids = identities.new; sheets = sheets.new }))
        (λ fault. IsUntouched S.Store world.old world.new) }
{
    let found = match found_package(alloc, world, words.package) {
        Ok(found) => found,
        Err(fault) => return Err(fault),
    };
    match pick_one(words.package, &found) {
        Ok(package) => {
            let target = target_of(words, package);
            match add_to(alloc, world, shelf, &target, files, sheets, identities) {
                Ok((counts, outcome)) => Ok(TreeOutcome::Added(counts, outcome)),
                Err(fault) => Err(fault),
            }
        }
        Err(fault) => Ok(TreeOutcome::Unnamed(fault, found)),
    }
}
