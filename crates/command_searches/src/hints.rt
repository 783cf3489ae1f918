//! What comes nearest to a word of a verb that names none.
ghost use Rattle.std.specs.Prelude.{◌≡◌, IfOk};
ghost use Rattle.sheet_types.specs.World.{World as ModelWorld};
ghost use Rattle.world.specs.Worlds.{StandsFor, TellsOf};
ghost use Rattle.command_names.specs.declared.hints.Whose.TheVariants as whose;
ghost use Rattle.command_requests.specs.Listing.{IsUntouched};
ghost use Rattle.command_searches.specs.Hints.{IsEitherHint, IsHintOf, IsVerbHint, has_hint, hint_of};

use crate::searches::{found_item, found_package};
use command_names::hints::{Hint, Whose};
use command_names::searching::Found;
use command_verbs::verbs::Verb;
use package_tables::fault::Fault;
use sqlite::Alter;
use std::alloc::Global;
use world::world::World;

/// What is told of a word by what was found.
pub fn hint_of<'t>(whose: Whose, word: &'t str, found: Found) -> Option<Hint<'t>>
    ensures { result ≡ hint_of whose word.entry found }
{
    match found {
        Found::Nearest(Some(nearest)) => Some(Hint {
            whose,
            word,
            nearest,
        }),
        Found::Nearest(None) | Found::One(_) | Found::Two(_, _) => None,
    }
}

/// The live package that comes nearest to a word which names none.
///
/// # Errors
///
/// Want of memory.
pub fn package_hint<'t, S: Alter + Drop>(
    alloc: Global,
    world: &World<S>,
    word: &'t str,
) -> Result<Option<Hint<'t>>, Fault>
    ensures { IfOk result (λ hint. (w : ModelWorld) → StandsFor S.Store world.now w
        → IsHintOf whose.Package w word.entry hint) }
{
    let found = found_package(alloc, world, word)?;
    Ok(hint_of(Whose::Package, word, found))
}

/// The item that comes nearest to a word which names none.
///
/// # Errors
///
/// Want of memory, or a store that failed. The world has not failed by that.
pub fn item_hint<'t, S: Alter + Drop>(
    alloc: Global,
    world: &mut World<S>,
    word: &'t str,
) -> Result<Option<Hint<'t>>, Fault>
    ensures told { TellsOf S.Store (λ w hint. IsHintOf whose.Item w word.entry hint) world.old world.new result }
    ensures read { IsUntouched S.Store world.old world.new }
{
    let found = found_item(alloc, world, word)?;
    Ok(hint_of(Whose::Item, word, found))
}

/// Whether something comes nearest to a word that names none.
fn has_hint(found: &Found) -> bool
    ensures { result ≡ has_hint found.now }
{
    match found {
        Found::Nearest(Some(_)) => true,
        Found::Nearest(None) | Found::One(_) | Found::Two(_, _) => false,
    }
}

/// The same of the first of two words that has one.
fn either_hint<'t, S: Alter + Drop>(
    alloc: Global,
    world: &mut World<S>,
    first: &'t str,
    second: &'t str,
) -> Result<Option<Hint<'t>>, Fault>
    ensures told { TellsOf S.Store (λ w hint. IsEitherHint w first.entry second.entry hint) world.old world.new
        result }
    ensures read { IsUntouched S.Store world.old world.new }
{
    let found = found_item(alloc, world, first)?;
    if has_hint(&found) {
        return Ok(hint_of(Whose::Item, first, found));
    }
    item_hint(alloc, world, second)
}

/// What comes nearest to a word of a verb that names no package or no item. The world is only read.
///
/// # Errors
///
/// Want of memory, or a store that failed. The world has not failed by that.
pub fn hint_for<'t, S: Alter + Drop>(
    alloc: Global,
    world: &mut World<S>,
    verb: &Verb<'t>,
) -> Result<Option<Hint<'t>>, Fault>
    ensures told { TellsOf S.Store (λ w hint. IsVerbHint w verb.now hint) world.old world.new result }
    ensures read { IsUntouched S.Store world.old world.new }
{
    match verb {
        Verb::Lend { from, .. } => match from {
            Some(word) => package_hint(alloc, world, *word),
            None => Ok(None),
        },
        Verb::Return { loan } => package_hint(alloc, world, *loan),
        Verb::PutTile { package, .. } => package_hint(alloc, world, *package),
        Verb::PutMedium { package, .. } => package_hint(alloc, world, *package),
        Verb::PutMark { package, .. } => package_hint(alloc, world, *package),
        Verb::Join { first, second } => either_hint(alloc, world, *first, *second),
        Verb::Part { first, second } => either_hint(alloc, world, *first, *second),
    }
}
