//! What stands in the item that a word names.
ghost use Rattle.std.specs.Prelude.{◌≡◌, ◌⊎◌, None};
ghost use Rattle.command_names.specs.declared.hints.Whose.TheVariants as whose;
ghost use Rattle.sheet_types.specs.World.{World as ModelWorld};
ghost use Rattle.world_members.specs.Members.{AllClean};
ghost use Rattle.world.specs.Worlds.{StandsFor};
ghost use Rattle.command_requests.specs.Listing.{IsUntouched};
ghost use Rattle.command_searches.specs.Hints.{IsHintOf};
ghost use Rattle.command_named.specs.Items.{ShowsItem, TellsItem};

use command_folder::endings::Ending as CommandEnding;
use command_names::hints::Hint;
use command_searches::hints::item_hint;
use sqlite::{Alter, Connection};
use std::alloc::Global;
use std::io::Write;
use views::contents::get_in;
use views::endings::Ending;
use world::world::World;

/// What is told beside an ending: what comes nearest, where the word names no item.
fn hint_after<'t, S: Alter + Drop>(
    alloc: Global,
    world: &mut World<S>,
    word: &'t str,
    ending: &Ending,
) -> Option<Hint<'t>>
    ensures told { AllClean S.Store world.new.members → (w : ModelWorld) → StandsFor S.Store world.old w
        → (result ≡ None) ⊎ IsHintOf whose.Item w word.entry result }
    ensures read { IsUntouched S.Store world.old world.new }
{
    if !matches!(ending, Ending::Usual(CommandEnding::NoRequest)) {
        return None;
    }
    match item_hint(alloc, world, word) {
        Ok(hint) => hint,
        // The refusal is told, whatever becomes of the hint.
        Err(_) => None,
    }
}

/// Prints what stands in the item that a word names. The stores of the world are handed on. Where the word names
/// none, what comes nearest is told beside it.
pub fn item_in<'t, S: Alter + Drop, W: Write>(
    alloc: Global,
    mut world: World<S>,
    word: &'t str,
    writer: &mut W,
) -> (Ending, Option<Hint<'t>>, Vec<Connection<S>>)
    ensures { ShowsItem S.Store word.entry world result.2.items writer.old writer.new
        (W.contents writer.old) (W.contents writer.new) result.0 result.1 }
{
    let ending = get_in(alloc, &mut world, word, writer);
    let hint = hint_after(alloc, &mut world, word, &ending);
    (ending, hint, world.into_stores())
}

/// The same of a world that stays.
pub fn tell_item<'t, S: Alter + Drop, W: Write>(
    alloc: Global,
    world: &mut World<S>,
    word: &'t str,
    writer: &mut W,
) -> (Ending, Option<Hint<'t>>)
    ensures { TellsItem S.Store word.entry world.old world.new writer.old writer.new
        (W.contents writer.old) (W.contents writer.new) result.0 result.1 }
{
    let ending = get_in(alloc, world, word, writer);
    let hint = hint_after(alloc, world, word, &ending);
    (ending, hint)
}
