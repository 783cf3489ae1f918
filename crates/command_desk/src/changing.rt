//! What a command of several requests would change is shown, and nothing is changed.
ghost use Rattle.desk_http.specs.Connections.{IsServedBy};
ghost use Rattle.std.specs.Prelude.{◌≡◌};
ghost use Rattle.command_bringing.specs.Brings.{Brings};
ghost use Rattle.command_ordering.specs.Dropping.{DropsIn};
ghost use Rattle.command_desk.specs.Changing.{as_shown, purpose_of};

use command_bringing::bringing::{Purpose, bring_in};
use command_field::asking::Ask;
use command_folder::endings::Ending;
use command_names::hints::Hint;
use command_naming::drops::Dropping;
use command_ordering::dropping::drop_in;
use command_plans::requests::Identities;
use manifest_csv::progress::Silent;
use sqlite::Alter;
use std::alloc::Global;
use std::io::{Read, Write};
use store_shelf::shelf::Shelf;
use world::world::World;

/// How requests are shown.
#[derive(Clone, Copy, Debug, PartialEq, Eq)]
pub enum Showing {
    /// As a list.
    List,
    /// How many there are.
    Summary,
}

/// What becomes of the requests: they are shown.
fn purpose_of(showing: Showing) -> Purpose
    ensures { result ≡ purpose_of showing }
{
    match showing {
        Showing::List => Purpose::ShowList,
        Showing::Summary => Purpose::ShowSummary,
    }
}

/// Reads a list of what a file holds, and shows the requests that make a package of a world hold that. Answers besides
/// what is said of a refusal in plain words.
pub fn show_changes<S: Alter + Drop, H: Shelf<S>, R: Read + Drop, W: Write>(
    alloc: Global,
    world: &mut World<S>,
    shelf: &mut H,
    ask: &Ask<'_>,
    showing: Showing,
    reader: R,
    writer: &mut W,
) -> (Ending, &'static str)
    ensures changes { Brings S.Store writer.old writer.new
        (W.contents writer.old) (W.contents writer.new) ask.now (R.remaining reader)
        (purpose_of showing) world.old world.new
        (H.failures_of shelf.old) (H.failures_of shelf.new) result.0 }
    ensures served { IsServedBy S.Store 1 world.old world.new }
{
    let purpose = purpose_of(showing);
    bring_in(
        alloc,
        world,
        shelf,
        ask,
        purpose,
        reader,
        writer,
        &mut Silent,
    )
}

/// The same drop, only shown.
fn as_shown<'t>(dropping: &Dropping<'t>) -> Dropping<'t>
    ensures { result ≡ as_shown dropping.now }
{
    Dropping {
        word: dropping.word,
        at: dropping.at,
        ends_links: dropping.ends_links,
        is_shown: true,
    }
}

/// Shows the requests that drop the item that a word names, or why it stays, even where they were to be carried out.
/// Where the word names none, what comes nearest is told beside.
pub fn show_drop<'t, S: Alter + Drop, H: Shelf<S>, N: Identities, W: Write>(
    alloc: Global,
    world: &mut World<S>,
    shelf: &mut H,
    dropping: &Dropping<'t>,
    identities: &mut N,
    writer: &mut W,
) -> (Ending, Option<Hint<'t>>)
    ensures drops { DropsIn S.Store N.gives (as_shown dropping.now) world.old world.new
        identities.old identities.new writer.old writer.new
        (W.contents writer.old) (W.contents writer.new) result.0 result.1 }
    ensures served { IsServedBy S.Store 1 world.old world.new }
{
    let shown = as_shown(dropping);
    drop_in(alloc, world, shelf, &shown, identities, writer)
}
