//! An item of a folder's packages is dropped.
ghost use Rattle.std.specs.Prelude.{◌≡◌};
ghost use Rattle.command_folder.specs.Endings.{done};
ghost use Rattle.command_folder.specs.declared.endings.Ending.TheVariants.{NoRequest};
ghost use Rattle.command_lines.specs.Drops.{linked_text, outcomes_text, requests_text};
ghost use Rattle.command_ordering.specs.Orders.{PrintsLine};
ghost use Rattle.command_ordering.specs.Dropping.{DropsFor, DropsIn, EndsDrop, TellsDrop, drop_hint};
ghost use Rattle.command_ordering.specs.Telling.{replies_ending};

use crate::telling::{fault_ending, tell_fault};
use command_folder::endings::{DONE, Ending, NO_MEMORY};
use command_folder::folders::{OpenFolder, open_folder};
use command_folder::printing::print;
use command_folder::replies::refusal_ending;
use command_lines::drops::{linked_text, outcomes_text, requests_text};
use command_names::hints::{Hint, Whose};
use command_naming::drops::{DropOutcome, Dropping, drop_named};
use command_plans::requests::Identities;
use command_searches::hints::hint_of;
use command_verbs::verbs::VerbFault;
use package_tables::fault::Fault;
use sheet_types::command::{Relation, Request};
use sheet_types::receipt::Receipt;
use sheet_types::refusal::Refusal;
use sqlite::{Alter, Connection};
use sqlite_trees::store::Store;
use std::alloc::Global;
use std::io::Write;
use store_folder::opening::close_stores;
use store_folder::shelf::FolderShelf;
use store_folder::start::FolderStore;
use store_shelf::shelf::Shelf;
use world::world::World;

/// How it ends after replies: the first that is a refusal tells.
fn replies_ending(replies: &[Result<Receipt, Refusal>]) -> Ending
    ensures { result ≡ replies_ending replies.now }
{
    let [reply, replies @ ..] = replies else {
        return DONE;
    };
    match reply {
        Ok(_) => replies_ending(replies),
        Err(why) => refusal_ending(why),
    }
}

/// What comes nearest to a word that names no item.
fn hint_after<'t>(dropping: &Dropping<'t>, outcome: &Result<DropOutcome, Fault>) -> Option<Hint<'t>>
    ensures { result ≡ drop_hint dropping.now outcome.now }
{
    match outcome {
        Ok(DropOutcome::Unnamed(_, found)) => hint_of(Whose::Item, dropping.word, *found),
        Ok(DropOutcome::Linked(_))
        | Ok(DropOutcome::Planned(_))
        | Ok(DropOutcome::Dropped(_))
        | Err(_) => None,
    }
}

/// Writes the links for which an item stays.
fn tell_linked<W: Write>(alloc: Global, links: &[Relation], writer: &mut W) -> Ending
    ensures { PrintsLine writer.old writer.new (W.contents writer.old) (W.contents writer.new)
        (linked_text links.now) NoRequest result }
{
    match linked_text(alloc, links) {
        Ok(text) => print(writer, text.as_str(), Ending::NoRequest),
        Err(_) => NO_MEMORY,
    }
}

/// Writes requests as JSON.
fn tell_planned<W: Write>(alloc: Global, requests: &[Request], writer: &mut W) -> Ending
    ensures { PrintsLine writer.old writer.new (W.contents writer.old) (W.contents writer.new)
        (requests_text requests.now) done result }
{
    match requests_text(alloc, requests) {
        Ok(text) => print(writer, text.as_str(), DONE),
        Err(_) => NO_MEMORY,
    }
}

/// Writes what came of requests.
fn tell_replies<W: Write>(
    alloc: Global,
    requests: &[Request],
    replies: &[Result<Receipt, Refusal>],
    writer: &mut W,
) -> Ending
    ensures { PrintsLine writer.old writer.new (W.contents writer.old) (W.contents writer.new)
        (outcomes_text requests.now replies.now) (replies_ending replies.now) result }
{
    let due = replies_ending(replies);
    match outcomes_text(alloc, requests, replies) {
        Ok(text) => print(writer, text.as_str(), due),
        Err(_) => NO_MEMORY,
    }
}

/// Writes what came of a drop.
fn tell_outcome<W: Write>(
    alloc: Global,
    outcome: &Result<DropOutcome, Fault>,
    writer: &mut W,
) -> Ending
    ensures { TellsDrop writer.old writer.new (W.contents writer.old) (W.contents writer.new) outcome.now result }
{
    match outcome {
        Ok(DropOutcome::Unnamed(fault, _)) => {
            tell_fault(alloc, &VerbFault::Unfound(*fault), writer)
        }
        Ok(DropOutcome::Linked(links)) => tell_linked(alloc, links.as_slice(), writer),
        Ok(DropOutcome::Planned(requests)) => tell_planned(alloc, requests.as_slice(), writer),
        Ok(DropOutcome::Dropped(dropped)) => tell_replies(
            alloc,
            dropped.requests.as_slice(),
            dropped.replies.as_slice(),
            writer,
        ),
        Err(fault) => fault_ending(*fault),
    }
}

/// Drops the item of a world that a word names, and writes what came of it. Where it names none,
/// what comes nearest is told beside it.
pub fn drop_in<'t, S: Alter + Drop, H: Shelf<S>, N: Identities, W: Write>(
    alloc: Global,
    world: &mut World<S>,
    shelf: &mut H,
    dropping: &Dropping<'t>,
    identities: &mut N,
    writer: &mut W,
) -> (Ending, Option<Hint<'t>>)
    ensures { DropsIn S.Store N.gives dropping.now world.old world.new identities.old identities.new
        writer.old writer.new (W.contents writer.old) (W.contents writer.new) result.0 result.1 }
{
    let outcome = drop_named(alloc, world, shelf, dropping, identities);
    let hint = hint_after(dropping, &outcome);
    let ending = tell_outcome(alloc, &outcome, writer);
    (ending, hint)
}

/// The same of a world that ends with it: its stores are handed on.
fn drop_with<'t, S: Alter + Drop, H: Shelf<S>, N: Identities, W: Write>(
    alloc: Global,
    mut world: World<S>,
    shelf: &mut H,
    dropping: &Dropping<'t>,
    identities: &mut N,
    writer: &mut W,
) -> (Ending, Option<Hint<'t>>, Vec<Connection<S>>)
    ensures { EndsDrop S.Store N.gives dropping.now world result.2.items identities.old identities.new
        writer.old writer.new (W.contents writer.old) (W.contents writer.new) result.0 result.1 }
{
    let (ending, hint) = drop_in(alloc, &mut world, shelf, dropping, identities, writer);
    (ending, hint, world.into_stores())
}

/// Opens a folder, and drops the item of its packages that a word names.
pub fn drop_for<'t, N: Identities, W: Write>(
    rt: &HostRuntime,
    folder: &str,
    dropping: &Dropping<'t>,
    identities: &mut N,
    writer: &mut W,
) -> (Ending, Option<Hint<'t>>)
    ensures { DropsFor ⟦<FolderStore as Store>⟧ N.gives dropping.now identities.old identities.new
        writer.old writer.new (W.contents writer.old) (W.contents writer.new) result.0 result.1 }
{
    match open_folder(rt, folder) {
        Ok(
            OpenFolder {
                world,
                lock: _lock,
                ..
            },
        ) => {
            let mut shelf = FolderShelf::new(rt, folder);
            let (ending, hint, stores) = drop_with(
                rt.alloc(),
                world,
                &mut shelf,
                dropping,
                identities,
                writer,
            );
            close_stores(stores);
            (ending, hint)
        }
        Err(fault) => (Ending::Unopened(fault), None),
    }
}
