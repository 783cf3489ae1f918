//! The tiles of a tree come into a package of a folder.
ghost use Rattle.std.specs.Prelude.{◌≡◌};
ghost use Rattle.command_folder.specs.Endings.{done};
ghost use Rattle.command_lines.specs.Trees.{counts_line};
ghost use Rattle.command_ordering.specs.Orders.{PrintsLine};
ghost use Rattle.command_ordering.specs.Putting.{
  PutsFor,
  PutsIn,
  EndsPut,
  TellsAdded,
  TellsFault,
  TellsTree,
  tree_hint,
};

use crate::telling::{fault_ending, tell_fault, tell_refused};
use command_folder::endings::{DONE, Ending, NO_MEMORY};
use command_folder::folders::{OpenFolder, open_folder};
use command_folder::printing::print;
use command_lines::trees::counts_line;
use command_names::hints::{Hint, Whose};
use command_naming::trees::{TreeOutcome, TreeWords, add_named};
use command_plans::requests::Identities;
use command_searches::hints::hint_of;
use command_trees::adding::{AddFault, Counts, Sheets};
use command_verbs::areas::Place;
use command_verbs::verbs::VerbFault;
use package_tables::fault::Fault;
use sqlite::{Alter, Connection};
use sqlite_trees::store::Store;
use std::alloc::Global;
use std::io::Write;
use store_folder::opening::close_stores;
use store_folder::shelf::FolderShelf;
use store_folder::start::FolderStore;
use store_shelf::shelf::Shelf;
use world::world::World;

/// Tells why no more tiles are added.
fn tell_stop<W: Write>(alloc: Global, fault: &AddFault, writer: &mut W) -> Ending
    ensures { TellsFault writer.old writer.new (W.contents writer.old) (W.contents writer.new) fault.now result }
{
    match fault {
        AddFault::BadPlace => tell_fault(alloc, &VerbFault::BadPlace, writer),
        AddFault::Unread => Ending::BadBody,
        AddFault::Failed(fault) => fault_ending(*fault),
        AddFault::Refused(why) => tell_refused(alloc, why, writer),
    }
}

/// Tells how many were added and passed over.
fn tell_counts<W: Write>(alloc: Global, counts: &Counts, writer: &mut W) -> Ending
    ensures { PrintsLine writer.old writer.new (W.contents writer.old) (W.contents writer.new)
        (counts_line counts.now.added counts.now.passed) done result }
{
    match counts_line(alloc, counts.added, counts.passed) {
        Ok(line) => print(writer, line.as_str(), DONE),
        Err(_) => NO_MEMORY,
    }
}

/// Tells how many were added and passed over, and why no more are, if so.
fn tell_added<W: Write>(
    alloc: Global,
    counts: &Counts,
    outcome: &Result<(), AddFault>,
    writer: &mut W,
) -> Ending
    ensures { TellsAdded (W.contents) writer.old writer.new counts.now outcome.now result }
{
    let told = tell_counts(alloc, counts, writer);
    match outcome {
        Ok(()) => told,
        Err(fault) => tell_stop(alloc, fault, writer),
    }
}

/// Writes what came of a tree.
fn tell_tree<W: Write>(
    alloc: Global,
    outcome: &Result<TreeOutcome, Fault>,
    writer: &mut W,
) -> Ending
    ensures { TellsTree (W.contents) writer.old writer.new outcome.now result }
{
    match outcome {
        Ok(TreeOutcome::Unnamed(fault, _)) => {
            tell_fault(alloc, &VerbFault::Unnamed(*fault), writer)
        }
        Ok(TreeOutcome::Added(counts, added)) => tell_added(alloc, counts, added, writer),
        Err(fault) => fault_ending(*fault),
    }
}

/// What comes nearest to a word that names no package.
fn hint_after<'t>(words: &TreeWords<'t>, outcome: &Result<TreeOutcome, Fault>) -> Option<Hint<'t>>
    ensures { result ≡ tree_hint words.now outcome.now }
{
    match outcome {
        Ok(TreeOutcome::Unnamed(_, found)) => hint_of(Whose::Package, words.package, *found),
        Ok(TreeOutcome::Added(_, _)) | Err(_) => None,
    }
}

/// Adds the tiles of files to the live package that a word names, and writes what came of it. Where it names none,
/// what comes nearest is told beside it.
pub fn put_tree_in<'t, S: Alter + Drop, H: Shelf<S>, N: Identities, F: Sheets, W: Write>(
    alloc: Global,
    world: &mut World<S>,
    shelf: &mut H,
    words: &TreeWords<'t>,
    files: &[Place],
    sheets: &mut F,
    identities: &mut N,
    writer: &mut W,
) -> (Ending, Option<Hint<'t>>)
    ensures { PutsIn S.Store N.gives F.gives words.now files.now (W.contents)
        (record { world = world.old; ids = identities.old; sheets = sheets.old })
        (record { world = world.new; ids = identities.new; sheets = sheets.new })
        writer.old writer.new result.0 result.1 }
{
    let outcome = add_named(alloc, world, shelf, words, files, sheets, identities);
    let hint = hint_after(words, &outcome);
    let ending = tell_tree(alloc, &outcome, writer);
    (ending, hint)
}

/// The same of a world that ends with it: its stores are handed on.
fn put_tree_with<'t, S: Alter + Drop, H: Shelf<S>, N: Identities, F: Sheets, W: Write>(
    alloc: Global,
    mut world: World<S>,
    shelf: &mut H,
    words: &TreeWords<'t>,
    files: &[Place],
    sheets: &mut F,
    identities: &mut N,
    writer: &mut W,
) -> (Ending, Option<Hint<'t>>, Vec<Connection<S>>)
    ensures { EndsPut S.Store N.gives F.gives words.now files.now (W.contents)
        (record { world = world; ids = identities.old; sheets = sheets.old }) result.2.items
        identities.new sheets.new writer.old writer.new result.0 result.1 }
{
    let (ending, hint) = put_tree_in(
        alloc, &mut world, shelf, words, files, sheets, identities, writer,
    );
    (ending, hint, world.into_stores())
}

/// Opens a folder, and adds the tiles of files to the package of its that a word names.
pub fn put_tree_for<'t, N: Identities, F: Sheets, W: Write>(
    rt: &HostRuntime,
    folder: &str,
    words: &TreeWords<'t>,
    files: &[Place],
    sheets: &mut F,
    identities: &mut N,
    writer: &mut W,
) -> (Ending, Option<Hint<'t>>)
    ensures { PutsFor ⟦<FolderStore as Store>⟧ N.gives F.gives words.now files.now (W.contents)
        identities.old identities.new sheets.old sheets.new writer.old writer.new result.0 result.1 }
{
    match open_folder(rt, folder) {
        Ok(
            OpenFolder {
                world,
                lock: _lock,
                ..
            },
        ) => {
            let mut shelf = FolderShelf::new(rt, folder);
            let (ending, hint, stores) = put_tree_with(
                rt.alloc(),
                world,
                &mut shelf,
                words,
                files,
                sheets,
                identities,
                writer,
            );
            close_stores(stores);
            (ending, hint)
        }
        Err(fault) => (Ending::Unopened(fault), None),
    }
}
