//! A verb over a folder, and what comes nearest to a word of its that names none.
ghost use Rattle.std.specs.Prelude.{◌≡◌, ◌⊎◌, None};
ghost use Rattle.sheet_types.specs.World.{World as ModelWorld};
ghost use Rattle.world_members.specs.Members.{AllClean};
ghost use Rattle.world.specs.Worlds.{StandsFor};
ghost use Rattle.command_requests.specs.Listing.{IsUntouched};
ghost use Rattle.command_searches.specs.Hints.{IsVerbHint};
ghost use Rattle.command_ordering.specs.Ordering.{EndsHinted, HintsOrder, OrdersHinted};

use crate::orders::{Purpose, order_in};
use command_folder::endings::Ending;
use command_folder::folders::{OpenFolder, open_folder};
use command_names::hints::Hint;
use command_requests::orders::Order;
use command_searches::hints::hint_for;
use sqlite::{Alter, Connection};
use sqlite_trees::store::Store;
use std::alloc::Global;
use std::io::{Read, Write};
use store_folder::opening::close_stores;
use store_folder::shelf::FolderShelf;
use store_folder::start::FolderStore;
use store_shelf::shelf::Shelf;
use world::world::World;

/// What is told beside an ending: what comes nearest, where the words say no request.
fn hint_after<'t, S: Alter + Drop>(
    alloc: Global,
    world: &mut World<S>,
    order: &Order<'t>,
    ending: &Ending,
) -> Option<Hint<'t>>
    ensures told { AllClean S.Store world.new.members → (w : ModelWorld) → StandsFor S.Store world.old w
        → (result ≡ None) ⊎ IsVerbHint w order.now.verb result }
    ensures read { IsUntouched S.Store world.old world.new }
{
    if !matches!(ending, Ending::NoRequest) {
        return None;
    }
    match hint_for(alloc, world, &order.verb) {
        Ok(hint) => hint,
        // The refusal is told, whatever becomes of the hint.
        Err(_) => None,
    }
}

/// Does an order in a world, as `order_in` does. Where the words say no request, what comes nearest
/// to one of them is told beside it.
pub fn hint_order_in<'t, S: Alter + Drop, H: Shelf<S>, R: Read + Drop, W: Write>(
    alloc: Global,
    world: &mut World<S>,
    shelf: &mut H,
    order: &Order<'t>,
    purpose: Purpose,
    reader: R,
    writer: &mut W,
) -> (Ending, Option<Hint<'t>>)
    ensures { HintsOrder S.Store (R.remaining reader) order.now purpose world.old world.new writer.old writer.new
        (W.contents writer.old) (W.contents writer.new) result.0 result.1 }
{
    let ending = order_in(alloc, world, shelf, order, purpose, reader, writer);
    let hint = hint_after(alloc, world, order, &ending);
    (ending, hint)
}

/// The same of a world that ends with it: its stores are handed on.
fn hint_order_with<'t, S: Alter + Drop, H: Shelf<S>, R: Read + Drop, W: Write>(
    alloc: Global,
    mut world: World<S>,
    shelf: &mut H,
    order: &Order<'t>,
    purpose: Purpose,
    reader: R,
    writer: &mut W,
) -> (Ending, Option<Hint<'t>>, Vec<Connection<S>>)
    ensures { EndsHinted S.Store (R.remaining reader) order.now purpose world result.2.items writer.old writer.new
        (W.contents writer.old) (W.contents writer.new) result.0 result.1 }
{
    let (ending, hint) = hint_order_in(alloc, &mut world, shelf, order, purpose, reader, writer);
    (ending, hint, world.into_stores())
}

/// Opens a folder, and does an order over its world and the bytes of a reader, as `order_for` does. Where the words
/// say no request, what comes nearest to one of them is told beside it.
pub fn hint_order_for<'t, R: Read + Drop, W: Write>(
    rt: &HostRuntime,
    folder: &str,
    order: &Order<'t>,
    purpose: Purpose,
    reader: R,
    writer: &mut W,
) -> (Ending, Option<Hint<'t>>)
    ensures { OrdersHinted ⟦<FolderStore as Store>⟧ (R.remaining reader) order.now purpose writer.old writer.new
        (W.contents writer.old) (W.contents writer.new) result.0 result.1 }
{
    match open_folder(rt, folder) {
        Ok(
            OpenFolder {
                world,
                lock: _lock,
                ..
            },
        ) => {
            let mut shelf = FolderShelf::new(rt, folder);
            let (ending, hint, stores) = hint_order_with(
                rt.alloc(),
                world,
                &mut shelf,
                order,
                purpose,
                reader,
                writer,
            );
            close_stores(stores);
            (ending, hint)
        }
        Err(fault) => (Ending::Unopened(fault), None),
    }
}
