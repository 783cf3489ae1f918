//! A loan of the sheets that cover a box.
ghost use Rattle.std.specs.Prelude.{[], Some};
ghost use Rattle.sheet_types.specs.World.{World as ModelWorld};
ghost use Rattle.world.specs.Worlds.{StandsFor};
ghost use Rattle.command_ordering.specs.Orders.{Orders};
ghost use Rattle.command_ordering.specs.Boxes.{EndsBoxed, IsGiverHint, LendsBox, LendsBoxed, order_of};

use crate::areas::area_in;
use crate::orders::{Purpose, order_in};
use crate::telling::{fault_ending, tell_fault};
use command_folder::endings::Ending;
use command_folder::folders::{OpenFolder, open_folder};
use command_names::hints::Hint;
use command_requests::orders::Order;
use command_searches::hints::package_hint;
use command_verbs::verbs::{Verb, VerbFault};
use sheet_types::command::Mode;
use sheet_types::frame::Ground;
use sqlite::{Alter, Connection};
use sqlite_trees::store::Store;
use std::alloc::Global;
use std::io::Write;
use store_folder::opening::close_stores;
use store_folder::shelf::FolderShelf;
use store_folder::start::FolderStore;
use store_shelf::shelf::Shelf;
use uuid::Uuid;
use world::world::World;

/// A loan of what covers a box, from a package that is named, or else from
/// the archive; under which identity and at which moment it is asked for.
#[derive(Clone, Copy)]
pub struct BoxedLoan<'t> {
    pub id: Uuid,
    pub at: &'t str,
    pub from: Option<&'t str>,
    pub zoom: i64,
    pub ground: Ground,
    pub mode: Mode,
    pub loan: Uuid,
}

/// Lends the sheets of an area.
fn lend_area<S: Alter + Drop, H: Shelf<S>, W: Write>(
    alloc: Global,
    world: &mut World<S>,
    shelf: &mut H,
    boxed: &BoxedLoan<'_>,
    area: &str,
    purpose: Purpose,
    writer: &mut W,
) -> Ending
    ensures { Orders S.Store writer.old writer.new (W.contents writer.old) (W.contents writer.new)
        (Some []) (order_of boxed.now area.entry) purpose world.old world.new result }
{
    let order = Order {
        id: boxed.id,
        at: boxed.at,
        verb: Verb::Lend {
            from: boxed.from,
            area,
            mode: boxed.mode,
            loan: boxed.loan,
        },
    };
    let nothing: &[u8] = b"";
    order_in(alloc, world, shelf, &order, purpose, nothing, writer)
}

/// What is told beside an ending: what comes nearest, where the word for the package names none.
fn hint_after<'t, S: Alter + Drop>(
    alloc: Global,
    world: &World<S>,
    from: Option<&'t str>,
    ending: &Ending,
) -> Option<Hint<'t>>
    ensures { (w : ModelWorld) → StandsFor S.Store world.now w → IsGiverHint w from.entry result }
{
    if !matches!(ending, Ending::NoRequest) {
        return None;
    }
    let word = from?;
    match package_hint(alloc, world, word) {
        Ok(hint) => hint,
        // The refusal is told, whatever becomes of the hint.
        Err(_) => None,
    }
}

/// Lends the least rectangle of sheets of a world that covers a box, and writes what came of it.
pub fn lend_box_in<'t, S: Alter + Drop, H: Shelf<S>, W: Write>(
    alloc: Global,
    world: &mut World<S>,
    shelf: &mut H,
    boxed: &BoxedLoan<'t>,
    purpose: Purpose,
    writer: &mut W,
) -> (Ending, Option<Hint<'t>>)
    ensures { LendsBox S.Store boxed.now purpose world.old world.new writer.old writer.new
        (W.contents writer.old) (W.contents writer.new) result.0 result.1 }
{
    match area_in(alloc, world, boxed.zoom, &boxed.ground) {
        Ok(Some(area)) => {
            let ending = lend_area(alloc, world, shelf, boxed, area.as_str(), purpose, writer);
            let hint = hint_after(alloc, world, boxed.from, &ending);
            (ending, hint)
        }
        Ok(None) => (tell_fault(alloc, &VerbFault::BadArea, writer), None),
        Err(fault) => (fault_ending(fault), None),
    }
}

/// The same of a world that ends with it: its stores are handed on.
fn lend_box_with<'t, S: Alter + Drop, H: Shelf<S>, W: Write>(
    alloc: Global,
    mut world: World<S>,
    shelf: &mut H,
    boxed: &BoxedLoan<'t>,
    purpose: Purpose,
    writer: &mut W,
) -> (Ending, Option<Hint<'t>>, Vec<Connection<S>>)
    ensures { EndsBoxed S.Store boxed.now purpose world result.2.items writer.old writer.new
        (W.contents writer.old) (W.contents writer.new) result.0 result.1 }
{
    let (ending, hint) = lend_box_in(alloc, &mut world, shelf, boxed, purpose, writer);
    (ending, hint, world.into_stores())
}

/// Opens a folder, and lends the least rectangle of sheets of its frame that covers a box.
pub fn lend_box_for<'t, W: Write>(
    rt: &HostRuntime,
    folder: &str,
    boxed: &BoxedLoan<'t>,
    purpose: Purpose,
    writer: &mut W,
) -> (Ending, Option<Hint<'t>>)
    ensures { LendsBoxed ⟦<FolderStore as Store>⟧ boxed.now purpose writer.old writer.new
        (W.contents writer.old) (W.contents writer.new) result.0 result.1 }
{
    match open_folder(rt, folder) {
        Ok(
            OpenFolder {
                world,
                lock: _lock,
                ..
            },
        ) => {
            let mut shelf = FolderShelf::new(rt, folder);
            let (ending, hint, stores) = lend_box_with(
                rt.alloc(),
                world,
                &mut shelf,
                boxed,
                purpose,
                writer,
            );
            close_stores(stores);
            (ending, hint)
        }
        Err(fault) => (Ending::Unopened(fault), None),
    }
}
