// A world that is asked for a split or a merge while a file stops.
ghost use Rattle.std.specs.Prelude.{◌≡◌, ◌++◌, ◌∷◌, [], IfOk, OnOk};
ghost use Rattle.opening_stores.specs.Stores.{AreAllKeyed};

use crate::examples::request;
use crate::files::{Machine, Remains, crashed};
use crate::texts::reply_text;
use opening::recovering::{Recovered, recover};
use opening_stores::watching::Unwatched;
use package_tables::fault::Fault;
use sheet_types::command::Request;
use sqlite::{Alter, Connection};
use std::alloc::Global;
use store_shelf::shelf::Shelf;
use test_values::{BEGUN, FRAME, archive};
use world::world::World;

// Puts one more behind a list.
fn push<T: Drop>(list: &mut Vec<T>, item: T) -> Result<(), Fault>
    ensures { OnOk result (list.new.items ≡ list.old.items ++ item ∷ []) }
{
    match list.push(item) {
        Ok(()) => Ok(()),
        Err(_) => Err(Fault::OutOfMemory),
    }
}

// The stores that a crash left, in their order, each just opened.
fn started<S: Alter + Drop, M: Machine<S>>(
    alloc: Global,
    machine: &M,
    files: &[Remains],
    is_synced: bool,
) -> Result<Vec<Connection<S>>, Fault>
    ensures { IfOk result (λ stores. AreAllKeyed S.Store stores.items) }
{
    let mut stores = Vec::new(alloc);
    for remains in files {
        let store = machine.start(stores.len(), remains, is_synced)?;
        push(&mut stores, store)?;
    }
    Ok(stores)
}

/// The world that files stand for.
pub fn world_over<S: Alter + Drop, M: Machine<S>>(
    alloc: Global,
    machine: &M,
    files: &[Remains],
    is_synced: bool,
) -> Option<World<S>> {
    let Ok(stores) = started(alloc, machine, files, is_synced) else {
        return None;
    };
    match recover(alloc, stores, &mut Unwatched) {
        Ok(Recovered { world, strays: _ }) => Some(world),
        Err(_) => None,
    }
}

// The first so many requests. What they are told shows in the world.
fn prepare<S: Alter + Drop, M: Shelf<S>>(
    alloc: Global,
    world: &mut World<S>,
    machine: &mut M,
    count: u8,
) -> Result<(), Fault> {
    for number in 1..count.saturating_add(1) {
        let request = request(alloc, number)?;
        let _reply = world.apply(alloc, &request, machine);
    }
    Ok(())
}

/// The files of a world after the first so many requests.
pub fn files_after<S: Alter + Drop, M: Shelf<S> + Machine<S>>(
    alloc: Global,
    machine: &mut M,
    count: u8,
) -> Result<Vec<Remains>, Fault> {
    let Ok(conn) = machine.blank(archive()) else {
        return Err(Fault::StoreFault);
    };
    let Ok(world) = World::create(alloc, conn, archive(), BEGUN, &FRAME) else {
        return Err(Fault::StoreFault);
    };
    let mut world = world;
    prepare(alloc, &mut world, machine, count)?;
    crashed(alloc, machine, world.into_stores())
}

/// What comes of a request.
#[derive(Drop)]
pub struct Found {
    /// Whether it got its receipt.
    pub is_done: bool,
    pub reply: String,
    /// What remains of the stores.
    pub files: Vec<Remains>,
}

/// Whether the request gets its receipt, and the reply.
pub fn told<S: Alter + Drop, M: Shelf<S>>(
    alloc: Global,
    world: &mut World<S>,
    machine: &mut M,
    asks: &Request,
) -> Result<(bool, String), Fault> {
    let reply = world.apply(alloc, asks, machine);
    let text = reply_text(alloc, &reply)?;
    Ok((reply.is_ok(), text))
}

/// A world is asked, and ends.
pub fn asked<S: Alter + Drop, M: Shelf<S> + Machine<S>>(
    alloc: Global,
    world: World<S>,
    machine: &mut M,
    asks: &Request,
) -> Result<Found, Fault> {
    let mut world = world;
    let (is_done, reply) = told(alloc, &mut world, machine, asks)?;
    let files = crashed(alloc, machine, world.into_stores())?;
    Ok(Found {
        is_done,
        reply,
        files,
    })
}
