//! A stop after any request: what a crash leaves of the stores.
ghost use Rattle.std.specs.Prelude.{IfSome, IsTrue, ◌↔◌};
ghost use Rattle.sheet_types.specs.Step.{IsFault};
ghost use Rattle.promises.specs.Calls.{Asks};
ghost use Rattle.promises.specs.Promises.{StopsWhole};

use crate::running::{Begun, begin_and_run};
use crate::typing::{has_types, have_types};
use sheet_types::command::Request;
use sheet_types::frame::Frame;
use sheet_types::receipt::Receipt;
use sheet_types::refusal::Refusal;
use sqlite::Alter;
use std::alloc::Global;
use store_shelf::shelf::Shelf;
use uuid::Uuid;
use world::crash_laws::left_as_it_stands;
use world::world::World;

/// A world, its replies to a list of requests, and to the one behind them.
#[derive(Drop)]
pub struct Stopped<S: Alter + Drop> {
    pub world: World<S>,
    pub replies: Vec<Result<Receipt, Refusal>>,
    pub last: Result<Receipt, Refusal>,
}

/// Whether a reply tells want of memory, or a store that failed.
fn tells_fault(reply: &Result<Receipt, Refusal>) -> bool
    ensures { IsTrue result ↔ IsFault reply.now }
{
    match reply {
        Ok(_) => false,
        Err(why) => *why == Refusal::OutOfMemory || *why == Refusal::StoreFault,
    }
}

/// One request of a world that can be used, and what is known of the world then.
pub fn ask<S: Alter + Drop, H: Shelf<S>>(
    alloc: Global,
    world: &mut World<S>,
    request: &Request,
    shelf: &mut H,
) -> Result<Receipt, Refusal>
    ensures { Asks S.Store H.asks H.takes request.now world.old world.new shelf.old shelf.new result }
{
    let reply = world.apply(alloc, request, shelf);
    world.has_failed();
    tells_fault(&reply);
    left_as_it_stands::<S>();
    reply
}

/// A new world, a list of requests, and one behind them, after which all stops.
pub fn run_and_stop<S: Alter + Drop, H: Shelf<S>>(
    alloc: Global,
    archive: Uuid,
    at: &str,
    frame: &Frame,
    before: &[Request],
    request: &Request,
    shelf: &mut H,
) -> Option<Stopped<S>>
    ensures { IfSome result (StopsWhole S.Store H.asks H.takes archive frame.now before.now request.now
        shelf.old shelf.new) }
{
    have_types(before);
    has_types(&request.command);
    let Some(begun) = begin_and_run::<S, H>(alloc, archive, at, frame, before, shelf) else {
        return None;
    };
    let Begun { world, replies } = begun;
    let mut world = world;
    let last = ask(alloc, &mut world, request, shelf);
    Some(Stopped {
        world,
        replies,
        last,
    })
}
