//! A request that comes again, after whatever other requests.
ghost use Rattle.std.specs.Prelude.{IfSome};
ghost use Rattle.promises.specs.Calls.{Repeats};
ghost use Rattle.promises.specs.Promises.{OnceForGood};

use crate::running::{Begun, begin_and_run};
use crate::typing::{has_types, have_types};
use sheet_types::command::Request;
use sheet_types::frame::Frame;
use sheet_types::receipt::Receipt;
use sheet_types::refusal::Refusal;
use sqlite::Alter;
use std::alloc::Global;
use store_shelf::shelf::Shelf;
use uuid::Uuid;
use world::world::World;

/// The two replies to a request that came twice.
#[derive(Drop)]
pub struct Replies {
    pub first: Result<Receipt, Refusal>,
    pub again: Result<Receipt, Refusal>,
}

/// A world, and the two replies to a request that came twice.
#[derive(Drop)]
pub struct Repeated<S: Alter + Drop> {
    pub world: World<S>,
    pub replies: Replies,
}

/// A request, others behind it, and the same request again. None where there was no room for the replies to the others.
pub fn repeat<S: Alter + Drop, H: Shelf<S>>(
    alloc: Global,
    world: &mut World<S>,
    request: &Request,
    others: &[Request],
    shelf: &mut H,
) -> Option<Replies>
    ensures { IfSome result (Repeats S.Store H.asks H.takes request.now others.now
        world.old world.new shelf.old shelf.new) }
{
    let first = world.apply(alloc, request, shelf);
    match world.run(alloc, others, shelf) {
        Ok(_) => {
            let again = world.apply(alloc, request, shelf);
            Some(Replies { first, again })
        }
        Err(_) => None,
    }
}

/// A new world, a list of requests, a request, others behind it, and the same request again.
pub fn run_and_repeat<S: Alter + Drop, H: Shelf<S>>(
    alloc: Global,
    archive: Uuid,
    at: &str,
    frame: &Frame,
    before: &[Request],
    request: &Request,
    others: &[Request],
    shelf: &mut H,
) -> Option<Repeated<S>>
    ensures { IfSome result (OnceForGood S.Store H.asks H.takes archive frame.now before.now request.now others.now
        shelf.old shelf.new) }
{
    have_types(before);
    has_types(&request.command);
    have_types(others);
    let Some(begun) = begin_and_run::<S, H>(alloc, archive, at, frame, before, shelf) else {
        return None;
    };
    let Begun { world, replies: _ } = begun;
    let mut world = world;
    match repeat(alloc, &mut world, request, others, shelf) {
        Some(replies) => Some(Repeated { world, replies }),
        None => None,
    }
}
