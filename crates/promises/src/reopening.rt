//! The opening of whatever a crash left, and of stores of which nothing is known.
ghost use Rattle.std.specs.Prelude.{IfOk, IfErr, IfSome};
ghost use Rattle.opening_stores.specs.Stores.{AreAllKeyed};
ghost use Rattle.promises.specs.Openings.{OpensCertified, RefusesWithCause, OpensAgain};

use crate::typing::have_types;
use opening::recovering::{Recovered, Unopened, recover};
use opening_laws::laws::{left_is_stores, opened_is_timely, opens_again};
use opening_stores::watching::Watcher;
use sheet_types::command::Request;
use sheet_types::receipt::Receipt;
use sheet_types::refusal::Refusal;
use sqlite::{Alter, Connection};
use std::alloc::Global;
use store_shelf::shelf::Shelf;
use world::world::World;

/// A world that was opened, what it replied to a list of requests, and the stores that were not of it.
#[derive(Drop)]
pub struct Resumed<S: Alter + Drop> {
    pub world: World<S>,
    /// One reply a request.
    pub replies: Vec<Result<Receipt, Refusal>>,
    /// As the opening handed them out.
    pub strays: Vec<Connection<S>>,
}

/// Stores of which nothing is known come to a world, or to a fault.
pub fn open<S: Alter + Drop, W: Watcher>(
    alloc: Global,
    stores: Vec<Connection<S>>,
    watcher: &mut W,
) -> Result<Recovered<S>, Unopened<S>>
    requires { AreAllKeyed S.Store stores.items }
    ensures certified { IfOk result (OpensCertified S.Store stores.items) }
    ensures refused { IfErr result (RefusesWithCause S.Store stores.items) }
{
    opened_is_timely::<S>();
    match recover(alloc, stores, watcher) {
        Ok(found) => {
            found.world.has_failed();
            Ok(found)
        }
        Err(refused) => Err(refused),
    }
}

/// Stores that a crash left are opened, and requests go on. None where no world was opened, or
/// there was no room for the replies.
pub fn open_and_run<S: Alter + Drop, H: Shelf<S>, W: Watcher>(
    alloc: Global,
    stores: Vec<Connection<S>>,
    requests: &[Request],
    watcher: &mut W,
    shelf: &mut H,
) -> Option<Resumed<S>>
    requires { AreAllKeyed S.Store stores.items }
    ensures { IfSome result (OpensAgain S.Store H.asks H.takes stores.items requests.now
        shelf.old shelf.new) }
{
    have_types(requests);
    opens_again::<S>();
    left_is_stores::<S>();
    let Ok(found) = recover(alloc, stores, watcher) else {
        return None;
    };
    let Recovered { world, strays } = found;
    let mut world = world;
    match world.run(alloc, requests, shelf) {
        Ok(replies) => Some(Resumed {
            world,
            replies,
            strays,
        }),
        Err(_) => None,
    }
}
