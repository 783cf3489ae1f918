//! A stop after any request, the opening of what a crash left, and the list again from that request on.
ghost use Rattle.std.specs.Prelude.{IfSome};
ghost use Rattle.opening_stores.specs.Stores.{AreAllKeyed};
ghost use Rattle.promises.specs.Survivals.{SurvivesStop};

use crate::reopening::{Resumed, open_and_run};
use crate::stopping::{Stopped, run_and_stop};
use crate::typing::{has_types, have_types};
use opening_stores::watching::Watcher;
use sheet_types::command::Request;
use sheet_types::frame::Frame;
use sqlite::{Alter, Connection};
use std::alloc::Global;
use store_shelf::shelf::Shelf;
use uuid::Uuid;

/// A world that was stopped after a request, and the one that was opened from what was left of it.
#[derive(Drop)]
pub struct Survived<S: Alter + Drop> {
    pub stopped: Stopped<S>,
    /// The replies are those to the list that was sent again.
    pub resumed: Resumed<S>,
}

/// A new world, a list of requests, and one behind them, after which all stops. Then stores are opened, and
/// that request is sent again, with others behind it, over a shelf that was made since. None where no world was made or
/// opened, or there was no room for the replies.
pub fn run_stop_and_go_on<S: Alter + Drop, H: Shelf<S>, W: Watcher>(
    alloc: Global,
    archive: Uuid,
    at: &str,
    frame: &Frame,
    before: &[Request],
    again: &[Request],
    stores: Vec<Connection<S>>,
    watcher: &mut W,
    shelf: &mut H,
    next_shelf: &mut H,
) -> Option<Survived<S>>
    requires { AreAllKeyed S.Store stores.items }
    ensures { IfSome result (SurvivesStop S.Store H.asks H.takes archive frame.now before.now again.now stores.items
        shelf.old shelf.new next_shelf.old next_shelf.new) }
{
    let Some(request) = again.first() else {
        return None;
    };
    have_types(before);
    has_types(&request.command);
    let Some(stopped) = run_and_stop::<S, H>(alloc, archive, at, frame, before, request, shelf)
    else {
        return None;
    };
    match open_and_run(alloc, stores, again, watcher, next_shelf) {
        Some(resumed) => Some(Survived { stopped, resumed }),
        None => None,
    }
}
