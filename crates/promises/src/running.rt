//! A new world, any list of requests, and what is told after it.
ghost use Rattle.std.specs.Prelude.{IfSome};
ghost use Rattle.promises.specs.Calls.{IsNew, IsBegun, Looks};
ghost use Rattle.promises.specs.Promises.{OneWorld, AsIfUnasked};

use sheet_types::command::{Item, Relation, Request};
use sheet_types::frame::Frame;
use sheet_types::receipt::{Receipt, Sums};
use sheet_types::refusal::Refusal;
use sqlite::Alter;
use std::alloc::Global;
use store_shelf::shelf::Shelf;
use uuid::Uuid;
use world::reading::PackageSight;
use world::world::World;

/// A world, and what it replied to a list of requests.
#[derive(Drop)]
pub struct Begun<S: Alter + Drop> {
    pub world: World<S>,
    /// One reply a request.
    pub replies: Vec<Result<Receipt, Refusal>>,
}

/// What a caller is told of a world.
#[derive(Drop)]
pub struct Told {
    /// The live packages, by UUID.
    pub packages: Vec<PackageSight>,
    /// How much one package holds, if it is live.
    pub sums: Option<Sums>,
    /// Its items and its links, if it is live.
    pub holdings: Option<(Vec<Item>, Vec<Relation>)>,
}

/// A world, what it replied to a list of requests, and what is told of it then.
#[derive(Drop)]
pub struct Shown<S: Alter + Drop> {
    pub world: World<S>,
    /// One reply a request.
    pub replies: Vec<Result<Receipt, Refusal>>,
    pub told: Told,
}

/// A new world, of an archive with nothing in it. None where memory or the store gave out, or the
/// frame or the moment is not good.
pub fn begin<S: Alter + Drop, H: Shelf<S>>(
    alloc: Global,
    archive: Uuid,
    at: &str,
    frame: &Frame,
    shelf: &mut H,
) -> Option<World<S>>
    ensures new { IfSome result (IsNew S.Store archive frame.now) }
    ensures asked { IfSome result (λ world. H.asks archive shelf.old shelf.new) }
{
    let Ok(conn) = shelf.blank(archive) else {
        return None;
    };
    match World::create(alloc, conn, archive, at, frame) {
        Ok(world) => Some(world),
        Err(_) => None,
    }
}

/// A new world, and a list of requests. None where no world was made, or there was no room for the replies.
pub fn begin_and_run<S: Alter + Drop, H: Shelf<S>>(
    alloc: Global,
    archive: Uuid,
    at: &str,
    frame: &Frame,
    requests: &[Request],
    shelf: &mut H,
) -> Option<Begun<S>>
    ensures { IfSome result (IsBegun S.Store H.asks H.takes archive frame.now requests.now
        shelf.old shelf.new) }
{
    let Some(mut world) = begin::<S, H>(alloc, archive, at, frame, shelf) else {
        return None;
    };
    match world.run(alloc, requests, shelf) {
        Ok(replies) => Some(Begun { world, replies }),
        Err(_) => None,
    }
}

/// What is told of a world: its packages, and one of them. None where memory or a store gave out.
pub fn look<S: Alter + Drop>(alloc: Global, world: &mut World<S>, package: Uuid) -> Option<Told>
    ensures { IfSome result (Looks S.Store «package» world.old world.new) }
{
    let Ok(holdings) = world.holdings(alloc, package) else {
        return None;
    };
    let sums = world.sums(package);
    match world.packages(alloc) {
        Ok(packages) => Some(Told {
            packages,
            sums,
            holdings,
        }),
        Err(_) => None,
    }
}

/// A new world, any list of requests, and a look at its packages.
pub fn run_and_look<S: Alter + Drop, H: Shelf<S>>(
    alloc: Global,
    archive: Uuid,
    at: &str,
    frame: &Frame,
    requests: &[Request],
    package: Uuid,
    shelf: &mut H,
) -> Option<Shown<S>>
    ensures one_world { IfSome result (OneWorld S.Store H.asks H.takes archive frame.now requests.now «package»
        shelf.old shelf.new) }
    ensures as_if_unasked { IfSome result (AsIfUnasked S.Store H.asks H.takes archive frame.now requests.now «package»
        shelf.old shelf.new) }
{
    let Some(begun) = begin_and_run::<S, H>(alloc, archive, at, frame, requests, shelf) else {
        return None;
    };
    let Begun { world, replies } = begun;
    let mut world = world;
    match look(alloc, &mut world, package) {
        Some(told) => Some(Shown {
            world,
            replies,
            told,
        }),
        None => None,
    }
}
