// One request in a world whose stores are files of which one may stop, with what a crash leaves then.
use crate::fuses::{FusedShelf, Fusing, Left, Remains, Reopens, WAYS, leaves_other};
use crate::loans::{A, LoanStep, Wish, asked, package};
use crate::pictures::{push_reply, push_store, push_world};
use crate::scenes::{Before, ITEMS, LOANS, Scene};
use package_tables::fault::Fault;
use sheet_types::command::Request;
use sheet_types::receipt::Receipt;
use sheet_types::refusal::Refusal;
use sqlite::{Alter, Connection};
use std::alloc::Global;
use store_shelf::shelf::Shelf;
use test_values::{BEGUN, FRAME};
use uuid::Uuid;
use world::world::World;

// The requests of the numbers from 1 on.
fn requests(alloc: Global, wishes: &[Wish], count: usize) -> Result<Vec<Request>, Fault> {
    let mut number = 0u32;
    let mut requests = Vec::new(alloc);
    for wish in wishes.iter().take(count) {
        number = number.saturating_add(1);
        requests.push(LoanStep::now(number, *wish).request(alloc)?)?;
    }
    Ok(requests)
}

fn requests_before(alloc: Global, before: Before) -> Result<Vec<Request>, Fault> {
    match before {
        Before::Items => requests(alloc, ITEMS.as_slice(), 4),
        Before::Loans(count) => requests(alloc, LOANS.as_slice(), count),
    }
}

fn are_accepted(replies: &[Result<Receipt, Refusal>]) -> bool {
    for reply in replies {
        if reply.is_err() {
            return false;
        }
    }
    true
}

// Whether the world is told a receipt for each request that comes before.
fn is_prepared<S: Alter + Drop, H: Shelf<S>>(
    alloc: Global,
    world: &mut World<S>,
    shelf: &mut H,
    before: Before,
) -> Result<bool, Fault> {
    let requests = requests_before(alloc, before)?;
    match world.run(alloc, &requests, shelf) {
        Ok(replies) => Ok(are_accepted(&replies)),
        Err(_) => Ok(false),
    }
}

// The world of the archive A, whose store is one of the shelf's.
fn new_world<S: Alter + Drop, H: Shelf<S>>(alloc: Global, shelf: &mut H) -> Option<World<S>> {
    let Ok(conn) = shelf.blank(package(A)) else {
        return None;
    };
    World::create(alloc, conn, package(A), BEGUN, &FRAME).ok()
}

/// How often the request comes: never, once, or again after a receipt, in a world that failed, and where the shelf had
/// no store.
#[derive(Clone, Copy)]
pub enum Comes {
    Never,
    Once,
    Again,
}

/// What came of a request. Of a reply there is the number of the receipt, or below zero that of the reason, 0 of none;
/// and all of it as a text.
#[derive(Drop)]
pub struct Found {
    /// Whether the world came to the request: before it no file stopped, and no memory was refused.
    pub is_prepared: bool,
    pub number: i64,
    pub reply: String,
    /// Whether the world failed, and whether the shelf.
    pub has_failed: bool,
    pub was_unshelved: bool,
    /// What the world reads as then, where it can be read.
    pub is_read: bool,
    pub live: String,
    /// The reply to the request that came again.
    pub number_again: i64,
    pub reply_again: String,
    /// What a crash leaves, in each way that leaves other bytes: how each store reads that is opened again.
    pub left: Vec<Vec<String>>,
}

impl Found {
    fn new(alloc: Global) -> Found {
        Found {
            is_prepared: false,
            number: 0,
            reply: String::new(alloc),
            has_failed: false,
            was_unshelved: false,
            is_read: false,
            live: String::new(alloc),
            number_again: 0,
            reply_again: String::new(alloc),
            left: Vec::new(alloc),
        }
    }

    /// Whether the request got its receipt, at once or as it came again.
    pub fn is_carried_out(&self) -> bool {
        self.number > 0 || self.number_again > 0
    }

    // Whether the request is to come again.
    fn wants_again(&self, comes: Comes) -> bool {
        match comes {
            Comes::Never | Comes::Once => false,
            Comes::Again => self.number > 0 || self.has_failed || self.was_unshelved,
        }
    }
}

// The number of the reply, which is written out too.
fn replied<S: Alter + Drop, H: Shelf<S>>(
    alloc: Global,
    world: &mut World<S>,
    shelf: &mut H,
    step: &LoanStep,
    text: &mut String,
) -> Result<i64, Fault> {
    let request = step.request(alloc)?;
    let reply = world.apply(alloc, &request, shelf);
    push_reply(alloc, &reply, text)
}

// What the world is told, and what it reads as then.
fn ask<S: Alter + Drop, H: Shelf<S>>(
    alloc: Global,
    world: &mut World<S>,
    shelf: &mut H,
    step: &LoanStep,
    comes: Comes,
    found: &mut Found,
) -> Result<(), Fault> {
    if !matches!(comes, Comes::Never) {
        found.number = replied(alloc, world, shelf, step, &mut found.reply)?;
    }
    found.has_failed = world.has_failed();
    found.was_unshelved = shelf.failures() > 0;
    found.is_read = push_world(alloc, world, asked(step.number), &mut found.live).is_ok();
    if found.wants_again(comes) {
        found.number_again = replied(alloc, world, shelf, step, &mut found.reply_again)?;
    }
    Ok(())
}

// How one store reads when its files come back.
fn picture<S: Alter + Drop, H: Reopens<S>>(
    alloc: Global,
    shelf: &H,
    remains: &Remains,
    way: Left,
    id: Uuid,
) -> Result<String, Fault> {
    let mut text = String::new(alloc);
    let mut conn = shelf.opened(remains, way)?;
    push_store(alloc, &mut conn, id, &mut text)?;
    Ok(text)
}

fn pictures<S: Alter + Drop, H: Reopens<S>>(
    alloc: Global,
    shelf: &H,
    files: &[Remains],
    way: Left,
    id: Uuid,
) -> Result<Vec<String>, Fault> {
    let mut stores = Vec::new(alloc);
    for remains in files {
        stores.push(picture(alloc, shelf, remains, way, id)?)?;
    }
    Ok(stores)
}

// What remains of a store, which is gone.
fn keep_files<S: Alter + Drop, H: Reopens<S>>(
    shelf: &H,
    conn: Connection<S>,
    files: &mut Vec<Remains>,
) -> Result<(), Fault> {
    let remains = shelf.remains(conn.into_store())?;
    Ok(files.push(remains)?)
}

fn keep_all_files<S: Alter + Drop, H: Reopens<S>>(
    shelf: &H,
    stores: Vec<Connection<S>>,
    files: &mut Vec<Remains>,
) -> Result<(), Fault> {
    for conn in stores {
        keep_files(shelf, conn, files)?;
    }
    Ok(())
}

// A crash in each way. One that leaves the same bytes as another would be the same, and is left out.
fn crash<S: Alter + Drop, H: Reopens<S>>(
    alloc: Global,
    shelf: &H,
    stores: Vec<Connection<S>>,
    id: Uuid,
    left: &mut Vec<Vec<String>>,
) -> Result<(), Fault> {
    let mut files = Vec::new(alloc);
    keep_all_files(shelf, stores, &mut files)?;
    for way in WAYS {
        if leaves_other(&files, way) {
            left.push(pictures(alloc, shelf, &files, way, id)?)?;
        }
    }
    Ok(())
}

// What becomes of a world that is asked.
fn go_on<S: Alter + Drop, H: Shelf<S> + Reopens<S>>(
    alloc: Global,
    world: World<S>,
    shelf: &mut H,
    scene: &Scene,
    comes: Comes,
    found: &mut Found,
) -> Result<(), Fault> {
    let mut world = world;
    found.is_prepared = is_prepared(alloc, &mut world, shelf, scene.before)?;
    if !found.is_prepared {
        return Ok(());
    }
    ask(alloc, &mut world, shelf, &scene.step(), comes, found)?;
    let id = asked(scene.step().number);
    crash(alloc, shelf, world.into_stores(), id, &mut found.left)
}

// The same, over any store: a call at a store of a known type costs a proof half a minute, so there is one.
fn over_any_store<S: Alter + Drop, H: Shelf<S> + Reopens<S>>(
    alloc: Global,
    shelf: &mut H,
    scene: &Scene,
    comes: Comes,
    found: &mut Found,
) -> Result<(), Fault> {
    match new_world(alloc, shelf) {
        Some(world) => go_on(alloc, world, shelf, scene, comes, found),
        None => Ok(()),
    }
}

/// What comes of the request of a scene where this fails.
pub fn over_files(
    alloc: Global,
    fusing: &Fusing,
    scene: &Scene,
    comes: Comes,
) -> Result<Found, Fault> {
    let mut shelf = FusedShelf::new(alloc, fusing);
    let mut found = Found::new(alloc);
    over_any_store(alloc, &mut shelf, scene, comes, &mut found)?;
    Ok(found)
}
