// What a request may come to, where something fails in it: each question is answered for itself.
use crate::fuses::Fusing;
use crate::scenes::Scene;
use crate::stops::{Comes, Found, over_files};
use package_tables::fault::Fault;
use std::alloc::{AllocError, Global};
use test_values::Checked;

/// The number of the reply that a store failed, below zero as those of faults are here.
pub const STORE_FAULT: i64 = -25;

/// The number of the reply that memory was wanting.
pub const OUT_OF_MEMORY: i64 = -24;

// Whether memory was refused: a file in memory that cannot grow is one that fails.
fn is_lost(found: &Found) -> bool {
    !found.is_prepared
        || found.number == OUT_OF_MEMORY
        || found.has_failed
        || found.was_unshelved
        || !found.is_read
}

fn undisturbed(alloc: Global, scene: &Scene, comes: Comes) -> Result<Found, Fault> {
    let found = over_files(alloc, &Fusing::Nothing, scene, comes)?;
    if is_lost(&found) {
        return Err(Fault::OutOfMemory);
    }
    Ok(found)
}

/// The worlds before and after the request, where nothing fails.
#[derive(Drop)]
pub struct Both {
    pub before: Found,
    pub after: Found,
}

/// It ends with `OutOfMemory` where memory is refused.
pub fn both_worlds(alloc: Global, scene: &Scene) -> Result<Both, Fault> {
    let before = undisturbed(alloc, scene, Comes::Never)?;
    Ok(Both {
        before,
        after: undisturbed(alloc, scene, Comes::Once)?,
    })
}

// What stores read as when the machine stopped, which is the first way: all that was synced.
fn synced(world: &Found) -> &[String] {
    match world.left.first() {
        Some(stores) => stores,
        None => &[],
    }
}

fn push_held_of(picture: &str, held: &mut String) -> Result<(), AllocError> {
    for line in picture.lines() {
        if let Some(stands) = line.strip_prefix("held ") {
            held.push_str(stands)?;
        }
    }
    Ok(())
}

// Where all stands, by one picture or by several.
fn held_in(alloc: Global, pictures: &[String]) -> Result<String, Fault> {
    let mut held = String::new(alloc);
    for picture in pictures {
        push_held_of(picture.as_str(), &mut held)?;
    }
    Ok(held)
}

fn held_by(alloc: Global, picture: &str) -> Result<String, Fault> {
    let mut held = String::new(alloc);
    push_held_of(picture, &mut held)?;
    Ok(held)
}

/// The worlds before and after are those of the scene: all stands so, as the world says that is told, and as its stores
/// say.
pub fn check_both(alloc: Global, both: &Both, scene: &Scene, checked: &mut Checked) {
    checked.told(held_in(alloc, synced(&both.before)), scene.stood);
    checked.told(held_by(alloc, both.before.live.as_str()), scene.stood);
    checked.told(held_in(alloc, synced(&both.after)), scene.stands);
    checked.told(held_by(alloc, both.after.live.as_str()), scene.stands);
    let is_told = both.after.number == scene.told;
    checked.is(if is_told { "told" } else { "not told" }, "told");
}

// Whether one of these stores reads in this way.
fn reads_so(stores: &[String], picture: &str) -> bool {
    for store in stores {
        if store.as_str() == picture {
            return true;
        }
    }
    false
}

// The first line.
fn package_of(picture: &str) -> &str {
    match picture.split_once('\n') {
        Some((package, _)) => package,
        None => picture,
    }
}

// Whether one of these stores is that of the same package.
fn has_package(stores: &[String], picture: &str) -> bool {
    for store in stores {
        if package_of(store.as_str()) == package_of(picture) {
            return true;
        }
    }
    false
}

// Whether a store that is left is one of this world, or that of a loan that the other world has and this one not.
fn may_be_left(store: &str, world: &[String], other: &[String]) -> bool {
    reads_so(world, store) || !has_package(world, store) && reads_so(other, store)
}

// Whether what is left is this world: the store of each of its packages, and beside them at most the store of the
// loan that the other world has and this one not.
fn is_world(left: &[String], world: &[String], other: &[String]) -> bool {
    for store in world {
        if !reads_so(left, store.as_str()) {
            return false;
        }
    }
    for store in left {
        if !may_be_left(store.as_str(), world, other) {
            return false;
        }
    }
    left.len() <= world.len().saturating_add(1)
}

/// Which world is left: that before or after the request, both where it changes nothing, or neither.
#[derive(Clone, Copy)]
pub enum Stands {
    Before,
    After,
    Both,
    Between,
}

/// Which world these stores are.
pub fn which_stands(left: &[String], both: &Both) -> Stands {
    let (before, after) = (synced(&both.before), synced(&both.after));
    match (is_world(left, before, after), is_world(left, after, before)) {
        (true, true) => Stands::Both,
        (true, false) => Stands::Before,
        (false, true) => Stands::After,
        (false, false) => Stands::Between,
    }
}

/// The stores that a crash leaves are those of after where the request got its receipt, of before where it got none
/// and the world goes on, and else those of before or after.
pub fn left_fits(found: &Found, stands: Stands) -> bool {
    match stands {
        Stands::Before => !found.is_carried_out(),
        Stands::After => found.is_carried_out() || found.has_failed,
        Stands::Both => true,
        Stands::Between => false,
    }
}

// The reply is that of the request, or a fault.
fn reply_fits(found: &Found, both: &Both) -> bool {
    if found.number == STORE_FAULT {
        found.has_failed || found.was_unshelved
    } else if found.number == OUT_OF_MEMORY {
        true
    } else {
        !found.has_failed && found.reply.as_str() == both.after.reply.as_str()
    }
}

// A request that comes again gets its receipt, for the first time where the shelf had no store before; a world that
// failed answers by a fault.
fn again_fits(found: &Found, both: &Both) -> bool {
    if found.number_again == 0 || found.number_again == STORE_FAULT {
        true
    } else if found.has_failed {
        false
    } else {
        found.number_again == OUT_OF_MEMORY
            || found.reply_again.as_str() == both.after.reply.as_str()
    }
}

// The world itself, where it can be read, is that of after where the request got its receipt, and else that of before.
fn live_fits(found: &Found, both: &Both) -> bool {
    if !found.is_read || found.has_failed {
        true
    } else if found.number > 0 {
        found.live.as_str() == both.after.live.as_str()
    } else {
        found.live.as_str() == both.before.live.as_str()
    }
}

/// Which rule what came of a request breaks, or that it fits.
pub fn fits(found: &Found, both: &Both) -> &'static str {
    if !reply_fits(found, both) {
        "the reply is another"
    } else if !again_fits(found, both) {
        "the reply that came again is another"
    } else if !live_fits(found, both) {
        "the world is between"
    } else {
        "fits"
    }
}

/// Whether nothing failed up to the end: the world was read, and the request came again.
pub fn went_through(found: &Found, both: &Both) -> bool {
    let is_again = found.number_again == 0 || found.reply_again.as_str() == found.reply.as_str();
    is_again && found.number == both.after.number && found.is_read
}
