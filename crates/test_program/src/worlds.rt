// What is written of a world and what it then holds, as data. One function carries it out, so a further step costs next
// to nothing to prove.
use crate::outputs::{What, short, written};
use crate::streams::Wrote;
use package_tables::fault::Fault;
use sqlite::Alter;
use std::alloc::Global;
use std::process::Abort;
use store_shelf::file_memory::MemoryFileShelf;
use store_shelf::shelf::Shelf;
use test_values::{BEGUN, Checked, FRAME, archive};
use world::world::World;

// A test passes where nothing was wrong.
pub(crate) fn passes(rt: &impl Abort, wrong: Result<String, Fault>) {
    match wrong {
        Ok(wrong) => assert_eq!(rt; wrong.as_str(), ""),
        Err(_) => assert!(rt; false, "memory or a store gave out"),
    }
}

// What is to be written by a writer with so much room, how it is to end, and what it then wrote;
// how it ends where there is room for all but the last byte of what is else written; or what the
// archive holds.
#[derive(Clone, Copy)]
pub(crate) enum Step {
    Writes(What, usize, &'static str, Wrote),
    Shortly(What, &'static str),
    // So many tiles, media, rows, links and bytes.
    Holds(&'static str),
    // The next step is one in a new world.
    Anew,
}

fn held<S: Alter + Drop>(alloc: Global, world: &World<S>) -> Result<String, Fault> {
    let Some(sums) = world.sums(archive()) else {
        return Err(Fault::StoreFault);
    };
    Ok(format!(in alloc;
        "{} {} {} {} {}",
        sums.tiles, sums.media, sums.rows, sums.links, sums.bytes
    )?)
}

// A world of the archive alone.
fn world_of<S: Alter + Drop, H: Shelf<S>>(alloc: Global, shelf: &mut H) -> Result<World<S>, Fault> {
    let Ok(conn) = shelf.blank(archive()) else {
        return Err(Fault::OutOfMemory);
    };
    match World::create(alloc, conn, archive(), BEGUN, &FRAME) {
        Ok(world) => Ok(world),
        Err(_) => Err(Fault::StoreFault),
    }
}

fn begin_anew<S: Alter + Drop, H: Shelf<S>>(
    alloc: Global,
    world: &mut World<S>,
    shelf: &mut H,
) -> Result<String, Fault> {
    *world = world_of(alloc, shelf)?;
    Ok(String::new(alloc))
}

// Carries steps out, and notes what was told.
fn check<S: Alter + Drop, H: Shelf<S>>(
    alloc: Global,
    world: &mut World<S>,
    shelf: &mut H,
    steps: &[Step],
    checked: &mut Checked,
) {
    for step in steps {
        match *step {
            Step::Writes(what, room, ended, wrote) => {
                checked.told(written(alloc, world, shelf, what, room, wrote), ended)
            }
            Step::Shortly(what, ended) => checked.told(short(alloc, world, shelf, what), ended),
            Step::Holds(sums) => checked.told(held(alloc, world), sums),
            Step::Anew => checked.told(begin_anew(alloc, world, shelf), ""),
        }
    }
}

// What the steps told that was not expected, one a line, of a new world.
fn wrong_over<S: Alter + Drop, H: Shelf<S>>(
    alloc: Global,
    shelf: &mut H,
    steps: &[Step],
) -> Result<String, Fault> {
    let mut world = world_of(alloc, shelf)?;
    let mut checked = Checked::new(alloc);
    check(alloc, &mut world, shelf, steps, &mut checked);
    Ok(String::from_str(alloc, checked.wrong())?)
}

// The same over files in memory.
pub(crate) fn wrong(alloc: Global, steps: &[Step]) -> Result<String, Fault> {
    wrong_over(alloc, &mut MemoryFileShelf::new(alloc), steps)
}
