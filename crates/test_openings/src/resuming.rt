// What a crash left is opened, and the request comes again.
use crate::asking::{Found, told, world_over};
use crate::examples::Example;
use crate::files::{Machine, Remains, are_same, are_synced};
use crate::texts::world_text;
use package_tables::fault::Fault;
use sheet_types::command::Request;
use sqlite::Alter;
use std::alloc::Global;
use store_shelf::shelf::Shelf;
use test_values::Checked;
use world::world::World;

/// A split or a merge with what is due.
#[derive(Clone, Copy)]
pub struct Asked<'a> {
    pub example: &'a Example,
    pub request: &'a Request,
}

impl<'a> Asked<'a> {
    // How many requests there are, with this one.
    fn count(&self) -> u8 {
        self.example.before.saturating_add(1)
    }
}

/// What the stops of a file left so far, where the request got no receipt.
#[derive(Drop)]
pub struct Seen {
    // How many crashes left the world before the request, and how many the world after it.
    before: u64,
    after: u64,
    /// The stores as the last stop left them.
    pub last: Vec<Remains>,
}

impl Seen {
    /// Nothing yet.
    pub fn new(alloc: Global) -> Seen {
        Seen {
            before: 0,
            after: 0,
            last: Vec::new(alloc),
        }
    }

    /// Which worlds crashes left.
    pub fn left(&self) -> &'static str {
        match (self.before > 0, self.after > 0) {
            (true, true) => "before or after",
            (true, false) => "before",
            (false, true) => "after",
            (false, false) => "nothing stopped",
        }
    }
}

// Which world a crash left: the one after it where the request got its receipt, and else one of the
// two, which is counted.
fn check_stood(
    stood: &str,
    asked: Asked<'_>,
    found: &Found,
    seen: &mut Seen,
    checked: &mut Checked,
) {
    let is_after = stood == asked.example.stands;
    if found.is_done {
        checked.is(stood, asked.example.stands);
    } else if is_after {
        seen.after = seen.after.saturating_add(1);
    } else {
        checked.is(stood, asked.example.stood);
        seen.before = seen.before.saturating_add(1);
    }
}

// The request gets the reply that is due, and has acted once.
fn check_world<S: Alter + Drop, M: Shelf<S>>(
    alloc: Global,
    world: &mut World<S>,
    machine: &mut M,
    asked: Asked<'_>,
    found: &Found,
    seen: &mut Seen,
    checked: &mut Checked,
) -> Result<(), Fault> {
    let stood = world_text(alloc, world, asked.count())?;
    check_stood(stood.as_str(), asked, found, seen, checked);
    let (_, reply) = told(alloc, world, machine, asked.request)?;
    checked.is(reply.as_str(), asked.example.reply);
    checked.told(
        world_text(alloc, world, asked.count()),
        asked.example.stands,
    );
    Ok(())
}

fn check_crash<S: Alter + Drop, M: Shelf<S> + Machine<S>>(
    alloc: Global,
    machine: &mut M,
    asked: Asked<'_>,
    found: &Found,
    is_synced: bool,
    seen: &mut Seen,
    checked: &mut Checked,
) -> Result<(), Fault> {
    match world_over(alloc, machine, &found.files, is_synced) {
        Some(mut world) => check_world(alloc, &mut world, machine, asked, found, seen, checked),
        None => {
            checked.is("no world", "a world");
            Ok(())
        }
    }
}

/// The machine stops, or the process ends where that leaves other bytes; nothing stops after it.
/// A crash that leaves the same as that of the stop before was seen there.
pub fn check_crashes<S: Alter + Drop, M: Shelf<S> + Machine<S>>(
    alloc: Global,
    machine: &mut M,
    asked: Asked<'_>,
    found: &Found,
    seen: &mut Seen,
    checked: &mut Checked,
) -> Result<(), Fault> {
    if found.is_done | !are_same(&found.files, &seen.last, true) {
        check_crash(alloc, machine, asked, found, true, seen, checked)?;
    }
    let is_other = found.is_done | !are_same(&found.files, &seen.last, false);
    if is_other & !are_synced(&found.files) {
        check_crash(alloc, machine, asked, found, false, seen, checked)?;
    }
    Ok(())
}
