//! A world of one archive in memory.
ghost use Rattle.std.specs.Prelude.{IfOk};
ghost use Rattle.sqlite.specs.Held.{state};
ghost use Rattle.sqlite.specs.State.{HasCleanDisk};
ghost use Rattle.sqlite.specs.Steps.{over_memory};
ghost use Rattle.store_sql.specs.Blank.{IsBlank, no_schema};

use package_tables::fault::Fault;
use sqlite::{Connection, MemStore};
use std::alloc::Global;
use store_shelf::memory::MemoryShelf;
use store_shelf::shelf::Shelf;
use test_values::{BEGUN, FRAME, archive};
use world::world::World;

/// A store in memory that nothing is in yet.
pub fn blank_store(alloc: Global) -> Result<Connection<MemStore>, Fault>
    ensures { IfOk result (λ conn. HasCleanDisk (state over_memory conn)
        → IsBlank no_schema (state over_memory conn).now) }
{
    match MemoryShelf::new(alloc).blank(archive()) {
        Ok(conn) => Ok(conn),
        Err(_) => Err(Fault::OutOfMemory),
    }
}

/// An archive with nothing in it.
pub fn new_world(alloc: Global) -> Result<World<MemStore>, Fault> {
    match World::create(alloc, blank_store(alloc)?, archive(), BEGUN, &FRAME) {
        Ok(world) => Ok(world),
        Err(_) => Err(Fault::StoreFault),
    }
}
