//! Whether a world can be looked at, and the stores that it handed out.
ghost use Rattle.std.specs.Prelude.{◌≡◌, ◌↔◌, length, false, true, IfErr, IfOk, IsTrue};
ghost use Rattle.sheet_types.specs.World.{World as ModelWorld};
ghost use Rattle.package_tables.specs.declared.fault.Fault.TheVariants.{StoreFault};
ghost use Rattle.view_history.specs.Stores.{AreAtRest};
ghost use Rattle.world.specs.Worlds.{StandsFor};

use package_tables::fault::Fault;
use sqlite::{Alter, Connection};
use std::alloc::Global;
use store_sql::resting::is_at_rest;
use world::world::World;

/// Passes a world that has not failed. Of one that has, a store gave out.
pub fn usable<S: Alter + Drop>(world: &World<S>) -> Result<(), Fault>
    ensures passed { IfOk result (λ _. world.now.has_failed ≡ false) }
    ensures failed { IfErr result (λ fault. (fault ≡ StoreFault) × (world.now.has_failed ≡ true)) }
{
    if world.has_failed() {
        Err(Fault::StoreFault)
    } else {
        Ok(())
    }
}

/// How many packages a world has that has not failed.
pub(crate) fn count_of<S: Alter + Drop>(alloc: Global, world: &World<S>) -> Result<usize, Fault>
    ensures { IfOk result (λ count. (w : ModelWorld) → StandsFor S.Store world.now w
        → count ≡ length w.packages) }
{
    usable(world)?;
    let sights = world.packages(alloc)?;
    Ok(sights.len())
}

/// Whether no store is inside a transaction.
fn are_at_rest<S: Alter + Drop>(stores: &[Connection<S>]) -> bool
    ensures { IsTrue result ↔ AreAtRest S.Store stores.now }
{
    for at in 0..stores.len() {
        if !is_at_rest(&stores[at]) {
            return false;
        }
    }
    true
}

/// Whether there are so many stores, and none is inside a transaction. Those of a world that has not failed always
/// are so, which it says to nobody.
pub fn are_ready<S: Alter + Drop>(stores: &[Connection<S>], count: usize) -> bool
    ensures counted { IsTrue result → length stores.now ≡ count }
    ensures rests { IsTrue result → AreAtRest S.Store stores.now }
{
    stores.len() == count && are_at_rest(stores)
}
