//! What is kept of each item of a live package.
ghost use Rattle.std.specs.Prelude.{◌≡◌, ◌++◌, true, IfOk, List, OnOk, flat_map};
ghost use Rattle.sheet_types.specs.World.{holdings, is_live};
ghost use Rattle.sheet_types.specs.declared.command.Item.{Item as ModelItem};
ghost use Rattle.view_items.specs.Parts.{ArePartsOf, OfTold};
ghost use Rattle.view_world.specs.Looks.{IsLookedAt, LeavesOpen};
ghost use Rattle.world.specs.Worlds.{IsRead, TellsOf};

use crate::finding::item_in;
use manifest_csv::questions::{ToldHoldings, is_large};
use package_tables::fault::Fault;
use sheet_types::command::{Item, Relation};
use sheet_types::receipt::Moved;
use sqlite::Alter;
use std::alloc::Global;
use uuid::Uuid;
use world::world::World;

/// What is kept of an item.
pub trait Part<A: Drop> {
    /// The parts that are kept of an item.
    ghost parts: { Self → ModelItem → List A };

    /// Puts what is kept of an item behind what is kept of others.
    fn put(&self, alloc: Global, item: &Item, kept: &mut Vec<A>) -> Result<(), Fault>
        ensures { OnOk result (kept.new.items ≡ kept.old.items ++ parts self.now item.now) };
}

/// What is kept of these items, in turn.
fn parts_of<A: Drop, P: Part<A>>(alloc: Global, part: &P, items: &[Item]) -> Result<Vec<A>, Fault>
    ensures { IfOk result (λ kept. kept.items ≡ flat_map (P.parts part.now) items.now) }
{
    let mut kept = Vec::new(alloc);
    for item in items {
        part.put(alloc, item, &mut kept)?;
    }
    Ok(kept)
}

/// What is kept of the items of a package, and its links. All contents are read at once: of few bytes that is faster.
fn parts_at_once<S: Alter + Drop, A: Drop, P: Part<A>>(
    alloc: Global,
    world: &mut World<S>,
    package: Uuid,
    part: &P,
) -> Result<(Vec<A>, Vec<Relation>), Fault>
    ensures told { TellsOf S.Store
        (λ w held. ArePartsOf (P.parts part.now) (holdings w «package») held.0.items held.1.items)
        world.old world.new result }
    ensures read { IsRead S.Store world.old world.new }
    ensures opens { LeavesOpen S.Store world.old world.new result }
    ensures live { TellsOf S.Store (λ w held. is_live w «package» ≡ true) world.old world.new result }
{
    let Some((items, links)) = world.holdings(alloc, package)? else {
        return Err(Fault::StoreFault);
    };
    let kept = parts_of(alloc, part, items.as_slice())?;
    Ok((kept, links))
}

/// What is kept of the items that are told of, each found and dropped again.
fn parts_told<S: Alter + Drop, A: Drop, P: Part<A>>(
    alloc: Global,
    world: &mut World<S>,
    package: Uuid,
    part: &P,
    told: &[Moved],
) -> Result<Vec<A>, Fault>
    ensures kept { IfOk result (λ kept. OfTold S.Store «package» told.now world.old world.new
        (λ items. kept.items ≡ flat_map (P.parts part.now) items)) }
    ensures read { IsLookedAt S.Store world.old world.new }
    ensures opens { LeavesOpen S.Store world.old world.new result }
{
    let mut kept = Vec::new(alloc);
    for moved in told {
        let item = item_in(alloc, world, package, moved.base)?;
        part.put(alloc, &item, &mut kept)?;
    }
    Ok(kept)
}

/// The same as `parts_at_once`, with one content in memory at a time.
fn parts_by_items<S: Alter + Drop, A: Drop, P: Part<A>>(
    alloc: Global,
    world: &mut World<S>,
    package: Uuid,
    part: &P,
) -> Result<(Vec<A>, Vec<Relation>), Fault>
    ensures told { TellsOf S.Store
        (λ w held. ArePartsOf (P.parts part.now) (holdings w «package») held.0.items held.1.items)
        world.old world.new result }
    ensures read { IsRead S.Store world.old world.new }
    ensures opens { LeavesOpen S.Store world.old world.new result }
    ensures live { TellsOf S.Store (λ w held. is_live w «package» ≡ true) world.old world.new result }
{
    let Some((told, links)) = world.ask(alloc, package, &ToldHoldings)? else {
        return Err(Fault::StoreFault);
    };
    let kept = parts_told(alloc, world, package, part, told.as_slice())?;
    Ok((kept, links))
}

/// What is kept of the items of a live package, by kind and identity, and its links. Of a package of many bytes one
/// content is in memory at a time.
///
/// # Errors
///
/// Want of memory, a store that failed, or a package that is not live. The world has not failed by that.
pub fn parts_in<S: Alter + Drop, A: Drop, P: Part<A>>(
    alloc: Global,
    world: &mut World<S>,
    package: Uuid,
    part: &P,
) -> Result<(Vec<A>, Vec<Relation>), Fault>
    ensures told { TellsOf S.Store
        (λ w held. ArePartsOf (P.parts part.now) (holdings w «package») held.0.items held.1.items)
        world.old world.new result }
    ensures read { IsRead S.Store world.old world.new }
    ensures opens { LeavesOpen S.Store world.old world.new result }
    ensures live { TellsOf S.Store (λ w held. is_live w «package» ≡ true) world.old world.new result }
{
    if is_large(world, package) {
        parts_by_items(alloc, world, package, part)
    } else {
        parts_at_once(alloc, world, package, part)
    }
}
