//! One question, asked of each package of a world in turn. The world stays.
ghost use Rattle.std.specs.List.{AllZip};
ghost use Rattle.std.specs.Prelude.{◌≡◌, true, Err};
ghost use Rattle.sheet_types.specs.World.{holdings};
ghost use Rattle.package_tables.specs.declared.fault.Fault.TheVariants.{StoreFault};
ghost use Rattle.view_world.specs.Looks.{IsLookedAt, LeavesOpen};
ghost use Rattle.world.specs.Worlds.{IsRead, TellsOf};

use crate::usable::usable;
use package_tables::fault::Fault;
use sqlite::Alter;
use std::alloc::Global;
use uuid::Uuid;
use world::asking::Question;
use world::reading::PackageSight;
use world::world::World;

/// The answer of a package that the world listed.
fn ask_one<S: Alter + Drop, A: Drop, Q: Question<S, A>>(
    alloc: Global,
    world: &mut World<S>,
    package: Uuid,
    question: &Q,
) -> Result<A, Fault>
    ensures told { TellsOf S.Store (λ w x. Q.tells question.now (holdings w «package») x) world.old world.new
        result }
    ensures read { IsRead S.Store world.old world.new }
    ensures opens { LeavesOpen S.Store world.old world.new result }
{
    match world.ask(alloc, package, question)? {
        Some(answer) => Ok(answer),
        None => Err(Fault::StoreFault),
    }
}

/// The answers of packages that the world listed, in turn.
fn ask_among<S: Alter + Drop, A: Drop, Q: Question<S, A>>(
    alloc: Global,
    world: &mut World<S>,
    sights: &[PackageSight],
    question: &Q,
) -> Result<Vec<A>, Fault>
    ensures told { TellsOf S.Store
        (λ w answers. AllZip (λ s x. Q.tells question.now (holdings w s.uuid) x) sights.now answers.items)
        world.old world.new result }
    ensures read { IsLookedAt S.Store world.old world.new }
    ensures opens { LeavesOpen S.Store world.old world.new result }
{
    let mut answers = Vec::new(alloc);
    for sight in sights {
        let answer = ask_one(alloc, world, sight.uuid, question)?;
        answers.push(answer)?;
    }
    Ok(answers)
}

/// The answers of all packages of a world, by UUID.
///
/// # Errors
///
/// Want of memory, a store that failed, or a world that has: then no store is looked at. The world has not failed by
/// that.
pub fn ask_each<S: Alter + Drop, A: Drop, Q: Question<S, A>>(
    alloc: Global,
    world: &mut World<S>,
    question: &Q,
) -> Result<Vec<A>, Fault>
    ensures told { TellsOf S.Store (λ w answers. AllZip (Q.tells question.now) w.packages answers.items)
        world.old world.new result }
    ensures read { IsLookedAt S.Store world.old world.new }
    ensures opens { LeavesOpen S.Store world.old world.new result }
    ensures failed { world.old.has_failed ≡ true
        → (result ≡ Err StoreFault) × (world.new ≡ world.old) }
{
    usable(world)?;
    let sights = world.packages(alloc)?;
    ask_among(alloc, world, sights.as_slice(), question)
}
