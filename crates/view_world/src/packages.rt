//! The live packages of a world.
ghost use Rattle.std.specs.Prelude.{◌≡◌, length, map, string_bytes, true, Err, IfOk, MatchResult, OnOk, Some};
ghost use Rattle.sheet_types.specs.World.{World as ModelWorld};
ghost use Rattle.sheet_types.specs.Answers.{sums_of};
ghost use Rattle.package_tables.specs.declared.fault.Fault.TheVariants.{StoreFault};
ghost use Rattle.view_history.specs.Stores.{AreAtRest, AsksStores};
ghost use Rattle.sheet_types.specs.World.{receipts_of};
ghost use Rattle.view_history.specs.Told.{moment_of};
ghost use Rattle.world.specs.Worlds.{StandsFor, TellsOf};
ghost use Rattle.view_world.specs.Kept.{AreAsked, AreKept};
ghost use Rattle.view_world.specs.Looks.{Asks, IsLookedAt, LeavesOpen, LooksInto};
ghost use Rattle.view_world.specs.Told.{package_rows, status_text};

use crate::asking::ask_each;
use crate::usable::{are_ready, usable};
use package_tables::fault::Fault;
use sheet_types::collections::Text;
use sheet_types::error::OutOfMemory;
use sheet_types::receipt::Sums;
use sqlite::{Alter, Connection};
use std::alloc::{AllocError, Global};
use view_history::loans::{LoanOf, loans_of};
use view_history::moments::{MomentOf, first_found, moments_of};
use view_json::forms::{Form, told_status};
use view_text::packages::PackageRow;
use world::reading::PackageSight;
use world::world::World;

/// What a world keeps of its packages, in their order.
#[derive(Drop)]
pub struct Kept {
    /// What the list of packages says of each.
    pub sights: Vec<PackageSight>,
    /// How much each of them holds.
    pub sums: Vec<Sums>,
}

/// How much each of these packages holds.
fn sums_of<S: Alter + Drop>(
    alloc: Global,
    world: &World<S>,
    sights: &[PackageSight],
) -> Result<Vec<Sums>, Fault>
    ensures { IfOk result (λ sums. (w : ModelWorld) → StandsFor S.Store world.now w
        → map (λ x. Some x) sums.items ≡ map (λ s. sums_of w s.uuid) sights.now) }
{
    let mut all = Vec::new(alloc);
    for at in 0..sights.len() {
        let Some(sums) = world.sums(sights[at].uuid) else {
            return Err(Fault::StoreFault);
        };
        all.push(sums)?;
    }
    Ok(all)
}

/// What a world that has not failed keeps of its packages. No store is looked at.
///
/// # Errors
///
/// Want of memory, or a world that has failed: that is a store fault.
pub fn kept_of<S: Alter + Drop>(alloc: Global, world: &World<S>) -> Result<Kept, Fault>
    ensures kept { IfOk result (λ kept. (w : ModelWorld) → StandsFor S.Store world.now w
        → AreKept w kept.sights.items kept.sums.items) }
    ensures failed { world.now.has_failed ≡ true → result ≡ Err StoreFault }
{
    usable(world)?;
    let sights = world.packages(alloc)?;
    let sums = sums_of(alloc, world, &sights)?;
    Ok(Kept { sights, sums })
}

/// The numbers of the last receipts of packages.
fn tickets_of(alloc: Global, sights: &[PackageSight]) -> Result<Vec<u64>, AllocError>
    ensures { IfOk result (λ tickets. tickets.items ≡ map (λ s. s.ticket) sights.now) }
{
    sights.iter().map(|sight| sight.ticket).collect(alloc)
}

/// A moment that may be none, on its own.
fn moment_of(moment: &Option<Text>) -> Result<Option<Text>, OutOfMemory>
    ensures { IfOk result (λ own. own ≡ moment.now) }
{
    match moment {
        Some(at) => Ok(Some(at.try_clone()?)),
        None => Ok(None),
    }
}

/// What the table says of each package.
fn rows_of(
    alloc: Global,
    sights: &[PackageSight],
    sums: &[Sums],
    loans: &[u64],
    moments: &[Option<Text>],
) -> Result<Vec<PackageRow>, Fault>
    ensures { IfOk result (λ rows. (w : ModelWorld) → AreKept w sights.now sums.now
        → AreAsked w loans.now moments.now → rows.items ≡ package_rows w) }
{
    let count = sights.len();
    if sums.len() != count || loans.len() != count || moments.len() != count {
        return Err(Fault::StoreFault);
    }
    let mut rows = Vec::new(alloc);
    for at in 0..count {
        let sight = sights[at];
        let Ok(changed) = moment_of(&moments[at]) else {
            return Err(Fault::OutOfMemory);
        };
        rows.push(PackageRow {
            uuid: sight.uuid,
            parent: sight.parent,
            depth: sight.depth,
            loan: loans[at],
            sums: sums[at],
            changed,
        })?;
    }
    Ok(rows)
}

/// What is told of the packages of these stores.
fn table_by<S: Alter + Drop>(
    kept: &Kept,
    stores: &mut Vec<Connection<S>>,
    alloc: Global,
    form: Form,
    strays: u64,
) -> Result<String, Fault>
    requires { AreAtRest S.Store stores.old.items }
    ensures { AsksStores S.Store (λ packages text. (w : ModelWorld) → packages ≡ w.packages
        → AreKept w kept.now.sights.items kept.now.sums.items
        → string_bytes text ≡ status_text form w strays) stores.old.items stores.new.items result }
{
    let loans = loans_of(stores, alloc)?;
    let tickets = tickets_of(alloc, &kept.sights)?;
    let moments = moments_of(stores, alloc, &tickets)?;
    let rows = rows_of(alloc, &kept.sights, &kept.sums, &loans, &moments)?;
    let text = told_status(alloc, form, &rows, strays)?;
    Ok(text)
}

/// The same, where there are as many stores as packages.
fn table_of<S: Alter + Drop>(
    kept: Result<Kept, Fault>,
    stores: &mut Vec<Connection<S>>,
    alloc: Global,
    form: Form,
    strays: u64,
) -> Result<String, Fault>
    ensures counted { OnOk result (MatchResult kept (λ k. length k.sights.items ≡ length stores.old.items)
        (λ fault. ⊥)) }
    ensures asked { Asks S.Store (λ packages text. (w : ModelWorld) → packages ≡ w.packages
        → IfOk kept (λ k. AreKept w k.sights.items k.sums.items)
        → string_bytes text ≡ status_text form w strays) stores.old.items stores.new.items result }
{
    let kept = kept?;
    if !are_ready(stores, kept.sights.len()) {
        return Err(Fault::StoreFault);
    }
    let text = table_by(&kept, stores, alloc, form, strays)?;
    Ok(text)
}

/// Each live package by UUID, on a line; and how many files are of none. The world ends with it; its stores are
/// handed on.
///
/// # Errors
///
/// Want of memory, a store that failed, or a world that has.
pub fn status_of<S: Alter + Drop>(
    alloc: Global,
    world: World<S>,
    form: Form,
    strays: u64,
) -> (Result<String, Fault>, Vec<Connection<S>>)
    ensures { LooksInto S.Store (λ w text. string_bytes text ≡ status_text form w strays) world
        result.1.items result.0 }
{
    let kept = kept_of(alloc, &world);
    let mut stores = world.into_stores();
    let text = table_of(kept, &mut stores, alloc, form, strays);
    (text, stores)
}

/// The moment of the receipt of a number, if there is one. Each package is asked by the key of its receipts.
fn moment_in<S: Alter + Drop>(
    alloc: Global,
    world: &mut World<S>,
    number: u64,
) -> Result<Option<Text>, Fault>
    ensures told { TellsOf S.Store (λ w found. found ≡ moment_of (receipts_of w) number) world.old world.new result }
    ensures read { IsLookedAt S.Store world.old world.new }
    ensures opens { LeavesOpen S.Store world.old world.new result }
{
    let found = ask_each(alloc, world, &MomentOf { number })?;
    Ok(first_found(found))
}

/// The same of each of these numbers, in turn.
fn moments_in<S: Alter + Drop>(
    alloc: Global,
    world: &mut World<S>,
    numbers: &[u64],
) -> Result<Vec<Option<Text>>, Fault>
    ensures told { TellsOf S.Store
        (λ w moments. moments.items ≡ map (moment_of (receipts_of w)) numbers.now) world.old
        world.new result }
    ensures read { IsLookedAt S.Store world.old world.new }
    ensures opens { LeavesOpen S.Store world.old world.new result }
{
    let mut moments = Vec::new(alloc);
    for at in 0..numbers.len() {
        let moment = moment_in(alloc, world, numbers[at])?;
        moments.push(moment)?;
    }
    Ok(moments)
}

/// The same table of a world that stays.
///
/// # Errors
///
/// Want of memory, a store that failed, or a world that has. The world has not failed by that.
pub fn status_text_in<S: Alter + Drop>(
    alloc: Global,
    world: &mut World<S>,
    form: Form,
    strays: u64,
) -> Result<String, Fault>
    ensures told { TellsOf S.Store (λ w text. string_bytes text ≡ status_text form w strays) world.old
        world.new result }
    ensures read { IsLookedAt S.Store world.old world.new }
    ensures opens { LeavesOpen S.Store world.old world.new result }
{
    let kept = kept_of(alloc, world)?;
    let loans: Vec<u64> = ask_each(alloc, world, &LoanOf)?;
    let tickets = tickets_of(alloc, &kept.sights)?;
    let moments = moments_in(alloc, world, &tickets)?;
    let rows = rows_of(alloc, &kept.sights, &kept.sums, &loans, &moments)?;
    let told = told_status(alloc, form, &rows, strays)?;
    Ok(told)
}
