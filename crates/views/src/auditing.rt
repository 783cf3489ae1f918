//! How many receipts a world has.
ghost use Rattle.std.specs.Prelude.{◌≡◌, IfOk, fold, max, string_bytes};
ghost use Rattle.sheet_types.specs.World.{World as ModelWorld};
ghost use Rattle.world.specs.Worlds.{StandsFor};
ghost use Rattle.views.specs.Reports.{good_line, last_receipt};
ghost use Rattle.views.specs.Reports.{Audits};
ghost use Rattle.command_folder.specs.declared.endings.Ending.TheVariants.{Faulted};
ghost use Rattle.command_folder.specs.declared.endings.OpenFault.TheVariants as unopened;

use command_folder::endings::{DONE, Ending, FAILED, OpenFault};
use manifest_csv::sending::send;
use opening_faults::faults::RecoverFault;
use package_tables::fault::Fault;
use sqlite::Alter;
use std::alloc::{AllocError, Global};
use std::io::Write;
use world::reading::PackageSight;
use world::world::World;

/// The number of the last receipt that names one of these packages, 0 where there is none.
fn last_ticket(sights: &[PackageSight]) -> u64
    ensures { result ≡ fold (λ n s. max n s.ticket) 0 sights.now }
{
    sights
        .iter()
        .fold(0, |last: u64, sight| last.max(sight.ticket))
}

/// The number of all receipts of a world, which is that of the last one: it names a package that is live since.
fn receipts_of<S: Alter + Drop>(alloc: Global, world: &World<S>) -> Result<u64, Fault>
    ensures { IfOk result (λ receipts. (w : ModelWorld) → StandsFor S.Store world.now w
        → receipts ≡ last_receipt w) }
{
    let sights = world.packages(alloc)?;
    Ok(last_ticket(sights.as_slice()))
}

/// The line that says that all is well, with so many receipts.
fn good_line(alloc: Global, receipts: u64) -> Result<String, AllocError>
    ensures { IfOk result (λ line. string_bytes line ≡ good_line receipts) }
{
    format!(in alloc; "good {receipts}\n")
}

/// What gave out, as an audit tells it.
fn audit_ending(fault: RecoverFault) -> Ending
    ensures { result ≡ Faulted (unopened.Fault fault) }
{
    Ending::Faulted(OpenFault::Fault(fault))
}

/// Writes the line of a world whose packages are good.
pub fn audit_in<S: Alter + Drop, W: Write>(
    alloc: Global,
    world: &World<S>,
    writer: &mut W,
) -> Ending
    ensures { Audits S.Store world.now writer.old writer.new (W.contents writer.old) (W.contents writer.new) result }
{
    let receipts = match receipts_of(alloc, world) {
        Ok(receipts) => receipts,
        Err(Fault::OutOfMemory) => return audit_ending(RecoverFault::OutOfMemory),
        Err(Fault::StoreFault) => return audit_ending(RecoverFault::StoreFault),
    };
    let Ok(line) = good_line(alloc, receipts) else {
        return audit_ending(RecoverFault::OutOfMemory);
    };
    match send(writer, line.as_bytes()) {
        Ok(()) => DONE,
        Err(_) => FAILED,
    }
}
