//! The register that a page tells of, of a world.
ghost use Rattle.std.specs.Prelude.{◌≡◌, map, IfOk, IsTrue};
ghost use Rattle.sheet_types.specs.Ordered.{arranged};
ghost use Rattle.sheet_types.specs.World.{World as ModelWorld, receipts_of};
ghost use Rattle.command_requests.specs.Listing.{IsUntouched};
ghost use Rattle.sheet_types.specs.Matrix.{is_good_frame};
ghost use Rattle.view_page.specs.Registers.{IsRegisterOf, IsSeenOf, live_of, loan_key};
ghost use Rattle.view_world.specs.Kept.{AreKept};
ghost use Rattle.view_world.specs.Looks.{IsLookedAt};
ghost use Rattle.world.specs.Worlds.{TellsOf};

use crate::contents::{Contents, contents_among, in_depth};
use matrix_rules::check::FrameRules;
use package_tables::fault::Fault;
use sheet_types::frame::Frame;
use sheet_types::receipt::{Receipt, Sums};
use sqlite::Alter;
use std::alloc::{AllocError, Global};
use uuid::Uuid;
use view_history::loans::LoanOf;
use view_report::lists::{Names, Things};
use view_report::registers::{Live, Name, Register, number_of};
use view_world::asking::ask_each;
use view_world::ledgers::ledger_in;
use view_world::packages::{Kept, kept_of};
use world::reading::PackageSight;
use world::world::World;

/// The live packages, each with the number of the receipt that made it.
fn lives_of(
    alloc: Global,
    sights: &[PackageSight],
    sums: &[Sums],
    loans: &[u64],
    receipts: &[Receipt],
) -> Result<Vec<Live>, Fault>
    ensures { IfOk result (λ lives. (w : ModelWorld) → AreKept w sights.now sums.now
        → loans.now ≡ map (λ p. p.loan) w.packages → receipts.now ≡ receipts_of w
        → lives.items ≡ map (live_of w) w.packages) }
{
    let count = sights.len();
    if sums.len() != count || loans.len() != count {
        return Err(Fault::StoreFault);
    }
    let mut lives = Vec::new(alloc);
    for at in 0..count {
        let sight = sights[at];
        let loan = loans[at];
        lives.push(Live {
            uuid: sight.uuid,
            parent: sight.parent,
            depth: sight.depth,
            loan,
            number: number_of(receipts, loan),
            ticket: sight.ticket,
            sums: sums[at],
        })?;
    }
    Ok(lives)
}

/// The packages in the order of the receipts that made them.
fn in_order(lives: Vec<Live>) -> Result<Vec<Live>, AllocError>
    ensures { IfOk result (λ ordered. ordered.items ≡ arranged loan_key lives.items) }
{
    let mut ordered = lives;
    ordered.sort_by_key(|live: &Live| live.loan)?;
    Ok(ordered)
}

/// Whether a frame is good.
fn is_good(frame: &Frame) -> bool
    ensures { IsTrue result → IsTrue (is_good_frame frame.now) }
{
    frame.check().is_ok()
}

/// What a world keeps of its packages, and what they hold, lenders before their loans.
fn look_over<S: Alter + Drop>(
    alloc: Global,
    world: &mut World<S>,
) -> Result<(Kept, Contents), Fault>
    ensures told { TellsOf S.Store (λ w found. IsSeenOf w found.0 found.1) world.old world.new result }
    ensures read { IsUntouched S.Store world.old world.new }
{
    let kept = kept_of(alloc, world)?;
    let ordered = in_depth(alloc, kept.sights.as_slice())?;
    let contents = contents_among(alloc, world, ordered.as_slice())?;
    Ok((kept, contents))
}

/// The register by what was seen of a world, the splits that made its packages, and its receipts.
fn register_by(
    frame: Frame,
    seen: (Kept, Contents),
    names: Vec<Name>,
    alloc: Global,
    loans: &[u64],
    receipts: Vec<Receipt>,
) -> Result<Register, Fault>
    ensures so { IfOk result (λ r. (w : ModelWorld) → w.frame ≡ frame → IsSeenOf w seen.0 seen.1
        → loans.now ≡ map (λ p. p.loan) w.packages → receipts.items ≡ receipts_of w
        → IsRegisterOf w names.items r) }
    ensures framed { IfOk result (λ r. r.frame ≡ frame) }
{
    let (kept, contents) = seen;
    let lives = lives_of(alloc, &kept.sights, &kept.sums, loans, &receipts)?;
    let packages = in_order(lives)?;
    let Some(first) = packages.first() else {
        return Err(Fault::StoreFault);
    };
    let archive = first.uuid;
    let Contents { things, ties } = contents;
    let things = Things::new(things)?;
    let names = Names::new(names)?;
    Ok(Register {
        archive,
        frame,
        packages,
        things,
        ties,
        receipts,
        names,
    })
}

/// The numbers of the splits that made the packages of a world, by UUID; 0 of an archive.
fn loans_in<S: Alter + Drop>(alloc: Global, world: &mut World<S>) -> Result<Vec<u64>, Fault>
    ensures told { TellsOf S.Store (λ w loans. loans.items ≡ map (λ p. p.loan) w.packages)
        world.old world.new result }
    ensures read { IsLookedAt S.Store world.old world.new }
{
    ask_each(alloc, world, &LoanOf)
}

/// The register that a page tells of, of a world and with these names. The world stays. All receipts are in memory at
/// once, as they are while a world is opened.
///
/// # Errors
///
/// Want of memory, a store that failed, or a world that has. The world has not failed by that.
pub fn register_in<S: Alter + Drop>(
    alloc: Global,
    world: &mut World<S>,
    names: Vec<Name>,
) -> Result<Register, Fault>
    ensures told { TellsOf S.Store (λ w r. IsRegisterOf w names.items r) world.old world.new result }
    ensures read { IsLookedAt S.Store world.old world.new }
    ensures good { IfOk result (λ r. IsTrue (is_good_frame r.frame)) }
{
    let frame = world.frame();
    // The frame of a world is good, and is asked for that here since no call says so.
    if !is_good(&frame) {
        return Err(Fault::StoreFault);
    }
    let seen = look_over(alloc, world)?;
    let loans = loans_in(alloc, world)?;
    let receipts = ledger_in(alloc, world)?;
    register_by(frame, seen, names, alloc, &loans, receipts)
}
