//! The requests that make a package of a world hold what a file holds, or why there are none.
ghost use Rattle.std.specs.Prelude.{◌≡◌, [], IfOk, IfSome, IfNone, IsTrue, true, false};
ghost use Rattle.std.specs.Option.{option_map};
ghost use Rattle.sheet_types.specs.Custody.{ticket};
ghost use Rattle.sheet_types.specs.Matrix.{is_good_frame};
ghost use Rattle.sheet_types.specs.Ordered.{entry};
ghost use Rattle.sheet_types.specs.World.{World as ModelWorld, is_live};
ghost use Rattle.world.specs.declared.reading.PackageSight.{PackageSight as ListedSight};
ghost use Rattle.world.specs.Worlds.{IsRead, StandsFor, TellsOf};
ghost use Rattle.command_requests.specs.Listing.{IsUntouched};
ghost use Rattle.field_faults.specs.Lines.{fault_lines};
ghost use Rattle.field_faults.specs.declared.heads.HeadFault.{HeadFault};
ghost use Rattle.command_field.specs.Answers.{AnswersBy, AnswersFile, AnswersGiven, AnswersLines, AnswersText};
ghost use Rattle.command_field.specs.Answers.{AnswersLive, AreHeldIn, AsksNoMerge, IsSeen, IsTakenOf, StaysFree};
ghost use Rattle.command_field.specs.Answers.{head_answer};

use crate::freedom::{Taken, taken_in};
use field_changes::changes::{Holdings, Unasked, changes};
use field_changes::held::Held;
use field_changes::ids::Asker;
use field_changes::known::Known;
use field_faults::files::held_of;
use field_faults::heads::{HeadFault, head_fault};
use field_faults::lines::{Judge, fault_lines};
use field_lists::entries::Listed;
use field_lists::lists::{ListFault, read_entries};
use package_tables::fault::Fault;
use request_csv::sources::Stream;
use sheet_types::command::{Item, Relation, Request};
use sheet_types::frame::Frame;
use sqlite::Alter;
use std::alloc::Global;
use std::io::Read;
use uuid::Uuid;
use world::reading::PackageSight;
use world::world::World;

/// Which package is to hold what a file holds, and at which moment. With `more` nothing is taken away.
#[derive(Clone, Copy)]
pub struct Ask<'a> {
    pub package: Uuid,
    pub at: &'a str,
    pub more: bool,
}

/// What is answered of a file.
#[derive(Drop)]
pub enum Answer {
    /// The requests.
    Asked(Vec<Request>),
    /// The package is not live.
    NoSuchPackage,
    /// The text is no whole list of what a file holds.
    NoList,
    /// The file is the export of another package, or of none.
    OtherPackage,
    /// It is the export of the package at another ticket than this one.
    Stale(u64),
    /// Its points have another system.
    OtherSystem,
    /// Its tiles have another grid.
    OtherFrame,
    /// The package cannot hold some of its records: a line for each.
    Items(String),
    /// Two new items were given one identity.
    TwoAlike,
    /// The requests ask for something that is not free.
    NotFree(Taken),
}

/// What the list of packages says of one.
fn sight_among(sights: &[PackageSight], package: Uuid) -> Option<&PackageSight>
    ensures { option_map (λ s. s.now) result ≡ entry (λ (s : ListedSight). s.uuid) «package» sights.now }
{
    sights.iter().find(|sight| sight.uuid == package)
}

/// The number of the last receipt of a package; `None` where it is not live.
fn ticket_of<S: Alter + Drop>(
    alloc: Global,
    world: &World<S>,
    package: Uuid,
) -> Result<Option<u64>, Fault>
    ensures some { IfOk result (λ found. IfSome found (λ number. (w : ModelWorld) → StandsFor S.Store world.now w
        → (is_live w «package» ≡ true) × (number ≡ ticket w «package»))) }
    ensures none { IfOk result (λ found. IfNone found ((w : ModelWorld) → StandsFor S.Store world.now w
        → is_live w «package» ≡ false)) }
{
    let sights = world.packages(alloc)?;
    match sight_among(sights.as_slice(), package) {
        Some(sight) => Ok(Some(sight.ticket)),
        None => Ok(None),
    }
}

/// The requests for a file whose every record the package can hold.
fn answer_by(
    alloc: Global,
    asker: &Asker<'_>,
    holdings: &Holdings<'_>,
    more: bool,
    held: Held<'_>,
) -> Result<Answer, Fault>
    ensures { IfOk result (AnswersBy asker.now.package asker.now.ticket asker.now.at.now holdings.now.items.now
        holdings.now.links.now more held.entry) }
{
    let Held { items, links, .. } = held;
    match changes(alloc, asker, holdings, more, items, links.as_slice()) {
        Ok(requests) => Ok(Answer::Asked(requests)),
        Err(Unasked::List) => Ok(Answer::NoList),
        Err(Unasked::Identity) => Ok(Answer::TwoAlike),
        Err(Unasked::Memory) => Err(Fault::OutOfMemory),
    }
}

/// The same of any file of this package as it is: it is asked of each record first.
fn answer_with(
    alloc: Global,
    frame: &Frame,
    asker: &Asker<'_>,
    holdings: &Holdings<'_>,
    more: bool,
    held: Held<'_>,
) -> Result<Answer, Fault>
    requires { IsTrue (is_good_frame frame.now) }
    ensures { IfOk result (AnswersLines (fault_lines frame.now holdings.now.items.now more held.entry)
        asker.now.package asker.now.ticket asker.now.at.now holdings.now.items.now holdings.now.links.now more
        held.entry) }
{
    let judge = Judge {
        frame,
        items: holdings.items,
        more,
    };
    let Ok(lines) = fault_lines(alloc, &judge, &held) else {
        return Err(Fault::OutOfMemory);
    };
    if lines.is_empty() {
        answer_by(alloc, asker, holdings, more, held)
    } else {
        Ok(Answer::Items(lines))
    }
}

/// What a file is refused by that is none of this package as it is.
fn head_answer(ticket: u64, fault: HeadFault) -> Answer
    ensures { result ≡ head_answer ticket fault }
{
    match fault {
        HeadFault::OtherPackage => Answer::OtherPackage,
        HeadFault::Stale => Answer::Stale(ticket),
        HeadFault::OtherSystem => Answer::OtherSystem,
        HeadFault::OtherFrame => Answer::OtherFrame,
    }
}

/// What is answered of a file for a package of this frame and ticket, which holds this.
fn answer_given(
    alloc: Global,
    frame: &Frame,
    ask: &Ask<'_>,
    ticket: u64,
    holdings: &Holdings<'_>,
    held: Held<'_>,
) -> Result<Answer, Fault>
    requires { IsTrue (is_good_frame frame.now) }
    ensures { IfOk result (AnswersGiven frame.now ask.now ticket holdings.now.items.now holdings.now.links.now
        held.entry) }
{
    if let Some(fault) = head_fault(ask.package, ticket, frame, ask.more, &held) {
        return Ok(head_answer(ticket, fault));
    }
    let asker = Asker {
        package: ask.package,
        ticket,
        at: ask.at,
    };
    answer_with(alloc, frame, &asker, holdings, ask.more, held)
}

/// What the requests of an answer ask for that is not free, for a package that holds this.
fn taken_of<S: Alter + Drop>(
    alloc: Global,
    world: &mut World<S>,
    holdings: &Holdings<'_>,
    first: &Answer,
) -> Result<Option<Taken>, Fault>
    ensures told { TellsOf S.Store (λ w found. IsTakenOf w holdings.now.items.now holdings.now.links.now first.now
        found) world.old world.new result }
    ensures read { IsUntouched S.Store world.old world.new }
{
    match first {
        Answer::Asked(requests) => taken_in(alloc, world, holdings, requests.as_slice()),
        Answer::NoSuchPackage
        | Answer::NoList
        | Answer::OtherPackage
        | Answer::Stale(_)
        | Answer::OtherSystem
        | Answer::OtherFrame
        | Answer::Items(_)
        | Answer::TwoAlike
        | Answer::NotFree(_) => Ok(None),
    }
}

/// An answer as it is where its requests are free in the world; else what is taken.
fn keep_free<S: Alter + Drop>(
    alloc: Global,
    world: &mut World<S>,
    holdings: &Holdings<'_>,
    first: Answer,
) -> Result<Answer, Fault>
    ensures told { TellsOf S.Store (λ w answer. StaysFree w holdings.now.items.now holdings.now.links.now first
        answer) world.old world.new result }
    ensures merges { IfOk result (λ answer. AsksNoMerge first → AsksNoMerge answer) }
    ensures read { IsUntouched S.Store world.old world.new }
{
    match taken_of(alloc, world, holdings, &first)? {
        Some(taken) => Ok(Answer::NotFree(taken)),
        None => Ok(first),
    }
}

/// What is answered of a file for a live package of a world, which holds this. The world is only read.
fn answer_in<S: Alter + Drop>(
    alloc: Global,
    world: &mut World<S>,
    ask: &Ask<'_>,
    number: u64,
    holdings: &Holdings<'_>,
    held: Held<'_>,
) -> Result<Answer, Fault>
    ensures told { TellsOf S.Store (λ w answer. IsSeen w ask.now.package number
        (holdings.now.items.now, holdings.now.links.now)
        → AnswersFile w ask.now held.entry answer) world.old world.new result }
    ensures merges { IfOk result AsksNoMerge }
    ensures read { IsUntouched S.Store world.old world.new }
{
    if world.has_failed() {
        return Err(Fault::StoreFault);
    }
    let frame = world.frame();
    let first = answer_given(alloc, &frame, ask, number, holdings, held)?;
    keep_free(alloc, world, holdings, first)
}

/// What the text of a reader lists; `None` where it is no list. What these items hold too is held
/// once.
fn held_in<'a, R: Read + Drop>(
    alloc: Global,
    items: &'a [Item],
    reader: R,
) -> Result<Option<Held<'a>>, Fault>
    ensures { IfOk result (AreHeldIn (R.remaining reader)) }
{
    let Ok(known) = Known::of(alloc, items) else {
        return Err(Fault::OutOfMemory);
    };
    let entries = match read_entries(alloc, Stream(reader), &known) {
        Ok(entries) => entries,
        Err(ListFault::Memory) => return Err(Fault::OutOfMemory),
        Err(_) => return Ok(None),
    };
    match held_of(alloc, entries) {
        Ok(held) => Ok(held),
        Err(_) => Err(Fault::OutOfMemory),
    }
}

/// What is answered of a list, which a reader gives, for a live package of a world, which holds this.
fn answer_listed<S: Alter + Drop, R: Read + Drop>(
    alloc: Global,
    world: &mut World<S>,
    ask: &Ask<'_>,
    number: u64,
    holdings: &Holdings<'_>,
    reader: R,
) -> Result<Answer, Fault>
    ensures told { TellsOf S.Store (λ w answer. IsSeen w ask.now.package number
        (holdings.now.items.now, holdings.now.links.now)
        → AnswersLive w ask.now (R.remaining reader) answer) world.old world.new result }
    ensures merges { IfOk result AsksNoMerge }
    ensures read { IsUntouched S.Store world.old world.new }
{
    match held_in(alloc, holdings.items, reader)? {
        Some(held) => answer_in(alloc, world, ask, number, holdings, held),
        None => Ok(Answer::NoList),
    }
}

/// What is answered of a list of what a file holds, which a reader gives. Whether the package is
/// live is asked before anything is read. The world is only read.
///
/// The package is read before the list. So the contents of the list take the room that the rows of
/// the package left. Of an item that both have, memory holds the content of the package alone.
///
/// # Errors
///
/// Want of memory, a store that failed, or a world that has.
pub fn answer_of<S: Alter + Drop, R: Read + Drop>(
    alloc: Global,
    world: &mut World<S>,
    ask: &Ask<'_>,
    reader: R,
) -> Result<Answer, Fault>
    ensures told { TellsOf S.Store (λ w answer. AnswersText w ask.now (R.remaining reader) answer) world.old world.new
        result }
    ensures merges { IfOk result AsksNoMerge }
    ensures read { IsUntouched S.Store world.old world.new }
{
    let Some(ticket) = ticket_of(alloc, world, ask.package)? else {
        return Ok(Answer::NoSuchPackage);
    };
    let Some((items, links)) = world.holdings(alloc, ask.package)? else {
        return Err(Fault::StoreFault);
    };
    let holdings = Holdings {
        items: items.as_slice(),
        links: links.as_slice(),
    };
    answer_listed(alloc, world, ask, ticket, &holdings, reader)
}
