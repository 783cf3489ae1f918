//! What is made of a world that stays by the command of a command line. It is one request, at most.
ghost use Rattle.std.specs.Prelude.{IfOk};
ghost use Rattle.desk_http.specs.Connections.{IsServedBy};
ghost use Rattle.command_desk.specs.Deeds.{AreStrays, IsDone, IsLooked, IsNamedLooked, IsPackageLooked, ShowsLook};

use crate::carrying::{Report, carry_in};
use crate::frame_texts::tell_frame;
use command_folder::endings::Ending as CommandEnding;
use command_named::items::tell_item;
use command_named::looking::NamedLook;
use command_named::packages::{PackageLook, look_of};
use command_named::ways::tell_named_way;
use command_names::hints::Hint;
use command_ordering::boxes::{BoxedLoan, lend_box_in};
use command_ordering::naming::package_in;
use command_ordering::ordering::hint_order_in;
use command_ordering::orders::Purpose;
use command_requests::orders::Order;
use command_words::statuses::Outcome;
use commands::applying::apply_in;
use package_tables::fault::Fault;
use sqlite::Alter;
use std::alloc::Global;
use std::io::Write;
use store_shelf::shelf::Shelf;
use views::endings::Ending;
use views::looking::{Asked, Look, look_over, read_asked};
use views::showing::fault_ending;
use world::world::World;

/// What is done over a world, by words as they were typed.
#[derive(Clone, Copy)]
pub enum Deed<'t> {
    /// One request as JSON is carried out.
    Apply,
    /// This is looked at.
    Look(Asked<'t>),
    /// This is looked at, by the word that names it.
    Named(NamedLook<'t>),
    /// The request that a verb says is shown or carried out.
    Order(Order<'t>, Purpose),
    /// What covers a box is lent, or that request is shown.
    LendBox(BoxedLoan<'t>, Purpose),
    /// One request as JSON is carried out, and told as this part of a report.
    Carry(Report),
    /// The frame of the register is told.
    Frame,
}

/// How many stores of a folder with so many are of no live package.
fn strays_of<S: Alter + Drop>(alloc: Global, world: &World<S>, files: u64) -> Result<u64, Fault>
    ensures { IfOk result (AreStrays S.Store world.now files) }
{
    let sights = world.packages(alloc)?;
    Ok(files.saturating_sub(sights.len() as u64))
}

/// Prints a look. The folder has so many stores.
fn show_look<S: Alter + Drop, W: Write>(
    alloc: Global,
    world: &mut World<S>,
    files: u64,
    asked: &Look,
    writer: &mut W,
) -> Ending
    ensures { ShowsLook S.Store world.old world.new writer.old writer.new
        (W.contents writer.old) (W.contents writer.new) files asked.now result }
{
    match strays_of(alloc, world, files) {
        Ok(strays) => look_over(alloc, world, strays, asked, writer),
        Err(fault) => fault_ending(fault),
    }
}

/// Prints what words ask to look at. The folder has so many stores.
fn look<S: Alter + Drop, W: Write>(
    alloc: Global,
    world: &mut World<S>,
    files: u64,
    asked: Asked<'_>,
    writer: &mut W,
) -> Ending
    ensures { IsLooked S.Store world.old world.new writer.old writer.new
        (W.contents writer.old) (W.contents writer.new) files asked.entry result }
{
    match read_asked(asked) {
        Ok(look) => show_look(alloc, world, files, &look, writer),
        Err(what) => Ending::Usual(CommandEnding::Usual(Outcome::Refused(what))),
    }
}

/// Prints what is looked at of the live package that a word names.
fn look_at_package<'t, S: Alter + Drop, W: Write>(
    alloc: Global,
    world: &mut World<S>,
    what: PackageLook,
    word: &'t str,
    writer: &mut W,
) -> (Ending, Option<Hint<'t>>)
    ensures { IsPackageLooked S.Store world.old world.new writer.old writer.new
        (W.contents writer.old) (W.contents writer.new) (W.contents) what word.entry result.0 result.1 }
{
    let (named, hint) = package_in(alloc, world, word, writer);
    match named {
        Ok(id) => (look_over(alloc, world, 0, &look_of(what, id), writer), None),
        Err(ending) => (Ending::Usual(ending), hint),
    }
}

/// Prints what a word names.
fn look_by_name<'t, S: Alter + Drop, W: Write>(
    alloc: Global,
    world: &mut World<S>,
    asked: NamedLook<'t>,
    writer: &mut W,
) -> (Ending, Option<Hint<'t>>)
    ensures { IsNamedLooked S.Store world.old world.new writer.old writer.new
        (W.contents writer.old) (W.contents writer.new) (W.contents) asked.entry result.0 result.1 }
{
    match asked {
        NamedLook::Get(word) => tell_item(alloc, world, word, writer),
        NamedLook::Explain(form, word) => tell_named_way(alloc, world, form, word, writer),
        NamedLook::Manifest(word) => {
            look_at_package(alloc, world, PackageLook::Manifest, word, writer)
        }
        NamedLook::Export(word) => look_at_package(alloc, world, PackageLook::Export, word, writer),
    }
}

/// Carries out a deed over a world that stays, whose folder has so many stores, and over a standard input. What comes
/// nearest to a name that is none is told beside.
pub fn carry_out<'t, S: Alter + Drop, H: Shelf<S>, W: Write>(
    alloc: Global,
    world: &mut World<S>,
    shelf: &mut H,
    files: u64,
    deed: &Deed<'t>,
    input: &[u8],
    writer: &mut W,
) -> (Ending, Option<Hint<'t>>)
    ensures done { IsDone S.Store world.old world.new writer.old writer.new
        (W.contents writer.old) (W.contents writer.new) (W.contents) files input.now deed.now result.0 result.1 }
    ensures served { IsServedBy S.Store 1 world.old world.new }
{
    match deed {
        Deed::Apply => {
            let told = apply_in(alloc, world, shelf, input, writer);
            (Ending::Usual(told), None)
        }
        Deed::Look(asked) => (look(alloc, world, files, *asked, writer), None),
        Deed::Named(asked) => look_by_name(alloc, world, *asked, writer),
        Deed::Order(order, purpose) => {
            let (told, hint) = hint_order_in(alloc, world, shelf, order, *purpose, input, writer);
            (Ending::Usual(told), hint)
        }
        Deed::LendBox(boxed, purpose) => {
            let (told, hint) = lend_box_in(alloc, world, shelf, boxed, *purpose, writer);
            (Ending::Usual(told), hint)
        }
        Deed::Carry(report) => {
            let told = carry_in(alloc, world, shelf, *report, input, writer);
            (Ending::Usual(told), None)
        }
        Deed::Frame => {
            let told = tell_frame(alloc, world, writer);
            (Ending::Usual(told), None)
        }
    }
}
