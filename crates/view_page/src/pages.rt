//! The page of a world, written out.
ghost use Rattle.std.specs.Prelude.{◌≡◌, IfOk, IsOkAnd, IsTrue, option_map, string_bytes};
ghost use Rattle.sheet_types.specs.Matrix.{is_good_frame};
ghost use Rattle.view_page.specs.Pages.{
  IsPaper,
  IsPaperOf,
  OpensPage,
  ShowsFault,
  ShowsOver,
  ShowsPage,
  ShowsText,
  as_bytes,
  page_of_fault,
  text_of_fault,
};
ghost use Rattle.view_world.specs.Looks.{IsLookedAt};
ghost use Rattle.world.specs.Worlds.{TellsOf};

use crate::registers::register_in;
use command_folder::endings::{DONE, Ending, NO_MEMORY, OpenFault};
use command_folder::folders::{OpenFolder, open_folder};
use command_folder::printing::print;
use command_words::statuses::{Failure, Outcome};
use package_tables::fault::Fault;
use sheet_types::error::OutOfMemory;
use sqlite::{Alter, Connection};
use sqlite_trees::store::Store;
use std::alloc::{AllocError, Global};
use std::io::Write;
use store_folder::opening::close_stores;
use store_folder::start::FolderStore;
use uuid::Uuid;
use view_drawing::drawings::drawing_text;
use view_fault::pages::fault_page;
use view_loan::pages::loan_page;
use view_report::pages::page_text;
use view_report::registers::{Name, Register};
use world::world::World;

/// What is asked of a register.
#[derive(Clone, Copy, PartialEq, Eq)]
pub enum Paper {
    /// Its page.
    Whole,
    /// The custody page of the loan of this UUID.
    Loan(Uuid),
    /// Its map alone, as SVG.
    Map,
}

/// What is asked of a register; none where it is of no loan that lives.
fn asked_of(alloc: Global, register: Register, paper: Paper) -> Result<Option<String>, OutOfMemory>
    requires { IsTrue (is_good_frame register.frame) }
    ensures { IfOk result (λ found. IsPaper register paper (option_map string_bytes found)) }
{
    match paper {
        Paper::Whole => {
            let text = page_text(alloc, &register)?;
            Ok(Some(text))
        }
        Paper::Loan(loan) => loan_page(alloc, register, loan),
        Paper::Map => {
            let text = drawing_text(alloc, &register)?;
            Ok(Some(text))
        }
    }
}

/// The same, where there is a register.
fn text_of(
    alloc: Global,
    register: Result<Register, Fault>,
    paper: Paper,
) -> Result<Option<String>, Fault>
    requires { IfOk register (λ r. IsTrue (is_good_frame r.frame)) }
    ensures { IfOk result (λ found. IsOkAnd register (λ r. IsPaper r paper (option_map string_bytes found))) }
{
    let register = register?;
    match asked_of(alloc, register, paper) {
        Ok(found) => Ok(found),
        Err(_) => Err(Fault::OutOfMemory),
    }
}

/// What is asked of a world, with these names; none where it is of no loan that lives. The world stays.
///
/// # Errors
///
/// Want of memory, a store that failed, or a world that has. The world has not failed by that.
pub fn page_in<S: Alter + Drop>(
    alloc: Global,
    world: &mut World<S>,
    names: Vec<Name>,
    paper: Paper,
) -> Result<Option<String>, Fault>
    ensures told { TellsOf S.Store (λ w found. IsPaperOf w names.items paper (option_map string_bytes found))
        world.old world.new result }
    ensures read { IsLookedAt S.Store world.old world.new }
{
    let register = register_in(alloc, world, names);
    text_of(alloc, register, paper)
}

/// Writes what was asked, or tells that there is no such loan, or what gave out.
fn show<W: Write>(writer: &mut W, found: Result<Option<String>, Fault>) -> Ending
    ensures { ShowsText (as_bytes string_bytes found) writer.old writer.new (W.contents writer.old)
        (W.contents writer.new) result }
{
    match found {
        Ok(Some(text)) => print(writer, text.as_str(), DONE),
        Ok(None) => Ending::NoSuchPackage,
        Err(fault) => Ending::Usual(Outcome::Stopped(Failure::from(fault))),
    }
}

/// Writes what is asked of a world, which stays.
pub fn report_over<S: Alter + Drop, W: Write>(
    alloc: Global,
    world: &mut World<S>,
    names: Vec<Name>,
    paper: Paper,
    writer: &mut W,
) -> Ending
    ensures { ShowsOver S.Store names.items paper world.old world.new writer.old writer.new
        (W.contents writer.old) (W.contents writer.new) result }
{
    let found = page_in(alloc, world, names, paper);
    show(writer, found)
}

/// The same of a world that ends with it; its stores are handed on.
pub fn report_in<S: Alter + Drop, W: Write>(
    alloc: Global,
    mut world: World<S>,
    names: Vec<Name>,
    paper: Paper,
    writer: &mut W,
) -> (Ending, Vec<Connection<S>>)
    ensures { ShowsPage S.Store names.items paper world result.1.items writer.old writer.new
        (W.contents writer.old) (W.contents writer.new) result.0 }
{
    let ending = report_over(alloc, &mut world, names, paper, writer);
    (ending, world.into_stores())
}

/// The page of a folder that is not opened, where its stores stand for no world.
fn text_of_fault(alloc: Global, fault: &OpenFault) -> Result<Option<String>, AllocError>
    ensures { IfOk result (λ found. option_map string_bytes found ≡ text_of_fault fault.now) }
{
    match fault {
        OpenFault::Folder(_) => Ok(None),
        OpenFault::Fault(fault) | OpenFault::Numbered(fault, _) => fault_page(alloc, *fault),
    }
}

/// The same, where a page was asked for; there is no map of a folder that is not opened.
fn page_of_fault(
    alloc: Global,
    paper: Paper,
    fault: &OpenFault,
) -> Result<Option<String>, AllocError>
    ensures { IfOk result (λ found. option_map string_bytes found ≡ page_of_fault paper fault.now) }
{
    match paper {
        Paper::Whole | Paper::Loan(_) => text_of_fault(alloc, fault),
        Paper::Map => Ok(None),
    }
}

/// Writes the page of a folder that is not opened, where a page was asked for.
pub fn show_fault<W: Write>(
    alloc: Global,
    paper: Paper,
    fault: &OpenFault,
    writer: &mut W,
) -> Ending
    ensures { ShowsFault paper fault.now writer.old writer.new
        (W.contents writer.old) (W.contents writer.new) result }
{
    match page_of_fault(alloc, paper, fault) {
        Ok(Some(text)) => print(writer, text.as_str(), Ending::Unopened(*fault)),
        Ok(None) => Ending::Unopened(*fault),
        Err(_) => NO_MEMORY,
    }
}

/// Opens a folder, and writes what is asked of its register.
pub fn report_for<W: Write>(
    rt: &HostRuntime,
    folder: &str,
    names: Vec<Name>,
    paper: Paper,
    writer: &mut W,
) -> Ending
    ensures { OpensPage ⟦<FolderStore as Store>⟧ names.items paper writer.old writer.new (W.contents writer.old)
        (W.contents writer.new) result }
{
    match open_folder(rt, folder) {
        Ok(
            OpenFolder {
                world,
                lock: _lock,
                ..
            },
        ) => {
            let (ending, stores) = report_in(rt.alloc(), world, names, paper, writer);
            close_stores(stores);
            ending
        }
        Err(fault) => show_fault(rt.alloc(), paper, &fault, writer),
    }
}
