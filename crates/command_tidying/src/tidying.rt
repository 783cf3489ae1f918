//! The files of a folder that its register can do without, taken out.
ghost use Rattle.std.specs.Prelude.{◌≡◌, ◌++◌, ◌∷◌, [], IfOk, OnErr, OnOk, map, string_bytes};
ghost use Rattle.command_tidying.specs.Tidying.{AreLeftovers, IsLeftoverFile, IsTidied, TakesOn};

use crate::register::Register;
use crate::yard::Yard;
use opening_strays::spent::is_spent;
use sheet_ledger::fitting::fits;
use std::alloc::Global;
use store_folder::fault::FolderFault;
use store_folder::leftovers::leftovers_in;
use store_folder::listing::listing_of;
use store_folder::names::file_name;
use uuid::Uuid;

/// What was taken out of a folder, and why no more was.
#[derive(Drop)]
pub struct Tidied {
    /// The names of the files, in the order in which they were taken out.
    pub names: Vec<String>,
    /// What failed, if something did.
    pub fault: Option<FolderFault>,
}

/// Takes a file out, and puts its name behind the others.
fn take_out<Y: Yard>(yard: &mut Y, names: &mut Vec<String>, name: String) -> Result<(), FolderFault>
    ensures removes { Y.removes (string_bytes name) yard.old yard.new }
    ensures ok { OnOk result (names.new.items ≡ names.old.items ++ name ∷ []) }
    ensures err { OnErr result (names.new.items ≡ names.old.items) }
{
    yard.remove_file(name.as_str())?;
    match names.push(name) {
        Ok(()) => Ok(()),
        Err(_) => Err(FolderFault::OutOfMemory),
    }
}

/// Takes the file of a package out, if the register can do without it.
fn take_spent<Y: Yard>(
    alloc: Global,
    yard: &mut Y,
    names: &mut Vec<String>,
    register: &Register,
    package: Uuid,
) -> Result<(), FolderFault>
    ensures { TakesOn Y.listed Y.shown Y.removes register.now names.old.items names.new.items yard.old yard.new result }
{
    let Some(seen) = yard.look(alloc, package)? else {
        return Ok(());
    };
    if !is_spent(package, &seen, &register.receipts, &register.live) {
        return Ok(());
    }
    let name = file_name(alloc, package)?;
    fits(package);
    take_out(yard, names, name)
}

/// The same of each of these packages that does not live.
fn take_spent_each<Y: Yard>(
    alloc: Global,
    yard: &mut Y,
    names: &mut Vec<String>,
    register: &Register,
    packages: &[Uuid],
) -> Result<(), FolderFault>
    ensures { TakesOn Y.listed Y.shown Y.removes register.now names.old.items names.new.items yard.old yard.new result }
{
    for package in packages {
        if !register.live.contains(package) {
            take_spent(alloc, yard, names, register, *package)?;
        }
    }
    Ok(())
}

/// Takes out a file that stands beside no package.
fn take_leftover<Y: Yard>(
    alloc: Global,
    yard: &mut Y,
    names: &mut Vec<String>,
    register: &Register,
    file: &str,
) -> Result<(), FolderFault>
    requires { IsLeftoverFile Y.listed Y.shown Y.removes file.now }
    ensures { TakesOn Y.listed Y.shown Y.removes register.now names.old.items names.new.items yard.old yard.new result }
{
    let name = String::from_str(alloc, file)?;
    take_out(yard, names, name)
}

/// The same of each of these files.
fn take_leftover_each<Y: Yard>(
    alloc: Global,
    yard: &mut Y,
    names: &mut Vec<String>,
    register: &Register,
    found: &[String],
) -> Result<(), FolderFault>
    requires { AreLeftovers Y.listed Y.shown Y.removes found.now }
    ensures { TakesOn Y.listed Y.shown Y.removes register.now names.old.items names.new.items yard.old yard.new result }
{
    for file in found {
        take_leftover(alloc, yard, names, register, file.as_str())?;
    }
    Ok(())
}

/// Takes out what stands beside no package.
fn take_leftovers<Y: Yard>(
    alloc: Global,
    yard: &mut Y,
    names: &mut Vec<String>,
    register: &Register,
) -> Result<(), FolderFault>
    ensures { TakesOn Y.listed Y.shown Y.removes register.now names.old.items names.new.items yard.old yard.new result }
{
    let bytes = yard.names(alloc)?;
    let found = leftovers_in(alloc, &bytes)?;
    take_leftover_each(alloc, yard, names, register, &found)
}

/// Takes out what the register can do without. First go the files of packages, and then what stood
/// beside them: a log without its database means nothing.
fn take_all<Y: Yard>(
    alloc: Global,
    yard: &mut Y,
    names: &mut Vec<String>,
    register: &Register,
) -> Result<(), FolderFault>
    ensures { TakesOn Y.listed Y.shown Y.removes register.now names.old.items names.new.items yard.old yard.new result }
{
    let bytes = yard.names(alloc)?;
    let listing = listing_of(alloc, &bytes)?;
    take_spent_each(alloc, yard, names, register, &listing.packages)?;
    take_leftovers(alloc, yard, names, register)
}

/// Takes out what this register can do without, and answers what that was.
pub fn tidy_by<Y: Yard>(alloc: Global, yard: &mut Y, register: &Register) -> Tidied
    ensures { IsTidied Y.listed Y.shown Y.removes register.now yard.old yard.new result }
{
    let mut names = Vec::new(alloc);
    let done = take_all(alloc, yard, &mut names, register);
    Tidied {
        names,
        fault: done.err(),
    }
}
