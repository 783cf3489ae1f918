//! A request list, carried out in a world.
ghost use Rattle.std.specs.Prelude.{◌≡◌, Err, IfErr};
ghost use Rattle.commands.specs.Subcommands.{EndsImport, EndsTwice, ImportsFile, IsUnlisted, import_ending};
ghost use Rattle.commands.specs.Subcommands.{twice_ending};

use command_folder::endings::{DONE, Ending, FAILED, NO_MEMORY};
use command_notes::faults::is_read_twice;
use command_words::statuses::{Failure, Outcome};
use manifest_csv::importing::{ImportFault, import as import_list};
use manifest_csv::progress::Teller;
use request_csv::lists::ReadFault;
use request_csv::sources::Stream;
use request_imports::twice::{TwiceFault, import_twice};
use sqlite::Alter;
use std::alloc::Global;
use std::fs::File;
use std::io::{ErrorKind, Read, Write};
use store_shelf::shelf::Shelf;
use world::world::World;

/// How an import ends the program, unless it went through.
fn end_of_import(fault: ImportFault) -> Ending
    ensures { result ≡ import_ending (Err fault) }
{
    match fault {
        ImportFault::Unread(ReadFault::Memory) => NO_MEMORY,
        ImportFault::Unread(fault) => Ending::Unlisted(fault),
        ImportFault::Stopped(_, fault) => Ending::Usual(Outcome::Stopped(Failure::from(fault))),
        ImportFault::Unwritten => FAILED,
    }
}

/// Carries out the request list of a reader in a world, and writes its report.
pub fn import_in<S: Alter + Drop, H: Shelf<S>, R: Read + Drop, W: Write, T: Teller>(
    alloc: Global,
    world: &mut World<S>,
    shelf: &mut H,
    reader: R,
    writer: &mut W,
    teller: &mut T,
) -> Ending
    ensures { EndsImport S.Store (R.remaining reader) world.old world.new
        (H.failures_of shelf.old) (H.failures_of shelf.new)
        writer.old writer.new (W.contents writer.old) (W.contents writer.new) result }
{
    match import_list(alloc, world, shelf, reader, writer, teller) {
        Ok(()) => DONE,
        Err(fault) => end_of_import(fault),
    }
}

/// A file, opened. One that cannot be is no list.
fn open_list(rt: &HostRuntime, file: &str) -> Result<File, Ending>
    ensures { IfErr result IsUnlisted }
{
    match File::open(rt, file) {
        Ok(reader) => Ok(reader),
        Err(error) => {
            if error.kind() == ErrorKind::OutOfMemory {
                Err(NO_MEMORY)
            } else {
                Err(Ending::Unlisted(ReadFault::Read))
            }
        }
    }
}

/// How an import of a list that is read twice ends the program, unless it went through.
fn end_of_twice(fault: TwiceFault) -> Ending
    ensures { result ≡ twice_ending (Err fault) }
{
    match fault {
        TwiceFault::Import(fault) => end_of_import(fault),
        TwiceFault::Broken(_, ReadFault::Memory) => NO_MEMORY,
        TwiceFault::Broken(_, _) | TwiceFault::Changed(_) => FAILED,
    }
}

/// Says on standard error how far an import came whose list was another one at its second reading.
fn tell_changed(rt: &HostRuntime, fault: TwiceFault) {
    match fault {
        TwiceFault::Changed(done) | TwiceFault::Broken(done, _) => {
            let _printed = eprintln!(rt;
                "list: the second reading had another list than the first: {done} requests were carried out"
            );
        }
        TwiceFault::Import(_) => {}
    }
}

/// Carries out the request list of two readers of one file in a world, and writes its report.
fn import_twice_in<S: Alter + Drop, H: Shelf<S>, R: Read + Drop, W: Write, T: Teller>(
    rt: &HostRuntime,
    world: &mut World<S>,
    shelf: &mut H,
    first: R,
    second: R,
    writer: &mut W,
    teller: &mut T,
) -> Ending
    ensures { EndsTwice S.Store (R.remaining first) (R.remaining second) world.old world.new
        (H.failures_of shelf.old) (H.failures_of shelf.new)
        writer.old writer.new (W.contents writer.old) (W.contents writer.new) result }
{
    match import_twice(
        rt.alloc(),
        world,
        shelf,
        Stream(first),
        Stream(second),
        writer,
        teller,
    ) {
        Ok(()) => DONE,
        Err(fault) => {
            tell_changed(rt, fault);
            end_of_twice(fault)
        }
    }
}

/// Carries out the list of a file that is open for the first reading, and opens it again for the second.
fn import_again<S: Alter + Drop, H: Shelf<S>, W: Write, T: Teller>(
    rt: &HostRuntime,
    world: &mut World<S>,
    shelf: &mut H,
    file: &str,
    first: File,
    writer: &mut W,
    teller: &mut T,
) -> Ending
    ensures { ImportsFile S.Store world.old world.new writer.old writer.new
        (W.contents writer.old) (W.contents writer.new) result }
{
    match open_list(rt, file) {
        Ok(second) => import_twice_in(rt, world, shelf, first, second, writer, teller),
        Err(ending) => ending,
    }
}

/// The same of the list of a file, which is read twice where it can be. A file that cannot be opened is no list.
pub(crate) fn import_file<S: Alter + Drop, H: Shelf<S>, W: Write, T: Teller>(
    rt: &HostRuntime,
    world: &mut World<S>,
    shelf: &mut H,
    file: &str,
    writer: &mut W,
    teller: &mut T,
) -> Ending
    ensures { ImportsFile S.Store world.old world.new writer.old writer.new (W.contents writer.old)
        (W.contents writer.new) result }
{
    let reader = match open_list(rt, file) {
        Ok(reader) => reader,
        Err(ending) => return ending,
    };
    if is_read_twice(rt, file) {
        return import_again(rt, world, shelf, file, reader, writer, teller);
    }
    import_in(rt.alloc(), world, shelf, reader, writer, teller)
}
