//! How a call of the program on a folder ends: its exit status, and the lines that it prints before.
ghost use Rattle.std.specs.Prelude.{◌≡◌, IfOk, string_bytes};
ghost use Rattle.command_folder.specs.Endings.{ending_status, error_text, fault_line, note_text, open_note};
ghost use Rattle.command_folder.specs.Endings.{output_text, store_line, told_as, told_folder};

use command_faults::texts::{fault_text, fault_text_at, list_text, record_text, refusal_text};
use command_words::statuses::{
    Failure, Outcome, error_of as outcome_error, output_of as outcome_output,
    status_of as outcome_status,
};
use opening_faults::faults::RecoverFault;
use request_csv::lists::ReadFault;
use sheet_types::refusal::Refusal;
use std::alloc::{AllocError, Global};
use store_folder::fault::{FolderFault, cause_text};

/// Why the files of a folder are no world.
#[derive(Clone, Copy, Debug, PartialEq, Eq)]
pub enum OpenFault {
    /// The folder or a file in it could not be had.
    Folder(FolderFault),
    /// The stores stand for no world, or memory or a file gave out.
    Fault(RecoverFault),
    /// The stores stand for no world, and the receipt of this number names the package or the item that is at fault.
    Numbered(RecoverFault, u64),
}

impl From<FolderFault> for OpenFault {
    ghost use Rattle.command_folder.specs.declared.endings.OpenFault.TheVariants.{Folder};

    ghost from_gives = { λ fault met. met ≡ Folder fault };

    fn from(fault: FolderFault) -> OpenFault {
        OpenFault::Folder(fault)
    }
}

/// The end of a call of the program on a folder.
#[derive(Clone, Copy, PartialEq, Eq)]
pub enum Ending {
    /// As a rehearsal ends too: all was done, a word or a list was refused, or memory or a store gave out.
    Usual(Outcome),
    /// The body is no request. Nothing was done.
    BadBody,
    /// The name of a file in the folder ends in `.gpkg`. Nothing was done.
    HoldsPackages,
    /// The package is not live.
    NoSuchPackage,
    /// The request was refused, and the refusal is printed.
    Declined(Refusal),
    /// The request of this record of a list was refused, and its line is printed. The list goes on.
    RecordDeclined(u64, Refusal),
    /// The words say no request, and why is printed. Nothing was done.
    NoRequest,
    /// The file is no list. Nothing was done.
    Unlisted(ReadFault),
    /// The folder could not be opened. Nothing was done.
    Unopened(OpenFault),
    /// An audit met this fault.
    Faulted(OpenFault),
}

/// All was done, and what it prints is printed.
pub const DONE: Ending = Ending::Usual(Outcome::Done);

/// A file or a stream gave out.
pub const FAILED: Ending = Ending::Usual(Outcome::Stopped(Failure::StoreFault));

/// A growth was refused.
pub const NO_MEMORY: Ending = Ending::Usual(Outcome::Stopped(Failure::OutOfMemory));

/// The exit status: 0 done, 1 refused, 3 stopped. A wrong usage, which ends before there is an ending, has 2.
pub fn status_of(ending: Ending) -> u8
    ensures { result ≡ ending_status ending }
{
    match ending {
        Ending::Usual(outcome) => outcome_status(outcome),
        Ending::RecordDeclined(_, _) => 0,
        Ending::BadBody
        | Ending::HoldsPackages
        | Ending::NoSuchPackage
        | Ending::Declined(_)
        | Ending::NoRequest
        | Ending::Unlisted(_) => 1,
        Ending::Unopened(_) | Ending::Faulted(_) => 3,
    }
}

/// The fault by which a folder that could not be had is told: what is known of the cause is told beside it.
fn told_folder(fault: FolderFault) -> RecoverFault
    ensures { result ≡ told_folder fault }
{
    match fault {
        FolderFault::OutOfMemory => RecoverFault::OutOfMemory,
        _ => RecoverFault::StoreFault,
    }
}

/// The fault by which a folder that is not opened is told.
fn told_fault(fault: OpenFault) -> RecoverFault
    ensures { result ≡ told_as fault }
{
    match fault {
        OpenFault::Folder(fault) => told_folder(fault),
        OpenFault::Fault(fault) | OpenFault::Numbered(fault, _) => fault,
    }
}

/// The name of a fault as a line.
fn fault_line(fault: RecoverFault) -> &'static str
    ensures { result.now ≡ fault_line fault }
{
    match fault {
        RecoverFault::NoArchive => "NoArchive\n",
        RecoverFault::TwoArchives => "TwoArchives\n",
        RecoverFault::NotAPackage(_) => "NotAPackage\n",
        RecoverFault::TwoCopies(_) => "TwoCopies\n",
        RecoverFault::MissingPackage(_) => "MissingPackage\n",
        RecoverFault::ForeignFrame(_) => "ForeignFrame\n",
        RecoverFault::Dangling(_) => "Dangling\n",
        RecoverFault::OutOfAccount => "OutOfAccount\n",
        RecoverFault::Altered(_) => "Altered\n",
        RecoverFault::OutOfMemory => "OutOfMemory\n",
        RecoverFault::StoreFault => "StoreFault\n",
    }
}

/// The line `store: ` and the name of a fault.
fn store_line(fault: RecoverFault) -> &'static str
    ensures { result.now ≡ store_line fault }
{
    match fault {
        RecoverFault::NoArchive => "store: NoArchive\n",
        RecoverFault::TwoArchives => "store: TwoArchives\n",
        RecoverFault::NotAPackage(_) => "store: NotAPackage\n",
        RecoverFault::TwoCopies(_) => "store: TwoCopies\n",
        RecoverFault::MissingPackage(_) => "store: MissingPackage\n",
        RecoverFault::ForeignFrame(_) => "store: ForeignFrame\n",
        RecoverFault::Dangling(_) => "store: Dangling\n",
        RecoverFault::OutOfAccount => "store: OutOfAccount\n",
        RecoverFault::Altered(_) => "store: Altered\n",
        RecoverFault::OutOfMemory => "store: OutOfMemory\n",
        RecoverFault::StoreFault => "store: StoreFault\n",
    }
}

/// What goes to standard output at the end, behind what was printed before: a line, or nothing.
pub fn output_of(ending: Ending) -> &'static str
    ensures { result.now ≡ output_text ending }
{
    match ending {
        Ending::Usual(outcome) => outcome_output(outcome),
        Ending::BadBody => "refused: body\n",
        Ending::HoldsPackages => "refused: folder holds packages\n",
        Ending::NoSuchPackage => "refused: no such package\n",
        Ending::Unlisted(_) => "refused: list\n",
        Ending::Faulted(fault) => fault_line(told_fault(fault)),
        Ending::Declined(_)
        | Ending::RecordDeclined(_, _)
        | Ending::NoRequest
        | Ending::Unopened(_) => "",
    }
}

/// What goes to standard error at the end: a line, or nothing.
pub fn error_of(ending: Ending) -> &'static str
    ensures { result.now ≡ error_text ending }
{
    match ending {
        Ending::Usual(outcome) => outcome_error(outcome),
        Ending::Unopened(fault) => store_line(told_fault(fault)),
        Ending::BadBody
        | Ending::HoldsPackages
        | Ending::NoSuchPackage
        | Ending::Declined(_)
        | Ending::RecordDeclined(_, _)
        | Ending::NoRequest
        | Ending::Unlisted(_)
        | Ending::Faulted(_) => "",
    }
}

/// What is known of why a folder is not opened.
fn open_note(alloc: Global, fault: OpenFault) -> Result<String, AllocError>
    ensures { IfOk result (λ text. string_bytes text ≡ open_note fault) }
{
    match fault {
        OpenFault::Folder(fault) => cause_text(alloc, fault),
        OpenFault::Fault(fault) => fault_text(alloc, fault),
        OpenFault::Numbered(fault, number) => fault_text_at(alloc, fault, number),
    }
}

/// What a person can be told of an ending beside its lines, without the end of a line: where the
/// fault is, or what was refused. It goes to standard error, behind the line there. It is empty
/// where nothing more is known.
///
/// # Errors
///
/// Want of memory.
pub fn note_of(alloc: Global, ending: Ending) -> Result<String, AllocError>
    ensures { IfOk result (λ text. string_bytes text ≡ note_text ending) }
{
    match ending {
        Ending::Unopened(fault) | Ending::Faulted(fault) => open_note(alloc, fault),
        Ending::Unlisted(fault) => list_text(alloc, fault),
        Ending::Declined(why) => refusal_text(alloc, &why),
        Ending::RecordDeclined(number, why) => record_text(alloc, number, &why),
        Ending::Usual(_)
        | Ending::BadBody
        | Ending::HoldsPackages
        | Ending::NoSuchPackage
        | Ending::NoRequest => Ok(String::new(alloc)),
    }
}
