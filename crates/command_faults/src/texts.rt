//! The texts, each without the end of a line.
ghost use Rattle.std.specs.Prelude.{◌≡◌, IfOk, string_bytes};
ghost use Rattle.command_faults.specs.Texts.{carried, cause_text, fault_text, fault_text_at, list_text, more_text};
ghost use Rattle.command_faults.specs.Texts.{record_text, refusal_text, want_text};

use opening_faults::faults::RecoverFault;
use request_csv::causes::{ListFault, RecordFault};
use request_csv::forms::{Want, column_name};
use request_csv::lists::ReadFault;
use sheet_types::refusal::Refusal;
use std::alloc::{AllocError, Global};

/// What is known of a fault by which stores stand for no world: of which package or item it is. It
/// is empty where no more is known than its name.
///
/// # Errors
///
/// Want of memory.
pub fn fault_text(alloc: Global, fault: RecoverFault) -> Result<String, AllocError>
    ensures { IfOk result (λ text. string_bytes text ≡ fault_text fault) }
{
    match fault {
        RecoverFault::NoArchive => String::from_str(alloc, "no file says that it is the archive's"),
        RecoverFault::TwoArchives => {
            String::from_str(alloc, "two files say that they are the archive's")
        }
        RecoverFault::NotAPackage(id) => {
            format!(in alloc;
                "package {id} lacks a table of its form, or has a value out of its range"
            )
        }
        RecoverFault::TwoCopies(id) => format!(in alloc; "package {id} is there twice"),
        RecoverFault::MissingPackage(id) => {
            format!(in alloc; "package {id} is named by an open split and has no file")
        }
        RecoverFault::ForeignFrame(id) => {
            format!(in alloc;
                "package {id} has not the archive's frame, or is not one level below its lender"
            )
        }
        RecoverFault::Dangling(id) => {
            format!(in alloc;
                "package {id} has a row without identity, an identity without row, or a link without row"
            )
        }
        RecoverFault::OutOfAccount => {
            String::from_str(
                alloc,
                "the receipts do not add up to what the packages hold",
            )
        }
        RecoverFault::Altered(id) => {
            format!(in alloc; "item {id} has not the content that its receipt names")
        }
        RecoverFault::OutOfMemory | RecoverFault::StoreFault => Ok(String::new(alloc)),
    }
}

/// The same where the receipt of this number names the package or the item: the open split that
/// lent the package, or the addition of the item. Of a fault that no receipt names it is the text
/// without the number.
///
/// # Errors
///
/// Want of memory.
pub fn fault_text_at(alloc: Global, fault: RecoverFault, number: u64) -> Result<String, AllocError>
    ensures { IfOk result (λ text. string_bytes text ≡ fault_text_at fault number) }
{
    match fault {
        RecoverFault::TwoCopies(id) => {
            format!(in alloc; "package {id} of open split {number} is there twice")
        }
        RecoverFault::MissingPackage(id) => {
            format!(in alloc; "package {id} is named by open split {number} and has no file")
        }
        RecoverFault::ForeignFrame(id) => {
            format!(in alloc;
                "package {id} of open split {number} has not the archive's frame, or is not one level below its lender"
            )
        }
        RecoverFault::Altered(id) => {
            format!(in alloc; "item {id} has not the content that its receipt {number} names")
        }
        _ => fault_text(alloc, fault),
    }
}

/// What is known of a fault of a list: which record it is.
///
/// # Errors
///
/// Want of memory.
pub fn list_text(alloc: Global, fault: ReadFault) -> Result<String, AllocError>
    ensures { IfOk result (λ text. string_bytes text ≡ list_text fault) }
{
    match fault {
        ReadFault::Header => {
            String::from_str(
                alloc,
                "list: the first record is not the names of the columns",
            )
        }
        ReadFault::Record(number) => format!(in alloc; "list: record {number} is no request"),
        ReadFault::Read => {
            String::from_str(
                alloc,
                "list: it cannot be read to its end, or a record has not eighteen fields of UTF-8",
            )
        }
        ReadFault::Memory => Ok(String::new(alloc)),
    }
}

/// What a column is not, behind its name.
fn want_text(want: Want) -> &'static str
    ensures { result.now ≡ want_text want }
{
    match want {
        Want::ItsName => " is not its name",
        Want::Anything => " is not there",
        Want::Identity => " is no UUID",
        Want::Number => " is no number",
        Want::Hexadecimal => " is not hexadecimal, two digits a byte",
        Want::Nothing => " is not empty",
        Want::CommandWord => " is none of add, delete, link, unlink, split, merge",
        Want::KindWord => " is none of tile, media, row",
        Want::MappingWord => " is none of tiles_media, rows_media, rows_tiles",
        Want::ModeWord => " is none of strict, follow",
    }
}

/// Why a text is no list: which record is at fault, and which of its columns.
///
/// # Errors
///
/// Want of memory.
pub fn cause_text(alloc: Global, cause: ListFault) -> Result<String, AllocError>
    ensures { IfOk result (λ text. string_bytes text ≡ cause_text cause) }
{
    match cause {
        ListFault::NoRecord => String::from_str(alloc, "list: it has no record"),
        ListFault::Header(RecordFault::NoText) => {
            String::from_str(alloc, "list: the header is no UTF-8")
        }
        ListFault::Header(RecordFault::FieldCount(count)) => {
            format!(in alloc; "list: the header has {count} fields, not 18")
        }
        ListFault::Header(RecordFault::Column(fault)) => {
            let name = column_name(fault.column);
            format!(in alloc; "list: the header has another name in place of '{name}'")
        }
        ListFault::Record(number, RecordFault::NoText) => {
            format!(in alloc; "list: record {number} is no UTF-8")
        }
        ListFault::Record(number, RecordFault::FieldCount(count)) => {
            format!(in alloc; "list: record {number} has {count} fields, not 18")
        }
        ListFault::Record(number, RecordFault::Column(fault)) => {
            let (name, what) = (column_name(fault.column), want_text(fault.want));
            format!(in alloc; "list: record {number}: column '{name}'{what}")
        }
    }
}

/// What a refusal carries, behind its name.
fn carried_text(alloc: Global, why: &Refusal) -> Result<String, AllocError>
    ensures { IfOk result (λ text. string_bytes text ≡ carried why.now) }
{
    match why {
        Refusal::CutLink(id) => {
            format!(in alloc; ": item {id} is linked with an item that stays")
        }
        Refusal::Stale(ticket) => format!(in alloc; ": the last receipt is {ticket}"),
        Refusal::LoanOpen(id) => format!(in alloc; ": loan {id} is not home"),
        Refusal::Collides(id) => format!(in alloc; ": the place of tile {id} is taken"),
        _ => Ok(String::new(alloc)),
    }
}

/// The number and the name of a refusal, and what it carries.
///
/// # Errors
///
/// Want of memory.
pub fn refusal_text(alloc: Global, why: &Refusal) -> Result<String, AllocError>
    ensures { IfOk result (λ text. string_bytes text ≡ refusal_text why.now) }
{
    let (number, name) = (why.number(), why.name());
    let more = carried_text(alloc, why)?;
    let more = more.as_str();
    format!(in alloc; "refusal {number} {name}{more}")
}

/// The refusal of a record of a list: the number of the record, and what a refusal is told by.
///
/// # Errors
///
/// Want of memory.
pub fn record_text(alloc: Global, record: u64, why: &Refusal) -> Result<String, AllocError>
    ensures { IfOk result (λ text. string_bytes text ≡ record_text «record» why.now) }
{
    let refusal = refusal_text(alloc, why)?;
    let refusal = refusal.as_str();
    format!(in alloc; "record {record}: {refusal}")
}

/// How many more there are of what was told so far.
///
/// # Errors
///
/// Want of memory.
pub fn more_text(alloc: Global, count: u64) -> Result<String, AllocError>
    ensures { IfOk result (λ text. string_bytes text ≡ more_text count) }
{
    format!(in alloc; "and {count} more")
}
