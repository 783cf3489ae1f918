//! A file of names as a whole: its header, its names, and the fault that is met first.
ghost use Rattle.std.specs.Prelude.{◌≡◌, ◌≢◌, ◌⊎◌, ◌↔◌, [], ◌∷◌, map, IsTrue, IfOk};
ghost use Rattle.std.specs.Prelude.{IfErr, IfSome};
ghost use Rattle.std.specs.List.{AllZip};
ghost use Rattle.std.specs.Vec.Iter.{into_iter_items};
ghost use Rattle.csv.specs.Records.{fields_of};
ghost use Rattle.view_names.specs.Named.{header};
ghost use Rattle.view_names.specs.NameLists.{AreList, Names, IsFaultFrom, IsFaultOf, IsFaultOfEnd, IsList, MeetsFirst};
ghost use Rattle.view_names.specs.declared.records.Ending.TheVariants as ending;
ghost use Rattle.view_names.specs.declared.lists.ListFault.TheVariants as fault;

use crate::columns::COUNT;
use crate::named::name_of;
use crate::records::{Ending, read_records};
use csv::{ByteRecord, StringRecord};
use request_csv::fields::has_text;
use request_csv::sources::ListSource;
use sheet_types::error::OutOfMemory;
use std::alloc::Global;
use std::vec::IntoIter;
use thiserror::Error;
use view_report::registers::Name;

/// Why a file of names was not read. Of the first three the one that is met first in reading order.
#[derive(Clone, Copy, Debug, PartialEq, Eq, Error)]
pub enum ListFault {
    /// The first record is not the names of the columns, or there is no record.
    #[error("the first record is not `uuid,name`")]
    Header,
    /// The first record that is no name, counted from 1 after the header.
    #[error("record {0} is no UUID with a name")]
    Record(u64),
    /// The reader failed, or the first record is no UTF-8.
    #[error("it cannot be read to its end")]
    Read,
    /// A growth was refused.
    #[error("out of memory")]
    Memory,
}

impl From<OutOfMemory> for ListFault {
    ghost from_gives = { λ want made. made ≡ fault.Memory };

    fn from(_want: OutOfMemory) -> ListFault {
        ListFault::Memory
    }
}

/// The names of the columns, in their order.
const COLUMNS: [&str; COUNT] = ["uuid", "name"];

/// Whether the fields of a record are these.
fn has_fields(row: &StringRecord, texts: &[&str]) -> bool
    ensures { IsTrue result ↔ (fields_of row.now ≡ map (λ text. text.now) texts.now) }
{
    row.len() == texts.len()
        && texts
            .iter()
            .enumerate()
            .all(|(column, text)| has_text(row, column, text))
}

/// Whether a record is the names of the columns.
fn is_header(row: &StringRecord) -> bool
    ensures { IsTrue result ↔ (fields_of row.now ≡ header) }
{
    has_fields(row, &COLUMNS)
}

/// The name that a record after the header is; `number` is its place, counted from 1.
fn name_in(alloc: Global, number: u64, row: ByteRecord) -> Result<Name, ListFault>
    ensures asks { IfOk result (λ name. Names (fields_of row) name) }
    ensures fault { IfErr result (λ met. (met ≡ fault.Memory) ⊎ IsFaultFrom number (fields_of row ∷ []) met) }
{
    let Ok(text) = StringRecord::from_byte_record(row) else {
        return Err(ListFault::Record(number));
    };
    if text.len() != COUNT {
        return Err(ListFault::Record(number));
    }
    match name_of(alloc, &text)? {
        Some(name) => Ok(name),
        None => Err(ListFault::Record(number)),
    }
}

/// Refuses a first record that is not the names of the columns.
fn check_header(row: ByteRecord) -> Result<(), ListFault>
    ensures ok { IfOk result (λ _. fields_of row ≡ header) }
    ensures fault { IfErr result (λ met. IsFaultOf (fields_of row ∷ []) met) }
{
    match StringRecord::from_byte_record(row) {
        Ok(text) => {
            if is_header(&text) {
                Ok(())
            } else {
                Err(ListFault::Header)
            }
        }
        Err(_) => Err(ListFault::Read),
    }
}

/// The names that the records after the header are.
fn names_in(alloc: Global, rows: IntoIter<ByteRecord>) -> Result<Vec<Name>, ListFault>
    ensures asks { IfOk result (λ names. AllZip Names (map fields_of (into_iter_items rows)) names.items) }
    ensures fault { IfErr result (λ met. (met ≡ fault.Memory)
        ⊎ IsFaultFrom 1 (map fields_of (into_iter_items rows)) met) }
{
    let mut names = Vec::new(alloc);
    for row in rows {
        let number = names.len() as u64 + 1;
        let name = name_in(alloc, number, row)?;
        if names.push(name).is_err() {
            return Err(ListFault::Memory);
        }
    }
    Ok(names)
}

/// The names of a list, of its records and how they ended. A fault of the records comes before one
/// of their end: Header where there is no record at all, Read where the reader failed after records
/// that have no fault.
pub(crate) fn names_of(
    alloc: Global,
    rows: Vec<ByteRecord>,
    ended: Ending,
) -> Result<Vec<Name>, ListFault>
    ensures list { IfOk result (λ names. (ended ≡ ending.End) × AreList (map fields_of rows.items) names.items) }
    ensures fault { IfErr result (λ met. (met ≡ fault.Memory) ⊎ IsFaultOf (map fields_of rows.items) met
        ⊎ IsFaultOfEnd (map fields_of rows.items) ended met) }
{
    let mut rest = rows.into_iter();
    let Some(first) = rest.next() else {
        return Err(match ended {
            Ending::End => ListFault::Header,
            Ending::Failed => ListFault::Read,
            Ending::Memory => ListFault::Memory,
        });
    };
    check_header(first)?;
    let names = names_in(alloc, rest)?;
    match ended {
        Ending::End => Ok(names),
        Ending::Failed => Err(ListFault::Read),
        Ending::Memory => Err(ListFault::Memory),
    }
}

/// How the records of a source ended. One that cannot fail met a want of memory, whatever else was told.
fn ending_of<R: ListSource>(ended: Ending) -> Ending
    ensures end { result ≡ ending.End → ended ≡ ending.End }
    ensures sound { R.never_fails → result ≢ ending.Failed }
{
    if ended == Ending::Failed && !R::may_fail() {
        return Ending::Memory;
    }
    ended
}

/// The names of a list: a record of the names of the columns, and after it one record for each
/// name. Everything is read and judged before any name is answered. A byte order mark at the start
/// and blank lines are passed over; CR, LF and CR LF end records (RFC 4180, section 2, and beyond
/// it as `csv` reads). A reader that fails is Read, unless a record before it is a fault. Of a text
/// in memory Read is told of nothing but a record that cannot be read.
pub fn read_names<R: ListSource + Drop>(alloc: Global, reader: R) -> Result<Vec<Name>, ListFault>
    ensures list { IfOk result (λ names. IfSome (R.remaining reader) (λ text. IsList text names.items)) }
    ensures fault { IfErr result (λ met. (met ≡ fault.Read) ⊎ (met ≡ fault.Memory)
        ⊎ IfSome (R.remaining reader) (λ text. MeetsFirst text met)) }
    ensures cause { R.never_fails → IfErr result (λ met. (met ≡ fault.Memory)
        ⊎ IfSome (R.remaining reader) (λ text. MeetsFirst text met)) }
{
    let (rows, ended) = read_records(alloc, reader);
    names_of(alloc, rows, ending_of::<R>(ended))
}
