//! A request list as a whole: its header, its requests, and the fault that is met first.
ghost use Rattle.std.specs.Prelude.{◌≡◌, ◌≢◌, ◌⊎◌, ◌↔◌, [], ◌∷◌, map, IsTrue, IfOk};
ghost use Rattle.std.specs.Prelude.{IfErr, IfSome};
ghost use Rattle.std.specs.List.{AllZip};
ghost use Rattle.std.specs.Vec.Iter.{into_iter_items};
ghost use Rattle.csv.specs.Records.{fields_of};
ghost use Rattle.request_csv.specs.Requests.{header};
ghost use Rattle.request_csv.specs.RequestLists.{AreList, Asks, IsFaultFrom, IsFaultOf, IsFaultOfEnd, IsList};
ghost use Rattle.request_csv.specs.RequestLists.{MeetsFirst};
ghost use Rattle.request_csv.specs.declared.records.Ending.TheVariants as ending;
ghost use Rattle.request_csv.specs.declared.lists.ReadFault.TheVariants as fault;

use crate::columns::COUNT;
use crate::fields::has_text;
use crate::records::{Ending, read_records};
use crate::requests::request_of;
use crate::sources::ListSource;
use csv::{ByteRecord, StringRecord};
use sheet_types::command::Request;
use sheet_types::error::OutOfMemory;
use std::alloc::Global;
use std::vec::IntoIter;
use thiserror::Error;

/// Why a request list was not read. Of the first three the one that is met first in reading order.
#[derive(Clone, Copy, Debug, PartialEq, Eq, Error)]
pub enum ReadFault {
    /// The first record is not the names of the columns, or there is no record.
    #[error("no header of a request list")]
    Header,
    /// The first record that is no request, counted from 1 after the header.
    #[error("record {0} is no request")]
    Record(u64),
    /// The reader failed, or a record is no UTF-8 or has not a field for each column.
    #[error("the list can't be read")]
    Read,
    /// A growth was refused.
    #[error("out of memory")]
    Memory,
}

impl From<OutOfMemory> for ReadFault {
    ghost from_gives = { λ want made. made ≡ fault.Memory };

    fn from(_want: OutOfMemory) -> ReadFault {
        ReadFault::Memory
    }
}

/// The names of the columns, in their order.
pub(crate) const COLUMNS: [&str; COUNT] = [
    "request",
    "at",
    "command",
    "package",
    "identity",
    "other",
    "kind",
    "zoom",
    "column",
    "row",
    "last_column",
    "last_row",
    "x",
    "y",
    "code",
    "ticket",
    "text",
    "data",
];

/// Whether the fields of a record are these.
fn has_fields(row: &StringRecord, texts: &[&str]) -> bool
    ensures { IsTrue result ↔ (fields_of row.now ≡ map (λ text. text.now) texts.now) }
{
    row.len() == texts.len()
        && texts
            .iter()
            .enumerate()
            .all(|(column, text)| has_text(row, column, text))
}

/// Whether a record is the names of the columns.
fn is_header(row: &StringRecord) -> bool
    ensures { IsTrue result ↔ (fields_of row.now ≡ header) }
{
    has_fields(row, &COLUMNS)
}

/// The request that a record after the header is; `number` is its place, counted from 1.
pub(crate) fn request_in(alloc: Global, number: u64, row: ByteRecord) -> Result<Request, ReadFault>
    ensures asks { IfOk result (λ request. Asks (fields_of row) request) }
    ensures fault { IfErr result (λ met. (met ≡ fault.Memory) ⊎ IsFaultFrom number (fields_of row ∷ []) met) }
{
    let Ok(text) = StringRecord::from_byte_record(row) else {
        return Err(ReadFault::Read);
    };
    // `request_of` looks again, and finds no request: only here is a record of another length told
    // from one that asks nothing.
    if text.len() != COUNT {
        return Err(ReadFault::Read);
    }
    match request_of(alloc, &text)? {
        Some(request) => Ok(request),
        None => Err(ReadFault::Record(number)),
    }
}

/// Refuses a first record that is not the names of the columns.
pub(crate) fn check_header(row: ByteRecord) -> Result<(), ReadFault>
    ensures ok { IfOk result (λ _. fields_of row ≡ header) }
    ensures fault { IfErr result (λ met. IsFaultOf (fields_of row ∷ []) met) }
{
    match StringRecord::from_byte_record(row) {
        Ok(text) => {
            if is_header(&text) {
                Ok(())
            } else {
                Err(ReadFault::Header)
            }
        }
        Err(_) => Err(ReadFault::Read),
    }
}

/// The requests that the records after the header are.
fn requests_in(alloc: Global, rows: IntoIter<ByteRecord>) -> Result<Vec<Request>, ReadFault>
    ensures asks { IfOk result (λ requests. AllZip Asks (map fields_of (into_iter_items rows)) requests.items) }
    ensures fault { IfErr result (λ met. (met ≡ fault.Memory)
        ⊎ IsFaultFrom 1 (map fields_of (into_iter_items rows)) met) }
{
    let mut requests = Vec::new(alloc);
    for row in rows {
        let number = requests.len() as u64 + 1;
        let request = request_in(alloc, number, row)?;
        if requests.push(request).is_err() {
            return Err(ReadFault::Memory);
        }
    }
    Ok(requests)
}

/// The requests of a list, of its records and how they ended. A fault of the records comes before
/// one of their end: Header where there is no record at all, Read where the reader failed after
/// records that have no fault.
pub(crate) fn requests_of(
    alloc: Global,
    rows: Vec<ByteRecord>,
    ended: Ending,
) -> Result<Vec<Request>, ReadFault>
    ensures list { IfOk result (λ requests. (ended ≡ ending.End)
        × AreList (map fields_of rows.items) requests.items) }
    ensures fault { IfErr result (λ met. (met ≡ fault.Memory) ⊎ IsFaultOf (map fields_of rows.items) met
        ⊎ IsFaultOfEnd (map fields_of rows.items) ended met) }
{
    let mut rest = rows.into_iter();
    let Some(first) = rest.next() else {
        return Err(match ended {
            Ending::End => ReadFault::Header,
            Ending::Failed => ReadFault::Read,
            Ending::Memory => ReadFault::Memory,
        });
    };
    check_header(first)?;
    let requests = requests_in(alloc, rest)?;
    match ended {
        Ending::End => Ok(requests),
        Ending::Failed => Err(ReadFault::Read),
        Ending::Memory => Err(ReadFault::Memory),
    }
}

/// How the records of a source ended. One that cannot fail met a want of memory, whatever else was told.
fn ending_of<R: ListSource>(ended: Ending) -> Ending
    ensures end { result ≡ ending.End → ended ≡ ending.End }
    ensures sound { R.never_fails → result ≢ ending.Failed }
{
    if ended == Ending::Failed && !R::may_fail() {
        return Ending::Memory;
    }
    ended
}

/// The requests of a list: a record of the names of the columns, and after it one record for each
/// request. Everything is read and judged before any request is answered. A byte order mark at the
/// start and blank lines are passed over; CR, LF and CR LF end records (RFC 4180, section 2, and
/// beyond it as `csv` reads). A reader that fails is Read, unless a record before it is a fault. Of
/// a text in memory Read is told of nothing but a record that cannot be read.
pub fn read_requests<R: ListSource + Drop>(
    alloc: Global,
    reader: R,
) -> Result<Vec<Request>, ReadFault>
    ensures list { IfOk result (λ requests. IfSome (R.remaining reader) (λ text. IsList text requests.items)) }
    ensures fault { IfErr result (λ met. (met ≡ fault.Read) ⊎ (met ≡ fault.Memory)
        ⊎ IfSome (R.remaining reader) (λ text. MeetsFirst text met)) }
    ensures cause { R.never_fails → IfErr result (λ met. (met ≡ fault.Memory)
        ⊎ IfSome (R.remaining reader) (λ text. MeetsFirst text met)) }
{
    let (rows, ended) = read_records(alloc, reader);
    requests_of(alloc, rows, ending_of::<R>(ended))
}
