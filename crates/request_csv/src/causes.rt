//! Why a text is no list of requests: which record is none, and which of its columns is not what it has to be.
ghost use Rattle.std.specs.Prelude.{◌≡◌, ◌∷◌, ◌++◌, [], List, map, IfOk, IfSome, IfNone};
ghost use Rattle.std.specs.List.{AllZip};
ghost use Rattle.std.specs.Vec.Iter.{into_iter_items};
ghost use Rattle.csv.specs.Records.{fields_of};
ghost use Rattle.sheet_types.specs.declared.command.Request.{Request};
ghost use Rattle.request_csv.specs.Causes.{CauseIsMetFirst, IsCause, IsCauseFrom, IsCauseOf, IsHeaderFault};
ghost use Rattle.request_csv.specs.Causes.{IsRecordFault, read_fault};
ghost use Rattle.request_csv.specs.RequestLists.{AreList, Asks, IsList};
ghost use Rattle.request_csv.specs.Requests.{header};

use crate::columns::COUNT;
use crate::forms::{ColumnFault, HEADER, column_fault, first_unmet};
use crate::lists::ReadFault;
use crate::records::{Ending, read_records};
use csv::{ByteRecord, StringRecord};
use sheet_types::error::OutOfMemory;
use std::alloc::Global;
use std::vec::IntoIter;

/// Why a record is no request, or not the names of the columns.
#[derive(Clone, Copy, Debug, PartialEq, Eq)]
pub enum RecordFault {
    /// A field is no UTF-8.
    NoText,
    /// It has this number of fields, and not eighteen.
    FieldCount(usize),
    /// Its first column that is not what it has to be.
    Column(ColumnFault),
}

/// Why a text is no list: the first record that is at fault.
#[derive(Clone, Copy, Debug, PartialEq, Eq)]
pub enum ListFault {
    /// There is no record.
    NoRecord,
    /// The first record is not the names of the columns.
    Header(RecordFault),
    /// The first record that is no request, counted from 1 after the header.
    Record(u64, RecordFault),
}

/// The fault that is told of a text that is no list for this cause.
pub fn read_fault(cause: ListFault) -> ReadFault
    ensures { result ≡ read_fault cause }
{
    match cause {
        ListFault::NoRecord => ReadFault::Header,
        ListFault::Header(RecordFault::NoText) => ReadFault::Read,
        ListFault::Header(RecordFault::FieldCount(_) | RecordFault::Column(_)) => ReadFault::Header,
        ListFault::Record(_, RecordFault::NoText | RecordFault::FieldCount(_)) => ReadFault::Read,
        ListFault::Record(number, RecordFault::Column(_)) => ReadFault::Record(number),
    }
}

/// Why a record after the header is no request; nothing where it is one.
fn record_fault(alloc: Global, row: ByteRecord) -> Result<Option<RecordFault>, OutOfMemory>
    ensures some { IfOk result (λ found. IfSome found (IsRecordFault (fields_of row))) }
    ensures none { IfOk result (λ found. IfNone found ((request : Request) × Asks (fields_of row) request)) }
{
    let Ok(text) = StringRecord::from_byte_record(row) else {
        return Ok(Some(RecordFault::NoText));
    };
    let count = text.len();
    if count != COUNT {
        return Ok(Some(RecordFault::FieldCount(count)));
    }
    match column_fault(alloc, &text)? {
        Some(fault) => Ok(Some(RecordFault::Column(fault))),
        None => Ok(None),
    }
}

/// Why a first record is not the names of the columns; nothing where it is.
fn header_fault(alloc: Global, row: ByteRecord) -> Result<Option<RecordFault>, OutOfMemory>
    ensures some { IfOk result (λ found. IfSome found (IsHeaderFault (fields_of row))) }
    ensures none { IfOk result (λ found. IfNone found (fields_of row ≡ header)) }
{
    let Ok(text) = StringRecord::from_byte_record(row) else {
        return Ok(Some(RecordFault::NoText));
    };
    let count = text.len();
    if count != COUNT {
        return Ok(Some(RecordFault::FieldCount(count)));
    }
    match first_unmet(alloc, &text, &HEADER)? {
        Some(fault) => Ok(Some(RecordFault::Column(fault))),
        None => Ok(None),
    }
}

/// Why the records after the header are no requests; nothing where all are.
fn cause_in(alloc: Global, rows: IntoIter<ByteRecord>) -> Result<Option<ListFault>, OutOfMemory>
    ensures some { IfOk result (λ found. IfSome found (IsCauseFrom 1 (map fields_of (into_iter_items rows)))) }
    ensures none { IfOk result (λ found. IfNone found ((requests : List Request)
        × AllZip Asks (map fields_of (into_iter_items rows)) requests)) }
{
    let mut so_far: u64 = 0;
    for row in rows {
        // No memory holds more records than have numbers.
        let Some(number) = so_far.checked_add(1) else {
            return Err(OutOfMemory);
        };
        if let Some(fault) = record_fault(alloc, row)? {
            return Ok(Some(ListFault::Record(number, fault)));
        }
        so_far = number;
    }
    Ok(None)
}

/// Why these records are no list; nothing where they are one.
fn cause_of_records(alloc: Global, rows: Vec<ByteRecord>) -> Result<Option<ListFault>, OutOfMemory>
    ensures some { IfOk result (λ found. IfSome found (IsCauseOf (map fields_of rows.items))) }
    ensures none { IfOk result (λ found. IfNone found ((requests : List Request)
        × AreList (map fields_of rows.items) requests)) }
{
    let mut rest = rows.into_iter();
    let Some(first) = rest.next() else {
        return Ok(Some(ListFault::NoRecord));
    };
    if let Some(fault) = header_fault(alloc, first)? {
        return Ok(Some(ListFault::Header(fault)));
    }
    cause_in(alloc, rest)
}

/// Why a text is no list of requests: the first record that is none, and the first of its columns
/// that is not what it has to be; nothing where the text is a list.
///
/// It is asked after the fact, of a text of which `read_requests` told a fault (`read_fault`). It reads the text anew.
///
/// # Errors
///
/// Want of memory.
pub fn cause_of(alloc: Global, text: &[u8]) -> Result<Option<ListFault>, OutOfMemory>
    ensures some { IfOk result (λ found. IfSome found (IsCause text.now)) }
    ensures none { IfOk result (λ found. IfNone found ((requests : List Request) × IsList text.now requests)) }
{
    let (rows, ended) = read_records(alloc, text);
    if ended != Ending::End {
        return Err(OutOfMemory);
    }
    cause_of_records(alloc, rows)
}

/// The fault that is told of a cause is the one that the text meets first.
pub fn cause_is_met_first()
    ensures { CauseIsMetFirst }
{}
