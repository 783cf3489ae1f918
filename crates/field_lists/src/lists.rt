//! A list of what a file holds as a whole: its header, its entries, and the fault that is met first.
ghost use Rattle.std.specs.Prelude.{◌≡◌, ◌⊎◌, ◌↔◌, ℕ, List, [], ◌∷◌, ◌++◌, map, IsTrue};
ghost use Rattle.std.specs.Prelude.{IfOk, IfErr, IfSome};
ghost use Rattle.csv.specs.Records.{fields_of};
ghost use Rattle.field_lists.specs.Listed.{header};
ghost use Rattle.field_lists.specs.HoldsLists.{AreAllRecords, AreBegun, AreFirstRecords, AreList, Lists, IsFaultFrom};
ghost use Rattle.field_lists.specs.HoldsLists.{IsFaultOf, IsList, IsOfReader, MeetsFirst};
ghost use Rattle.field_lists.specs.declared.lists.ListFault.TheVariants as fault;

use crate::columns::COUNT;
use crate::entries::{Listed, entry_of};
use csv::{ByteRecord, ReaderBuilder, StringRecord};
use field_changes::known::Known;
use request_csv::fields::has_text;
use request_csv::sources::ListSource;
use sheet_types::error::OutOfMemory;
use std::alloc::Global;
use thiserror::Error;

/// Why a list was not read. Of the first three the one that is met first in reading order.
#[derive(Clone, Copy, Debug, PartialEq, Eq, Error)]
pub enum ListFault {
    /// The first record is not the names of the columns, or there is no record.
    #[error("no header of a list of what a file holds")]
    Header,
    /// The first record that is no entry, counted from 1 after the header.
    #[error("record {0} is no entry")]
    Record(u64),
    /// The reader failed, or a record is no UTF-8 or has not a field for each column.
    #[error("the list can't be read")]
    Read,
    /// A growth was refused.
    #[error("out of memory")]
    Memory,
}

impl From<OutOfMemory> for ListFault {
    ghost from_gives = { λ want made. made ≡ fault.Memory };

    fn from(_want: OutOfMemory) -> ListFault {
        ListFault::Memory
    }
}

/// The names of the columns, in their order.
const COLUMNS: [&str; COUNT] = [
    "kind", "number", "other", "identity", "zoom", "column", "row", "x", "y", "code", "text",
    "data",
];

/// Whether the fields of a record are these.
fn has_fields(row: &StringRecord, texts: &[&str]) -> bool
    ensures { IsTrue result ↔ (fields_of row.now ≡ map (λ text. text.now) texts.now) }
{
    row.len() == texts.len()
        && texts
            .iter()
            .enumerate()
            .all(|(column, text)| has_text(row, column, text))
}

/// Whether a record is the names of the columns.
fn is_header(row: &StringRecord) -> bool
    ensures { IsTrue result ↔ (fields_of row.now ≡ header) }
{
    has_fields(row, &COLUMNS)
}

/// The entry that a record after the header is; `number` is its place, counted from 1.
fn entry_in<'a>(
    alloc: Global,
    known: &Known<'a>,
    number: u64,
    row: ByteRecord,
) -> Result<Listed<'a>, ListFault>
    ensures asks { IfOk result (λ entry. Lists (fields_of row) entry) }
    ensures fault { IfErr result (λ met. (met ≡ fault.Memory) ⊎ IsFaultFrom number (fields_of row ∷ []) met) }
{
    let Ok(text) = StringRecord::from_byte_record(row) else {
        return Err(ListFault::Read);
    };
    // `entry_of` looks again, and finds no entry: only here is a record of another length told from
    // one that asks nothing.
    if text.len() != COUNT {
        return Err(ListFault::Read);
    }
    match entry_of(alloc, known, &text)? {
        Some(entry) => Ok(entry),
        None => Err(ListFault::Record(number)),
    }
}

/// Refuses a first record that is not the names of the columns.
fn check_header(row: ByteRecord) -> Result<(), ListFault>
    ensures ok { IfOk result (λ _. fields_of row ≡ header) }
    ensures fault { IfErr result (λ met. IsFaultOf (fields_of row ∷ []) met) }
{
    match StringRecord::from_byte_record(row) {
        Ok(text) => {
            if is_header(&text) {
                Ok(())
            } else {
                Err(ListFault::Header)
            }
        }
        Err(_) => Err(ListFault::Read),
    }
}

/// Reads an entry more.
fn add_entry<'a>(
    alloc: Global,
    known: &Known<'a>,
    entries: &mut Vec<Listed<'a>>,
    row: ByteRecord,
) -> Result<(), ListFault>
    ensures more { IfOk result (λ _. (rows : List (List (List ℕ))) → AreList rows entries.old.items
        → AreList (rows ++ fields_of row ∷ []) entries.new.items) }
    ensures fault { IfErr result (λ met. (met ≡ fault.Memory) ⊎ ((rows : List (List (List ℕ)))
        → AreList rows entries.old.items → IsFaultOf (rows ++ fields_of row ∷ []) met)) }
{
    let number = entries.len() as u64 + 1;
    let entry = entry_in(alloc, known, number, row)?;
    if entries.push(entry).is_err() {
        return Err(ListFault::Memory);
    }
    Ok(())
}

/// Reads a record more: the header, where it was not read yet, or else an entry.
fn add_record<'a>(
    alloc: Global,
    known: &Known<'a>,
    has_header: bool,
    entries: &mut Vec<Listed<'a>>,
    row: ByteRecord,
) -> Result<(), ListFault>
    ensures more { IfOk result (λ _. (rows : List (List (List ℕ))) → AreBegun has_header rows entries.old.items
        → AreList (rows ++ fields_of row ∷ []) entries.new.items) }
    ensures fault { IfErr result (λ met. (met ≡ fault.Memory) ⊎ ((rows : List (List (List ℕ)))
        → AreBegun has_header rows entries.old.items → IsFaultOf (rows ++ fields_of row ∷ []) met)) }
{
    if has_header {
        add_entry(alloc, known, entries, row)
    } else {
        check_header(row)
    }
}

/// Why a reader gave no more. One that cannot fail met a want of memory, whatever else was told.
fn reader_fault<R: ListSource>(is_of_reader: bool) -> ListFault
    ensures { IsOfReader R.never_fails result }
{
    if is_of_reader && R::may_fail() {
        ListFault::Read
    } else {
        ListFault::Memory
    }
}

/// Whether there is a header, and the entries after it. One record is in memory at a time, and no
/// content of an entry that is known.
fn read_records<'a, R: ListSource + Drop>(
    alloc: Global,
    known: &Known<'a>,
    reader: R,
) -> Result<(bool, Vec<Listed<'a>>), ListFault>
    ensures list { IfOk result (λ read. IfSome (R.remaining reader) (λ text. (rows : List (List (List ℕ)))
        × AreAllRecords text rows × AreBegun read.0 rows read.1.items)) }
    ensures fault { IfErr result (λ met. IsOfReader R.never_fails met
        ⊎ IfSome (R.remaining reader) (λ text. (rows : List (List (List ℕ))) × AreFirstRecords text rows
        × IsFaultOf rows met)) }
{
    let source = ReaderBuilder::new()
        .has_headers(false)
        .flexible(true)
        .from_reader(alloc, reader);
    let mut has_header = false;
    let mut entries = Vec::new(alloc);
    for row in source.into_byte_records() {
        match row {
            Ok(row) => {
                add_record(alloc, known, has_header, &mut entries, row)?;
                has_header = true;
            }
            Err(fault) => return Err(reader_fault::<R>(fault.is_io_error())),
        }
    }
    Ok((has_header, entries))
}

/// The entries of a list: a record of the names of the columns, and after it one record for each
/// entry. A byte order mark at the start and blank lines are passed over; CR, LF and CR LF end
/// records (RFC 4180, section 2, and beyond it as `csv` reads). A reader that fails is Read, unless
/// a record before it is a fault. Of a text in memory Read is told of nothing but a record that
/// cannot be read. An item whose content is known holds that one, and has none of its own.
pub fn read_entries<'a, R: ListSource + Drop>(
    alloc: Global,
    reader: R,
    known: &Known<'a>,
) -> Result<Vec<Listed<'a>>, ListFault>
    ensures list { IfOk result (λ entries. IfSome (R.remaining reader) (λ text. IsList text entries.items)) }
    ensures fault { IfErr result (λ met. (met ≡ fault.Read) ⊎ (met ≡ fault.Memory)
        ⊎ IfSome (R.remaining reader) (λ text. MeetsFirst text met)) }
    ensures cause { R.never_fails → IfErr result (λ met. (met ≡ fault.Memory)
        ⊎ IfSome (R.remaining reader) (λ text. MeetsFirst text met)) }
{
    let (has_header, entries) = read_records(alloc, known, reader)?;
    if has_header {
        Ok(entries)
    } else {
        Err(ListFault::Header)
    }
}
