//! A reader of a list that gives one request after the other, and holds one record at a time.
ghost use Rattle.std.specs.Prelude.{◌≡◌, ◌⊎◌, ◌++◌, ◌∷◌, [], ℕ, List, Option, length, IfOk};
ghost use Rattle.std.specs.Prelude.{IfErr, IfSome, IfNone};
ghost use Rattle.sheet_types.specs.declared.command.Request.{Request};
ghost use Rattle.request_csv.specs.RequestLists.{IsList, MeetsFirst};
ghost use Rattle.request_csv.specs.ListReading.{IsListOfSo, IsOfReader, Stands};
ghost use Rattle.request_csv.specs.declared.lists.ReadFault.TheVariants as fault;

use crate::lists::{ReadFault, check_header, request_in};
use crate::sources::ListSource;
use csv::{ByteRecordsIntoIter, ReaderBuilder};
use sheet_types::command::Request;
use std::alloc::Global;

/// A list that is being read.
#[derive(Drop)]
pub struct ListReader<R> {
    /// The records that were not read yet.
    rows: ByteRecordsIntoIter<R>,
    /// How many requests were read.
    count: u64,
}

/// Why a reader gave no more. One that cannot fail met a want of memory, whatever else was told.
fn reader_fault<R: ListSource>(is_of_reader: bool) -> ReadFault
    ensures { IsOfReader R.never_fails result }
{
    if is_of_reader && R::may_fail() {
        ReadFault::Read
    } else {
        ReadFault::Memory
    }
}

impl<R: ListSource + Drop> ListReader<R> {
    /// A reader behind the header of a list.
    ///
    /// # Errors
    ///
    /// The fault of the first record, or of the reader.
    pub fn open(alloc: Global, reader: R) -> Result<ListReader<R>, ReadFault>
        ensures stands { IfOk result (λ list. Stands R.remaining (R.remaining reader) list []) }
        ensures fault { IfErr result (λ met. IsOfReader R.never_fails met
            ⊎ IfSome (R.remaining reader) (λ text. MeetsFirst text met)) }
    {
        let source = ReaderBuilder::new()
            .has_headers(false)
            .flexible(true)
            .from_reader(alloc, reader);
        let mut rows = source.into_byte_records();
        match rows.next() {
            None => Err(ReadFault::Header),
            Some(Err(fault)) => Err(reader_fault::<R>(fault.is_io_error())),
            Some(Ok(row)) => {
                check_header(row)?;
                Ok(ListReader { rows, count: 0 })
            }
        }
    }

    /// The next request of a list, if there is one.
    ///
    /// # Errors
    ///
    /// The fault of its record, or of the reader.
    pub fn next_request(&mut self, alloc: Global) -> Result<Option<Request>, ReadFault>
        ensures more { IfOk result (λ found. IfSome found (λ request. (text : Option (List ℕ))
            (before : List Request)
            → Stands R.remaining text self.old before
            → Stands R.remaining text self.new (before ++ request ∷ []))) }
        ensures end { IfOk result (λ found. IfNone found ((text : Option (List ℕ)) (before : List Request)
            → Stands R.remaining text self.old before → IfSome text (λ t. IsList t before))) }
        ensures fault { IfErr result (λ met. IsOfReader R.never_fails met
            ⊎ ((text : Option (List ℕ)) (before : List Request)
            → Stands R.remaining text self.old before → IfSome text (λ t. MeetsFirst t met))) }
    {
        match self.rows.next() {
            None => Ok(None),
            Some(Err(fault)) => Err(reader_fault::<R>(fault.is_io_error())),
            Some(Ok(row)) => {
                if self.count == u64::MAX {
                    return Err(ReadFault::Memory);
                }
                self.count += 1;
                let request = request_in(alloc, self.count, row)?;
                Ok(Some(request))
            }
        }
    }
}

/// How many requests a list has. It is read as `read_requests` reads it, and no request is kept.
///
/// # Errors
///
/// Those of `read_requests`.
pub fn judge_requests<R: ListSource + Drop>(alloc: Global, reader: R) -> Result<u64, ReadFault>
    ensures list { IfOk result (λ count. IsListOfSo count (R.remaining reader)) }
    ensures fault { IfErr result (λ met. (met ≡ fault.Read) ⊎ (met ≡ fault.Memory)
        ⊎ IfSome (R.remaining reader) (λ text. MeetsFirst text met)) }
    ensures cause { R.never_fails → IfErr result (λ met. (met ≡ fault.Memory)
        ⊎ IfSome (R.remaining reader) (λ text. MeetsFirst text met)) }
{
    let mut list = ListReader::open(alloc, reader)?;
    'judging: for at in 0..u64::MAX {
        match list.next_request(alloc)? {
            Some(_request) => {}
            None => return Ok(at),
        }
    }
    Err(ReadFault::Memory)
}
