//! The records of a list, over any reader.
ghost use Rattle.std.specs.Prelude.{◌≡◌, ℕ, List, map, IfSome};
ghost use Rattle.csv.specs.Reading.{AreRecords, Reached, default_config, strip_bom};
ghost use Rattle.csv.specs.Records.{fields_of};
ghost use Rattle.csv.specs.declared.parser.State.{State};
ghost use Rattle.csv.specs.declared.parser.State.TheVariants as st;
ghost use Rattle.request_csv.specs.declared.records.Ending.TheVariants as ending;

use csv::{ByteRecord, ReaderBuilder};
use std::alloc::Global;
use std::io::Read;

/// How the records of a reader ended.
#[derive(Clone, Copy, Debug, PartialEq, Eq)]
pub enum Ending {
    /// The text is at its end, and all its records are there.
    End,
    /// The reader failed.
    Failed,
    /// A growth was refused.
    Memory,
}

/// The records of a reader as far as it gave them, of any lengths and bytes. A byte order mark at
/// the start is passed over, blank lines too; CR, LF and CR LF end records.
pub fn read_records<R: Read + Drop>(alloc: Global, reader: R) -> (Vec<ByteRecord>, Ending)
    ensures front { IfSome (R.remaining reader) (λ xs. (s : State) × (ys : List ℕ)
        × Reached default_config st.StartRecord (strip_bom xs) (map fields_of result.0.items) s ys) }
    ensures whole { result.1 ≡ ending.End → IfSome (R.remaining reader)
        (λ xs. AreRecords default_config st.StartRecord (strip_bom xs) (map fields_of result.0.items)) }
{
    let source = ReaderBuilder::new()
        .has_headers(false)
        .flexible(true)
        .from_reader(alloc, reader);
    let mut rows = Vec::new(alloc);
    for row in source.into_byte_records() {
        match row {
            Ok(row) => {
                if rows.push(row).is_err() {
                    return (rows, Ending::Memory);
                }
            }
            Err(fault) => {
                let ending = if fault.is_io_error() {
                    Ending::Failed
                } else {
                    Ending::Memory
                };
                return (rows, ending);
            }
        }
    }
    (rows, Ending::End)
}
