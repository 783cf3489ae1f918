//! The fields of one record, column by column.
ghost use Rattle.std.specs.Prelude.{◌≡◌, ◌↔◌, ℕ, ℤ, List, IfOk, FitsSigned, IsTrue, IfSome, IfNone};
ghost use Rattle.std.specs.Prelude.{Some};
ghost use Rattle.std.specs.Int.{w64};
ghost use Rattle.std.specs.Option.{option_and_then};
ghost use Rattle.uuid.specs.Text.{parsed_hyphenated};
ghost use Rattle.csv.specs.Records.{field_at, fields_of};
ghost use Rattle.request_csv.specs.Requests.{AreEmpty, IsHexAt, IsNumberAt, IsTextAt};
ghost use Rattle.sheet_types.specs.Texts.{kind_word, mapping_word, mode_word};
ghost use Rattle.sheet_types.specs.declared.command.Mapping.{Mapping};
ghost use Rattle.sheet_types.specs.declared.command.Mode.{Mode};
ghost use Rattle.sheet_types.specs.declared.receipt.MovedKind.{MovedKind};

use crate::digits::decode_hex;
use csv::StringRecord;
use sheet_types::collections::Text;
use sheet_types::command::{Mapping, Mode};
use sheet_types::error::OutOfMemory;
use sheet_types::reading::{read_number, read_uuid};
use sheet_types::receipt::MovedKind;
use sheet_types::words::{read_kind, read_mapping, read_mode};
use std::alloc::Global;
use uuid::Uuid;

/// The UUID of this column, in the hyphenated form (RFC 9562, section 4).
pub fn uuid_at(row: &StringRecord, column: usize) -> Option<Uuid>
    ensures { result ≡ option_and_then parsed_hyphenated (field_at (fields_of row.now) column) }
{
    match row.get(column) {
        Some(text) => read_uuid(text),
        None => None,
    }
}

/// The number of this column, in plain decimal within 64 bits.
pub fn number_at(row: &StringRecord, column: usize) -> Option<i64>
    ensures some { IfSome result (λ number. IsNumberAt (fields_of row.now) column number) }
    ensures none { IfNone result ((number : ℤ) → ¬ IsNumberAt (fields_of row.now) column number) }
{
    match row.get(column) {
        Some(text) => read_number(text),
        None => None,
    }
}

/// Whether this column has this text.
pub fn has_text(row: &StringRecord, column: usize, text: &str) -> bool
    ensures { IsTrue result ↔ IsTextAt (fields_of row.now) column text.now }
{
    match row.get(column) {
        Some(field) => field == text,
        None => false,
    }
}

/// Whether these columns are empty.
pub fn are_empty(row: &StringRecord, columns: &[usize]) -> bool
    ensures { IsTrue result ↔ AreEmpty (fields_of row.now) columns.now }
{
    columns.iter().all(|column| has_text(row, *column, ""))
}

/// The bytes of this column, in hexadecimal with an even number of digits in either case.
pub fn hex_at(
    alloc: Global,
    row: &StringRecord,
    column: usize,
) -> Result<Option<Vec<u8>>, OutOfMemory>
    ensures some { IfOk result (λ found. IfSome found (λ bytes. IsHexAt (fields_of row.now) column bytes.items)) }
    ensures none { IfOk result (λ found. IfNone found ((bytes : List ℕ)
        → ¬ IsHexAt (fields_of row.now) column bytes)) }
{
    let Some(text) = row.get(column) else {
        return Ok(None);
    };
    decode_hex(alloc, text.as_bytes())
}

/// The kind that this column names.
pub fn kind_at(row: &StringRecord, column: usize) -> Option<MovedKind>
    ensures some { IfSome result (λ kind. IsTextAt (fields_of row.now) column (kind_word kind)) }
    ensures none { IfNone result ((kind : MovedKind) → ¬ IsTextAt (fields_of row.now) column (kind_word kind)) }
{
    match row.get(column) {
        Some(text) => read_kind(text),
        None => None,
    }
}

/// The mapping table that this column names.
pub fn mapping_at(row: &StringRecord, column: usize) -> Option<Mapping>
    ensures some { IfSome result (λ mapping. IsTextAt (fields_of row.now) column (mapping_word mapping)) }
    ensures none { IfNone result ((mapping : Mapping) → ¬ IsTextAt (fields_of row.now) column
        (mapping_word mapping)) }
{
    match row.get(column) {
        Some(text) => read_mapping(text),
        None => None,
    }
}

/// The mode of a split that this column names.
pub fn mode_at(row: &StringRecord, column: usize) -> Option<Mode>
    ensures some { IfSome result (λ mode. IsTextAt (fields_of row.now) column (mode_word mode)) }
    ensures none { IfNone result ((mode : Mode) → ¬ IsTextAt (fields_of row.now) column (mode_word mode)) }
{
    match row.get(column) {
        Some(text) => read_mode(text),
        None => None,
    }
}

/// The text of this column, copied.
pub fn text_at(
    alloc: Global,
    row: &StringRecord,
    column: usize,
) -> Result<Option<Text>, OutOfMemory>
    ensures some { IfOk result (λ found. IfSome found (λ text. IsTextAt (fields_of row.now) column text)) }
    ensures none { IfOk result (λ found. IfNone found ((text : List ℕ)
        → ¬ IsTextAt (fields_of row.now) column text)) }
{
    match row.get(column) {
        Some(text) => Ok(Some(Text::from_string(text.to_string(alloc)?))),
        None => Ok(None),
    }
}
