//! The fields that a list of what a file holds has, and a list of requests has not.
ghost use Rattle.std.specs.Prelude.{ℕ, ℤ, List, IfSome, IfNone, Option};
ghost use Rattle.csv.specs.Records.{fields_of};
ghost use Rattle.field_lists.specs.Listed.{IsFrameAt, IsOptionalNumberAt, IsOptionalUuidAt};
ghost use Rattle.sheet_types.specs.declared.frame.Frame.{Frame};

use csv::StringRecord;
use request_csv::fields::{has_text, number_at, uuid_at};
use sheet_types::frame::Frame;
use sheet_types::reading::read_frame;
use uuid::Uuid;

/// The UUID of this column, where it is not empty; none of it where it is neither.
pub(crate) fn optional_uuid_at(row: &StringRecord, column: usize) -> Option<Option<Uuid>>
    ensures some { IfSome result (λ id. IsOptionalUuidAt (fields_of row.now) column id) }
    ensures none { IfNone result ((id : Option (List ℕ)) → ¬ IsOptionalUuidAt (fields_of row.now) column id) }
{
    if has_text(row, column, "") {
        return Some(None);
    }
    match uuid_at(row, column) {
        Some(id) => Some(Some(id)),
        None => None,
    }
}

/// The number of this column, where it is not empty; none of it where it is neither.
pub(crate) fn optional_number_at(row: &StringRecord, column: usize) -> Option<Option<i64>>
    ensures some { IfSome result (λ number. IsOptionalNumberAt (fields_of row.now) column number) }
    ensures none { IfNone result ((number : Option ℤ) → ¬ IsOptionalNumberAt (fields_of row.now) column number) }
{
    if has_text(row, column, "") {
        return Some(None);
    }
    match number_at(row, column) {
        Some(number) => Some(Some(number)),
        None => None,
    }
}

/// The frame of this column.
pub(crate) fn frame_at(row: &StringRecord, column: usize) -> Option<Frame>
    ensures some { IfSome result (λ frame. IsFrameAt (fields_of row.now) column frame) }
    ensures none { IfNone result ((frame : Frame) → ¬ IsFrameAt (fields_of row.now) column frame) }
{
    match row.get(column) {
        Some(text) => read_frame(text),
        None => None,
    }
}
