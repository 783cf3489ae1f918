//! The splits and merges that records ask for.
ghost use Rattle.std.specs.Prelude.{ℕ, ℤ, List, IfSome, IfNone, codes};
ghost use Rattle.csv.specs.Records.{fields_of};
ghost use Rattle.request_csv.specs.Requests.{HasRect, IsCommand, IsTextAt};
ghost use Rattle.sheet_types.specs.declared.command.Command.TheVariants as command;
ghost use Rattle.sheet_types.specs.declared.command.Mode.{Mode};
ghost use Rattle.sheet_types.specs.declared.frame.Rect.{Rect};

use crate::columns::{COLUMN, KIND, LAST_COLUMN, LAST_ROW, OTHER, PACKAGE, ROW, TICKET, ZOOM};
use crate::fields::{are_empty, mode_at, number_at, uuid_at};
use csv::StringRecord;
use sheet_types::command::Command;
use sheet_types::frame::Rect;

/// The columns that a split leaves empty.
const NOT_OF_SPLIT: [usize; 7] = [4, 12, 13, 14, 15, 16, 17];

/// The columns that a merge leaves empty.
const NOT_OF_MERGE: [usize; 12] = [4, 6, 7, 8, 9, 10, 11, 12, 13, 14, 16, 17];

/// The rectangle that a record names.
fn rect_of(row: &StringRecord) -> Option<Rect>
    ensures some { IfSome result (λ rect. HasRect (fields_of row.now) rect) }
    ensures none { IfNone result ((rect : Rect) → ¬ HasRect (fields_of row.now) rect) }
{
    let zoom = number_at(row, ZOOM)?;
    let column = number_at(row, COLUMN)?;
    let last_column = number_at(row, LAST_COLUMN)?;
    let first_row = number_at(row, ROW)?;
    let last_row = number_at(row, LAST_ROW)?;
    Some(Rect {
        zoom,
        column,
        last_column,
        row: first_row,
        last_row,
    })
}

/// The split that a record with the word `split` asks for.
pub fn split_of(row: &StringRecord) -> Option<Command>
    requires word { IsTextAt (fields_of row.now) 2 (codes "split") }
    ensures some { IfSome result (λ found. IsCommand (fields_of row.now) found) }
    ensures none { IfNone result ((source child : List ℕ) (mode : Mode) (rect : Rect)
        → ¬ IsCommand (fields_of row.now) (command.Split source child mode rect)) }
{
    if !are_empty(row, &NOT_OF_SPLIT) {
        return None;
    }
    let package = uuid_at(row, PACKAGE)?;
    let child = uuid_at(row, OTHER)?;
    let mode = mode_at(row, KIND)?;
    let rect = rect_of(row)?;
    Some(Command::Split {
        package,
        child,
        mode,
        rect,
    })
}

/// The merge that a record with the word `merge` asks for.
pub fn merge_of(row: &StringRecord) -> Option<Command>
    requires word { IsTextAt (fields_of row.now) 2 (codes "merge") }
    ensures some { IfSome result (λ found. IsCommand (fields_of row.now) found) }
    ensures none { IfNone result ((child into : List ℕ) (ticket : ℤ)
        → ¬ IsCommand (fields_of row.now) (command.Merge child into ticket)) }
{
    if !are_empty(row, &NOT_OF_MERGE) {
        return None;
    }
    let child = uuid_at(row, PACKAGE)?;
    let into = uuid_at(row, OTHER)?;
    let ticket = number_at(row, TICKET)?;
    Some(Command::Merge {
        child,
        into,
        ticket,
    })
}
