//! What each column of a record has to be, by the words of its command and its kind, and the first column that is not.
ghost use Rattle.std.specs.Prelude.{◌≡◌, ◌↔◌, ℕ, List, IfOk, IfSome, IfNone, IsTrue};
ghost use Rattle.csv.specs.Records.{fields_of};
ghost use Rattle.sheet_types.specs.declared.command.Request.{Request};
ghost use Rattle.request_csv.specs.Forms.{FaultAsksNothing, IsColumnAtFault, IsFirstUnmet, IsForm, MeetFrom, MeetsAt};
ghost use Rattle.request_csv.specs.Forms.{column_name, columns_of, header_wants};
ghost use Rattle.request_csv.specs.Requests.{IsRequest, IsTextAt};
ghost use Rattle.request_csv.specs.declared.forms.Want.TheVariants as want;
ghost use Rattle.std.specs.Prelude.{[], codes, get_or, length, map};

use crate::columns::{COMMAND, COUNT, KIND};
use crate::fields::{has_text, hex_at, kind_at, mapping_at, mode_at, number_at, uuid_at};
use crate::lists::COLUMNS;
use csv::StringRecord;
use sheet_types::error::OutOfMemory;
use sheet_types::receipt::MovedKind;
use std::alloc::Global;

/// What the field of a column has to be.
#[derive(Clone, Copy, Debug, PartialEq, Eq)]
pub enum Want {
    /// The name of the column.
    ItsName,
    /// Any text.
    Anything,
    /// A UUID in the hyphenated form (RFC 9562, section 4).
    Identity,
    /// A number in plain decimal within 64 bits.
    Number,
    /// Bytes in hexadecimal.
    Hexadecimal,
    /// The empty text: the command does not use the column.
    Nothing,
    /// The word of a command.
    CommandWord,
    /// The word of a kind of item.
    KindWord,
    /// The word of a mapping.
    MappingWord,
    /// The word of a mode.
    ModeWord,
}

/// What a record asks for, by its words.
#[derive(Clone, Copy, Debug, PartialEq, Eq)]
pub enum Form {
    /// The addition of a tile.
    Tile,
    /// The addition of a medium.
    Medium,
    /// The addition of an attributes row.
    Row,
    /// An addition whose kind is none.
    Addition,
    /// A deletion.
    Deletion,
    /// A link or an unlink.
    Link,
    /// A split.
    Split,
    /// A merge.
    Merge,
    /// Nothing that is known: the word is no command's.
    Unknown,
}

/// A column that is not what it has to be.
#[derive(Clone, Copy, Debug, PartialEq, Eq)]
pub struct ColumnFault {
    /// Its place, from 0.
    pub column: usize,
    /// What it has to be.
    pub want: Want,
}

/// The name at a place of some names, from 0; the empty text where there is none.
pub fn name_in(names: &[&'static str], place: usize) -> &'static str
    ensures { result.now ≡ get_or (map (λ name. name.now) names.now) place [] }
{
    match names.get(place) {
        Some(name) => name,
        None => "",
    }
}

/// The name of a column; the empty text where there is no such column.
pub fn column_name(column: usize) -> &'static str
    ensures { result.now ≡ column_name column }
{
    name_in(&COLUMNS, column)
}

/// Whether a column has the word of a command.
fn has_command_word(row: &StringRecord, column: usize) -> bool
    ensures { IsTrue result ↔ MeetsAt (fields_of row.now) column want.CommandWord }
{
    match row.get(column) {
        Some(word) => matches!(
            word,
            "add" | "delete" | "link" | "unlink" | "split" | "merge"
        ),
        None => false,
    }
}

/// Whether a column has the word of a kind of item.
fn has_kind_word(row: &StringRecord, column: usize) -> bool
    ensures { IsTrue result ↔ MeetsAt (fields_of row.now) column want.KindWord }
{
    match kind_at(row, column) {
        Some(MovedKind::TileItem) => true,
        Some(MovedKind::MediaItem) => true,
        Some(MovedKind::RowItem) => true,
        Some(_) | None => false,
    }
}

/// Whether a column has bytes in hexadecimal.
///
/// # Errors
///
/// Want of memory.
fn has_bytes(alloc: Global, row: &StringRecord, column: usize) -> Result<bool, OutOfMemory>
    ensures { IfOk result (λ has. IsTrue has ↔ MeetsAt (fields_of row.now) column want.Hexadecimal) }
{
    let found = hex_at(alloc, row, column)?;
    let has = found.is_some();
    Ok(has)
}

/// Whether the field of a column is what it has to be.
///
/// # Errors
///
/// Want of memory.
fn meets(alloc: Global, row: &StringRecord, column: usize, want: Want) -> Result<bool, OutOfMemory>
    ensures { IfOk result (λ met. IsTrue met ↔ MeetsAt (fields_of row.now) column want) }
{
    match want {
        Want::ItsName => Ok(has_text(row, column, column_name(column))),
        Want::Anything => Ok(row.get(column).is_some()),
        Want::Identity => Ok(uuid_at(row, column).is_some()),
        Want::Number => Ok(number_at(row, column).is_some()),
        Want::Hexadecimal => has_bytes(alloc, row, column),
        Want::Nothing => Ok(has_text(row, column, "")),
        Want::CommandWord => Ok(has_command_word(row, column)),
        Want::KindWord => Ok(has_kind_word(row, column)),
        Want::MappingWord => Ok(mapping_at(row, column).is_some()),
        Want::ModeWord => Ok(mode_at(row, column).is_some()),
    }
}

/// The first column, in their order, that is not what it has to be.
///
/// # Errors
///
/// Want of memory.
pub(crate) fn first_unmet(
    alloc: Global,
    row: &StringRecord,
    wants: &[Want],
) -> Result<Option<ColumnFault>, OutOfMemory>
    ensures some { IfOk result (λ found. IfSome found (IsFirstUnmet (fields_of row.now) 0 wants.now)) }
    ensures none { IfOk result (λ found. IfNone found (MeetFrom (fields_of row.now) 0 wants.now)) }
{
    for column in 0..wants.len() {
        let want = wants[column];
        if !meets(alloc, row, column, want)? {
            return Ok(Some(ColumnFault { column, want }));
        }
    }
    Ok(None)
}

/// What all columns of a header have to be.
pub(crate) const HEADER: [Want; COUNT] = [
    Want::ItsName,
    Want::ItsName,
    Want::ItsName,
    Want::ItsName,
    Want::ItsName,
    Want::ItsName,
    Want::ItsName,
    Want::ItsName,
    Want::ItsName,
    Want::ItsName,
    Want::ItsName,
    Want::ItsName,
    Want::ItsName,
    Want::ItsName,
    Want::ItsName,
    Want::ItsName,
    Want::ItsName,
    Want::ItsName,
];

/// What the columns of the addition of a tile have to be.
const TILE: [Want; 18] = [
    Want::Identity,
    Want::Anything,
    Want::CommandWord,
    Want::Identity,
    Want::Identity,
    Want::Nothing,
    Want::KindWord,
    Want::Number,
    Want::Number,
    Want::Number,
    Want::Nothing,
    Want::Nothing,
    Want::Nothing,
    Want::Nothing,
    Want::Nothing,
    Want::Nothing,
    Want::Nothing,
    Want::Hexadecimal,
];

/// What the columns of the addition of a medium have to be.
const MEDIUM: [Want; 18] = [
    Want::Identity,
    Want::Anything,
    Want::CommandWord,
    Want::Identity,
    Want::Identity,
    Want::Nothing,
    Want::KindWord,
    Want::Nothing,
    Want::Nothing,
    Want::Nothing,
    Want::Nothing,
    Want::Nothing,
    Want::Nothing,
    Want::Nothing,
    Want::Nothing,
    Want::Nothing,
    Want::Anything,
    Want::Hexadecimal,
];

/// What the columns of the addition of a row have to be.
const ROW: [Want; 18] = [
    Want::Identity,
    Want::Anything,
    Want::CommandWord,
    Want::Identity,
    Want::Identity,
    Want::Nothing,
    Want::KindWord,
    Want::Nothing,
    Want::Nothing,
    Want::Nothing,
    Want::Nothing,
    Want::Nothing,
    Want::Number,
    Want::Number,
    Want::Number,
    Want::Nothing,
    Want::Anything,
    Want::Nothing,
];

/// What the columns of an addition whose kind is none, up to its kind have to be.
const ADDITION: [Want; 7] = [
    Want::Identity,
    Want::Anything,
    Want::CommandWord,
    Want::Identity,
    Want::Identity,
    Want::Nothing,
    Want::KindWord,
];

/// What the columns of a deletion have to be.
const DELETION: [Want; 18] = [
    Want::Identity,
    Want::Anything,
    Want::CommandWord,
    Want::Identity,
    Want::Identity,
    Want::Nothing,
    Want::Nothing,
    Want::Nothing,
    Want::Nothing,
    Want::Nothing,
    Want::Nothing,
    Want::Nothing,
    Want::Nothing,
    Want::Nothing,
    Want::Nothing,
    Want::Nothing,
    Want::Nothing,
    Want::Nothing,
];

/// What the columns of a link or an unlink have to be.
const LINK: [Want; 18] = [
    Want::Identity,
    Want::Anything,
    Want::CommandWord,
    Want::Identity,
    Want::Identity,
    Want::Identity,
    Want::MappingWord,
    Want::Nothing,
    Want::Nothing,
    Want::Nothing,
    Want::Nothing,
    Want::Nothing,
    Want::Nothing,
    Want::Nothing,
    Want::Nothing,
    Want::Nothing,
    Want::Nothing,
    Want::Nothing,
];

/// What the columns of a split have to be.
const SPLIT: [Want; 18] = [
    Want::Identity,
    Want::Anything,
    Want::CommandWord,
    Want::Identity,
    Want::Nothing,
    Want::Identity,
    Want::ModeWord,
    Want::Number,
    Want::Number,
    Want::Number,
    Want::Number,
    Want::Number,
    Want::Nothing,
    Want::Nothing,
    Want::Nothing,
    Want::Nothing,
    Want::Nothing,
    Want::Nothing,
];

/// What the columns of a merge have to be.
const MERGE: [Want; 18] = [
    Want::Identity,
    Want::Anything,
    Want::CommandWord,
    Want::Identity,
    Want::Nothing,
    Want::Identity,
    Want::Nothing,
    Want::Nothing,
    Want::Nothing,
    Want::Nothing,
    Want::Nothing,
    Want::Nothing,
    Want::Nothing,
    Want::Nothing,
    Want::Nothing,
    Want::Number,
    Want::Nothing,
    Want::Nothing,
];

/// What the columns of a record without the word of a command, up to that word have to be.
const UNKNOWN: [Want; 3] = [Want::Identity, Want::Anything, Want::CommandWord];

/// What the columns of a record have to be, by what it asks for.
fn columns_of(form: Form) -> &'static [Want]
    ensures { result.now ≡ columns_of form }
{
    match form {
        Form::Tile => &TILE,
        Form::Medium => &MEDIUM,
        Form::Row => &ROW,
        Form::Addition => &ADDITION,
        Form::Deletion => &DELETION,
        Form::Link => &LINK,
        Form::Split => &SPLIT,
        Form::Merge => &MERGE,
        Form::Unknown => &UNKNOWN,
    }
}

/// What an addition adds, by its kind.
fn addition_form(row: &StringRecord) -> Form
    requires word { IsTextAt (fields_of row.now) 2 (codes "add") }
    ensures { IsForm (fields_of row.now) result }
{
    match kind_at(row, KIND) {
        Some(MovedKind::TileItem) => Form::Tile,
        Some(MovedKind::MediaItem) => Form::Medium,
        Some(MovedKind::RowItem) => Form::Row,
        Some(_) | None => Form::Addition,
    }
}

/// What a record asks for, by its words.
fn form_of(row: &StringRecord) -> Form
    ensures { IsForm (fields_of row.now) result }
{
    let Some(word) = row.get(COMMAND) else {
        return Form::Unknown;
    };
    match word {
        "add" => addition_form(row),
        "delete" => Form::Deletion,
        "link" | "unlink" => Form::Link,
        "split" => Form::Split,
        "merge" => Form::Merge,
        _ => Form::Unknown,
    }
}

/// The first column of a record that is not what it has to be, in the order of the columns.
///
/// # Errors
///
/// Want of memory.
pub fn column_fault(alloc: Global, row: &StringRecord) -> Result<Option<ColumnFault>, OutOfMemory>
    requires whole { length (fields_of row.now) ≡ 18 }
    ensures some { IfOk result (λ found. IfSome found (IsColumnAtFault (fields_of row.now))) }
    ensures none { IfOk result (λ found. IfNone found ((request : Request) × IsRequest (fields_of row.now) request)) }
{
    first_unmet(alloc, row, columns_of(form_of(row)))
}

/// A record with a column at fault is no request.
pub fn fault_asks_nothing()
    ensures { FaultAsksNothing }
{}
