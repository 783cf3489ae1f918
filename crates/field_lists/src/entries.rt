//! Which entry a record is.
ghost use Rattle.std.specs.Prelude.{◌≡◌, ℕ, ℤ, List, Option, IfOk, IfSome, IfNone, codes};
ghost use Rattle.csv.specs.Records.{fields_of};
ghost use Rattle.request_csv.specs.Requests.{IsTextAt};
ghost use Rattle.sheet_types.specs.Texts.{kind_word, mapping_word};
ghost use Rattle.sheet_types.specs.declared.command.Content.TheVariants as content;
ghost use Rattle.sheet_types.specs.declared.frame.Frame.{Frame};
ghost use Rattle.sheet_types.specs.declared.receipt.MovedKind.TheVariants.{TileItem, MediaItem, RowItem};
ghost use Rattle.field_changes.specs.declared.held.BadRecord.{BadRecord};
ghost use Rattle.field_changes.specs.declared.held.Export.{Export};
ghost use Rattle.field_lists.specs.Listed.{IsListed};
ghost use Rattle.field_lists.specs.declared.entries.Listed.{Listed};
ghost use Rattle.field_lists.specs.declared.entries.Listed.TheVariants as listed;

use crate::columns::{CODE, COLUMN, DATA, IDENTITY, KIND, NUMBER, OTHER, ROW, TEXT, X, Y, ZOOM};
use crate::fields::{frame_at, optional_number_at, optional_uuid_at};
use csv::StringRecord;
use field_changes::held::{BadRecord, Export, HeldItem, HeldLink};
use field_changes::known::Known;
use request_csv::fields::{are_empty, hex_at, number_at, text_at, uuid_at};
use sheet_types::collections::Bytes;
use sheet_types::command::{Content, Mapping};
use sheet_types::error::OutOfMemory;
use sheet_types::frame::Frame;
use std::alloc::Global;

/// What a record of a list says.
#[derive(Drop)]
pub enum Listed<'a> {
    /// The export that the file was.
    Exported(Export),
    /// The number of the reference system of its points.
    System(i64),
    /// The frame of its tiles.
    Framed(Frame),
    /// One of its items.
    Item(HeldItem<'a>),
    /// One of its links.
    Link(HeldLink),
    /// A record of the file that could not be listed.
    Bad(BadRecord),
    /// The end, and how many records stand before it.
    End(i64),
}

const NOT_OF_EXPORT: [usize; 9] = [2, 4, 5, 6, 7, 8, 9, 10, 11];

const NOT_OF_NUMBER: [usize; 10] = [2, 3, 4, 5, 6, 7, 8, 9, 10, 11];

const NOT_OF_FRAME: [usize; 10] = [1, 2, 3, 4, 5, 6, 7, 8, 9, 11];

const NOT_OF_TILE: [usize; 6] = [2, 3, 7, 8, 9, 10];

const NOT_OF_MEDIA: [usize; 7] = [2, 4, 5, 6, 7, 8, 9];

const NOT_OF_ROW: [usize; 5] = [2, 4, 5, 6, 11];

const NOT_OF_LINK: [usize; 9] = [3, 4, 5, 6, 7, 8, 9, 10, 11];

const NOT_OF_BAD: [usize; 9] = [2, 3, 4, 5, 6, 7, 8, 9, 11];

// The export that a record with the word `package` names.
fn export_of<'a>(row: &StringRecord) -> Option<Listed<'a>>
    requires word { IsTextAt (fields_of row.now) 0 (codes "package") }
    ensures some { IfSome result (λ entry. IsListed (fields_of row.now) entry) }
    ensures none { IfNone result ((export : Export) → ¬ IsListed (fields_of row.now) (listed.Exported export)) }
{
    if !are_empty(row, &NOT_OF_EXPORT) {
        return None;
    }
    let ticket = number_at(row, NUMBER)?;
    let package = uuid_at(row, IDENTITY)?;
    Some(Listed::Exported(Export { package, ticket }))
}

// The system that a record with the word `system` names.
fn system_of<'a>(row: &StringRecord) -> Option<Listed<'a>>
    requires word { IsTextAt (fields_of row.now) 0 (codes "system") }
    ensures some { IfSome result (λ entry. IsListed (fields_of row.now) entry) }
    ensures none { IfNone result ((number : ℤ) → ¬ IsListed (fields_of row.now) (listed.System number)) }
{
    if !are_empty(row, &NOT_OF_NUMBER) {
        return None;
    }
    let number = number_at(row, NUMBER)?;
    Some(Listed::System(number))
}

// The frame that a record with the word `frame` names.
fn frame_of<'a>(row: &StringRecord) -> Option<Listed<'a>>
    requires word { IsTextAt (fields_of row.now) 0 (codes "frame") }
    ensures some { IfSome result (λ entry. IsListed (fields_of row.now) entry) }
    ensures none { IfNone result ((frame : Frame) → ¬ IsListed (fields_of row.now) (listed.Framed frame)) }
{
    if !are_empty(row, &NOT_OF_FRAME) {
        return None;
    }
    let frame = frame_at(row, TEXT)?;
    Some(Listed::Framed(frame))
}

// The tile of a record with the word `tile`. As of the others, a content that is known is shared.
fn tile_of<'a>(
    alloc: Global,
    known: &Known<'a>,
    row: &StringRecord,
) -> Result<Option<Listed<'a>>, OutOfMemory>
    requires word { IsTextAt (fields_of row.now) 0 (kind_word TileItem) }
    ensures some { IfOk result (λ found. IfSome found (λ entry. IsListed (fields_of row.now) entry)) }
    ensures none { IfOk result (λ found. IfNone found ((number zoom column line : ℤ) (id : Option (List ℕ))
        (bytes : List ℕ) → ¬ IsListed (fields_of row.now) (listed.Item
        (record { number = number; identity = id; content = content.Tile zoom column line bytes })))) }
{
    if !are_empty(row, &NOT_OF_TILE) {
        return Ok(None);
    }
    let Some(number) = number_at(row, NUMBER) else {
        return Ok(None);
    };
    let Some(zoom) = number_at(row, ZOOM) else {
        return Ok(None);
    };
    let Some(column) = number_at(row, COLUMN) else {
        return Ok(None);
    };
    let Some(line) = number_at(row, ROW) else {
        return Ok(None);
    };
    let Some(data) = hex_at(alloc, row, DATA)? else {
        return Ok(None);
    };
    let content = Content::Tile {
        zoom,
        column,
        row: line,
        bytes: Bytes::from_vec(data),
    };
    Ok(Some(Listed::Item(HeldItem {
        number,
        identity: None,
        content: known.share(content),
    })))
}

// The medium of a record with the word `media`.
fn media_of<'a>(
    alloc: Global,
    known: &Known<'a>,
    row: &StringRecord,
) -> Result<Option<Listed<'a>>, OutOfMemory>
    requires word { IsTextAt (fields_of row.now) 0 (kind_word MediaItem) }
    ensures some { IfOk result (λ found. IfSome found (λ entry. IsListed (fields_of row.now) entry)) }
    ensures none { IfOk result (λ found. IfNone found ((number : ℤ) (id : Option (List ℕ))
        (content_type bytes : List ℕ) → ¬ IsListed (fields_of row.now)
        (listed.Item (record { number = number; identity = id; content = content.Media content_type bytes })))) }
{
    if !are_empty(row, &NOT_OF_MEDIA) {
        return Ok(None);
    }
    let Some(number) = number_at(row, NUMBER) else {
        return Ok(None);
    };
    let Some(identity) = optional_uuid_at(row, IDENTITY) else {
        return Ok(None);
    };
    let Some(content_type) = text_at(alloc, row, TEXT)? else {
        return Ok(None);
    };
    let Some(data) = hex_at(alloc, row, DATA)? else {
        return Ok(None);
    };
    let content = Content::Media {
        content_type,
        bytes: Bytes::from_vec(data),
    };
    Ok(Some(Listed::Item(HeldItem {
        number,
        identity,
        content: known.share(content),
    })))
}

// The attributes row of a record with the word `row`.
fn row_of<'a>(
    alloc: Global,
    known: &Known<'a>,
    row: &StringRecord,
) -> Result<Option<Listed<'a>>, OutOfMemory>
    requires word { IsTextAt (fields_of row.now) 0 (kind_word RowItem) }
    ensures some { IfOk result (λ found. IfSome found (λ entry. IsListed (fields_of row.now) entry)) }
    ensures none { IfOk result (λ found. IfNone found ((number x y code : ℤ) (id : Option (List ℕ))
        (label : List ℕ)
        → ¬ IsListed (fields_of row.now) (listed.Item (record
        { number = number; identity = id; content = content.Row x y code label })))) }
{
    if !are_empty(row, &NOT_OF_ROW) {
        return Ok(None);
    }
    let Some(number) = number_at(row, NUMBER) else {
        return Ok(None);
    };
    let Some(identity) = optional_uuid_at(row, IDENTITY) else {
        return Ok(None);
    };
    let Some(x) = number_at(row, X) else {
        return Ok(None);
    };
    let Some(y) = number_at(row, Y) else {
        return Ok(None);
    };
    let Some(code) = number_at(row, CODE) else {
        return Ok(None);
    };
    let Some(label) = text_at(alloc, row, TEXT)? else {
        return Ok(None);
    };
    let content = Content::Row { x, y, code, label };
    Ok(Some(Listed::Item(HeldItem {
        number,
        identity,
        content: known.share(content),
    })))
}

// The link of a record with the word of a mapping.
fn link_of<'a>(row: &StringRecord, mapping: Mapping) -> Option<Listed<'a>>
    requires word { IsTextAt (fields_of row.now) 0 (mapping_word mapping) }
    ensures some { IfSome result (λ entry. IsListed (fields_of row.now) entry) }
    ensures none { IfNone result ((base other : ℤ) → ¬ IsListed (fields_of row.now)
        (listed.Link (record { mapping = mapping; base = base; other = other }))) }
{
    if !are_empty(row, &NOT_OF_LINK) {
        return None;
    }
    let base = number_at(row, NUMBER)?;
    let other = number_at(row, OTHER)?;
    Some(Listed::Link(HeldLink {
        mapping,
        base,
        other,
    }))
}

// What a record with the word `bad` says.
fn bad_of<'a>(alloc: Global, row: &StringRecord) -> Result<Option<Listed<'a>>, OutOfMemory>
    requires word { IsTextAt (fields_of row.now) 0 (codes "bad") }
    ensures some { IfOk result (λ found. IfSome found (λ entry. IsListed (fields_of row.now) entry)) }
    ensures none { IfOk result (λ found. IfNone found ((bad : BadRecord)
        → ¬ IsListed (fields_of row.now) (listed.Bad bad))) }
{
    if !are_empty(row, &NOT_OF_BAD) {
        return Ok(None);
    }
    let Some(number) = optional_number_at(row, NUMBER) else {
        return Ok(None);
    };
    let Some(text) = text_at(alloc, row, TEXT)? else {
        return Ok(None);
    };
    Ok(Some(Listed::Bad(BadRecord { number, text })))
}

// The count of a record with the word `end`.
fn end_of<'a>(row: &StringRecord) -> Option<Listed<'a>>
    requires word { IsTextAt (fields_of row.now) 0 (codes "end") }
    ensures some { IfSome result (λ entry. IsListed (fields_of row.now) entry) }
    ensures none { IfNone result ((count : ℤ) → ¬ IsListed (fields_of row.now) (listed.End count)) }
{
    if !are_empty(row, &NOT_OF_NUMBER) {
        return None;
    }
    let count = number_at(row, NUMBER)?;
    Some(Listed::End(count))
}

/// The entry that a record is, by its word.
pub(crate) fn entry_of<'a>(
    alloc: Global,
    known: &Known<'a>,
    row: &StringRecord,
) -> Result<Option<Listed<'a>>, OutOfMemory>
    ensures some { IfOk result (λ found. IfSome found (λ entry. IsListed (fields_of row.now) entry)) }
    ensures none { IfOk result (λ found. IfNone found ((entry : Listed) → ¬ IsListed (fields_of row.now) entry)) }
{
    let Some(word) = row.get(KIND) else {
        return Ok(None);
    };
    match word {
        "package" => Ok(export_of(row)),
        "system" => Ok(system_of(row)),
        "frame" => Ok(frame_of(row)),
        "tile" => tile_of(alloc, known, row),
        "media" => media_of(alloc, known, row),
        "row" => row_of(alloc, known, row),
        "tiles_media" => Ok(link_of(row, Mapping::TilesMedia)),
        "rows_media" => Ok(link_of(row, Mapping::RowsMedia)),
        "rows_tiles" => Ok(link_of(row, Mapping::RowsTiles)),
        "bad" => bad_of(alloc, row),
        "end" => Ok(end_of(row)),
        _ => Ok(None),
    }
}
