//! The rows of items and links, a statement a line.
ghost use Rattle.std.specs.Prelude.{◌≡◌, IfOk, IsTrue, List, string_bytes};
ghost use Rattle.sheet_types.specs.Matrix.{is_good_frame};
ghost use Rattle.sheet_types.specs.declared.command.Item.{Item as ModelItem};
ghost use Rattle.view_export.specs.Exports.{drawn, feature_row, item_rows, link_row, medium_row, place};
ghost use Rattle.view_export.specs.Exports.{tile_identity_row, tile_outline, tile_row, tile_rows};
ghost use Rattle.view_export.specs.Numbers.{AreNumbersOf};
ghost use Rattle.view_export.specs.Points.{FitsHeader, point};
ghost use Rattle.view_export.specs.Statements.{blob};

use crate::literals::{UuidLiteral, blob, text_literal};
use crate::numbers::number_of;
use crate::points::{outline, point};
use matrix_rules::ground::ground;
use sheet_types::command::{Content, Item, Relation};
use sheet_types::error::OutOfMemory;
use sheet_types::frame::{Frame, Ground};
use std::alloc::{AllocError, Global};
use std::collections::BTreeMap;
use uuid::Uuid;

/// A tile at this place.
fn tile_row(
    alloc: Global,
    number: u64,
    zoom: i64,
    column: i64,
    row: i64,
    bytes: &[u8],
) -> Result<String, AllocError>
    ensures { IfOk result (λ text. string_bytes text ≡ tile_row number zoom column row bytes.now) }
{
    let image = blob(alloc, bytes)?;
    format!(in alloc; "INSERT INTO sheet_tiles VALUES ({number},{zoom},{column},{row},{image});\n")
}

/// Some ground as the blob of a geometry, or `NULL`.
fn ground_blob(alloc: Global, srs_id: i64, ground: &Option<Ground>) -> Result<String, AllocError>
    requires { FitsHeader srs_id }
    ensures { IfOk result (λ text. string_bytes text ≡ drawn srs_id ground.now) }
{
    match ground {
        Some(ground) => {
            let bytes = outline(alloc, srs_id, ground)?;
            blob(alloc, bytes.as_slice())
        }
        None => String::from_str(alloc, "NULL"),
    }
}

/// The outline of the ground of a tile. Where the frame has no such place there is none.
fn tile_outline(
    alloc: Global,
    frame: &Frame,
    zoom: i64,
    column: i64,
    row: i64,
) -> Result<String, AllocError>
    requires { IsTrue (is_good_frame frame.now) }
    ensures { IfOk result (λ text. string_bytes text ≡ tile_outline frame.now zoom column row) }
{
    let ground = ground(frame, zoom, column, row);
    ground_blob(alloc, frame.srs_id, &ground)
}

/// The numbers of a place with commas between them.
fn place(alloc: Global, zoom: i64, column: i64, row: i64) -> Result<String, AllocError>
    ensures { IfOk result (λ text. string_bytes text ≡ place zoom column row) }
{
    format!(in alloc; "{zoom},{column},{row}")
}

/// The outline, the identity and the place of the tile with this number.
fn tile_identity_row(
    alloc: Global,
    number: u64,
    geometry: &str,
    identity: Uuid,
    zoom: i64,
    column: i64,
    row: i64,
) -> Result<String, AllocError>
    ensures { IfOk result (λ text. string_bytes text ≡ tile_identity_row number geometry.now identity zoom column
        row) }
{
    let identity = UuidLiteral(identity);
    let place = place(alloc, zoom, column, row)?;
    format!(in alloc;
        "INSERT INTO sheet_tile_identity VALUES ({number},{geometry},{identity},{place});\n"
    )
}

/// A medium of this content type.
fn medium_row(
    alloc: Global,
    number: u64,
    identity: Uuid,
    content_type: &str,
    bytes: &[u8],
) -> Result<String, AllocError>
    ensures { IfOk result (λ text. string_bytes text ≡ medium_row number identity content_type.now bytes.now) }
{
    let medium = blob(alloc, bytes)?;
    let kind = text_literal(alloc, content_type)?;
    let identity = UuidLiteral(identity);
    format!(in alloc; "INSERT INTO sheet_media VALUES ({number},{medium},{kind},{identity});\n")
}

/// A point, as the blob of a geometry.
fn geometry(alloc: Global, srs_id: i64, x: i64, y: i64) -> Result<String, AllocError>
    requires { FitsHeader srs_id }
    ensures { IfOk result (λ text. string_bytes text ≡ blob (point srs_id x y)) }
{
    let bytes = point(alloc, srs_id, x, y)?;
    blob(alloc, bytes.as_slice())
}

/// An attributes row as a feature of this geometry.
fn feature_row(
    alloc: Global,
    number: u64,
    identity: Uuid,
    geometry: &str,
    code: i64,
    label: &str,
) -> Result<String, AllocError>
    ensures { IfOk result (λ text. string_bytes text ≡ feature_row number identity geometry.now code label.now) }
{
    let name = text_literal(alloc, label)?;
    let identity = UuidLiteral(identity);
    format!(in alloc;
        "INSERT INTO sheet_rows VALUES ({number},{geometry},{code},{name},{identity});\n"
    )
}

/// A tile at this place, and the row that names it.
fn tile_rows(
    alloc: Global,
    frame: &Frame,
    number: u64,
    identity: Uuid,
    zoom: i64,
    column: i64,
    row: i64,
    bytes: &[u8],
) -> Result<String, AllocError>
    requires { IsTrue (is_good_frame frame.now) }
    ensures { IfOk result (λ text. string_bytes text
        ≡ tile_rows frame.now number identity zoom column row bytes.now) }
{
    let tile = tile_row(alloc, number, zoom, column, row, bytes)?;
    let outline = tile_outline(alloc, frame, zoom, column, row)?;
    let named = tile_identity_row(alloc, number, outline.as_str(), identity, zoom, column, row)?;
    format!(in alloc; "{tile}{named}")
}

fn write_item(alloc: Global, frame: &Frame, number: u64, item: &Item) -> Result<String, AllocError>
    requires { IsTrue (is_good_frame frame.now) }
    ensures { IfOk result (λ text. string_bytes text ≡ item_rows frame.now number item.now) }
{
    match &item.content {
        Content::Tile {
            zoom,
            column,
            row,
            bytes,
        } => tile_rows(
            alloc,
            frame,
            number,
            item.identity,
            *zoom,
            *column,
            *row,
            bytes.as_slice(),
        ),
        Content::Media {
            content_type,
            bytes,
        } => medium_row(
            alloc,
            number,
            item.identity,
            content_type.as_str(),
            bytes.as_slice(),
        ),
        Content::Row { x, y, code, label } => {
            let geometry = geometry(alloc, frame.srs_id, *x, *y)?;
            feature_row(
                alloc,
                number,
                item.identity,
                geometry.as_str(),
                *code,
                label.as_str(),
            )
        }
    }
}

/// An item of a package of this frame under this number, in the table of its kind.
///
/// # Errors
///
/// Want of memory.
pub fn item_rows(
    alloc: Global,
    frame: &Frame,
    number: u64,
    item: &Item,
) -> Result<String, OutOfMemory>
    requires { IsTrue (is_good_frame frame.now) }
    ensures { IfOk result (λ text. string_bytes text ≡ item_rows frame.now number item.now) }
{
    Ok(write_item(alloc, frame, number, item)?)
}

/// A link by the numbers of its ends.
///
/// # Errors
///
/// Want of memory.
pub fn link_row(
    alloc: Global,
    numbers: &BTreeMap<Uuid, u64>,
    link: &Relation,
) -> Result<String, OutOfMemory>
    ensures { IfOk result (λ text. (items : List ModelItem) → AreNumbersOf numbers.now items
        → string_bytes text ≡ link_row items link.now) }
{
    let Relation {
        mapping,
        base,
        other,
    } = *link;
    let base = number_of(numbers, base);
    let other = number_of(numbers, other);
    Ok(format!(in alloc; "INSERT INTO {mapping} (base_id,related_id) VALUES ({base},{other});\n")?)
}
