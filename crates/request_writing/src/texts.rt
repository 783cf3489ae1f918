//! A request list as one text.
ghost use Rattle.std.specs.Prelude.{◌≡◌, ◌∷◌, [], ℕ, List, IfOk, OnOk, Some, codes, map, string_bytes};
ghost use Rattle.std.specs.Fmt.{signed_decimal};
ghost use Rattle.std.specs.Io.KnownBytes.{Appends};
ghost use Rattle.hex.specs.Hex.{encode_lower};
ghost use Rattle.csv.specs.Writing.{default_writer, row_text, text_written};
ghost use Rattle.request_csv.specs.Requests.{header};
ghost use Rattle.request_writing.specs.RequestTexts.{IsBetween, content_fields, list_text, records_text};
ghost use Rattle.request_writing.specs.RequestTexts.{request_fields};
ghost use Rattle.sheet_types.specs.Texts.{mapping_word, mode_word, uuid_text};

use csv::{Writer, WriterBuilder};
use sheet_types::command::{Command, Content, Mode, Relation, Request};
use sheet_types::error::OutOfMemory;
use sheet_types::frame::Rect;
use std::alloc::Global;
use uuid::Uuid;

// Writes one record.
fn write_record(writer: &mut Writer<Vec<u8>>, fields: &[&[u8]]) -> Result<(), OutOfMemory>
    requires { IsBetween writer.old }
    ensures text { OnOk result (Appends (text_written (λ v. Some v.items) writer.old)
        (text_written (λ v. Some v.items) writer.new) (row_text default_writer (map (λ f. f.now) fields.now))) }
    ensures between { OnOk result (IsBetween writer.new) }
{
    match writer.write_fields(fields) {
        Ok(()) => Ok(()),
        Err(_) => Err(OutOfMemory),
    }
}

// Writes the names of the columns.
fn write_header(writer: &mut Writer<Vec<u8>>) -> Result<(), OutOfMemory>
    requires { IsBetween writer.old }
    ensures text { OnOk result (Appends (text_written (λ v. Some v.items) writer.old)
        (text_written (λ v. Some v.items) writer.new) (row_text default_writer header)) }
    ensures between { OnOk result (IsBetween writer.new) }
{
    write_record(
        writer,
        &[
            b"request",
            b"at",
            b"command",
            b"package",
            b"identity",
            b"other",
            b"kind",
            b"zoom",
            b"column",
            b"row",
            b"last_column",
            b"last_row",
            b"x",
            b"y",
            b"code",
            b"ticket",
            b"text",
            b"data",
        ],
    )
}

// The first two fields of a record, as texts.
#[derive(Drop)]
struct Front {
    id: String,
    at: String,
}

// The first two fields of a request.
fn front_of(alloc: Global, request: &Request) -> Result<Front, OutOfMemory>
    ensures id { IfOk result (λ front. string_bytes front.id ≡ uuid_text request.now.id) }
    ensures at { IfOk result (λ front. string_bytes front.at ≡ request.now.at) }
{
    let id = format!(in alloc; "{}", request.id)?;
    let at = request.at.as_str().to_string(alloc)?;
    Ok(Front { id, at })
}

// Two identities, as texts.
fn identity_texts(alloc: Global, one: Uuid, two: Uuid) -> Result<(String, String), OutOfMemory>
    ensures one { IfOk result (λ texts. string_bytes texts.0 ≡ uuid_text one) }
    ensures two { IfOk result (λ texts. string_bytes texts.1 ≡ uuid_text two) }
{
    let one = format!(in alloc; "{one}")?;
    let two = format!(in alloc; "{two}")?;
    Ok((one, two))
}

// Writes the addition of a tile at this place.
fn write_tile(
    writer: &mut Writer<Vec<u8>>,
    alloc: Global,
    front: &Front,
    item: (Uuid, Uuid),
    place: (i64, i64, i64),
    bytes: &[u8],
) -> Result<(), OutOfMemory>
    requires { IsBetween writer.old }
    ensures text { OnOk result (Appends (text_written (λ v. Some v.items) writer.old)
        (text_written (λ v. Some v.items) writer.new) (row_text default_writer
        (string_bytes front.now.id ∷ string_bytes front.now.at ∷ codes "add" ∷ uuid_text item.0
        ∷ uuid_text item.1
        ∷ [] ∷ codes "tile" ∷ signed_decimal place.0 ∷ signed_decimal place.1 ∷ signed_decimal place.2 ∷ [] ∷ []
        ∷ [] ∷ [] ∷ [] ∷ [] ∷ [] ∷ encode_lower bytes.now ∷ []))) }
    ensures between { OnOk result (IsBetween writer.new) }
{
    let (id, at) = (front.id.as_bytes(), front.at.as_bytes());
    let (package, identity) = identity_texts(alloc, item.0, item.1)?;
    let (package, identity) = (package.as_bytes(), identity.as_bytes());
    let zoom = format!(in alloc; "{}", place.0)?;
    let column = format!(in alloc; "{}", place.1)?;
    let row = format!(in alloc; "{}", place.2)?;
    let data = hex::encode(alloc, bytes)?;
    let (zoom, column, row) = (zoom.as_bytes(), column.as_bytes(), row.as_bytes());
    let data = data.as_bytes();
    write_record(
        writer,
        &[
            id, at, b"add", package, identity, b"", b"tile", zoom, column, row, b"", b"", b"", b"",
            b"", b"", b"", data,
        ],
    )
}

// Writes the addition of a medium of this content type.
fn write_medium(
    writer: &mut Writer<Vec<u8>>,
    alloc: Global,
    front: &Front,
    item: (Uuid, Uuid),
    content_type: &str,
    bytes: &[u8],
) -> Result<(), OutOfMemory>
    requires { IsBetween writer.old }
    ensures text { OnOk result (Appends (text_written (λ v. Some v.items) writer.old)
        (text_written (λ v. Some v.items) writer.new) (row_text default_writer
        (string_bytes front.now.id ∷ string_bytes front.now.at ∷ codes "add" ∷ uuid_text item.0
        ∷ uuid_text item.1
        ∷ [] ∷ codes "media" ∷ [] ∷ [] ∷ [] ∷ [] ∷ [] ∷ [] ∷ [] ∷ [] ∷ [] ∷ content_type.now
        ∷ encode_lower bytes.now ∷ []))) }
    ensures between { OnOk result (IsBetween writer.new) }
{
    let (id, at) = (front.id.as_bytes(), front.at.as_bytes());
    let (package, identity) = identity_texts(alloc, item.0, item.1)?;
    let (package, identity) = (package.as_bytes(), identity.as_bytes());
    let data = hex::encode(alloc, bytes)?;
    let (text, data) = (content_type.as_bytes(), data.as_bytes());
    write_record(
        writer,
        &[
            id, at, b"add", package, identity, b"", b"media", b"", b"", b"", b"", b"", b"", b"",
            b"", b"", text, data,
        ],
    )
}

// Writes the addition of an attributes row at this point, with this code and label.
fn write_row(
    writer: &mut Writer<Vec<u8>>,
    alloc: Global,
    front: &Front,
    item: (Uuid, Uuid),
    numbers: (i64, i64, i64),
    label: &str,
) -> Result<(), OutOfMemory>
    requires { IsBetween writer.old }
    ensures text { OnOk result (Appends (text_written (λ v. Some v.items) writer.old)
        (text_written (λ v. Some v.items) writer.new) (row_text default_writer
        (string_bytes front.now.id ∷ string_bytes front.now.at ∷ codes "add" ∷ uuid_text item.0
        ∷ uuid_text item.1
        ∷ [] ∷ codes "row" ∷ [] ∷ [] ∷ [] ∷ [] ∷ [] ∷ signed_decimal numbers.0 ∷ signed_decimal numbers.1
        ∷ signed_decimal numbers.2 ∷ [] ∷ label.now ∷ [] ∷ []))) }
    ensures between { OnOk result (IsBetween writer.new) }
{
    let (id, at) = (front.id.as_bytes(), front.at.as_bytes());
    let (package, identity) = identity_texts(alloc, item.0, item.1)?;
    let (package, identity) = (package.as_bytes(), identity.as_bytes());
    let x = format!(in alloc; "{}", numbers.0)?;
    let y = format!(in alloc; "{}", numbers.1)?;
    let code = format!(in alloc; "{}", numbers.2)?;
    let (x, y, code) = (x.as_bytes(), y.as_bytes(), code.as_bytes());
    let text = label.as_bytes();
    write_record(
        writer,
        &[
            id, at, b"add", package, identity, b"", b"row", b"", b"", b"", b"", b"", x, y, code,
            b"", text, b"",
        ],
    )
}

// Writes a deletion.
fn write_delete(
    writer: &mut Writer<Vec<u8>>,
    alloc: Global,
    front: &Front,
    item: (Uuid, Uuid),
) -> Result<(), OutOfMemory>
    requires { IsBetween writer.old }
    ensures text { OnOk result (Appends (text_written (λ v. Some v.items) writer.old)
        (text_written (λ v. Some v.items) writer.new) (row_text default_writer
        (string_bytes front.now.id ∷ string_bytes front.now.at ∷ codes "delete" ∷ uuid_text item.0
        ∷ uuid_text item.1
        ∷ [] ∷ [] ∷ [] ∷ [] ∷ [] ∷ [] ∷ [] ∷ [] ∷ [] ∷ [] ∷ [] ∷ [] ∷ [] ∷ []))) }
    ensures between { OnOk result (IsBetween writer.new) }
{
    let (id, at) = (front.id.as_bytes(), front.at.as_bytes());
    let (package, identity) = identity_texts(alloc, item.0, item.1)?;
    let (package, identity) = (package.as_bytes(), identity.as_bytes());
    write_record(
        writer,
        &[
            id, at, b"delete", package, identity, b"", b"", b"", b"", b"", b"", b"", b"", b"", b"",
            b"", b"", b"",
        ],
    )
}

// Writes a link or an unlink, by its word.
fn write_relation(
    writer: &mut Writer<Vec<u8>>,
    alloc: Global,
    front: &Front,
    word: &str,
    package: Uuid,
    link: &Relation,
) -> Result<(), OutOfMemory>
    requires { IsBetween writer.old }
    ensures text { OnOk result (Appends (text_written (λ v. Some v.items) writer.old)
        (text_written (λ v. Some v.items) writer.new) (row_text default_writer
        (string_bytes front.now.id ∷ string_bytes front.now.at ∷ word.now ∷ uuid_text «package»
        ∷ uuid_text link.now.base ∷ uuid_text link.now.other ∷ mapping_word link.now.mapping ∷ [] ∷ [] ∷ [] ∷ []
        ∷ [] ∷ [] ∷ [] ∷ [] ∷ [] ∷ [] ∷ [] ∷ []))) }
    ensures between { OnOk result (IsBetween writer.new) }
{
    let (id, at) = (front.id.as_bytes(), front.at.as_bytes());
    let (base, other) = identity_texts(alloc, link.base, link.other)?;
    let package = format!(in alloc; "{package}")?;
    let kind = format!(in alloc; "{}", link.mapping)?;
    let (package, base, other) = (package.as_bytes(), base.as_bytes(), other.as_bytes());
    let (word, kind) = (word.as_bytes(), kind.as_bytes());
    write_record(
        writer,
        &[
            id, at, word, package, base, other, kind, b"", b"", b"", b"", b"", b"", b"", b"", b"",
            b"", b"",
        ],
    )
}

// Writes a split.
fn write_split(
    writer: &mut Writer<Vec<u8>>,
    alloc: Global,
    front: &Front,
    loan: (Uuid, Uuid),
    mode: Mode,
    rect: &Rect,
) -> Result<(), OutOfMemory>
    requires { IsBetween writer.old }
    ensures text { OnOk result (Appends (text_written (λ v. Some v.items) writer.old)
        (text_written (λ v. Some v.items) writer.new) (row_text default_writer
        (string_bytes front.now.id ∷ string_bytes front.now.at ∷ codes "split" ∷ uuid_text loan.0 ∷ []
        ∷ uuid_text loan.1 ∷ mode_word mode ∷ signed_decimal rect.now.zoom ∷ signed_decimal rect.now.column
        ∷ signed_decimal rect.now.row ∷ signed_decimal rect.now.last_column ∷ signed_decimal rect.now.last_row
        ∷ [] ∷ [] ∷ [] ∷ [] ∷ [] ∷ [] ∷ []))) }
    ensures between { OnOk result (IsBetween writer.new) }
{
    let (id, at) = (front.id.as_bytes(), front.at.as_bytes());
    let (package, child) = identity_texts(alloc, loan.0, loan.1)?;
    let (package, child) = (package.as_bytes(), child.as_bytes());
    let Rect {
        zoom,
        column,
        last_column,
        row,
        last_row,
    } = *rect;
    let kind = format!(in alloc; "{mode}")?;
    let zoom = format!(in alloc; "{zoom}")?;
    let column = format!(in alloc; "{column}")?;
    let row = format!(in alloc; "{row}")?;
    let last_column = format!(in alloc; "{last_column}")?;
    let last_row = format!(in alloc; "{last_row}")?;
    let (kind, zoom, column) = (kind.as_bytes(), zoom.as_bytes(), column.as_bytes());
    let (row, last_column, last_row) = (
        row.as_bytes(),
        last_column.as_bytes(),
        last_row.as_bytes(),
    );
    write_record(
        writer,
        &[
            id,
            at,
            b"split",
            package,
            b"",
            child,
            kind,
            zoom,
            column,
            row,
            last_column,
            last_row,
            b"",
            b"",
            b"",
            b"",
            b"",
            b"",
        ],
    )
}

// Writes a merge.
fn write_merge(
    writer: &mut Writer<Vec<u8>>,
    alloc: Global,
    front: &Front,
    loan: (Uuid, Uuid),
    ticket: i64,
) -> Result<(), OutOfMemory>
    requires { IsBetween writer.old }
    ensures text { OnOk result (Appends (text_written (λ v. Some v.items) writer.old)
        (text_written (λ v. Some v.items) writer.new) (row_text default_writer
        (string_bytes front.now.id ∷ string_bytes front.now.at ∷ codes "merge" ∷ uuid_text loan.0 ∷ []
        ∷ uuid_text loan.1 ∷ [] ∷ [] ∷ [] ∷ [] ∷ [] ∷ [] ∷ [] ∷ [] ∷ [] ∷ signed_decimal ticket ∷ [] ∷ [] ∷ []))) }
    ensures between { OnOk result (IsBetween writer.new) }
{
    let (id, at) = (front.id.as_bytes(), front.at.as_bytes());
    let (child, into) = identity_texts(alloc, loan.0, loan.1)?;
    let (child, into) = (child.as_bytes(), into.as_bytes());
    let ticket = format!(in alloc; "{ticket}")?;
    let ticket = ticket.as_bytes();
    write_record(
        writer,
        &[
            id, at, b"merge", child, b"", into, b"", b"", b"", b"", b"", b"", b"", b"", b"",
            ticket, b"", b"",
        ],
    )
}

// Writes the addition of a content.
fn write_add(
    writer: &mut Writer<Vec<u8>>,
    alloc: Global,
    front: &Front,
    item: (Uuid, Uuid),
    content: &Content,
) -> Result<(), OutOfMemory>
    requires { IsBetween writer.old }
    ensures text { OnOk result (Appends (text_written (λ v. Some v.items) writer.old)
        (text_written (λ v. Some v.items) writer.new) (row_text default_writer
        (string_bytes front.now.id ∷ string_bytes front.now.at ∷ codes "add" ∷ uuid_text item.0
        ∷ uuid_text item.1
        ∷ [] ∷ content_fields content.now))) }
    ensures between { OnOk result (IsBetween writer.new) }
{
    match content {
        Content::Tile {
            zoom,
            column,
            row,
            bytes,
        } => write_tile(
            writer,
            alloc,
            front,
            item,
            (*zoom, *column, *row),
            bytes.as_slice(),
        ),
        Content::Media {
            content_type,
            bytes,
        } => write_medium(
            writer,
            alloc,
            front,
            item,
            content_type.as_str(),
            bytes.as_slice(),
        ),
        Content::Row { x, y, code, label } => {
            write_row(writer, alloc, front, item, (*x, *y, *code), label.as_str())
        }
    }
}

// Writes the record of a request.
fn write_request(
    writer: &mut Writer<Vec<u8>>,
    alloc: Global,
    request: &Request,
) -> Result<(), OutOfMemory>
    requires { IsBetween writer.old }
    ensures text { OnOk result (Appends (text_written (λ v. Some v.items) writer.old)
        (text_written (λ v. Some v.items) writer.new) (row_text default_writer (request_fields request.now))) }
    ensures between { OnOk result (IsBetween writer.new) }
{
    let front = front_of(alloc, request)?;
    match &request.command {
        Command::Add {
            package,
            identity,
            content,
        } => write_add(writer, alloc, &front, (*package, *identity), content),
        Command::Delete { package, identity } => {
            write_delete(writer, alloc, &front, (*package, *identity))
        }
        Command::Link {
            package,
            mapping,
            base,
            other,
        } => {
            let link = Relation::new(*mapping, *base, *other);
            write_relation(writer, alloc, &front, "link", *package, &link)
        }
        Command::Unlink {
            package,
            mapping,
            base,
            other,
        } => {
            let link = Relation::new(*mapping, *base, *other);
            write_relation(writer, alloc, &front, "unlink", *package, &link)
        }
        Command::Split {
            package,
            child,
            mode,
            rect,
        } => write_split(writer, alloc, &front, (*package, *child), *mode, rect),
        Command::Merge {
            child,
            into,
            ticket,
        } => write_merge(writer, alloc, &front, (*child, *into), *ticket),
    }
}

// Writes the records in turn.
fn write_requests(
    writer: &mut Writer<Vec<u8>>,
    alloc: Global,
    requests: &[Request],
) -> Result<(), OutOfMemory>
    requires { IsBetween writer.old }
    ensures text { OnOk result (Appends (text_written (λ v. Some v.items) writer.old)
        (text_written (λ v. Some v.items) writer.new) (records_text requests.now)) }
    ensures between { OnOk result (IsBetween writer.new) }
{
    for request in requests {
        write_request(writer, alloc, request)?;
    }
    Ok(())
}

/// The text of a request list: a record of the names of the columns, and one for each request, with LF ends.
///
/// # Errors
///
/// Want of memory.
pub fn list_text(alloc: Global, requests: &[Request]) -> Result<Vec<u8>, OutOfMemory>
    ensures { IfOk result (λ text. text.items ≡ list_text requests.now) }
{
    let mut writer = WriterBuilder::new().from_writer(Vec::new(alloc));
    write_header(&mut writer)?;
    write_requests(&mut writer, alloc, requests)?;
    match writer.into_inner() {
        Ok(text) => Ok(text),
        Err(_) => Err(OutOfMemory),
    }
}
