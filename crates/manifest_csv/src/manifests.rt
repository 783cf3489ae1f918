//! The manifest of a package as one text.
ghost use Rattle.std.specs.Prelude.{◌≡◌, ◌∷◌, [], ℕ, List, IfOk, OnOk, Some, codes, decimal, map};
ghost use Rattle.std.specs.Prelude.{string_bytes};
ghost use Rattle.std.specs.Fmt.{signed_decimal};
ghost use Rattle.std.specs.Io.KnownBytes.{Appends};
ghost use Rattle.hex.specs.Hex.{encode_lower};
ghost use Rattle.csv.specs.Writing.{default_writer, row_text, text_written};
ghost use Rattle.manifest_csv.specs.Manifests.{IsBetween, item_fields, link_fields, manifest_header, manifest_of};
ghost use Rattle.manifest_csv.specs.Manifests.{records_text};
ghost use Rattle.sheet_types.specs.Texts.{fingerprint, size, uuid_text};

use csv::{Writer, WriterBuilder};
use sheet_types::command::{Content, Item, Relation};
use sheet_types::error::OutOfMemory;
use sheet_types::fingerprints::{Spelled, fingerprint};
use std::alloc::Global;

// Writes one record.
fn write_record(writer: &mut Writer<Vec<u8>>, fields: &[&[u8]]) -> Result<(), OutOfMemory>
    requires { IsBetween writer.old }
    ensures text { OnOk result (Appends (text_written (λ v. Some v.items) writer.old)
        (text_written (λ v. Some v.items) writer.new) (row_text default_writer (map (λ f. f.now) fields.now))) }
    ensures between { OnOk result (IsBetween writer.new) }
{
    match writer.write_fields(fields) {
        Ok(()) => Ok(()),
        Err(_) => Err(OutOfMemory),
    }
}

// Writes the names of the columns.
pub(crate) fn write_header(writer: &mut Writer<Vec<u8>>) -> Result<(), OutOfMemory>
    requires { IsBetween writer.old }
    ensures text { OnOk result (Appends (text_written (λ v. Some v.items) writer.old)
        (text_written (λ v. Some v.items) writer.new) (row_text default_writer manifest_header)) }
    ensures between { OnOk result (IsBetween writer.new) }
{
    write_record(
        writer,
        &[
            b"kind",
            b"identity",
            b"other",
            b"zoom",
            b"column",
            b"row",
            b"x",
            b"y",
            b"code",
            b"size",
            b"fingerprint",
            b"text",
        ],
    )
}

// The identity, the size and the fingerprint of an item, as texts.
fn common_texts(alloc: Global, item: &Item) -> Result<(String, String, String), OutOfMemory>
    ensures identity { IfOk result (λ texts. string_bytes texts.0 ≡ uuid_text item.now.identity) }
    ensures size { IfOk result (λ texts. string_bytes texts.1 ≡ decimal (size item.now.content)) }
    ensures digest { IfOk result (λ texts. string_bytes texts.2 ≡ encode_lower (fingerprint item.now.content)) }
{
    let identity = format!(in alloc; "{}", item.identity)?;
    let size = format!(in alloc; "{}", item.content.size())?;
    let digest = format!(in alloc; "{}", Spelled(fingerprint(&item.content)))?;
    Ok((identity, size, digest))
}

// Writes the record of a tile at this place.
fn write_tile(
    writer: &mut Writer<Vec<u8>>,
    alloc: Global,
    tile: &Item,
    zoom: i64,
    column: i64,
    row: i64,
) -> Result<(), OutOfMemory>
    requires { IsBetween writer.old }
    ensures text { OnOk result (Appends (text_written (λ v. Some v.items) writer.old)
        (text_written (λ v. Some v.items) writer.new) (row_text default_writer
        (codes "tile" ∷ uuid_text tile.now.identity ∷ [] ∷ signed_decimal zoom ∷ signed_decimal column
        ∷ signed_decimal row ∷ [] ∷ [] ∷ [] ∷ decimal (size tile.now.content)
        ∷ encode_lower (fingerprint tile.now.content) ∷ [] ∷ []))) }
    ensures between { OnOk result (IsBetween writer.new) }
{
    let (id, size, digest) = common_texts(alloc, tile)?;
    let (id, size, digest) = (id.as_bytes(), size.as_bytes(), digest.as_bytes());
    let zoom = format!(in alloc; "{zoom}")?;
    let column = format!(in alloc; "{column}")?;
    let row = format!(in alloc; "{row}")?;
    let (zoom, column, row) = (zoom.as_bytes(), column.as_bytes(), row.as_bytes());
    write_record(
        writer,
        &[
            b"tile", id, b"", zoom, column, row, b"", b"", b"", size, digest, b"",
        ],
    )
}

// Writes the record of a medium of this content type.
fn write_medium(
    writer: &mut Writer<Vec<u8>>,
    alloc: Global,
    medium: &Item,
    content_type: &str,
) -> Result<(), OutOfMemory>
    requires { IsBetween writer.old }
    ensures text { OnOk result (Appends (text_written (λ v. Some v.items) writer.old)
        (text_written (λ v. Some v.items) writer.new) (row_text default_writer
        (codes "media" ∷ uuid_text medium.now.identity ∷ [] ∷ [] ∷ [] ∷ [] ∷ [] ∷ [] ∷ []
        ∷ decimal (size medium.now.content) ∷ encode_lower (fingerprint medium.now.content) ∷ content_type.now
        ∷ []))) }
    ensures between { OnOk result (IsBetween writer.new) }
{
    let (id, size, digest) = common_texts(alloc, medium)?;
    let (id, size, digest) = (id.as_bytes(), size.as_bytes(), digest.as_bytes());
    let text = content_type.as_bytes();
    write_record(
        writer,
        &[
            b"media", id, b"", b"", b"", b"", b"", b"", b"", size, digest, text,
        ],
    )
}

// Writes the record of an attributes row at this point, with this code and label.
fn write_row(
    writer: &mut Writer<Vec<u8>>,
    alloc: Global,
    row: &Item,
    x: i64,
    y: i64,
    code: i64,
    label: &str,
) -> Result<(), OutOfMemory>
    requires { IsBetween writer.old }
    ensures text { OnOk result (Appends (text_written (λ v. Some v.items) writer.old)
        (text_written (λ v. Some v.items) writer.new) (row_text default_writer
        (codes "row" ∷ uuid_text row.now.identity ∷ [] ∷ [] ∷ [] ∷ [] ∷ signed_decimal x
        ∷ signed_decimal y
        ∷ signed_decimal code ∷ decimal (size row.now.content) ∷ encode_lower (fingerprint row.now.content)
        ∷ label.now ∷ []))) }
    ensures between { OnOk result (IsBetween writer.new) }
{
    let (id, size, digest) = common_texts(alloc, row)?;
    let (id, size, digest) = (id.as_bytes(), size.as_bytes(), digest.as_bytes());
    let x = format!(in alloc; "{x}")?;
    let y = format!(in alloc; "{y}")?;
    let code = format!(in alloc; "{code}")?;
    let (x, y, code, text) = (
        x.as_bytes(),
        y.as_bytes(),
        code.as_bytes(),
        label.as_bytes(),
    );
    write_record(
        writer,
        &[
            b"row", id, b"", b"", b"", b"", x, y, code, size, digest, text,
        ],
    )
}

// What a manifest has a record of.
pub(crate) trait Record {
    ghost fields: { Self → List (List ℕ) };

    // Writes the record.
    fn write(&self, writer: &mut Writer<Vec<u8>>, alloc: Global) -> Result<(), OutOfMemory>
        requires { IsBetween writer.old }
        ensures text { OnOk result (Appends (text_written (λ v. Some v.items) writer.old)
            (text_written (λ v. Some v.items) writer.new) (row_text default_writer (fields self.now))) }
        ensures between { OnOk result (IsBetween writer.new) };
}

// The fields that don't apply to an item's kind are empty.
impl Record for Item {
    ghost fields = { item_fields };

    fn write(&self, writer: &mut Writer<Vec<u8>>, alloc: Global) -> Result<(), OutOfMemory> {
        match &self.content {
            Content::Tile {
                zoom,
                column,
                row,
                ..
            } => write_tile(writer, alloc, self, *zoom, *column, *row),
            Content::Media { content_type, .. } => {
                write_medium(writer, alloc, self, content_type.as_str())
            }
            Content::Row { x, y, code, label } => {
                write_row(writer, alloc, self, *x, *y, *code, label.as_str())
            }
        }
    }
}

// A link has no place, the size 0, and neither fingerprint nor text.
impl Record for Relation {
    ghost fields = { link_fields };

    fn write(&self, writer: &mut Writer<Vec<u8>>, alloc: Global) -> Result<(), OutOfMemory> {
        let kind = format!(in alloc; "{}", self.mapping)?;
        let base = format!(in alloc; "{}", self.base)?;
        let other = format!(in alloc; "{}", self.other)?;
        let (kind, base, other) = (kind.as_bytes(), base.as_bytes(), other.as_bytes());
        write_record(
            writer,
            &[
                kind, base, other, b"", b"", b"", b"", b"", b"", b"0", b"", b"",
            ],
        )
    }
}

// Writes the records in turn.
pub(crate) fn write_records<R: Record>(
    writer: &mut Writer<Vec<u8>>,
    alloc: Global,
    records: &[R],
) -> Result<(), OutOfMemory>
    requires { IsBetween writer.old }
    ensures text { OnOk result (Appends (text_written (λ v. Some v.items) writer.old)
        (text_written (λ v. Some v.items) writer.new) (records_text R.fields records.now)) }
    ensures between { OnOk result (IsBetween writer.new) }
{
    for record in records {
        record.write(writer, alloc)?;
    }
    Ok(())
}

// All that was written.
pub(crate) fn text_of(writer: Writer<Vec<u8>>) -> Result<Vec<u8>, OutOfMemory>
    requires { IsBetween writer }
    ensures { IfOk result (λ text. Some text.items ≡ text_written (λ v. Some v.items) writer) }
{
    match writer.into_inner() {
        Ok(text) => Ok(text),
        Err(_) => Err(OutOfMemory),
    }
}

/// The manifest of a package that holds these items and links: a header and one record each, as CSV
/// (RFC 4180, section 2) with LF ends (profile). The order is that of the lists, which the register
/// keeps by kind, identity and other end.
pub fn manifest_text(
    alloc: Global,
    items: &[Item],
    links: &[Relation],
) -> Result<Vec<u8>, OutOfMemory>
    ensures { IfOk result (λ text. text.items ≡ manifest_of items.now links.now) }
{
    let mut writer = WriterBuilder::new().from_writer(Vec::new(alloc));
    write_header(&mut writer)?;
    write_records(&mut writer, alloc, items)?;
    write_records(&mut writer, alloc, links)?;
    text_of(writer)
}
