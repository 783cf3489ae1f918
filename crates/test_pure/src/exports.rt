//! Statements that were written by hand from OGC GeoPackage 1.3 and OGC 18-000; the bytes of
//! doubles are those of Python's `struct`.

use crate::steps::{Of, Table, Told, cut, numbers, uuid, wrong_of};
use crate::values::item;
use matrix_rules::check::FrameRules;
use sheet_types::command::{Item, Mapping, Relation};
use sheet_types::error::OutOfMemory;
use sheet_types::frame::Frame;
use sheet_types::reading::read_frame;
use std::alloc::Global;
use std::collections::BTreeMap;
use uuid::Uuid;
use view_export::lines::{item_rows, link_row};
use view_export::literals::{Thousandths, text_literal};
use view_export::matrices::matrices;
use view_export::numbers::{Counts, number_of, numbers_of};
use view_export::opening::{closing, opening};
use view_export::points::point;

// Two tiles, a medium and a row, by the last bytes of their UUIDs: the second tile is 2, the medium and the row are 1.
fn items(alloc: Global) -> Result<Vec<Item>, OutOfMemory> {
    let mut list = Vec::new(alloc);
    for (name, words) in [
        (5, "tile"),
        (9, "tile"),
        (3, "media image/jpeg|JP"),
        (4, "row 7|gate"),
    ] {
        list.push(item(alloc, uuid(0, name), words)?)?;
    }
    Ok(list)
}

// The numbers of those.
fn all_numbers(alloc: Global) -> Result<BTreeMap<Uuid, u64>, OutOfMemory> {
    let list = items(alloc)?;
    numbers_of(alloc, list.as_slice())
}

// The row of a link of the row to the second tile.
fn tell_link(alloc: Global, told: &mut Told) -> Result<(), OutOfMemory> {
    let numbers = all_numbers(alloc)?;
    let link = Relation::new(Mapping::RowsTiles, uuid(0, 4), uuid(0, 9));
    told.value(&link_row(alloc, &numbers, &link)?);
    Ok(())
}

// Of an item its rows under a number; or how many of its kind there are after it was counted.
fn tell_item(
    alloc: Global,
    given: &Item,
    number: Option<u64>,
    told: &mut Told,
) -> Result<(), OutOfMemory> {
    let content = &given.content;
    match (number, read_frame(FRAME)) {
        (Some(number), Some(frame)) => {
            if frame.check().is_err() {
                told.unread("no frame");
            } else {
                told.value(&item_rows(alloc, &frame, number, given)?);
            }
        }
        (Some(_), None) => told.unread("frame"),
        (None, _) => told.value(&Counts::none().count_content(content).of_kind(content)),
    }
    Ok(())
}

fn tell_rows(
    alloc: Global,
    number: Option<u64>,
    words: &str,
    told: &mut Told,
) -> Result<(), OutOfMemory> {
    let given = item(alloc, uuid(0, 1), words)?;
    tell_item(alloc, &given, number, told)
}

fn tell_point(alloc: Global, n: [i64; 8], told: &mut Told) -> Result<(), OutOfMemory> {
    match i32::try_from(n[0]) {
        Ok(srs_id) => {
            let bytes = point(alloc, i64::from(srs_id), n[1], n[2])?;
            told.value(&hex::encode(alloc, bytes.as_slice())?);
        }
        Err(_) => told.unread("point"),
    }
    Ok(())
}

// Whether an opening begins so, has these, ends so, and names a system of its own.
fn tell_opening(text: &str, told: &mut Told) {
    told.sign(text.starts_with(FRONT));
    told.sign(text.contains(SYSTEM));
    told.sign(text.contains(CONTENTS));
    told.sign(text.ends_with(BACK));
    told.sign(text.contains("'EPSG:"));
}

fn tell_frame(
    alloc: Global,
    frame: &Frame,
    asks: &str,
    told: &mut Told,
) -> Result<(), OutOfMemory> {
    if frame.check().is_err() {
        told.unread("no frame");
    } else if asks == "matrices" {
        told.value(&matrices(alloc, frame)?);
    } else {
        tell_opening(opening(alloc, frame, uuid(0, 10), 7)?.as_str(), told);
    }
    Ok(())
}

// A part of an export that goes by numbers or by a frame.
fn tell_numbered(
    alloc: Global,
    asks: &str,
    words: &str,
    told: &mut Told,
) -> Result<(), OutOfMemory> {
    match (asks, numbers(words), read_frame(words)) {
        ("thousandths", Some(n), _) => told.value(&Thousandths(n[0])),
        ("point", Some(n), _) => tell_point(alloc, n, told)?,
        ("matrices" | "opening", _, Some(frame)) => tell_frame(alloc, &frame, asks, told)?,
        _ => told.unread(asks),
    }
    Ok(())
}

/// A part of an export.
pub(crate) fn export_of(alloc: Global, question: &str, told: &mut Told) -> Result<(), OutOfMemory> {
    let (asks, words) = cut(question);
    let (number, rest) = cut(words);
    match (asks, number.parse::<u8>()) {
        ("literal", _) => told.value(&text_literal(alloc, words)?),
        ("rows", Ok(number)) => tell_rows(alloc, Some(u64::from(number)), rest, told)?,
        ("count", _) => tell_rows(alloc, None, words, told)?,
        ("number_of", Ok(name)) => told.value(&number_of(&all_numbers(alloc)?, uuid(0, name))),
        ("link", _) => tell_link(alloc, told)?,
        ("closing", _) => told.word(closing()),
        _ => tell_numbered(alloc, asks, words, told)?,
    }
    Ok(())
}

// The frame of the items.
const FRAME: &str = "25832,0,0,4096,4096,256,256,0,3,1,1";

// What the opening of an export begins with, what it contains, and what it ends with.
const FRONT: &str = "BEGIN;\nPRAGMA application_id = 1196444487;\nPRAGMA user_version = 10300;\n\
    CREATE TABLE gpkg_spatial_ref_sys (srs_name TEXT NOT NULL,srs_id INTEGER NOT NULL PRIMARY KEY,";

const SYSTEM: &str =
    "INSERT INTO gpkg_spatial_ref_sys VALUES ('EPSG:25832',25832,'EPSG',25832,'undefined',NULL);\n";

const CONTENTS: &str =
    "VALUES ('sheet_rows','features','sheet_rows','package 00000000-0000-4000-8000-00000000000a',\
    0.000,0.000,4.096,4.096,25832);\n";

const BACK: &str = "INSERT INTO sheet_export VALUES ('00000000-0000-4000-8000-00000000000a',7);\n";

const EXPORTS: Table = Table(
    27,
    "thousandths 0 => [0.000]
thousandths 5 => [0.005]
thousandths -250 => [-0.250]
thousandths 1000 => [1.000]
thousandths 500000123 => [500000.123]
thousandths -1000000000000 => [-1000000000.000]
literal  => ['']
literal gate; -- => ['gate; --']
literal Gr\u{f6}\u{df}e => ['Gr\u{f6}\u{df}e']
literal it's => [CAST(X'69742773' AS TEXT)]
literal a\u{0}b => [CAST(X'610062' AS TEXT)]
point 25832 500123456 -250 => [47500001e86400000101000000fca9f1d26d861e41000000000000d0bf]
point -1 0 -1000000000000 => [47500001ffffffff010100000000000000000000000000000065cdcdc1]
rows 1 tile => [INSERT INTO sheet_tiles VALUES (1,2,3,3,X'41');^\
    INSERT INTO sheet_tile_identity VALUES (1,X'\
    47500001e864000001030000000100000005000000fa7e6abc749308400000000000000000fca9f1\
    d24d6210400000000000000000fca9f1d24d621040fca9f1d24d62f03ffa7e6abc74930840fca9f1\
    d24d62f03ffa7e6abc749308400000000000000000',\
    '00000000-0000-4000-8000-000000000001',2,3,3);^]
rows 12 media image/jpeg|JP => [INSERT INTO sheet_media VALUES \
    (12,X'4a50','image/jpeg','00000000-0000-4000-8000-000000000001');^]
rows 2 row 7|gate => [INSERT INTO sheet_rows VALUES (2,\
    X'47500001e864000001010000000000000000000000fca9f1d24d621040',7,'gate',\
    '00000000-0000-4000-8000-000000000001');^]
number_of 5 => [1]
number_of 9 => [2]
number_of 3 => [1]
number_of 4 => [1]
number_of 6 => [0]
count media image/jpeg|JP => [1]
link => [INSERT INTO rows_tiles (base_id,related_id) VALUES (1,2);^]
matrices 25832,0,0,4096,4096,256,256,0,3,1,1 => [\
    INSERT INTO gpkg_tile_matrix VALUES ('sheet_tiles',0,1,1,256,256,0.016,0.016);^\
    INSERT INTO gpkg_tile_matrix VALUES ('sheet_tiles',1,2,2,256,256,0.008,0.008);^\
    INSERT INTO gpkg_tile_matrix VALUES ('sheet_tiles',2,4,4,256,256,0.004,0.004);^]
opening 25832,0,0,4096,4096,256,256,0,3,1,1 => [+++++]
# the degrees of the earth, which the opening always knows
opening 4326,0,0,4096,4096,256,256,0,3,1,1 => [+--+-]
closing => [COMMIT;^]
",
);

#[test]
fn exports(rt: HostRuntime) {
    assert_eq!(rt; wrong_of(rt.alloc(), Of::Exports, EXPORTS).wrong(), "");
}
