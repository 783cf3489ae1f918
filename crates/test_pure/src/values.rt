//! Values against vectors from outside: digests by another program's SHA-256, and texts as the formats state them.

use crate::receipts::ARCHIVE;
use crate::steps::{Of, Table, Told, cut, in_brackets, unescaped, uuid, wrong_of};
use sheet_types::checks::{has_bad_text, has_good_size, is_too_large};
use sheet_types::collections::{Bytes, Text};
use sheet_types::command::{Command, Content, Item, Mapping};
use sheet_types::error::OutOfMemory;
use sheet_types::fingerprints::{Spelled, fingerprint, read_fingerprint, spell};
use sheet_types::frame::Frame;
use sheet_types::lines::add_line;
use sheet_types::moments::is_moment;
use sheet_types::reading::{
    read_frame, read_number, read_stored_optional, read_stored_uuid, read_uuid,
};
use sheet_types::receipt::{Moved, MovedKind};
use sheet_types::words::{OrEmpty, read_kind, read_mapping, read_mode};
use std::alloc::Global;
use uuid::Uuid;

pub(crate) fn text(alloc: Global, content: &str) -> Result<Text, OutOfMemory> {
    Ok(Text::from_string(unescaped(alloc, content)?))
}

fn bytes(alloc: Global, content: &str) -> Result<Bytes, OutOfMemory> {
    Ok(Bytes::from_vec(Vec::from_slice(alloc, content.as_bytes())?))
}

fn medium(alloc: Global, content_type: &str, data: &str) -> Result<Content, OutOfMemory> {
    Ok(Content::Media {
        content_type: text(alloc, content_type)?,
        bytes: bytes(alloc, data)?,
    })
}

/// The content of an item: a tile of one byte, a medium by its type and its bytes, a row by its code and its label.
fn content(alloc: Global, words: &str) -> Result<Content, OutOfMemory> {
    let (kind, rest) = cut(words);
    let (front, back) = rest.split_once('|').unwrap_or((rest, ""));
    match (kind, front.parse::<i64>()) {
        ("tile", _) => Ok(Content::Tile {
            zoom: 2,
            column: 3,
            row: 3,
            bytes: bytes(alloc, "A")?,
        }),
        ("media", _) => medium(alloc, front, back),
        ("row", Ok(code)) => Ok(Content::Row {
            x: 0,
            y: 4096,
            code,
            label: text(alloc, back)?,
        }),
        _ => Err(OutOfMemory),
    }
}

/// An item. One whose content cannot be read is told as want of memory, which nothing expects.
pub(crate) fn item(alloc: Global, name: Uuid, words: &str) -> Result<Item, OutOfMemory> {
    Ok(Item {
        identity: name,
        content: content(alloc, words)?,
    })
}

fn tell_digest(given: &Content, told: &mut Told) {
    let mut digits = [0; 64];
    told.word(spell(&fingerprint(given), &mut digits));
}

// Whether it has a good size, is too large, and has a bad text.
fn tell_limits(given: Content, told: &mut Told) {
    told.sign(has_good_size(&given));
    let command = Command::Add {
        package: uuid(ARCHIVE, 0),
        identity: uuid(0, 1),
        content: given,
    };
    told.sign(is_too_large(&command));
    told.sign(has_bad_text(&command));
}

fn tell_clone(given: &Content, told: &mut Told) -> Result<(), OutOfMemory> {
    let copy = given.try_clone()?;
    if copy.kind() != given.kind() {
        told.word("another kind");
    }
    tell_digest(&copy, told);
    Ok(())
}

fn tell_clone_of_item(given: &Item, told: &mut Told) -> Result<(), OutOfMemory> {
    let copy = given.try_clone()?;
    if copy.identity != given.identity {
        told.word("another item");
    }
    tell_digest(&copy.content, told);
    Ok(())
}

fn tell_item(alloc: Global, given: &Item, asks: &str, told: &mut Told) -> Result<(), OutOfMemory> {
    let content = &given.content;
    match asks {
        "fingerprint" => tell_digest(content, told),
        "kind" => {
            told.value(&content.kind());
            told.worded(" ", &content.size());
        }
        // the line of its addition
        "moved" => {
            let moved = Moved::of_content(given.identity, content);
            told.value(&add_line(alloc, uuid(ARCHIVE, 0), &moved)?);
        }
        "clone" => tell_clone(content, told)?,
        "clone_of_item" => tell_clone_of_item(given, told)?,
        asks => told.unread(asks),
    }
    Ok(())
}

/// What is asked of a content, and it.
pub(crate) fn content_of(
    alloc: Global,
    question: &str,
    told: &mut Told,
) -> Result<(), OutOfMemory> {
    let (asks, words) = cut(question);
    if asks == "limits" {
        tell_limits(content(alloc, words)?, told);
        return Ok(());
    }
    tell_item(alloc, &item(alloc, uuid(0, 2), words)?, asks, told)
}

const CONTENTS: Table = Table(
    21,
    "fingerprint tile => [b363ee0ecc9cf61b12ecdafd75dca2779729b4fcc5f1bd718c33aad2c94af4f8]
fingerprint media image/jpeg|JP => [0d293ef7b06e5c2cd296350b48694d0921c8acb7a72407aee7d2dbd3936d7da0]
fingerprint row 7|gate => [e43e5d2489a3da72d168ede7401f6f60f459782a7e66f46822d8dcd10bb20517]
# the bytes of `A` and of `JP`, and the letters of `gate`
kind tile => [tile 1]
kind media image/jpeg|JP => [media 2]
kind row 7|gate => [row 4]
clone tile => [b363ee0ecc9cf61b12ecdafd75dca2779729b4fcc5f1bd718c33aad2c94af4f8]
clone_of_item tile => [b363ee0ecc9cf61b12ecdafd75dca2779729b4fcc5f1bd718c33aad2c94af4f8]
clone media image/jpeg|JP => [0d293ef7b06e5c2cd296350b48694d0921c8acb7a72407aee7d2dbd3936d7da0]
clone_of_item media image/jpeg|JP => [0d293ef7b06e5c2cd296350b48694d0921c8acb7a72407aee7d2dbd3936d7da0]
clone row 7|gate => [e43e5d2489a3da72d168ede7401f6f60f459782a7e66f46822d8dcd10bb20517]
clone_of_item row 7|gate => [e43e5d2489a3da72d168ede7401f6f60f459782a7e66f46822d8dcd10bb20517]
moved row 7|gate => [add a0000000-0000-4000-8000-000000000000 00000000-0000-4000-8000-000000000002 row 4 \
    e43e5d2489a3da72d168ede7401f6f60f459782a7e66f46822d8dcd10bb20517]
# whether a size is good, a content too large, a text bad
limits media image/jpeg|JP => [+--]
limits media |JP => [-+-]
limits media image/jpeg| => [-+-]
limits media image^|JP => [+-+]
limits media im\u{e4}ge|JP => [+-+]
limits row 999999|a`b, c => [+--]
limits row 1000000| => [-+-]
limits row 7|two^lines => [+-+]
",
);

#[test]
fn contents(rt: HostRuntime) {
    assert_eq!(rt; wrong_of(rt.alloc(), Of::Contents, CONTENTS).wrong(), "");
}

const FRAME: Frame = Frame {
    srs_id: 25832,
    min_x: -5,
    min_y: 0,
    max_x: 4096,
    max_y: 4097,
    tile_width: 256,
    tile_height: 255,
    first_zoom: 3,
    levels: 2,
    matrix_width: 7,
    matrix_height: 1,
};

fn tell_frame(words: &str, told: &mut Told) {
    match read_frame(words) {
        Some(found) => told.word(if found == FRAME {
            "the frame"
        } else {
            "another"
        }),
        None => told.word("-"),
    }
}

// A UUID as a row has it.
fn tell_uuid(found: Option<Uuid>, told: &mut Told) {
    let mut buffer = Uuid::encode_buffer();
    match found {
        Some(_) => told.word(OrEmpty(found).encode_lower(&mut buffer)),
        None => told.word("-"),
    }
}

fn tell_optional(words: &str, told: &mut Told) {
    match read_stored_optional(words) {
        Some(found) => {
            told.worded("[", &OrEmpty(found));
            told.word("]");
        }
        None => told.word("-"),
    }
}

// The number of a kind and its word.
fn tell_kind(found: Option<MovedKind>, told: &mut Told) {
    match found {
        Some(kind) => {
            told.value(&kind.number());
            told.worded(" ", &kind);
        }
        None => told.word("-"),
    }
}

// A mapping, the kind of its links, and of both ends.
fn tell_mapping(found: Option<Mapping>, told: &mut Told) {
    match found {
        Some(mapping) => {
            told.value(&mapping);
            told.worded(" ", &mapping.link_kind());
            told.worded(" ", &mapping.base_kind());
            told.worded(" ", &mapping.other_kind());
        }
        None => told.word("-"),
    }
}

fn tell_read(reads: &str, words: &str, told: &mut Told) {
    match reads {
        "fingerprint" => match read_fingerprint(words) {
            Some(digest) => told.value(&Spelled(digest)),
            None => told.word("-"),
        },
        "uuid" => tell_uuid(read_uuid(words), told),
        "stored_uuid" => tell_uuid(read_stored_uuid(words), told),
        "stored_optional" => tell_optional(words, told),
        "number" => told.some(&read_number(words)),
        "frame" => tell_frame(words, told),
        "moment" => told.answer(is_moment(words)),
        "kind" => tell_kind(read_kind(words), told),
        "kind_of_number" => match words.parse::<u8>() {
            Ok(number) => told.some(&MovedKind::from_number(number)),
            Err(_) => told.unread(words),
        },
        "mapping" => tell_mapping(read_mapping(words), told),
        "mode" => told.some(&read_mode(words)),
        reads => told.unread(reads),
    }
}

/// What a text is read as, and the text in brackets.
pub(crate) fn words_of(question: &str, told: &mut Told) {
    let (reads, left) = cut(question);
    match in_brackets(left) {
        Some(text) => tell_read(reads, text, told),
        None => told.unread(question),
    }
}

const WORDS: Table = Table(
    88,
    "fingerprint [b363ee0ecc9cf61b12ecdafd75dca2779729b4fcc5f1bd718c33aad2c94af4f8] => \
    [b363ee0ecc9cf61b12ecdafd75dca2779729b4fcc5f1bd718c33aad2c94af4f8]
fingerprint [] => [-]
fingerprint [b363ee0ecc9cf61b12ecdafd75dca2779729b4fcc5f1bd718c33aad2c94af4f] => [-]
fingerprint [b363ee0ecc9cf61b12ecdafd75dca2779729b4fcc5f1bd718c33aad2c94af4f800] => [-]
fingerprint [b363ee0ecc9cf61b12ecdafd75dca2779729b4fcc5f1bd718c33aad2c94af4fF] => [-]
fingerprint [B363EE0ECC9CF61B12ECDAFD75DCA2779729B4FCC5F1BD718C33AAD2C94AF4F8] => [-]
fingerprint [b363ee0ecc9cf61b12ecdafd75dca2779729b4fcc5f1bd718c33aad2c94af4fg] => [-]
uuid [a0000000-0000-4000-8000-000000000000] => [a0000000-0000-4000-8000-000000000000]
uuid [A0000000-0000-4000-8000-000000000000] => [a0000000-0000-4000-8000-000000000000]
uuid [] => [-]
uuid [{a0000000-0000-4000-8000-000000000000}] => [-]
uuid [urn:uuid:a0000000-0000-4000-8000-000000000000] => [-]
uuid [a0000000000040008000000000000000] => [-]
uuid [a0000000-0000-4000-8000-00000000000] => [-]
uuid [a0000000-0000-4000-8000-000000000000 ] => [-]
uuid [a0000000-0000-4000-8000-00000000000g] => [-]
uuid [a0000000_0000_4000_8000_000000000000] => [-]
stored_uuid [a0000000-0000-4000-8000-000000000000] => [a0000000-0000-4000-8000-000000000000]
stored_uuid [A0000000-0000-4000-8000-000000000000] => [-]
stored_optional [] => [[]]
stored_optional [a0000000-0000-4000-8000-000000000000] => [[a0000000-0000-4000-8000-000000000000]]
stored_optional [A0000000-0000-4000-8000-000000000000] => [-]
stored_optional [ ] => [-]
number [0] => [0]
number [-12] => [-12]
number [9223372036854775807] => [9223372036854775807]
number [-9223372036854775808] => [-9223372036854775808]
number [-0] => [-]
number [+1] => [-]
number [01] => [-]
number [-01] => [-]
number [9223372036854775808] => [-]
number [-9223372036854775809] => [-]
number [] => [-]
number [-] => [-]
number [ 1] => [-]
number [1 ] => [-]
number [1.0] => [-]
number [0x1] => [-]
frame [25832,-5,0,4096,4097,256,255,3,2,7,1] => [the frame]
frame [] => [-]
frame [1,2,3,4,5,6,7,8,9,10] => [-]
frame [1,2,3,4,5,6,7,8,9,10,11,12] => [-]
frame [1,2,3,4,5,6,7,8,9,10,11,] => [-]
frame [1,,3,4,5,6,7,8,9,10,11] => [-]
frame [1, 2,3,4,5,6,7,8,9,10,11] => [-]
frame [+1,2,3,4,5,6,7,8,9,10,11] => [-]
frame [1;2;3;4;5;6;7;8;9;10;11] => [-]
moment [2024-05-01T08:00:00.000Z] => [yes]
moment [2023-02-31T23:59:59.999Z] => [yes]
moment [0000-01-01T00:00:00.000Z] => [yes]
moment [9999-12-31T23:59:59.999Z] => [yes]
moment [2024-13-01T08:00:00.000Z] => [no]
moment [2024-00-01T08:00:00.000Z] => [no]
moment [2024-05-00T08:00:00.000Z] => [no]
moment [2024-05-32T08:00:00.000Z] => [no]
moment [2024-05-01T24:00:00.000Z] => [no]
moment [2024-05-01T08:60:00.000Z] => [no]
moment [2024-05-01T08:00:60.000Z] => [no]
moment [2024-05-01t08:00:00.000Z] => [no]
moment [2024-05-01 08:00:00.000Z] => [no]
moment [2024-05-01T08:00:00.000] => [no]
moment [2024-05-01T08:00:00.000Z ] => [no]
moment [2024-05-01T08:00:00.00DZ] => [no]
moment [T] => [no]
moment [] => [no]
kind [tile] => [1 tile]
kind [media] => [2 media]
kind [row] => [3 row]
kind [tiles_media] => [4 tiles_media]
kind [rows_media] => [5 rows_media]
kind [rows_tiles] => [6 rows_tiles]
kind [tiles] => [-]
mapping [tiles_media] => [tiles_media tiles_media tile media]
mapping [rows_media] => [rows_media rows_media row media]
mapping [rows_tiles] => [rows_tiles rows_tiles row tile]
mapping [row] => [-]
kind_of_number [0] => [-]
kind_of_number [1] => [tile]
kind_of_number [2] => [media]
kind_of_number [3] => [row]
kind_of_number [4] => [tiles_media]
kind_of_number [5] => [rows_media]
kind_of_number [6] => [rows_tiles]
kind_of_number [7] => [-]
mode [strict] => [strict]
mode [follow] => [follow]
mode [Strict] => [-]
",
);

#[test]
fn texts_that_are_read(rt: HostRuntime) {
    assert_eq!(rt; wrong_of(rt.alloc(), Of::Words, WORDS).wrong(), "");
}
