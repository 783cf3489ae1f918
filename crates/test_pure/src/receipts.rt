//! Receipts as texts, written by hand; the digest is of another program's SHA-256.

use crate::steps::{points, uuid};
use crate::values::text;
use sheet_types::collections::MovedList;
use sheet_types::error::OutOfMemory;
use sheet_types::fingerprints::read_fingerprint;
use sheet_types::receipt::{Moved, MovedKind, Receipt};
use std::alloc::Global;
use uuid::Uuid;

/// The bytes that package UUIDs begin with; 0 is no package.
pub(crate) const ARCHIVE: u8 = 0xa0;

pub(crate) const LOAN: u8 = 0xb0;

/// A package, or none.
pub(crate) fn package(first: u8) -> Option<Uuid> {
    if first == 0 {
        None
    } else {
        Some(uuid(first, 0))
    }
}

pub(crate) fn tile(number: u8, size: u64) -> Moved {
    Moved {
        kind: MovedKind::TileItem,
        base: uuid(0, number),
        other: None,
        size,
        fingerprint: read_fingerprint(
            "c20eb71e63f0260834960dcfbffbdf9e96eadc0b8946db35a34b9382dc301848",
        ),
    }
}

fn link() -> Moved {
    Moved {
        kind: MovedKind::RowsTilesLink,
        base: uuid(0, 1),
        other: Some(uuid(0, 2)),
        size: 0,
        fingerprint: None,
    }
}

fn altered() -> Moved {
    Moved {
        fingerprint: Some([0; 32]),
        ..tile(1, 1)
    }
}

fn one(alloc: Global, item: Moved) -> Result<MovedList, OutOfMemory> {
    Ok(MovedList::from_vec(vec![in alloc; item]?))
}

/// What a receipt moves, or a package holds: the tile of all these receipts, another, the same of
/// two bytes or with another digest, or a link of a row to a tile.
pub(crate) fn things(alloc: Global, word: &str) -> Result<MovedList, OutOfMemory> {
    match word {
        "tile" => one(alloc, tile(1, 1)),
        "other" => one(alloc, tile(2, 1)),
        "grown" => one(alloc, tile(1, 2)),
        "altered" => one(alloc, altered()),
        "link" => one(alloc, link()),
        _ => Ok(MovedList::from_vec(Vec::new(alloc))),
    }
}

/// The lines of receipts, by names.
pub(crate) fn line_of(word: &str) -> &str {
    match word {
        "added" => {
            "add a0000000-0000-4000-8000-000000000000 00000000-0000-4000-8000-000000000001 tile 1 \
            c20eb71e63f0260834960dcfbffbdf9e96eadc0b8946db35a34b9382dc301848"
        }
        "deleted" => {
            "delete a0000000-0000-4000-8000-000000000000 00000000-0000-4000-8000-000000000001"
        }
        "linked" => {
            "link rows_media a0000000-0000-4000-8000-000000000000 00000000-0000-4000-8000-000000000001 \
            00000000-0000-4000-8000-000000000002"
        }
        "tile_linked" => {
            "link rows_tiles a0000000-0000-4000-8000-000000000000 00000000-0000-4000-8000-000000000001 \
            00000000-0000-4000-8000-000000000002"
        }
        "tile_unlinked" => {
            "unlink rows_tiles a0000000-0000-4000-8000-000000000000 00000000-0000-4000-8000-000000000001 \
            00000000-0000-4000-8000-000000000002"
        }
        "lent" => {
            "split a0000000-0000-4000-8000-000000000000 b0000000-0000-4000-8000-000000000000 strict 1 0 0 0 0"
        }
        "lent_on" => {
            "split b0000000-0000-4000-8000-000000000000 c0000000-0000-4000-8000-000000000000 strict 1 0 0 0 0"
        }
        "returned" => {
            "merge b0000000-0000-4000-8000-000000000000 a0000000-0000-4000-8000-000000000000 2"
        }
        "back_to_loan" => {
            "merge c0000000-0000-4000-8000-000000000000 b0000000-0000-4000-8000-000000000000 3"
        }
        "past_the_loan" => {
            "merge c0000000-0000-4000-8000-000000000000 a0000000-0000-4000-8000-000000000000 3"
        }
        word => word,
    }
}

/// A package by its first digit, `a` to `c`, or none.
pub(crate) fn package_byte(word: &str) -> Option<u8> {
    match word {
        "a" => Some(ARCHIVE),
        "b" => Some(LOAN),
        "c" => Some(0xc0),
        "-" => Some(0),
        _ => None,
    }
}

// A tile is added to the archive, and all of it is lent and brought back.
fn entry_text(word: &str) -> &str {
    match word {
        "addition" => "1.1.added.-.a.tile",
        "split" => "2.2.lent.a.b.tile",
        "merge" => "3.3.returned.b.a.tile",
        word => word,
    }
}

// How many tiles, links and bytes it moves.
fn counts_of(thing: &str) -> (u64, u64, u64) {
    match thing {
        "tile" | "other" | "altered" => (1, 0, 1),
        "grown" => (1, 0, 2),
        "link" => (0, 1, 0),
        _ => (0, 0, 0),
    }
}

/// A receipt by its name, or by its number, that of its request, its line, where it moves what, and
/// where to. One that cannot be read is told as want of memory, which nothing expects.
pub(crate) fn receipt_of(alloc: Global, word: &str) -> Result<Receipt, OutOfMemory> {
    let [seq, request, line, source, target, thing] = points(entry_text(word));
    let (Ok(seq), Ok(request)) = (seq.parse::<u64>(), request.parse::<u8>()) else {
        return Err(OutOfMemory);
    };
    let (Some(source), Some(target)) = (package_byte(source), package_byte(target)) else {
        return Err(OutOfMemory);
    };
    let (tiles, links, bytes) = counts_of(thing);
    Ok(Receipt {
        seq,
        request: uuid(0x90, request),
        at: text(alloc, "2024-05-01T08:00:00.000Z")?,
        line: text(alloc, line_of(line))?,
        source: package(source),
        target: package(target),
        items: things(alloc, thing)?,
        tiles,
        media: 0,
        rows: 0,
        links,
        bytes,
    })
}

/// Receipts with commas between them.
pub(crate) fn receipts(alloc: Global, words: &str) -> Result<Vec<Receipt>, OutOfMemory> {
    let mut list = Vec::new(alloc);
    for word in words.split(',') {
        if !word.is_empty() {
            list.push(receipt_of(alloc, word)?)?;
        }
    }
    Ok(list)
}

/// A package by its first digit.
pub(crate) fn package_word(found: Option<Uuid>) -> &'static str {
    match found {
        None => "-",
        Some(id) if id == uuid(ARCHIVE, 0) => "a",
        Some(id) if id == uuid(LOAN, 0) => "b",
        Some(id) if id == uuid(0xc0, 0) => "c",
        Some(id) if id == uuid(0, 1) => "tile",
        Some(_) => "?",
    }
}
