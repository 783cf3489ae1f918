//! Receipts of one thing, and what things count.

use crate::values::{AT, text};
use package_tables::fault::Fault;
use sheet_types::collections::MovedList;
use sheet_types::receipt::{Moved, MovedKind, Receipt, Sums};
use std::alloc::Global;
use uuid::Uuid;

/// So many tiles, media, rows, links and bytes.
pub fn sums(tiles: u64, media: u64, rows: u64, links: u64, bytes: u64) -> Sums {
    Sums {
        tiles,
        media,
        rows,
        links,
        bytes,
    }
}

/// What the things of a receipt count, as it says.
pub fn counts(receipt: &Receipt) -> Sums {
    Sums {
        tiles: receipt.tiles,
        media: receipt.media,
        rows: receipt.rows,
        links: receipt.links,
        bytes: receipt.bytes,
    }
}

/// A medium of three bytes, as a receipt says that it moved.
pub fn moved_medium(identity: Uuid) -> Moved {
    Moved {
        kind: MovedKind::MediaItem,
        base: identity,
        other: None,
        size: 3,
        fingerprint: None,
    }
}

/// A receipt of this number for one thing that came into a package, with these sums.
pub fn receipt_of(
    alloc: Global,
    seq: u64,
    request: Uuid,
    package: Uuid,
    thing: Moved,
    sums: Sums,
) -> Result<Receipt, Fault> {
    let mut things = Vec::new(alloc);
    things.push(thing)?;
    Ok(Receipt {
        seq,
        request,
        at: text(alloc, AT)?,
        line: text(alloc, "the line")?,
        source: None,
        target: Some(package),
        items: MovedList::from_vec(things),
        tiles: sums.tiles,
        media: sums.media,
        rows: sums.rows,
        links: sums.links,
        bytes: sums.bytes,
    })
}
