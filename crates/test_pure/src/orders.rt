//! Which of two stands before the other.

use crate::receipts::{ARCHIVE, LOAN};
use crate::steps::{Of, Table, Told, uuid, wrong_of};
use crate::values::item;
use sheet_types::command::{Item, Mapping, Relation};
use sheet_types::error::OutOfMemory;
use sheet_types::receipt::Moved;
use sheet_types::sorting::{item_is_before, link_is_before, moved_is_before, uuid_is_before};
use std::alloc::Global;

fn link(other: u8) -> Relation {
    Relation::new(Mapping::TilesMedia, uuid(LOAN, 0), uuid(0, other))
}

// A tile beside a medium under a lower UUID.
fn is_tile_before(alloc: Global, medium: &Item) -> Result<bool, OutOfMemory> {
    let tile = item(alloc, uuid(ARCHIVE, 0), "tile")?;
    Ok(item_is_before(&tile, medium))
}

// A medium beside a tile, or what it moves beside a link.
fn is_medium_ordered(alloc: Global, question: &str) -> Result<bool, OutOfMemory> {
    let medium = item(alloc, uuid(0, 1), "media image/jpeg|JP")?;
    if question == "tile, medium" {
        return is_tile_before(alloc, &medium);
    }
    Ok(moved_is_before(&Moved::of_item(&medium), &Moved::of_link(&link(1))))
}

/// Two UUIDs by their first bytes, two links by their other ends, or items.
pub(crate) fn order_of(alloc: Global, question: &str, told: &mut Told) -> Result<(), OutOfMemory> {
    let (low, high) = (uuid(0, 1), uuid(ARCHIVE, 0));
    match question {
        "uuids 0 a0" => told.answer(uuid_is_before(low, high)),
        "uuids a0 0" => told.answer(uuid_is_before(high, low)),
        "uuids a0 a0" => told.answer(uuid_is_before(high, high)),
        "links 1 2" => told.answer(link_is_before(&link(1), &link(2))),
        "links 2 1" => told.answer(link_is_before(&link(2), &link(1))),
        "tile, medium" | "medium, link" => told.answer(is_medium_ordered(alloc, question)?),
        question => told.unread(question),
    }
    Ok(())
}

// Of items and of what moves, the kind comes first.
const ORDERS: Table = Table(
    7,
    "uuids 0 a0 => [yes]
uuids a0 0 => [no]
uuids a0 a0 => [no]
links 1 2 => [yes]
links 2 1 => [no]
tile, medium => [yes]
medium, link => [yes]
",
);

#[test]
fn orders(rt: HostRuntime) {
    assert_eq!(rt; wrong_of(rt.alloc(), Of::Orders, ORDERS).wrong(), "");
}
