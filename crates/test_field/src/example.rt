//! The worked example: a tile that was replaced, and a label that was edited.
use field_changes::changes::{Holdings, changes};
use field_changes::held::{HeldItem, HeldLink};
use field_changes::ids::Asker;
use field_changes::known::Known;
use sheet_types::collections::{Bytes, Text};
use sheet_types::command::{Content, Item, Mapping, Relation};
use sheet_types::lines::line;
use std::alloc::{AllocError, Global};
use std::test::Fail;
use uuid::Uuid;

const PACKAGE: &str = "a0000000-0000-4000-8000-000000000000";

const TILE: &str = "00000000-0000-4000-8000-000000000001";

const ROW: &str = "00000000-0000-4000-8000-000000000002";

const OTHER: &str = "00000000-0000-4000-8000-000000000003";

/// The identity and the line of each request, by Python's `hashlib`.
const ASKED: [&str; 6] = [
    "f15969b2-39e9-87e1-b64a-60e824ac5d57 unlink rows_tiles a0000000-0000-4000-8000-000000000000 00000000-0000-4000-8000-000000000002 00000000-0000-4000-8000-000000000001",
    "ba0b2cac-a13e-8763-ab60-eec55904cea6 delete a0000000-0000-4000-8000-000000000000 00000000-0000-4000-8000-000000000001",
    "421f785d-96ea-8fd4-965e-0763659b74c2 delete a0000000-0000-4000-8000-000000000000 00000000-0000-4000-8000-000000000002",
    "5ee12ee2-2b4f-8057-8fc2-7e300834db0b add a0000000-0000-4000-8000-000000000000 418efc13-df13-8a78-bd18-e7cfff97af1a tile 1 d0fa93d7fc4bdbe9ff927699f3bbef62890c312d223dd1fb107179757dc1de7c",
    "65471ad9-ae0f-86c5-83d2-840e5e3bd328 add a0000000-0000-4000-8000-000000000000 3995788c-7049-86d2-be1b-b79305c292b2 row 11 fe3d90381c6e0e871ecf8e8445ca625b6eb40671239b1159e6b05bc192a314ea",
    "aac7f93b-d702-8014-9a0d-5b263a3f66dc link rows_tiles a0000000-0000-4000-8000-000000000000 3995788c-7049-86d2-be1b-b79305c292b2 418efc13-df13-8a78-bd18-e7cfff97af1a",
];

fn tile(alloc: Global, byte: u8) -> Result<Content, AllocError> {
    Ok(Content::Tile {
        zoom: 1,
        column: 0,
        row: 0,
        bytes: Bytes::from_vec(vec![in alloc; byte]?),
    })
}

fn row(alloc: Global, label: &str) -> Result<Content, AllocError> {
    Ok(Content::Row {
        x: 500_100_000,
        y: 5_900_100_000,
        code: 1,
        label: Text::from_string(label.to_string(alloc)?),
    })
}

#[test]
fn a_replaced_tile_and_an_edited_label_come_home(rt: HostRuntime) -> Result<(), Fail> {
    let alloc = rt.alloc();
    let tile_id = Uuid::parse_str(TILE)?;
    let row_id = Uuid::parse_str(ROW)?;
    let mut items = Vec::new(alloc);
    items.push(Item {
        identity: tile_id,
        content: tile(alloc, 0x41)?,
    })?;
    items.push(Item {
        identity: row_id,
        content: row(alloc, "one")?,
    })?;
    let links = [Relation::new(Mapping::RowsTiles, row_id, tile_id)];
    let known = Known::of(alloc, items.as_slice())?;
    let mut file = Vec::new(alloc);
    file.push(HeldItem {
        number: 2,
        identity: None,
        content: known.share(tile(alloc, 0x42)?),
    })?;
    file.push(HeldItem {
        number: 1,
        identity: Some(row_id),
        content: known.share(row(alloc, "one, \"east\"")?),
    })?;
    let held = [HeldLink {
        mapping: Mapping::RowsTiles,
        base: 1,
        other: 2,
    }];
    let asker = Asker {
        package: Uuid::parse_str(PACKAGE)?,
        ticket: 3,
        at: "2026-03-02T07:30:00.000Z",
    };
    let holdings = Holdings {
        items: items.as_slice(),
        links: &links,
    };
    let requests = changes(alloc, &asker, &holdings, false, file, &held)?;
    let mut asked = Vec::new(alloc);
    for request in &requests {
        let words = line(alloc, &request.command)?;
        let id = request.id;
        asked.push(format!(in alloc; "{id} {words}")?)?;
    }
    assert_eq!(rt; asked.len(), 6);
    for (told, wanted) in asked.iter().zip(&ASKED) {
        assert_eq!(rt; told.as_str(), *wanted);
    }
    Ok(())
}

#[test]
fn what_the_package_holds_asks_for_nothing(rt: HostRuntime) -> Result<(), Fail> {
    let alloc = rt.alloc();
    let mut items = Vec::new(alloc);
    for (id, label) in [(TILE, "one"), (ROW, "two"), (OTHER, "two")] {
        items.push(Item {
            identity: Uuid::parse_str(id)?,
            content: row(alloc, label)?,
        })?;
    }
    let known = Known::of(alloc, items.as_slice())?;
    let mut file = Vec::new(alloc);
    for (number, label) in [(1, "two"), (2, "one"), (3, "two"), (4, "three")] {
        let content = known.share(row(alloc, label)?);
        assert_eq!(rt; content.get().size(), label.len());
        file.push(HeldItem {
            number,
            identity: None,
            content,
        })?;
    }
    let asker = Asker {
        package: Uuid::parse_str(PACKAGE)?,
        ticket: 3,
        at: "2026-03-02T07:30:00.000Z",
    };
    let holdings = Holdings {
        items: items.as_slice(),
        links: &[],
    };
    let requests = changes(alloc, &asker, &holdings, false, file, &[])?;
    assert_eq!(rt; requests.len(), 1);
    Ok(())
}
