// What a cut asks for, over a stand-in that notes it. It says of no package that it shows it, so
// what it answers needs no proof.
ghost use Rattle.std.specs.Prelude.{⊤};

use crate::cuts::selection_told;
use cut::select::select_over;
use identity_register::reach::Reach;
use matrix_rules::check::FrameRules;
use matrix_rules::ground::is_good;
use matrix_rules::spans::Span;
use package_tables::fault::Fault;
use sheet_types::command::{Mapping, Mode, Relation};
use sheet_types::frame::{Ground, Rect};
use std::alloc::Global;
use std::test::Fail;
use test_values::{FRAME, item, number_of};
use uuid::Uuid;

// The upper left of the four tiles of zoom 1.
const CORNER: Rect = Rect {
    zoom: 1,
    column: 0,
    last_column: 0,
    row: 0,
    last_row: 0,
};

// The tile 1 in the corner and the tile 2 elsewhere have the medium 3, and the tile 2 has the
// medium 4.
const LINKS: [(u8, u8); 3] = [(1, 3), (2, 3), (2, 4)];

fn links_at(number: u8, alloc: Global) -> Result<Vec<Relation>, Fault> {
    let mut found = Vec::new(alloc);
    for ends in LINKS.as_slice() {
        if ends.0 == number || ends.1 == number {
            found.push(Relation::new(Mapping::TilesMedia, item(ends.0), item(ends.1)))?;
        }
    }
    Ok(found)
}

#[derive(Drop)]
struct Noted {
    tiles: String,
    rows: String,
    links: String,
}

impl Reach for Noted {
    ghost can_ask = { λ _. ⊤ };

    ghost stays = { λ _ _. ⊤ };

    ghost shows = { λ _ _. ⊥ };

    fn tiles_in(&mut self, zoom: i64, span: &Span, alloc: Global) -> Result<Vec<Uuid>, Fault> {
        let across = format!(in alloc; "{zoom}: {} {} ", span.column, span.last_column)?;
        let down = format!(in alloc; "{} {};", span.row, span.last_row)?;
        self.tiles.push_str(across.as_str())?;
        self.tiles.push_str(down.as_str())?;
        let mut found = Vec::new(alloc);
        if zoom == 1 {
            found.push(item(1))?;
        }
        Ok(found)
    }

    fn rows_in(&mut self, ground: &Ground, alloc: Global) -> Result<Vec<Uuid>, Fault> {
        let across = format!(in alloc; "{} {} ", ground.west, ground.east)?;
        let up = format!(in alloc; "{} {};", ground.south, ground.north)?;
        self.rows.push_str(across.as_str())?;
        self.rows.push_str(up.as_str())?;
        Ok(Vec::new(alloc))
    }

    fn links_of(&mut self, identity: Uuid, alloc: Global) -> Result<Vec<Relation>, Fault> {
        let number = number_of(identity);
        self.links
            .push_str(format!(in alloc; "{number};")?.as_str())?;
        links_at(number, alloc)
    }
}

// The tiles, the rows and the links that are asked for, and what is taken.
fn told_of_cut(alloc: Global, reach: &mut Noted) -> Result<String, Fault> {
    if FRAME.check().is_err() || !is_good(&FRAME, &CORNER) {
        return Err(Fault::StoreFault);
    }
    let taken = select_over(reach, &FRAME, &CORNER, Mode::Follow, alloc);
    let mut told = selection_told(alloc, taken)?;
    let (tiles, rows, links) = (
        reach.tiles.as_str(),
        reach.rows.as_str(),
        reach.links.as_str(),
    );
    told.push_str(format!(in alloc; "|{tiles}|{rows}|{links}")?.as_str())?;
    Ok(told)
}

#[test]
fn each_is_asked_once(rt: HostRuntime) -> Result<(), Fail> {
    let alloc = rt.alloc();
    let mut reach = Noted {
        tiles: String::new(alloc),
        rows: String::new(alloc),
        links: String::new(alloc),
    };
    let told = told_of_cut(alloc, &mut reach)?;
    assert_eq!(rt;
        told.as_str(),
        "1;2;3;4;tile-medium 1 3;tile-medium 2 3;tile-medium 2 4;|1: 0 0 0 0;2: 0 1 0 1;|0 2048 2048 4096;|1;3;2;4;"
    );
    Ok(())
}
