// A selection that is carried over into a package whose last number is taken, so that lower ones are
// looked for, and into an empty one. Tiles and media are linked crosswise. The digests are those of
// `tile 1 0 0`, LF and `A` and so on by another program's SHA-256.
use crate::crashes::nothing_wrong;
use crate::fuses::{FusedShelf, Fusing};
use crate::loans::{A, B, C, package};
use crate::pictures::push_held_by;
use identity_register::selection::Selection;
use package_creation::package::begin;
use package_tables::fault::Fault;
use sheet_types::command::{Mapping, Relation};
use sqlite::{Alter, Connection};
use std::alloc::Global;
use std::test::Fail;
use store_faults::shelf::ShelfFault;
use store_shelf::shelf::Shelf;
use test_values::{Checked, Row, Tables, at_rest, committed};
use transfer::pages::carry_over;
use uuid::Uuid;

const CROSSWISE: [Row; 10] = [
    Row::Tile(7, [1, 0, 0], "A"),
    Row::Identity(1, 7, "00000000-0000-0000-0000-000000000001"),
    Row::Tile(9, [1, 0, 1], "C"),
    Row::Identity(1, 9, "00000000-0000-0000-0000-000000000002"),
    Row::Medium(2, "m", "image/png"),
    Row::Identity(2, 2, "00000000-0000-0000-0000-000000000003"),
    Row::Medium(5, "n", "image/png"),
    Row::Identity(2, 5, "00000000-0000-0000-0000-000000000004"),
    Row::Pair(Mapping::TilesMedia, 7, 5),
    Row::Pair(Mapping::TilesMedia, 9, 2),
];

// A tile under the last number that there may be.
const LAST_NUMBER: [Row; 2] = [
    Row::Tile(1_000_000, [2, 3, 3], "Z"),
    Row::Identity(1, 1_000_000, "00000000-0000-0000-0000-000000000009"),
];

const PUT: &str = "held 1;2;9;3;4;tile-medium 1 4;tile-medium 2 3;|
1 1 0 1 c20eb71e63f0260834960dcfbffbdf9e96eadc0b8946db35a34b9382dc301848
1 2 0 1 0423fc3e54f853b9dce666c13128ce73b7dc27c87f589aa05949fb97ac89fea1
1 9 0 1 e84e4b9694a3d1bc2bf503f8e24d919b83b779163b44fcd30b7682aad92ebdce
2 3 0 1 71b85635cb1f545d6843ac133fa58347322d99f2165b2c1d2ce373540c739bce
2 4 0 1 2635914449363a8b98595ce9900d7052940cd77459b641ec717f5683873f0c39
";

const CARRIED: &str = "held 1;2;3;4;tile-medium 1 4;tile-medium 2 3;|
1 1 0 1 c20eb71e63f0260834960dcfbffbdf9e96eadc0b8946db35a34b9382dc301848
1 2 0 1 0423fc3e54f853b9dce666c13128ce73b7dc27c87f589aa05949fb97ac89fea1
2 3 0 1 71b85635cb1f545d6843ac133fa58347322d99f2165b2c1d2ce373540c739bce
2 4 0 1 2635914449363a8b98595ce9900d7052940cd77459b641ec717f5683873f0c39
";

fn id(number: u8) -> Uuid {
    Uuid::from_u128(u128::from(number))
}

fn all_of_it(alloc: Global) -> Result<Selection, Fault> {
    let links = [
        Relation::new(Mapping::TilesMedia, id(1), id(4)),
        Relation::new(Mapping::TilesMedia, id(2), id(3)),
    ];
    Ok(Selection {
        identities: Vec::from_slice(alloc, &[id(1), id(2), id(3), id(4)])?,
        links: Vec::from_slice(alloc, &links)?,
    })
}

// It all is carried over into the target.
fn carried<S: Alter>(
    alloc: Global,
    source: &mut Connection<S>,
    target: &mut Connection<S>,
) -> Result<bool, Fault> {
    let selection = all_of_it(alloc)?;
    at_rest(source)?;
    if !target.is_autocommit() {
        return Ok(false);
    }
    let mut tx = begin(target);
    match carry_over(source, &mut tx, &selection) {
        Ok(()) => {
            tx.commit()?;
            Ok(true)
        }
        Err(_) => Ok(false),
    }
}

// The items by their numbers and the links, and the digests of all items.
fn told<S: Alter>(alloc: Global, conn: &mut Connection<S>) -> Result<String, Fault> {
    let mut text = String::new(alloc);
    push_held_by(alloc, conn, &mut text)?;
    Ok(text)
}

fn check_stores<S: Alter + Drop>(
    alloc: Global,
    source: &mut Connection<S>,
    one: &mut Connection<S>,
    other: &mut Connection<S>,
    checked: &mut Checked,
) {
    checked.holds(committed(source, &Tables(CROSSWISE.as_slice())));
    checked.holds(committed(one, &Tables(LAST_NUMBER.as_slice())));
    checked.holds(committed(other, &Tables(&[])));
    checked.holds(carried(alloc, source, one));
    checked.holds(carried(alloc, source, other));
    checked.told(told(alloc, one), PUT);
    checked.told(told(alloc, other), CARRIED);
}

fn check<S: Alter + Drop, H: Shelf<S>>(
    alloc: Global,
    shelf: &mut H,
    checked: &mut Checked,
) -> Result<(), ShelfFault> {
    let mut source = shelf.blank(package(A))?;
    let mut one = shelf.blank(package(B))?;
    let mut other = shelf.blank(package(C))?;
    check_stores(alloc, &mut source, &mut one, &mut other, checked);
    Ok(())
}

#[test]
fn a_selection_carried_over(rt: HostRuntime) -> Result<(), Fail> {
    let alloc = rt.alloc();
    let mut shelf = FusedShelf::new(alloc, &Fusing::Nothing);
    let mut checked = Checked::new(alloc);
    check(alloc, &mut shelf, &mut checked)?;
    nothing_wrong(alloc, &checked)
}
