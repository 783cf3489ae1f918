//! New packages, with what the calls that make them ask for tested first.
ghost use Rattle.std.specs.Prelude.{◌≤◌, IsTrue};
ghost use Rattle.sheet_types.specs.Matrix.{is_good_frame};
ghost use Rattle.sheet_types.specs.Refuse.{greatest_depth, greatest_receipts};

use crate::changes::committed;
use crate::rows::{Row, Tables};
use crate::values::FRAME;
use matrix_rules::check::FrameRules;
use package_creation::create::{Info, create};
use package_creation::package::Package;
use package_tables::fault::Fault;
use sheet_types::checks::GREATEST_DEPTH;
use sheet_types::command::Mapping;
use sheet_types::frame::Frame;
use sqlite::{Alter, Connection};
use std::alloc::Global;
use store_sql::resting::is_at_rest;
use uuid::Uuid;

/// Whether packages can be made of a frame.
pub fn is_good(frame: &Frame) -> bool
    ensures { IsTrue result → IsTrue (is_good_frame frame.now) }
{
    match frame.check() {
        Ok(()) => true,
        Err(_) => false,
    }
}

/// Whether a package can be made of a frame and a head.
pub fn can_be_made(frame: &Frame, info: &Info<'_>) -> bool
    ensures frame { IsTrue result → IsTrue (is_good_frame frame.now) }
    ensures depth { IsTrue result → info.now.depth ≤ greatest_depth }
    ensures loan { IsTrue result → info.now.loan ≤ greatest_receipts }
{
    is_good(frame) && info.depth <= GREATEST_DEPTH && info.loan <= 1_000_000_000
}

/// The tables of a new package.
pub fn new_tables<S: Alter + Drop>(
    alloc: Global,
    conn: Connection<S>,
    frame: &Frame,
    info: &Info<'_>,
) -> Result<Package<S>, Fault> {
    if !is_at_rest(&conn) || !can_be_made(frame, info) {
        return Err(Fault::StoreFault);
    }
    Ok(create(alloc, conn, frame, info)?)
}

/// A new package, by the layer above the tables.
pub fn new_package<S: Alter + Drop>(
    alloc: Global,
    conn: Connection<S>,
    frame: &Frame,
    info: &Info<'_>,
) -> Result<Connection<S>, Fault> {
    if !is_at_rest(&conn) || !can_be_made(frame, info) {
        return Err(Fault::StoreFault);
    }
    Ok(package_creation::creation::create(alloc, conn, frame, info)?)
}

/// A package with nothing in it, without parent.
pub fn empty_package<S: Alter + Drop>(
    alloc: Global,
    conn: Connection<S>,
    uuid: Uuid,
    created: &str,
) -> Result<Connection<S>, Fault> {
    let info = Info {
        package: uuid,
        parent: None,
        depth: 0,
        loan: 0,
        created,
    };
    Ok(new_tables(alloc, conn, &FRAME, &info)?.into_connection())
}

/// A tile 7 that is linked to a medium, and a row that is linked to nothing; the medium and the row
/// both have the number 4, and the identities are 1, 2 and 3.
pub const WITH_A_LINK: [Row; 7] = [
    Row::Tile(7, [2, 3, 1], "ab"),
    Row::Identity(1, 7, "00000000-0000-0000-0000-000000000001"),
    Row::Medium(4, "png", "image/png"),
    Row::Identity(2, 4, "00000000-0000-0000-0000-000000000002"),
    Row::Attribute(4, [100, -7, 31], "well"),
    Row::Identity(3, 4, "00000000-0000-0000-0000-000000000003"),
    Row::Pair(Mapping::TilesMedia, 7, 4),
];

/// Fills a blank store with a tile that is linked to a medium, and a row that is linked to nothing:
/// the tile has the number 7 and the place (2, 3, 1), the medium and the row both have the number 4;
/// their identities are 1, 2 and 3. Tells whether no transaction stood in its way.
pub fn fill_with_a_link<S: Alter>(conn: &mut Connection<S>) -> Result<bool, Fault> {
    committed(conn, &Tables(WITH_A_LINK.as_slice()))
}
