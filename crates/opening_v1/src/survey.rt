//! What the opening of a world sees of a store of the first version.
ghost use Rattle.std.specs.Prelude.{◌≡◌, IfOk, IsTrue};
ghost use Rattle.sqlite.specs.Held.{state};
ghost use Rattle.sheet_types.specs.Matrix.{is_good_frame};
ghost use Rattle.store_sql.specs.Transactions.{Rests};
ghost use Rattle.package_copy.specs.Copies.{AreInOrder};
ghost use Rattle.package_tables.specs.Creation.{IsFitInfo};
ghost use Rattle.package_schema.specs.Looking.{LooksAt};
ghost use Rattle.opening_v1.specs.Copies.{IsSeenOfCopy};
ghost use Rattle.opening_v1.specs.Views.{IsFirstSeenRight};

use crate::forms::read_first_formed;
use crate::numbers::have_numbers;
use crate::package_rows::read_rows;
use crate::said::read_first_said;
use opening_faults::sights::StoreHead;
use opening_survey::said::Said;
use opening_survey::survey::{no_frame, survey, without_package};
use opening_verdict::seen::StoreSeen;
use package_copy::copies::{copy, is_in_order};
use package_copy::package_rows::PackageRows;
use package_creation::create::Info;
use package_tables::fault::Fault;
use sheet_types::checks::{GREATEST_DEPTH, GREATEST_RECEIPTS};
use sheet_types::frame::Frame;
use sqlite::{Alter, Connection};
use std::alloc::Global;

/// Whether depth and loan are such as a package may have.
fn is_fit(depth: u64, loan: u64) -> bool
    ensures { IsTrue result → IsFitInfo depth loan }
{
    depth <= GREATEST_DEPTH && loan <= GREATEST_RECEIPTS
}

/// What is seen of a package of the second version in memory that has these rows.
///
/// # Errors
///
/// Want of memory, or a row that is there twice, which the constraints of the tables exclude.
fn survey_copy(
    alloc: Global,
    frame: &Frame,
    head: StoreHead,
    rows: &PackageRows,
) -> Result<StoreSeen, Fault>
    requires { IsTrue (is_good_frame frame.now) }
    ensures order { IfOk result (λ _. AreInOrder rows.now) }
    ensures seen { IfOk result (IsSeenOfCopy frame.now head rows.now) }
{
    let StoreHead {
        uuid,
        parent,
        depth,
        loan,
    } = head;
    if !is_in_order(rows) {
        return Err(Fault::StoreFault);
    }
    // A head in its ranges is; that is told of clean disks alone.
    if !is_fit(depth, loan) {
        return Err(Fault::StoreFault);
    }
    let info = Info {
        package: uuid,
        parent,
        depth,
        loan,
        created: "1970-01-01T00:00:00.000Z",
    };
    let mut package = copy(alloc, frame, &info, rows)?;
    survey(&mut package, alloc)
}

/// Whose the store is.
fn head_in(said: &Said) -> Option<StoreHead>
    ensures { result ≡ said.now.head }
{
    said.head
}

/// What the opening of a world sees of a store as one of the first version: whose it is, what its
/// receipts claim, whether it is a package, and which. Nothing is written to it: its rows come into
/// a package of the second version in memory, which is looked at in its place.
///
/// # Errors
///
/// `OutOfMemory` where a growth was refused, and `StoreFault` where the store failed, a text is no
/// UTF-8, or a row is there twice. The store is as it was.
pub fn survey_first<S: Alter>(conn: &mut Connection<S>, alloc: Global) -> Result<StoreSeen, Fault>
    requires { Rests (state S.Store conn.old) }
    ensures { LooksAt IsFirstSeenRight (state S.Store conn.old) (state S.Store conn.new) result }
{
    let said = read_first_said(conn, alloc)?;
    let Some(head) = head_in(&said) else {
        return Ok(without_package(alloc, said, no_frame(), false));
    };
    let Some(frame) = read_first_formed(conn, alloc)? else {
        return Ok(without_package(alloc, said, no_frame(), false));
    };
    let rows = read_rows(conn, alloc)?;
    // A copy tells a row by how far its number is from 0, and no package has one below 0.
    if !have_numbers(&rows) {
        return Ok(without_package(alloc, said, no_frame(), false));
    }
    let seen = survey_copy(alloc, &frame, head, &rows)?;
    Ok(seen)
}
