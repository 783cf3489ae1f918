//! What stands before the items and behind the links.
ghost use Rattle.std.specs.Prelude.{◌≡◌, IfOk, IsTrue, string_bytes};
ghost use Rattle.sheet_types.specs.Matrix.{is_good_frame};
ghost use Rattle.view_export.specs.Exports.{beginning, closing, export_row, opening};

use crate::fixed_rows::fixed_rows;
use crate::literals::UuidLiteral;
use crate::schema::schema;
use crate::styles::styles;
use sheet_types::error::OutOfMemory;
use sheet_types::frame::Frame;
use std::alloc::{AllocError, Global};
use uuid::Uuid;

fn beginning() -> &'static str
    ensures { result.now ≡ beginning }
{
    "BEGIN;\nPRAGMA application_id = 1196444487;\nPRAGMA user_version = 10300;\n"
}

/// The last statement. Without it nothing is made.
pub fn closing() -> &'static str
    ensures { result.now ≡ closing }
{
    "COMMIT;\n"
}

/// The package, and the number of the last receipt of it: to what an edited file may be brought home.
fn export_row(alloc: Global, package: Uuid, ticket: u64) -> Result<String, AllocError>
    ensures { IfOk result (λ text. string_bytes text ≡ export_row «package» ticket) }
{
    let package = UuidLiteral(package);
    format!(in alloc; "INSERT INTO sheet_export VALUES ({package},{ticket});\n")
}

fn write_opening(
    alloc: Global,
    frame: &Frame,
    package: Uuid,
    ticket: u64,
) -> Result<String, AllocError>
    requires { IsTrue (is_good_frame frame.now) }
    ensures { IfOk result (λ text. string_bytes text ≡ opening frame.now «package» ticket) }
{
    let beginning = beginning();
    let schema = schema(alloc)?;
    let rows = fixed_rows(alloc, frame, package)?;
    let styles = styles(alloc)?;
    let export = export_row(alloc, package, ticket)?;
    format!(in alloc; "{beginning}{schema}{rows}{styles}{export}")
}

/// The tables, and the rows that say what they are, for a package of this frame, whose last receipt has this number.
///
/// # Errors
///
/// Want of memory.
pub fn opening(
    alloc: Global,
    frame: &Frame,
    package: Uuid,
    ticket: u64,
) -> Result<String, OutOfMemory>
    requires { IsTrue (is_good_frame frame.now) }
    ensures { IfOk result (λ text. string_bytes text ≡ opening frame.now «package» ticket) }
{
    Ok(write_opening(alloc, frame, package, ticket)?)
}
