//! The tile matrices of a frame.
ghost use Rattle.std.specs.Prelude.{◌≡◌, IfOk, IsTrue, string_bytes, unsigned_abs};
ghost use Rattle.sheet_types.specs.Matrix.{has_level, is_good_frame};
ghost use Rattle.std.specs.Fmt.{signed_decimal};
ghost use Rattle.view_export.specs.FixedRows.{matrices, matrix, matrix_row, pair};
ghost use Rattle.view_export.specs.Statements.{thousandths};

use crate::literals::Thousandths;
use matrix_rules::axis::{Axes, axes_at};
use matrix_rules::levels::{level_count, zoom_at};
use sheet_types::frame::Frame;
use std::alloc::{AllocError, Global};

/// Two numbers with a comma between them.
fn pair(alloc: Global, first: i64, second: i64) -> Result<String, AllocError>
    ensures { IfOk result (λ text. string_bytes text ≡ pair (signed_decimal first) (signed_decimal second)) }
{
    format!(in alloc; "{first},{second}")
}

/// Two numbers of thousandths with a comma between them.
fn pair_of_thousandths(alloc: Global, first: i64, second: i64) -> Result<String, AllocError>
    ensures { IfOk result (λ text. string_bytes text ≡ pair (thousandths first) (thousandths second)) }
{
    let first = Thousandths(first);
    let second = Thousandths(second);
    format!(in alloc; "{first},{second}")
}

/// A zoom level of these axes (OGC GeoPackage 1.3, 2.2.7).
fn matrix_row(alloc: Global, frame: &Frame, zoom: i64, axes: &Axes) -> Result<String, AllocError>
    ensures { IfOk result (λ text. string_bytes text ≡ matrix_row frame.now zoom axes.now) }
{
    let tiles = pair(alloc, axes.across.tiles, axes.down.tiles)?;
    let size = pair(alloc, frame.tile_width, frame.tile_height)?;
    let pixel = pair_of_thousandths(alloc, axes.across.pixel_size, axes.down.pixel_size)?;
    format!(in alloc;
        "INSERT INTO gpkg_tile_matrix VALUES ('sheet_tiles',{zoom},{tiles},{size},{pixel});\n"
    )
}

/// A zoom level of a frame.
fn matrix(alloc: Global, frame: &Frame, zoom: i64) -> Result<String, AllocError>
    requires good { IsTrue (is_good_frame frame.now) }
    requires level { IsTrue (has_level frame.now zoom) }
    ensures { IfOk result (λ text. string_bytes text ≡ matrix frame.now zoom) }
{
    let axes = axes_at(frame, zoom);
    matrix_row(alloc, frame, zoom, &axes)
}

/// All zoom levels, from the first.
///
/// # Errors
///
/// Want of memory.
pub fn matrices(alloc: Global, frame: &Frame) -> Result<String, AllocError>
    requires { IsTrue (is_good_frame frame.now) }
    ensures { IfOk result (λ text. string_bytes text ≡ matrices frame.now (unsigned_abs frame.now.levels)) }
{
    let mut text = String::new(alloc);
    for level in 0..level_count(frame) {
        let row = matrix(alloc, frame, zoom_at(frame, level))?;
        text.push_str(row.as_str())?;
    }
    Ok(text)
}
