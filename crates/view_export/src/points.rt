//! Geometries: of a point, and of the outline of a tile.
ghost use Rattle.std.specs.Prelude.{◌≡◌, ◌++◌, [], IfOk, OnOk, length};
ghost use Rattle.std.specs.Float.{NotNan};
ghost use Rattle.std.specs.Int.{w32};
ghost use Rattle.view_export.specs.Points.{corner, double_bytes, geometry_header, in_units, outline, point, ring};
ghost use Rattle.view_export.specs.Points.{FitsHeader};

use sheet_types::frame::Ground;
use std::alloc::{AllocError, Global};

/// A number of thousandths as the nearest double.
fn in_units(thousandths: i64) -> f64
    ensures value { result ≡ in_units thousandths }
    ensures number { NotNan result }
{
    fast_float::from_parts(thousandths < 0, thousandths.unsigned_abs(), -3)
}

/// The bytes of that double, the lowest first.
fn double_bytes(thousandths: i64) -> [u8; 8]
    ensures { result ≡ double_bytes thousandths }
{
    in_units(thousandths).to_le_bytes()
}

/// Puts a place behind some bytes, by its two doubles.
fn push_corner(bytes: &mut Vec<u8>, x: i64, y: i64) -> Result<(), AllocError>
    ensures { OnOk result (bytes.new.items ≡ bytes.old.items ++ corner x y) }
{
    bytes.extend_from_slice(&double_bytes(x))?;
    bytes.extend_from_slice(&double_bytes(y))?;
    Ok(())
}

/// The beginning of each geometry: lowest bytes first, no envelope, its reference system.
fn header(alloc: Global, srs_id: i64) -> Result<Vec<u8>, AllocError>
    requires { FitsHeader srs_id }
    ensures { IfOk result (λ bytes. bytes.items ≡ geometry_header srs_id) }
{
    let srs_id = srs_id as i32;
    let mut bytes = Vec::from_slice(alloc, &[b'G', b'P', 0, 1])?;
    bytes.extend_from_slice(&srs_id.to_le_bytes())?;
    Ok(bytes)
}

/// A point in thousandths of the unit of a reference system, as the blob of a feature (OGC GeoPackage 1.3, 2.1.3).
///
/// # Errors
///
/// Want of memory.
pub fn point(alloc: Global, srs_id: i64, x: i64, y: i64) -> Result<Vec<u8>, AllocError>
    requires { FitsHeader srs_id }
    ensures { IfOk result (λ bytes. bytes.items ≡ point srs_id x y) }
{
    let mut bytes = header(alloc, srs_id)?;
    bytes.extend_from_slice(&[1, 1, 0, 0, 0])?;
    push_corner(&mut bytes, x, y)?;
    Ok(bytes)
}

/// Puts the edge of some ground behind some bytes, from its south-west corner eastwards and back to it.
fn push_ring(bytes: &mut Vec<u8>, ground: &Ground) -> Result<(), AllocError>
    ensures { OnOk result (bytes.new.items ≡ bytes.old.items ++ ring ground.now) }
{
    push_corner(bytes, ground.west, ground.south)?;
    push_corner(bytes, ground.east, ground.south)?;
    push_corner(bytes, ground.east, ground.north)?;
    push_corner(bytes, ground.west, ground.north)?;
    push_corner(bytes, ground.west, ground.south)?;
    Ok(())
}

/// The outline of some ground in thousandths of the unit of a reference system, as the blob of a
/// feature: a polygon of one ring.
///
/// # Errors
///
/// Want of memory.
pub fn outline(alloc: Global, srs_id: i64, ground: &Ground) -> Result<Vec<u8>, AllocError>
    requires { FitsHeader srs_id }
    ensures { IfOk result (λ bytes. bytes.items ≡ outline srs_id ground.now) }
{
    let mut bytes = header(alloc, srs_id)?;
    bytes.extend_from_slice(&[1, 3, 0, 0, 0, 1, 0, 0, 0, 5, 0, 0, 0])?;
    push_ring(&mut bytes, ground)?;
    Ok(bytes)
}
