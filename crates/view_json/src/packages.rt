//! The table of packages as JSON.
ghost use Rattle.std.specs.Prelude.{◌≡◌, ◌++◌, ◌∷◌, [], IfOk, List, string_bytes};
ghost use Rattle.serde_json.specs.View.{view};
ghost use Rattle.serde_json.specs.Written.{compact_text};
ghost use Rattle.view_json.specs.Arrays.{Puts};
ghost use Rattle.view_json.specs.Packages.{package_data, package_object, status_json, strays_data};

use crate::arrays::{Lines, close_array, end_value, open_array, put_object, text_value};
use serde_json::{Value, json};
use std::alloc::{AllocError, Global};
use uuid::Uuid;
use view_text::packages::PackageRow;

/// The JSON of a package, by the values of its last change and of its parent.
fn package_object(
    alloc: Global,
    row: &PackageRow,
    changed: &Value,
    parent: &Value,
) -> Result<Value, AllocError>
    ensures { IfOk result (λ value.
        view value ≡ package_object row.now (view changed.now) (view parent.now)) }
{
    let mut letters = Uuid::encode_buffer();
    let package = row.uuid.hyphenated().encode_lower(&mut letters);
    let sums = row.sums;
    json!(in alloc; {
        "bytes": sums.bytes,
        "depth": row.depth,
        "last_change": changed,
        "links": sums.links,
        "loan": row.loan,
        "media": sums.media,
        "package": package,
        "parent": parent,
        "rows": sums.rows,
        "tiles": sums.tiles
    })
}

/// The JSON of a package.
fn package_value(alloc: Global, row: &PackageRow) -> Result<Value, AllocError>
    ensures { IfOk result (λ value. view value ≡ package_data row.now) }
{
    let changed = text_value(alloc, &row.changed)?;
    let parent = end_value(alloc, row.parent)?;
    let value = package_object(alloc, row, &changed, &parent)?;
    Ok(value)
}

/// Its text.
fn package_text(alloc: Global, row: &PackageRow) -> Result<String, AllocError>
    ensures { IfOk result (λ text. string_bytes text ≡ compact_text (package_data row.now)) }
{
    let value = package_value(alloc, row)?;
    let text = value.to_string(alloc)?;
    Ok(text)
}

/// Puts the object of a package.
fn put_package(alloc: Global, lines: &mut Lines, row: &PackageRow) -> Result<(), AllocError>
    ensures { IfOk result (λ _. Puts (package_data row.now ∷ []) lines.old lines.new) }
{
    let text = package_text(alloc, row)?;
    put_object(lines, text.as_str())?;
    Ok(())
}

/// The JSON of how many files are of no live package.
fn strays_value(alloc: Global, strays: u64) -> Result<Value, AllocError>
    ensures { IfOk result (λ value. view value ≡ strays_data strays) }
{
    json!(in alloc; {"strays": strays})
}

/// Its text.
fn strays_text(alloc: Global, strays: u64) -> Result<String, AllocError>
    ensures { IfOk result (λ text. string_bytes text ≡ compact_text (strays_data strays)) }
{
    let value = strays_value(alloc, strays)?;
    value.to_string(alloc)
}

/// Puts that object.
fn put_strays(alloc: Global, lines: &mut Lines, strays: u64) -> Result<(), AllocError>
    ensures { IfOk result (λ _. Puts (strays_data strays ∷ []) lines.old lines.new) }
{
    let text = strays_text(alloc, strays)?;
    put_object(lines, text.as_str())?;
    Ok(())
}

/// An object for each package, in their order, and a last one that says how many files are of no live package, as one
/// array.
///
/// # Errors
///
/// Want of memory.
pub fn status_json(alloc: Global, rows: &[PackageRow], strays: u64) -> Result<String, AllocError>
    ensures { IfOk result (λ text. string_bytes text ≡ status_json rows.now strays) }
{
    let mut lines = open_array(alloc)?;
    for row in rows {
        put_package(alloc, &mut lines, row)?;
    }
    put_strays(alloc, &mut lines, strays)?;
    let text = close_array(lines)?;
    Ok(text)
}
