//! The table of packages.
ghost use Rattle.std.specs.Prelude.{◌≡◌, ◌++◌, IfOk, codes, string_bytes};
ghost use Rattle.view_text.specs.Packages.{headings, moment_text, status_line, status_of, strays_line, sums_columns};

use crate::columns::{put, put_digits, put_end, put_number, put_uuid};
use sheet_types::collections::Text;
use sheet_types::receipt::Sums;
use std::alloc::{AllocError, Global};
use uuid::Uuid;

/// What the table says of a package.
#[derive(Drop)]
pub struct PackageRow {
    /// The package's own.
    pub uuid: Uuid,
    /// The package that it is lent from, none of the archive.
    pub parent: Option<Uuid>,
    /// How many loans it is below the archive.
    pub depth: u64,
    /// The number of the receipt of the split that made it, 0 of the archive.
    pub loan: u64,
    /// What it holds.
    pub sums: Sums,
    /// The moment of the last receipt that names it, none where there is no receipt of it.
    pub changed: Option<Text>,
}

/// The names of the columns, in their widths.
fn headings() -> &'static str
    ensures { result.now ≡ headings }
{
    "package                               parent                                depth        loan    tiles    media     rows    links          bytes  last change\n"
}

/// Puts the columns of what is held.
fn put_sums(text: &mut String, sums: Sums) -> Result<(), AllocError>
    ensures { IfOk result (λ _. string_bytes text.new ≡ string_bytes text.old ++ sums_columns sums) }
{
    put_number(text, 7, sums.tiles)?;
    put_number(text, 7, sums.media)?;
    put_number(text, 7, sums.rows)?;
    put_number(text, 7, sums.links)?;
    put_number(text, 13, sums.bytes)?;
    Ok(())
}

/// Puts a moment that may be none.
fn put_moment(text: &mut String, at: &Option<Text>) -> Result<(), AllocError>
    ensures { IfOk result (λ _. string_bytes text.new ≡ string_bytes text.old ++ moment_text at.now) }
{
    match at {
        Some(at) => put(text, at.as_str()),
        None => put(text, "-"),
    }
}

/// Puts the line of a package.
fn put_package(text: &mut String, row: &PackageRow) -> Result<(), AllocError>
    ensures { IfOk result (λ _. string_bytes text.new ≡ string_bytes text.old ++ status_line row.now) }
{
    put_uuid(text, row.uuid)?;
    put_end(text, row.parent)?;
    put_number(text, 5, row.depth)?;
    put_number(text, 10, row.loan)?;
    put_sums(text, row.sums)?;
    put_moment(text, &row.changed)?;
    put(text, "\n")?;
    Ok(())
}

/// A line of headings, and a line for each package, in their order.
///
/// # Errors
///
/// Want of memory.
pub fn status_text(alloc: Global, rows: &[PackageRow]) -> Result<String, AllocError>
    ensures { IfOk result (λ text. string_bytes text ≡ status_of rows.now) }
{
    let mut text = String::new(alloc);
    put(&mut text, headings())?;
    for row in rows {
        put_package(&mut text, row)?;
    }
    Ok(text)
}

/// Puts a last line that says how many stores are of no live package, or nothing where there is none.
///
/// # Errors
///
/// Want of memory.
pub fn put_strays(text: &mut String, strays: u64) -> Result<(), AllocError>
    ensures { IfOk result (λ _. string_bytes text.new ≡ string_bytes text.old ++ strays_line strays) }
{
    if strays > 0 {
        put(text, "strays ")?;
        put_digits(text, strays)?;
        put(text, "\n")?;
    }
    Ok(())
}
