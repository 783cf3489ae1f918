//! What people are told, as a table or as JSON.
ghost use Rattle.std.specs.Prelude.{◌≡◌, IfOk, MatchOption, false, string_bytes, true};
ghost use Rattle.std.specs.List.{list_any};
ghost use Rattle.view_text.specs.Ways.{speaks_of};
ghost use Rattle.view_json.specs.Forms.{told_excerpt, told_status, told_way};

use crate::ledgers::excerpt_json;
use crate::packages::status_json;
use crate::ways::way_json;
use sheet_types::receipt::Receipt;
use std::alloc::{AllocError, Global};
use uuid::Uuid;
use view_text::ledgers::{Excerpt, excerpt_text};
use view_text::packages::{PackageRow, put_strays, status_text};
use view_text::ways::way_text;

/// How what is looked at is told.
#[derive(Clone, Copy, PartialEq, Eq)]
pub enum Form {
    /// A table for people.
    Table,
    /// One JSON array for other programs, an object a line.
    Json,
}

/// What the table says of packages, and of how many files that are of no live package.
///
/// # Errors
///
/// Want of memory.
pub fn told_status(
    alloc: Global,
    form: Form,
    rows: &[PackageRow],
    strays: u64,
) -> Result<String, AllocError>
    ensures { IfOk result (λ text. string_bytes text ≡ told_status form rows.now strays) }
{
    match form {
        Form::Table => {
            let mut text = status_text(alloc, rows)?;
            put_strays(&mut text, strays)?;
            Ok(text)
        }
        Form::Json => status_json(alloc, rows, strays),
    }
}

/// The receipts of a ledger that are asked for, in their order.
///
/// # Errors
///
/// Want of memory.
pub fn told_excerpt(
    alloc: Global,
    form: Form,
    ledger: &[Receipt],
    excerpt: &Excerpt<'_>,
) -> Result<String, AllocError>
    ensures { IfOk result (λ text. string_bytes text ≡ told_excerpt form ledger.now excerpt.now) }
{
    match form {
        Form::Table => excerpt_text(alloc, ledger, excerpt),
        Form::Json => excerpt_json(alloc, ledger, excerpt),
    }
}

/// The way of an item by receipts in the order of their numbers. `None` where no receipt names it.
///
/// # Errors
///
/// Want of memory.
pub fn told_way(
    alloc: Global,
    form: Form,
    receipts: &[Receipt],
    identity: Uuid,
) -> Result<Option<String>, AllocError>
    ensures { IfOk result (λ found.
        MatchOption found (list_any (speaks_of identity) receipts.now ≡ false)
        (λ text. (list_any (speaks_of identity) receipts.now ≡ true)
        × (string_bytes text ≡ told_way form identity receipts.now))) }
{
    match form {
        Form::Table => way_text(alloc, receipts, identity),
        Form::Json => way_json(alloc, receipts, identity),
    }
}
