//! The list of live packages as JSON (RFC 8259).
ghost use Rattle.std.specs.Prelude.{◌≡◌, ◌++◌, Bool, IfOk, OnOk, string_bytes};
ghost use Rattle.serde_json.specs.View.{view};
ghost use Rattle.serde_json.specs.Written.{comma_if, compact_text};
ghost use Rattle.sheet_types.specs.Custody.{ends_at};
ghost use Rattle.sheet_types.specs.World.{World};
ghost use Rattle.desk_replies.specs.Bodies.{all_listed, list_text, listed_data, loans_among, packages_text};
ghost use Rattle.desk_replies.specs.Responses.{list_response, packages_response};

use crate::responses::good_response;
use serde_json::{Value, json};
use sheet_types::error::OutOfMemory;
use sheet_types::receipt::Sums;
use sheet_types::words::OrEmpty;
use std::alloc::{AllocError, Global};
use uuid::Uuid;

/// What is told of a live package, but for its loans, which the list itself tells.
#[derive(Clone, Copy, PartialEq, Eq)]
pub struct Listed {
    /// The package's own.
    pub uuid: Uuid,
    /// The package that it is lent from, none of the archive.
    pub parent: Option<Uuid>,
    /// How many loans it is below the archive.
    pub depth: u64,
    /// The number of the last receipt that names the package, 0 where there is none.
    pub ticket: u64,
    /// How much it holds.
    pub sums: Sums,
}

/// Whether a package is a loan of this one.
fn is_loan_of(listed: &Listed, package: Uuid) -> bool
    ensures { result ≡ ends_at listed.now.parent «package» }
{
    match listed.parent {
        Some(parent) => parent == package,
        None => false,
    }
}

/// How many of these packages are loans of one.
pub fn loans_among(packages: &[Listed], package: Uuid) -> usize
    ensures { result ≡ loans_among packages.now «package» }
{
    packages
        .iter()
        .filter(|listed| is_loan_of(listed, package))
        .count()
}

/// The JSON of one package.
fn listed_value(alloc: Global, listed: &Listed, loans: u64) -> Result<Value, AllocError>
    ensures { IfOk result (λ value. view value ≡ listed_data listed.now loans) }
{
    let mut first = Uuid::encode_buffer();
    let mut second = Uuid::encode_buffer();
    let package = listed.uuid.hyphenated().encode_lower(&mut first);
    let parent = OrEmpty(listed.parent).encode_lower(&mut second);
    let sums = listed.sums;
    json!(in alloc; {
        "bytes": sums.bytes,
        "depth": listed.depth,
        "links": sums.links,
        "loans": loans,
        "media": sums.media,
        "package": package,
        "parent": parent,
        "rows": sums.rows,
        "ticket": listed.ticket,
        "tiles": sums.tiles
    })
}

/// The text of one package.
fn listed_text(alloc: Global, listed: &Listed, loans: u64) -> Result<String, AllocError>
    ensures { IfOk result (λ text. string_bytes text ≡ compact_text (listed_data listed.now loans)) }
{
    let value = listed_value(alloc, listed, loans)?;
    value.to_string(alloc)
}

/// Puts the text of one package behind others, with a comma where there is one before.
fn push_listed(
    alloc: Global,
    body: &mut Vec<u8>,
    is_later: bool,
    listed: &Listed,
    loans: u64,
) -> Result<(), OutOfMemory>
    ensures { OnOk result (body.new.items ≡ body.old.items ++
        (comma_if is_later ++ compact_text (listed_data listed.now loans))) }
{
    if is_later {
        body.push(b',')?;
    }
    let text = listed_text(alloc, listed, loans)?;
    body.extend_from_slice(text.as_bytes())?;
    Ok(())
}

/// The body of a list of packages.
pub fn list_body(alloc: Global, packages: &[Listed]) -> Result<Vec<u8>, OutOfMemory>
    ensures { IfOk result (λ body. body.items ≡ list_text packages.now) }
{
    let mut body = Vec::new(alloc);
    body.push(b'[')?;
    let mut is_later = false;
    'packages: for package in packages {
        let loans = loans_among(packages, package.uuid) as u64;
        push_listed(alloc, &mut body, is_later, package, loans)?;
        is_later = true;
    }
    body.push(b']')?;
    Ok(body)
}

/// The response with a list of packages.
pub fn list_response(alloc: Global, packages: &[Listed]) -> Result<Vec<u8>, OutOfMemory>
    ensures text { IfOk result (λ bytes. bytes.items ≡ list_response packages.now) }
    ensures told { IfOk result (λ bytes. (w : World) → packages.now ≡ all_listed w
        → bytes.items ≡ packages_response w) }
{
    let body = list_body(alloc, packages)?;
    let bytes = good_response(alloc, body.as_slice())?;
    Ok(bytes)
}
