//! Which request a record is.
ghost use Rattle.std.specs.Prelude.{◌≡◌, ℕ, List, IfOk, IfSome, IfNone, codes};
ghost use Rattle.csv.specs.Records.{fields_of};
ghost use Rattle.request_csv.specs.Requests.{IsCommand, IsRequest, IsTextAt, NamesLink};
ghost use Rattle.sheet_types.specs.declared.command.Command.TheVariants as command;
ghost use Rattle.sheet_types.specs.declared.command.Command.{Command};
ghost use Rattle.sheet_types.specs.declared.command.Content.{Content};
ghost use Rattle.sheet_types.specs.declared.command.Mapping.{Mapping};
ghost use Rattle.sheet_types.specs.declared.command.Relation.{Relation};
ghost use Rattle.sheet_types.specs.declared.command.Request.{Request};

use crate::columns::{AT, COMMAND, COUNT, IDENTITY, KIND, OTHER, PACKAGE, REQUEST};
use crate::contents::content_of;
use crate::fields::{are_empty, mapping_at, text_at, uuid_at};
use crate::loans::{merge_of, split_of};
use csv::StringRecord;
use sheet_types::command::{Command, Content, Relation, Request};
use sheet_types::error::OutOfMemory;
use std::alloc::Global;
use uuid::Uuid;

/// The columns that a deletion leaves empty.
const NOT_OF_DELETE: [usize; 13] = [5, 6, 7, 8, 9, 10, 11, 12, 13, 14, 15, 16, 17];

/// The columns that links and unlinks leave empty.
const NOT_OF_LINK: [usize; 11] = [7, 8, 9, 10, 11, 12, 13, 14, 15, 16, 17];

/// The package and the link that a record names.
fn named_link(row: &StringRecord) -> Option<(Uuid, Relation)>
    ensures some { IfSome result (λ named. NamesLink (fields_of row.now) named.0 named.1) }
    ensures none { IfNone result ((holder : List ℕ) (link : Relation)
        → ¬ NamesLink (fields_of row.now) holder link) }
{
    if !are_empty(row, &NOT_OF_LINK) {
        return None;
    }
    let package = uuid_at(row, PACKAGE)?;
    let mapping = mapping_at(row, KIND)?;
    let base = uuid_at(row, IDENTITY)?;
    let other = uuid_at(row, OTHER)?;
    Some((package, Relation::new(mapping, base, other)))
}

/// The link that a record with the word `link` asks for.
fn link_of(row: &StringRecord) -> Option<Command>
    requires word { IsTextAt (fields_of row.now) 2 (codes "link") }
    ensures some { IfSome result (λ found. IsCommand (fields_of row.now) found) }
    ensures none { IfNone result ((target base other : List ℕ) (mapping : Mapping)
        → ¬ IsCommand (fields_of row.now) (command.Link target mapping base other)) }
{
    let (package, link) = named_link(row)?;
    Some(Command::Link {
        package,
        mapping: link.mapping,
        base: link.base,
        other: link.other,
    })
}

/// The unlink that a record with the word `unlink` asks for.
fn unlink_of(row: &StringRecord) -> Option<Command>
    requires word { IsTextAt (fields_of row.now) 2 (codes "unlink") }
    ensures some { IfSome result (λ found. IsCommand (fields_of row.now) found) }
    ensures none { IfNone result ((source base other : List ℕ) (mapping : Mapping)
        → ¬ IsCommand (fields_of row.now) (command.Unlink source mapping base other)) }
{
    let (package, link) = named_link(row)?;
    Some(Command::Unlink {
        package,
        mapping: link.mapping,
        base: link.base,
        other: link.other,
    })
}

/// The deletion that a record with the word `delete` asks for.
fn delete_of(row: &StringRecord) -> Option<Command>
    requires word { IsTextAt (fields_of row.now) 2 (codes "delete") }
    ensures some { IfSome result (λ found. IsCommand (fields_of row.now) found) }
    ensures none { IfNone result ((source identity : List ℕ)
        → ¬ IsCommand (fields_of row.now) (command.Delete source identity)) }
{
    if !are_empty(row, &NOT_OF_DELETE) {
        return None;
    }
    let package = uuid_at(row, PACKAGE)?;
    let identity = uuid_at(row, IDENTITY)?;
    Some(Command::Delete { package, identity })
}

/// The columns that every addition leaves empty.
const NOT_OF_ADD: [usize; 2] = [5, 15];

/// The addition that a record with the word `add` asks for.
fn add_of(alloc: Global, row: &StringRecord) -> Result<Option<Command>, OutOfMemory>
    requires word { IsTextAt (fields_of row.now) 2 (codes "add") }
    ensures some { IfOk result (λ found. IfSome found (λ addition. IsCommand (fields_of row.now) addition)) }
    ensures none { IfOk result (λ found. IfNone found ((target identity : List ℕ) (content : Content)
        → ¬ IsCommand (fields_of row.now) (command.Add target identity content))) }
{
    if !are_empty(row, &NOT_OF_ADD) {
        return Ok(None);
    }
    let Some(package) = uuid_at(row, PACKAGE) else {
        return Ok(None);
    };
    let Some(identity) = uuid_at(row, IDENTITY) else {
        return Ok(None);
    };
    let Some(content) = content_of(alloc, row)? else {
        return Ok(None);
    };
    Ok(Some(Command::Add {
        package,
        identity,
        content,
    }))
}

/// The command that a record asks for, by its word.
pub fn command_of(alloc: Global, row: &StringRecord) -> Result<Option<Command>, OutOfMemory>
    ensures some { IfOk result (λ found. IfSome found (λ asked. IsCommand (fields_of row.now) asked)) }
    ensures none { IfOk result (λ found. IfNone found ((asked : Command) → ¬ IsCommand (fields_of row.now) asked)) }
{
    let Some(word) = row.get(COMMAND) else {
        return Ok(None);
    };
    match word {
        "add" => add_of(alloc, row),
        "delete" => Ok(delete_of(row)),
        "link" => Ok(link_of(row)),
        "unlink" => Ok(unlink_of(row)),
        "split" => Ok(split_of(row)),
        "merge" => Ok(merge_of(row)),
        _ => Ok(None),
    }
}

/// The request that a record is.
pub fn request_of(alloc: Global, row: &StringRecord) -> Result<Option<Request>, OutOfMemory>
    ensures some { IfOk result (λ found. IfSome found (λ request. IsRequest (fields_of row.now) request)) }
    ensures none { IfOk result (λ found. IfNone found ((request : Request)
        → ¬ IsRequest (fields_of row.now) request)) }
{
    if row.len() != COUNT {
        return Ok(None);
    }
    let Some(id) = uuid_at(row, REQUEST) else {
        return Ok(None);
    };
    let Some(at) = text_at(alloc, row, AT)? else {
        return Ok(None);
    };
    let Some(command) = command_of(alloc, row)? else {
        return Ok(None);
    };
    Ok(Some(Request { id, at, command }))
}
