//! Which request a JSON text is.
ghost use Rattle.std.specs.Prelude.{◌≡◌, ◌↔◌, ℕ, ℤ, List, IfOk, IfSome, IfNone, IsTrue, MatchOption};
ghost use Rattle.std.specs.Prelude.{codes};
ghost use Rattle.serde_json.specs.Data.{Data};
ghost use Rattle.serde_json.specs.View.{view};
ghost use Rattle.request_json.specs.Members.{HasNoOther, IsTextAt, JsonIs};
ghost use Rattle.request_json.specs.Requests.{HasRect, IsCommand, IsRequest, IsRequestText, NamesLink, and_of_all};
ghost use Rattle.request_json.specs.Requests.{content_names, member_names};
ghost use Rattle.sheet_types.specs.declared.command.Command.TheVariants as command;
ghost use Rattle.sheet_types.specs.declared.command.Command.{Command};
ghost use Rattle.sheet_types.specs.declared.command.Content.{Content};
ghost use Rattle.sheet_types.specs.declared.command.Mapping.{Mapping};
ghost use Rattle.sheet_types.specs.declared.command.Mode.{Mode};
ghost use Rattle.sheet_types.specs.declared.command.Request.{Request};
ghost use Rattle.sheet_types.specs.declared.frame.Rect.{Rect};

use crate::contents::content_of;
use crate::members::{has_no_other, mapping_at, mode_at, number_at, str_at, text_at, uuid_at};
use serde_json::Value;
use sheet_types::command::{Command, Content, Mapping, Request};
use sheet_types::error::OutOfMemory;
use sheet_types::frame::Rect;
use std::alloc::Global;
use uuid::Uuid;

/// The package, the mapping and the two ends of the link that an object names.
fn named_link(value: &Value) -> Option<(Uuid, Mapping, Uuid, Uuid)>
    ensures some { IfSome result (λ named. NamesLink (view value.now) named.0 named.1 named.2 named.3) }
    ensures none { IfNone result ((holder base other : List ℕ) (mapping : Mapping)
        → ¬ NamesLink (view value.now) holder mapping base other) }
{
    let package = uuid_at(value, "package")?;
    let mapping = mapping_at(value, "kind")?;
    let base = uuid_at(value, "identity")?;
    let other = uuid_at(value, "other")?;
    Some((package, mapping, base, other))
}

/// The link that an object with the word `link` asks for.
fn link_of(value: &Value) -> Option<Command>
    requires word { IsTextAt (view value.now) (codes "command") (codes "link") }
    ensures some { IfSome result (λ found. IsCommand (view value.now) found) }
    ensures none { IfNone result ((target base other : List ℕ) (mapping : Mapping)
        → ¬ IsCommand (view value.now) (command.Link target mapping base other)) }
{
    let (package, mapping, base, other) = named_link(value)?;
    Some(Command::Link {
        package,
        mapping,
        base,
        other,
    })
}

/// The unlink that an object with the word `unlink` asks for.
fn unlink_of(value: &Value) -> Option<Command>
    requires word { IsTextAt (view value.now) (codes "command") (codes "unlink") }
    ensures some { IfSome result (λ found. IsCommand (view value.now) found) }
    ensures none { IfNone result ((source base other : List ℕ) (mapping : Mapping)
        → ¬ IsCommand (view value.now) (command.Unlink source mapping base other)) }
{
    let (package, mapping, base, other) = named_link(value)?;
    Some(Command::Unlink {
        package,
        mapping,
        base,
        other,
    })
}

/// The deletion that an object with the word `delete` asks for.
fn delete_of(value: &Value) -> Option<Command>
    requires word { IsTextAt (view value.now) (codes "command") (codes "delete") }
    ensures some { IfSome result (λ found. IsCommand (view value.now) found) }
    ensures none { IfNone result ((source identity : List ℕ)
        → ¬ IsCommand (view value.now) (command.Delete source identity)) }
{
    let package = uuid_at(value, "package")?;
    let identity = uuid_at(value, "identity")?;
    Some(Command::Delete { package, identity })
}

/// The rectangle that an object names.
fn rect_of(value: &Value) -> Option<Rect>
    ensures some { IfSome result (λ rect. HasRect (view value.now) rect) }
    ensures none { IfNone result ((rect : Rect) → ¬ HasRect (view value.now) rect) }
{
    let zoom = number_at(value, "zoom")?;
    let column = number_at(value, "column")?;
    let last_column = number_at(value, "last_column")?;
    let row = number_at(value, "row")?;
    let last_row = number_at(value, "last_row")?;
    Some(Rect {
        zoom,
        column,
        last_column,
        row,
        last_row,
    })
}

/// The split that an object with the word `split` asks for.
fn split_of(value: &Value) -> Option<Command>
    requires word { IsTextAt (view value.now) (codes "command") (codes "split") }
    ensures some { IfSome result (λ found. IsCommand (view value.now) found) }
    ensures none { IfNone result ((source child : List ℕ) (mode : Mode) (rect : Rect)
        → ¬ IsCommand (view value.now) (command.Split source child mode rect)) }
{
    let package = uuid_at(value, "package")?;
    let child = uuid_at(value, "other")?;
    let mode = mode_at(value, "kind")?;
    let rect = rect_of(value)?;
    Some(Command::Split {
        package,
        child,
        mode,
        rect,
    })
}

/// The merge that an object with the word `merge` asks for.
fn merge_of(value: &Value) -> Option<Command>
    requires word { IsTextAt (view value.now) (codes "command") (codes "merge") }
    ensures some { IfSome result (λ found. IsCommand (view value.now) found) }
    ensures none { IfNone result ((child into : List ℕ) (ticket : ℤ)
        → ¬ IsCommand (view value.now) (command.Merge child into ticket)) }
{
    let child = uuid_at(value, "package")?;
    let into = uuid_at(value, "other")?;
    let ticket = number_at(value, "ticket")?;
    Some(Command::Merge {
        child,
        into,
        ticket,
    })
}

/// The addition that an object with the word `add` asks for.
fn add_of(alloc: Global, value: &Value) -> Result<Option<Command>, OutOfMemory>
    requires word { IsTextAt (view value.now) (codes "command") (codes "add") }
    ensures some { IfOk result (λ found. IfSome found (λ addition. IsCommand (view value.now) addition)) }
    ensures none { IfOk result (λ found. IfNone found ((target identity : List ℕ) (content : Content)
        → ¬ IsCommand (view value.now) (command.Add target identity content))) }
{
    let Some(package) = uuid_at(value, "package") else {
        return Ok(None);
    };
    let Some(identity) = uuid_at(value, "identity") else {
        return Ok(None);
    };
    let Some(content) = content_of(alloc, value)? else {
        return Ok(None);
    };
    Ok(Some(Command::Add {
        package,
        identity,
        content,
    }))
}

/// The command that an object asks for, by its word.
fn command_of(alloc: Global, value: &Value) -> Result<Option<Command>, OutOfMemory>
    ensures some { IfOk result (λ found. IfSome found (λ asked. IsCommand (view value.now) asked)) }
    ensures none { IfOk result (λ found. IfNone found ((asked : Command) → ¬ IsCommand (view value.now) asked)) }
{
    let Some(word) = str_at(value, "command") else {
        return Ok(None);
    };
    match word {
        "add" => add_of(alloc, value),
        "delete" => Ok(delete_of(value)),
        "link" => Ok(link_of(value)),
        "unlink" => Ok(unlink_of(value)),
        "split" => Ok(split_of(value)),
        "merge" => Ok(merge_of(value)),
        _ => Ok(None),
    }
}

/// The members of the addition of a tile.
const OF_TILE: [&str; 10] = [
    "request", "at", "command", "package", "identity", "kind", "zoom", "column", "row", "data",
];

/// Those of the addition of a medium.
const OF_MEDIA: [&str; 8] = [
    "request", "at", "command", "package", "identity", "kind", "text", "data",
];

/// Those of the addition of a row.
const OF_ROW: [&str; 10] = [
    "request", "at", "command", "package", "identity", "kind", "x", "y", "code", "text",
];

/// Those of a deletion.
const OF_DELETE: [&str; 5] = ["request", "at", "command", "package", "identity"];

/// Those of a link and of an unlink.
const OF_LINK: [&str; 7] = [
    "request", "at", "command", "package", "identity", "kind", "other",
];

/// Those of a split.
const OF_SPLIT: [&str; 11] = [
    "request",
    "at",
    "command",
    "package",
    "other",
    "kind",
    "zoom",
    "column",
    "last_column",
    "row",
    "last_row",
];

/// Those of a merge.
const OF_MERGE: [&str; 6] = ["request", "at", "command", "package", "other", "ticket"];

/// Whether an object has no members but those of a request with this content added.
fn has_no_more_than_content(value: &Value, content: &Content) -> bool
    ensures { IsTrue result ↔ HasNoOther (view value.now) (and_of_all (content_names content.now)) }
{
    match content {
        Content::Tile { .. } => has_no_other(value, &OF_TILE),
        Content::Media { .. } => has_no_other(value, &OF_MEDIA),
        Content::Row { .. } => has_no_other(value, &OF_ROW),
    }
}

/// Whether an object has no members but those of a request with this command.
fn has_no_more_than(value: &Value, command: &Command) -> bool
    ensures { IsTrue result ↔ HasNoOther (view value.now) (member_names command.now) }
{
    match command {
        Command::Add { content, .. } => has_no_more_than_content(value, content),
        Command::Delete { .. } => has_no_other(value, &OF_DELETE),
        Command::Link { .. } | Command::Unlink { .. } => has_no_other(value, &OF_LINK),
        Command::Split { .. } => has_no_other(value, &OF_SPLIT),
        Command::Merge { .. } => has_no_other(value, &OF_MERGE),
    }
}

/// The request that a JSON value is.
fn request_of(alloc: Global, value: &Value) -> Result<Option<Request>, OutOfMemory>
    ensures some { IfOk result (λ found. IfSome found (λ request. IsRequest (view value.now) request)) }
    ensures none { IfOk result (λ found. IfNone found ((request : Request)
        → ¬ IsRequest (view value.now) request)) }
{
    let Some(id) = uuid_at(value, "request") else {
        return Ok(None);
    };
    let Some(at) = text_at(alloc, value, "at")? else {
        return Ok(None);
    };
    let Some(command) = command_of(alloc, value)? else {
        return Ok(None);
    };
    if !has_no_more_than(value, &command) {
        return Ok(None);
    }
    Ok(Some(Request { id, at, command }))
}

/// The JSON value that a text is, `None` where it is no JSON.
fn read_json(alloc: Global, text: &[u8]) -> Result<Option<Value>, OutOfMemory>
    ensures { IfOk result (λ found. MatchOption found ((d : Data) → ¬ JsonIs text.now d)
        (λ value. JsonIs text.now (view value))) }
{
    match Value::from_slice(alloc, text) {
        Ok(value) => Ok(Some(value)),
        Err(fault) => {
            if fault.is_memory() {
                Err(OutOfMemory)
            } else {
                Ok(None)
            }
        }
    }
}

/// The request that a text is: a JSON object with exactly the members of its command, each of its
/// form. `None` where it is none.
///
/// # Errors
///
/// Want of memory.
pub fn read_request(alloc: Global, text: &[u8]) -> Result<Option<Request>, OutOfMemory>
    ensures some { IfOk result (λ found. IfSome found (λ request. IsRequestText text.now request)) }
    ensures none { IfOk result (λ found. IfNone found ((request : Request) → ¬ IsRequestText text.now request)) }
{
    match read_json(alloc, text)? {
        Some(value) => request_of(alloc, &value),
        None => Ok(None),
    }
}
