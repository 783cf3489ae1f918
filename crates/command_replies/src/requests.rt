//! A request as JSON (RFC 8259), as it is read: its members in the order of the fields of a list.
ghost use Rattle.std.specs.Prelude.{◌≡◌, IfOk, string_bytes};
ghost use Rattle.command_replies.specs.Requests.{area_members, command_members, command_word, content_members};
ghost use Rattle.command_replies.specs.Requests.{data_member, front_members, link_members, loan_members, mark_members};
ghost use Rattle.command_replies.specs.Requests.{medium_members, package_of, place_members, quoted, request_text};
ghost use Rattle.command_replies.specs.Requests.{tile_members};

use serde_json::json;
use sheet_types::command::{Command, Content, Mapping, Mode, Request};
use sheet_types::frame::Rect;
use std::alloc::{AllocError, Global};
use uuid::Uuid;

/// A text as a JSON string.
fn quote_text(alloc: Global, text: &str) -> Result<String, AllocError>
    ensures { IfOk result (λ json. string_bytes json ≡ quoted text.now) }
{
    let value = json!(in alloc; text)?;
    value.to_string(alloc)
}

/// The members of a place: zoom, column and row.
fn place_members(alloc: Global, zoom: i64, column: i64, row: i64) -> Result<String, AllocError>
    ensures { IfOk result (λ text. string_bytes text ≡ place_members zoom column row) }
{
    format!(in alloc; "\"zoom\":{zoom},\"column\":{column},\"row\":{row}")
}

/// The member that has bytes.
fn data_member(alloc: Global, bytes: &[u8]) -> Result<String, AllocError>
    ensures { IfOk result (λ text. string_bytes text ≡ data_member bytes.now) }
{
    let digits = hex::encode(alloc, bytes)?;
    format!(in alloc; "\"data\":\"{digits}\"")
}

/// The members of a tile: its kind, its place and its bytes.
fn tile_members(alloc: Global, place: &str, data: &str) -> Result<String, AllocError>
    ensures { IfOk result (λ text. string_bytes text ≡ tile_members place.now «data».now) }
{
    format!(in alloc; "\"kind\":\"tile\",{place},{data}")
}

/// The members of a medium.
fn medium_members(alloc: Global, content_type: &str, bytes: &[u8]) -> Result<String, AllocError>
    ensures { IfOk result (λ text. string_bytes text ≡ medium_members content_type.now bytes.now) }
{
    let content_type = quote_text(alloc, content_type)?;
    let digits = hex::encode(alloc, bytes)?;
    format!(in alloc; "\"kind\":\"media\",\"text\":{content_type},\"data\":\"{digits}\"")
}

/// The members of an attributes row.
fn mark_members(alloc: Global, x: i64, y: i64, code: i64, label: &str) -> Result<String, AllocError>
    ensures { IfOk result (λ text. string_bytes text ≡ mark_members x y code label.now) }
{
    let label = quote_text(alloc, label)?;
    format!(in alloc; "\"kind\":\"row\",\"x\":{x},\"y\":{y},\"code\":{code},\"text\":{label}")
}

/// The members of a content.
fn content_members(alloc: Global, content: &Content) -> Result<String, AllocError>
    ensures { IfOk result (λ text. string_bytes text ≡ content_members content.now) }
{
    match content {
        Content::Tile {
            zoom,
            column,
            row,
            bytes,
        } => {
            let place = place_members(alloc, *zoom, *column, *row)?;
            let data = data_member(alloc, bytes.as_slice())?;
            tile_members(alloc, place.as_str(), data.as_str())
        }
        Content::Media {
            content_type,
            bytes,
        } => medium_members(alloc, content_type.as_str(), bytes.as_slice()),
        Content::Row { x, y, code, label } => { mark_members(alloc, *x, *y, *code, label.as_str()) }
    }
}

/// The members of a link, or of its end.
fn link_members(
    alloc: Global,
    mapping: Mapping,
    base: Uuid,
    other: Uuid,
) -> Result<String, AllocError>
    ensures { IfOk result (λ text. string_bytes text ≡ link_members mapping base other) }
{
    format!(in alloc; "\"identity\":\"{base}\",\"other\":\"{other}\",\"kind\":\"{mapping}\"")
}

/// The members of a rectangle.
fn area_members(alloc: Global, rect: &Rect) -> Result<String, AllocError>
    ensures { IfOk result (λ text. string_bytes text ≡ area_members rect.now) }
{
    let place = place_members(alloc, rect.zoom, rect.column, rect.row)?;
    let last_column = rect.last_column;
    let last_row = rect.last_row;
    format!(in alloc; "{place},\"last_column\":{last_column},\"last_row\":{last_row}")
}

/// The members of a loan.
fn loan_members(alloc: Global, child: Uuid, mode: Mode, rect: &Rect) -> Result<String, AllocError>
    ensures { IfOk result (λ text. string_bytes text ≡ loan_members child mode rect.now) }
{
    let area = area_members(alloc, rect)?;
    format!(in alloc; "\"other\":\"{child}\",\"kind\":\"{mode}\",{area}")
}

/// The members of a command, but for its word and the package that it names first.
fn command_members(alloc: Global, command: &Command) -> Result<String, AllocError>
    ensures { IfOk result (λ text. string_bytes text ≡ command_members command.now) }
{
    match command {
        Command::Add {
            identity,
            content,
            ..
        } => {
            let content = content_members(alloc, content)?;
            format!(in alloc; "\"identity\":\"{identity}\",{content}")
        }
        Command::Delete { identity, .. } => format!(in alloc; "\"identity\":\"{identity}\""),
        Command::Link {
            mapping,
            base,
            other,
            ..
        } => link_members(alloc, *mapping, *base, *other),
        Command::Unlink {
            mapping,
            base,
            other,
            ..
        } => link_members(alloc, *mapping, *base, *other),
        Command::Split {
            child,
            mode,
            rect,
            ..
        } => loan_members(alloc, *child, *mode, rect),
        Command::Merge { into, ticket, .. } => {
            format!(in alloc; "\"other\":\"{into}\",\"ticket\":{ticket}")
        }
    }
}

/// The package that a command names first.
fn package_of(command: &Command) -> Uuid
    ensures { result ≡ package_of command.now }
{
    match command {
        Command::Add { package, .. } => *package,
        Command::Delete { package, .. } => *package,
        Command::Link { package, .. } => *package,
        Command::Unlink { package, .. } => *package,
        Command::Split { package, .. } => *package,
        Command::Merge { child, .. } => *child,
    }
}

/// The word of a command.
fn command_word(command: &Command) -> &'static str
    ensures { result.now ≡ command_word command.now }
{
    match command {
        Command::Add { .. } => "add",
        Command::Delete { .. } => "delete",
        Command::Link { .. } => "link",
        Command::Unlink { .. } => "unlink",
        Command::Split { .. } => "split",
        Command::Merge { .. } => "merge",
    }
}

/// The members that every request has.
fn front_members(alloc: Global, request: &Request) -> Result<String, AllocError>
    ensures { IfOk result (λ text. string_bytes text ≡ front_members request.now) }
{
    let id = request.id;
    let at = quote_text(alloc, request.at.as_str())?;
    let word = command_word(&request.command);
    let package = package_of(&request.command);
    format!(in alloc;
        "\"request\":\"{id}\",\"at\":{at},\"command\":\"{word}\",\"package\":\"{package}\""
    )
}

/// A request as JSON.
pub fn request_text(alloc: Global, request: &Request) -> Result<String, AllocError>
    ensures { IfOk result (λ text. string_bytes text ≡ request_text request.now) }
{
    let front = front_members(alloc, request)?;
    let rest = command_members(alloc, &request.command)?;
    format!(in alloc; "{{{front},{rest}}}")
}
