//! Requests of a list as JSON, short enough for a desk.
use crate::desks::MOST_SENT;
use command_replies::requests::request_text;
use sheet_types::collections::Bytes;
use sheet_types::command::{Command, Content, Request};
use sheet_types::error::OutOfMemory;
use std::alloc::Global;
use uuid::Uuid;

/// The most bytes of a content that is told from longer ones: one more than a content may have.
const MOST_TOLD: usize = 1_048_577;

/// The front of some bytes.
fn front_of(alloc: Global, bytes: &Bytes) -> Result<Bytes, OutOfMemory> {
    let all = bytes.as_slice();
    let mut front = Vec::new(alloc);
    front.extend_from_slice(all.get(..MOST_TOLD).unwrap_or(all))?;
    Ok(Bytes::from_vec(front))
}

/// A content that is as much too long as has to be; none of a mark.
fn shorten_content(alloc: Global, content: &Content) -> Result<Option<Content>, OutOfMemory> {
    match content {
        Content::Tile {
            zoom,
            column,
            row,
            bytes,
        } => Ok(Some(Content::Tile {
            zoom: *zoom,
            column: *column,
            row: *row,
            bytes: front_of(alloc, bytes)?,
        })),
        Content::Media {
            content_type,
            bytes,
        } => Ok(Some(Content::Media {
            content_type: content_type.try_clone()?,
            bytes: front_of(alloc, bytes)?,
        })),
        Content::Row { .. } => Ok(None),
    }
}

/// An addition of such a content.
fn shorten_addition(
    alloc: Global,
    request: &Request,
    package: Uuid,
    identity: Uuid,
    content: &Content,
) -> Result<Option<Request>, OutOfMemory> {
    let Some(content) = shorten_content(alloc, content)? else {
        return Ok(None);
    };
    Ok(Some(Request {
        id: request.id,
        at: request.at.try_clone()?,
        command: Command::Add {
            package,
            identity,
            content,
        },
    }))
}

/// A request that is refused as this one is, whose content is too long, and that is shorter; none of others.
fn shorten(alloc: Global, request: &Request) -> Result<Option<Request>, OutOfMemory> {
    match &request.command {
        Command::Add {
            package,
            identity,
            content,
        } => shorten_addition(alloc, request, *package, *identity, content),
        _ => Ok(None),
    }
}

/// A request as JSON. Of a content that is longer than a desk takes, and so than one may be, as much is told as is
/// too long.
///
/// # Errors
///
/// Want of memory.
pub(crate) fn row_text(alloc: Global, request: &Request) -> Result<String, OutOfMemory> {
    let text = request_text(alloc, request)?;
    if text.len() as u64 <= MOST_SENT {
        return Ok(text);
    }
    match shorten(alloc, request)? {
        Some(short) => Ok(request_text(alloc, &short)?),
        None => Ok(text),
    }
}
