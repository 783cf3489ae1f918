//! What came of a command, in plain words.
ghost use Rattle.std.specs.Prelude.{◌≡◌, IfOk, string_bytes};
ghost use Rattle.command_replies.specs.Receipts.{area_text, counts_text, deed_text, reply_text, said, said_of_two};
ghost use Rattle.command_replies.specs.Receipts.{things_text};

use sheet_types::command::Command;
use sheet_types::frame::Rect;
use sheet_types::receipt::Receipt;
use std::alloc::{AllocError, Global};
use uuid::Uuid;

/// A word and the UUID that it is said of, as a line.
fn word_line(alloc: Global, word: &str, id: Uuid) -> Result<String, AllocError>
    ensures { IfOk result (λ line. string_bytes line ≡ said word.now id) }
{
    format!(in alloc; "{word} {id}\n")
}

/// The same of two.
fn said_of_two(alloc: Global, word: &str, one: Uuid, other: Uuid) -> Result<String, AllocError>
    ensures { IfOk result (λ line. string_bytes line ≡ said_of_two word.now one other) }
{
    format!(in alloc; "{word} {one} {other}\n")
}

/// A rectangle: its zoom, the first and the last of its columns, and of its rows.
fn area_text(alloc: Global, rect: &Rect) -> Result<String, AllocError>
    ensures { IfOk result (λ text. string_bytes text ≡ area_text rect.now) }
{
    let Rect {
        zoom,
        column,
        last_column,
        row,
        last_row,
    } = *rect;
    format!(in alloc; "{zoom}/{column}-{last_column}/{row}-{last_row}")
}

/// What a command made or moved.
fn deed_text(alloc: Global, command: &Command) -> Result<String, AllocError>
    ensures { IfOk result (λ text. string_bytes text ≡ deed_text command.now) }
{
    match command {
        Command::Add { identity, .. } => word_line(alloc, "added", *identity),
        Command::Delete { identity, .. } => word_line(alloc, "deleted", *identity),
        Command::Link { base, other, .. } => said_of_two(alloc, "joined", *base, *other),
        Command::Unlink { base, other, .. } => said_of_two(alloc, "parted", *base, *other),
        Command::Split { child, rect, .. } => {
            let loan = word_line(alloc, "loan", *child)?;
            let area = area_text(alloc, rect)?;
            format!(in alloc; "{loan}sheets {area}\n")
        }
        Command::Merge { child, into, .. } => said_of_two(alloc, "home", *child, *into),
    }
}

/// The items and links that moved by a receipt.
fn things_text(alloc: Global, receipt: &Receipt) -> Result<String, AllocError>
    ensures { IfOk result (λ text. string_bytes text ≡ things_text receipt.now) }
{
    let tiles = receipt.tiles;
    let media = receipt.media;
    let rows = receipt.rows;
    let links = receipt.links;
    format!(in alloc; "{tiles} tiles, {media} media, {rows} rows, {links} links")
}

/// The number of a receipt, and how much moved by it.
fn counts_text(alloc: Global, receipt: &Receipt) -> Result<String, AllocError>
    ensures { IfOk result (λ text. string_bytes text ≡ counts_text receipt.now) }
{
    let number = receipt.seq;
    let things = things_text(alloc, receipt)?;
    let bytes = receipt.bytes;
    format!(in alloc; "receipt {number}: {things}, {bytes} bytes")
}

/// What came of a command that got this receipt, but for the end of the last line.
pub fn reply_text(alloc: Global, command: &Command, receipt: &Receipt) -> Result<String, AllocError>
    ensures { IfOk result (λ text. string_bytes text ≡ reply_text command.now receipt.now) }
{
    let deed = deed_text(alloc, command)?;
    let counts = counts_text(alloc, receipt)?;
    format!(in alloc; "{deed}{counts}")
}
