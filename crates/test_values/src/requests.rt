//! Requests to one archive, in a few words each.

use crate::contents::{medium_content, row_content, tile_content};
use crate::values::text;
use package_tables::fault::Fault;
use sheet_types::command::{Command, Content, Mapping, Request};
use sheet_types::receipt::Receipt;
use sheet_types::refusal::Refusal;
use std::alloc::Global;
use uuid::Uuid;

/// The moment at which an archive was made.
pub const BEGUN: &str = "2024-05-01T08:00:00.000Z";

/// The archive that is asked.
pub fn archive() -> Uuid {
    Uuid::from_u128(0xa0000000_0000_4000_8000_000000000000)
}

// No package of the world.
fn stranger() -> Uuid {
    Uuid::from_u128(0xb0000000_0000_4000_8000_000000000000)
}

/// The identity of an item by its number.
pub fn item(number: u8) -> Uuid {
    Uuid::from_u128(0x00000000_0000_4000_8000_000000000000 | u128::from(number))
}

/// The identity of a request by its number.
pub fn question(number: u8) -> Uuid {
    Uuid::from_u128(0x90000000_0000_4000_8000_000000000000 | u128::from(number))
}

/// What a request asks of the archive. A tile is written zoom, column, row; of a link the base stands first.
#[derive(Clone, Copy)]
pub enum Asks {
    /// The addition of a tile of one byte.
    Tile(u8, [i64; 3]),
    /// The addition of a tile without bytes.
    NoBytes(u8, [i64; 3]),
    /// The addition of a tile to a package that is not there.
    Elsewhere(u8, [i64; 3]),
    /// The addition of a row at a point.
    Row(u8, i64, i64),
    /// The addition of a medium.
    Medium(u8),
    /// The deletion of an item.
    Delete(u8),
    /// A link.
    Link(Mapping, u8, u8),
    /// The end of a link.
    Unlink(Mapping, u8, u8),
}

fn add(package: Uuid, number: u8, content: Content) -> Command {
    Command::Add {
        package,
        identity: item(number),
        content,
    }
}

fn command(alloc: Global, asks: Asks) -> Result<Command, Fault> {
    let package = archive();
    match asks {
        Asks::Tile(number, place) => Ok(add(package, number, tile_content(alloc, place, b"A")?)),
        Asks::NoBytes(number, place) => Ok(add(package, number, tile_content(alloc, place, b"")?)),
        Asks::Elsewhere(number, place) => Ok(add(
            stranger(),
            number,
            tile_content(alloc, place, b"A")?,
        )),
        Asks::Row(number, x, y) => Ok(add(package, number, row_content(alloc, [x, y], 7, "gate")?)),
        Asks::Medium(number) => Ok(add(
            package,
            number,
            medium_content(alloc, "image/jpeg", b"JP")?,
        )),
        Asks::Delete(number) => Ok(Command::Delete {
            package,
            identity: item(number),
        }),
        Asks::Link(mapping, base, other) => Ok(Command::Link {
            package,
            mapping,
            base: item(base),
            other: item(other),
        }),
        Asks::Unlink(mapping, base, other) => Ok(Command::Unlink {
            package,
            mapping,
            base: item(base),
            other: item(other),
        }),
    }
}

/// A request by its number and moment.
#[derive(Clone, Copy)]
pub struct Step {
    /// The number of its identity.
    pub number: u8,
    /// When it comes.
    pub at: &'static str,
    /// What it asks for.
    pub asks: Asks,
}

impl Step {
    /// A request at the moment at which the archive was made.
    pub fn now(number: u8, asks: Asks) -> Step {
        Step {
            number,
            at: BEGUN,
            asks,
        }
    }

    /// The request itself.
    pub fn request(&self, alloc: Global) -> Result<Request, Fault> {
        Ok(Request {
            id: question(self.number),
            at: text(alloc, self.at)?,
            command: command(alloc, self.asks)?,
        })
    }
}

/// The number of the receipt, or that of the reason, below zero.
pub fn told(reply: &Result<Receipt, Refusal>) -> i64 {
    match reply {
        Ok(receipt) => i64::try_from(receipt.seq).unwrap_or(i64::MAX),
        Err(why) => -i64::from(why.number()),
    }
}
