//! Requests to a world with loans, in a few words each, and a chain of loans. A package goes by the
//! first digit of its UUID, whose other digits are those of the archive.

use package_tables::fault::Fault;
use sheet_types::command::{Command, Mapping, Mode, Request};
use sheet_types::frame::Rect;
use std::alloc::Global;
use test_values::{Asks, BEGUN, Step, text};
use uuid::Uuid;

/// The archive.
pub const A: u8 = 0xa;
/// Packages that may be lent.
pub const B: u8 = 0xb;

pub const C: u8 = 0xc;

pub const D: u8 = 0xd;

pub const E: u8 = 0xe;

/// The UUID of a package by its first digit.
pub fn package(digit: u8) -> Uuid {
    let first = u128::from(digit & 15) << 124;
    Uuid::from_u128(first | 0x00000000_0000_4000_8000_000000000000)
}

/// The UUID of a request by its number.
pub fn asked(number: u32) -> Uuid {
    Uuid::from_u128(0x90000000_0000_4000_8000_000000000000 | u128::from(number))
}

/// The north-western quarter of the frame of the tests, one tile of zoom 1.
pub const QUARTER: [i64; 5] = [1, 0, 0, 0, 0];

/// A rectangle by its zoom, its columns and its rows.
pub fn rect(ends: [i64; 5]) -> Rect {
    Rect {
        zoom: ends[0],
        column: ends[1],
        last_column: ends[2],
        row: ends[3],
        last_row: ends[4],
    }
}

/// What a request asks for.
#[derive(Clone, Copy)]
pub enum Wish {
    /// What `Asks` asks of the archive, of this package.
    Of(u8, Asks),
    /// A split: the package, its child, and the rectangle as `rect` has it.
    Split(u8, u8, Mode, [i64; 5]),
    /// A merge: the child, the package into which it goes, and the ticket.
    Merge(u8, u8, i64),
}

// The same command, of another package.
fn moved_to(command: Command, package: Uuid) -> Command {
    match command {
        Command::Add {
            identity,
            content,
            ..
        } => Command::Add {
            package,
            identity,
            content,
        },
        Command::Delete { identity, .. } => Command::Delete { package, identity },
        Command::Link {
            mapping,
            base,
            other,
            ..
        } => Command::Link {
            package,
            mapping,
            base,
            other,
        },
        Command::Unlink {
            mapping,
            base,
            other,
            ..
        } => Command::Unlink {
            package,
            mapping,
            base,
            other,
        },
        other => other,
    }
}

fn command(alloc: Global, wish: Wish) -> Result<Command, Fault> {
    match wish {
        Wish::Of(of, asks) => {
            let Request { command, .. } = Step::now(0, asks).request(alloc)?;
            Ok(moved_to(command, package(of)))
        }
        Wish::Split(from, child, mode, ends) => Ok(Command::Split {
            package: package(from),
            child: package(child),
            mode,
            rect: rect(ends),
        }),
        Wish::Merge(child, into, ticket) => Ok(Command::Merge {
            child: package(child),
            into: package(into),
            ticket,
        }),
    }
}

/// A request by its number and its moment.
#[derive(Clone, Copy)]
pub struct LoanStep {
    /// The number of its identity.
    pub number: u32,
    /// When it comes.
    pub at: &'static str,
    /// What it asks for.
    pub wish: Wish,
}

impl LoanStep {
    /// A request at the moment at which the archive was made.
    pub fn now(number: u32, wish: Wish) -> LoanStep {
        LoanStep {
            number,
            at: BEGUN,
            wish,
        }
    }

    /// The request itself.
    pub fn request(&self, alloc: Global) -> Result<Request, Fault> {
        Ok(Request {
            id: asked(self.number),
            at: text(alloc, self.at)?,
            command: command(alloc, self.wish)?,
        })
    }
}

/// The north-western tile of zoom 2, in which the chain of loans lies.
pub const CORNER: [i64; 5] = [2, 0, 0, 0, 0];

/// The requests 1 to 8 that make a chain of loans: into the archive come the tile 1 in the corner,
/// the medium 2, a link of the two, and the tile 3 elsewhere; then the archive lends the corner to
/// B, B to C, C to D, and D to E. The number of each receipt is that of its request.
pub fn chain() -> [LoanStep; 8] {
    [
        LoanStep::now(1, Wish::Of(A, Asks::Tile(1, [2, 0, 0]))),
        LoanStep::now(2, Wish::Of(A, Asks::Medium(2))),
        LoanStep::now(3, Wish::Of(A, Asks::Link(Mapping::TilesMedia, 1, 2))),
        LoanStep::now(4, Wish::Of(A, Asks::Tile(3, [2, 3, 3]))),
        LoanStep::now(5, Wish::Split(A, B, Mode::Strict, CORNER)),
        LoanStep::now(6, Wish::Split(B, C, Mode::Strict, CORNER)),
        LoanStep::now(7, Wish::Split(C, D, Mode::Strict, CORNER)),
        LoanStep::now(8, Wish::Split(D, E, Mode::Strict, CORNER)),
    ]
}
