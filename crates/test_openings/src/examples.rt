// A split and a merge as data, with what is due: by hand, the replies by samples/reference.py.
use package_tables::fault::Fault;
use sheet_types::command::{Command, Mapping, Mode, Request};
use sheet_types::frame::Rect;
use std::alloc::Global;
use test_values::{Asks, Step, archive, question, text};
use uuid::Uuid;

/// How many requests come before the one that stops; the reply that it is due; and how all stands
/// before it and after it: each package with its last receipt and what it holds, and the numbers of
/// the receipts of all requests.
#[derive(Clone, Copy)]
pub struct Example {
    pub before: u8,
    pub reply: &'static str,
    pub stood: &'static str,
    pub stands: &'static str,
}

/// A tile, a medium, and a link of the two: all of it is lent.
pub const SPLIT: Example = Example {
    before: 3,
    reply: "{\"at\":\"2024-05-01T09:00:00.000Z\",\"bytes\":3,\
\"from\":\"a0000000-0000-4000-8000-000000000000\",\"items\":3,\
\"line\":\"split a0000000-0000-4000-8000-000000000000 b0000000-0000-4000-8000-000000000000 \
strict 2 0 0 0 0\",\"links\":1,\"media\":1,\
\"request\":\"90000000-0000-4000-8000-000000000004\",\"rows\":0,\"seq\":4,\"tiles\":1,\
\"to\":\"b0000000-0000-4000-8000-000000000000\"}",
    stood: "a0000000-0000-4000-8000-000000000000 3:1;2;tile-medium 1 2;
1;2;3;0;",
    stands: "a0000000-0000-4000-8000-000000000000 4:
b0000000-0000-4000-8000-000000000000 4:1;2;tile-medium 1 2;
1;2;3;4;",
};

/// And comes home.
pub const MERGE: Example = Example {
    before: 4,
    reply: "{\"at\":\"2024-05-01T09:00:00.000Z\",\"bytes\":3,\
\"from\":\"b0000000-0000-4000-8000-000000000000\",\"items\":3,\
\"line\":\"merge b0000000-0000-4000-8000-000000000000 a0000000-0000-4000-8000-000000000000 4\",\
\"links\":1,\"media\":1,\"request\":\"90000000-0000-4000-8000-000000000005\",\
\"rows\":0,\"seq\":5,\"tiles\":1,\"to\":\"a0000000-0000-4000-8000-000000000000\"}",
    stood: "a0000000-0000-4000-8000-000000000000 4:
b0000000-0000-4000-8000-000000000000 4:1;2;tile-medium 1 2;
1;2;3;4;0;",
    stands: "a0000000-0000-4000-8000-000000000000 5:1;2;tile-medium 1 2;
1;2;3;4;5;",
};

// A moment after that of the first three.
const LATER: &str = "2024-05-01T09:00:00.000Z";

// The north-western tile of zoom 2.
const CORNER: Rect = Rect {
    zoom: 2,
    column: 0,
    last_column: 0,
    row: 0,
    last_row: 0,
};

// The borrower.
fn loan() -> Uuid {
    Uuid::from_u128(0xb0000000_0000_4000_8000_000000000000)
}

fn later(alloc: Global, number: u8, command: Command) -> Result<Request, Fault> {
    Ok(Request {
        id: question(number),
        at: text(alloc, LATER)?,
        command,
    })
}

fn split(alloc: Global) -> Result<Request, Fault> {
    later(
        alloc,
        4,
        Command::Split {
            package: archive(),
            child: loan(),
            mode: Mode::Strict,
            rect: CORNER,
        },
    )
}

fn merge(alloc: Global) -> Result<Request, Fault> {
    later(
        alloc,
        5,
        Command::Merge {
            child: loan(),
            into: archive(),
            ticket: 4,
        },
    )
}

/// The request of this number, from 1 to 5.
pub fn request(alloc: Global, number: u8) -> Result<Request, Fault> {
    match number {
        1 => Step::now(1, Asks::Tile(1, [2, 0, 0])).request(alloc),
        2 => Step::now(2, Asks::Medium(2)).request(alloc),
        3 => Step::now(3, Asks::Link(Mapping::TilesMedia, 1, 2)).request(alloc),
        4 => split(alloc),
        _ => merge(alloc),
    }
}
