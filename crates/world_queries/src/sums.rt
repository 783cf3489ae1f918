//! What a package holds after a command, by what it held and what the receipt moved.
ghost use Rattle.std.specs.Prelude.{◌≡◌};
ghost use Rattle.std.specs.Option.{SomeIff};
ghost use Rattle.world_members.specs.Steps.{IsWithin, sums_moved, sums_more, sums_less, sums_after};
ghost use Rattle.world_queries.specs.Sums.{IsCounted, CanCount};

use sheet_types::command::Command;
use sheet_types::receipt::{Receipt, Sums};

/// How much a receipt moved.
pub fn sums_moved(receipt: &Receipt) -> Sums
    ensures { result ≡ sums_moved receipt.now }
{
    Sums {
        tiles: receipt.tiles,
        media: receipt.media,
        rows: receipt.rows,
        links: receipt.links,
        bytes: receipt.bytes,
    }
}

pub fn more(some: Sums, held: Sums) -> Option<Sums>
    ensures { SomeIff result (IsCounted (sums_more some held)) (sums_more some held) }
{
    Some(Sums {
        tiles: held.tiles.checked_add(some.tiles)?,
        media: held.media.checked_add(some.media)?,
        rows: held.rows.checked_add(some.rows)?,
        links: held.links.checked_add(some.links)?,
        bytes: held.bytes.checked_add(some.bytes)?,
    })
}

pub fn less(some: Sums, held: Sums) -> Option<Sums>
    ensures { SomeIff result (IsWithin some held) (sums_less some held) }
{
    Some(Sums {
        tiles: held.tiles.checked_sub(some.tiles)?,
        media: held.media.checked_sub(some.media)?,
        rows: held.rows.checked_sub(some.rows)?,
        links: held.links.checked_sub(some.links)?,
        bytes: held.bytes.checked_sub(some.bytes)?,
    })
}

/// What a package holds after a command that moved so much. There is no answer where a sum would
/// have more than 64 bits, or where what goes out was not there.
pub fn sums_after(command: &Command, some: Sums, held: Sums) -> Option<Sums>
    ensures { SomeIff result (CanCount command.now some held) (sums_after command.now some held) }
{
    match command {
        Command::Add { .. } | Command::Link { .. } => more(some, held),
        Command::Delete { .. } | Command::Unlink { .. } => less(some, held),
        Command::Split { .. } | Command::Merge { .. } => Some(held),
    }
}
