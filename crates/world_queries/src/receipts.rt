//! The receipt of a command that is accepted, made before anything is written.
ghost use Rattle.std.specs.Prelude.{◌≡◌, [], ◌∷◌, IfOk, string_bytes};
ghost use Rattle.sheet_types.specs.Step.{receipt_over, count_of, links_of};
ghost use Rattle.sheet_types.specs.Texts.{line};
ghost use Rattle.world_members.specs.Steps.{IsAddedBy};
ghost use Rattle.sheet_types.specs.declared.receipt.MovedKind.TheVariants.{TileItem, MediaItem, RowItem};

use sheet_types::collections::{MovedList, Text};
use sheet_types::command::{Command, Request};
use sheet_types::error::OutOfMemory;
use sheet_types::lines::{add_line, line};
use sheet_types::receipt::{Moved, MovedKind, Receipt, Sums};
use std::alloc::Global;

/// How much one moved thing is.
fn sums_of(thing: Moved) -> Sums
    ensures tiles { result.tiles ≡ count_of TileItem (thing ∷ []) }
    ensures media { result.media ≡ count_of MediaItem (thing ∷ []) }
    ensures rows { result.rows ≡ count_of RowItem (thing ∷ []) }
    ensures links { result.links ≡ links_of (thing ∷ []) }
    ensures bytes { result.bytes ≡ thing.size }
{
    let mut sums = Sums {
        tiles: 0,
        media: 0,
        rows: 0,
        links: 0,
        bytes: thing.size,
    };
    match thing.kind {
        MovedKind::TileItem => sums.tiles = 1,
        MovedKind::MediaItem => sums.media = 1,
        MovedKind::RowItem => sums.rows = 1,
        MovedKind::TilesMediaLink | MovedKind::RowsMediaLink | MovedKind::RowsTilesLink => {
            sums.links = 1;
        }
    }
    sums
}

/// The line of a command that moves this thing. An added content is counted and hashed in it already.
fn line_over(alloc: Global, command: &Command, thing: &Moved) -> Result<String, OutOfMemory>
    ensures { IfOk result (λ text. IsAddedBy command.now thing.now → string_bytes text ≡ line command.now) }
{
    match command {
        Command::Add { package, .. } => add_line(alloc, *package, thing),
        Command::Delete { .. }
        | Command::Link { .. }
        | Command::Unlink { .. }
        | Command::Split { .. }
        | Command::Merge { .. } => line(alloc, command),
    }
}

/// The receipt of this number for a request that moves one thing.
pub fn receipt_over(
    alloc: Global,
    seq: u64,
    request: &Request,
    thing: Moved,
) -> Result<Receipt, OutOfMemory>
    ensures number { IfOk result (λ receipt. receipt.seq ≡ seq) }
    ensures whole { IfOk result (λ receipt. IsAddedBy request.now.command thing
        → receipt ≡ receipt_over seq request.now (thing ∷ [])) }
{
    let sums = sums_of(thing);
    let things = Vec::from_slice(alloc, &[thing])?;
    Ok(Receipt {
        seq,
        request: request.id,
        at: request.at.try_clone()?,
        line: Text::from_string(line_over(alloc, &request.command, &thing)?),
        source: request.command.source(),
        target: request.command.target(),
        items: MovedList::from_vec(things),
        tiles: sums.tiles,
        media: sums.media,
        rows: sums.rows,
        links: sums.links,
        bytes: sums.bytes,
    })
}
