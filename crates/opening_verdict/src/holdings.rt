//! How much a package holds.
ghost use Rattle.std.specs.Prelude.{◌≡◌, ◌<◌, ◌^◌, sum_by};
ghost use Rattle.std.specs.Option.{SomeIff};
ghost use Rattle.sheet_types.specs.Answers.{sums_held};
ghost use Rattle.sheet_types.specs.Step.{count_of};
ghost use Rattle.sheet_types.specs.World.{Package};
ghost use Rattle.sheet_balance.specs.Sights.{IsSightOf};

use sheet_balance::sights::Sight;
use sheet_types::receipt::{Moved, MovedKind, Sums};

/// How much a package holds that is seen so: its tiles, media, attributes rows and links, and the
/// bytes of its items. None where the bytes would have more than 64 bits.
pub fn sums_of(sight: &Sight) -> Option<Sums>
    ensures { (p : Package) → IsSightOf sight.now p → SomeIff result ((sums_held p).bytes < 2 ^ 64) (sums_held p) }
{
    let items = sight.items.as_slice();
    Some(Sums {
        tiles: count_of(items, MovedKind::TileItem),
        media: count_of(items, MovedKind::MediaItem),
        rows: count_of(items, MovedKind::RowItem),
        links: sight.links.as_slice().len() as u64,
        bytes: bytes_of(items)?,
    })
}

// How many are of this kind.
fn count_of(things: &[Moved], kind: MovedKind) -> u64
    ensures { result ≡ count_of kind things.now }
{
    things
        .iter()
        .filter(|moved| kind.number() == moved.kind.number())
        .count() as u64
}

// The bytes of all; none where they would have more than 64 bits.
fn bytes_of(things: &[Moved]) -> Option<u64>
    ensures { SomeIff result (sum_by (λ m. m.size) things.now < 2 ^ 64) (sum_by (λ m. m.size) things.now) }
{
    let mut bytes: u64 = 0;
    for moved in things {
        bytes = bytes.checked_add(moved.size)?;
    }
    Some(bytes)
}
