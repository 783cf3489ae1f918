//! Free keys and renumberings of a few keys.

use crate::steps::{Of, Table, Told, wrong_of};
use renumbering::free::free_keys;
use renumbering::renumber::Renumber;
use sheet_types::error::OutOfMemory;
use std::alloc::Global;

fn tell_free(alloc: Global, used: &[i64], count: usize, told: &mut Told) {
    match free_keys(alloc, used, count) {
        Ok(keys) => told.numbers(keys.as_slice()),
        Err(why) => told.word(why.name()),
    }
}

// The keys of tiles and of media that a link of the tile 9 and the medium 1 then has. Each end goes by its own kind.
fn tell_carried(tiles: &Renumber, media: &Renumber, told: &mut Told) {
    if tiles.holds(3) || !tiles.holds(9) || !media.holds(1) {
        return told.word("-");
    }
    let (tile, medium) = tiles.carry(media, 9, 1);
    told.numbers(&[tile, medium]);
}

fn tell_renumbered(alloc: Global, told: &mut Told) -> Result<(), OutOfMemory> {
    let tiles = Renumber::make(alloc, &[7, 1, 7, 9], &[1, 3]);
    let media = Renumber::make(alloc, &[9, 1], &[]);
    match (tiles, media) {
        (Ok(tiles), Ok(media)) => {
            tell_carried(&tiles, &media, told);
            Ok(())
        }
        _ => Err(OutOfMemory),
    }
}

/// So many free keys beside those that are used, or a link whose ends got new keys.
pub(crate) fn keys_of(alloc: Global, question: &str, told: &mut Told) -> Result<(), OutOfMemory> {
    match question {
        "3 beside 2 1 4 2 1000001 -3 0" => {
            tell_free(alloc, &[2, 1, 4, 2, 1_000_001, -3, 0], 3, told);
        }
        "0 beside 1 2 3" => tell_free(alloc, &[1, 2, 3], 0, told),
        "1000000 beside 5" => tell_free(alloc, &[5], 1_000_000, told),
        "link" => tell_renumbered(alloc, told)?,
        question => told.unread(question),
    }
    Ok(())
}

const KEYS: Table = Table(
    4,
    "# those that are used are passed over
3 beside 2 1 4 2 1000001 -3 0 => [3;5;6;]
0 beside 1 2 3 => []
1000000 beside 5 => [TooMany]
link => [5;1;]
",
);

#[test]
fn free_keys_and_renumberings(rt: HostRuntime) {
    assert_eq!(rt; wrong_of(rt.alloc(), Of::Keys, KEYS).wrong(), "");
}
