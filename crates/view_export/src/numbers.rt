//! The numbers of items in an export.
ghost use Rattle.std.specs.Prelude.{◌≡◌, ◌<◌, ◌-◌, ◌^◌, ℕ, List, Some, IfOk, OnOk};
ghost use Rattle.std.specs.Prelude.{if◌then◌else◌, bytes_eq, unwrap_or};
ghost use Rattle.sheet_types.specs.declared.command.Item.{Item as ModelItem};
ghost use Rattle.view_export.specs.Numbers.{AreNumbersOf, count_of, counted, no_counts, noted_in, number_of};

use sheet_types::command::{Content, Item};
use sheet_types::error::OutOfMemory;
use std::alloc::{AllocError, Global};
use std::collections::BTreeMap;
use uuid::Uuid;

/// How many items of each kind came so far.
#[derive(Clone, Copy, PartialEq, Eq)]
pub struct Counts {
    /// The tiles.
    pub tiles: u64,
    /// The media.
    pub media: u64,
    /// The attributes rows.
    pub rows: u64,
}

impl Counts {
    /// Of no items.
    pub fn none() -> Counts
        ensures { result ≡ no_counts }
    {
        Counts {
            tiles: 0,
            media: 0,
            rows: 0,
        }
    }

    /// With one more of the kind of this content.
    pub fn count_content(self, content: &Content) -> Counts
        requires { count_of self content.now < 2 ^ 64 - 1 }
        ensures { result ≡ counted self content.now }
    {
        match content {
            Content::Tile { .. } => Counts {
                tiles: self.tiles + 1,
                ..self
            },
            Content::Media { .. } => Counts {
                media: self.media + 1,
                ..self
            },
            Content::Row { .. } => Counts {
                rows: self.rows + 1,
                ..self
            },
        }
    }

    /// How many of the kind of this content: after it was counted, its number.
    pub fn of_kind(self, content: &Content) -> u64
        ensures { result ≡ count_of self content.now }
    {
        match content {
            Content::Tile { .. } => self.tiles,
            Content::Media { .. } => self.media,
            Content::Row { .. } => self.rows,
        }
    }
}

/// Notes the number of an item, unless its identity has one.
fn note(numbers: &mut BTreeMap<Uuid, u64>, identity: Uuid, number: u64) -> Result<(), AllocError>
    ensures { OnOk result ((p : List ℕ) → noted_in numbers.new p ≡
        (if bytes_eq identity p then Some (unwrap_or (noted_in numbers.old p) number) else noted_in numbers.old p)) }
{
    let first = numbers.get(&identity).copied().unwrap_or(number);
    numbers.insert(identity, first)?;
    Ok(())
}

fn note_all(alloc: Global, items: &[Item]) -> Result<BTreeMap<Uuid, u64>, AllocError>
    ensures { IfOk result (λ numbers. AreNumbersOf numbers items.now) }
{
    let mut numbers = BTreeMap::new(alloc);
    let mut counts = Counts::none();
    for item in items {
        counts = counts.count_content(&item.content);
        note(&mut numbers, item.identity, counts.of_kind(&item.content))?;
    }
    Ok(numbers)
}

/// The number of each item under its identity: 1, 2, 3 and so on within its kind, in the order of the list.
///
/// # Errors
///
/// Want of memory.
pub fn numbers_of(alloc: Global, items: &[Item]) -> Result<BTreeMap<Uuid, u64>, OutOfMemory>
    ensures { IfOk result (λ numbers. AreNumbersOf numbers items.now) }
{
    Ok(note_all(alloc, items)?)
}

/// The number that is noted under an identity, 0 where there is none.
pub fn number_of(numbers: &BTreeMap<Uuid, u64>, identity: Uuid) -> u64
    ensures { (items : List ModelItem) → AreNumbersOf numbers.now items → result ≡ number_of items identity }
{
    numbers.get(&identity).copied().unwrap_or(0)
}
