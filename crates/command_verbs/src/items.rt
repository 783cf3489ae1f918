//! Words for items: a whole identity, or its first digits; and how two items are joined.
ghost use Rattle.std.specs.Prelude.{◌≡◌, ◌∷◌, [], IfSome, IfNone, MatchResult, Ok, Err, filter};
ghost use Rattle.command_verbs.specs.Items.{has_identity, mapping_of, of_items, the_item, tie};

use crate::names::{NameFault, has_beginning};
use sheet_types::command::{Mapping, Relation};
use sheet_types::receipt::MovedKind;
use uuid::Uuid;

/// What is listed of an item: the package that holds it, its identity and its kind.
#[derive(Clone, Copy, PartialEq, Eq)]
pub struct ItemEntry {
    pub holder: Uuid,
    pub identity: Uuid,
    pub kind: MovedKind,
}

/// The first item that a word may name, and those listed behind it.
fn next_item<'e>(word: &str, entries: &'e [ItemEntry]) -> Option<(ItemEntry, &'e [ItemEntry])>
    ensures some { IfSome result (λ it. filter (has_identity word.now) entries.now ≡ it.0
        ∷ filter (has_identity word.now) it.1.now) }
    ensures none { IfNone result (filter (has_identity word.now) entries.now ≡ []) }
{
    let [entry, rest @ ..] = entries else {
        return None;
    };
    if has_beginning(word, entry.identity) {
        return Some((*entry, rest));
    }
    next_item(word, rest)
}

/// The one item that a word may name.
fn only_item(word: &str, entries: &[ItemEntry]) -> Result<ItemEntry, NameFault>
    ensures { result ≡ of_items (filter (has_identity word.now) entries.now) }
{
    let Some((entry, rest)) = next_item(word, entries) else {
        return Err(NameFault::Unknown);
    };
    match next_item(word, rest) {
        Some((other, _)) => Err(NameFault::Two(entry.identity, other.identity)),
        None => Ok(entry),
    }
}

/// The item that a word names: its identity, or a beginning of it of at least four characters that no other has.
pub fn find_item(entries: &[ItemEntry], word: &str) -> Result<ItemEntry, NameFault>
    ensures { result ≡ the_item entries.now word.now }
{
    if word.len() < 4 {
        return Err(NameFault::Short);
    }
    only_item(word, entries)
}

/// The mapping that has these kinds at its base and at its other end.
fn mapping_of(base: MovedKind, other: MovedKind) -> Option<Mapping>
    ensures { result ≡ mapping_of base other }
{
    match (base, other) {
        (MovedKind::TileItem, MovedKind::MediaItem) => Some(Mapping::TilesMedia),
        (MovedKind::RowItem, MovedKind::MediaItem) => Some(Mapping::RowsMedia),
        (MovedKind::RowItem, MovedKind::TileItem) => Some(Mapping::RowsTiles),
        _ => None,
    }
}

/// The relation of two items, whichever of them is named first: the kinds tell the mapping and its base.
pub fn tie(first: &ItemEntry, second: &ItemEntry) -> Option<Relation>
    ensures { result ≡ tie first.now second.now }
{
    match mapping_of(first.kind, second.kind) {
        Some(mapping) => Some(Relation::new(mapping, first.identity, second.identity)),
        None => match mapping_of(second.kind, first.kind) {
            Some(mapping) => Some(Relation::new(mapping, second.identity, first.identity)),
            None => None,
        },
    }
}
