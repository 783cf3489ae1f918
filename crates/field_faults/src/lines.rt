//! The records of a file that a package cannot hold, a line each.
ghost use Rattle.std.specs.Prelude.{
  ◌≡◌,
  ◌&&◌,
  ◌||◌,
  ◌∷◌,
  ◌++◌,
  [],
  ℕ,
  ℤ,
  List,
  bytes_eq,
  flat_map,
  IfOk,
  IsTrue,
  not,
  string_bytes,
  true,
  Some,
};
ghost use Rattle.std.specs.List.{list_any};
ghost use Rattle.std.specs.Ordering.{nat_cmp};
ghost use Rattle.std.specs.Cmp.Lexicographic.{slice_cmp};
ghost use Rattle.std.specs.BTreeMap.{get};
ghost use Rattle.std.specs.BTreeSet.{contains};
ghost use Rattle.sheet_types.specs.Matrix.{first_row, is_good_frame};
ghost use Rattle.field_changes.specs.Keys.{sign};
ghost use Rattle.field_changes.specs.declared.held.HeldItem.{HeldItem as ModelHeld};
ghost use Rattle.sheet_types.specs.declared.command.Item.{Item as ModelItem};
ghost use Rattle.sheet_types.specs.Texts.{kind_word, kind_of};
ghost use Rattle.field_faults.specs.declared.reasons.Reason.TheVariants.{Renumbered, Taken, Twice};
ghost use Rattle.field_faults.specs.Lines.{
  bad_line,
  fault_lines,
  ids_of,
  has_other,
  is_good_at,
  is_other_at,
  is_renumbered,
  item_lines,
  line_for,
  place_key,
  reason_among,
  reason_in,
  record_line,
  was_exported,
  at_number,
  AreNumbered,
  HasPlaces,
  HasTiles,
  IsKnownIn,
};

use crate::reasons::{Reason, reason_of};
use field_changes::held::{BadRecord, Export, Held, HeldItem};
use sheet_types::command::{Content, Item};
use sheet_types::error::OutOfMemory;
use sheet_types::frame::Frame;
use sheet_types::receipt::MovedKind;
use std::alloc::Global;
use std::collections::{BTreeMap, BTreeSet};
use uuid::Uuid;

/// A package, as a file is judged by it.
#[derive(Clone, Copy)]
pub struct Judge<'a> {
    /// The frame of the register.
    pub frame: &'a Frame,
    /// What the package holds, by kind and identity.
    pub items: &'a [Item],
    /// Whether nothing is to be taken away.
    pub more: bool,
}

/// A place as a key.
fn place_key(zoom: i64, column: i64, row: i64) -> [u64; 6]
    ensures { result ≡ place_key zoom column row }
{
    [
        sign(zoom),
        zoom.unsigned_abs(),
        sign(column),
        column.unsigned_abs(),
        sign(row),
        row.unsigned_abs(),
    ]
}

/// Whether a number is below 0.
fn sign(number: i64) -> u64
    ensures { result ≡ sign number }
{
    if number < 0 { 1 } else { 0 }
}

/// Notes a key, where what has it fits.
fn note_key(places: &mut BTreeSet<[u64; 6]>, key: [u64; 6], fits: bool) -> Result<(), OutOfMemory>
    ensures { IfOk result (λ _. (q : List ℕ) → contains (slice_cmp nat_cmp) places.new q
        ≡ (contains (slice_cmp nat_cmp) places.old q || (bytes_eq key q && fits))) }
{
    if !fits {
        return Ok(());
    }
    places.insert(key)?;
    Ok(())
}

/// Notes the place of an item, where it is a tile that could be held.
fn note_place(
    places: &mut BTreeSet<[u64; 6]>,
    frame: &Frame,
    item: &HeldItem<'_>,
) -> Result<(), OutOfMemory>
    requires { IsTrue (is_good_frame frame.now) }
    ensures { IfOk result (λ _. (zoom column row : ℤ)
        → contains (slice_cmp nat_cmp) places.new (place_key zoom column row)
        ≡ (contains (slice_cmp nat_cmp) places.old (place_key zoom column row)
        || is_good_at frame.now zoom column row item.now)) }
{
    let content = item.content.get();
    match content {
        Content::Tile {
            zoom,
            column,
            row,
            ..
        } => {
            let fits = reason_of(frame, content).is_none();
            note_key(places, place_key(*zoom, *column, *row), fits)?;
            Ok(())
        }
        Content::Media { .. } => Ok(()),
        Content::Row { .. } => Ok(()),
    }
}

/// What is known of the tiles at a place: the bytes of one, and whether another has others.
#[derive(Clone, Copy)]
pub(crate) struct Lying<'a> {
    pub(crate) bytes: &'a [u8],
    pub(crate) differ: bool,
}

/// The same with one tile more.
#[tactic(auto, using(crate::proofs::Places::known_more))]
fn lying_with<'a>(known: Option<Lying<'a>>, bytes: &'a [u8]) -> Lying<'a>
    ensures { (mine : List ℕ) → has_other (Some result) mine
        ≡ (has_other known.entry mine || not (bytes_eq bytes.now mine)) }
{
    match known {
        Some(lying) => Lying {
            bytes: lying.bytes,
            differ: lying.differ | (lying.bytes != bytes),
        },
        None => Lying {
            bytes,
            differ: false,
        },
    }
}

/// Notes an item of the package at its place, where it is a tile.
fn note_tile<'a>(
    tiles: &mut BTreeMap<[u64; 6], Lying<'a>>,
    item: &'a Item,
) -> Result<(), OutOfMemory>
    ensures { IfOk result (λ _. (zoom column row : ℤ) (mine : List ℕ)
        → has_other (get (slice_cmp nat_cmp) tiles.new (place_key zoom column row)) mine
        ≡ (has_other (get (slice_cmp nat_cmp) tiles.old (place_key zoom column row)) mine
        || is_other_at zoom column row mine item.now)) }
{
    match &item.content {
        Content::Tile {
            zoom,
            column,
            row,
            bytes,
        } => {
            let key = place_key(*zoom, *column, *row);
            let lying = lying_with(tiles.get(&key).copied(), bytes.as_slice());
            tiles.insert(key, lying)?;
            Ok(())
        }
        Content::Media { .. } => Ok(()),
        Content::Row { .. } => Ok(()),
    }
}

/// The tiles of a package by their places.
fn tiles_in<'a>(
    alloc: Global,
    items: &'a [Item],
) -> Result<BTreeMap<[u64; 6], Lying<'a>>, OutOfMemory>
    ensures { IfOk result (HasTiles items.now) }
{
    let mut tiles = BTreeMap::new(alloc);
    for item in items {
        note_tile(&mut tiles, item)?;
    }
    Ok(tiles)
}

/// The same, where nothing is to be taken away; else none are asked for.
fn tiles_for<'a>(
    alloc: Global,
    judge: &Judge<'a>,
) -> Result<BTreeMap<[u64; 6], Lying<'a>>, OutOfMemory>
    ensures { IfOk result (λ tiles. judge.now.more ≡ true → HasTiles judge.now.items.now tiles) }
{
    if judge.more {
        tiles_in(alloc, judge.items)
    } else {
        Ok(BTreeMap::new(alloc))
    }
}

/// Whether another tile lies at a place, of what is known there.
fn has_other(known: &Option<Lying<'_>>, bytes: &[u8]) -> bool
    ensures { result ≡ has_other known.now bytes.now }
{
    match known {
        Some(lying) => lying.differ | (lying.bytes != bytes),
        None => false,
    }
}

/// Whether another tile of the package lies at a place, where nothing is to be taken away.
fn is_taken_with(
    more: bool,
    tiles: &BTreeMap<[u64; 6], Lying<'_>>,
    place: (i64, i64, i64),
    bytes: &[u8],
) -> bool
    ensures { (items : List ModelItem) → (more ≡ true → HasTiles items tiles.now)
        → result ≡ (more && list_any (is_other_at place.0 place.1 place.2 bytes.now) items) }
{
    if !more {
        return false;
    }
    let known = tiles.get(&place_key(place.0, place.1, place.2)).copied();
    has_other(&known, bytes)
}

/// The first reason of a tile.
fn tile_reason(twice: bool, taken: bool) -> Option<Reason>
    ensures { result ≡ first_row ((twice, Twice) ∷ (taken, Taken) ∷ []) }
{
    if twice {
        Some(Reason::Twice)
    } else if taken {
        Some(Reason::Taken)
    } else {
        None
    }
}

/// The reason of a medium or a row.
fn number_reason(renumbered: bool) -> Option<Reason>
    ensures { result ≡ first_row ((renumbered, Renumbered) ∷ []) }
{
    if renumbered {
        Some(Reason::Renumbered)
    } else {
        None
    }
}

/// The identities of the items of a kind, in the order in which an export numbers them.
fn ids_of(alloc: Global, kind: MovedKind, items: &[Item]) -> Result<Vec<Uuid>, OutOfMemory>
    ensures { IfOk result (λ ids. ids.items ≡ ids_of kind items.now) }
{
    Ok(
        items
            .iter()
            .filter(|item| kind.number() == item.content.kind().number())
            .map(|item| item.identity)
            .collect(alloc)?,
    )
}

/// All identities of some items.
fn known_of(alloc: Global, items: &[Item]) -> Result<BTreeSet<Uuid>, OutOfMemory>
    ensures { IfOk result (IsKnownIn items.now) }
{
    let mut known = BTreeSet::new(alloc);
    for item in items {
        known.insert(item.identity)?;
    }
    Ok(known)
}

/// The identities of media and rows, in the order in which an export numbers them, all that are
/// known, and tiles by their places.
#[derive(Drop)]
struct Numbered<'a> {
    media: Vec<Uuid>,
    rows: Vec<Uuid>,
    known: BTreeSet<Uuid>,
    tiles: BTreeMap<[u64; 6], Lying<'a>>,
}

/// The same of what a package holds.
fn numbers_of<'a>(alloc: Global, judge: &Judge<'a>) -> Result<Numbered<'a>, OutOfMemory>
    ensures { IfOk result (AreNumbered judge.now.items.now judge.now.more) }
{
    let media = ids_of(alloc, MovedKind::MediaItem, judge.items)?;
    let rows = ids_of(alloc, MovedKind::RowItem, judge.items)?;
    let known = known_of(alloc, judge.items)?;
    let tiles = tiles_for(alloc, judge)?;
    Ok(Numbered {
        media,
        rows,
        known,
        tiles,
    })
}

/// The identity at a number, counted from 1.
fn at_number(ids: &[Uuid], number: i64) -> Option<Uuid>
    ensures { result ≡ at_number ids.now number }
{
    if number < 1 {
        return None;
    }
    ids.get(number.unsigned_abs() as usize - 1).copied()
}

/// Whether an item names one of the package, and stands under the number of another.
fn is_renumbered(ids: &[Uuid], known: &BTreeSet<Uuid>, item: &HeldItem<'_>) -> bool
    ensures { (items : List ModelItem) → ids.now ≡ ids_of (kind_of item.now.content) items
        → IsKnownIn items known.now
        → result ≡ is_renumbered items item.now }
{
    let Some(id) = item.identity else {
        return false;
    };
    let Some(other) = at_number(ids, item.number) else {
        return false;
    };
    if other == id {
        return false;
    }
    known.contains(&id)
}

/// The same of an item of an export.
fn is_renumbered_in(
    exported: bool,
    ids: &[Uuid],
    known: &BTreeSet<Uuid>,
    item: &HeldItem<'_>,
) -> bool
    ensures { (items : List ModelItem) → ids.now ≡ ids_of (kind_of item.now.content) items
        → IsKnownIn items known.now
        → result ≡ (exported && is_renumbered items item.now) }
{
    exported && is_renumbered(ids, known, item)
}

/// The first reason beside those that lie in the item alone.
fn reason_among(
    judge: &Judge<'_>,
    numbered: &Numbered<'_>,
    exported: bool,
    places: &BTreeSet<[u64; 6]>,
    item: &HeldItem<'_>,
) -> Option<Reason>
    requires { AreNumbered judge.now.items.now judge.now.more numbered.now }
    ensures { (before : List ModelHeld) → HasPlaces judge.now.frame.now before places.now
        → result ≡ reason_among judge.now.frame.now judge.now.items.now judge.now.more exported
        before item.now item.now.content }
{
    match item.content.get() {
        Content::Tile {
            zoom,
            column,
            row,
            bytes,
        } => {
            let twice = places.contains(&place_key(*zoom, *column, *row));
            let place = (*zoom, *column, *row);
            let taken = is_taken_with(judge.more, &numbered.tiles, place, bytes.as_slice());
            tile_reason(twice, taken)
        }
        Content::Media { .. } => {
            let ids = numbered.media.as_slice();
            number_reason(is_renumbered_in(exported, ids, &numbered.known, item))
        }
        Content::Row { .. } => {
            let ids = numbered.rows.as_slice();
            number_reason(is_renumbered_in(exported, ids, &numbered.known, item))
        }
    }
}

/// The first reason for which a package cannot hold an item, if there is one.
fn reason_in(
    judge: &Judge<'_>,
    numbered: &Numbered<'_>,
    exported: bool,
    places: &BTreeSet<[u64; 6]>,
    item: &HeldItem<'_>,
) -> Option<Reason>
    requires good { IsTrue (is_good_frame judge.now.frame.now) }
    requires numbers { AreNumbered judge.now.items.now judge.now.more numbered.now }
    ensures { (before : List ModelHeld) → HasPlaces judge.now.frame.now before places.now
        → result ≡ reason_in judge.now.frame.now judge.now.items.now judge.now.more exported before item.now }
{
    match reason_of(judge.frame, item.content.get()) {
        Some(reason) => Some(reason),
        None => reason_among(judge, numbered, exported, places, item),
    }
}

/// A kind, a number and a word, on a line.
fn record_line(alloc: Global, kind: &str, number: i64, word: &str) -> Result<String, OutOfMemory>
    ensures { IfOk result (λ line. string_bytes line ≡ record_line kind.now number word.now) }
{
    Ok(format!(in alloc; "{kind} {number} {word}\n")?)
}

/// The line of a record that could not be listed.
fn bad_line(alloc: Global, bad: &BadRecord) -> Result<String, OutOfMemory>
    ensures { IfOk result (λ line. string_bytes line ≡ bad_line bad.now) }
{
    let number = bad.number.unwrap_or(0);
    match bad.text.as_str().split_once(' ') {
        Some((kind, word)) => record_line(alloc, kind, number, word),
        None => record_line(alloc, bad.text.as_str(), number, ""),
    }
}

/// The line of an item, if it has one.
fn line_for(
    alloc: Global,
    item: &HeldItem<'_>,
    reason: Option<Reason>,
) -> Result<String, OutOfMemory>
    ensures { IfOk result (λ line. string_bytes line ≡ line_for item.now reason) }
{
    let Some(reason) = reason else {
        return Ok(String::new(alloc));
    };
    let kind = format!(in alloc; "{}", item.content.kind())?;
    record_line(alloc, kind.as_str(), item.number, reason.word())
}

/// The lines of records that could not be listed.
fn bad_lines(alloc: Global, bad: &[BadRecord]) -> Result<String, OutOfMemory>
    ensures { IfOk result (λ text. string_bytes text ≡ flat_map bad_line bad.now) }
{
    let mut text = String::new(alloc);
    for record in bad {
        let line = bad_line(alloc, record)?;
        text.push_str(line.as_str())?;
    }
    Ok(text)
}

/// The lines of items, behind a text.
fn add_item_lines(
    alloc: Global,
    judge: &Judge<'_>,
    numbered: &Numbered<'_>,
    exported: bool,
    items: &[HeldItem<'_>],
    text: &mut String,
) -> Result<(), OutOfMemory>
    requires good { IsTrue (is_good_frame judge.now.frame.now) }
    requires numbers { AreNumbered judge.now.items.now judge.now.more numbered.now }
    ensures { IfOk result (λ _. string_bytes text.new ≡ string_bytes text.old
        ++ item_lines judge.now.frame.now judge.now.items.now judge.now.more exported [] items.now) }
{
    let mut places = BTreeSet::new(alloc);
    for item in items {
        let reason = reason_in(judge, numbered, exported, &places, item);
        note_place(&mut places, judge.frame, item)?;
        let line = line_for(alloc, item, reason)?;
        text.push_str(line.as_str())?;
    }
    Ok(())
}

/// Whether a file is the export of a package.
fn was_exported(export: &Option<Export>) -> bool
    ensures { result ≡ was_exported export.now }
{
    export.is_some()
}

/// A line for each record of a file that a package cannot hold: its kind, its number and a word.
/// First those that could not be listed, in their order, then the items of the file in theirs.
///
/// # Errors
///
/// Want of memory.
pub fn fault_lines(alloc: Global, judge: &Judge<'_>, held: &Held<'_>) -> Result<String, OutOfMemory>
    requires { IsTrue (is_good_frame judge.now.frame.now) }
    ensures { IfOk result (λ text. string_bytes text ≡ fault_lines judge.now.frame.now judge.now.items.now
        judge.now.more held.now) }
{
    let mut text = bad_lines(alloc, held.bad.as_slice())?;
    let numbered = numbers_of(alloc, judge)?;
    let exported = was_exported(&held.export);
    add_item_lines(
        alloc,
        judge,
        &numbered,
        exported,
        held.items.as_slice(),
        &mut text,
    )?;
    Ok(text)
}
