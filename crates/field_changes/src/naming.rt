//! What the items of a file are called in the package.
ghost use Rattle.std.specs.Prelude.{◌≡◌, ◌||◌, ◌+◌, ◌-◌, ◌<◌, ◌++◌, ◌^◌, ◌∷◌, []};
ghost use Rattle.std.specs.Prelude.{true, false, not, ℕ, List, Some};
ghost use Rattle.std.specs.Prelude.{MatchOption, bytes_eq, filter, if◌then◌else◌, unwrap_or, IfOk, length};
ghost use Rattle.std.specs.List.{list_any};
ghost use Rattle.std.specs.Ordering.{nat_cmp};
ghost use Rattle.std.specs.Cmp.Lexicographic.{slice_cmp};
ghost use Rattle.std.specs.BTreeMap.{get};
ghost use Rattle.std.specs.BTreeSet.{contains};
ghost use Rattle.sheet_types.specs.Ordered.{has};
ghost use Rattle.field_changes.specs.Keys.{item_mark, rank_key};
ghost use Rattle.sheet_types.specs.declared.command.Item.{Item};
ghost use Rattle.field_changes.specs.Naming.{is_marked, is_own, name_of, known_as, names_of, shared_name};
ghost use Rattle.field_changes.specs.declared.held.HeldItem.{HeldItem};
ghost use Rattle.field_changes.specs.Spare.{HoldsSpare, IsWalk};

use crate::held::HeldItem;
use crate::ids::new_identity;
use crate::keys::Key;
use sheet_types::command::{Content, Item};
use sheet_types::error::OutOfMemory;
use sheet_types::receipt::MovedKind;
use std::alloc::Global;
use std::collections::{BTreeMap, BTreeSet};
use uuid::Uuid;

/// What an item of a file is called.
#[derive(Clone, Copy, PartialEq, Eq)]
pub enum Name {
    /// The identity of an item of the package that has its content.
    Old(Uuid),
    /// A new one: as many new items of its content stand before it.
    New(u64),
}

// The marks of the items of a package.
fn marks_of<'a>(alloc: Global, items: &'a [Item]) -> Result<BTreeSet<Key<'a>>, OutOfMemory>
    ensures { IfOk result (λ marks. (q : List ℕ) → contains (slice_cmp nat_cmp) marks q
        ≡ has item_mark q items.now) }
{
    let mut marks = BTreeSet::new(alloc);
    for item in items {
        marks.insert(Key::of_item(item))?;
    }
    Ok(marks)
}

// Notes what an item of the file is marked as, and whether that is new.
fn note_mark<'a>(marks: &mut BTreeSet<Key<'a>>, item: &'a HeldItem<'_>) -> Result<(), OutOfMemory>
    ensures { IfOk result (λ _. (q : List ℕ) → contains (slice_cmp nat_cmp) marks.new q
        ≡ (contains (slice_cmp nat_cmp) marks.old q || is_marked q item.now)) }
{
    if let Some(identity) = item.identity {
        marks.insert(Key::of_mark(identity, item.content.get()))?;
    }
    Ok(())
}

// The marks of the items of a file.
fn marks_in<'a>(alloc: Global, file: &'a [HeldItem<'_>]) -> Result<BTreeSet<Key<'a>>, OutOfMemory>
    ensures { IfOk result (λ marks. (q : List ℕ) → contains (slice_cmp nat_cmp) marks q
        ≡ list_any (is_marked q) file.now) }
{
    let mut marks = BTreeSet::new(alloc);
    for item in file {
        note_mark(&mut marks, item)?;
    }
    Ok(marks)
}

// How many of a content there are.
fn count_of<'a>(counts: &BTreeMap<Key<'a>, u64>, content: &'a Content) -> u64
    ensures { result ≡ unwrap_or (get (slice_cmp nat_cmp) counts.now (rank_key 0 content.now)) 0 }
{
    counts.get(&Key::of_rank(0, content)).copied().unwrap_or(0)
}

// What stands at a place among those of a content.
fn identity_at<'a>(
    places: &BTreeMap<Key<'a>, Uuid>,
    content: &'a Content,
    place: u64,
) -> Option<Uuid>
    ensures { result ≡ get (slice_cmp nat_cmp) places.now (rank_key place content.now) }
{
    places.get(&Key::of_rank(place, content)).copied()
}

// How many of a content there were, of which there is one more now.
fn count_up<'a>(
    counts: &mut BTreeMap<Key<'a>, u64>,
    content: &'a Content,
) -> Result<u64, OutOfMemory>
    requires { unwrap_or (get (slice_cmp nat_cmp) counts.old (rank_key 0 content.now)) 0 < 2 ^ 64 - 1 }
    ensures before { IfOk result (λ n. n ≡ unwrap_or (get (slice_cmp nat_cmp) counts.old (rank_key 0 content.now))
        0) }
    ensures after { IfOk result (λ n. (q : List ℕ) → get (slice_cmp nat_cmp) counts.new q
        ≡ (if bytes_eq (rank_key 0 content.now) q then Some (n + 1) else get (slice_cmp nat_cmp) counts.old q)) }
{
    let count = count_of(counts, content);
    counts.insert(Key::of_rank(0, content), count + 1)?;
    Ok(count)
}

// The items of a package that nothing in the file is marked as: how many there are of each content,
// and which stands at each place among them.
#[derive(Drop)]
pub(crate) struct Spare<'a> {
    pub(crate) counts: BTreeMap<Key<'a>, u64>,
    pub(crate) places: BTreeMap<Key<'a>, Uuid>,
}

impl<'a> Spare<'a> {
    // None.
    fn new(alloc: Global) -> Spare<'a>
        ensures { HoldsSpare [] result }
    {
        Spare {
            counts: BTreeMap::new(alloc),
            places: BTreeMap::new(alloc),
        }
    }

    // One more.
    fn add(&mut self, item: &'a Item) -> Result<(), OutOfMemory>
        requires { (left : List Item) × HoldsSpare left self.old × (length left < 2 ^ 64 - 1) }
        ensures { IfOk result (λ _. (left : List Item) → HoldsSpare left self.old
            → HoldsSpare (left ++ item.now ∷ []) self.new) }
    {
        let place = count_up(&mut self.counts, &item.content)?;
        self.places
            .insert(Key::of_rank(place, &item.content), item.identity)?;
        Ok(())
    }

    // One more, where it has none of these marks.
    fn add_unmarked(
        &mut self,
        marked: &BTreeSet<Key<'a>>,
        item: &'a Item,
    ) -> Result<(), OutOfMemory>
        requires { (left : List Item) × HoldsSpare left self.old × (length left < 2 ^ 64 - 1) }
        ensures { IfOk result (λ _. (left : List Item) → HoldsSpare left self.old
            → HoldsSpare (left ++ filter (λ i. not (contains (slice_cmp nat_cmp) marked.now (item_mark i)))
            (item.now ∷ [])) self.new) }
    {
        if marked.contains(&Key::of_item(item)) {
            return Ok(());
        }
        self.add(item)?;
        Ok(())
    }

    // The name of one that so many like it stand before.
    fn name(&self, content: &'a Content, place: u64) -> Name
        ensures { (left : List Item) → HoldsSpare left self.now → result ≡ shared_name left content.now place }
    {
        match identity_at(&self.places, content, place) {
            Some(identity) => Name::Old(identity),
            None => {
                let count = count_of(&self.counts, content);
                Name::New(place.saturating_sub(count))
            }
        }
    }
}

// The items of the package that have none of these marks.
fn spare_of<'a>(
    alloc: Global,
    items: &'a [Item],
    marked: &BTreeSet<Key<'a>>,
) -> Result<Spare<'a>, OutOfMemory>
    ensures { IfOk result (λ spare. HoldsSpare (filter (λ i. not
        (contains (slice_cmp nat_cmp) marked.now (item_mark i))) items.now) spare) }
{
    let mut spare = Spare::new(alloc);
    for item in items {
        spare.add_unmarked(marked, item)?;
    }
    Ok(spare)
}

// What is known on the way through the items of a file.
#[derive(Drop)]
pub(crate) struct Walk<'a> {
    // The marks of the package.
    pub(crate) marks: BTreeSet<Key<'a>>,
    // The marks of those that were passed.
    pub(crate) seen: BTreeSet<Key<'a>>,
    // The items that nothing is marked as.
    pub(crate) spare: Spare<'a>,
    // How many were passed of each content that were not their own.
    pub(crate) counts: BTreeMap<Key<'a>, u64>,
}

impl<'a> Walk<'a> {
    // The identity that an item names, where it is its own.
    fn own(&self, item: &'a HeldItem<'_>) -> Option<Uuid>
        ensures { (items : List Item) (file before : List HeldItem) → IsWalk items file before self.now
            → MatchOption result (is_own items before item.now ≡ false)
            (λ id. (is_own items before item.now ≡ true) × (item.now.identity ≡ Some id)) }
    {
        let identity = item.identity?;
        let mark = Key::of_mark(identity, item.content.get());
        if self.marks.contains(&mark) && !self.seen.contains(&mark) {
            Some(identity)
        } else {
            None
        }
    }

    // The name of the next item.
    fn next(&mut self, item: &'a HeldItem<'_>) -> Result<Name, OutOfMemory>
        requires { (items : List Item) × (file : List HeldItem) × (before : List HeldItem)
            × IsWalk items file before self.old × (length before < 2 ^ 64 - 1) }
        ensures name { IfOk result (λ name. (items : List Item) (file before : List HeldItem)
            → IsWalk items file before self.old → name ≡ name_of items file before item.now) }
        ensures walk { IfOk result (λ _. (items : List Item) (file before : List HeldItem)
            → IsWalk items file before self.old → IsWalk items file (before ++ item.now ∷ []) self.new) }
    {
        let own = self.own(item);
        note_mark(&mut self.seen, item)?;
        if let Some(identity) = own {
            return Ok(Name::Old(identity));
        }
        let content = item.content.get();
        let place = count_up(&mut self.counts, content)?;
        Ok(self.spare.name(content, place))
    }
}

// The start of the way through the items of a file.
fn walk_of<'a>(
    alloc: Global,
    items: &'a [Item],
    file: &'a [HeldItem<'_>],
) -> Result<Walk<'a>, OutOfMemory>
    ensures { IfOk result (λ walk. IsWalk items.now file.now [] walk) }
{
    let marked = marks_in(alloc, file)?;
    let spare = spare_of(alloc, items, &marked)?;
    let marks = marks_of(alloc, items)?;
    Ok(Walk {
        marks,
        seen: BTreeSet::new(alloc),
        spare,
        counts: BTreeMap::new(alloc),
    })
}

/// An item of a file under its name.
#[derive(Clone, Copy, PartialEq, Eq)]
pub struct Named {
    pub kind: MovedKind,
    pub number: i64,
    pub identity: Uuid,
    /// Whether no item of the package has that name.
    pub is_new: bool,
}

// An item under its name.
fn known_as(
    alloc: Global,
    package: Uuid,
    ticket: u64,
    item: &HeldItem<'_>,
    name: Name,
) -> Result<Named, OutOfMemory>
    ensures { IfOk result (λ known. known ≡ known_as «package» ticket item.now name) }
{
    let content = item.content.get();
    let (identity, is_new) = match name {
        Name::Old(identity) => (identity, false),
        Name::New(copy) => (new_identity(alloc, package, ticket, copy, content)?, true),
    };
    Ok(Named {
        kind: content.kind(),
        number: item.number,
        identity,
        is_new,
    })
}

/// The items of a file under their names, in their order. Its time grows as the number of items
/// times its logarithm, and no content is copied.
///
/// # Errors
///
/// Want of memory.
pub fn names(
    alloc: Global,
    package: Uuid,
    ticket: u64,
    items: &[Item],
    file: &[HeldItem<'_>],
) -> Result<Vec<Named>, OutOfMemory>
    ensures { IfOk result (λ names. names.items ≡ names_of «package» ticket items.now file.now) }
{
    let mut walk = walk_of(alloc, items, file)?;
    let mut names = Vec::new(alloc);
    for item in file {
        let name = walk.next(item)?;
        let known = known_as(alloc, package, ticket, item, name)?;
        names.push(known)?;
    }
    Ok(names)
}
