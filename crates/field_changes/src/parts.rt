//! What the file has beyond the package, and the package beyond the file.
ghost use Rattle.std.specs.Prelude.{◌≡◌, ◌++◌, ◌∷◌, [], not, ℕ, List, IfOk, IfErr, bytes_eq, filter};
ghost use Rattle.std.specs.Prelude.{map};
ghost use Rattle.std.specs.Prelude.{IsPermutation};
ghost use Rattle.std.specs.List.{AllByRecursion, IsDistinct};
ghost use Rattle.std.specs.Ordering.{nat_cmp};
ghost use Rattle.std.specs.Cmp.Lexicographic.{slice_cmp};
ghost use Rattle.std.specs.BTreeSet.{contains};
ghost use Rattle.sheet_types.specs.Cut.{identities};
ghost use Rattle.sheet_types.specs.Lines.{IsUuid};
ghost use Rattle.sheet_types.specs.Ordered.{has, IsArranged};
ghost use Rattle.sheet_types.specs.World.{item_key, link_key};
ghost use Rattle.field_changes.specs.Parts.{beyond, gone, new_item, new_items};

use crate::held::HeldItem;
use crate::keys::LinkKey;
use crate::naming::Named;
use sheet_types::command::{Item, Relation};
use sheet_types::error::OutOfMemory;
use sheet_types::sorting::{item_is_before, link_is_before};
use std::alloc::Global;
use std::collections::BTreeSet;
use uuid::Uuid;

/// Two things have one key.
#[derive(Clone, Copy, PartialEq, Eq)]
pub struct Twice;

// The keys of links.
fn keys_of(alloc: Global, links: &[Relation]) -> Result<BTreeSet<LinkKey>, OutOfMemory>
    ensures { IfOk result (λ keys. (q : List ℕ) → contains (slice_cmp nat_cmp) keys q
        ≡ has link_key q links.now) }
{
    let mut keys = BTreeSet::new(alloc);
    for link in links {
        keys.insert(LinkKey::of(link))?;
    }
    Ok(keys)
}

// Puts a link behind the others, where it has none of these keys.
fn push_beyond(
    links: &mut Vec<Relation>,
    keys: &BTreeSet<LinkKey>,
    link: &Relation,
) -> Result<(), OutOfMemory>
    ensures { IfOk result (λ _. links.new.items ≡ links.old.items
        ++ filter (λ l. not (contains (slice_cmp nat_cmp) keys.now (link_key l))) (link.now ∷ [])) }
{
    if keys.contains(&LinkKey::of(link)) {
        return Ok(());
    }
    links.push(*link)?;
    Ok(())
}

// The links that have none of these keys.
fn without_keys(
    alloc: Global,
    keys: &BTreeSet<LinkKey>,
    links: &[Relation],
) -> Result<Vec<Relation>, OutOfMemory>
    ensures { IfOk result (λ left. left.items ≡ filter (λ l. not
        (contains (slice_cmp nat_cmp) keys.now (link_key l)))
        links.now) }
{
    let mut left = Vec::new(alloc);
    for link in links {
        push_beyond(&mut left, keys, link)?;
    }
    Ok(left)
}

/// The links that are not among others, in their order.
///
/// # Errors
///
/// Want of memory.
pub fn beyond(
    alloc: Global,
    others: &[Relation],
    links: &[Relation],
) -> Result<Vec<Relation>, OutOfMemory>
    ensures { IfOk result (λ left. left.items ≡ beyond others.now links.now) }
{
    let keys = keys_of(alloc, others)?;
    without_keys(alloc, &keys, links)
}

// The identities by which items of the file are called.
fn names_of(alloc: Global, names: &[Named]) -> Result<BTreeSet<Uuid>, OutOfMemory>
    ensures { IfOk result (λ known. (q : List ℕ) → contains (slice_cmp nat_cmp) known q
        ≡ has (λ n. n.identity) q names.now) }
{
    let mut known = BTreeSet::new(alloc);
    for name in names {
        known.insert(name.identity)?;
    }
    Ok(known)
}

// Puts the identity of an item behind the others, where it is none of these.
fn push_gone(ids: &mut Vec<Uuid>, known: &BTreeSet<Uuid>, item: &Item) -> Result<(), OutOfMemory>
    ensures { IfOk result (λ _. ids.new.items ≡ ids.old.items
        ++ identities (filter (λ i. not (contains (slice_cmp nat_cmp) known.now i.identity)) (item.now ∷ []))) }
{
    if known.contains(&item.identity) {
        return Ok(());
    }
    ids.push(item.identity)?;
    Ok(())
}

// The identities of the items that are none of these.
fn unknown(alloc: Global, known: &BTreeSet<Uuid>, items: &[Item]) -> Result<Vec<Uuid>, OutOfMemory>
    ensures { IfOk result (λ ids. ids.items ≡ identities (filter
        (λ i. not (contains (slice_cmp nat_cmp) known.now i.identity)) items.now)) }
{
    let mut ids = Vec::new(alloc);
    for item in items {
        push_gone(&mut ids, known, item)?;
    }
    Ok(ids)
}

/// The identities of the items of a package by which nothing in the file is called, in their order.
///
/// # Errors
///
/// Want of memory.
pub fn gone_items(alloc: Global, names: &[Named], items: &[Item]) -> Result<Vec<Uuid>, OutOfMemory>
    ensures { IfOk result (λ ids. ids.items ≡ identities (gone names.now items.now)) }
{
    let known = names_of(alloc, names)?;
    unknown(alloc, &known, items)
}

// Puts an item of the file behind the others, where its name is new.
fn push_new(items: &mut Vec<Item>, name: &Named, item: HeldItem<'_>) -> Result<(), OutOfMemory>
    ensures { IfOk result (λ _. items.new.items ≡ items.old.items ++ new_item name.now item.entry) }
{
    if name.is_new {
        let HeldItem { content, .. } = item;
        items.push(Item {
            identity: name.identity,
            content: content.into_content()?,
        })?;
    }
    Ok(())
}

/// The items of the file whose names are new, in their order.
///
/// # Errors
///
/// Want of memory.
pub fn new_items(
    alloc: Global,
    names: &[Named],
    file: Vec<HeldItem<'_>>,
) -> Result<Vec<Item>, OutOfMemory>
    ensures { IfOk result (λ items. items.items ≡ new_items names.now file.entry.items) }
{
    let mut items = Vec::new(alloc);
    let mut left = file.into_iter();
    for name in names {
        let Some(item) = left.next() else {
            return Ok(items);
        };
        push_new(&mut items, name, item)?;
    }
    Ok(items)
}

/// The items by kind and identity.
///
/// # Errors
///
/// `Twice` where an item is there twice.
pub fn items_in_order(mut items: Vec<Item>) -> Result<Vec<Item>, Twice>
    ensures same { IfOk result (λ sorted. IsPermutation items.items sorted.items) }
    ensures order { IfOk result (λ sorted. IsArranged item_key sorted.items) }
    ensures twice { IfErr result (λ _. IsDistinct bytes_eq (map item_key items.items) → ⊥) }
{
    items.sort_unstable_by_key(|item| (item.content.kind().number(), item.identity));
    if items.is_sorted_by(|item, next| item_is_before(item, next)) {
        Ok(items)
    } else {
        Err(Twice)
    }
}

/// The links by mapping, base and other end.
///
/// # Errors
///
/// `Twice` where a link is there twice.
pub fn links_in_order(mut links: Vec<Relation>) -> Result<Vec<Relation>, Twice>
    ensures same { IfOk result (λ sorted. IsPermutation links.items sorted.items) }
    ensures order { IfOk result (λ sorted. IsArranged link_key sorted.items) }
    ensures twice { IfErr result (λ _. AllByRecursion (λ l. IsUuid l.base) links.items
        → IsDistinct bytes_eq (map link_key links.items) → ⊥) }
{
    links.sort_unstable_by_key(|link| (link.mapping.link_kind().number(), link.base, link.other));
    if links.is_sorted_by(|link, next| link_is_before(link, next)) {
        Ok(links)
    } else {
        Err(Twice)
    }
}
