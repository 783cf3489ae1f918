//! What a file holds, of the entries of its list.
ghost use Rattle.std.specs.Prelude.{◌≡◌, ◌<◌, ◌↔◌, ◌++◌, [], ◌∷◌, map, bytes_eq, count_by};
ghost use Rattle.std.specs.Prelude.{length, IfOk, IfErr};
ghost use Rattle.std.specs.Prelude.{IfSome, IfNone, IsTrue, IsPermutation};
ghost use Rattle.std.specs.List.{cons_option, filter_map, IsDistinct};
ghost use Rattle.sheet_types.specs.Ordered.{is_before, IsArranged};
ghost use Rattle.field_changes.specs.Keys.{number_key, sign};
ghost use Rattle.field_changes.specs.declared.held.Held.{Held};
ghost use Rattle.field_faults.specs.Files.{bad_in, closes, ends_after, export_in, frame_in, held_key, is_end, item_in};
ghost use Rattle.field_faults.specs.Files.{link_in, plain, system_in, IsHeld, IsOnly, Lead, LeadUnlessBad};

use crate::heads::is_number;
use field_changes::ends::links_of as ends_of;
use field_changes::held::{BadRecord, Export, Held, HeldItem, HeldLink};
use field_changes::naming::Named;
use field_lists::entries::Listed;
use sheet_types::error::OutOfMemory;
use sheet_types::frame::Frame;
use std::alloc::Global;
use uuid::Uuid;

/// Whether an entry is an end.
fn is_end(entry: &Listed<'_>) -> bool
    ensures { result ≡ is_end entry.now }
{
    matches!(entry, Listed::End(_))
}

/// Whether an entry is an end that counts so many.
fn ends_after(count: u64, entry: &Listed<'_>) -> bool
    ensures { result ≡ ends_after count entry.now }
{
    match entry {
        Listed::End(number) => is_number(count, *number),
        _ => false,
    }
}

/// How many entries are an end.
fn ends_in(entries: &[Listed<'_>]) -> usize
    ensures { result ≡ count_by is_end entries.now }
{
    entries.iter().filter(|entry| is_end(entry)).count()
}

/// Whether no entry but the last is an end, and that counts those before it.
fn closes(entries: &[Listed<'_>]) -> bool
    ensures { result ≡ closes entries.now }
{
    let Some(last) = entries.last() else {
        return false;
    };
    (ends_in(entries) == 1) & ends_after(entries.len() as u64 - 1, last)
}

/// The export that an entry names.
fn export_in(entry: &Listed<'_>) -> Option<Export>
    ensures { result ≡ export_in entry.now }
{
    match entry {
        Listed::Exported(export) => Some(*export),
        _ => None,
    }
}

/// The system that an entry names.
fn system_in(entry: &Listed<'_>) -> Option<i64>
    ensures { result ≡ system_in entry.now }
{
    match entry {
        Listed::System(number) => Some(*number),
        _ => None,
    }
}

/// The frame that an entry names.
fn frame_in(entry: &Listed<'_>) -> Option<Frame>
    ensures { result ≡ frame_in entry.now }
{
    match entry {
        Listed::Framed(frame) => Some(*frame),
        _ => None,
    }
}

/// The link that an entry names.
fn link_in(entry: &Listed<'_>) -> Option<HeldLink>
    ensures { result ≡ link_in entry.now }
{
    match entry {
        Listed::Link(link) => Some(*link),
        _ => None,
    }
}

/// The item that an entry names.
fn item_in<'a>(entry: Listed<'a>) -> Option<HeldItem<'a>>
    ensures { result ≡ item_in entry.entry }
{
    match entry {
        Listed::Item(item) => Some(item),
        _ => None,
    }
}

/// Puts what was found behind the others, if anything was.
fn push_some<T: Drop>(found: &mut Vec<T>, one: Option<T>) -> Result<(), OutOfMemory>
    ensures { IfOk result (λ _. found.new.items ≡ found.old.items ++ cons_option one []) }
{
    if let Some(one) = one {
        found.push(one)?;
    }
    Ok(())
}

/// The one of a list that has one at most; `None` where it has more.
fn only<T: Copy>(found: &[T]) -> Option<Option<T>>
    ensures some { IfSome result (λ one. IsOnly found.now one) }
    ensures none { IfNone result (1 < length found.now) }
{
    if found.len() > 1 {
        return None;
    }
    Some(found.first().copied())
}

/// The exports that are named.
fn exports_of(alloc: Global, entries: &[Listed<'_>]) -> Result<Vec<Export>, OutOfMemory>
    ensures { IfOk result (λ found. found.items ≡ filter_map export_in entries.now) }
{
    let mut found = Vec::new(alloc);
    for entry in entries {
        push_some(&mut found, export_in(entry))?;
    }
    Ok(found)
}

/// The export that a file was, if it is told once at most.
fn export_of(alloc: Global, entries: &[Listed<'_>]) -> Result<Option<Option<Export>>, OutOfMemory>
    ensures some { IfOk result (λ found. IfSome found (λ one. IsOnly (filter_map export_in entries.now) one)) }
    ensures none { IfOk result (λ found. IfNone found (1 < length (filter_map export_in entries.now))) }
{
    let found = exports_of(alloc, entries)?;
    Ok(only(found.as_slice()))
}

/// The systems that are named.
fn systems_of(alloc: Global, entries: &[Listed<'_>]) -> Result<Vec<i64>, OutOfMemory>
    ensures { IfOk result (λ found. found.items ≡ filter_map system_in entries.now) }
{
    let mut found = Vec::new(alloc);
    for entry in entries {
        push_some(&mut found, system_in(entry))?;
    }
    Ok(found)
}

/// The system of its points, if it is told once at most.
fn system_of(alloc: Global, entries: &[Listed<'_>]) -> Result<Option<Option<i64>>, OutOfMemory>
    ensures some { IfOk result (λ found. IfSome found (λ one. IsOnly (filter_map system_in entries.now) one)) }
    ensures none { IfOk result (λ found. IfNone found (1 < length (filter_map system_in entries.now))) }
{
    let found = systems_of(alloc, entries)?;
    Ok(only(found.as_slice()))
}

/// The frames that are named.
fn frames_of(alloc: Global, entries: &[Listed<'_>]) -> Result<Vec<Frame>, OutOfMemory>
    ensures { IfOk result (λ found. found.items ≡ filter_map frame_in entries.now) }
{
    let mut found = Vec::new(alloc);
    for entry in entries {
        push_some(&mut found, frame_in(entry))?;
    }
    Ok(found)
}

/// The frame of its tiles, if it is told once at most.
fn frame_of(alloc: Global, entries: &[Listed<'_>]) -> Result<Option<Option<Frame>>, OutOfMemory>
    ensures some { IfOk result (λ found. IfSome found (λ one. IsOnly (filter_map frame_in entries.now) one)) }
    ensures none { IfOk result (λ found. IfNone found (1 < length (filter_map frame_in entries.now))) }
{
    let found = frames_of(alloc, entries)?;
    Ok(only(found.as_slice()))
}

/// The links.
fn links_of(alloc: Global, entries: &[Listed<'_>]) -> Result<Vec<HeldLink>, OutOfMemory>
    ensures { IfOk result (λ links. links.items ≡ filter_map link_in entries.now) }
{
    let mut found = Vec::new(alloc);
    for entry in entries {
        push_some(&mut found, link_in(entry))?;
    }
    Ok(found)
}

/// The items.
fn items_of<'a>(alloc: Global, entries: Vec<Listed<'a>>) -> Result<Vec<HeldItem<'a>>, OutOfMemory>
    ensures { IfOk result (λ items. items.items ≡ filter_map item_in entries.entry.items) }
{
    let mut found = Vec::new(alloc);
    for entry in entries {
        push_some(&mut found, item_in(entry))?;
    }
    Ok(found)
}

/// A record that could not be listed, on its own.
fn copy_of(bad: &BadRecord) -> Result<BadRecord, OutOfMemory>
    ensures { IfOk result (λ copy. copy ≡ bad.now) }
{
    let text = bad.text.try_clone()?;
    Ok(BadRecord {
        number: bad.number,
        text,
    })
}

/// Puts an entry behind the others, where it is a record that could not be listed.
fn push_bad(found: &mut Vec<BadRecord>, entry: &Listed<'_>) -> Result<(), OutOfMemory>
    ensures { IfOk result (λ _. found.new.items ≡ found.old.items ++ filter_map bad_in (entry.now ∷ [])) }
{
    if let Listed::Bad(bad) = entry {
        found.push(copy_of(bad)?)?;
    }
    Ok(())
}

/// The records that could not be listed.
fn bad_of(alloc: Global, entries: &[Listed<'_>]) -> Result<Vec<BadRecord>, OutOfMemory>
    ensures { IfOk result (λ bad. bad.items ≡ filter_map bad_in entries.now) }
{
    let mut found = Vec::new(alloc);
    for entry in entries {
        push_bad(&mut found, entry)?;
    }
    Ok(found)
}

/// An item, as if it had a name already.
fn plain(item: &HeldItem<'_>) -> Named
    ensures { result ≡ plain item.now }
{
    Named {
        kind: item.content.kind(),
        number: item.number,
        identity: Uuid::nil(),
        is_new: false,
    }
}

/// The same of items.
fn plain_names(alloc: Global, items: &[HeldItem<'_>]) -> Result<Vec<Named>, OutOfMemory>
    ensures { IfOk result (λ names. names.items ≡ map plain items.now) }
{
    let mut names = Vec::new(alloc);
    for item in items {
        names.push(plain(item))?;
    }
    Ok(names)
}

/// Whether each link leads from an item to another.
fn lead(alloc: Global, items: &[HeldItem<'_>], links: &[HeldLink]) -> Result<bool, OutOfMemory>
    ensures { IfOk result (λ all. IsTrue all ↔ Lead items.now links.now) }
{
    let names = plain_names(alloc, items)?;
    match ends_of(alloc, names.as_slice(), links)? {
        Some(_) => Ok(true),
        None => Ok(false),
    }
}

/// The same, where all records could be listed.
fn lead_unless_bad(
    alloc: Global,
    bad: &[BadRecord],
    items: &[HeldItem<'_>],
    links: &[HeldLink],
) -> Result<bool, OutOfMemory>
    ensures { IfOk result (λ all. IsTrue all ↔ LeadUnlessBad bad.now items.now links.now) }
{
    if bad.is_empty() {
        lead(alloc, items, links)
    } else {
        Ok(true)
    }
}

/// Whether a number is below 0.
fn sign(number: i64) -> u64
    ensures { result ≡ sign number }
{
    if number < 0 { 1 } else { 0 }
}

/// The kind and the number of an item, as a key.
fn key_of(item: &HeldItem<'_>) -> [u64; 3]
    ensures { result ≡ held_key item.now }
{
    [
        u64::from(item.content.kind().number()),
        sign(item.number),
        item.number.unsigned_abs(),
    ]
}

/// Whether an item stands before another.
fn stands_before(item: &HeldItem<'_>, next: &HeldItem<'_>) -> bool
    ensures { result ≡ is_before (held_key item.now) (held_key next.now) }
{
    key_of(item).cmp(&key_of(next)).is_lt()
}

/// The items by kind and number; `None` where two have one number.
fn in_order<'a>(mut items: Vec<HeldItem<'a>>) -> Option<Vec<HeldItem<'a>>>
    ensures same { IfSome result (λ sorted. IsPermutation items.entry.items sorted.items) }
    ensures order { IfSome result (λ sorted. IsArranged held_key sorted.items) }
    ensures twice { IfNone result (¬ IsDistinct bytes_eq (map held_key items.entry.items)) }
{
    items.sort_unstable_by_key(|item| {
        (
            item.content.kind().number(),
            sign(item.number),
            item.number.unsigned_abs(),
        )
    });
    if items.is_sorted_by(|item, next| stands_before(item, next)) {
        Some(items)
    } else {
        None
    }
}

/// What a file holds, of the entries of its list; `None` where these are no whole list.
///
/// # Errors
///
/// Want of memory.
pub fn held_of<'a>(alloc: Global, entries: Vec<Listed<'a>>) -> Result<Option<Held<'a>>, OutOfMemory>
    ensures some { IfOk result (λ found. IfSome found (λ h. IsHeld entries.entry.items h)) }
    ensures none { IfOk result (λ found. IfNone found ((h : Held) → ¬ IsHeld entries.entry.items h)) }
{
    if !closes(entries.as_slice()) {
        return Ok(None);
    }
    let Some(export) = export_of(alloc, entries.as_slice())? else {
        return Ok(None);
    };
    let Some(system) = system_of(alloc, entries.as_slice())? else {
        return Ok(None);
    };
    let Some(frame) = frame_of(alloc, entries.as_slice())? else {
        return Ok(None);
    };
    let links = links_of(alloc, entries.as_slice())?;
    let bad = bad_of(alloc, entries.as_slice())?;
    let items = items_of(alloc, entries)?;
    if !lead_unless_bad(alloc, bad.as_slice(), items.as_slice(), links.as_slice())? {
        return Ok(None);
    }
    let Some(items) = in_order(items) else {
        return Ok(None);
    };
    Ok(Some(Held {
        export,
        system,
        frame,
        items,
        links,
        bad,
    }))
}
