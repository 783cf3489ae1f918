//! The links of a file, with their ends under their names.
ghost use Rattle.std.specs.Prelude.{◌≡◌, List, ℕ, IfOk, IfSome, IfNone};
ghost use Rattle.std.specs.List.{AllZip};
ghost use Rattle.std.specs.Ordering.{nat_cmp};
ghost use Rattle.std.specs.Cmp.Lexicographic.{slice_cmp};
ghost use Rattle.std.specs.BTreeMap.{get};
ghost use Rattle.sheet_types.specs.declared.command.Relation.{Relation};
ghost use Rattle.field_changes.specs.Keys.{number_key};
ghost use Rattle.field_changes.specs.Parts.{link_of, IsLinkOf};
ghost use Rattle.field_changes.specs.Ends.{HoldsEnds};
ghost use Rattle.field_changes.specs.declared.naming.Named.{Named};

use crate::held::HeldLink;
use crate::keys::NumberKey;
use crate::naming::Named;
use sheet_types::command::Relation;
use sheet_types::error::OutOfMemory;
use sheet_types::receipt::MovedKind;
use std::alloc::Global;
use std::collections::BTreeMap;
use uuid::Uuid;

// The identities of the items of a file, by kind and number.
fn ends_of(alloc: Global, names: &[Named]) -> Result<BTreeMap<NumberKey, Uuid>, OutOfMemory>
    ensures { IfOk result (λ ends. HoldsEnds names.now ends) }
{
    let mut ends = BTreeMap::new(alloc);
    for name in names {
        ends.insert(NumberKey::of(name.kind, name.number), name.identity)?;
    }
    Ok(ends)
}

// The identity of the item of this kind and number.
fn end_at(ends: &BTreeMap<NumberKey, Uuid>, kind: MovedKind, number: i64) -> Option<Uuid>
    ensures { result ≡ get (slice_cmp nat_cmp) ends.now (number_key kind number) }
{
    ends.get(&NumberKey::of(kind, number)).copied()
}

// A link of the file, where both ends are there.
fn link_of(ends: &BTreeMap<NumberKey, Uuid>, link: &HeldLink) -> Option<Relation>
    ensures { (names : List Named) → HoldsEnds names ends.now → result ≡ link_of names link.now }
{
    match end_at(ends, link.mapping.base_kind(), link.base) {
        Some(base) => match end_at(ends, link.mapping.other_kind(), link.other) {
            Some(other) => Some(Relation::new(link.mapping, base, other)),
            None => None,
        },
        None => None,
    }
}

/// The links of a file with their ends under their names, or none where an end of one is no item of the file.
///
/// # Errors
///
/// Want of memory.
pub fn links_of(
    alloc: Global,
    names: &[Named],
    links: &[HeldLink],
) -> Result<Option<Vec<Relation>>, OutOfMemory>
    ensures some { IfOk result (λ found. IfSome found (λ relations. AllZip (IsLinkOf names.now) links.now
        relations.items)) }
    ensures none { IfOk result (λ found. IfNone found ((relations : List Relation)
        → ¬ AllZip (IsLinkOf names.now) links.now relations)) }
{
    let ends = ends_of(alloc, names)?;
    let mut relations = Vec::new(alloc);
    for link in links {
        let Some(relation) = link_of(&ends, link) else {
            return Ok(None);
        };
        relations.push(relation)?;
    }
    Ok(Some(relations))
}
