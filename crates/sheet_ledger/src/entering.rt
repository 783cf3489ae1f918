//! Whether each receipt fits its line.
ghost use Rattle.std.specs.Prelude.{◌≡◌, ◌↔◌, ◌∷◌, [], true, IsTrue};
ghost use Rattle.std.specs.List.{AllByRecursion};
ghost use Rattle.sheet_types.specs.Balance.{MovesFor};
ghost use Rattle.sheet_types.specs.World.{is_item_kind};
ghost use Rattle.sheet_types.specs.declared.receipt.Moved.{Moved};
ghost use Rattle.sheet_ledger.specs.Entries.{entry_said};
ghost use Rattle.sheet_ledger.specs.Parts.{IsEntered, FitsEntry};

use crate::entries::{LineEntry, is_item_kind, read_line};
use crate::same::{is_only, same_end, same_uuid};
use sheet_types::command::Relation;
use sheet_types::receipt::{Moved, Receipt};
use uuid::Uuid;

/// Whether each of these receipts fits its line.
pub fn are_entered(receipts: &[Receipt]) -> bool
    ensures { IsTrue result ↔ AllByRecursion IsEntered receipts.now }
{
    for receipt in receipts {
        if !is_entered(receipt) {
            return false;
        }
    }
    true
}

/// Whether the whole line is that of an entry with this source, this target and these things.
pub fn is_entered(receipt: &Receipt) -> bool
    ensures { IsTrue result ↔ IsEntered receipt.now }
{
    match read_line(receipt.line.as_str()) {
        Some(entry) => fits_entry(receipt, &entry),
        None => false,
    }
}

// Whether the receipt has the source, the target and the things of the entry.
fn fits_entry(receipt: &Receipt, entry: &LineEntry) -> bool
    ensures { IsTrue result ↔ FitsEntry receipt.now (entry_said entry.now) }
{
    same_end(receipt.source, entry.source())
        & same_end(receipt.target, entry.target())
        & moves_for(entry, receipt.items.as_slice())
}

// Whether these are the things that the entry moves; a split and a merge say no more than the ends.
fn moves_for(entry: &LineEntry, things: &[Moved]) -> bool
    ensures { IsTrue result ↔ MovesFor (entry_said entry.now) things.now }
{
    match entry {
        LineEntry::Add {
            identity,
            kind,
            size,
            digest,
            ..
        } => is_only(
            things,
            &Moved {
                kind: *kind,
                base: *identity,
                other: None,
                size: *size,
                fingerprint: Some(*digest),
            },
        ),
        LineEntry::Delete { identity, .. } => is_only_item(things, *identity),
        LineEntry::Link {
            mapping,
            base,
            other,
            ..
        }
        | LineEntry::Unlink {
            mapping,
            base,
            other,
            ..
        } => is_only(
            things,
            &Moved::of_link(&Relation::new(*mapping, *base, *other)),
        ),
        LineEntry::Split { .. } | LineEntry::Merge { .. } => true,
    }
}

// Whether nothing else was moved than an item of this identity, of any kind.
fn is_only_item(things: &[Moved], identity: Uuid) -> bool
    ensures { IsTrue result ↔ ((m : Moved) × (things.now ≡ m ∷ []) × (m.base ≡ identity)
        × (is_item_kind m.kind ≡ true)) }
{
    match things {
        [one] => same_uuid(one.base, identity) & is_item_kind(one.kind),
        _ => false,
    }
}
