//! Things of which custody is kept, as keys of maps.
ghost use Rattle.std.specs.Prelude.{◌≡◌, Some, [], ◌∷◌, refl, length, unwrap_or, nat_eq};
ghost use Rattle.std.specs.Ordering.{nat_cmp};
ghost use Rattle.std.specs.Cmp.{partial_equiv_from_equiv};
ghost use Rattle.std.specs.Cmp.Lexicographic.{pointwise, slice_cmp, nat_list_eq_equiv, nat_list_cmp_total, texts_ties};
ghost use Rattle.std.specs.Cmp.Lexicographic.{texts_po};
ghost use Rattle.sheet_types.specs.World.{moved_thing};

use crate::entries::is_item_kind;
use sheet_types::receipt::Moved;
use std::cmp::Ordering;
use std::marker::Model;
use uuid::Uuid;

/// A thing of which custody is kept: an item by its identity, whatever its kind, or a link by its
/// mapping and its ends. To a contract it is its key.
#[derive(Drop)]
pub struct Thing {
    number: u8,
    base: Uuid,
    other: Option<Uuid>,
}

impl Model for Thing {
    ghost use Rattle.std.specs.Prelude.{List, ℕ};
    ghost use Rattle.sheet_ledger.specs.Things.{thing_bytes};

    ghost Value = { List ℕ };

    ghost view = { λ t. thing_bytes t.number t.base t.other };
}

impl Thing {
    /// The thing that was moved.
    pub fn of_moved(moved: &Moved) -> Thing
        ensures { result ≡ moved_thing moved.now }
    {
        let number = if is_item_kind(moved.kind) {
            0
        } else {
            moved.kind.number()
        };
        Thing {
            number,
            base: moved.base,
            other: moved.other,
        }
    }
}

// The order of the bytes, of which both have as many.
fn bytes_order(a: &[u8; 16], b: &[u8; 16]) -> Ordering
    ensures order { result ≡ slice_cmp nat_cmp a.now b.now }
    ensures long { length a.now ≡ length b.now }
{
    a.cmp(b)
}

// The bytes of a link's other end; none for an item.
fn end_bytes(end: &Option<Uuid>) -> &[u8]
    ensures { result.now ≡ unwrap_or end.now [] }
{
    match end {
        Some(id) => id.as_bytes(),
        None => &[],
    }
}

impl PartialEq for Thing {
    ghost eq = { pointwise nat_eq };

    ghost laws = { partial_equiv_from_equiv nat_list_eq_equiv };

    fn eq(&self, other: &Thing) -> bool {
        self.cmp(other).is_eq()
    }
}

impl Eq for Thing {
    ghost laws = { nat_list_eq_equiv };
}

impl PartialOrd for Thing {
    ghost partial_cmp = { λ x y. Some (slice_cmp nat_cmp x y) };

    ghost laws = { texts_po };

    fn partial_cmp(&self, other: &Thing) -> Option<Ordering> {
        Some(self.cmp(other))
    }
}

impl Ord for Thing {
    ghost cmp = { slice_cmp nat_cmp };

    ghost total = { nat_list_cmp_total };

    ghost matches_partial_cmp = { λ x y. refl };

    ghost matches_eq = { texts_ties };

    #[tactic(auto, using(sheet_types::proofs::KeyOrder::slice_cmp_append))]
    fn cmp(&self, other: &Thing) -> Ordering {
        let numbers = self.number.cmp(&other.number);
        let bases = bytes_order(self.base.as_bytes(), other.base.as_bytes());
        let ends = end_bytes(&self.other).cmp(end_bytes(&other.other));
        numbers.then(bases.then(ends))
    }
}
