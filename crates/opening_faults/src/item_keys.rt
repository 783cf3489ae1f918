//! What a receipt says of an item, as a key of sets.
ghost use Rattle.std.specs.Prelude.{◌≡◌, Some, [], refl, length, unwrap_or, nat_eq};
ghost use Rattle.std.specs.Ordering.{nat_cmp};
ghost use Rattle.std.specs.Cmp.{partial_equiv_from_equiv};
ghost use Rattle.std.specs.Cmp.Lexicographic.{pointwise, slice_cmp, nat_list_eq_equiv, nat_list_cmp_total, texts_ties};
ghost use Rattle.std.specs.Cmp.Lexicographic.{texts_po};
ghost use Rattle.opening_faults.specs.Altered.{item_said};

use sheet_types::receipt::Moved;
use std::cmp::Ordering;
use std::marker::Model;
use uuid::Uuid;

/// The size, the identity and the digest that a receipt says of an item. To a contract it is the
/// size, the length of the identity, the identity and the digest.
#[derive(Drop)]
pub struct ItemKey {
    size: u64,
    base: Uuid,
    digest: Option<[u8; 32]>,
}

impl Model for ItemKey {
    ghost use Rattle.std.specs.Prelude.{List, ℕ};
    ghost use Rattle.opening_faults.specs.Altered.{item_bytes};

    ghost Value = { List ℕ };

    ghost view = { λ k. item_bytes k.size k.base k.digest };
}

impl ItemKey {
    /// What a receipt says of an item.
    pub fn of_moved(moved: &Moved) -> ItemKey
        ensures { result ≡ item_said moved.now }
    {
        ItemKey {
            size: moved.size,
            base: moved.base,
            digest: moved.fingerprint,
        }
    }
}

// The order of the bytes, of which both have as many.
fn bytes_order(a: &[u8; 16], b: &[u8; 16]) -> Ordering
    ensures order { result ≡ slice_cmp nat_cmp a.now b.now }
    ensures long { length a.now ≡ length b.now }
{
    a.cmp(b)
}

// The bytes of a digest; none where there is none.
fn digest_bytes(digest: &Option<[u8; 32]>) -> &[u8]
    ensures { result.now ≡ unwrap_or digest.now [] }
{
    match digest {
        Some(digest) => digest,
        None => &[],
    }
}

impl PartialEq for ItemKey {
    ghost eq = { pointwise nat_eq };

    ghost laws = { partial_equiv_from_equiv nat_list_eq_equiv };

    fn eq(&self, other: &ItemKey) -> bool {
        self.cmp(other).is_eq()
    }
}

impl Eq for ItemKey {
    ghost laws = { nat_list_eq_equiv };
}

impl PartialOrd for ItemKey {
    ghost partial_cmp = { λ x y. Some (slice_cmp nat_cmp x y) };

    ghost laws = { texts_po };

    fn partial_cmp(&self, other: &ItemKey) -> Option<Ordering> {
        Some(self.cmp(other))
    }
}

impl Ord for ItemKey {
    ghost cmp = { slice_cmp nat_cmp };

    ghost total = { nat_list_cmp_total };

    ghost matches_partial_cmp = { λ x y. refl };

    ghost matches_eq = { texts_ties };

    #[tactic(auto, using(crate::proofs::ItemOrder::key_order))]
    fn cmp(&self, other: &ItemKey) -> Ordering {
        let sizes = self.size.cmp(&other.size);
        let bases = bytes_order(self.base.as_bytes(), other.base.as_bytes());
        let digests = digest_bytes(&self.digest).cmp(digest_bytes(&other.digest));
        sizes.then(bases.then(digests))
    }
}
