//! Keys in their order, and whether one is among them: in memory, by a binary search each.
ghost use Rattle.std.specs.Prelude.{◌≡◌, true, IsPermutation, IsSorted};
ghost use Rattle.std.specs.List.{AllByRecursion, list_any};
ghost use Rattle.std.specs.Ordering.{eq_by_cmp};
ghost use Rattle.package_items.specs.Answers.{Decides};

/// These keys in their order.
pub(crate) fn in_order<K: Ord + Drop>(mut keys: Vec<K>) -> Vec<K>
    ensures same { IsPermutation keys.items result.items }
    ensures order { IsSorted K.cmp result.items }
{
    keys.sort_unstable();
    keys
}

/// Whether a key is among keys in their order.
pub(crate) fn has<K: Ord>(sorted: &[K], key: &K) -> bool
    requires { IsSorted K.cmp sorted.now }
    ensures { result ≡ list_any (λ k. eq_by_cmp K.cmp k key.now) sorted.now }
{
    sorted.binary_search(key).is_ok()
}

/// Whether each of some keys is among keys in their order.
pub(crate) fn has_all<K: Ord>(sorted: &[K], keys: &[K]) -> bool
    requires { IsSorted K.cmp sorted.now }
    ensures { Decides (AllByRecursion (λ x. list_any (λ k. eq_by_cmp K.cmp k x) sorted.now ≡ true) keys.now)
        result }
{
    for key in keys {
        if !has(sorted, key) {
            return false;
        }
    }
    true
}
