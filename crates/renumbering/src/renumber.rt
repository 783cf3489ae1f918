//! A renumbering of the keys of one kind: each old key has a new one, which is free in the package that it comes to.
ghost use Rattle.std.specs.Prelude.{◌≡◌, ◌⊎◌, ℤ, List, length, IfOk, IfErr, IsSome, IsTrue, ◌↔◌};
ghost use Rattle.std.specs.Prelude.{zip};
ghost use Rattle.std.specs.List.Sorted.{IsStrictlySortedBy};
ghost use Rattle.std.specs.Ordering.{int_cmp};
ghost use Rattle.renumbering.specs.Renumbering.{new_key, IsRenumbering, HasTooMany};
ghost use Rattle.sheet_types.specs.declared.refusal.Refusal.TheVariants.{TooMany, OutOfMemory};

use crate::free::{distinct, free_keys, is_among};
use sheet_types::refusal::Refusal;
use std::alloc::Global;
use std::marker::Model;

/// New keys for old ones. A contract sees the pairs of an old key and its new one.
#[derive(Drop)]
pub struct Renumber {
    /// The old keys, which rise.
    olds: Vec<i64>,
    /// The new key of each, at the same place.
    news: Vec<i64>,
}

impl Model for Renumber {
    ghost Value = { List (ℤ × ℤ) };

    ghost view = { λ r. zip r.olds.items r.news.items };

    ghost invariant = { λ r. IsStrictlySortedBy int_cmp r.olds.items
        × (length r.news.items ≡ length r.olds.items) };
}

impl Renumber {
    /// A new key for each of the old ones: a free one beside those that are used, and another for
    /// each. A key that stands twice among the old ones has one.
    ///
    /// # Errors
    ///
    /// `TooMany` where there are fewer free keys than different old ones, and want of memory.
    pub fn make(alloc: Global, old: &[i64], used: &[i64]) -> Result<Renumber, Refusal>
        ensures made { IfOk result (λ renumber. IsRenumbering old.now used.now renumber) }
        ensures too_many { result ≡ Err TooMany → HasTooMany old.now used.now }
        ensures refused { IfErr result (λ why. (why ≡ TooMany) ⊎ (why ≡ OutOfMemory)) }
    {
        let Ok(olds) = distinct(alloc, old) else {
            return Err(Refusal::OutOfMemory);
        };
        let news = free_keys(alloc, used, olds.len())?;
        Ok(Renumber { olds, news })
    }

    /// Whether an old key is held.
    pub fn holds(&self, key: i64) -> bool
        ensures { IsTrue result ↔ IsSome (new_key self.now key) }
    {
        is_among(&self.olds, key)
    }

    /// The new key of an old one that is held.
    fn new_key(&self, key: i64) -> i64
        requires { IsSome (new_key self.now key) }
        ensures { new_key self.now key ≡ Some result }
    {
        match self.olds.binary_search(&key) {
            Ok(place) => self.news[place],
            Err(_) => key,
        }
    }

    /// The new keys of the two ends of a link, each by the renumbering of its own kind: this one is
    /// of the base's. Takes no memory.
    pub fn carry(&self, related_keys: &Renumber, base: i64, related: i64) -> (i64, i64)
        requires base { IsSome (new_key self.now base) }
        requires related { IsSome (new_key related_keys.now related) }
        ensures base { new_key self.now base ≡ Some result.0 }
        ensures related { new_key related_keys.now related ≡ Some result.1 }
    {
        (self.new_key(base), related_keys.new_key(related))
    }
}
