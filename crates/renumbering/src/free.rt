//! Keys that are free.
ghost use Rattle.std.specs.Prelude.{◌≡◌, ◌⊎◌, ◌<◌, ◌≤◌, ℤ, List, length, true, IfOk, IfErr};
ghost use Rattle.std.specs.List.{list_any};
ghost use Rattle.std.specs.List.Sorted.{IsStrictlySortedBy};
ghost use Rattle.std.specs.Ordering.{int_cmp, int_eq};
ghost use Rattle.renumbering.specs.Keys.{AreFree, IsFree};
ghost use Rattle.sheet_types.specs.declared.refusal.Refusal.TheVariants.{TooMany, OutOfMemory};

use sheet_types::checks::GREATEST_NUMBER;
use sheet_types::refusal::Refusal;
use std::alloc::{AllocError, Global};

/// The different keys of a list, from the least up.
pub(crate) fn distinct(alloc: Global, keys: &[i64]) -> Result<Vec<i64>, AllocError>
    ensures order { IfOk result (λ sorted. IsStrictlySortedBy int_cmp sorted.items) }
    ensures same { IfOk result (λ sorted. (key : ℤ) → list_any (int_eq key) sorted.items
        ≡ list_any (int_eq key) keys.now) }
{
    let mut sorted = keys.to_vec(alloc)?;
    sorted.sort_unstable();
    sorted.dedup();
    Ok(sorted)
}

/// Whether a key is among keys that rise.
pub(crate) fn is_among(sorted: &[i64], key: i64) -> bool
    requires { IsStrictlySortedBy int_cmp sorted.now }
    ensures { result ≡ list_any (int_eq key) sorted.now }
{
    sorted.binary_search(&key).is_ok()
}

/// The least free keys, as many as are asked for, or all where there are not so many.
fn least_free(alloc: Global, used: &[i64], n: usize) -> Result<Vec<i64>, AllocError>
    ensures free { IfOk result (λ keys. AreFree used.now keys.items) }
    ensures most { IfOk result (λ keys. length keys.items ≤ n) }
    ensures all { IfOk result (λ keys. length keys.items < n → (key : ℤ) → IsFree used.now key
        → list_any (int_eq key) keys.items ≡ true) }
{
    let taken = distinct(alloc, used)?;
    let mut keys = Vec::new(alloc);
    for key in 1..=GREATEST_NUMBER {
        if keys.len() == n {
            return Ok(keys);
        }
        if !is_among(&taken, key) {
            keys.push(key)?;
        }
    }
    Ok(keys)
}

/// Different keys that are free beside those that are used. Which of the free keys they are is open.
///
/// # Errors
///
/// `TooMany` where there are not so many, and want of memory.
pub fn free_keys(alloc: Global, used: &[i64], n: usize) -> Result<Vec<i64>, Refusal>
    ensures free { IfOk result (λ keys. AreFree used.now keys.items) }
    ensures count { IfOk result (λ keys. length keys.items ≡ n) }
    ensures too_many { result ≡ Err TooMany → (keys : List ℤ) → AreFree used.now keys → length keys < n }
    ensures refused { IfErr result (λ why. (why ≡ TooMany) ⊎ (why ≡ OutOfMemory)) }
{
    match least_free(alloc, used, n) {
        Ok(keys) => {
            if keys.len() < n {
                Err(Refusal::TooMany)
            } else {
                Ok(keys)
            }
        }
        Err(_) => Err(Refusal::OutOfMemory),
    }
}
