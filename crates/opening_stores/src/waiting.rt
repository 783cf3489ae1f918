//! Which packages wait for their stores to be brought, and which of them comes first.
ghost use Rattle.std.specs.Prelude.{◌≡◌, map, Some, None, IfOk, IfSome};
ghost use Rattle.std.specs.List.{AllByRecursion};
ghost use Rattle.opening_stores.specs.Waiting.{uuid_kept, first_of, IsLeast};

use opening_verdict::verdict::Kept;
use sheet_types::sorting::uuid_is_before;
use std::alloc::{AllocError, Global};
use uuid::Uuid;

/// A package that waits, and the place of its store.
#[derive(Clone, Copy)]
pub(crate) struct Waiting {
    pub place: usize,
    pub uuid: Uuid,
}

/// The UUID of a live package.
fn uuid_kept(kept: &Option<Kept>) -> Option<Uuid>
    ensures { result ≡ uuid_kept kept.now }
{
    match kept {
        Some(kept) => Some(kept.head.uuid),
        None => None,
    }
}

/// All that wait at first: at its store's place the UUID of each live package.
///
/// # Errors
///
/// Want of memory.
pub(crate) fn all_waiting(
    alloc: Global,
    kept: &[Option<Kept>],
) -> Result<Vec<Option<Uuid>>, AllocError>
    ensures { IfOk result (λ waiting. waiting.items ≡ map uuid_kept kept.now) }
{
    kept.iter().map(uuid_kept).collect(alloc)
}

/// The first of what was found so far and what waits at a place.
fn first_of(found: Option<Waiting>, place: usize, waits: Option<Uuid>) -> Option<Waiting>
    ensures { result ≡ first_of found place waits }
{
    let Some(uuid) = waits else {
        return found;
    };
    match found {
        Some(first) => {
            if uuid_is_before(uuid, first.uuid) {
                Some(Waiting { place, uuid })
            } else {
                Some(first)
            }
        }
        None => Some(Waiting { place, uuid }),
    }
}

/// The package with the least UUID of those that wait.
pub(crate) fn least(waiting: &[Option<Uuid>]) -> Option<Waiting>
    ensures least { IfSome result (IsLeast waiting.now) }
    ensures none { result ≡ None → AllByRecursion (λ waits. waits ≡ None) waiting.now }
{
    let mut found = None;
    for place in 0..waiting.len() {
        found = first_of(found, place, waiting[place]);
    }
    found
}
