//! What the receipts of all stores name.
ghost use Rattle.std.specs.Prelude.{IfOk};
ghost use Rattle.opening_stores.specs.Judged.{AreAllNoted};

use opening_verdict::seen::StoreSeen;
use std::alloc::{AllocError, Global};
use world_known::known::Known;

/// All that a receipt of any of the stores names. A stray may name more than the world does, which
/// costs a look later and no more.
///
/// # Errors
///
/// Want of memory.
pub(crate) fn known_of(alloc: Global, seen: &[StoreSeen]) -> Result<Known, AllocError>
    ensures { IfOk result (λ known. AreAllNoted known seen.now) }
{
    let mut known = Known::new(alloc);
    for store in seen {
        known.note_all(store.held.receipts.as_slice(), store.held.uuid)?;
    }
    Ok(known)
}
