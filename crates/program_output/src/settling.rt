//! The heap of a desk, put in order before it serves.
use std::alloc::AllocError;

/// How many bytes are asked for: more than any free piece of which there are many, and less than what the system's
/// allocator would have mapped by itself.
const PIECE: usize = 100_000;

/// How often they are asked for.
const ROUNDS: u32 = 1_000;

/// Asks for memory and gives it back, again and again. An opening leaves many free pieces, which the allocator sorts
/// once more is asked for than they have, some thousands each time. The first requests would wait for that.
pub(crate) fn settle_heap(rt: &HostRuntime) {
    for _round in 0..ROUNDS {
        let _piece: Result<Vec<u8>, AllocError> = Vec::with_capacity(rt.alloc(), PIECE);
    }
}
