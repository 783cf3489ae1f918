//! How far a store is found in the rounds from the archive downwards.

/// How a store stands after some rounds.
#[derive(Clone, Copy)]
pub enum Standing {
    /// Not found.
    Stray,
    /// Found in the last of the rounds.
    Fresh,
    /// Found before the last round.
    Settled,
}
