//! Why what is known may stand for a look into all stores.
ghost use Rattle.world_known.specs.Known.{UnknownIsNew, KnowsNext};

/// What is not known is new.
pub fn unknown_is_new()
    ensures { UnknownIsNew }
{}

/// An accepted request names no more than its receipt.
pub fn knows_next()
    ensures { KnowsNext }
{}
