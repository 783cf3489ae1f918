//! What a glance at each store is worth, as the contract of a function that does nothing.
ghost use Rattle.opening_glances.specs.Laws.{LeftOutStand};

/// Where the stores that live by the glances stand for a world, all stores do.
pub fn left_out_stand()
    ensures { LeftOutStand }
{}
