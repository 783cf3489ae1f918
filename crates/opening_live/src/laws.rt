//! Laws of views of stores of which those that do not live are left out, each the contract of a
//! function that does nothing.
ghost use Rattle.opening_live.specs.Laws.{LiveOnesFault, LiveOnesStand};

/// Those that live stand for a world exactly where all do.
pub fn live_ones_stand()
    ensures { LiveOnesStand }
{}

/// They come to a fault exactly where all do, and to the same.
pub fn live_ones_fault()
    ensures { LiveOnesFault }
{}
