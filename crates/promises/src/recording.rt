//! What a shelf is given, and a record that it keeps of it.
ghost use Rattle.promises.specs.Clean.{IsGivenNone, IsRecorded};

use sqlite::Alter;
use store_shelf::shelf::Shelf;

/// The stores that a promise speaks of stand in whatever record a shelf keeps of what it is given.
/// All others there were given back as those of children that splits ask for.
pub fn given_is_recorded<S: Alter, H: Shelf<S>>()
    ensures { IsRecorded H.asks H.takes }
{}

/// There are none where no request is a merge. So the premise of a promise is then one of the stores in hand alone.
pub fn none_without_a_merge<S: Alter, H: Shelf<S>>()
    ensures { IsGivenNone H.asks H.takes }
{}
