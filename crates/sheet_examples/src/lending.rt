//! What a split takes, and what it leaves.
ghost use Rattle.sheet_examples.specs.Lending.{CutOverZooms, NothingInside, SharedMedium, FollowTwoRounds};
ghost use Rattle.sheet_examples.specs.Lending.{RowRelatedToATile, StrictTakesMedia, PlaceOfALoan};

/// Tiles of three zooms, of which a quarter of the sheet takes those inside.
pub fn cut_over_zooms()
    ensures { CutOverZooms }
{}

/// A rectangle in which nothing lies, and rectangles that the sheet has not.
pub fn nothing_inside()
    ensures { NothingInside }
{}

/// A medium that is linked to a tile inside and to a row outside, cut strictly and followed.
pub fn shared_medium()
    ensures { SharedMedium }
{}

/// Links are followed until nothing more is found.
pub fn follow_two_rounds()
    ensures { FollowTwoRounds }
{}

/// A row related to a tile outside: cut strictly, followed, and brought back.
pub fn row_related_to_a_tile()
    ensures { RowRelatedToATile }
{}

/// A strict cut takes the media of its tiles and rows with all their links.
pub fn strict_takes_media()
    ensures { StrictTakesMedia }
{}

/// The parent, the depth and the number of a loan; its split's receipt stands in the parent.
pub fn place_of_a_loan()
    ensures { PlaceOfALoan }
{}
