//! What adding, deleting, linking and unlinking answer.
ghost use Rattle.sheet_examples.specs.Adding.{Texts, FirstTile, NoSuchPlace, TileSizes, UsedForGood, LinkedMedium};
ghost use Rattle.sheet_examples.specs.Adding.{RowMediumAndLink};

/// A UUID as text, the bytes that are hashed of an item of each kind, and a digest.
pub fn texts()
    ensures { Texts }
{}

/// The first tile of a new archive: its line, its receipt, and the world that holds it.
pub fn first_tile()
    ensures { FirstTile }
{}

/// A column and a zoom that the sheet has not.
pub fn no_such_place()
    ensures { NoSuchPlace }
{}

/// Data of one byte and of 1,048,576 is taken, of none and of one more is not.
pub fn tile_sizes()
    ensures { TileSizes }
{}

/// A deleted identity is not used again, a link is.
pub fn used_for_good()
    ensures { UsedForGood }
{}

/// A linked medium stays; a tile is no base of a row's link.
pub fn linked_medium()
    ensures { LinkedMedium }
{}

/// What is held is listed by kind and identity.
pub fn row_medium_and_link()
    ensures { RowMediumAndLink }
{}
