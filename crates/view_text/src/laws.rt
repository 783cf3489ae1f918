//! A law of the lines, the contract of a function that does nothing.
ghost use Rattle.view_text.specs.Laws.{StandsWhereTold};

/// An item is held by the package in which its receipts say that it stands, and by no other.
/// Changes nothing and takes no memory.
pub fn stands_where_told()
    ensures { StandsWhereTold }
{}
