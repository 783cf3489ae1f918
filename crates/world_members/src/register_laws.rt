//! What each package of a register tells of the whole, so that a world is judged package by
//! package. Each law is the contract of a function that does nothing.
ghost use Rattle.world_members.specs.Register.{UsedIsNamed, NoneIsKept, KeptIsThere, NumberIsCount};

/// An identity is used where a receipt of some package names it as that of an item.
pub fn used_is_named()
    ensures { UsedIsNamed }
{}

/// No receipt is kept for a request of which no package has one.
pub fn none_is_kept()
    ensures { NoneIsKept }
{}

/// The receipt that a package has for a request is the one that is kept.
pub fn kept_is_there()
    ensures { KeptIsThere }
{}

/// There are as many receipts as the greatest number that a package has says.
pub fn number_is_count()
    ensures { NumberIsCount }
{}
