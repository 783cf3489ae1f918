//! Laws of stores that read as packages of a register, each the contract of a function that does nothing.
ghost use Rattle.opening_laws_store.specs.Laws.{KeptStoreIsWhole, HeadIsKnown, LentHeadIsLow};

/// A store that reads as a package of a register is whole and tied; head and claims are the package's.
pub fn kept_store_is_whole()
    ensures { KeptStoreIsWhole }
{}

/// The head that a store says is that of the package that it reads as.
pub fn head_is_known()
    ensures { HeadIsKnown }
{}

/// The head of a loan is not that of an archive.
pub fn lent_head_is_low()
    ensures { LentHeadIsLow }
{}
