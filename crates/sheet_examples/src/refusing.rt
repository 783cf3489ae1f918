//! The reasons of refusal, each with what it refuses and what it lets pass.
ghost use Rattle.sheet_examples.specs.Refusing.{ReusedIdentity, NotLive, UsedName, Moments, BadTexts, Sizes};
ghost use Rattle.sheet_examples.specs.Refusing.{UsedIdentity, UnknownItems, WrongKinds, BadPlaces, TakenPlaces};
ghost use Rattle.sheet_examples.specs.Refusing.{LinksThere, UnknownLinks, LinkedItems, NotLent, TornLinks};
ghost use Rattle.sheet_examples.specs.Refusing.{ForeignAndStale, OpenLoans, Collisions};

/// A kept request's identity comes with another line.
pub fn reused_identity()
    ensures { ReusedIdentity }
{}

/// A package that is not live, in each command.
pub fn not_live()
    ensures { NotLive }
{}

/// A loan is to have a name that is or was in use.
pub fn used_name()
    ensures { UsedName }
{}

/// Texts that are moments, and texts that are none.
pub fn moments()
    ensures { Moments }
{}

/// A moment, a content type or a label that is none.
pub fn bad_texts()
    ensures { BadTexts }
{}

/// Sizes and codes at their limits.
pub fn sizes()
    ensures { Sizes }
{}

/// An identity that was added before.
pub fn used_identity()
    ensures { UsedIdentity }
{}

/// An item that the package has not.
pub fn unknown_items()
    ensures { UnknownItems }
{}

/// Ends of other kinds than the mapping asks.
pub fn wrong_kinds()
    ensures { WrongKinds }
{}

/// Places and points off the sheet.
pub fn bad_places()
    ensures { BadPlaces }
{}

/// Places that tiles have.
pub fn taken_places()
    ensures { TakenPlaces }
{}

/// A link that is there.
pub fn links_there()
    ensures { LinksThere }
{}

/// A link that is not there.
pub fn unknown_links()
    ensures { UnknownLinks }
{}

/// An item that a link names.
pub fn linked_items()
    ensures { LinkedItems }
{}

/// A bad rectangle, a loan too deep, and nothing inside.
pub fn not_lent()
    ensures { NotLent }
{}

/// A strict cut that would tear a link; it names the least item of the cut that has one.
pub fn torn_links()
    ensures { TornLinks }
{}

/// A package that is not the parent, and a ticket that is not the loan's.
pub fn foreign_and_stale()
    ensures { ForeignAndStale }
{}

/// A loan that lent; it names the least of its loans.
pub fn open_loans()
    ensures { OpenLoans }
{}

/// Of the loan's tiles whose place was taken the first by place.
pub fn collisions()
    ensures { Collisions }
{}
