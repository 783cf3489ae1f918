//! Laws of views of a register's stores, each the contract of a function that does nothing.
ghost use Rattle.opening_laws_model.specs.Laws.{RegisterStands, RegisterHasNoFault, StraysAreApart, UnknownIsStray};
ghost use Rattle.opening_laws_model.specs.Laws.{NewWorldIsTimely, StepKeepsTimely, PackagesAreInBounds};
ghost use Rattle.opening_laws_model.specs.Laws.{RepeatGetsItsReceipt};

/// Views of a register's stores, in any order and with any strays beside them, stand for it.
pub fn register_stands()
    ensures { RegisterStands }
{}

/// So none of the nine faults of opening holds of them.
pub fn register_has_no_fault()
    ensures { RegisterHasNoFault }
{}

/// The live ones are those of its packages, and the strays are told apart.
pub fn strays_are_apart()
    ensures { StraysAreApart }
{}

/// A store without head is a stray of a register, and so is one that says it is a loan which is no package of it.
pub fn unknown_is_stray()
    ensures { UnknownIsStray }
{}

/// A new world has no receipts, so each says a moment.
pub fn new_world_is_timely()
    ensures { NewWorldIsTimely }
{}

/// Whatever is asked, each receipt says a moment, and there are no more than a world may have.
pub fn step_keeps_timely()
    ensures { StepKeepsTimely }
{}

/// So depths, numbers of loans, and the receipts of each package are such as the opening asks.
pub fn packages_are_in_bounds()
    ensures { PackagesAreInBounds }
{}

/// A request that got a receipt gets the same one in the world that it made.
pub fn repeat_gets_its_receipt()
    ensures { RepeatGetsItsReceipt }
{}
