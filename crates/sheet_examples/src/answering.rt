//! What the reading calls answer, and what the ledger says of each package.
ghost use Rattle.sheet_examples.specs.Answering.{NewWorld, ListOfPackages, SumsOfPackages, HoldingsOfPackages};
ghost use Rattle.sheet_examples.specs.Answering.{KeptReceipts, WholeLedger, Custody, Account, OpenLoans};

/// A new world is one empty archive.
pub fn new_world()
    ensures { NewWorld }
{}

/// The live packages by UUID, each with its ticket.
pub fn list_of_packages()
    ensures { ListOfPackages }
{}

/// The sums of live packages.
pub fn sums_of_packages()
    ensures { SumsOfPackages }
{}

/// The holdings of live packages.
pub fn holdings_of_packages()
    ensures { HoldingsOfPackages }
{}

/// The kept receipt of a request, wherever it stands.
pub fn kept_receipts()
    ensures { KeptReceipts }
{}

/// All receipts by their numbers.
pub fn whole_ledger()
    ensures { WholeLedger }
{}

/// Where the last receipt that names a thing brought it.
pub fn custody()
    ensures { Custody }
{}

/// What came in less what went out.
pub fn account()
    ensures { Account }
{}

/// Of each split that no later merge undoes the loan and its number.
pub fn open_loans()
    ensures { OpenLoans }
{}
