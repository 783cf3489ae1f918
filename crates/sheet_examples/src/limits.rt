//! The last reason of refusal: more than a package, the register or the ledger may hold.
ghost use Rattle.sheet_examples.specs.Limits.{ManyPackages, FullPackage, FullLedger};

/// 256 packages may live, counted after the request.
pub fn many_packages()
    ensures { ManyPackages }
{}

/// A package may hold a million items of a kind and four million links.
pub fn full_package()
    ensures { FullPackage }
{}

/// The ledger may hold 1,000,000,000 receipts; a package past its limits anywhere is too many.
pub fn full_ledger()
    ensures { FullLedger }
{}
