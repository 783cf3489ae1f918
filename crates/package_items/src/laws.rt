//! Laws of stored rows, each the contract of a function that does nothing.
ghost use Rattle.package_items.specs.Laws.{SaysWhatItHolds};

/// Rows that are in range, tied and unique are those of the items and links of a package.
pub fn says_what_it_holds()
    ensures { SaysWhatItHolds }
{}
