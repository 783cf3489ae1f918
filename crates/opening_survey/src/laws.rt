//! Laws of stores that are looked at, each the contract of a function that does nothing.
ghost use Rattle.opening_survey.specs.Laws.{ReadsAsAPackage};

/// A store that is whole, tied and unique reads as a package that keeps its own rules. Changes
/// nothing and takes no memory.
pub fn reads_as_a_package()
    ensures { ReadsAsAPackage }
{}
