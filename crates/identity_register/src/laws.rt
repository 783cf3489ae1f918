//! Laws of the reading of stores, each the contract of a function that does nothing.
ghost use Rattle.identity_register.specs.Laws.{ReadsAlone, TreesReadAlone};

/// A store reads as at most one package.
pub fn reads_alone()
    ensures { ReadsAlone }
{}

/// Trees read as at most one package, by any schema that they list.
pub fn trees_read_alone()
    ensures { TreesReadAlone }
{}
