//! Laws of stores of the first version, each the contract of a function that does nothing.
ghost use Rattle.package_v1.specs.Laws.{FirstReadsAlone, ReadsAtOneVersion};

/// At the first version a store reads as at most one package of a frame.
pub fn first_reads_alone()
    ensures { FirstReadsAlone }
{}

/// No store reads at both versions.
pub fn reads_at_one_version()
    ensures { ReadsAtOneVersion }
{}
