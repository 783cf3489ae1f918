//! A law of the numbers in an export.
ghost use Rattle.view_export.specs.Laws.{AreWrittenAsLinked};

/// Each item, if no two have one identity, is written once, under the number by which links name it.
pub fn are_written_as_linked()
    ensures { AreWrittenAsLinked }
{}
