//! A law of rows in their ranges.
ghost use Rattle.package_receipts.specs.Read.{RowsSayReceipts};

/// A law: rows of both tables, in order and in their ranges, are those of some receipts. Changes
/// nothing and takes no memory.
pub fn rows_say_receipts()
    ensures { RowsSayReceipts }
{}
