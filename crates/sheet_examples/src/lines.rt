//! Which texts are read as an entry.
ghost use Rattle.sheet_examples.specs.Lines.{ReadWhole, NoLines, BeginsAsSplit};

/// The lines of a split and of a merge, with numbers at their limits.
pub fn read_whole()
    ensures { ReadWhole }
{}

/// Texts that are the line of no command.
pub fn no_lines()
    ensures { NoLines }
{}

/// What only begins as the line of a split opens no loan.
pub fn begins_as_split()
    ensures { BeginsAsSplit }
{}
