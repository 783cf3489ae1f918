//! A law of balanced worlds, the contract of a function that does nothing.
ghost use Rattle.sheet_balance.specs.Registers.{RegisterIsBalancedAndFit};

/// A world is a register exactly where it is balanced and fit: a balanced world needs besides a
/// good frame, one archive, fit packages, a live package for each open loan, and no altered item.
pub fn register_is_balanced_and_fit()
    ensures { RegisterIsBalancedAndFit }
{}
