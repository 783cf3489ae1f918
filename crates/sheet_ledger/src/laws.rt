//! Laws of the parts of a balanced world, each the contract of a function that does nothing.
ghost use Rattle.sheet_ledger.specs.Parts.{BalancedIsItsParts, SoundIsItsParts};

/// A world is balanced exactly where it has all parts of `specs/Parts.antt`.
pub fn balanced_is_its_parts()
    ensures { BalancedIsItsParts }
{}

/// A ledger is sound exactly where it has all parts.
pub fn sound_is_its_parts()
    ensures { SoundIsItsParts }
{}
