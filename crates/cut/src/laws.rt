//! Which packages a cut can be taken of, each law as the contract of a function that does nothing.
ghost use Rattle.cut.specs.Laws.{KeptIsInOrder};

/// Each package of a register is in order.
pub fn kept_is_in_order()
    ensures { KeptIsInOrder }
{}
