//! Laws of a map, each the contract of a function that does nothing.
ghost use Rattle.view_map.specs.Laws.{EachIsDrawn, NoOtherIsDrawn, NoneIsDrawnBeside};

/// A place of the zoom has as many rectangles in a package's colour as the package has it: one where it has it once.
pub fn each_is_drawn()
    ensures { EachIsDrawn }
{}

/// There is no rectangle of a package that is not in the list.
pub fn no_other_is_drawn()
    ensures { NoOtherIsDrawn }
{}

/// There is none at a place that the zoom does not have.
pub fn none_is_drawn_beside()
    ensures { NoneIsDrawnBeside }
{}
