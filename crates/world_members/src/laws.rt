//! How the judging of a request falls into parts, and where a command is carried out, each law the
//! contract of a function that does nothing.
ghost use Rattle.world_members.specs.Laws.{RefusedByParts, RefusedUnlessLive, CarriedOutInOne};

/// Where its package is live, a request to change one package is refused for the first of: an
/// identity reused, its text, an identity used, its package, and what would be too many.
pub fn refused_by_parts()
    ensures { RefusedByParts }
{}

/// Where its package is not live, a request to change one package is refused for an identity
/// reused, or else for its package.
pub fn refused_unless_live()
    ensures { RefusedUnlessLive }
{}

/// A request to change one package is carried out by the change of the one package that it names,
/// with its receipt in it; all others stay.
pub fn carried_out_in_one()
    ensures { CarriedOutInOne }
{}
