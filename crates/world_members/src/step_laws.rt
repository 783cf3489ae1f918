//! What a request makes of a world, by what is kept of it, so that a request is carried out without
//! looking over the whole world. Each law is the contract of a function that does nothing.
ghost use Rattle.world_members.specs.Steps.{FitsWhereAccepted, NothingAgainstAccepted, RefusedInTurn};
ghost use Rattle.world_members.specs.Steps.{RefusedAsUnknown, BytesWithin, SumsAfter, TooManyBySums, TicketAfter};
ghost use Rattle.world_members.specs.Steps.{KeptOutcome, ReusedOutcome, RefusedOutcome, AcceptedOutcome};

/// The receipt of a request to change one package that nothing speaks against is new to its
/// package, which is as the command's change needs it.
pub fn fits_where_accepted()
    ensures { FitsWhereAccepted }
{}

/// Nothing speaks against a request to change one package that is new and not refused.
pub fn nothing_against_accepted()
    ensures { NothingAgainstAccepted }
{}

/// A new request to change one package that is live is refused for its text, else for a used
/// identity, else by its package, else for what would be too many.
pub fn refused_in_turn()
    ensures { RefusedInTurn }
{}

/// A new request to change one package that is not live is refused for that.
pub fn refused_as_unknown()
    ensures { RefusedAsUnknown }
{}

/// After a command that fits it, a package holds what it held and what came in, or what it held
/// less what went out, which was there.
pub fn sums_after_command()
    ensures { SumsAfter }
{}

/// The bytes of a package are no more than so many items can have.
pub fn bytes_within()
    ensures { BytesWithin }
{}

/// Whether a request would leave too many is told by what each package holds and by two numbers.
pub fn too_many_by_sums()
    ensures { TooManyBySums }
{}

/// The ticket of the package that such a command names is its receipt's number, and every other stays.
pub fn ticket_after()
    ensures { TicketAfter }
{}

/// A request that comes again with its line gets the receipt that is kept, and nothing is changed.
pub fn kept_outcome()
    ensures { KeptOutcome }
{}

/// A request whose identity is kept for another line is refused for it.
pub fn reused_outcome()
    ensures { ReusedOutcome }
{}

/// A request that is new and refused is told the refusal, and nothing is changed.
pub fn refused_outcome()
    ensures { RefusedOutcome }
{}

/// A request to change one package that is new and not refused gets its receipt, and changes the
/// one package that it names.
pub fn accepted_outcome()
    ensures { AcceptedOutcome }
{}
