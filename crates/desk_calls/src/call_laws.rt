//! A law of calls, the contract of a function that does nothing. With it the clauses of `read_call`
//! are exact: what a connection asks is one call, whatever the pieces its bytes come in.
ghost use Rattle.desk_calls.specs.Calls.{IsOneCall};

/// The bytes of a connection ask one call at most.
pub fn is_one_call()
    ensures { IsOneCall }
{}
