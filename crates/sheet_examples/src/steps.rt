//! A step of the register, and a run of steps.
ghost use Rattle.sheet_examples.specs.Steps.{RefusedChangesNothing, KeptChangesNothing, FaultAnywhere, SmallRun};
ghost use Rattle.sheet_examples.specs.Steps.{OneReplyEach};

/// Whatever is refused, the world stays.
pub fn refused_changes_nothing()
    ensures { RefusedChangesNothing }
{}

/// Whatever was kept is answered as it is kept, and the world stays.
pub fn kept_changes_nothing()
    ensures { KeptChangesNothing }
{}

/// Want of memory and of the store may come in place of any reply.
pub fn fault_anywhere()
    ensures { FaultAnywhere }
{}

/// A run of four requests, of which one finds no memory, one is refused and one comes twice.
pub fn small_run()
    ensures { SmallRun }
{}

/// A run has one reply for each request.
pub fn one_reply_each()
    ensures { OneReplyEach }
{}
