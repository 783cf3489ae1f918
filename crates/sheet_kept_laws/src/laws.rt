//! Laws of the receipts that are kept, each the contract of a function that does nothing.
ghost use Rattle.sheet_kept_laws.specs.Laws.{StepExtendsLedger, RunExtendsLedger, StepKeepsKept, RunKeepsKept};
ghost use Rattle.sheet_kept_laws.specs.Laws.{AcceptedIsKept, OnceForGood, AcceptedForGood, OtherLineIsRefused};
ghost use Rattle.sheet_kept_laws.specs.Laws.{ActsOnce, StoppedActsOnce, RefusedAsUnasked, DoubledLosesReceipt};

/// A request adds at most its own receipt, behind all others.
pub fn step_extends_ledger()
    ensures { StepExtendsLedger }
{}

/// No list of requests loses, changes or moves a receipt.
pub fn run_extends_ledger()
    ensures { RunExtendsLedger }
{}

/// What is kept for an identity is kept for it after every request.
pub fn step_keeps_kept()
    ensures { StepKeepsKept }
{}

/// So it is after every list of requests.
pub fn run_keeps_kept()
    ensures { RunKeepsKept }
{}

/// A receipt that is given is kept for the request's identity.
pub fn accepted_is_kept()
    ensures { AcceptedIsKept }
{}

/// A request whose receipt is kept gets that receipt, whatever came between, and changes nothing.
pub fn once_for_good()
    ensures { OnceForGood }
{}

/// So does a request that was given one.
pub fn accepted_for_good()
    ensures { AcceptedForGood }
{}

/// Another command under an identity that was used is refused, whatever came between.
pub fn other_line_is_refused()
    ensures { OtherLineIsRefused }
{}

/// A request that got a receipt, and comes again behind others, acted once.
pub fn acts_once()
    ensures { ActsOnce }
{}

/// A request that was stopped, before it acted or after, and comes again, acts once.
pub fn stopped_acts_once()
    ensures { StoppedActsOnce }
{}

/// A list of requests comes to the same as those of it that got a receipt.
pub fn refused_as_unasked()
    ensures { RefusedAsUnasked }
{}

/// A world that is no register may lose a receipt, so that is asked.
pub fn doubled_loses_receipt()
    ensures { DoubledLosesReceipt }
{}
