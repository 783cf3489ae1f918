//! Laws of lists of requests, each the contract of a function that does nothing.
ghost use Rattle.field_run_laws.specs.Example.{VisitIsReady};
ghost use Rattle.field_run_laws.specs.Laws.{RunWithinOnePackage, GivenRunsAgree};
ghost use Rattle.field_run_laws.specs.Ready.{ReadyRunIsUnrefused};

/// New requests in one package, each of which got a receipt, did what they ask for, and nothing else changed.
pub fn run_within_one_package()
    ensures { RunWithinOnePackage }
{}

/// Without want of memory or a fault of the store, one list of requests has one end.
pub fn given_runs_agree()
    ensures { GivenRunsAgree }
{}

/// New requests in one package, each ready when its turn comes, are not refused.
pub fn ready_run_is_unrefused()
    ensures { ReadyRunIsUnrefused }
{}

/// An example: five requests of a new archive, one of each of the four commands and a second addition, are ready.
pub fn visit_is_ready()
    ensures { VisitIsReady }
{}
