//! Laws of the opening of a register's stores, each the contract of a function that does nothing.
ghost use Rattle.opening_laws.specs.Laws.{ViewsOfStores, OpensAgain, MeetsNoFault, StraysAreTold, OpenedIsTimely};
ghost use Rattle.opening_laws.specs.Laws.{RestIsStores, RestIsOpened, RestSurvives, LeftIsStores, CrashIsOpened};
ghost use Rattle.opening_laws.specs.Laws.{OneRegisterOfStores};

use sqlite::Alter;

/// Right views of a register's stores are those of its packages, with views of strays beside them.
pub fn views_of_stores<S: Alter + Drop>()
    ensures { ViewsOfStores S.Store }
{}

/// What `recover` gives of the stores of a register stands for it.
pub fn opens_again<S: Alter + Drop>()
    ensures { OpensAgain S.Store }
{}

/// Of the stores of a register `recover` tells none of the nine faults: where it gives no world,
/// memory or a store gave out.
pub fn meets_no_fault<S: Alter + Drop>()
    ensures { MeetsNoFault S.Store }
{}

/// What `recover` hands out beside the world are the strays.
pub fn strays_are_told<S: Alter + Drop>()
    ensures { StraysAreTold S.Store }
{}

/// The receipts of a world that was opened say moments.
pub fn opened_is_timely<S: Alter + Drop>()
    ensures { OpenedIsTimely S.Store }
{}

/// The stores that a usable world holds are those of the register that it stands for.
pub fn rest_is_stores<S: Alter + Drop>()
    ensures { RestIsStores S.Store }
{}

/// So a world at rest is opened again, whatever order its stores are handed in.
pub fn rest_is_opened<S: Alter + Drop>()
    ensures { RestIsOpened S.Store }
{}

/// Stores that are opened from whatever a crash left of a world at rest are its stores.
pub fn rest_survives<S: Alter + Drop>()
    ensures { RestSurvives S.Store }
{}

/// Stores that are opened from what a crash left of a world, whole, are stores of that world.
pub fn left_is_stores<S: Alter + Drop>()
    ensures { LeftIsStores S.Store }
{}

/// Whatever a crash leaves after a request that failed comes to the world before it, or to the
/// world that it was to make.
pub fn crash_is_opened<S: Alter + Drop>()
    ensures { CrashIsOpened S.Store }
{}

/// No list of stores is that of two registers.
pub fn one_register_of_stores<S: Alter + Drop>()
    ensures { OneRegisterOfStores S.Store }
{}
