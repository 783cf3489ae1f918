//! Laws of request lists, each the contract of a function that does nothing. With them the clauses
//! of `read_requests` are exact: over a reader that tells its bytes, a list is answered by its
//! requests, and a text with a fault by that fault, or else by Read or Memory.
ghost use Rattle.request_csv.specs.ListLaws.{HasOneList, ListGoesOn, ListHasNoFault, OneIsFirst};

/// A text is a list of one list of requests at most.
pub fn has_one_list()
    ensures { HasOneList }
{}

/// A text that is a list meets no fault.
pub fn list_has_no_fault()
    ensures { ListHasNoFault }
{}

/// One fault is the first.
pub fn one_is_first()
    ensures { OneIsFirst }
{}

/// A text that is a list begins as one with the first of its requests, and with no others.
pub fn list_goes_on()
    ensures { ListGoesOn }
{}
