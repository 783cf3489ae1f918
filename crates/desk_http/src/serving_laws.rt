//! A law of what is served, the contract of a function that does nothing.
ghost use Rattle.desk_http.specs.Served.{DueIsServed};

use sqlite::Alter;

/// What `serve_one` writes is what the model serves, in each world that the value stood for.
pub fn due_is_served<S: Alter + Drop>()
    ensures { DueIsServed S.Store }
{}
