//! A store in which no package came to be made.
ghost use Rattle.std.specs.Prelude.{◌≡◌};

use package_tables::fault::Fault;
use sqlite::{Alter, Connection};

/// Why no package was made, and the connection that was to hold it.
#[derive(Drop)]
pub struct Unmade<S: Alter + Drop> {
    pub conn: Connection<S>,
    pub why: Fault,
}

impl<S: Alter + Drop> From<Unmade<S>> for Fault {
    ghost from_gives = { λ unmade fault. fault ≡ unmade.why };

    fn from(unmade: Unmade<S>) -> Fault {
        unmade.why
    }
}
