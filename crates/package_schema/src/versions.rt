//! The two versions that a store may be of (profile): the first has no table of the third mapping.
ghost use Rattle.std.specs.Prelude.{◌≡◌};
ghost use Rattle.package_schema.specs.Heads.{version_number};

/// A version that a store may say in its head.
#[derive(Clone, Copy, PartialEq, Eq)]
pub enum Version {
    First,
    Second,
}

impl Version {
    /// The number that the head says.
    pub fn number(self) -> i64
        ensures { result ≡ version_number self }
    {
        match self {
            Version::First => 1,
            Version::Second => 2,
        }
    }
}
