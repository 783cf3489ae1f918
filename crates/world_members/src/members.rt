//! The live packages of a world, each with its open store and what is kept of it.
ghost use Rattle.std.specs.Prelude.{◌≡◌, ◌≤◌, length, count_by};
ghost use Rattle.sheet_types.specs.Ordered.{is_before};

use sheet_types::receipt::Sums;
use sheet_types::sorting::uuid_is_before;
use sqlite::{Alter, Connection};
use uuid::Uuid;

/// A live package: its store, its place in the register, and what is kept of it so that nothing is counted again.
#[derive(Drop)]
pub struct Member<S: Alter + Drop> {
    /// Its store.
    pub conn: Connection<S>,
    /// The package's own.
    pub uuid: Uuid,
    /// The package that it is lent from, none of the archive.
    pub parent: Option<Uuid>,
    /// How many loans it is below the archive.
    pub depth: u64,
    /// The number of the receipt of the split that made it, 0 of the archive.
    pub loan: u64,
    /// What the package holds.
    pub sums: Sums,
    /// The number of the last receipt that names the package, 0 where there is none.
    pub ticket: u64,
}

/// Where the member of a package comes that is not there: behind those whose UUID is less.
pub fn place_for<S: Alter + Drop>(members: &[Member<S>], uuid: Uuid) -> usize
    ensures place { result ≡ count_by (λ m. is_before m.uuid uuid) members.now }
    ensures within { result ≤ length members.now }
{
    members
        .iter()
        .filter(|member| uuid_is_before(member.uuid, uuid))
        .count()
}
