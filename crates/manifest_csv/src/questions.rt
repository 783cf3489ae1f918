//! What is asked of a package, so that of one of many bytes one content is in memory at a time.

use crate::by_items::{find_item, manifest_at_once, manifest_by_items, told_holdings};
use identity_register::one_by_one::AT_ONCE;
use package_tables::fault::Fault;
use sheet_types::command::{Item, Relation};
use sheet_types::receipt::Moved;
use sqlite::{Alter, Connection};
use std::alloc::Global;
use uuid::Uuid;
use world::asking::Question;
use world::world::World;

/// Whether a package is of so many bytes that its contents are read one at a time.
pub fn is_large<S: Alter + Drop>(world: &World<S>, package: Uuid) -> bool {
    match world.sums(package) {
        Some(sums) => sums.bytes > AT_ONCE,
        None => false,
    }
}

/// The manifest of a package.
#[derive(Clone, Copy)]
pub struct ManifestText {
    /// Its contents are read one at a time.
    pub by_items: bool,
}

impl<S: Alter> Question<S, Vec<u8>> for ManifestText {
    ghost use Rattle.std.specs.Prelude.{◌≡◌};
    ghost use Rattle.manifest_csv.specs.Manifests.{manifest_of};

    ghost tells = { λ question p text. text.items ≡ manifest_of p.items p.links };

    fn ask(&self, conn: &mut Connection<S>, alloc: Global) -> Result<Vec<u8>, Fault> {
        if self.by_items {
            manifest_by_items(conn, alloc)
        } else {
            manifest_at_once(conn, alloc)
        }
    }
}

/// What receipts tell of the items of a package, and its links.
#[derive(Clone, Copy)]
pub struct ToldHoldings;

impl<S: Alter> Question<S, (Vec<Moved>, Vec<Relation>)> for ToldHoldings {
    ghost use Rattle.manifest_csv.specs.ByItems.{AreTold};

    ghost tells = { λ question p held. AreTold p held.0.items held.1.items };

    fn ask(
        &self,
        conn: &mut Connection<S>,
        alloc: Global,
    ) -> Result<(Vec<Moved>, Vec<Relation>), Fault> {
        told_holdings(conn, alloc)
    }
}

/// The item of an identity.
#[derive(Clone, Copy)]
pub struct ItemOf {
    /// The identity.
    pub identity: Uuid,
}

impl<S: Alter> Question<S, Option<Item>> for ItemOf {
    ghost use Rattle.manifest_csv.specs.ByItems.{IsItemOf};

    ghost tells = { λ question p found. IsItemOf p question.identity found };

    fn ask(&self, conn: &mut Connection<S>, alloc: Global) -> Result<Option<Item>, Fault> {
        find_item(conn, self.identity)
    }
}
