//! The manifest of a live package, made whole and then written.
ghost use Rattle.std.specs.Prelude.{◌≡◌};
ghost use Rattle.world.specs.Worlds.{IsRead};
ghost use Rattle.manifest_csv.specs.PackageManifests.{IsManifest, WritesNothing};

use crate::questions::{ManifestText, is_large};
use crate::sending::{WriteFault, send};
use package_tables::fault::Fault;
use sheet_types::error::OutOfMemory;
use sqlite::Alter;
use std::alloc::Global;
use std::io::Write;
use uuid::Uuid;
use world::world::World;

/// Why a manifest was not written.
#[derive(Clone, Copy, PartialEq, Eq)]
pub enum ManifestFault {
    /// The package is not live.
    Unknown,
    /// A growth was refused, or a store failed.
    Failed(Fault),
    /// The writer failed. A beginning of the manifest went out, and not all of it.
    Unwritten,
}

impl From<Fault> for ManifestFault {
    ghost use Rattle.manifest_csv.specs.declared.package_manifests.ManifestFault.TheVariants.{Failed};

    ghost from_gives = { λ fault why. why ≡ Failed fault };

    fn from(fault: Fault) -> ManifestFault {
        ManifestFault::Failed(fault)
    }
}

impl From<OutOfMemory> for ManifestFault {
    ghost use Rattle.manifest_csv.specs.declared.package_manifests.ManifestFault.TheVariants.{Failed};
    ghost use Rattle.package_tables.specs.declared.fault.Fault.TheVariants as fault;

    ghost from_gives = { λ want why. why ≡ Failed fault.OutOfMemory };

    fn from(_want: OutOfMemory) -> ManifestFault {
        ManifestFault::Failed(Fault::OutOfMemory)
    }
}

impl From<WriteFault> for ManifestFault {
    ghost use Rattle.manifest_csv.specs.declared.package_manifests.ManifestFault.TheVariants.{Unwritten};

    ghost from_gives = { λ fault why. why ≡ Unwritten };

    fn from(_fault: WriteFault) -> ManifestFault {
        ManifestFault::Unwritten
    }
}

/// Writes the manifest of a package: a line for each item, by kind and identity, and then for each
/// link, by mapping, base and medium. The text is made whole before any of it is written. Of a
/// package of many bytes one content is in memory at a time.
///
/// # Errors
///
/// A package that is not live, want of memory, a store or a writer that failed. The world is as before.
pub fn write_manifest<S: Alter + Drop, W: Write>(
    alloc: Global,
    world: &mut World<S>,
    package: Uuid,
    writer: &mut W,
) -> Result<(), ManifestFault>
    ensures read { IsRead S.Store world.old world.new }
    ensures written { IsManifest S.Store «package» world.old world.new (W.contents writer.old) (W.contents writer.new)
        result }
    ensures nothing { WritesNothing writer.old writer.new result }
{
    let question = ManifestText {
        by_items: is_large(world, package),
    };
    let Some(text) = world.ask(alloc, package, &question)? else {
        return Err(ManifestFault::Unknown);
    };
    send(writer, text.as_slice())?;
    Ok(())
}
