//! The manifest of a package of a world.
ghost use Rattle.std.specs.Prelude.{◌≡◌, Err};
ghost use Rattle.command_folder.specs.Endings.{manifest_ending};
ghost use Rattle.views.specs.Reports.{EndsManifest};

use command_folder::endings::{DONE, Ending};
use command_words::statuses::{Failure, Outcome};
use manifest_csv::package_manifests::{ManifestFault, write_manifest};
use sqlite::Alter;
use std::alloc::Global;
use std::io::Write;
use uuid::Uuid;
use world::world::World;

/// How a manifest that was not written ends the program.
fn end_of_manifest(fault: ManifestFault) -> Ending
    ensures { result ≡ manifest_ending (Err fault) }
{
    match fault {
        ManifestFault::Unknown => Ending::NoSuchPackage,
        ManifestFault::Failed(_) | ManifestFault::Unwritten => {
            Ending::Usual(Outcome::Stopped(Failure::from(fault)))
        }
    }
}

/// Writes the manifest of a package of a world.
pub fn manifest_in<S: Alter + Drop, W: Write>(
    alloc: Global,
    world: &mut World<S>,
    package: Uuid,
    writer: &mut W,
) -> Ending
    ensures { EndsManifest S.Store «package» world.old world.new writer.old writer.new (W.contents writer.old)
        (W.contents writer.new) result }
{
    match write_manifest(alloc, world, package, writer) {
        Ok(()) => DONE,
        Err(fault) => end_of_manifest(fault),
    }
}
