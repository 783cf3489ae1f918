//! The export of a package of a world.
ghost use Rattle.std.specs.Prelude.{◌≡◌, Err};
ghost use Rattle.command_folder.specs.Endings.{manifest_ending};
ghost use Rattle.views.specs.ExportEndings.{EndsExport};

use crate::writing::write_export;
use command_folder::endings::{DONE, Ending};
use command_words::statuses::{Failure, Outcome};
use manifest_csv::package_manifests::ManifestFault;
use sqlite::Alter;
use std::alloc::Global;
use std::io::Write;
use uuid::Uuid;
use world::world::World;

/// How an export that was not written ends the program: as a manifest that was not.
fn end_of_export(fault: ManifestFault) -> Ending
    ensures { result ≡ manifest_ending (Err fault) }
{
    match fault {
        ManifestFault::Unknown => Ending::NoSuchPackage,
        ManifestFault::Failed(_) | ManifestFault::Unwritten => {
            Ending::Usual(Outcome::Stopped(Failure::from(fault)))
        }
    }
}

/// Writes the SQL of a package of a world.
pub fn export_in<S: Alter + Drop, W: Write>(
    alloc: Global,
    world: &mut World<S>,
    package: Uuid,
    writer: &mut W,
) -> Ending
    ensures { EndsExport S.Store «package» world.old world.new writer.old writer.new (W.contents writer.old)
        (W.contents writer.new) result }
{
    match write_export(alloc, world, package, writer) {
        Ok(()) => DONE,
        Err(fault) => end_of_export(fault),
    }
}
