//! The whole project of an export.
ghost use Rattle.std.specs.Prelude.{◌≡◌, IfOk, string_bytes};
ghost use Rattle.view_report.specs.Escaping.{raw_text};
ghost use Rattle.view_project.specs.Projects.{canvas, extent, framed, project, reference_system, side, system_of};

use crate::layers::layers;
use crate::parts::{beginning, closing, opening, relations, tree};
use sheet_types::error::OutOfMemory;
use sheet_types::frame::Frame;
use std::alloc::{AllocError, Global};
use view_export::literals::Thousandths;
use view_report::escaping::put_raw;

/// A name, fit for the text of an element.
fn escape_name(alloc: Global, name: &str) -> Result<String, AllocError>
    ensures { IfOk result (λ text. string_bytes text ≡ raw_text name.now) }
{
    let mut text = String::new(alloc);
    put_raw(&mut text, name)?;
    Ok(text)
}

/// A reference system by its EPSG number; none for a frame that has none.
fn reference_system(alloc: Global, srs_id: i64) -> Result<String, AllocError>
    ensures { IfOk result (λ text. string_bytes text ≡ reference_system srs_id) }
{
    if srs_id > 0 {
        format!(in alloc;
            "<spatialrefsys><srsid>1</srsid><authid>EPSG:{srs_id}</authid></spatialrefsys>"
        )
    } else {
        Ok(String::new(alloc))
    }
}

/// A bound in whole units, as the element of this name.
fn side(alloc: Global, name: &str, bound: i64) -> Result<String, AllocError>
    ensures { IfOk result (λ text. string_bytes text ≡ side name.now bound) }
{
    let bound = Thousandths(bound);
    format!(in alloc; "<{name}>{bound}</{name}>")
}

/// The bounds of a frame.
fn extent(alloc: Global, frame: &Frame) -> Result<String, AllocError>
    ensures { IfOk result (λ text. string_bytes text ≡ extent frame.now) }
{
    let west = side(alloc, "xmin", frame.min_x)?;
    let south = side(alloc, "ymin", frame.min_y)?;
    let east = side(alloc, "xmax", frame.max_x)?;
    let north = side(alloc, "ymax", frame.max_y)?;
    format!(in alloc; "{west}{south}{east}{north}")
}

/// The reference system of the project.
fn system_of(alloc: Global, system: &str) -> Result<String, AllocError>
    ensures { IfOk result (λ text. string_bytes text ≡ system_of system.now) }
{
    format!(in alloc; "<projectCrs>{system}</projectCrs>\n")
}

/// What is seen where the project opens: the whole frame.
fn canvas(alloc: Global, extent: &str, system: &str) -> Result<String, AllocError>
    ensures { IfOk result (λ text. string_bytes text ≡ canvas extent.now system.now) }
{
    format!(in alloc;
        "<mapcanvas name=\"theMapCanvas\"><extent>{extent}</extent><destinationsrs>{system}</destinationsrs></mapcanvas>\n"
    )
}

/// What stands before the layers.
fn project_head(alloc: Global, extent: &str, system: &str) -> Result<String, AllocError>
    ensures { IfOk result (λ text. string_bytes text ≡ framed extent.now system.now) }
{
    let beginning = beginning();
    let own = system_of(alloc, system)?;
    let tree = tree();
    let canvas = canvas(alloc, extent, system)?;
    let opening = opening();
    format!(in alloc; "{beginning}{own}{tree}{canvas}{opening}")
}

fn write_project(alloc: Global, frame: &Frame, name: &str) -> Result<String, AllocError>
    ensures { IfOk result (λ text. string_bytes text ≡ project frame.now name.now) }
{
    let file = escape_name(alloc, name)?;
    let system = reference_system(alloc, frame.srs_id)?;
    let extent = extent(alloc, frame)?;
    let framed = project_head(alloc, extent.as_str(), system.as_str())?;
    let layers = layers(alloc, file.as_str(), system.as_str())?;
    let relations = relations();
    let closing = closing();
    format!(in alloc; "{framed}{layers}{relations}{closing}")
}

/// The project of an export of this frame, for a file of this name that lies beside it.
///
/// # Errors
///
/// Want of memory.
pub fn project(alloc: Global, frame: &Frame, name: &str) -> Result<String, OutOfMemory>
    ensures { IfOk result (λ text. string_bytes text ≡ project frame.now name.now) }
{
    Ok(write_project(alloc, frame, name)?)
}
