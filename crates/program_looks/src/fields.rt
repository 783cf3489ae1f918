//! What serves an edited file: the SQL that lists what it holds, for which no folder is opened, and the QGIS
//! project of an export.
use crate::naming::package_given;
use clap::ArgMatches;
use command_folder::endings::Ending;
use field_sql::listing::{holds, stock_holds};
use field_sql::stock::Points;
use program_output::options::text_of;
use program_output::printing::{out_of_memory, print_text};
use program_words::kinds::project_file;
use std::alloc::AllocError;
use std::io;
use view_field::projects::project_for;

/// The column of geometries where none is named, as most programs name it.
const GEOMETRY: &str = "geom";

/// Where the points of another program's file are, if any are named.
fn points_given<'m>(given: &ArgMatches<'m>) -> Option<Points<'m>> {
    let table = given.get_str("points")?;
    Some(Points {
        table,
        geometry: given.get_str("geometry").unwrap_or(GEOMETRY),
        code: text_of(given, "code"),
        label: text_of(given, "label"),
    })
}

/// The text for an export, or for the tables that are named.
fn text_for(rt: &HostRuntime, given: &ArgMatches<'_>) -> Result<String, AllocError> {
    let tiles = given.get_str("tiles");
    let points = points_given(given);
    if tiles.is_none() && points.is_none() {
        holds(rt.alloc())
    } else {
        stock_holds(rt.alloc(), tiles, points.as_ref())
    }
}

/// Prints the SQL that lists what an edited file holds, by the words of `holds`, and answers the exit status.
pub fn print_listing(rt: &HostRuntime, given: &ArgMatches<'_>) -> u8 {
    match text_for(rt, given) {
        Ok(text) => print_text(rt, text.as_str()),
        Err(_) => out_of_memory(rt),
    }
}

/// Prints the QGIS project of the export of the package that a word names, and answers how that ended; none where a
/// command asks for no such project.
pub fn print_project(
    rt: &HostRuntime,
    name: &str,
    given: &ArgMatches<'_>,
    word: &str,
) -> Option<Ending> {
    let file = project_file(name, given)?;
    let folder = text_of(given, "folder");
    Some(match package_given(rt, given, word) {
        Ok(package) => project_for(rt, folder, package.as_str(), file, &mut io::writer(rt)),
        Err(ending) => ending,
    })
}
