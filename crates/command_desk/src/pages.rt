//! Pages and projects of a world that stays.
ghost use Rattle.desk_http.specs.Connections.{IsServedBy};
ghost use Rattle.view_field.specs.Projects.{EndsProject};
ghost use Rattle.view_page.specs.Pages.{ShowsOver};

use command_folder::endings::Ending;
use sqlite::Alter;
use std::alloc::Global;
use std::io::Write;
use uuid::Uuid;
use view_field::projects::project_in;
use view_page::pages::{Paper, report_over};
use view_report::registers::Name;
use world::world::World;

/// Writes what is asked of the register of a world, with these names.
pub fn show_page<S: Alter + Drop, W: Write>(
    alloc: Global,
    world: &mut World<S>,
    names: Vec<Name>,
    paper: Paper,
    writer: &mut W,
) -> Ending
    ensures page { ShowsOver S.Store names.items paper world.old world.new
        writer.old writer.new (W.contents writer.old) (W.contents writer.new) result }
    ensures served { IsServedBy S.Store 1 world.old world.new }
{
    report_over(alloc, world, names, paper, writer)
}

/// Writes the project of an export of a live package, for a file of this name that lies beside it.
pub fn show_project<S: Alter + Drop, W: Write>(
    alloc: Global,
    world: &mut World<S>,
    package: Uuid,
    name: &str,
    writer: &mut W,
) -> Ending
    ensures project { EndsProject S.Store «package» name.now world.old
        writer.old writer.new (W.contents writer.old) (W.contents writer.new) result }
    ensures served { IsServedBy S.Store 1 world.old world.new }
{
    project_in(alloc, world, package, name, writer)
}
