//! The live packages of a world, and how many stores are of none.
ghost use Rattle.views.specs.Views.{ShowsStatus, TellsStatus};

use crate::endings::Ending;
use crate::showing::show;
use sqlite::{Alter, Connection};
use std::alloc::Global;
use std::io::Write;
use view_json::forms::Form;
use view_world::packages::{status_of, status_text_in};
use world::world::World;

/// Writes the packages of a world, whose stores are handed on, and how many stores stand beside it.
pub fn status_in<S: Alter + Drop, W: Write>(
    alloc: Global,
    world: World<S>,
    form: Form,
    strays: u64,
    writer: &mut W,
) -> (Ending, Vec<Connection<S>>)
    ensures { ShowsStatus S.Store form strays world result.1.items writer.old writer.new (W.contents writer.old)
        (W.contents writer.new) result.0 }
{
    let (text, stores) = status_of(alloc, world, form, strays);
    let ending = show(writer, text);
    (ending, stores)
}

/// The same of a world that stays.
pub fn tell_status<S: Alter + Drop, W: Write>(
    alloc: Global,
    world: &mut World<S>,
    form: Form,
    strays: u64,
    writer: &mut W,
) -> Ending
    ensures { TellsStatus S.Store form strays world.old world.new writer.old writer.new (W.contents writer.old)
        (W.contents writer.new) result }
{
    let text = status_text_in(alloc, world, form, strays);
    show(writer, text)
}
