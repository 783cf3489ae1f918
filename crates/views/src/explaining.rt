//! The way of one item through the packages of a world.
ghost use Rattle.views.specs.Views.{ShowsWay, TellsWay};

use crate::endings::Ending;
use crate::showing::show_found;
use sqlite::{Alter, Connection};
use std::alloc::Global;
use std::io::Write;
use uuid::Uuid;
use view_json::forms::Form;
use view_world::ways::{way_of, way_text_in};
use world::world::World;

/// Writes the way of an item through the packages of a world, whose stores are handed on.
pub fn explain_in<S: Alter + Drop, W: Write>(
    alloc: Global,
    world: World<S>,
    form: Form,
    identity: Uuid,
    writer: &mut W,
) -> (Ending, Vec<Connection<S>>)
    ensures { ShowsWay S.Store form identity world result.1.items writer.old writer.new (W.contents writer.old)
        (W.contents writer.new) result.0 }
{
    let (found, stores) = way_of(alloc, world, form, identity);
    let ending = show_found(writer, found, Ending::NoSuchIdentity);
    (ending, stores)
}

/// The same of a world that stays.
pub fn tell_way<S: Alter + Drop, W: Write>(
    alloc: Global,
    world: &mut World<S>,
    form: Form,
    identity: Uuid,
    writer: &mut W,
) -> Ending
    ensures { TellsWay S.Store form identity world.old world.new writer.old writer.new (W.contents writer.old)
        (W.contents writer.new) result }
{
    let found = way_text_in(alloc, world, form, identity);
    show_found(writer, found, Ending::NoSuchIdentity)
}
