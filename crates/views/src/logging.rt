//! The ledger of a world.
ghost use Rattle.views.specs.Views.{ShowsLog, TellsLog};

use crate::endings::Ending;
use crate::showing::show;
use sqlite::{Alter, Connection};
use std::alloc::Global;
use std::io::Write;
use view_json::forms::Form;
use view_text::ledgers::Excerpt;
use view_world::ledgers::{log_of, log_text_in};
use world::world::World;

/// Writes the receipts of a world that are asked for, whose stores are handed on.
pub fn log_in<S: Alter + Drop, W: Write>(
    alloc: Global,
    world: World<S>,
    form: Form,
    excerpt: &Excerpt<'_>,
    writer: &mut W,
) -> (Ending, Vec<Connection<S>>)
    ensures { ShowsLog S.Store form excerpt.now world result.1.items writer.old writer.new (W.contents writer.old)
        (W.contents writer.new) result.0 }
{
    let (text, stores) = log_of(alloc, world, form, excerpt);
    let ending = show(writer, text);
    (ending, stores)
}

/// The same of a world that stays.
pub fn tell_log<S: Alter + Drop, W: Write>(
    alloc: Global,
    world: &mut World<S>,
    form: Form,
    excerpt: &Excerpt<'_>,
    writer: &mut W,
) -> Ending
    ensures { TellsLog S.Store form excerpt.now world.old world.new writer.old writer.new (W.contents writer.old)
        (W.contents writer.new) result }
{
    let text = log_text_in(alloc, world, form, excerpt);
    show(writer, text)
}
