//! The way of the item that a word names. The item may be deleted since.
ghost use Rattle.std.specs.Prelude.{◌≡◌, IfOk, IsOkAnd, option_map, string_bytes};
ghost use Rattle.view_searches.specs.Ways.{IsNamedWay};
ghost use Rattle.command_named.specs.Ways.{ShowsNamed, TellsFound, TellsNamed, TellsWay, way_hint};
ghost use Rattle.views.specs.Showing.{PrintsAll};

use crate::telling::tell_fault;
use command_folder::endings::{DONE, FAILED};
use command_names::hints::{Hint, Whose};
use command_names::searching::Found;
use command_searches::hints::hint_of;
use command_tidying::register::Register;
use command_verbs::names::NameFault;
use command_verbs::verbs::VerbFault;
use commands::registers::{register_in, register_of};
use manifest_csv::sending::send;
use package_tables::fault::Fault;
use sqlite::{Alter, Connection};
use std::alloc::Global;
use std::io::Write;
use view_json::forms::Form;
use view_searches::ways::{NamedWay, named_way};
use views::endings::Ending;
use views::showing::fault_ending;
use world::world::World;

/// What is found for a word among all items that receipts added, and the way of the one that it names.
fn way_by(
    alloc: Global,
    form: Form,
    register: &Result<Register, Fault>,
    word: &str,
) -> Result<NamedWay, Fault>
    ensures { IfOk result (λ it. IsOkAnd register.now (λ told. IsNamedWay form told.receipts.items word.now it)) }
{
    match register {
        Ok(register) => match named_way(alloc, form, register.receipts.as_slice(), word) {
            Ok(it) => Ok(it),
            Err(_) => Err(Fault::OutOfMemory),
        },
        Err(fault) => Err(*fault),
    }
}

/// What comes nearest to a word that names none.
fn hint_after<'t>(word: &'t str, way: &Result<NamedWay, Fault>) -> Option<Hint<'t>>
    ensures { result ≡ way_hint word.entry way.now }
{
    match way {
        Ok(it) => hint_of(Whose::Item, word, it.found),
        Err(_) => None,
    }
}

/// Writes a text.
fn show_text<W: Write>(text: &str, writer: &mut W) -> Ending
    ensures { PrintsAll text.now (W.contents writer.old) (W.contents writer.new) result }
{
    match send(writer, text.as_bytes()) {
        Ok(()) => Ending::Usual(DONE),
        Err(_) => Ending::Usual(FAILED),
    }
}

/// Writes the way; or tells that two may be named, or none.
fn tell_found<W: Write>(alloc: Global, it: &NamedWay, writer: &mut W) -> Ending
    ensures { TellsFound writer.old writer.new (W.contents writer.old) (W.contents writer.new)
        it.now.found (option_map string_bytes it.now.text) result }
{
    if let Found::Two(first, second) = it.found {
        let fault = VerbFault::Unfound(NameFault::Two(first, second));
        return tell_fault(alloc, &fault, writer);
    }
    match &it.text {
        Some(text) => show_text(text.as_str(), writer),
        None => Ending::NoSuchIdentity,
    }
}

/// The same; or tells what gave out.
fn tell_way<W: Write>(alloc: Global, way: &Result<NamedWay, Fault>, writer: &mut W) -> Ending
    ensures { TellsWay writer.old writer.new (W.contents writer.old) (W.contents writer.new) way.now result }
{
    match way {
        Ok(it) => tell_found(alloc, it, writer),
        Err(fault) => fault_ending(*fault),
    }
}

/// Prints the way of the item that a word names, of all that ever were, in this form. The stores of the world are
/// handed on. Where the word names none, what comes nearest is told beside it.
pub fn named_way_in<'t, S: Alter + Drop, W: Write>(
    alloc: Global,
    world: World<S>,
    form: Form,
    word: &'t str,
    writer: &mut W,
) -> (Ending, Option<Hint<'t>>, Vec<Connection<S>>)
    ensures { ShowsNamed S.Store form word.entry world result.2.items writer.old writer.new
        (W.contents writer.old) (W.contents writer.new) result.0 result.1 }
{
    let (register, stores) = register_of(alloc, world);
    let way = way_by(alloc, form, &register, word);
    let hint = hint_after(word, &way);
    let ending = tell_way(alloc, &way, writer);
    (ending, hint, stores)
}

/// The same of a world that stays.
pub fn tell_named_way<'t, S: Alter + Drop, W: Write>(
    alloc: Global,
    world: &mut World<S>,
    form: Form,
    word: &'t str,
    writer: &mut W,
) -> (Ending, Option<Hint<'t>>)
    ensures { TellsNamed S.Store form word.entry world.old world.new writer.old writer.new
        (W.contents writer.old) (W.contents writer.new) result.0 result.1 }
{
    let register = register_in(alloc, world);
    let found = way_by(alloc, form, &register, word);
    let hint = hint_after(word, &found);
    let ending = tell_way(alloc, &found, writer);
    (ending, hint)
}
