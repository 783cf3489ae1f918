//! What is looked at in a folder: the words, and the one place where its stores are opened for it.
//! All that is made of a world stands in functions over any store.
ghost use Rattle.std.specs.Prelude.{◌≡◌, MatchResult, Some};
ghost use Rattle.uuid.specs.Text.{parsed_hyphenated};
ghost use Rattle.views.specs.Looks.{Asks, IsNoUuid, IsUnread, Looked, Looks, LooksOver, OpensFor, unopened};

use crate::auditing::audit_in;
use crate::contents::get_in;
use crate::endings::Ending;
use crate::excerpts::{LogWords, asked_excerpt};
use crate::explaining::{explain_in, tell_way};
use crate::exporting::export_in;
use crate::logging::{log_in, tell_log};
use crate::manifest::manifest_in;
use crate::maps::map_in;
use crate::receipts::receipt_in;
use crate::status::{status_in, tell_status};
use crate::zooms::asked_zoom;
use command_folder::endings::{Ending as CommandEnding, OpenFault};
use command_folder::folders::{OpenFolder, open_folder};
use command_words::statuses::{Outcome, What};
use sheet_types::reading::read_uuid;
use sqlite::{Alter, Connection};
use sqlite_trees::store::Store;
use std::alloc::Global;
use std::io::Write;
use store_folder::opening::close_stores;
use store_folder::start::FolderStore;
use uuid::Uuid;
use view_json::forms::Form;
use view_text::ledgers::Excerpt;
use world::world::World;

/// What is looked at, by its words as they were typed.
#[derive(Clone, Copy)]
pub enum Asked<'t> {
    /// A line for each live package, by UUID.
    Status(Form),
    /// A line for each receipt that is asked for, by number.
    Log(Form, LogWords<'t>),
    /// What stands in the item of this name.
    Get(&'t str),
    /// A line for each receipt that names this identity, by number, and where the item stands now.
    Explain(Form, &'t str),
    /// The kept receipt of this request, as the desk has it, on a line.
    Receipt(&'t str),
    /// The manifest of this package.
    Manifest(&'t str),
    /// The SQL of this package.
    Export(&'t str),
    /// The map of this zoom; or of the one that is drawn where there is no word.
    Map(Option<&'t str>),
    /// How many receipts there are; or the fault by which the folder is no world.
    Audit,
}

/// The same, the words read.
#[derive(Clone, Copy)]
pub enum Look<'t> {
    Status(Form),
    Log(Form, Excerpt<'t>),
    Get(&'t str),
    Explain(Form, Uuid),
    Receipt(Uuid),
    Manifest(Uuid),
    Export(Uuid),
    Map(Option<i64>),
    Audit,
}

/// The UUID of a word.
fn uuid_of(word: &str) -> Result<Uuid, What>
    ensures { MatchResult result
        (λ uuid. parsed_hyphenated word.now ≡ Some uuid) (IsNoUuid word.now) }
{
    match read_uuid(word) {
        Some(uuid) => Ok(uuid),
        None => Err(What::BadUuid),
    }
}

/// What words ask to look at.
///
/// # Errors
///
/// Why the words cannot be read.
pub fn read_asked(asked: Asked<'_>) -> Result<Look<'_>, What>
    ensures { MatchResult result (Asks asked.entry) (IsUnread asked.entry) }
{
    match asked {
        Asked::Status(form) => Ok(Look::Status(form)),
        Asked::Log(form, words) => match asked_excerpt(&words) {
            Some(excerpt) => Ok(Look::Log(form, excerpt)),
            None => Err(What::BadNumber),
        },
        Asked::Get(identity) => Ok(Look::Get(identity)),
        Asked::Explain(form, identity) => Ok(Look::Explain(form, uuid_of(identity)?)),
        Asked::Receipt(request) => Ok(Look::Receipt(uuid_of(request)?)),
        Asked::Manifest(package) => Ok(Look::Manifest(uuid_of(package)?)),
        Asked::Export(package) => Ok(Look::Export(uuid_of(package)?)),
        Asked::Map(zoom) => match asked_zoom(zoom) {
            Some(zoom) => Ok(Look::Map(zoom)),
            None => Err(What::BadNumber),
        },
        Asked::Audit => Ok(Look::Audit),
    }
}

/// Prints what is looked at of a world, whose stores are handed on. So many stores of its folder are not of it.
pub fn look_in<S: Alter + Drop, W: Write>(
    alloc: Global,
    mut world: World<S>,
    strays: u64,
    look: &Look<'_>,
    writer: &mut W,
) -> (Ending, Vec<Connection<S>>)
    ensures { Looked S.Store strays world result.1.items
        writer.old writer.new (W.contents writer.old) (W.contents writer.new) look.now result.0 }
{
    match look {
        Look::Status(form) => status_in(alloc, world, *form, strays, writer),
        Look::Log(form, excerpt) => log_in(alloc, world, *form, excerpt, writer),
        Look::Get(identity) => {
            let ending = get_in(alloc, &mut world, *identity, writer);
            (ending, world.into_stores())
        }
        Look::Explain(form, identity) => explain_in(alloc, world, *form, *identity, writer),
        Look::Receipt(request) => {
            let ending = receipt_in(alloc, &mut world, *request, writer);
            (ending, world.into_stores())
        }
        Look::Manifest(package) => {
            let told = manifest_in(alloc, &mut world, *package, writer);
            (Ending::Usual(told), world.into_stores())
        }
        Look::Export(package) => {
            let told = export_in(alloc, &mut world, *package, writer);
            (Ending::Usual(told), world.into_stores())
        }
        Look::Map(zoom) => {
            let ending = map_in(alloc, &mut world, *zoom, writer);
            (ending, world.into_stores())
        }
        Look::Audit => {
            let told = audit_in(alloc, &world, writer);
            (Ending::Usual(told), world.into_stores())
        }
    }
}

/// Prints what is looked at of a world that stays. So many stores of its folder are not of it.
pub fn look_over<S: Alter + Drop, W: Write>(
    alloc: Global,
    world: &mut World<S>,
    strays: u64,
    look: &Look<'_>,
    writer: &mut W,
) -> Ending
    ensures { LooksOver S.Store strays world.old world.new
        writer.old writer.new (W.contents writer.old) (W.contents writer.new) look.now result }
{
    match look {
        Look::Status(form) => tell_status(alloc, world, *form, strays, writer),
        Look::Log(form, excerpt) => tell_log(alloc, world, *form, excerpt, writer),
        Look::Get(identity) => get_in(alloc, world, *identity, writer),
        Look::Explain(form, identity) => tell_way(alloc, world, *form, *identity, writer),
        Look::Receipt(request) => receipt_in(alloc, world, *request, writer),
        Look::Manifest(package) => Ending::Usual(manifest_in(alloc, world, *package, writer)),
        Look::Export(package) => Ending::Usual(export_in(alloc, world, *package, writer)),
        Look::Map(zoom) => map_in(alloc, world, *zoom, writer),
        Look::Audit => Ending::Usual(audit_in(alloc, world, writer)),
    }
}

/// How a folder that is not opened ends the program: an audit tells its fault.
fn look_ending(look: &Look<'_>, fault: OpenFault) -> Ending
    ensures { result ≡ unopened look.now fault }
{
    match look {
        Look::Audit => Ending::Usual(CommandEnding::Faulted(fault)),
        _ => Ending::Usual(CommandEnding::Unopened(fault)),
    }
}

/// Opens a folder, and prints what is looked at of its world.
///
/// The one place where a folder's stores are handed to a function over any store: the check pays
/// for their type at each such call anew.
fn look_at<W: Write>(rt: &HostRuntime, folder: &str, look: &Look<'_>, writer: &mut W) -> Ending
    ensures { OpensFor ⟦<FolderStore as Store>⟧ look.now
        writer.old writer.new (W.contents writer.old) (W.contents writer.new) result }
{
    match open_folder(rt, folder) {
        Ok(
            OpenFolder {
                world,
                strays,
                lock: _lock,
            },
        ) => {
            let (ending, stores) = look_in(rt.alloc(), world, strays as u64, look, writer);
            close_stores(stores);
            ending
        }
        Err(fault) => look_ending(look, fault),
    }
}

/// Prints what words ask to look at of the packages of a folder. The words are read first: where
/// they cannot be, nothing is opened and nothing is written.
pub fn look_for<W: Write>(
    rt: &HostRuntime,
    folder: &str,
    asked: Asked<'_>,
    writer: &mut W,
) -> Ending
    ensures { Looks ⟦<FolderStore as Store>⟧ asked.entry
        writer.old writer.new (W.contents writer.old) (W.contents writer.new) result }
{
    match read_asked(asked) {
        Ok(look) => look_at(rt, folder, &look, writer),
        Err(what) => Ending::Usual(CommandEnding::Usual(Outcome::Refused(what))),
    }
}
