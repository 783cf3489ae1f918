//! The tiles of a tree, added one after the other.
ghost use Rattle.std.specs.Prelude.{◌≡◌, ◌<◌, ◌+◌, ◌^◌, ◌++◌, ◌∷◌, [], ℕ, Bool, List};
ghost use Rattle.std.specs.Prelude.{Option, Some, IfOk, option_map};
ghost use Rattle.command_verbs.specs.declared.areas.Place.{Place};
ghost use Rattle.command_trees.specs.Adding.{AddsBytes, AddsFile, AddsFiles, AddsTile, AreCounted, IsAddition};

use command_plans::places::{is_there, place_of};
use command_plans::requests::{Identities, PlanFault, request_from};
use command_verbs::areas::Place;
use package_tables::fault::Fault;
use sheet_types::collections::Bytes;
use sheet_types::command::{Command, Content, Item, Request};
use sheet_types::refusal::Refusal;
use sqlite::Alter;
use std::alloc::Global;
use store_shelf::shelf::Shelf;
use uuid::Uuid;
use world::world::World;

/// Where the bytes of tiles come from.
pub trait Sheets {
    /// The file of this place was read once between these two states, and no other was. It had these
    /// bytes, or it could not be read. Each source says what that is. Nothing is known of it but that
    /// `bytes_of` does it. So who promises it of a place asked for the file of that place.
    ghost gives: { Place → Option (List ℕ) → Self → Self → Type 0 };

    /// Those of the file of this place, where they can be read.
    fn bytes_of(&mut self, file: &Place) -> Option<Vec<u8>>
        ensures { gives file.now (option_map (λ v. v.items) result) self.old self.new };
}

/// Into which package tiles come, at which moment, and whether the rows of their files run upwards.
#[derive(Clone, Copy)]
pub struct Target<'t> {
    pub package: Uuid,
    pub at: &'t str,
    pub is_upward: bool,
}

/// How many tiles were added, and how many were there already.
#[derive(Clone, Copy, Debug, PartialEq, Eq)]
pub struct Counts {
    pub added: u64,
    pub passed: u64,
}

/// Why no more tiles are added.
#[derive(Clone, Copy, PartialEq, Eq)]
pub enum AddFault {
    /// The frame has no such row.
    BadPlace,
    /// A file could not be read.
    Unread,
    /// Memory, a store or new identities gave out.
    Failed(Fault),
    /// The register refused a tile.
    Refused(Refusal),
}

/// A new identity for an item.
fn new_identity<N: Identities>(identities: &mut N) -> Result<Uuid, Fault>
    ensures { IfOk result (λ id. N.gives (Some id) identities.old identities.new) }
{
    match identities.next_identity() {
        Some(identity) => Ok(identity),
        None => Err(Fault::StoreFault),
    }
}

/// The request that adds a tile of these bytes at a place.
fn tile_request<N: Identities>(
    alloc: Global,
    target: &Target<'_>,
    place: &Place,
    bytes: Vec<u8>,
    identities: &mut N,
) -> Result<Request, Fault>
    ensures { IfOk result (IsAddition N.gives target.now place.now bytes.items identities.old identities.new) }
{
    let identity = new_identity(identities)?;
    let content = Content::Tile {
        zoom: place.zoom,
        column: place.column,
        row: place.row,
        bytes: Bytes::from_vec(bytes),
    };
    let command = Command::Add {
        package: target.package,
        identity,
        content,
    };
    match request_from(alloc, target.at, command, identities) {
        Ok(request) => Ok(request),
        Err(PlanFault::OutOfMemory) => Err(Fault::OutOfMemory),
        Err(PlanFault::NoIdentity) => Err(Fault::StoreFault),
    }
}

/// Adds a tile of these bytes at a place.
fn add_tile<S: Alter + Drop, H: Shelf<S>, N: Identities>(
    alloc: Global,
    world: &mut World<S>,
    shelf: &mut H,
    target: &Target<'_>,
    place: &Place,
    bytes: Vec<u8>,
    identities: &mut N,
) -> Result<(), AddFault>
    ensures { AddsTile S.Store N.gives target.now place.now bytes.items world.old world.new
        identities.old identities.new result }
{
    let request = match tile_request(alloc, target, place, bytes, identities) {
        Ok(request) => request,
        Err(fault) => return Err(AddFault::Failed(fault)),
    };
    match world.apply(alloc, &request, shelf) {
        Ok(_) => Ok(()),
        Err(why) => Err(AddFault::Refused(why)),
    }
}

/// Adds the tile of a file of these bytes, unless it is among these items. Answers whether it was added.
pub fn add_bytes<S: Alter + Drop, H: Shelf<S>, N: Identities>(
    alloc: Global,
    world: &mut World<S>,
    shelf: &mut H,
    target: &Target<'_>,
    items: &[Item],
    file: &Place,
    bytes: Vec<u8>,
    identities: &mut N,
) -> Result<bool, AddFault>
    ensures { AddsBytes S.Store N.gives target.now items.now file.now bytes.items world.old world.new
        identities.old identities.new result }
{
    if world.has_failed() {
        return Err(AddFault::Failed(Fault::StoreFault));
    }
    let frame = world.frame();
    let Some(place) = place_of(&frame, file, target.is_upward) else {
        return Err(AddFault::BadPlace);
    };
    if is_there(items, &place, bytes.as_slice()) {
        return Ok(false);
    }
    match add_tile(alloc, world, shelf, target, &place, bytes, identities) {
        Ok(()) => Ok(true),
        Err(fault) => Err(fault),
    }
}

/// The same of the bytes that its own file has, which is read once.
fn add_file<S: Alter + Drop, H: Shelf<S>, N: Identities, F: Sheets>(
    alloc: Global,
    world: &mut World<S>,
    shelf: &mut H,
    target: &Target<'_>,
    items: &[Item],
    file: &Place,
    sheets: &mut F,
    identities: &mut N,
) -> Result<bool, AddFault>
    ensures { AddsFile S.Store N.gives F.gives target.now items.now file.now
        (record { world = world.old; ids = identities.old; sheets = sheets.old })
        (record { world = world.new; ids = identities.new; sheets = sheets.new }) result }
{
    let Some(bytes) = sheets.bytes_of(file) else {
        return Err(AddFault::Unread);
    };
    add_bytes(alloc, world, shelf, target, items, file, bytes, identities)
}

/// The counts with one more file, which was added or passed over.
fn count_file(counts: Counts, is_new: bool) -> Counts
    requires { counts.added + counts.passed + 1 < 2 ^ 64 }
    ensures one { result.added + result.passed ≡ counts.added + counts.passed + 1 }
    ensures each { (told : List Bool) → AreCounted told counts → AreCounted (told ++ (is_new ∷ [])) result }
{
    let Counts { added, passed } = counts;
    if is_new {
        Counts {
            added: added + 1,
            passed,
        }
    } else {
        Counts {
            added,
            passed: passed + 1,
        }
    }
}

/// Adds the tiles of files, in turn, to a package that held these items, each with the bytes of its own
/// file. Those that are there with the same content are passed over. What was done up to a fault stands,
/// and is counted.
pub fn add_files<S: Alter + Drop, H: Shelf<S>, N: Identities, F: Sheets>(
    alloc: Global,
    world: &mut World<S>,
    shelf: &mut H,
    target: &Target<'_>,
    items: &[Item],
    files: &[Place],
    sheets: &mut F,
    identities: &mut N,
) -> (Counts, Result<(), AddFault>)
    ensures { AddsFiles S.Store N.gives F.gives target.now items.now files.now
        (record { world = world.old; ids = identities.old; sheets = sheets.old })
        (record { world = world.new; ids = identities.new; sheets = sheets.new }) result.0 result.1 }
{
    let mut counts = Counts {
        added: 0,
        passed: 0,
    };
    for file in files {
        match add_file(alloc, world, shelf, target, items, file, sheets, identities) {
            Ok(is_new) => counts = count_file(counts, is_new),
            Err(fault) => return (counts, Err(fault)),
        }
    }
    (counts, Ok(()))
}
