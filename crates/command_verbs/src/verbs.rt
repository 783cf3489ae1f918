//! Verbs: each is one command, which its words and the live packages say.
ghost use Rattle.std.specs.Prelude.{◌≡◌, IfOk, MatchResult, Ok, Err, map};
ghost use Rattle.command_verbs.specs.Names.{giver_of, sight};
ghost use Rattle.command_verbs.specs.Verbs.{IsTied, IsWhyNoMark, IsWhyUntied, Joins, Parts, PutsMark, IsTypeOf};
ghost use Rattle.command_verbs.specs.Verbs.{IsWhyNoMedium, IsWhyNoTile, IsWhyUnlent, IsWhyUnreturned, IsWhyUnsaid};
ghost use Rattle.command_verbs.specs.Verbs.{IsWhyUntyped, Lends, PutsMedium, PutsTile, Returns, Says, request_of};
ghost use Rattle.command_verbs.specs.Verbs.{text_of};

use crate::areas::{read_area, read_natural, read_place};
use crate::items::{ItemEntry, find_item, tie};
use crate::media::media_type;
use crate::names::{NameFault, PackageEntry, find_archive, find_package};
use crate::points::read_point;
use sheet_types::collections::{Bytes, Text};
use sheet_types::command::{Command, Content, Mode, Relation, Request};
use sheet_types::error::OutOfMemory;
use std::alloc::Global;
use uuid::Uuid;

/// The words for an attributes row, as they were typed: a point in units, a code and a label.
#[derive(Clone, Copy)]
pub struct Mark<'t> {
    pub point: &'t str,
    pub code: &'t str,
    pub label: &'t str,
}

/// A verb, its words as they were typed, and the identity of what it makes.
#[derive(Clone, Copy)]
pub enum Verb<'t> {
    /// The sheets of an area are lent from a package, or from the archive, as a new one.
    Lend {
        from: Option<&'t str>,
        area: &'t str,
        mode: Mode,
        loan: Uuid,
    },
    /// A loan is brought home to the package that lent it.
    Return {
        loan: &'t str,
    },
    /// A tile is added at a place.
    PutTile {
        package: &'t str,
        place: &'t str,
        identity: Uuid,
    },
    /// A medium is added. Without a word its type is that of its first bytes.
    PutMedium {
        package: &'t str,
        content_type: Option<&'t str>,
        identity: Uuid,
    },
    /// An attributes row is added: a point in units, a code and a label.
    PutMark {
        package: &'t str,
        mark: Mark<'t>,
        identity: Uuid,
    },
    /// Two items of a package are related, whichever of them is named first.
    Join {
        first: &'t str,
        second: &'t str,
    },
    /// Their relation is ended.
    Part {
        first: &'t str,
        second: &'t str,
    },
}

/// Why the words of a verb say no command.
#[derive(Clone, Copy, Debug, PartialEq, Eq)]
pub enum VerbFault {
    /// A growth was refused.
    OutOfMemory,
    /// The word for a package names none, or two.
    Unnamed(NameFault),
    /// The word for an item does.
    Unfound(NameFault),
    /// The word for an area is none.
    BadArea,
    /// The word for a place is none.
    BadPlace,
    /// The word for a point is none.
    BadPoint,
    /// The word for a code is no number.
    BadCode,
    /// The first bytes of a medium tell no type.
    BadType,
    /// The package is not lent.
    NotLent,
    /// The number of the last receipt is past 63 bits.
    BadTicket,
    /// The two items are in two packages.
    Apart,
    /// No mapping joins items of their kinds.
    Unrelated,
}

/// The package that lends: the one that is named, or else the archive.
fn find_giver(entries: &[PackageEntry], from: Option<&str>) -> Result<PackageEntry, NameFault>
    ensures { MatchResult result
        (λ entry. giver_of (map sight entries.now) (text_of from.entry) ≡ Ok (sight entry))
        (λ fault. giver_of (map sight entries.now) (text_of from.entry) ≡ Err fault) }
{
    match from {
        Some(word) => find_package(entries, word),
        None => find_archive(entries),
    }
}

/// A loan of an area.
fn lend(
    entries: &[PackageEntry],
    from: Option<&str>,
    area: &str,
    mode: Mode,
    loan: Uuid,
) -> Result<Command, VerbFault>
    ensures { MatchResult result
        (Lends (map sight entries.now) (text_of from.entry) area.now mode loan)
        (IsWhyUnlent (map sight entries.now) (text_of from.entry) area.now) }
{
    let giver = match find_giver(entries, from) {
        Ok(giver) => giver,
        Err(fault) => return Err(VerbFault::Unnamed(fault)),
    };
    match read_area(area) {
        Some(rect) => Ok(Command::Split {
            package: giver.uuid,
            child: loan,
            mode,
            rect,
        }),
        None => Err(VerbFault::BadArea),
    }
}

/// The way home of a loan.
fn bring_home(entries: &[PackageEntry], loan: &str) -> Result<Command, VerbFault>
    ensures { MatchResult result
        (Returns (map sight entries.now) loan.now)
        (IsWhyUnreturned (map sight entries.now) loan.now) }
{
    let lent = match find_package(entries, loan) {
        Ok(lent) => lent,
        Err(fault) => return Err(VerbFault::Unnamed(fault)),
    };
    let Some(into) = lent.parent else {
        return Err(VerbFault::NotLent);
    };
    if lent.ticket > 9_223_372_036_854_775_807 {
        return Err(VerbFault::BadTicket);
    }
    Ok(Command::Merge {
        child: lent.uuid,
        into,
        ticket: lent.ticket as i64,
    })
}

/// A tile at a place.
fn put_tile(
    entries: &[PackageEntry],
    package: &str,
    place: &str,
    identity: Uuid,
    bytes: Vec<u8>,
) -> Result<Command, VerbFault>
    ensures { MatchResult result
        (PutsTile (map sight entries.now) «package».now place.now identity bytes.items)
        (IsWhyNoTile (map sight entries.now) «package».now place.now) }
{
    let holder = match find_package(entries, package) {
        Ok(holder) => holder,
        Err(fault) => return Err(VerbFault::Unnamed(fault)),
    };
    match read_place(place) {
        Some(place) => Ok(Command::Add {
            package: holder.uuid,
            identity,
            content: Content::Tile {
                zoom: place.zoom,
                column: place.column,
                row: place.row,
                bytes: Bytes::from_vec(bytes),
            },
        }),
        None => Err(VerbFault::BadPlace),
    }
}

/// The type of a medium: what is said, or else what its first bytes tell.
fn type_of(alloc: Global, content_type: Option<&str>, bytes: &[u8]) -> Result<Text, VerbFault>
    ensures { MatchResult result
        (IsTypeOf (text_of content_type.entry) bytes.now)
        (IsWhyUntyped (text_of content_type.entry) bytes.now) }
{
    let word: &str = match content_type {
        Some(word) => word,
        None => match media_type(bytes) {
            Some(known) => known.name(),
            None => return Err(VerbFault::BadType),
        },
    };
    match String::from_str(alloc, word) {
        Ok(text) => Ok(Text::from_string(text)),
        Err(_) => Err(VerbFault::OutOfMemory),
    }
}

/// A medium.
fn put_medium(
    alloc: Global,
    entries: &[PackageEntry],
    package: &str,
    content_type: Option<&str>,
    identity: Uuid,
    bytes: Vec<u8>,
) -> Result<Command, VerbFault>
    ensures { MatchResult result
        (PutsMedium (map sight entries.now) «package».now (text_of content_type.entry) identity bytes.items)
        (IsWhyNoMedium (map sight entries.now) «package».now (text_of content_type.entry) bytes.items) }
{
    let holder = match find_package(entries, package) {
        Ok(holder) => holder,
        Err(fault) => return Err(VerbFault::Unnamed(fault)),
    };
    match type_of(alloc, content_type, bytes.as_slice()) {
        Ok(content_type) => Ok(Command::Add {
            package: holder.uuid,
            identity,
            content: Content::Media {
                content_type,
                bytes: Bytes::from_vec(bytes),
            },
        }),
        Err(fault) => Err(fault),
    }
}

/// An attributes row.
fn put_mark(
    alloc: Global,
    entries: &[PackageEntry],
    package: &str,
    mark: &Mark<'_>,
    identity: Uuid,
) -> Result<Command, VerbFault>
    ensures { MatchResult result
        (PutsMark (map sight entries.now) «package».now mark.now identity)
        (IsWhyNoMark (map sight entries.now) «package».now mark.now) }
{
    let holder = match find_package(entries, package) {
        Ok(holder) => holder,
        Err(fault) => return Err(VerbFault::Unnamed(fault)),
    };
    let Some(point) = read_point(mark.point) else {
        return Err(VerbFault::BadPoint);
    };
    let Some(code) = read_natural(mark.code) else {
        return Err(VerbFault::BadCode);
    };
    match String::from_str(alloc, mark.label) {
        Ok(label) => Ok(Command::Add {
            package: holder.uuid,
            identity,
            content: Content::Row {
                x: point.x,
                y: point.y,
                code,
                label: Text::from_string(label),
            },
        }),
        Err(_) => Err(VerbFault::OutOfMemory),
    }
}

/// The package of two items, and their relation.
fn find_tie(items: &[ItemEntry], first: &str, second: &str) -> Result<(Uuid, Relation), VerbFault>
    ensures { MatchResult result
        (λ found. IsTied items.now first.now second.now found.0 found.1)
        (IsWhyUntied items.now first.now second.now) }
{
    let one = match find_item(items, first) {
        Ok(one) => one,
        Err(fault) => return Err(VerbFault::Unfound(fault)),
    };
    let other = match find_item(items, second) {
        Ok(other) => other,
        Err(fault) => return Err(VerbFault::Unfound(fault)),
    };
    if one.holder != other.holder {
        return Err(VerbFault::Apart);
    }
    match tie(&one, &other) {
        Some(relation) => Ok((one.holder, relation)),
        None => Err(VerbFault::Unrelated),
    }
}

/// A link of two items.
fn join(items: &[ItemEntry], first: &str, second: &str) -> Result<Command, VerbFault>
    ensures { MatchResult result
        (Joins items.now first.now second.now)
        (IsWhyUntied items.now first.now second.now) }
{
    match find_tie(items, first, second) {
        Ok((package, relation)) => Ok(Command::Link {
            package,
            mapping: relation.mapping,
            base: relation.base,
            other: relation.other,
        }),
        Err(fault) => Err(fault),
    }
}

/// Its end.
fn part(items: &[ItemEntry], first: &str, second: &str) -> Result<Command, VerbFault>
    ensures { MatchResult result
        (Parts items.now first.now second.now)
        (IsWhyUntied items.now first.now second.now) }
{
    match find_tie(items, first, second) {
        Ok((package, relation)) => Ok(Command::Unlink {
            package,
            mapping: relation.mapping,
            base: relation.base,
            other: relation.other,
        }),
        Err(fault) => Err(fault),
    }
}

/// The command that a verb says among the live packages and their items, over the bytes that it was
/// given. Items are asked for by `Join` and `Part` alone.
pub fn say(
    alloc: Global,
    entries: &[PackageEntry],
    items: &[ItemEntry],
    verb: &Verb<'_>,
    bytes: Vec<u8>,
) -> Result<Command, VerbFault>
    ensures { MatchResult result
        (Says (map sight entries.now) items.now verb.now bytes.items)
        (IsWhyUnsaid (map sight entries.now) items.now verb.now bytes.items) }
{
    match verb {
        Verb::Lend {
            from,
            area,
            mode,
            loan,
        } => lend(entries, *from, area, *mode, *loan),
        Verb::Return { loan } => bring_home(entries, loan),
        Verb::PutTile {
            package,
            place,
            identity,
        } => put_tile(entries, package, place, *identity, bytes),
        Verb::PutMedium {
            package,
            content_type,
            identity,
        } => put_medium(alloc, entries, package, *content_type, *identity, bytes),
        Verb::PutMark {
            package,
            mark,
            identity,
        } => put_mark(alloc, entries, package, mark, *identity),
        Verb::Join { first, second } => join(items, first, second),
        Verb::Part { first, second } => part(items, first, second),
    }
}

/// A command as a request, under an identity and at a moment.
pub fn request_of(
    alloc: Global,
    id: Uuid,
    at: &str,
    command: Command,
) -> Result<Request, OutOfMemory>
    ensures { IfOk result (λ request. request ≡ request_of id at.now command) }
{
    let at = String::from_str(alloc, at)?;
    Ok(Request {
        id,
        at: Text::from_string(at),
        command,
    })
}
