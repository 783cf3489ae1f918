//! A tree of tiles, added by a desk, each tile by a request of its own. What is there already its manifest says.
use crate::desk_drops::ask_outcome;
use crate::desk_inputs::Served;
use crate::desks::{Silence, WANT, ask, tell_unless_passed, words_of};
use crate::row_texts::row_text;
use clap::ArgMatches;
use command_folder::endings::{Ending, FAILED, NO_MEMORY, status_of};
use command_lines::trees::counts_line;
use command_plans::places::upward_place;
use command_plans::requests::{Identities, PlanFault, request_from};
use command_trees::adding::{Counts, Sheets};
use command_verbs::areas::Place;
use command_verbs::faults::verb_line;
use command_verbs::verbs::VerbFault;
use desk_asking::answers::AnswerFault;
use desk_asking::desks::DeskAt;
use program_output::clock::NewIdentities;
use program_output::options::text_of;
use program_output::outputs::{print_unless_done, verb_output};
use program_output::printing::tell_ending;
use program_output::streams::Output;
use program_words::filling::moment_given;
use program_words::tile_files::{Tree, find_files};
use request_json::requests::read_request;
use sheet_types::collections::Bytes;
use sheet_types::command::{Command, Content, Request};
use sheet_types::fingerprints::{Spelled, fingerprint};
use sheet_types::frame::Frame;
use sheet_types::reading::read_frame;
use std::alloc::{AllocError, Global};
use std::io::Write;
use std::str::from_utf8;
use uuid::Uuid;

/// How many bytes of a tile's line in a manifest stand before its place: its kind, and its identity.
const BEFORE_PLACE: usize = 41;

/// The package to which tiles are added by a desk, at a moment, and the ends of the lines of the tiles that it held.
/// Where the rows of files run upwards, the frame turns them about.
#[derive(Clone, Copy)]
struct Target<'t> {
    desk: DeskAt<'t>,
    package: Uuid,
    at: &'t str,
    held: &'t [&'t str],
    turning: Option<Frame>,
}

/// Why no more tiles are added.
#[derive(Clone, Copy)]
enum Stop {
    /// This was told of the last one, with this status.
    Refused(u8),
    /// The desk gave no status.
    Silent(Silence),
    /// A file could not be read, or something gave out.
    Ended(Ending),
}

/// The ends of the lines of tiles in a manifest, from their places on.
fn tiles_in<'t>(alloc: Global, manifest: &'t str) -> Result<Vec<&'t str>, AllocError> {
    let mut ends = Vec::new(alloc);
    for line in manifest.lines() {
        if line.starts_with("tile,") {
            ends.push(line.get(BEFORE_PLACE..).unwrap_or(""))?;
        }
    }
    Ok(ends)
}

/// The end of the line of a tile.
fn tile_end(
    alloc: Global,
    place: &Place,
    size: usize,
    content: &Content,
) -> Result<String, AllocError> {
    let Place { zoom, column, row } = *place;
    let digest = Spelled(fingerprint(content));
    format!(in alloc; ",,{zoom},{column},{row},,,,{size},{digest},")
}

/// An ending where a request could not be made.
fn ending_of(fault: PlanFault) -> Ending {
    match fault {
        PlanFault::OutOfMemory => NO_MEMORY,
        PlanFault::NoIdentity => FAILED,
    }
}

/// The request that adds a tile.
fn tile_request(
    rt: &HostRuntime,
    target: &Target<'_>,
    content: Content,
) -> Result<Request, PlanFault> {
    let mut identities = NewIdentities { rt };
    let Some(identity) = identities.next_identity() else {
        return Err(PlanFault::NoIdentity);
    };
    let command = Command::Add {
        package: target.package,
        identity,
        content,
    };
    request_from(rt.alloc(), target.at, command, &mut identities)
}

/// Has a desk add a tile. What it tells of it is kept.
fn add_tile(
    rt: &HostRuntime,
    target: &Target<'_>,
    content: Content,
    told: &mut Vec<u8>,
) -> Result<(), Stop> {
    let request = match tile_request(rt, target, content) {
        Ok(request) => request,
        Err(fault) => return Err(Stop::Ended(ending_of(fault))),
    };
    let Ok(text) = row_text(rt.alloc(), &request) else {
        return Err(Stop::Ended(NO_MEMORY));
    };
    told.clear();
    match ask_outcome(rt, &target.desk, text.as_bytes(), told) {
        Ok(0) => Ok(()),
        Ok(status) => Err(Stop::Refused(status)),
        Err(why) => Err(Stop::Silent(why)),
    }
}

/// Has a desk add a tile of these bytes at a place, unless it was there. Answers whether it was added.
fn add_bytes(
    rt: &HostRuntime,
    target: &Target<'_>,
    place: &Place,
    bytes: Vec<u8>,
    told: &mut Vec<u8>,
) -> Result<bool, Stop> {
    let size = bytes.len();
    let content = Content::Tile {
        zoom: place.zoom,
        column: place.column,
        row: place.row,
        bytes: Bytes::from_vec(bytes),
    };
    let Ok(end) = tile_end(rt.alloc(), place, size, &content) else {
        return Err(Stop::Ended(NO_MEMORY));
    };
    if target.held.iter().any(|held| *held == end.as_str()) {
        return Ok(false);
    }
    match add_tile(rt, target, content, told) {
        Ok(()) => Ok(true),
        Err(stop) => Err(stop),
    }
}

/// The place of a file's tile; none where the frame has no such row.
fn place_for(target: &Target<'_>, file: &Place) -> Option<Place> {
    match &target.turning {
        Some(frame) => upward_place(frame, file),
        None => Some(*file),
    }
}

/// Tells that the frame has no such row, as of a tile that is refused.
fn refuse_place(alloc: Global, told: &mut Vec<u8>) -> Stop {
    let Ok(line) = verb_line(alloc, &VerbFault::BadPlace) else {
        return Stop::Ended(NO_MEMORY);
    };
    told.clear();
    match told.extend_from_slice(line.as_bytes()) {
        Ok(()) => Stop::Refused(status_of(Ending::NoRequest)),
        Err(_) => Stop::Ended(NO_MEMORY),
    }
}

/// Has a desk add the tile of a file, unless it was there. Answers whether it was added.
fn add_file(
    rt: &HostRuntime,
    target: &Target<'_>,
    file: &Place,
    sheets: &mut Tree<'_, '_>,
    told: &mut Vec<u8>,
) -> Result<bool, Stop> {
    let Some(bytes) = sheets.bytes_of(file) else {
        return Err(Stop::Ended(Ending::BadBody));
    };
    match place_for(target, file) {
        Some(place) => add_bytes(rt, target, &place, bytes, told),
        None => Err(refuse_place(rt.alloc(), told)),
    }
}

/// Has a desk add the tiles of files, in turn. What was done up to a stop stands, and is counted.
fn add_files(
    rt: &HostRuntime,
    target: &Target<'_>,
    files: &[Place],
    sheets: &mut Tree<'_, '_>,
    told: &mut Vec<u8>,
) -> (Counts, Option<Stop>) {
    let mut counts = Counts {
        added: 0,
        passed: 0,
    };
    for file in files {
        match add_file(rt, target, file, &mut *sheets, &mut *told) {
            Ok(true) => counts.added = counts.added.saturating_add(1),
            Ok(false) => counts.passed = counts.passed.saturating_add(1),
            Err(stop) => return (counts, Some(stop)),
        }
    }
    (counts, None)
}

/// Writes a text.
fn write(output: &mut Output<'_>, text: &[u8]) -> Result<(), Stop> {
    match output.write_all(text) {
        Ok(()) => Ok(()),
        Err(_) => Err(Stop::Ended(FAILED)),
    }
}

/// Tells how many tiles were added and passed over.
fn tell_counts(alloc: Global, counts: &Counts, output: &mut Output<'_>) -> Result<(), Stop> {
    match counts_line(alloc, counts.added, counts.passed) {
        Ok(line) => write(output, line.as_bytes()),
        Err(_) => Err(Stop::Ended(NO_MEMORY)),
    }
}

/// Has a desk add the tiles of files to a package, and tells how many were.
fn add_to(
    rt: &HostRuntime,
    target: &Target<'_>,
    directory: &str,
    files: &[Place],
    output: &mut Output<'_>,
) -> Result<(), Stop> {
    let mut sheets = Tree::new(rt, directory, files.len());
    let mut told = Vec::new(rt.alloc());
    let (counts, stop) = add_files(rt, target, files, &mut sheets, &mut told);
    tell_counts(rt.alloc(), &counts, &mut *output)?;
    match stop {
        Some(Stop::Refused(status)) => {
            write(output, told.as_slice())?;
            Err(Stop::Refused(status))
        }
        Some(stop) => Err(stop),
        None => Ok(()),
    }
}

/// What a desk prints of these words. Where it ends with another status than 0, that goes out.
fn ask_kept(
    rt: &HostRuntime,
    desk: &DeskAt<'_>,
    words: &[&str],
    output: &mut Output<'_>,
) -> Result<Vec<u8>, Stop> {
    let Ok(words) = words_of(rt, words) else {
        return Err(Stop::Silent(WANT));
    };
    let mut kept = Vec::new(rt.alloc());
    match ask(
        rt,
        desk,
        words.as_slice(),
        b"x",
        &mut kept,
        &mut rt.stderr(),
    ) {
        Ok(0) => Ok(kept),
        Ok(status) => {
            write(output, kept.as_slice())?;
            Err(Stop::Refused(status))
        }
        Err(why) => Err(Stop::Silent(why)),
    }
}

/// The package to which a request adds, if it adds.
fn added_to(request: &Request) -> Option<Uuid> {
    let Command::Add { package, .. } = &request.command else {
        return None;
    };
    Some(*package)
}

/// The package of an addition as JSON.
fn package_in(alloc: Global, text: &[u8]) -> Result<Uuid, Stop> {
    let Ok(read) = read_request(alloc, text) else {
        return Err(Stop::Silent(WANT));
    };
    let Some(request) = read else {
        return Err(Stop::Silent(Silence::Faulty(AnswerFault::Cut)));
    };
    match added_to(&request) {
        Some(package) => Ok(package),
        None => Err(Stop::Silent(Silence::Faulty(AnswerFault::Cut))),
    }
}

/// The package that a word names: a desk shows the request that would add something to it.
fn ask_package(
    rt: &HostRuntime,
    served: &Served<'_, '_>,
    word: &str,
    output: &mut Output<'_>,
) -> Result<Uuid, Stop> {
    let words = ["put", served.folder, word, "media", "-", "--dry-run"];
    let text = ask_kept(rt, &served.desk, words.as_slice(), output)?;
    package_in(rt.alloc(), text.as_slice())
}

/// The manifest of a package.
fn ask_manifest(
    rt: &HostRuntime,
    served: &Served<'_, '_>,
    package: Uuid,
    output: &mut Output<'_>,
) -> Result<Vec<u8>, Stop> {
    let Ok(uuid) = format!(in rt.alloc(); "{package}") else {
        return Err(Stop::Silent(WANT));
    };
    let words = ["manifest", served.folder, uuid.as_str()];
    ask_kept(rt, &served.desk, words.as_slice(), output)
}

/// The frame of the register, where the rows of files run upwards.
fn ask_frame(
    rt: &HostRuntime,
    served: &Served<'_, '_>,
    is_upward: bool,
    output: &mut Output<'_>,
) -> Result<Option<Frame>, Stop> {
    if !is_upward {
        return Ok(None);
    }
    let text = ask_kept(rt, &served.desk, ["frame"].as_slice(), output)?;
    match read_frame(from_utf8(text.as_slice()).unwrap_or("")) {
        Some(frame) => Ok(Some(frame)),
        None => Err(Stop::Silent(Silence::Faulty(AnswerFault::Cut))),
    }
}

/// A tree of files, as a person names it.
#[derive(Clone, Copy)]
struct TreeWords<'t> {
    package: &'t str,
    at: &'t str,
    directory: &'t str,
    is_upward: bool,
}

/// Has the desk of a folder add the tiles of files.
fn add_tree(
    rt: &HostRuntime,
    served: &Served<'_, '_>,
    words: &TreeWords<'_>,
    files: &[Place],
    output: &mut Output<'_>,
) -> Result<(), Stop> {
    let package = ask_package(rt, served, words.package, &mut *output)?;
    let turning = ask_frame(rt, served, words.is_upward, &mut *output)?;
    let manifest = ask_manifest(rt, served, package, &mut *output)?;
    let Ok(held) = tiles_in(rt.alloc(), from_utf8(manifest.as_slice()).unwrap_or("")) else {
        return Err(Stop::Silent(WANT));
    };
    let target = Target {
        desk: served.desk,
        package,
        at: words.at,
        held: held.as_slice(),
        turning,
    };
    add_to(rt, &target, words.directory, files, output)
}

/// Prints what was kept, where a tree did not end well, and tells why. Answers the exit status; none where the desk
/// does not carry such a command out.
fn end_tree(
    rt: &HostRuntime,
    desk: &DeskAt<'_>,
    output: &Output<'_>,
    added: Result<(), Stop>,
) -> Option<u8> {
    match added {
        Ok(()) => Some(print_unless_done(rt, output, 0)),
        Err(Stop::Refused(status)) => Some(print_unless_done(rt, output, status)),
        Err(Stop::Silent(why)) => {
            let _printed = print_unless_done(rt, output, 3);
            tell_unless_passed(rt, desk, why)
        }
        Err(Stop::Ended(ending)) => {
            let _printed = print_unless_done(rt, output, 3);
            Some(tell_ending(rt, &ending))
        }
    }
}

/// The moment of a tree's requests, and its files; an ending where they cannot be had.
fn moment_and_files(
    rt: &HostRuntime,
    directory: &str,
    options: &ArgMatches<'_>,
) -> Result<(String, Vec<Place>), Ending> {
    let at = moment_given(rt, options)?;
    let files = find_files(rt, directory)?;
    Ok((at, files))
}

/// Adds the tiles of a tree by the desk of a folder, to the package that a word names, and answers the exit status.
pub(crate) fn put_tree_by(
    rt: &HostRuntime,
    served: &Served<'_, '_>,
    package: &str,
    options: &ArgMatches<'_>,
) -> Option<u8> {
    let directory = text_of(options, "directory");
    let (at, files) = match moment_and_files(rt, directory, options) {
        Ok(found) => found,
        Err(ending) => return Some(tell_ending(rt, &ending)),
    };
    let words = TreeWords {
        package,
        at: at.as_str(),
        directory,
        is_upward: options.get_flag("tms"),
    };
    let mut output = verb_output(rt, options);
    let added = add_tree(rt, served, &words, files.as_slice(), &mut output);
    end_tree(rt, &served.desk, &output, added)
}
