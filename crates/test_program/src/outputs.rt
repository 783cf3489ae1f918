// What is written of a world: each call of a library stands here once. How it ended is told as a text.
use crate::endings::{End, end_text};
use crate::streams::{Giving, Noted, Reads, WHOLE, Wrote, judged_paper, paper};
use crate::texts::{List, Sent, list_text, sent_text};
use commands::applying::apply_in;
use commands::streaming::apply_each_in;
use desk_calls::source::Outer;
use desk_http::serving::{ServeFault, Served, serve_one};
use manifest_csv::importing::{ImportFault, import};
use manifest_csv::package_manifests::{ManifestFault, write_manifest};
use package_tables::fault::Fault;
use request_csv::sources::Stream;
use request_imports::twice::{TwiceFault, import_twice};
use sqlite::Alter;
use std::alloc::{AllocError, Global};
use store_shelf::shelf::Shelf;
use test_lists::Narrow;
use test_values::archive;
use uuid::Uuid;
use views::exporting::export_in;
use views::maps::map_in;
use views::receipts::receipt_in;
use world::world::World;

#[derive(Clone, Copy)]
pub(crate) enum What {
    // The report of a list.
    Imports(List, Reads),
    // The report of a list that is read twice: what the first reading has, and what the second.
    ImportsTwice(List, List),
    // Of the archive; the map at the default zoom.
    Manifest,
    Export,
    Map,
    // The receipt of a request that comes as a text, and that of the first one.
    Applies(&'static str, Reads),
    // The replies to requests that come as a text, a line each.
    AppliesEach(&'static str, Reads),
    Receipt,
    // What a client is answered.
    Serves(Sent, Reads),
}

// The request of the first tile.
fn first_request() -> Uuid {
    Uuid::from_u128(0x90000000_0000_4000_8000_000000000001)
}

fn import_end(alloc: Global, ended: Result<(), ImportFault>) -> Result<String, AllocError> {
    match ended {
        Ok(()) => String::from_str(alloc, "done"),
        Err(ImportFault::Unwritten) => String::from_str(alloc, "unwritten"),
        Err(ImportFault::Stopped(_, _)) => String::from_str(alloc, "stopped"),
        Err(ImportFault::Unread(_)) => String::from_str(alloc, "unread"),
    }
}

// How an import ended, and what was told of it.
fn imported<S: Alter + Drop, H: Shelf<S>>(
    alloc: Global,
    world: &mut World<S>,
    shelf: &mut H,
    giving: Giving<'_>,
    out: &mut Narrow,
) -> Result<String, AllocError> {
    let mut noted = Noted {
        told: Vec::new(alloc),
    };
    let ended = import(alloc, world, shelf, giving, out, &mut noted);
    let text = import_end(alloc, ended)?;
    with_told(alloc, text, &noted)
}

// The same with what was told behind it.
fn with_told(alloc: Global, mut text: String, noted: &Noted) -> Result<String, AllocError> {
    for told in &noted.told {
        text.push_str(format!(in alloc; " {}/{}", told.0, told.1)?.as_str())?;
    }
    Ok(text)
}

fn twice_end(alloc: Global, ended: Result<(), TwiceFault>) -> Result<String, AllocError> {
    match ended {
        Ok(()) => import_end(alloc, Ok(())),
        Err(TwiceFault::Import(fault)) => import_end(alloc, Err(fault)),
        Err(TwiceFault::Changed(done)) => format!(in alloc; "changed after {done}"),
        Err(TwiceFault::Broken(done, _)) => format!(in alloc; "broken after {done}"),
    }
}

// The same of a list that is read twice.
fn imported_twice<S: Alter + Drop, H: Shelf<S>>(
    alloc: Global,
    world: &mut World<S>,
    shelf: &mut H,
    first: Giving<'_>,
    second: Giving<'_>,
    out: &mut Narrow,
) -> Result<String, AllocError> {
    let mut noted = Noted {
        told: Vec::new(alloc),
    };
    let ended = import_twice(
        alloc,
        world,
        shelf,
        Stream(first),
        Stream(second),
        out,
        &mut noted,
    );
    let text = twice_end(alloc, ended)?;
    with_told(alloc, text, &noted)
}

fn manifest_end(ended: Result<(), ManifestFault>) -> &'static str {
    match ended {
        Ok(()) => "done",
        Err(ManifestFault::Unknown) => "unknown",
        Err(ManifestFault::Failed(_)) => "failed",
        Err(ManifestFault::Unwritten) => "unwritten",
    }
}

fn serve_end(ended: Result<Served, ServeFault>) -> &'static str {
    match ended {
        Ok(Served::Nothing) => "nothing",
        Ok(Served::Answered) => "answered",
        Err(ServeFault::Read) => "unread",
        Err(ServeFault::Write) => "unwritten",
    }
}

// How it ended.
fn ended<S: Alter + Drop, H: Shelf<S>>(
    alloc: Global,
    world: &mut World<S>,
    shelf: &mut H,
    what: What,
    out: &mut Narrow,
) -> Result<String, AllocError> {
    match what {
        What::Imports(which, reads) => {
            let text = list_text(alloc, which)?;
            imported(alloc, world, shelf, Giving::new(text.as_str(), reads), out)
        }
        What::ImportsTwice(first, second) => {
            let first = list_text(alloc, first)?;
            let second = list_text(alloc, second)?;
            let first = Giving::new(first.as_str(), Reads::Whole);
            let second = Giving::new(second.as_str(), Reads::Whole);
            imported_twice(alloc, world, shelf, first, second, out)
        }
        What::Manifest => {
            let ended = write_manifest(alloc, world, archive(), out);
            String::from_str(alloc, manifest_end(ended))
        }
        What::Export => {
            let ending = export_in(alloc, world, archive(), out);
            end_text(alloc, &End::Command(ending))
        }
        What::Map => end_text(alloc, &End::View(map_in(alloc, world, None, out))),
        What::Applies(body, reads) => {
            let ending = apply_in(alloc, world, shelf, Giving::new(body, reads), out);
            end_text(alloc, &End::Command(ending))
        }
        What::AppliesEach(body, reads) => {
            let ending = apply_each_in(alloc, world, shelf, Giving::new(body, reads), out);
            end_text(alloc, &End::Command(ending))
        }
        What::Receipt => {
            let ending = receipt_in(alloc, world, first_request(), out);
            end_text(alloc, &End::View(ending))
        }
        What::Serves(sent, reads) => {
            let text = sent_text(alloc, sent)?;
            let mut source = Outer(Giving::new(text.as_str(), reads));
            let own = b"http://127.0.0.1:8080";
            let ended = serve_one(alloc, world, shelf, own, &mut source, out);
            String::from_str(alloc, serve_end(ended))
        }
    }
}

// The same over a writer with so much room; and what it wrote, where that is not what was expected.
pub(crate) fn written<S: Alter + Drop, H: Shelf<S>>(
    alloc: Global,
    world: &mut World<S>,
    shelf: &mut H,
    what: What,
    room: usize,
    wrote: Wrote,
) -> Result<String, Fault> {
    let mut out = paper(alloc, room)?;
    let ended = ended(alloc, world, shelf, what, &mut out)?;
    judged_paper(alloc, ended, &out, wrote)
}

// Over a writer that has room for all but the last byte, which takes what it has room for.
pub(crate) fn short<S: Alter + Drop, H: Shelf<S>>(
    alloc: Global,
    world: &mut World<S>,
    shelf: &mut H,
    what: What,
) -> Result<String, Fault> {
    let mut whole = Narrow::new(alloc, WHOLE);
    let _done = ended(alloc, world, shelf, what, &mut whole)?;
    let room = whole.taken.len().saturating_sub(1);
    let mut out = Narrow::new(alloc, room);
    let ended = ended(alloc, world, shelf, what, &mut out)?;
    if out.taken.len() == room && whole.taken.as_slice().starts_with(out.taken.as_slice()) {
        Ok(ended)
    } else {
        Ok(String::from_str(alloc, "other bytes were written")?)
    }
}
