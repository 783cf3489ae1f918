// What is told of an import, of an opening and of a desk, written out by hand.
use crate::streams::{NOTHING, Wrote, judged_paper, paper};
use crate::worlds::passes;
use command_words::desk_lines::{exchange_line, listening_line};
use command_words::progress::{Progress, write_opening, write_progress};
use manifest_csv::progress::Teller;
use package_tables::fault::Fault;
use std::alloc::Global;
use std::str::from_utf8;
use test_values::Checked;

// What is written of requests or of packages that are done, of 2500 or of 2.
#[derive(Clone, Copy)]
enum Done {
    // Where it is due.
    Told(u64),
    Requests(u64),
    Packages(u64),
}

fn written(alloc: Global, done: Done, room: usize, wrote: Wrote) -> Result<String, Fault> {
    let mut out = paper(alloc, room)?;
    let went = match done {
        Done::Told(done) => {
            let mut progress = Progress { writer: out };
            progress.tell_count(done, 2500);
            out = progress.writer;
            Ok(())
        }
        Done::Requests(done) => write_progress(&mut out, done, 2500),
        Done::Packages(done) => write_opening(&mut out, done, 2),
    };
    let text = if went.is_ok() { "done" } else { "failed" };
    judged_paper(alloc, String::from_str(alloc, text)?, &out, wrote)
}

const THOUSAND: &str = "1000 of 2500 requests are done\n";

fn wrong(alloc: Global) -> Result<String, Fault> {
    let mut checked = Checked::new(alloc);
    for (done, room, wrote, wanted) in [
        (Done::Told(1), 99, NOTHING, "done"),
        (Done::Told(999), 99, NOTHING, "done"),
        (Done::Told(1000), 99, Wrote::All(THOUSAND), "done"),
        (Done::Told(1001), 99, NOTHING, "done"),
        (
            Done::Told(2000),
            99,
            Wrote::All("2000 of 2500 requests are done\n"),
            "done",
        ),
        (Done::Told(2500), 99, NOTHING, "done"),
        (
            Done::Told(25000),
            99,
            Wrote::All("25000 of 2500 requests are done\n"),
            "done",
        ),
        (Done::Requests(1000), 99, Wrote::All(THOUSAND), "done"),
        (Done::Requests(1000), 9, Wrote::Front(THOUSAND, 9), "failed"),
        (
            Done::Packages(0),
            99,
            Wrote::All("0 of 2 packages are read\r"),
            "done",
        ),
        (
            Done::Packages(1),
            99,
            Wrote::All("1 of 2 packages are read\r"),
            "done",
        ),
        (
            Done::Packages(2),
            99,
            Wrote::All("2 of 2 packages are read\n"),
            "done",
        ),
    ] {
        checked.told(written(alloc, done, room, wrote), wanted);
    }
    Ok(String::from_str(alloc, checked.wrong())?)
}

// Each thousandth request is told; packages are counted on one line.
#[test]
fn what_is_told(rt: HostRuntime) {
    passes(&rt, wrong(rt.alloc()));
}

// A line of a desk.
#[derive(Clone, Copy)]
enum Line {
    Port(u16),
    Exchange(&'static [u8], &'static [u8]),
}

fn line_text(alloc: Global, line: Line) -> Result<String, Fault> {
    match line {
        Line::Port(port) => Ok(listening_line(alloc, port)?),
        Line::Exchange(request, status) => {
            let bytes = exchange_line(alloc, "2026-11-28T09:00:00.000Z", request, status)?;
            Ok(String::from_str(alloc, from_utf8(bytes.as_slice()).unwrap_or("no text"))?)
        }
    }
}

fn wrong_lines(alloc: Global) -> Result<String, Fault> {
    let mut checked = Checked::new(alloc);
    for (line, wanted) in [
        (Line::Port(1), "listening on 127.0.0.1:1\n"),
        (Line::Port(65535), "listening on 127.0.0.1:65535\n"),
        (
            Line::Exchange(b"GET /packages HTTP/1.1", b"200"),
            "2026-11-28T09:00:00.000Z GET /packages HTTP/1.1 200\n",
        ),
        (
            Line::Exchange(b"\x00\x1f ~\x7f\xff\nA", b"-"),
            "2026-11-28T09:00:00.000Z ?? ~???A -\n",
        ),
    ] {
        checked.told(line_text(alloc, line), wanted);
    }
    Ok(String::from_str(alloc, checked.wrong())?)
}

// A request makes one line, whatever bytes are in it.
#[test]
fn what_is_told_of_a_desk(rt: HostRuntime) {
    passes(&rt, wrong_lines(rt.alloc()));
}
