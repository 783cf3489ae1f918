// A split and a merge, once for each call of a file that stops in it. What a crash leaves opens as
// a world, in which the request comes again: it gets the reply that is due, and has acted once.
use crate::asking::{Found, asked, files_after, world_over};
use crate::examples::{Example, MERGE, SPLIT, request};
use crate::files::{Machine, MemoryMachine, NEVER, Remains, Stop};
use crate::resuming::{Asked, Seen, check_crashes};
use package_tables::fault::Fault;
use sqlite::Alter;
use std::alloc::Global;
use std::test::Fail;
use store_shelf::shelf::Shelf;
use test_values::{Checked, archive};

const STEPS: [u64; 11] = [1_024, 512, 256, 128, 64, 32, 16, 8, 4, 2, 1];

// With so many calls and no fewer the world opens; the first stop of the request comes then.
fn calls_of_opening<S: Alter + Drop, M: Machine<S>>(
    alloc: Global,
    machine: &mut M,
    files: &[Remains],
    stop: Stop,
) -> u64 {
    let mut calls = 0u64;
    for step in STEPS {
        let more = calls.saturating_add(step);
        machine.arm(stop.after(more.saturating_sub(1)));
        if world_over(alloc, machine, files, false).is_none() {
            calls = more;
        }
    }
    calls
}

const STORE_FAULT: &str = "{\"name\":\"StoreFault\",\"refusal\":25}";

// What comes of the request where a file stops: the receipt, or that a store failed.
fn found_at<S: Alter + Drop, M: Shelf<S> + Machine<S>>(
    alloc: Global,
    machine: &mut M,
    files: &[Remains],
    stop: Stop,
    asks: Asked<'_>,
    checked: &mut Checked,
) -> Result<Found, Fault> {
    machine.arm(stop);
    let Some(world) = world_over(alloc, machine, files, false) else {
        return Err(Fault::StoreFault);
    };
    let found = asked(alloc, world, machine, asks.request)?;
    machine.arm(NEVER);
    let due = if found.is_done {
        asks.example.reply
    } else {
        STORE_FAULT
    };
    checked.is(found.reply.as_str(), due);
    Ok(found)
}

const LOG_OF_ARCHIVE: Stop = Stop {
    place: 0,
    is_log: true,
    calls: 0,
};

const FILE_OF_ARCHIVE: Stop = Stop {
    place: 0,
    is_log: false,
    calls: 0,
};

const LOG_OF_LOAN: Stop = Stop {
    place: 1,
    is_log: true,
    calls: 0,
};

const FILE_OF_LOAN: Stop = Stop {
    place: 1,
    is_log: false,
    calls: 0,
};

// With one call more each time, up to the first that gets the receipt.
fn check_stops<S: Alter + Drop, M: Shelf<S> + Machine<S>>(
    alloc: Global,
    machine: &mut M,
    files: &[Remains],
    stop: Stop,
    asks: Asked<'_>,
    checked: &mut Checked,
) -> Result<Seen, Fault> {
    let mut seen = Seen::new(alloc);
    let first = calls_of_opening(alloc, machine, files, stop);
    for calls in first..first.saturating_add(2_000) {
        let found = found_at(alloc, machine, files, stop.after(calls), asks, checked)?;
        check_crashes(alloc, machine, asks, &found, &mut seen, checked)?;
        if found.is_done {
            return Ok(seen);
        }
        seen.last = found.files;
    }
    Err(Fault::StoreFault)
}

fn check_each<S: Alter + Drop, M: Shelf<S> + Machine<S>>(
    alloc: Global,
    machine: &mut M,
    example: &Example,
    checked: &mut Checked,
) -> Result<(), Fault> {
    let files = files_after(alloc, machine, example.before)?;
    let request = request(alloc, example.before.saturating_add(1))?;
    let asks = Asked {
        example,
        request: &request,
    };
    for (stop, leaves) in STOPS {
        let seen = check_stops(alloc, machine, &files, stop, asks, checked)?;
        checked.is(seen.left(), leaves);
    }
    Ok(())
}

// Each file in turn, with which worlds crashes leave where no receipt is told. The commit of the
// archive carries the receipt.
const STOPS: [(Stop, &str); 4] = [
    (LOG_OF_ARCHIVE, "before or after"),
    (FILE_OF_ARCHIVE, "before"),
    (LOG_OF_LOAN, "before"),
    (FILE_OF_LOAN, "before"),
];

fn holds(alloc: Global, example: &Example) -> Result<(), Fail> {
    let mut checked = Checked::new(alloc);
    let mut machine = MemoryMachine::new(alloc, archive());
    check_each(alloc, &mut machine, example, &mut checked)?;
    let wrong = checked.wrong();
    if wrong.is_empty() {
        return Ok(());
    }
    Err(Fail::new(String::from_str(alloc, wrong)?))
}

#[test]
fn a_split_that_stops_comes_again(rt: HostRuntime) -> Result<(), Fail> {
    holds(rt.alloc(), &SPLIT)
}

#[test]
fn a_merge_that_stops_comes_again(rt: HostRuntime) -> Result<(), Fail> {
    holds(rt.alloc(), &MERGE)
}
