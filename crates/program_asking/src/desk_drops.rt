//! An item, dropped by a desk: it shows the requests, and then carries them out in turn, so that it serves others
//! between.
use crate::desks::{
    Silence, WANT, ask, print_kept, tell_silence, tell_unless_passed, words_before, words_of,
};
use clap::ArgMatches;
use desk_asking::desks::DeskAt;
use program_output::outputs::{print_unless_done, verb_output};
use program_output::streams::Output;
use std::convert::AsStr;
use std::io::Write;

/// Has a desk carry out a request, and copies what came of it.
pub(crate) fn ask_outcome<W: Write>(
    rt: &HostRuntime,
    desk: &DeskAt<'_>,
    request: &[u8],
    output: &mut W,
) -> Result<u8, Silence> {
    let Ok(words) = words_of(rt, ["outcome"].as_slice()) else {
        return Err(WANT);
    };
    ask(
        rt,
        desk,
        words.as_slice(),
        request,
        output,
        &mut rt.stderr(),
    )
}

/// Says that some requests were answered and the next one was not, and answers the exit status.
fn tell_broken(rt: &HostRuntime, desk: &DeskAt<'_>, answered: u64, why: Silence) -> u8 {
    let status = tell_silence(rt, desk, why);
    let _printed = eprintln!(rt;
        "{answered} requests were answered; the same command, sent again, does the rest"
    );
    status
}

/// Has a desk carry out requests, a line each, and copies what came of them. The first that is refused ends them.
fn ask_lines(rt: &HostRuntime, desk: &DeskAt<'_>, lines: &[u8], output: &mut Output<'_>) -> u8 {
    let mut answered: u64 = 0;
    for line in lines.split(|byte| *byte == b'\n') {
        if !line.is_empty() {
            match ask_outcome(rt, desk, line, &mut *output) {
                Ok(0) => answered = answered.saturating_add(1),
                Ok(status) => return status,
                Err(why) => return tell_broken(rt, desk, answered, why),
            }
        }
    }
    0
}

/// Carries out requests by a desk, a line each, and answers the exit status.
fn drop_lines(rt: &HostRuntime, desk: &DeskAt<'_>, given: &ArgMatches<'_>, lines: &[u8]) -> u8 {
    let mut output = verb_output(rt, given);
    let status = ask_lines(rt, desk, lines, &mut output);
    print_unless_done(rt, &output, status)
}

/// Drops an item by a desk, by the words of a command line, and answers the exit status.
pub(crate) fn drop_by<W: AsStr>(
    rt: &HostRuntime,
    desk: &DeskAt<'_>,
    words: &[W],
    given: &ArgMatches<'_>,
) -> Option<u8> {
    let Ok(shown) = words_before(rt, ["drop", "--dry-run"].as_slice(), words, 2) else {
        return Some(tell_silence(rt, desk, WANT));
    };
    let mut lines = Vec::new(rt.alloc());
    match ask(
        rt,
        desk,
        shown.as_slice(),
        b"",
        &mut lines,
        &mut rt.stderr(),
    ) {
        Ok(0) => Some(drop_lines(rt, desk, given, lines.as_slice())),
        Ok(status) => Some(print_kept(rt, lines.as_slice(), status)),
        Err(why) => tell_unless_passed(rt, desk, why),
    }
}
