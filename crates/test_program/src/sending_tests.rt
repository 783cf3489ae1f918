// Writers that take a byte at a time, that stop in the middle of a text, or fail once.
use crate::streams::{Wrote, judged};
use crate::worlds::passes;
use manifest_csv::sending::send;
use package_tables::fault::Fault;
use std::alloc::Global;
use std::io::{Error, ErrorKind, Result as IoResult, Write};
use test_values::Checked;

// What a writer takes at a call, in turn; behind the last it takes nothing more.
#[derive(Clone, Copy)]
enum Taking {
    // One byte at every second call, and it is interrupted before; so many bytes, after which it fails, or takes
    // nothing.
    SlowlyThenFails(usize),
    SlowlyThenNothing(usize),
    // Five bytes a call, but for the second, which fails.
    FailsOnce,
    All,
}

#[derive(Drop)]
struct Taker {
    taken: Vec<u8>,
    taking: Taking,
    calls: usize,
}

// How many bytes of so many are taken at a call.
fn slowly(calls: usize, taken: usize, most: usize, end: IoResult<usize>) -> IoResult<usize> {
    if calls % 2 == 1 {
        return Err(Error::from(ErrorKind::Interrupted));
    }
    if taken < most { Ok(1) } else { end }
}

impl Taker {
    fn next(&self) -> IoResult<usize> {
        let broken = Err(Error::from(ErrorKind::BrokenPipe));
        match self.taking {
            Taking::SlowlyThenFails(most) => slowly(self.calls, self.taken.len(), most, broken),
            Taking::SlowlyThenNothing(most) => slowly(self.calls, self.taken.len(), most, Ok(0)),
            Taking::FailsOnce if self.calls == 2 => broken,
            Taking::FailsOnce => Ok(5),
            Taking::All => Ok(usize::MAX),
        }
    }
}

impl Write for Taker {
    fn write(&mut self, buf: &[u8]) -> IoResult<usize> {
        self.calls = self.calls.saturating_add(1);
        let count = buf.len().min(self.next()?);
        if self.taken.extend_from_slice(&buf[..count]).is_err() {
            return Err(Error::from(ErrorKind::OutOfMemory));
        }
        Ok(count)
    }

    fn flush(&mut self) -> IoResult<()> {
        Ok(())
    }
}

// Sends texts, and tells what came of each, and in how many calls.
fn sent(alloc: Global, taking: Taking, texts: &[&str], wrote: Wrote) -> Result<String, Fault> {
    let mut out = Taker {
        taken: Vec::new(alloc),
        taking,
        calls: 0,
    };
    let mut ended = String::new(alloc);
    for text in texts {
        ended.push_str(match send(&mut out, text.as_bytes()) {
            Ok(()) => "sent ",
            Err(_) => "stopped ",
        })?;
    }
    ended.push_str(format!(in alloc; "in {}", out.calls)?.as_str())?;
    judged(alloc, ended, out.taken.as_slice(), wrote)
}

fn wrong(a: Global) -> Result<String, Fault> {
    let mut checked = Checked::new(a);
    let line = "line,request\n";
    let cut = Wrote::All("line,");
    let whole = Wrote::All("line,request\n1");
    let texts = ["line,request", "", "\n1"];
    checked.told(
        sent(a, Taking::All, texts.as_slice(), whole),
        "sent sent sent in 2",
    );
    for (taking, text, wrote, ended) in [
        (
            Taking::SlowlyThenFails(100),
            line,
            Wrote::All(line),
            "sent in 26",
        ),
        (Taking::SlowlyThenFails(5), line, cut, "stopped in 12"),
        (Taking::SlowlyThenNothing(5), line, cut, "stopped in 12"),
        (Taking::SlowlyThenNothing(5), "line,", cut, "sent in 10"),
        // A write that failed is not tried again, though it would go through.
        (Taking::FailsOnce, line, cut, "stopped in 2"),
    ] {
        checked.told(sent(a, taking, [text].as_slice(), wrote), ended);
    }
    Ok(String::from_str(a, checked.wrong())?)
}

#[test]
fn whole_texts_and_writers_that_stop(rt: HostRuntime) {
    passes(&rt, wrong(rt.alloc()));
}
