// Connections over memory, whose bytes were worked out by hand.
use crate::outputs::What;
use crate::streams::{NOTHING, Reads, WHOLE, Wrote};
use crate::texts::{ADD, ADD_AT_SAME_PLACE, ANSWER, PACKAGES_OF_ONE, Sent};
use crate::worlds::{Step, passes, wrong};
use package_tables::fault::Fault;
use std::alloc::Global;

// A connection over streams that do not fail.
const fn answers(sent: Sent, wrote: Wrote) -> Step {
    Step::Writes(What::Serves(sent, Reads::Whole), WHOLE, "answered", wrote)
}

#[test]
fn an_addition_and_what_is_read_of_it(rt: HostRuntime) {
    let steps = [
        answers(Sent::Post(ADD), Wrote::All(ANSWER)),
        // the second time it is the kept receipt
        answers(Sent::Post(ADD), Wrote::All(ANSWER)),
        answers(
            Sent::Bytes("GET /receipts/90000000-0000-4000-8000-000000000001 HTTP/1.0\r\n\r\n"),
            Wrote::All(ANSWER),
        ),
        answers(
            Sent::Bytes(
                "GET /packages/A0000000-0000-4000-8000-000000000000/manifest?x HTTP/1.1\r\n\r\n",
            ),
            Wrote::Ends(
                "HTTP/1.1 200 OK\r\ncontent-type: text/csv\r\n",
                "tile,00000000-0000-4000-8000-000000000001,,2,3,3,,,,1,b363ee0ecc9cf61b12ecdafd75dca2779729b4fcc5f1bd718c33aad2c94af4f8,\n",
            ),
        ),
        answers(
            Sent::Bytes("GET /packages HTTP/1.1\r\n\r\n"),
            Wrote::Ends("HTTP/1.1 200 OK\r\n", PACKAGES_OF_ONE),
        ),
        answers(
            Sent::Post(ADD_AT_SAME_PLACE),
            Wrote::Ends(
                "HTTP/1.1 409 Conflict\r\n",
                "\r\ncontent-length: 34\r\nconnection: close\r\n\r\n{\"name\":\"PlaceTaken\",\"refusal\":11}",
            ),
        ),
    ];
    passes(&rt, wrong(rt.alloc(), steps.as_slice()));
}

// One byte shorter than it says.
#[test]
fn a_body_that_is_short(rt: HostRuntime) {
    let steps = [
        answers(
            Sent::Short(ADD),
            Wrote::Ends(
                "HTTP/1.1 400 Bad Request\r\n",
                "\r\ncontent-length: 23\r\nconnection: close\r\n\r\n{\"fault\":\"bad request\"}",
            ),
        ),
        answers(
            Sent::Bytes("GET /packages HTTP/1.1\r\n\r\n"),
            Wrote::Ends("HTTP/1.1 200 OK\r\n", "\"ticket\":0,\"tiles\":0}]"),
        ),
    ];
    passes(&rt, wrong(rt.alloc(), steps.as_slice()));
}

// A connection whose reader fails after so many bytes.
const fn cut(count: usize, ended: &'static str, wrote: Wrote) -> Step {
    Step::Writes(
        What::Serves(Sent::Post(ADD), Reads::Fails(count)),
        WHOLE,
        ended,
        wrote,
    )
}

#[test]
fn readers_that_fail(rt: HostRuntime) {
    let steps = [
        cut(0, "unread", NOTHING),
        cut(1, "unread", NOTHING),
        cut(30, "unread", NOTHING),
        cut(60, "unread", NOTHING),
        cut(200, "unread", NOTHING),
        // it fails only where nothing is asked of it any more
        cut(WHOLE, "answered", Wrote::All(ANSWER)),
    ];
    passes(&rt, wrong(rt.alloc(), steps.as_slice()));
}

fn wrong_of_writers(alloc: Global) -> Result<String, Fault> {
    let post = What::Serves(Sent::Post(ADD), Reads::Whole);
    let mut steps = Vec::new(alloc);
    for room in [0usize, 10, 55, 300] {
        let front = Wrote::Front(ANSWER, room);
        steps.push(Step::Anew)?;
        steps.push(Step::Writes(post, room, "unwritten", front))?;
        steps.push(Step::Writes(post, WHOLE, "answered", Wrote::All(ANSWER)))?;
    }
    wrong(alloc, &steps)
}

// What was asked stands, and is answered at the next call.
#[test]
fn writers_that_fail(rt: HostRuntime) {
    passes(&rt, wrong_of_writers(rt.alloc()));
}
