// Request lists and requests to a desk, written out by hand; the digests are Python's `hashlib`.
use crate::streams::Wrote;
use command_words::arguments::Words;
use std::alloc::{AllocError, Global};
use test_lists::{FIRST_TILE, MANIFEST_OF_THE_FIRST, list};

// The words of a rehearsal.
pub(crate) const GOOD: Words<'static> = Words {
    archive: "a0000000-0000-4000-8000-000000000000",
    at: "2024-05-01T08:00:00.000Z",
    frame: "25832,0,0,4096,4096,256,256,0,3,1,1",
};

const SECOND_BESIDE: &str =
    "90000000-0000-4000-8000-000000000002,2024-05-01T08:00:00.000Z,add,a0000000-0000-4000-8000-000000000000,00000000-0000-4000-8000-000000000002,,tile,2,2,3,,,,,,,,42";

const TILE_TO_LEND: &str =
    "90000000-0000-4000-8000-000000000001,2024-05-01T08:00:00.000Z,add,a0000000-0000-4000-8000-000000000000,00000000-0000-4000-8000-000000000001,,tile,1,0,0,,,,,,,,41";

const SPLIT: &str =
    "90000000-0000-4000-8000-000000000002,2024-05-01T08:00:00.000Z,split,a0000000-0000-4000-8000-000000000000,,b0000000-0000-4000-8000-000000000000,strict,1,0,0,0,0,,,,,,";

// The last receipt of the loan is that of its split, 2.
const STALE: &str =
    "90000000-0000-4000-8000-000000000003,2024-05-01T08:00:00.000Z,merge,b0000000-0000-4000-8000-000000000000,,a0000000-0000-4000-8000-000000000000,,,,,,,,,,1,,";

const HOME: &str =
    "90000000-0000-4000-8000-000000000004,2024-05-01T08:00:00.000Z,merge,b0000000-0000-4000-8000-000000000000,,a0000000-0000-4000-8000-000000000000,,,,,,,,,,2,,";

// A text that may be a request list.
#[derive(Clone, Copy)]
pub(crate) enum List {
    // One tile, two tiles.
    One,
    Two,
    // A tile that is lent, and comes home at the second try.
    Lends,
    // One tile of 1,048,576 bytes 0xa5.
    Greatest,
    // Seventeen such tiles, of the bytes 1, 2 and so on: sixteen at zoom 2, row by row, and one at zoom 1.
    Many,
    // The first tile, asked for 4,097 times.
    Often,
    // No header.
    Headless,
}

// The first tile, with the greatest size.
fn greatest(alloc: Global) -> Result<String, AllocError> {
    let mut text = list(alloc, &[])?;
    text.push_str(FIRST_TILE.trim_end_matches("41"))?;
    text.push_str("a5".repeat(alloc, 1_048_576)?.as_str())?;
    text.push_str("\n")?;
    Ok(text)
}

// The tile of a number from 1, at the next place.
fn push_great(alloc: Global, text: &mut String, number: usize) -> Result<(), AllocError> {
    let at = number.saturating_sub(1);
    let (zoom, column, row) = if at < 16 {
        (2, at % 4, at / 4)
    } else {
        (1, 0, 0)
    };
    let front = format!(in alloc;
        "90000000-0000-4000-8000-0000000000{number:02x},2024-05-01T08:00:00.000Z,add,a0000000-0000-4000-8000-000000000000,"
    )?;
    let place = format!(in alloc;
        "00000000-0000-4000-8000-0000000000{number:02x},,tile,{zoom},{column},{row},,,,,,,,"
    )?;
    let byte = format!(in alloc; "{number:02x}")?;
    text.push_str(front.as_str())?;
    text.push_str(place.as_str())?;
    text.push_str(byte.as_str().repeat(alloc, 1_048_576)?.as_str())?;
    text.push_str("\n")
}

fn many(alloc: Global) -> Result<String, AllocError> {
    let mut text = list(alloc, &[])?;
    for number in 1..18 {
        push_great(alloc, &mut text, number)?;
    }
    Ok(text)
}

// More than a world in the engine's arrays is asked for.
fn often(alloc: Global) -> Result<String, AllocError> {
    let mut text = list(alloc, &[FIRST_TILE])?;
    let again = format!(in alloc; "{FIRST_TILE}\n")?;
    text.push_str(again.as_str().repeat(alloc, 4_096)?.as_str())?;
    Ok(text)
}

pub(crate) fn list_text(alloc: Global, which: List) -> Result<String, AllocError> {
    match which {
        List::One => list(alloc, &[FIRST_TILE]),
        List::Two => list(alloc, &[FIRST_TILE, SECOND_BESIDE]),
        List::Lends => list(alloc, &[TILE_TO_LEND, SPLIT, STALE, HOME]),
        List::Greatest => greatest(alloc),
        List::Many => many(alloc),
        List::Often => often(alloc),
        List::Headless => String::from_str(alloc, FIRST_TILE),
    }
}

pub(crate) const REPORT_OF_ONE: &str =
    "line,request,seq,refusal\n1,90000000-0000-4000-8000-000000000001,1,0\n";

// What a rehearsal of one tile prints, and of many more requests for the same: the report begins with the first line of
// the list, and the manifest of the tile ends what is written.
pub(crate) const PRINTED: Wrote = Wrote::Ends(REPORT_OF_ONE, MANIFEST_OF_THE_FIRST);

// A header of 25 bytes and two lines of 43.
pub(crate) const REPORT_OF_TWO: &str =
    "line,request,seq,refusal\n1,90000000-0000-4000-8000-000000000001,1,0\n2,90000000-0000-4000-8000-000000000002,2,0\n";

// The first tile as a request to a desk, and its receipt with an end of line.
pub(crate) const ADD: &str =
    "{\"at\":\"2024-05-01T08:00:00.000Z\",\"command\":\"add\",\"data\":\"41\",\"identity\":\"00000000-0000-4000-8000-000000000001\",\"kind\":\"tile\",\"package\":\"a0000000-0000-4000-8000-000000000000\",\"request\":\"90000000-0000-4000-8000-000000000001\",\"column\":3,\"row\":3,\"zoom\":2}";

pub(crate) const RECEIPT_LINE: &str =
    "{\"at\":\"2024-05-01T08:00:00.000Z\",\"bytes\":1,\"from\":\"\",\"items\":1,\"line\":\"add a0000000-0000-4000-8000-000000000000 00000000-0000-4000-8000-000000000001 tile 1 b363ee0ecc9cf61b12ecdafd75dca2779729b4fcc5f1bd718c33aad2c94af4f8\",\"links\":0,\"media\":0,\"request\":\"90000000-0000-4000-8000-000000000001\",\"rows\":0,\"seq\":1,\"tiles\":1,\"to\":\"a0000000-0000-4000-8000-000000000000\"}\n";

// The whole answer to it: the receipt has 362 bytes.
pub(crate) const ANSWER: &str =
    "HTTP/1.1 200 OK\r\ncontent-type: application/json\r\ncontent-length: 362\r\nconnection: close\r\n\r\n{\"at\":\"2024-05-01T08:00:00.000Z\",\"bytes\":1,\"from\":\"\",\"items\":1,\"line\":\"add a0000000-0000-4000-8000-000000000000 00000000-0000-4000-8000-000000000001 tile 1 b363ee0ecc9cf61b12ecdafd75dca2779729b4fcc5f1bd718c33aad2c94af4f8\",\"links\":0,\"media\":0,\"request\":\"90000000-0000-4000-8000-000000000001\",\"rows\":0,\"seq\":1,\"tiles\":1,\"to\":\"a0000000-0000-4000-8000-000000000000\"}";

// A second tile, and its receipt.
pub(crate) const ADD_SECOND: &str =
    "{\"at\":\"2024-05-01T08:01:00.000Z\",\"command\":\"add\",\"data\":\"42\",\"identity\":\"00000000-0000-4000-8000-000000000002\",\"kind\":\"tile\",\"package\":\"a0000000-0000-4000-8000-000000000000\",\"request\":\"90000000-0000-4000-8000-000000000002\",\"column\":2,\"row\":3,\"zoom\":2}";

pub(crate) const RECEIPT_OF_SECOND: &str =
    "{\"at\":\"2024-05-01T08:01:00.000Z\",\"bytes\":1,\"from\":\"\",\"items\":1,\"line\":\"add a0000000-0000-4000-8000-000000000000 00000000-0000-4000-8000-000000000002 tile 1 ca064f10d44434d2993b7838dd7608a5eb80700df31329372f266a175e8d221c\",\"links\":0,\"media\":0,\"request\":\"90000000-0000-4000-8000-000000000002\",\"rows\":0,\"seq\":2,\"tiles\":1,\"to\":\"a0000000-0000-4000-8000-000000000000\"}";

// Another tile at the place of the first.
pub(crate) const ADD_AT_SAME_PLACE: &str =
    "{\"at\":\"2024-05-01T08:00:00.000Z\",\"command\":\"add\",\"data\":\"41\",\"identity\":\"00000000-0000-4000-8000-000000000002\",\"kind\":\"tile\",\"package\":\"a0000000-0000-4000-8000-000000000000\",\"request\":\"90000000-0000-4000-8000-000000000002\",\"column\":3,\"row\":3,\"zoom\":2}";

// What an archive is told as that the first tile alone came into.
pub(crate) const PACKAGES_OF_ONE: &str =
    "\r\n\r\n[{\"bytes\":1,\"depth\":0,\"links\":0,\"loans\":0,\"media\":0,\"package\":\"a0000000-0000-4000-8000-000000000000\",\"parent\":\"\",\"rows\":0,\"ticket\":1,\"tiles\":1}]";

// What a client sends.
#[derive(Clone, Copy)]
pub(crate) enum Sent {
    // These bytes.
    Bytes(&'static str),
    // A request with its length, and with one byte more than it has.
    Post(&'static str),
    Short(&'static str),
    // 60,000 bytes of a body that is said to be too large.
    Large,
}

fn post(alloc: Global, size: usize, body: &str) -> Result<String, AllocError> {
    format!(in alloc; "POST /requests HTTP/1.1\r\nContent-Length: {size}\r\n\r\n{body}")
}

pub(crate) fn sent_text(alloc: Global, sent: Sent) -> Result<String, AllocError> {
    match sent {
        Sent::Bytes(text) => String::from_str(alloc, text),
        Sent::Post(body) => post(alloc, body.len(), body),
        Sent::Short(body) => post(alloc, body.len().saturating_add(1), body),
        Sent::Large => post(alloc, 2_200_001, "0123456789".repeat(alloc, 6000)?.as_str()),
    }
}
