//! Requests as JSON, worked out by hand; lines as the formats state them, digests by Python's `hashlib`.

use crate::steps::{Of, Table, Told, cut, unescaped, wrong_of};
use request_json::requests::read_request;
use sheet_types::command::{Command, Request};
use sheet_types::error::OutOfMemory;
use sheet_types::lines::line;
use sheet_types::words::OrEmpty;
use std::alloc::Global;

// The line of a request of the moment, where it moves something from, and where to.
fn tell_request(alloc: Global, request: &Request, told: &mut Told) -> Result<(), OutOfMemory> {
    told.word(request.at.as_str());
    told.worded(" ", &line(alloc, &request.command)?);
    told.worded(" ", &OrEmpty(request.command.source()));
    told.worded(" ", &OrEmpty(request.command.target()));
    Ok(())
}

// How many bytes are added.
fn tell_size(request: &Request, told: &mut Told) {
    match &request.command {
        Command::Add { content, .. } => told.value(&content.size()),
        _ => told.word("no addition"),
    }
}

fn tell_read(
    alloc: Global,
    text: &[u8],
    is_sized: bool,
    told: &mut Told,
) -> Result<(), OutOfMemory> {
    match read_request(alloc, text)? {
        Some(request) if is_sized => tell_size(&request, told),
        Some(request) => tell_request(alloc, &request, told)?,
        None => told.word("-"),
    }
    Ok(())
}

// The members that every request has, but for its command; and the other members of the addition of
// a tile, but for its zoom and data.
fn front_of(kind: &str) -> &'static str {
    match kind {
        "rest" => {
            "{`request`:`90000000-0000-4000-8000-000000000001`,`at`:`2024-05-01T08:00:00.000Z`,\
            `package`:`a0000000-0000-4000-8000-000000000000`,`command`:"
        }
        "tile" | "size" => {
            "{`request`:`90000000-0000-4000-8000-000000000001`,`at`:`2024-05-01T08:00:00.000Z`,\
            `package`:`a0000000-0000-4000-8000-000000000000`,`command`:`add`,`kind`:`tile`,\
            `identity`:`00000000-0000-4000-8000-000000000001`,`column`:3,`row`:3,"
        }
        _ => "",
    }
}

// Two hundred lists, one in the other.
fn deep(alloc: Global) -> Result<String, OutOfMemory> {
    let mut text = "[".repeat(alloc, 200)?;
    text.push_str("]".repeat(alloc, 200)?.as_str())?;
    Ok(text)
}

// All of a text, or what comes behind the front that its kind says.
fn body(alloc: Global, kind: &str, rest: &str) -> Result<String, OutOfMemory> {
    if kind == "deep" {
        return deep(alloc);
    }
    let words = format!(in alloc; "{}{rest}", front_of(kind))?;
    unescaped(alloc, words.as_str())
}

/// A text as JSON: all of it, or what comes behind the members that every request has, or behind
/// those of a tile too, where the size of its data may be asked; and bytes that are none.
pub(crate) fn body_of(alloc: Global, question: &str, told: &mut Told) -> Result<(), OutOfMemory> {
    let (kind, rest) = cut(question);
    match kind {
        "broken" => tell_read(alloc, b"\xff", false, told),
        "whole" | "rest" | "tile" | "size" | "deep" => {
            let text = body(alloc, kind, rest)?;
            tell_read(alloc, text.as_bytes(), kind == "size", told)
        }
        _ => {
            told.unread(question);
            Ok(())
        }
    }
}

const REQUESTS: Table = Table(
    38,
    "whole {`at`:`2024-05-01T08:00:00.000Z`,`command`:`add`,`data`:`41`,`identity`:\
    `00000000-0000-4000-8000-000000000001`,`kind`:`tile`,`package`:`a0000000-0000-4000-8000-000000000000`,\
    `request`:`90000000-0000-4000-8000-000000000001`,`column`:3,`row`:3,`zoom`:2} => [2024-05-01T08:00:00.000Z \
    add a0000000-0000-4000-8000-000000000000 00000000-0000-4000-8000-000000000001 tile 1 \
    b363ee0ecc9cf61b12ecdafd75dca2779729b4fcc5f1bd718c33aad2c94af4f8  a0000000-0000-4000-8000-000000000000]
rest `add`,`kind`:`media`,`identity`:`00000000-0000-4000-8000-000000000003`,`text`:`image/jpeg`,\
    `data`:`4a50`} => \
    [2024-05-01T08:00:00.000Z add a0000000-0000-4000-8000-000000000000 00000000-0000-4000-8000-000000000003 \
    media 2 0d293ef7b06e5c2cd296350b48694d0921c8acb7a72407aee7d2dbd3936d7da0  \
    a0000000-0000-4000-8000-000000000000]
rest `add`,`kind`:`row`,`identity`:`00000000-0000-4000-8000-000000000002`,`x`:0,`y`:4096,`code`:7,\
    `text`:`gate`} => \
    [2024-05-01T08:00:00.000Z add a0000000-0000-4000-8000-000000000000 00000000-0000-4000-8000-000000000002 \
    row 4 \
    e43e5d2489a3da72d168ede7401f6f60f459782a7e66f46822d8dcd10bb20517  a0000000-0000-4000-8000-000000000000]
rest `delete`,`identity`:`00000000-0000-4000-8000-00000000000A`} => [2024-05-01T08:00:00.000Z \
    delete a0000000-0000-4000-8000-000000000000 00000000-0000-4000-8000-00000000000a \
    a0000000-0000-4000-8000-000000000000 ]
rest `link`,`kind`:`tiles_media`,`identity`:`00000000-0000-4000-8000-000000000001`,\
    `other`:`00000000-0000-4000-8000-000000000003`} => [2024-05-01T08:00:00.000Z \
    link tiles_media a0000000-0000-4000-8000-000000000000 00000000-0000-4000-8000-000000000001 \
    00000000-0000-4000-8000-000000000003  a0000000-0000-4000-8000-000000000000]
rest `unlink`,`kind`:`rows_media`,`identity`:`00000000-0000-4000-8000-000000000002`,\
    `other`:`00000000-0000-4000-8000-000000000003`} => [2024-05-01T08:00:00.000Z \
    unlink rows_media a0000000-0000-4000-8000-000000000000 00000000-0000-4000-8000-000000000002 \
    00000000-0000-4000-8000-000000000003 a0000000-0000-4000-8000-000000000000 ]
rest `split`,`kind`:`follow`,`other`:`b0000000-0000-4000-8000-000000000000`,`zoom`:1,`column`:2,\
    `last_column`:3,\
    `row`:4,`last_row`:-5} => [2024-05-01T08:00:00.000Z split a0000000-0000-4000-8000-000000000000 \
    b0000000-0000-4000-8000-000000000000 follow 1 2 3 4 -5 a0000000-0000-4000-8000-000000000000 \
    b0000000-0000-4000-8000-000000000000]
rest `merge`,`other`:`b0000000-0000-4000-8000-000000000000`,`ticket`:9223372036854775807} => \
    [2024-05-01T08:00:00.000Z merge a0000000-0000-4000-8000-000000000000 b0000000-0000-4000-8000-000000000000 \
    9223372036854775807 a0000000-0000-4000-8000-000000000000 b0000000-0000-4000-8000-000000000000]
# of a member that comes again the last stays
rest `merge`,`ticket`:`x`,`other`:`b0000000-0000-4000-8000-000000000000`,`ticket`:7} => \
    [2024-05-01T08:00:00.000Z \
    merge a0000000-0000-4000-8000-000000000000 b0000000-0000-4000-8000-000000000000 7 \
    a0000000-0000-4000-8000-000000000000 b0000000-0000-4000-8000-000000000000]
# data in either case, and none
size `zoom`:2,`data`:`aBcD`} => [2]
size `zoom`:2,`data`:``} => [0]
whole {`request` => [-]
# what is no request
tile `zoom`:2.0,`data`:`41`} => [-]
tile `zoom`:2e0,`data`:`41`} => [-]
tile `zoom`:-0,`data`:`41`} => [-]
tile `zoom`:9223372036854775808,`data`:`41`} => [-]
tile `zoom`:`2`,`data`:`41`} => [-]
tile `zoom`:2,`data`:`41`,`extra`:1} => [-]
tile `zoom`:2,`data`:`41`,`text`:``} => [-]
tile `zoom`:2,`data`:`4`} => [-]
tile `zoom`:2,`data`:`4g`} => [-]
tile `zoom`:2,`data`:41} => [-]
tile `zoom`:2} => [-]
tile `data`:`41`} => [-]
tile `zoom`:2,`data`:`41`}} => [-]
rest `Delete`,`identity`:`00000000-0000-4000-8000-000000000001`} => [-]
rest `delete`,`identity`:`00000000000040008000000000000001`} => [-]
rest `delete`} => [-]
rest `add`,`kind`:`tiles_media`,`identity`:`00000000-0000-4000-8000-000000000001`} => [-]
rest `link`,`kind`:`tile`,`identity`:`00000000-0000-4000-8000-000000000001`,\
    `other`:`00000000-0000-4000-8000-000000000003`} => [-]
rest `link`,`kind`:`tiles_media`,`identity`:`00000000-0000-4000-8000-000000000001`,\
    `media`:`00000000-0000-4000-8000-000000000003`} => [-]
rest `merge`,`other`:`b0000000-0000-4000-8000-000000000000`,`ticket`:9223372036854775808} => [-]
rest `merge`,`other`:`b0000000-0000-4000-8000-000000000000`,`ticket`:1,`kind`:`strict`} => [-]
whole [] => [-]
whole {} => [-]
whole null => [-]
# what is no text, and two hundred lists, one in the other
broken => [-]
deep => [-]
",
);

#[test]
fn requests_and_what_is_none(rt: HostRuntime) {
    assert_eq!(rt; wrong_of(rt.alloc(), Of::Bodies, REQUESTS).wrong(), "");
}
