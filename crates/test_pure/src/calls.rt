//! What the bytes of connections ask, worked out by hand.

use crate::steps::{Of, Table, Told, cut, unescaped, wrong_of};
use desk_calls::calls::{Call, CallFault};
use desk_calls::reading::read_call;
use desk_calls::source::{Memory, Outer, Source};
use sheet_types::command::Request;
use sheet_types::error::OutOfMemory;
use sheet_types::lines::line;
use sheet_types::reading::read_uuid;
use sheet_types::words::OrEmpty;
use std::alloc::Global;
use std::io;
use std::io::{ErrorKind, Read};

// A body of 251 bytes, by Python's `len`.
const ADD: &str =
    "{`at`:`2024-05-01T08:00:00.000Z`,`command`:`add`,`data`:`41`,`identity`:`00000000-0000-4000-8000-000000000001`,\
    `kind`:`tile`,`package`:`a0000000-0000-4000-8000-000000000000`,`request`:`90000000-0000-4000-8000-000000000001`,\
    `column`:3,`row`:3,`zoom`:2}";

// Its digest is that of `tile 2 3 3`, a line feed and `A`, by Python's `hashlib`.
const LINE: &str =
    "add a0000000-0000-4000-8000-000000000000 00000000-0000-4000-8000-000000000001 tile 1 \
    b363ee0ecc9cf61b12ecdafd75dca2779729b4fcc5f1bd718c33aad2c94af4f8";

// Whether it is the request of the body, or the line of another.
fn tell_request(alloc: Global, request: &Request, told: &mut Told) -> Result<(), OutOfMemory> {
    if read_uuid("90000000-0000-4000-8000-000000000001") != Some(request.id) {
        told.word("another request");
    }
    let text = line(alloc, &request.command)?;
    told.word(if text.as_str() == LINE {
        "the addition"
    } else {
        text.as_str()
    });
    Ok(())
}

fn tell_call(alloc: Global, call: &Call, told: &mut Told) -> Result<(), OutOfMemory> {
    match call {
        Call::Refused(flaw) => told.name(flaw),
        Call::Apply(request) => tell_request(alloc, request, told)?,
        Call::Packages => told.word("packages"),
        Call::Manifest(found) => told.worded("manifest ", &OrEmpty(*found)),
        Call::Receipt(found) => told.worded("receipt ", &OrEmpty(*found)),
    }
    Ok(())
}

fn tell_asked<R: Source>(
    alloc: Global,
    source: &mut R,
    told: &mut Told,
) -> Result<(), OutOfMemory> {
    match read_call(alloc, b"http://127.0.0.1:8080", source) {
        Ok(Some(call)) => return tell_call(alloc, &call, told),
        Ok(None) => told.word("nothing"),
        Err(CallFault::Failed) => told.word("failed"),
        Err(CallFault::Memory) => return Err(OutOfMemory),
    }
    Ok(())
}

// A reader that is interrupted before each byte, gives it then, and fails after the last.
#[derive(Drop)]
struct Failing<'a> {
    text: &'a [u8],
    is_ready: bool,
}

impl<'a> Read for Failing<'a> {
    fn read(&mut self, buf: &mut [u8]) -> io::Result<usize> {
        self.is_ready = !self.is_ready;
        if !self.is_ready {
            return Err(io::Error::from(ErrorKind::Interrupted));
        }
        if self.text.is_empty() {
            return Err(io::Error::from(ErrorKind::BrokenPipe));
        }
        let n = buf.len().min(1);
        buf[..n].copy_from_slice(&self.text[..n]);
        self.text = &self.text[n..];
        Ok(n)
    }
}

fn first(text: &[u8], count: usize) -> &[u8] {
    &text[..text.len().min(count)]
}

// The first bytes of a text, by a reader that then ends or fails.
fn tell_sent(
    alloc: Global,
    words: &str,
    count: usize,
    fails: bool,
    told: &mut Told,
) -> Result<(), OutOfMemory> {
    let bytes = unescaped(alloc, words)?;
    let text = first(bytes.as_bytes(), count);
    if fails {
        let failing = Failing {
            text,
            is_ready: true,
        };
        return tell_asked(alloc, &mut Outer(failing), told);
    }
    tell_asked(alloc, &mut Memory(text), told)
}

// What stands between bars, the second as often as is said.
fn repeated(alloc: Global, words: &str, count: usize) -> Result<String, OutOfMemory> {
    let (front, rest) = words.split_once('|').unwrap_or((words, ""));
    let (unit, back) = rest.split_once('|').unwrap_or((rest, ""));
    let many = unit.repeat(alloc, count)?;
    Ok(format!(in alloc; "{front}{}{back}", many.as_str())?)
}

// The words that are sent: `@` stands for the body.
fn sent(alloc: Global, kind: &str, count: usize, words: &str) -> Result<String, OutOfMemory> {
    if kind == "repeated" {
        return repeated(alloc, words, count);
    }
    Ok(words.replace(alloc, '@', ADD)?)
}

/// What is sent, and how much of it: all, so many bytes, those by a reader that then fails, or with
/// a part that comes as often.
pub(crate) fn call_of(alloc: Global, question: &str, told: &mut Told) -> Result<(), OutOfMemory> {
    let (kind, rest) = cut(question);
    let (count, words) = if kind == "all" {
        ("0", rest)
    } else {
        cut(rest)
    };
    let Ok(count) = count.parse::<usize>() else {
        told.unread(question);
        return Ok(());
    };
    let (taken, fails) = match kind {
        "all" | "repeated" => (usize::MAX, false),
        "cut" => (count, false),
        "failing" => (count, true),
        _ => {
            told.unread(kind);
            return Ok(());
        }
    };
    let text = sent(alloc, kind, count, words)?;
    tell_sent(alloc, text.as_str(), taken, fails, told)
}

const CALLS: Table = Table(
    115,
    "# each beginning of a request
cut 1 GET /nothing HTTP/1.1~~ => [BadRequest]
cut 2 GET /nothing HTTP/1.1~~ => [BadRequest]
cut 3 GET /nothing HTTP/1.1~~ => [BadRequest]
cut 4 GET /nothing HTTP/1.1~~ => [BadRequest]
cut 5 GET /nothing HTTP/1.1~~ => [BadRequest]
cut 6 GET /nothing HTTP/1.1~~ => [BadRequest]
cut 7 GET /nothing HTTP/1.1~~ => [BadRequest]
cut 8 GET /nothing HTTP/1.1~~ => [BadRequest]
cut 9 GET /nothing HTTP/1.1~~ => [BadRequest]
cut 10 GET /nothing HTTP/1.1~~ => [BadRequest]
cut 11 GET /nothing HTTP/1.1~~ => [BadRequest]
cut 12 GET /nothing HTTP/1.1~~ => [BadRequest]
cut 13 GET /nothing HTTP/1.1~~ => [BadRequest]
cut 14 GET /nothing HTTP/1.1~~ => [BadRequest]
cut 15 GET /nothing HTTP/1.1~~ => [BadRequest]
cut 16 GET /nothing HTTP/1.1~~ => [BadRequest]
cut 17 GET /nothing HTTP/1.1~~ => [BadRequest]
cut 18 GET /nothing HTTP/1.1~~ => [BadRequest]
cut 19 GET /nothing HTTP/1.1~~ => [BadRequest]
cut 20 GET /nothing HTTP/1.1~~ => [BadRequest]
cut 21 GET /nothing HTTP/1.1~~ => [BadRequest]
cut 22 GET /nothing HTTP/1.1~~ => [BadRequest]
cut 23 GET /nothing HTTP/1.1~~ => [BadRequest]
cut 24 GET /nothing HTTP/1.1~~ => [BadRequest]
cut 25 GET /nothing HTTP/1.1~~ => [NoSuchPath]
cut 0 GET /nothing HTTP/1.1~~ => [nothing]
# blank lines before the request line, a line feed alone at the ends of lines, the older version
all ~^GET /packages HTTP/1.1~~ => [packages]
all GET /packages HTTP/1.1^^ => [packages]
all GET /packages HTTP/1.0~~ => [packages]
all GET /packages?x=1?y HTTP/1.1~Accept: */*~~ => [packages]
# a body of a GET is not looked at
all GET /packages HTTP/1.1~Content-Length: x~Transfer-Encoding: chunked~~ => [packages]
all GET /packages HTTP/2.0~~ => [BadRequest]
all GET  /packages HTTP/1.1~~ => [BadRequest]
all GET /packages~~ => [BadRequest]
all GET /packages HTTP/1.1~no colon~~ => [BadRequest]
all ~ => [BadRequest]
all GET /requests HTTP/1.1~~ => [BadMethod]
all POST /packages HTTP/1.1~~ => [BadMethod]
all post /requests HTTP/1.1~~ => [BadMethod]
# a wrong method is seen before a wrong length, an unknown path before a wrong method
all PUT /requests HTTP/1.1~Content-Length: x~~ => [BadMethod]
all PUT /request HTTP/1.1~~ => [NoSuchPath]
all GET /packages/ HTTP/1.1~~ => [NoSuchPath]
all GET /packages//manifest HTTP/1.1~~ => [NoSuchPath]
all GET /packages/x/manifest/ HTTP/1.1~~ => [NoSuchPath]
all GET /receipts/ HTTP/1.1~~ => [NoSuchPath]
all GET /receipts/x/y HTTP/1.1~~ => [NoSuchPath]
all GET /Packages HTTP/1.1~~ => [NoSuchPath]
all GET /packages/A0000000-0000-4000-8000-00000000000a/manifest?x HTTP/1.1~~ => \
    [manifest a0000000-0000-4000-8000-00000000000a]
all GET /receipts/90000000-0000-4000-8000-000000000001 HTTP/1.0~~ => [receipt \
    90000000-0000-4000-8000-000000000001]
# what is no UUID
all GET /packages/x/manifest HTTP/1.1~~ => [manifest ]
all GET /packages/a000000000004000800000000000000a/manifest HTTP/1.1~~ => [manifest ]
all GET /packages/%610000000-0000-4000-8000-00000000000a/manifest HTTP/1.1~~ => [manifest ]
all GET /receipts/{90000000-0000-4000-8000-000000000001} HTTP/1.1~~ => [receipt ]
all POST /requests HTTP/1.1~Content-Length: 2200000~~{} => [BadRequest]
all POST /requests HTTP/1.1~content-length: 2200001~~{} => [TooLarge]
all POST /requests HTTP/1.1~CONTENT-LENGTH: 999999999~~{} => [TooLarge]
all POST /requests HTTP/1.1~Content-Length: 0000000001~~{} => [BadRequest]
all POST /requests HTTP/1.1~Content-Length: +1~~{} => [BadRequest]
all POST /requests HTTP/1.1~Content-Length: 1 1~~{} => [BadRequest]
all POST /requests HTTP/1.1~Content-Length:~~{} => [BadRequest]
all POST /requests HTTP/1.1~Content-Length: 5~Content-Length: 5~~{} => [BadRequest]
all POST /requests HTTP/1.1~~{} => [NoLength]
all POST /requests HTTP/1.1~Content-Length: 2200001~Transfer-Encoding: chunked~~{} => [BadRequest]
all POST /requests HTTP/1.1~transfer-encoding:~~{} => [BadRequest]
all POST /requests HTTP/1.1~Content-Length: 2~~{} => [BadRequest]
all POST /requests HTTP/1.1~Content-Length: 251~~@ => [the addition]
# nine digits, and what follows the body is not looked at
all POST /requests HTTP/1.0~content-length:  000000251 ~~@} => [the addition]
# one byte shorter than it says, and cut in its last byte
all POST /requests HTTP/1.1~Content-Length: 252~~@ => [BadRequest]
all POST /requests HTTP/1.1~Content-Length: 250~~@ => [BadRequest]
all POST /requests HTTP/1.1~Content-Length: 0~~ => [BadRequest]
all POST /requests HTTP/1.1~Content-Length: 2~~[] => [BadRequest]
all POST /requests HTTP/1.1~Content-Length: 7~~nothing => [BadRequest]
# a page of another address is refused first of all, one of the desk's own is not, nor is a program that is no browser
all POST /requests HTTP/1.1~Origin: http://evil.example~Content-Length: 251~~@ => [BadOrigin]
all GET /nothing HTTP/1.1~ORIGIN: null~~ => [BadOrigin]
all GET /packages HTTP/1.1~origin:~~ => [BadOrigin]
all GET /packages HTTP/1.1~Origin: http://127.0.0.1:8081~~ => [BadOrigin]
all GET /packages HTTP/1.1~Origin: http://127.0.0.1:8080~Origin: http://127.0.0.1:8080~~ => [BadOrigin]
all POST /requests HTTP/1.1~Origin: http://127.0.0.1:8080~Content-Length: 251~~@ => [the addition]
all GET /packages HTTP/1.1~Referer: http://evil.example~~ => [packages]
# nor does a page pass whose name was led to this machine; the machine's own names do, with any port
all GET /packages HTTP/1.1~Host: 127.0.0.1:8080~~ => [packages]
all GET /packages HTTP/1.1~Host: 127.0.0.1~~ => [packages]
all GET /packages HTTP/1.1~host: localhost:9000~~ => [packages]
all GET /packages HTTP/1.1~HOST: LOCALHOST~~ => [packages]
all GET /packages HTTP/1.0~Host: localHost:~~ => [packages]
all POST /requests HTTP/1.1~Host: localhost:8080~Content-Length: 251~~@ => [the addition]
all GET /packages HTTP/1.1~X-Host: evil.example~~ => [packages]
all POST /requests HTTP/1.1~Host: evil.example:8080~Content-Length: 251~~@ => [BadOrigin]
all GET /nothing HTTP/1.1~Host: evil.example:8080~~ => [BadOrigin]
all DELETE /packages HTTP/1.1~Host: evil.example~~ => [BadOrigin]
all GET /receipts/x HTTP/1.0~Host: 10.0.0.1~~ => [BadOrigin]
all GET /packages/x/manifest HTTP/1.1~Host: 127.0.0.1.evil.example~~ => [BadOrigin]
all GET /packages HTTP/1.1~Host: localhost.evil.example:8080~~ => [BadOrigin]
all GET /packages HTTP/1.1~Host: evil.localhost~~ => [BadOrigin]
all GET /packages HTTP/1.1~Host: 127.0.0.1:80x~~ => [BadOrigin]
all GET /packages HTTP/1.1~Host: 127.0.0.1:80:80~~ => [BadOrigin]
all GET /packages HTTP/1.1~Host: 127.0.0.18080~~ => [BadOrigin]
all GET /packages HTTP/1.1~Host: localhost@evil.example~~ => [BadOrigin]
all GET /packages HTTP/1.1~Host: localhos~~ => [BadOrigin]
all GET /packages HTTP/1.1~Host: :8080~~ => [BadOrigin]
all GET /packages HTTP/1.1~Host:~~ => [BadOrigin]
all GET /packages HTTP/1.1~Host: localhost~Host: localhost~~ => [BadOrigin]
all GET /packages HTTP/1.1~Origin: http://127.0.0.1:8080~Host: evil.example~~ => [BadOrigin]
all GET /packages HTTP/1.1~Origin: http://evil.example~Host: 127.0.0.1:8080~~ => [BadOrigin]
# limits of heads
repeated 64 GET /nothing HTTP/1.1~|a: b~|~ => [NoSuchPath]
repeated 65 GET /nothing HTTP/1.1~|a: b~|~ => [BadRequest]
repeated 16355 GET /nothing HTTP/1.1~a:|b|~~ => [NoSuchPath]
repeated 16356 GET /nothing HTTP/1.1~a:|b|~~ => [BadRequest]
# a reader that fails
failing 0 POST /requests HTTP/1.1~Content-Length: 251~~@ => [failed]
failing 1 POST /requests HTTP/1.1~Content-Length: 251~~@ => [failed]
failing 30 POST /requests HTTP/1.1~Content-Length: 251~~@ => [failed]
failing 60 POST /requests HTTP/1.1~Content-Length: 251~~@ => [failed]
failing 200 POST /requests HTTP/1.1~Content-Length: 251~~@ => [failed]
# only where nothing is asked of it any more, and after a check that fails nothing is taken
failing 1000 POST /requests HTTP/1.1~Content-Length: 251~~@ => [the addition]
failing 1000 POST /requests HTTP/1.1~Content-Length: 251~~ => [failed]
failing 1000 POST /packages HTTP/1.1~Content-Length: 5~~ => [BadMethod]
",
);

#[test]
fn heads_bodies_and_readers_that_fail(rt: HostRuntime) {
    assert_eq!(rt; wrong_of(rt.alloc(), Of::Calls, CALLS).wrong(), "");
}
