//! What a desk is asked, and how its answers are read, worked out by hand.

use crate::steps::{Of, Table, Told, cut, unescaped, wrong_of};
use desk_asking::answers::{Answer, AnswerFault, copy_answer};
use desk_asking::asking::request_for;
use desk_asking::desks::{DeskAt, desk_text, read_desk};
use sheet_types::error::OutOfMemory;
use std::alloc::Global;

const KEY: &str = "0123456789abcdef0123456789abcdef";

// What a text says of where a desk listens, and the text again.
fn tell_desk(alloc: Global, text: &str, told: &mut Told) -> Result<(), OutOfMemory> {
    match read_desk(text.as_bytes()) {
        Some(desk) => {
            told.worded("port ", &desk.port);
            told.word(" ");
            told.bytes(desk.key);
            let again = desk_text(alloc, desk.port, KEY)?;
            told.word(if again.as_str() == text { " again" } else { "" });
        }
        None => told.word("none"),
    }
    Ok(())
}

// The bytes by which two words are asked for, with what follows them on standard input.
fn tell_request(alloc: Global, words: &str, told: &mut Told) -> Result<(), OutOfMemory> {
    let (first, rest) = cut(words);
    let (second, input) = cut(rest);
    let mut given = Vec::new(alloc);
    given.push(String::from_str(alloc, first)?)?;
    given.push(String::from_str(alloc, second)?)?;
    let desk = DeskAt {
        port: 8080,
        key: KEY.as_bytes(),
    };
    let text = request_for(alloc, &desk, given.as_slice(), input.as_bytes())?;
    told.bytes(text.as_slice());
    Ok(())
}

// What goes to standard output, to standard error, and how the answer ends.
fn tell_answer(alloc: Global, text: &str, told: &mut Told) -> Result<(), OutOfMemory> {
    let mut reader = text.as_bytes();
    let mut output = Vec::new(alloc);
    let mut errors = Vec::new(alloc);
    let answer = copy_answer(alloc, &mut reader, &mut output, &mut errors);
    told.bytes(output.as_slice());
    told.word("|");
    told.bytes(errors.as_slice());
    match answer {
        Ok(Answer::Ended(status)) => told.worded("|", &status),
        Ok(Answer::NotHere) => told.word("|not here"),
        Err(AnswerFault::Memory) => return Err(OutOfMemory),
        Err(fault) => told.name(&fault),
    }
    Ok(())
}

/// What is asked, and by what words.
pub(crate) fn asking_of(alloc: Global, question: &str, told: &mut Told) -> Result<(), OutOfMemory> {
    let (kind, words) = cut(question);
    let text = unescaped(alloc, words)?;
    match kind {
        "desk" => tell_desk(alloc, text.as_str(), told),
        "request" => tell_request(alloc, text.as_str(), told),
        "answer" => tell_answer(alloc, text.as_str(), told),
        _ => {
            told.unread(question);
            Ok(())
        }
    }
}

const ASKING: Table = Table(
    27,
    "desk 8080 0123456789abcdef0123456789abcdef^ => [port 8080 0123456789abcdef0123456789abcdef again]
desk 65535 0123456789abcdef0123456789abcdef^ => [port 65535 0123456789abcdef0123456789abcdef again]
desk 65536 0123456789abcdef0123456789abcdef^ => [none]
desk 08080 0123456789abcdef0123456789abcdef^ => [none]
desk  0123456789abcdef0123456789abcdef^ => [none]
desk 8080 0123456789abcdef0123456789abcdeF^ => [none]
desk 8080 0123456789abcdef0123456789abcde^ => [none]
desk 8080 0123456789abcdef0123456789abcdef => [none]
desk 8080^0123456789abcdef0123456789abcdef^ => [none]
desk  => [none]
# the bodies have 21 and 16 bytes, by Python's `len`
request apply maps {} => [POST /commands HTTP/1.1~Host: 127.0.0.1:8080~\
    Sheetdesk-Key: 0123456789abcdef0123456789abcdef~Content-Length: 21~~2^5^apply^4^maps^2^{}]
request status  => [POST /commands HTTP/1.1~Host: 127.0.0.1:8080~\
    Sheetdesk-Key: 0123456789abcdef0123456789abcdef~Content-Length: 16~~2^6^status^0^^0^]
answer HTTP/1.1 200 OK~~0 0^ => [||0]
answer HTTP/1.1 200 OK~a: b~~1 3^ab^1 1^c2 2^xy1 0^0 1^ => [ab^c|xy|1]
answer HTTP/1.1 200 OK~~0 255^and more => [||255]
answer HTTP/1.1 200 OK~~3 0^ => [||not here]
# a status that is no byte, one behind which something is missing, and an answer in it that is cut
answer HTTP/1.1 200 OK~~0 256^ => [|Cut]
answer HTTP/1.1 200 OK~~0 0 => [|Cut]
answer HTTP/1.1 200 OK~~1 3^ab => [|Cut]
answer HTTP/1.1 200 OK~~1 2^ab => [ab|Cut]
answer HTTP/1.1 200 OK~~2 2^ab1 1^ => [|abCut]
answer HTTP/1.1 200 OK~~1 2^ab3 0^ => [ab|Cut]
answer HTTP/1.1 200 OK~~1 02^ab0 0^ => [|Cut]
answer HTTP/1.1 200 OK~~4 0^0 0^ => [|Cut]
answer HTTP/1.1 200 OK~a: b~ => [|Cut]
answer HTTP/1.1 403 Forbidden~~{} => [|Declined]
answer  => [|Cut]
",
);

#[test]
fn what_a_desk_is_asked_and_answers(rt: HostRuntime) {
    assert_eq!(rt; wrong_of(rt.alloc(), Of::Asking, ASKING).wrong(), "");
}
