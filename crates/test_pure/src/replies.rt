//! Responses as the formats state them, worked out by hand; digest and lengths by Python's
//! `hashlib` and `len`. What bodies say of receipts and of refusals is in the sessions too
//! (`crates/sheetdesk`).

use crate::receipts::{ARCHIVE, LOAN, package, receipt_of};
use crate::steps::{Of, Table, Told, cut, unescaped, uuid, wrong_of};
use crate::values::text;
use desk_replies::bodies::{receipt_body, refusal_body};
use desk_replies::fixed::{Fixed, fixed_response};
use desk_replies::packages::{Listed, list_body, list_response, loans_among};
use desk_replies::replies::{receipt_outgoing, refusal_outgoing, reply_outgoing};
use desk_replies::responses::{
    conflict_response, good_response, manifest_response, receipt_response,
};
use sheet_types::error::OutOfMemory;
use sheet_types::receipt::{Receipt, Sums};
use sheet_types::refusal::Refusal;
use std::alloc::Global;

// The receipt of the addition of a tile of one byte, the first of all; where it is to be quoted, at
// a moment that has to be escaped.
fn first_receipt(alloc: Global, asks: &str) -> Result<Receipt, OutOfMemory> {
    let mut receipt = receipt_of(alloc, "1.1.added.-.a.tile")?;
    if asks == "quoted" {
        receipt.at = text(alloc, "`^\u{1}\u{e9}")?;
    }
    Ok(receipt)
}

fn tell_receipt(
    alloc: Global,
    receipt: &Receipt,
    asks: &str,
    told: &mut Told,
) -> Result<(), OutOfMemory> {
    match asks {
        "body" | "quoted" => told.value(&receipt_body(alloc, receipt)?),
        "response" => told.bytes(receipt_response(alloc, receipt)?.as_slice()),
        "sent" => told.bytes(receipt_outgoing(alloc, receipt).as_slice()),
        asks => told.unread(asks),
    }
    Ok(())
}

fn tell_reply(alloc: Global, reply: &Result<Receipt, Refusal>, told: &mut Told) {
    told.bytes(reply_outgoing(alloc, reply).as_slice());
}

fn refusal(word: &str) -> Option<Refusal> {
    match word {
        "PlaceTaken" => Some(Refusal::PlaceTaken),
        "CutLink" => Some(Refusal::CutLink(uuid(0, 3))),
        "Stale" => Some(Refusal::Stale(5)),
        "OutOfMemory" => Some(Refusal::OutOfMemory),
        "StoreFault" => Some(Refusal::StoreFault),
        _ => None,
    }
}

fn tell_refusal(
    alloc: Global,
    why: Refusal,
    asks: &str,
    told: &mut Told,
) -> Result<(), OutOfMemory> {
    match asks {
        "refusal_body" => told.value(&refusal_body(alloc, &why)?),
        "conflict" => told.bytes(conflict_response(alloc, &why)?.as_slice()),
        "refusal_sent" => told.bytes(refusal_outgoing(alloc, &why).as_slice()),
        "refused" => tell_reply(alloc, &Err(why), told),
        asks => told.unread(asks),
    }
    Ok(())
}

fn fixed(word: &str) -> Option<Fixed> {
    match word {
        "BadOrigin" => Some(Fixed::BadOrigin),
        "BadRequest" => Some(Fixed::BadRequest),
        "NoSuchPath" => Some(Fixed::NoSuchPath),
        "NoSuchPackage" => Some(Fixed::NoSuchPackage),
        "NoSuchReceipt" => Some(Fixed::NoSuchReceipt),
        "BadMethod" => Some(Fixed::BadMethod),
        "NoLength" => Some(Fixed::NoLength),
        "TooLarge" => Some(Fixed::TooLarge),
        "AskAgain" => Some(Fixed::AskAgain),
        _ => None,
    }
}

fn listed() -> [Listed; 2] {
    let archive = Listed {
        uuid: uuid(ARCHIVE, 0),
        parent: None,
        depth: 0,
        ticket: 7,
        sums: Sums {
            tiles: 2,
            media: 1,
            rows: 0,
            links: 1,
            bytes: 4,
        },
    };
    let loan = Listed {
        uuid: uuid(LOAN, 0),
        parent: package(ARCHIVE),
        depth: 1,
        ticket: 7,
        sums: Sums {
            tiles: 0,
            media: 0,
            rows: 3,
            links: 0,
            bytes: u64::MAX,
        },
    };
    [archive, loan]
}

// Of an archive and its loan how many loans the archive has, and the list of both; and the response with no package.
fn tell_packages(alloc: Global, asks: &str, told: &mut Told) -> Result<(), OutOfMemory> {
    let both = listed();
    match asks {
        "loans" => told.value(&loans_among(both.as_slice(), uuid(ARCHIVE, 0))),
        "list" => told.bytes(list_body(alloc, both.as_slice())?.as_slice()),
        "none" => told.bytes(list_response(alloc, &[])?.as_slice()),
        asks => told.unread(asks),
    }
    Ok(())
}

fn tell_good(alloc: Global, asks: &str, body: &[u8], told: &mut Told) -> Result<(), OutOfMemory> {
    match asks {
        "manifest" => told.bytes(manifest_response(alloc, body)?.as_slice()),
        _ => told.bytes(good_response(alloc, body)?.as_slice()),
    }
    Ok(())
}

fn tell_word(alloc: Global, asks: &str, word: &str, told: &mut Told) -> Result<(), OutOfMemory> {
    match (asks, refusal(word), fixed(word)) {
        ("fixed", _, Some(fixed)) => told.bytes(fixed_response(fixed)),
        (_, Some(why), _) => tell_refusal(alloc, why, asks, told)?,
        _ => told.unread(word),
    }
    Ok(())
}

/// A response, or a part of one.
pub(crate) fn reply_of(alloc: Global, question: &str, told: &mut Told) -> Result<(), OutOfMemory> {
    let (asks, words) = cut(question);
    match asks {
        "receipt" => tell_receipt(alloc, &first_receipt(alloc, words)?, words, told),
        "quoted" => tell_receipt(alloc, &first_receipt(alloc, asks)?, asks, told),
        "replied" => {
            tell_reply(alloc, &Ok(first_receipt(alloc, asks)?), told);
            Ok(())
        }
        "packages" => tell_packages(alloc, words, told),
        "manifest" | "good" => { tell_good(alloc, asks, unescaped(alloc, words)?.as_bytes(), told) }
        asks => tell_word(alloc, asks, words, told),
    }
}

const REPLIES: Table = Table(
    26,
    "receipt body => [{`at`:`2024-05-01T08:00:00.000Z`,`bytes`:1,`from`:``,`items`:1,`line`:`add \
    a0000000-0000-4000-8000-000000000000 \
    00000000-0000-4000-8000-000000000001 tile 1 c20eb71e63f0260834960dcfbffbdf9e96eadc0b8946db35a34b9382dc301848`,\
    `links`:0,`media`:0,`request`:`90000000-0000-4000-8000-000000000001`,`rows`:0,`seq`:1,`tiles`:1,\
    `to`:`a0000000-0000-4000-8000-000000000000`}]
quoted => [{`at`:`\\`\\n\\u0001\u{e9}`,`bytes`:1,`from`:``,`items`:1,`line`:`add \
    a0000000-0000-4000-8000-000000000000 \
    00000000-0000-4000-8000-000000000001 tile 1 c20eb71e63f0260834960dcfbffbdf9e96eadc0b8946db35a34b9382dc301848`,\
    `links`:0,`media`:0,`request`:`90000000-0000-4000-8000-000000000001`,`rows`:0,`seq`:1,`tiles`:1,\
    `to`:`a0000000-0000-4000-8000-000000000000`}]
receipt response => [HTTP/1.1 200 OK~content-type: application/json~content-length: 362~connection: close~~\
    {`at`:`2024-05-01T08:00:00.000Z`,`bytes`:1,`from`:``,`items`:1,`line`:`add \
    a0000000-0000-4000-8000-000000000000 \
    00000000-0000-4000-8000-000000000001 tile 1 c20eb71e63f0260834960dcfbffbdf9e96eadc0b8946db35a34b9382dc301848`,\
    `links`:0,`media`:0,`request`:`90000000-0000-4000-8000-000000000001`,`rows`:0,`seq`:1,`tiles`:1,\
    `to`:`a0000000-0000-4000-8000-000000000000`}]
receipt sent => [HTTP/1.1 200 OK~content-type: application/json~content-length: 362~connection: close~~\
    {`at`:`2024-05-01T08:00:00.000Z`,`bytes`:1,`from`:``,`items`:1,`line`:`add \
    a0000000-0000-4000-8000-000000000000 \
    00000000-0000-4000-8000-000000000001 tile 1 c20eb71e63f0260834960dcfbffbdf9e96eadc0b8946db35a34b9382dc301848`,\
    `links`:0,`media`:0,`request`:`90000000-0000-4000-8000-000000000001`,`rows`:0,`seq`:1,`tiles`:1,\
    `to`:`a0000000-0000-4000-8000-000000000000`}]
replied => [HTTP/1.1 200 OK~content-type: application/json~content-length: 362~connection: close~~\
    {`at`:`2024-05-01T08:00:00.000Z`,`bytes`:1,`from`:``,`items`:1,`line`:`add \
    a0000000-0000-4000-8000-000000000000 \
    00000000-0000-4000-8000-000000000001 tile 1 c20eb71e63f0260834960dcfbffbdf9e96eadc0b8946db35a34b9382dc301848`,\
    `links`:0,`media`:0,`request`:`90000000-0000-4000-8000-000000000001`,`rows`:0,`seq`:1,`tiles`:1,\
    `to`:`a0000000-0000-4000-8000-000000000000`}]
refusal_body PlaceTaken => [{`name`:`PlaceTaken`,`refusal`:11}]
refusal_body CutLink => [{`detail`:`00000000-0000-4000-8000-000000000003`,`name`:`CutLink`,`refusal`:18}]
refusal_body Stale => [{`detail`:`5`,`name`:`Stale`,`refusal`:20}]
conflict PlaceTaken => [HTTP/1.1 409 Conflict~content-type: application/json~content-length: 34~connection: \
    close~~\
    {`name`:`PlaceTaken`,`refusal`:11}]
refusal_sent PlaceTaken => [HTTP/1.1 409 Conflict~content-type: application/json~content-length: \
    34~connection: close~~\
    {`name`:`PlaceTaken`,`refusal`:11}]
refused StoreFault => [HTTP/1.1 500 Internal Server Error~content-type: application/json~content-length: \
    34~connection: close~~\
    {`name`:`StoreFault`,`refusal`:25}]
refused OutOfMemory => [HTTP/1.1 507 Insufficient Storage~content-type: application/json~content-length: \
    35~connection: close~~\
    {`name`:`OutOfMemory`,`refusal`:24}]
fixed BadRequest => [HTTP/1.1 400 Bad Request~content-type: application/json~content-length: 23~connection: \
    close~~\
    {`fault`:`bad request`}]
fixed BadOrigin => [HTTP/1.1 403 Forbidden~content-type: application/json~content-length: 22~connection: \
    close~~\
    {`fault`:`bad origin`}]
fixed NoSuchPath => [HTTP/1.1 404 Not Found~content-type: application/json~content-length: 24~connection: \
    close~~\
    {`fault`:`no such path`}]
fixed NoSuchPackage => [HTTP/1.1 404 Not Found~content-type: application/json~content-length: 27~connection: \
    close~~\
    {`fault`:`no such package`}]
fixed NoSuchReceipt => [HTTP/1.1 404 Not Found~content-type: application/json~content-length: 27~connection: \
    close~~\
    {`fault`:`no such receipt`}]
fixed BadMethod => [HTTP/1.1 405 Method Not Allowed~content-type: application/json~content-length: \
    22~connection: close~~\
    {`fault`:`bad method`}]
fixed NoLength => [HTTP/1.1 411 Length Required~content-type: application/json~content-length: 21~connection: \
    close~~\
    {`fault`:`no length`}]
fixed TooLarge => [HTTP/1.1 413 Payload Too Large~content-type: application/json~content-length: \
    21~connection: close~~\
    {`fault`:`too large`}]
fixed AskAgain => [HTTP/1.1 507 Insufficient Storage~content-type: application/json~content-length: \
    21~connection: close~~\
    {`fault`:`ask again`}]
manifest kind,identity^ => [HTTP/1.1 200 OK~content-type: text/csv~content-length: 14~connection: close~~\
    kind,identity^]
good {} => [HTTP/1.1 200 OK~content-type: application/json~content-length: 2~connection: close~~\
    {}]
packages loans => [1]
packages list => [[{`bytes`:4,`depth`:0,`links`:1,`loans`:1,`media`:1,\
    `package`:`a0000000-0000-4000-8000-000000000000`,\
    `parent`:``,`rows`:0,`ticket`:7,`tiles`:2},{`bytes`:18446744073709551615,`depth`:1,`links`:0,`loans`:0,\
    `media`:0,\
    `package`:`b0000000-0000-4000-8000-000000000000`,`parent`:`a0000000-0000-4000-8000-000000000000`,`rows`:3,\
    `ticket`:7,`tiles`:0}]]
packages none => [HTTP/1.1 200 OK~content-type: application/json~content-length: 2~connection: close~~\
    []]
",
);

#[test]
fn responses(rt: HostRuntime) {
    assert_eq!(rt; wrong_of(rt.alloc(), Of::Replies, REPLIES).wrong(), "");
}
