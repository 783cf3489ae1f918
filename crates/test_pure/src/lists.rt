//! Request lists, worked out by hand; the digests are Python's `hashlib`. What else is a list, and
//! what is none, is in the sessions (`crates/sheetdesk`).

use crate::steps::{Of, Table, Told, cut, unescaped, wrong_of};
use command_faults::texts::cause_text;
use request_csv::causes::cause_of;
use request_csv::lists::{ReadFault, read_requests};
use request_csv::sources::{ListSource, Stream};
use sheet_types::command::Request;
use sheet_types::error::OutOfMemory;
use sheet_types::lines::line;
use std::alloc::Global;
use test_lists::{FIRST_TILE, Failing, HEADER};

// How many requests there are, and the moment and the line of the last.
fn tell_requests(alloc: Global, requests: &[Request], told: &mut Told) -> Result<(), OutOfMemory> {
    told.value(&requests.len());
    if let Some(last) = requests.last() {
        told.word(" ");
        told.word(last.at.as_str());
        told.worded(" ", &line(alloc, &last.command)?);
    }
    Ok(())
}

// The requests that a reader gives, or the fault of its list, with the number of the record that it tells.
fn tell_read<R: ListSource + Drop>(
    alloc: Global,
    reader: R,
    told: &mut Told,
) -> Result<(), OutOfMemory> {
    match read_requests(alloc, reader) {
        Ok(requests) => return tell_requests(alloc, requests.as_slice(), told),
        Err(ReadFault::Header) => told.word("Header"),
        Err(ReadFault::Record(number)) => told.worded("Record ", &number),
        Err(ReadFault::Read) => told.word("Read"),
        Err(ReadFault::Memory) => return Err(OutOfMemory),
    }
    Ok(())
}

// The line that says why a text is no list, as the second machine has it (`samples/machine/list_faults.py`).
fn tell_cause(alloc: Global, text: &[u8], told: &mut Told) -> Result<(), OutOfMemory> {
    match cause_of(alloc, text)? {
        Some(cause) => told.word(cause_text(alloc, cause)?.as_str()),
        None => told.word("a list"),
    }
    Ok(())
}

// A text: `@` is the header, `%` the addition of a first tile, `$` a deletion, and `#` seventeen commas.
fn whole(alloc: Global, words: &str) -> Result<String, OutOfMemory> {
    let mut text = String::new(alloc);
    for letter in words.chars() {
        match letter {
            '@' => text.push_str(HEADER)?,
            '%' => text.push_str(FIRST_TILE)?,
            '$' => text.push_str(DELETION)?,
            '#' => text.push_str(",,,,,,,,,,,,,,,,,")?,
            other => text.push(other)?,
        }
    }
    unescaped(alloc, text.as_str())
}

const DELETION: &str =
    "90000000-0000-4000-8000-000000000002,T,delete,a0000000-0000-4000-8000-000000000000,\
    00000000-0000-4000-8000-000000000001,,,,,,,,,,,,,";

fn tell_text(alloc: Global, kind: &str, text: &[u8], told: &mut Told) -> Result<(), OutOfMemory> {
    match kind {
        "all" | "greatest" => tell_read(alloc, text, told),
        "cause" => tell_cause(alloc, text, told),
        "failing" => tell_read(alloc, Stream(Failing::new(text)), told),
        "broken" => tell_read(alloc, b"request,\xff\n".as_slice(), told),
        kind => {
            told.unread(kind);
            Ok(())
        }
    }
}

/// A text, by a reader that ends or one that then fails; the greatest data behind it; or bytes that are none.
pub(crate) fn list_of(alloc: Global, question: &str, told: &mut Told) -> Result<(), OutOfMemory> {
    let (kind, words) = cut(question);
    let mut text = whole(alloc, words)?;
    if kind == "greatest" {
        text.push_str("a5".repeat(alloc, 1_048_576)?.as_str())?;
    }
    tell_text(alloc, kind, text.as_bytes(), told)
}

const LISTS: Table = Table(
    83,
    "# headers
all @ => [0]
all `request`,at,command,package,identity,other,kind,zoom,column,row,last_column,last_row,x,y,code,ticket,text,\
    `data` => [0]
# behind a byte order mark, and behind blank lines
all \u{feff}@ => [0]
all ^~^@ => [0]
all  => [Header]
all ~^^ => [Header]
all \u{feff} => [Header]
all % => [Header]
all Request,at,command,package,identity,other,kind,zoom,column,row,last_column,last_row,x,y,code,ticket,text,\
    data => [Header]
all @  => [Header]
all @, => [Header]
all \u{feff}\u{feff}@ => [Header]
all request,at^^,,, => [Header]
# commands, and fields that are quoted
all @^%^ => [1 2024-05-01T08:00:00.000Z add a0000000-0000-4000-8000-000000000000 \
    00000000-0000-4000-8000-000000000001 tile 1 \
    b363ee0ecc9cf61b12ecdafd75dca2779729b4fcc5f1bd718c33aad2c94af4f8]
all @^90000000-0000-4000-8000-000000000001,T,add,a0000000-0000-4000-8000-000000000000,\
    00000000-0000-4000-8000-000000000003,,media,,,,,,,,,,image/jpeg,4a50^ => [1 T add \
    a0000000-0000-4000-8000-000000000000 00000000-0000-4000-8000-000000000003 \
    media 2 0d293ef7b06e5c2cd296350b48694d0921c8acb7a72407aee7d2dbd3936d7da0]
all @~90000000-0000-4000-8000-000000000002,`one~~two`,add,a0000000-0000-4000-8000-000000000000,\
    00000000-0000-4000-8000-000000000001,,row,,,,,,0,4096,0,,`a,``b`,~ => [1 one~~two \
    add a0000000-0000-4000-8000-000000000000 00000000-0000-4000-8000-000000000001 row 4 \
    b498bace67e08fe8a6614f91955996863d6cc706e7fd371f4cc774ddcca8e5fe]
all @^90000000-0000-4000-8000-000000000003,T,link,a0000000-0000-4000-8000-000000000000,\
    00000000-0000-4000-8000-000000000001,00000000-0000-4000-8000-000000000003,rows_media,,,,,,,,,,,^ => [1 T \
    link rows_media a0000000-0000-4000-8000-000000000000 \
    00000000-0000-4000-8000-000000000001 00000000-0000-4000-8000-000000000003]
all @^90000000-0000-4000-8000-000000000004,T,unlink,A0000000-0000-4000-8000-000000000000,\
    00000000-0000-4000-8000-000000000001,00000000-0000-4000-8000-000000000003,rows_media,,,,,,,,,,,^ => [1 T \
    unlink rows_media a0000000-0000-4000-8000-000000000000 \
    00000000-0000-4000-8000-000000000001 00000000-0000-4000-8000-000000000003]
all @^$^ => [1 T delete a0000000-0000-4000-8000-000000000000 00000000-0000-4000-8000-000000000001]
all @^90000000-0000-4000-8000-000000000007,T,split,b0000000-0000-4000-8000-000000000000,,\
    c0000000-0000-4000-8000-000000000000,follow,-1,0,-9223372036854775808,9223372036854775807,0,,,,,,^ => [1 T \
    split b0000000-0000-4000-8000-000000000000 c0000000-0000-4000-8000-000000000000 follow -1 0 \
    9223372036854775807 \
    -9223372036854775808 0]
all @^90000000-0000-4000-8000-000000000009,T,merge,c0000000-0000-4000-8000-000000000000,,\
    b0000000-0000-4000-8000-000000000000,,,,,,,,,,-1,,^ => [1 T merge c0000000-0000-4000-8000-000000000000 \
    b0000000-0000-4000-8000-000000000000 -1]
# ends of records, and what is passed over
all @^%^$^ => [2 T delete a0000000-0000-4000-8000-000000000000 00000000-0000-4000-8000-000000000001]
all @^%^#^ => [Record 2]
all @~%~$~ => [2 T delete a0000000-0000-4000-8000-000000000000 00000000-0000-4000-8000-000000000001]
all @~%~#~ => [Record 2]
all @^^~^%^^~^$^^~^ => [2 T delete a0000000-0000-4000-8000-000000000000 00000000-0000-4000-8000-000000000001]
all @^^~^%^^~^#^^~^ => [Record 2]
all @^% => [1 2024-05-01T08:00:00.000Z add a0000000-0000-4000-8000-000000000000 \
    00000000-0000-4000-8000-000000000001 tile 1 \
    b363ee0ecc9cf61b12ecdafd75dca2779729b4fcc5f1bd718c33aad2c94af4f8]
# records that are no requests, and that are not read
all @^#^$^ => [Record 1]
all @^90000000-0000-4000-8000-000000000002,T,delete,a0000000-0000-4000-8000-000000000000,\
    00000000-0000-4000-8000-000000000001,,tile,,,,,,,,,,,^$^ => [Record 1]
all @^90000000-0000-4000-8000-000000000002,T,delete,a0000000-0000-4000-8000-000000000000,,,,,,,,,,,,,,^$^ => \
    [Record 1]
all @^90000000-0000-4000-8000-000000000001,T,add,a0000000-0000-4000-8000-000000000000,\
    00000000-0000-4000-8000-000000000001,,tile,+2,3,3,,,,,,,,41^$^ => [Record 1]
all @^90000000-0000-4000-8000-000000000001,T,add,a0000000-0000-4000-8000-000000000000,\
    00000000-0000-4000-8000-000000000001,,tile,2,-0,3,,,,,,,,41^$^ => [Record 1]
all @^90000000-0000-4000-8000-000000000001,T,add,a0000000-0000-4000-8000-000000000000,\
    00000000-0000-4000-8000-000000000001,,tile,2,3,9223372036854775808,,,,,,,,41^$^ => [Record 1]
all @^90000000-0000-4000-8000-000000000001,T,add,a0000000-0000-4000-8000-000000000000,\
    00000000-0000-4000-8000-000000000001,,tile,2,3,3,,,,,,,,414^$^ => [Record 1]
all @^90000000-0000-4000-8000-000000000001,T,add,a0000000-0000-4000-8000-000000000000,\
    00000000-0000-4000-8000-000000000001,,tile,2,3,3,,,,,,,,4g^$^ => [Record 1]
all @^{90000000-0000-4000-8000-000000000002},T,delete,a0000000-0000-4000-8000-000000000000,\
    00000000-0000-4000-8000-000000000001,,,,,,,,,,,,,^$^ => [Record 1]
all @^90000000-0000-4000-8000-000000000002,T,Delete,a0000000-0000-4000-8000-000000000000,\
    00000000-0000-4000-8000-000000000001,,,,,,,,,,,,,^$^ => [Record 1]
all @^90000000-0000-4000-8000-000000000006,T,split,a0000000-0000-4000-8000-000000000000,\
    a0000000-0000-4000-8000-000000000000,b0000000-0000-4000-8000-000000000000,strict,2,0,0,1,1,,,,,,^$^ => \
    [Record 1]
all @^90000000-0000-4000-8000-000000000006,T,split,a0000000-0000-4000-8000-000000000000,,\
    b0000000-0000-4000-8000-000000000000,strict,2,0,0,1,,,,,,,^$^ => [Record 1]
all @^90000000-0000-4000-8000-000000000006,T,split,a0000000-0000-4000-8000-000000000000,,\
    b0000000-0000-4000-8000-000000000000,Strict,2,0,0,1,1,,,,,,^$^ => [Record 1]
all @^90000000-0000-4000-8000-000000000008,T,merge,b0000000-0000-4000-8000-000000000000,,\
    a0000000-0000-4000-8000-000000000000,strict,,,,,,,,,7,,^$^ => [Record 1]
all @^90000000-0000-4000-8000-000000000008,T,merge,b0000000-0000-4000-8000-000000000000,,\
    a0000000-0000-4000-8000-000000000000,,,,,,,,,,,,^$^ => [Record 1]
all @^%^$^#^,^ => [Record 3]
all @^%^,,,,,,,,,,,,,,,,^#^ => [Read]
all @^%^#^,,,,,,,,,,,,,,,,^ => [Record 2]
all @^%^,,,,,,,,,,,,,,,,,,^#^ => [Read]
all @^%^#^,,,,,,,,,,,,,,,,,,^ => [Record 2]
all @^%^ ^#^ => [Read]
all @^%^#^ ^ => [Record 2]
all @^%^``^#^ => [Read]
all @^%^#^``^ => [Record 2]
# why they are none: the first column at fault of the first record that is at fault
cause @^%^$^ => [a list]
cause  => [list: it has no record]
cause @, => [list: the header has 19 fields, not 18]
cause request,at^ => [list: the header has 2 fields, not 18]
cause %^ => [list: the header has another name in place of 'request']
cause request,at,command,package,identity,other,kind,Zoom,column,row,last_column,last_row,x,y,code,ticket,text,\
    data => [list: the header has another name in place of 'zoom']
cause @^#^ => [list: record 1: column 'request' is no UUID]
cause @^%^,,^ => [list: record 2 has 3 fields, not 18]
cause @^%^$^90000000-0000-4000-8000-000000000002,T,Delete,a0000000-0000-4000-8000-000000000000,\
    00000000-0000-4000-8000-000000000001,,,,,,,,,,,,,^ => [list: record 3: column 'command' is none of add, delete, \
    link, unlink, split, merge]
cause @^90000000-0000-4000-8000-000000000002,T,delete,a0000000-0000-4000-8000-000000000000,\
    00000000-0000-4000-8000-000000000001,,tile,,,,,,,,,,,^ => [list: record 1: column 'kind' is not empty]
cause @^90000000-0000-4000-8000-000000000002,T,delete,a0000000-0000-4000-8000-000000000000,\
    00000000-0000-4000-8000-000000000001,,,,,,,,,,,,,x^ => [list: record 1: column 'data' is not empty]
cause @^90000000-0000-4000-8000-000000000001,T,add,a0000000-0000-4000-8000-000000000000,\
    00000000-0000-4000-8000-000000000001,,sheet,+2,3,3,,,,,,,,41^ => [list: record 1: column 'kind' is none of tile, \
    media, row]
cause @^90000000-0000-4000-8000-000000000001,T,add,a0000000-0000-4000-8000-000000000000,\
    00000000-0000-4000-8000-000000000001,,tile,+2,3,3,,,,,,,,4^ => [list: record 1: column 'zoom' is no number]
cause @^90000000-0000-4000-8000-000000000001,T,add,a0000000-0000-4000-8000-000000000000,\
    00000000-0000-4000-8000-000000000001,,tile,2,3,3,,,,,,,,4^ => [list: record 1: column 'data' is not hexadecimal, \
    two digits a byte]
cause @^90000000-0000-4000-8000-000000000001,T,add,a0000000-0000-4000-8000-000000000000,\
    00000000-0000-4000-8000-000000000001,,tile,2,3,3,,,,,,,name,41^ => [list: record 1: column 'text' is not empty]
cause @^90000000-0000-4000-8000-000000000001,T,add,a0000000-0000-4000-8000-000000000000,\
    00000000-0000-4000-8000-000000000001,,media,,,,,,1,,,,image/png,41^ => [list: record 1: column 'x' is not empty]
cause @^90000000-0000-4000-8000-000000000001,T,add,a0000000-0000-4000-8000-000000000000,\
    00000000-0000-4000-8000-000000000001,,row,,,,,,0,1,2.5,,name,^ => [list: record 1: column 'code' is no number]
cause @^90000000-0000-4000-8000-000000000001,T,add,a0000000-0000-4000-8000-000000000000,\
    00000000-0000-4000-8000-000000000001,,row,,,,,,0,1,2,7,name,^ => [list: record 1: column 'ticket' is not empty]
cause @^90000000-0000-4000-8000-000000000006,T,split,a0000000-0000-4000-8000-000000000000,,\
    b0000000-0000-4000-8000-000000000000,Strict,2,0,0,1,1,,,,,,^ => [list: record 1: column 'kind' is none of strict, \
    follow]
cause @^90000000-0000-4000-8000-000000000006,T,split,a0000000-0000-4000-8000-000000000000,,\
    b0000000-0000-4000-8000-000000000000,strict,2,0,0,1,,,,,,,^ => [list: record 1: column 'last_row' is no number]
cause @^90000000-0000-4000-8000-000000000006,T,split,a0000000-0000-4000-8000-000000000000,\
    b0000000-0000-4000-8000-000000000000,b0000000-0000-4000-8000-000000000000,strict,2,0,0,1,1,,,,,,\
    ^ => [list: record 1: column 'identity' is not empty]
cause @^90000000-0000-4000-8000-000000000003,T,link,a0000000-0000-4000-8000-000000000000,\
    00000000-0000-4000-8000-000000000001,,rows_rows,,,,,,,,,,,^ => [list: record 1: column 'other' is no UUID]
cause @^90000000-0000-4000-8000-000000000003,T,unlink,a0000000-0000-4000-8000-000000000000,\
    00000000-0000-4000-8000-000000000001,b0000000-0000-4000-8000-000000000000,rows_rows,,,,,,,,,,,\
    ^ => [list: record 1: column 'kind' is none of tiles_media, rows_media, rows_tiles]
cause @^90000000-0000-4000-8000-000000000008,T,merge,b0000000-0000-4000-8000-000000000000,,\
    a0000000-0000-4000-8000-000000000000,,,,,,,,,,,,^ => [list: record 1: column 'ticket' is no number]
# a reader that fails before the header, behind another, and behind the records: their fault comes first
failing  => [Read]
failing request^ => [Header]
failing @^ => [Read]
failing @^%^$^ => [Read]
failing @^%^#^$^ => [Record 2]
# what is no text, and a tile of the greatest size
broken => [Read]
greatest @^90000000-0000-4000-8000-000000000001,T,add,a0000000-0000-4000-8000-000000000000,\
    00000000-0000-4000-8000-000000000001,,tile,2,3,3,,,,,,,, => [1 T add a0000000-0000-4000-8000-000000000000 \
    00000000-0000-4000-8000-000000000001 tile 1048576 \
    bfa5590c5ef51b89416f3d888ef6ade3742a1c9f64b293a4d11a6a88afdebced]
",
);

#[test]
fn lists(rt: HostRuntime) {
    assert_eq!(rt; wrong_of(rt.alloc(), Of::Lists, LISTS).wrong(), "");
}
