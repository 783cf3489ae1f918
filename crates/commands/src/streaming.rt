//! Requests as JSON, a line each, carried out in a world as they come.
ghost use Rattle.std.specs.Prelude.{◌≡◌, ◌++◌, ◌∷◌, ◌<◌, ◌↔◌, [], IfErr, IfOk, IfSome};
ghost use Rattle.std.specs.Prelude.{IsTrue, OnOk, length, take};
ghost use Rattle.std.specs.Io.{ReadsAtMost};
ghost use Rattle.std.specs.Io.KnownBytes.{Consumes, IsAtEnd, prepend_known};
ghost use Rattle.command_folder.specs.Endings.{output_text};
ghost use Rattle.command_folder.specs.Printing.{Prints};
ghost use Rattle.command_folder.specs.declared.endings.Ending.TheVariants.{BadBody, NoRequest};
ghost use Rattle.commands.specs.Streams.{AppliesEach, GivesByte, GivesLine, IsEmptyLine, TakesLine, TakesLines};
ghost use Rattle.commands.specs.Streams.{TellsUnread};
ghost use Rattle.commands.specs.Streams.{ending_then, is_done, stage, stops};
ghost use Rattle.command_folder.specs.Bodies.{IsUnread};
ghost use Rattle.commands.specs.Subcommands.{Applies, IsApplied};

use crate::applying::asked_of;
use command_folder::bodies::MOST_BODY;
use command_folder::endings::{DONE, Ending, FAILED, NO_MEMORY, output_of};
use command_folder::replies::{tell_receipt, tell_refusal};
use command_words::statuses::Outcome;
use manifest_csv::sending::send;
use request_json::requests::read_request;
use sheet_types::command::Request;
use sqlite::Alter;
use std::alloc::Global;
use std::io::{BufReader, Error, ErrorKind, Read, Write};
use store_shelf::shelf::Shelf;
use world::world::World;

/// How the program ends where a reader failed.
fn unread(error: &Error) -> Ending
    ensures { IsUnread result }
{
    if error.kind() == ErrorKind::OutOfMemory {
        NO_MEMORY
    } else {
        Ending::BadBody
    }
}

/// Reads into a piece. A read that was interrupted is tried again.
///
/// # Errors
///
/// A reader that failed.
fn read_some<R: Read>(reader: &mut R, piece: &mut [u8]) -> Result<usize, Ending>
    ensures bound { ReadsAtMost result piece.new }
    ensures some { IfOk result (λ n. Consumes (R.remaining reader.old) (R.remaining reader.new)
        (take n piece.new)) }
    ensures end { IfOk result (λ n. n ≡ 0 → 0 < length piece.old
        → IsAtEnd (R.remaining reader.new)) }
    ensures unread { IfErr result IsUnread }
{
    'tries: for _turn in 0..u64::MAX {
        match reader.read(piece) {
            Ok(count) => return Ok(count),
            Err(error) => {
                if error.kind() != ErrorKind::Interrupted {
                    return Err(unread(&error));
                }
            }
        }
    }
    Err(Ending::BadBody)
}

/// The next byte; `None` at the end.
///
/// # Errors
///
/// A reader that failed.
fn next_byte<R: Read>(reader: &mut R) -> Result<Option<u8>, Ending>
    ensures next { IfOk result (GivesByte (R.remaining reader.old) (R.remaining reader.new)) }
    ensures unread { IfErr result IsUnread }
{
    let mut one = [0u8; 1];
    let count = read_some(reader, &mut one)?;
    if count == 0 {
        return Ok(None);
    }
    Ok(Some(one[0]))
}

/// Puts a byte behind a line.
fn put_byte(line: &mut Vec<u8>, byte: u8) -> Result<(), Ending>
    ensures ok { OnOk result (line.new.items ≡ line.old.items ++ byte ∷ []) }
    ensures unread { IfErr result IsUnread }
{
    match line.push(byte) {
        Ok(()) => Ok(()),
        Err(_) => Err(NO_MEMORY),
    }
}

/// The next line with its end. The last one may have none, and at the end of all it is empty. It has as many bytes as a
/// body may have, and no byte behind it is read.
///
/// # Errors
///
/// A longer line, a reader that failed, or want of memory.
fn take_line<R: Read>(alloc: Global, reader: &mut R) -> Result<Vec<u8>, Ending>
    ensures line { IfOk result (λ line. GivesLine (R.remaining reader.old) (R.remaining reader.new)
        line.items) }
    ensures unread { IfErr result IsUnread }
{
    let mut line = Vec::new(alloc);
    'bytes: for _byte in 0..MOST_BODY {
        let Some(byte) = next_byte(&mut *reader)? else {
            return Ok(line);
        };
        put_byte(&mut line, byte)?;
        if byte == b'\n' {
            return Ok(line);
        }
    }
    // So long a line is a body only where all ends with it.
    match next_byte(reader)? {
        Some(_) => Err(Ending::BadBody),
        None => Ok(line),
    }
}

/// The bytes of a line, and all behind it.
///
/// # Errors
///
/// More bytes than a body may have, a reader that failed, or want of memory.
fn read_behind<R: Read + Drop>(line: Vec<u8>, reader: R) -> Result<Vec<u8>, Ending>
    ensures bytes { IfOk result (λ body. IfSome (R.remaining reader)
        (λ text. body.items ≡ line.items ++ text)) }
    ensures unread { IfErr result IsUnread }
{
    let mut body = line;
    match reader.take(MOST_BODY + 1).read_to_end(&mut body) {
        Ok(_) => {}
        Err(error) => return Err(unread(&error)),
    }
    if body.len() as u64 > MOST_BODY {
        return Err(Ending::BadBody);
    }
    Ok(body)
}

/// Whether a line is nothing but its end.
fn is_empty_line(line: &[u8]) -> bool
    ensures { IsTrue result ↔ IsEmptyLine line.now }
{
    line == b"\n".as_slice() || line == b"\r\n".as_slice()
}

/// Whether memory, a store or a stream gave out.
fn is_stop(ending: &Ending) -> bool
    ensures { result ≡ stops ending.now }
{
    match ending {
        Ending::Usual(Outcome::Stopped(_)) => true,
        _ => false,
    }
}

/// Whether all was done.
fn is_done(ending: &Ending) -> bool
    ensures { result ≡ is_done ending.now }
{
    match ending {
        Ending::Usual(Outcome::Done) => true,
        _ => false,
    }
}

/// How the program ends after one line more: with what stops it, or else with the first that was not done.
fn ending_then(first: Ending, next: Ending) -> Ending
    ensures { result ≡ ending_then first next }
{
    let (stops, done) = (is_stop(&next), is_done(&first));
    if stops | done {
        return next;
    }
    first
}

/// Writes a text, and answers how the program ends after it.
fn write_text<W: Write>(writer: &mut W, text: &str, ending: Ending) -> Ending
    ensures { Prints text.now ending (W.contents writer.old) (W.contents writer.new) result }
{
    match send(writer, text.as_bytes()) {
        Ok(()) => ending,
        Err(_) => FAILED,
    }
}

/// Says of a line in its place that it is no request. The ending is one that prints nothing more.
fn tell_bad<W: Write>(writer: &mut W) -> Ending
    ensures { Prints (output_text BadBody) NoRequest
        (W.contents writer.old) (W.contents writer.new) result }
{
    let ending = write_text(writer, output_of(Ending::BadBody), Ending::NoRequest);
    let _flushed = writer.flush();
    ending
}

/// Carries a request out in a world, and writes the reply as JSON, on a line.
fn write_reply<S: Alter + Drop, H: Shelf<S>, W: Write>(
    alloc: Global,
    world: &mut World<S>,
    shelf: &mut H,
    request: &Request,
    writer: &mut W,
) -> Ending
    ensures { IsApplied S.Store request.now world.old world.new
        (W.contents writer.old) (W.contents writer.new) result }
{
    match world.apply(alloc, request, shelf) {
        Ok(receipt) => tell_receipt(alloc, &receipt, writer),
        Err(why) => tell_refusal(alloc, &why, writer),
    }
}

/// The same, so that who sent the request has the reply at once. A writer that cannot be flushed fails at the next
/// line.
fn answer<S: Alter + Drop, H: Shelf<S>, W: Write>(
    alloc: Global,
    world: &mut World<S>,
    shelf: &mut H,
    request: &Request,
    writer: &mut W,
) -> Ending
    ensures { IsApplied S.Store request.now world.old world.new
        (W.contents writer.old) (W.contents writer.new) result }
{
    let ending = write_reply(alloc, world, shelf, request, writer);
    let _flushed = writer.flush();
    ending
}

/// The same of a line, where it is a request.
fn answer_line<S: Alter + Drop, H: Shelf<S>, W: Write>(
    alloc: Global,
    world: &mut World<S>,
    shelf: &mut H,
    line: &[u8],
    writer: &mut W,
) -> Ending
    ensures { TakesLine S.Store line.now world.old world.new
        (W.contents writer.old) (W.contents writer.new) result }
{
    if is_empty_line(line) {
        return DONE;
    }
    match read_request(alloc, line) {
        Ok(Some(request)) => answer(alloc, world, shelf, &request, writer),
        Ok(None) => tell_bad(writer),
        Err(_) => NO_MEMORY,
    }
}

/// Says that the next line is not read. Only want of memory prints nothing in its place.
fn tell_unread<W: Write>(writer: &mut W, why: Ending) -> Ending
    ensures { TellsUnread (W.contents writer.old) (W.contents writer.new) result }
{
    if is_stop(&why) {
        return why;
    }
    tell_bad(writer)
}

/// Takes the lines of a reader one after the other, each when it is there, until it ends or something stops.
fn apply_rest<S: Alter + Drop, H: Shelf<S>, R: Read, W: Write>(
    alloc: Global,
    world: &mut World<S>,
    shelf: &mut H,
    reader: &mut R,
    writer: &mut W,
    first: Ending,
) -> Ending
    ensures { TakesLines S.Store
        (stage (R.remaining reader.old) world.old (W.contents writer.old) first)
        world.new (W.contents writer.new) result }
{
    let mut ending = first;
    'lines: for _line in 0..u64::MAX {
        if is_stop(&ending) {
            return ending;
        }
        let line = match take_line(alloc, &mut *reader) {
            Ok(line) => line,
            Err(why) => return ending_then(ending, tell_unread(writer, why)),
        };
        if line.is_empty() {
            return ending;
        }
        ending = ending_then(ending, answer_line(alloc, world, shelf, &line, writer));
    }
    if is_stop(&ending) {
        return ending;
    }
    FAILED
}

/// Carries out the one request that a line and all behind it are, and writes the reply as JSON, on a line.
fn apply_behind<S: Alter + Drop, H: Shelf<S>, R: Read + Drop, W: Write>(
    alloc: Global,
    world: &mut World<S>,
    shelf: &mut H,
    line: Vec<u8>,
    reader: R,
    writer: &mut W,
) -> Ending
    ensures { Applies S.Store (prepend_known line.items (R.remaining reader)) world.old world.new
        writer.old writer.new (W.contents writer.old) (W.contents writer.new) result }
{
    let body = match read_behind(line, reader) {
        Ok(body) => body,
        Err(ending) => return ending,
    };
    match asked_of(alloc, &body) {
        Ok(request) => answer(alloc, world, shelf, &request, writer),
        Err(ending) => ending,
    }
}

/// The same line by line, where the first line is a request by itself.
fn apply_lines<S: Alter + Drop, H: Shelf<S>, R: Read + Drop, W: Write>(
    alloc: Global,
    world: &mut World<S>,
    shelf: &mut H,
    mut reader: R,
    writer: &mut W,
) -> Ending
    ensures { AppliesEach S.Store (R.remaining reader) world.old world.new
        writer.old writer.new (W.contents writer.old) (W.contents writer.new) result }
{
    let line = match take_line(alloc, &mut reader) {
        Ok(line) => line,
        Err(ending) => return ending,
    };
    match read_request(alloc, &line) {
        Ok(Some(request)) => {
            let ending = ending_then(DONE, answer(alloc, world, shelf, &request, writer));
            apply_rest(alloc, world, shelf, &mut reader, writer, ending)
        }
        Ok(None) => apply_behind(alloc, world, shelf, line, reader, writer),
        Err(_) => NO_MEMORY,
    }
}

/// Carries out requests in a world, a line each, and writes the reply of each as JSON, on a line, before the next line
/// is read. Where the first line is no request by itself, all bytes together are one. A further line that is none is
/// told in its place; want of memory, a store or a stream that gave out ends it.
pub fn apply_each_in<S: Alter + Drop, H: Shelf<S>, R: Read + Drop, W: Write>(
    alloc: Global,
    world: &mut World<S>,
    shelf: &mut H,
    reader: R,
    writer: &mut W,
) -> Ending
    ensures { AppliesEach S.Store (R.remaining reader) world.old world.new
        writer.old writer.new (W.contents writer.old) (W.contents writer.new) result }
{
    match BufReader::new(alloc, reader) {
        Ok(reader) => apply_lines(alloc, world, shelf, reader, writer),
        Err(_) => NO_MEMORY,
    }
}
