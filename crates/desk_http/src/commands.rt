//! A connection that asks for a command of the command line, handed to the clerk of the desk.
ghost use Rattle.std.specs.Prelude.{◌≡◌, ◌≢◌, ◌≤◌, ◌⊎◌, ◌↔◌, ◌++◌, [], All, IfOk};
ghost use Rattle.std.specs.Prelude.{ℕ, List, IfErr, IfSome, IsTrue, MatchOption};
ghost use Rattle.std.specs.Prelude.{drop, length, map, slice_range};
ghost use Rattle.httparse.specs.Grammar.{RequestHead};
ghost use Rattle.httparse.specs.Spans.{IsHeaderWithin, IsRequestAt, IsRequestWithin, IsWithin, header_bytes};
ghost use Rattle.httparse.specs.Spans.{span_bytes};
ghost use Rattle.desk_http.specs.Commands.{AsksCommand, AsksNone, FieldsPass, HasNone, HasOnly, HeadPasses};
ghost use Rattle.desk_http.specs.Commands.{IsAsked, IsChance, IsCutShort, IsFree, IsHanded, IsLeft, IsRest};
ghost use Rattle.desk_http.specs.Commands.{IsSize, MayPass, Sends, TellsSize, TurnsAway, TurnsBy, answer_head};
ghost use Rattle.desk_http.specs.Commands.{bad_key, host_of};
ghost use Rattle.desk_http.specs.Connections.{IsServedBy};

use crate::clerks::Clerk;
use crate::serving::{ServeFault, Served};
use desk_calls::bodies::gather_body;
use desk_calls::calls::CallFault;
use desk_calls::heads::{Gathered, gather_head};
use desk_calls::lengths::{Values, values_of};
use desk_calls::source::Source;
use desk_replies::fixed::{Fixed, fixed_response};
use httparse::spans::{EMPTY_HEADER_SPAN, HeaderSpan, RequestSpans};
use manifest_csv::sending::send;
use sheet_types::reading::read_number;
use sqlite::Alter;
use std::alloc::Global;
use std::io::Write;
use std::str::from_utf8;
use store_shelf::shelf::Shelf;
use world::world::World;

/// How the request of a command begins.
pub(crate) const COMMAND_LINE: &[u8] = b"POST /commands ";

/// The method of a request for a command, and its target.
const METHOD: &[u8] = b"POST";

const TARGET: &[u8] = b"/commands";

/// The most bytes of a body: the standard input of a command has as many as a request may have, and its words the rest.
const MOST_BODY: i64 = 2_300_000;

/// Why no command is handed to the clerk.
#[derive(Clone, Copy, Debug, PartialEq, Eq)]
enum Bar {
    /// The reader failed.
    Unread,
    /// The key is not the clerk's.
    Key,
    /// Something else is not as it has to be.
    Other(Fixed),
}

impl From<CallFault> for Bar {
    ghost use Rattle.desk_http.specs.Commands.{IsChance};

    ghost from_gives = { λ fault bar. IsChance bar };

    fn from(fault: CallFault) -> Bar {
        match fault {
            CallFault::Failed => Bar::Unread,
            CallFault::Memory => Bar::Other(Fixed::OutOfMemory),
        }
    }
}

/// Whether there is no field of this name.
fn has_none(input: &[u8], headers: &[HeaderSpan], name: &[u8]) -> bool
    requires { All (IsHeaderWithin (length input.now)) headers.now }
    ensures { IsTrue result ↔ HasNone name.now (map (header_bytes input.now) headers.now) }
{
    match values_of(input, headers, name) {
        Values::None => true,
        Values::One(_) | Values::More => false,
    }
}

/// Whether the fields of this name are one with this value.
fn has_only(input: &[u8], headers: &[HeaderSpan], name: &[u8], value: &[u8]) -> bool
    requires { All (IsHeaderWithin (length input.now)) headers.now }
    ensures { IsTrue result ↔ HasOnly name.now value.now (map (header_bytes input.now) headers.now) }
{
    match values_of(input, headers, name) {
        Values::One(given) => given == value,
        Values::None | Values::More => false,
    }
}

/// The host of a desk with this address.
fn host_of(own: &[u8]) -> &[u8]
    ensures { result.now ≡ host_of own.now }
{
    match own.strip_prefix(b"http://") {
        Some(host) => host,
        None => own,
    }
}

/// What bars a request by its fields, if something does: a page asks, the key is not the clerk's, or the host is not
/// this desk. An empty key is nobody's.
fn bar_of(own: &[u8], key: &[u8], input: &[u8], headers: &[HeaderSpan]) -> Option<Bar>
    requires { All (IsHeaderWithin (length input.now)) headers.now }
    ensures { MatchOption result (IsFree own.now key.now (map (header_bytes input.now) headers.now))
        (λ bar. ¬ (IsFree own.now key.now (map (header_bytes input.now) headers.now))) }
{
    if !has_none(input, headers, b"origin") {
        return Some(Bar::Other(Fixed::BadOrigin));
    }
    if key.is_empty() || !has_only(input, headers, b"sheetdesk-key", key) {
        return Some(Bar::Key);
    }
    if !has_only(input, headers, b"host", host_of(own)) {
        return Some(Bar::Other(Fixed::BadRequest));
    }
    None
}

/// The size of a body that a Content-Length announces.
fn size_of(text: &[u8]) -> Result<usize, Bar>
    ensures some { IfOk result (λ size. IsSize text.now size) }
    ensures none { IfErr result (λ bar. (size : ℕ) → ¬ (IsSize text.now size)) }
{
    let Ok(digits) = from_utf8(text) else {
        return Err(Bar::Other(Fixed::BadRequest));
    };
    let Some(size) = read_number(digits) else {
        return Err(Bar::Other(Fixed::BadRequest));
    };
    if size < 0 {
        return Err(Bar::Other(Fixed::BadRequest));
    }
    if size > MOST_BODY {
        return Err(Bar::Other(Fixed::TooLarge));
    }
    Ok(size as usize)
}

/// The size of the body that the fields of a head announce.
fn size_told(input: &[u8], headers: &[HeaderSpan]) -> Result<usize, Bar>
    requires { All (IsHeaderWithin (length input.now)) headers.now }
    ensures some { IfOk result (TellsSize (map (header_bytes input.now) headers.now)) }
    ensures none { IfErr result (λ bar. (size : ℕ)
        → ¬ (TellsSize (map (header_bytes input.now) headers.now) size)) }
{
    match values_of(input, headers, b"content-length") {
        Values::One(text) => size_of(text),
        Values::None => Err(Bar::Other(Fixed::NoLength)),
        Values::More => Err(Bar::Other(Fixed::BadRequest)),
    }
}

/// The same where nothing bars the request.
fn size_passed(own: &[u8], key: &[u8], input: &[u8], headers: &[HeaderSpan]) -> Result<usize, Bar>
    requires { All (IsHeaderWithin (length input.now)) headers.now }
    ensures some { IfOk result (FieldsPass own.now key.now (map (header_bytes input.now) headers.now)) }
    ensures none { IfErr result (λ bar. (size : ℕ)
        → ¬ (FieldsPass own.now key.now (map (header_bytes input.now) headers.now) size)) }
{
    match bar_of(own, key, input, headers) {
        Some(bar) => Err(bar),
        None => size_told(input, headers),
    }
}

/// Whether a head asks for a command.
fn is_for_command(input: &[u8], head: RequestSpans) -> bool
    requires method { IsWithin (length input.now) head.method }
    requires path { IsWithin (length input.now) head.path }
    ensures { IsTrue result ↔ AsksCommand (span_bytes input.now head.method) (span_bytes input.now head.path) }
{
    head.method.of(input) == METHOD && head.path.of(input) == TARGET
}

/// The size of the body that a head announces which was found in the input, where nothing bars it.
fn size_in(
    own: &[u8],
    key: &[u8],
    input: &[u8],
    headers: &[HeaderSpan],
    head: RequestSpans,
) -> Result<usize, Bar>
    requires { IsRequestWithin input.now headers.now head }
    ensures passes { IfOk result (λ size. (h : RequestHead)
        → IsRequestAt input.now headers.now head h → HeadPasses own.now key.now h size) }
    ensures none { IfErr result (λ bar. (h : RequestHead) → IsRequestAt input.now headers.now head h
        → (size : ℕ) → ¬ (HeadPasses own.now key.now h size)) }
    ensures small { IfOk result (λ size. size ≤ 2300000) }
    ensures some_key { IfOk result (λ size. key.now ≢ []) }
{
    if !is_for_command(input, head) {
        return Err(Bar::Other(Fixed::NoSuchPath));
    }
    size_passed(own, key, input, &headers[..head.headers])
}

/// Reads what is left of a request whose head was read. Answers its bytes, and where its body begins and ends.
fn read_rest<R: Source>(
    own: &[u8],
    key: &[u8],
    reader: &mut R,
    mut input: Vec<u8>,
    headers: &[HeaderSpan],
    head: RequestSpans,
) -> Result<(Vec<u8>, usize, usize), Bar>
    requires within { IsRequestWithin input.items headers.now head }
    requires short { head.len ≤ 16384 }
    ensures bounds { IfOk result (λ whole. (whole.1 ≤ whole.2) × (whole.2 ≤ length whole.0.items)) }
    ensures some_key { IfOk result (λ whole. key.now ≢ []) }
    ensures asks { IfOk result (λ whole. (h : RequestHead) → IsRequestAt input.items headers.now head h
        → IfSome (R.remaining reader.old) (λ ys. IsRest own.now key.now h (drop head.len input.items ++ ys)
        (slice_range whole.0.items whole.1 whole.2))) }
    ensures none { IfErr result (λ bar. IsChance bar ⊎ ((h : RequestHead)
        → IsRequestAt input.items headers.now head h → IfSome (R.remaining reader.old) (λ ys. (body : List ℕ)
        → ¬ (IsRest own.now key.now h (drop head.len input.items ++ ys) body)))) }
{
    let size = size_in(own, key, input.as_slice(), headers, head)?;
    let end = head.len + size;
    if !gather_body(reader, &mut input, end)? {
        return Err(Bar::Other(Fixed::BadRequest));
    }
    Ok((input, head.len, end))
}

/// The same of a request of which nothing was read.
fn read_whole<R: Source>(
    alloc: Global,
    own: &[u8],
    key: &[u8],
    reader: &mut R,
) -> Result<(Vec<u8>, usize, usize), Bar>
    ensures bounds { IfOk result (λ whole. (whole.1 ≤ whole.2) × (whole.2 ≤ length whole.0.items)) }
    ensures passes { IfOk result (λ whole. MayPass own.now key.now (R.remaining reader.old)
        (slice_range whole.0.items whole.1 whole.2)) }
    ensures none { IfErr result (λ bar. IsChance bar ⊎ AsksNone own.now key.now (R.remaining reader.old)) }
{
    let mut input = Vec::new(alloc);
    let mut headers = [EMPTY_HEADER_SPAN; 64];
    match gather_head(reader, &mut input, &mut headers)? {
        Gathered::Head(head) => {
            let whole = read_rest(own, key, reader, input, &headers, head)?;
            Ok(whole)
        }
        Gathered::Nothing => Err(Bar::Other(Fixed::BadRequest)),
        Gathered::Bad => Err(Bar::Other(Fixed::BadRequest)),
    }
}

/// What goes out before the frames of an answer.
fn answer_head() -> &'static [u8]
    ensures { result.now ≡ answer_head }
{
    b"HTTP/1.1 200 OK\r\ncontent-type: application/octet-stream\r\nconnection: close\r\n\r\n"
}

/// What goes out where the key is not the clerk's.
fn bad_key() -> &'static [u8]
    ensures { result.now ≡ bad_key }
{
    b"HTTP/1.1 403 Forbidden\r\ncontent-type: application/json\r\ncontent-length: 19\r\nconnection: close\r\n\r\n{\"fault\":\"bad key\"}"
}

/// Sends the answer to what bars a request.
fn send_bar<W: Write>(text: &[u8], writer: &mut W) -> Result<Served, ServeFault>
    ensures { Sends text.now (W.contents writer.old) (W.contents writer.new) result }
{
    send(writer, text)?;
    Ok(Served::Answered)
}

/// Answers where something bars a request.
fn turn_away<W: Write>(bar: Bar, writer: &mut W) -> Result<Served, ServeFault>
    ensures { TurnsBy bar (W.contents writer.old) (W.contents writer.new) result }
{
    match bar {
        Bar::Unread => Err(ServeFault::Read),
        Bar::Key => send_bar(bad_key(), writer),
        Bar::Other(fixed) => send_bar(fixed_response(fixed), writer),
    }
}

/// Has the clerk carry out what a body asks.
fn hand_on<S: Alter + Drop, H: Shelf<S>, W: Write, K: Clerk>(
    world: &mut World<S>,
    shelf: &mut H,
    body: &[u8],
    writer: &mut W,
    clerk: &mut K,
) -> Result<Served, ServeFault>
    ensures served { IsServedBy S.Store 1 world.old world.new }
    ensures handed { IsAsked K.attends body.now (W.contents writer.old) (W.contents writer.new)
        clerk.old clerk.new result
        ⊎ (IsLeft world.old world.new shelf.old shelf.new clerk.old clerk.new
        × IsCutShort (W.contents writer.old) (W.contents writer.new) result) }
{
    match send(writer, answer_head()) {
        Ok(()) => {
            clerk.attend(world, shelf, body, writer);
            Ok(Served::Answered)
        }
        Err(_) => Err(ServeFault::Write),
    }
}

/// The request that stands on a connection, for a clerk with this key.
fn read_asked<R: Source, K: Clerk>(
    alloc: Global,
    own: &[u8],
    reader: &mut R,
    clerk: &K,
) -> Result<(Vec<u8>, usize, usize), Bar>
    ensures bounds { IfOk result (λ whole. (whole.1 ≤ whole.2) × (whole.2 ≤ length whole.0.items)) }
    ensures passes { IfOk result (λ whole. MayPass own.now (K.key_of clerk.now) (R.remaining reader.old)
        (slice_range whole.0.items whole.1 whole.2)) }
    ensures none { IfErr result (λ bar. IsChance bar
        ⊎ AsksNone own.now (K.key_of clerk.now) (R.remaining reader.old)) }
{
    match clerk.key() {
        Some(key) => read_whole(alloc, own, key, reader),
        None => Err(Bar::Key),
    }
}

/// Reads a request for the clerk, and has it carry out the command: it is asked once, with the body that the request
/// has. Where something bars it, that is answered, and the clerk is not asked. `own` is the desk's address, as
/// `http://127.0.0.1:8080`.
///
/// # Errors
///
/// A reader or a writer that failed. Nothing was changed.
pub fn serve_command<S: Alter + Drop, H: Shelf<S>, R: Source, W: Write, K: Clerk>(
    alloc: Global,
    world: &mut World<S>,
    shelf: &mut H,
    own: &[u8],
    reader: &mut R,
    writer: &mut W,
    clerk: &mut K,
) -> Result<Served, ServeFault>
    ensures served { IsServedBy S.Store 1 world.old world.new }
    ensures handed { IsHanded K.attends own.now (K.key_of clerk.old) (R.remaining reader.old)
        (W.contents writer.old) (W.contents writer.new) clerk.old clerk.new result
        ⊎ (IsLeft world.old world.new shelf.old shelf.new clerk.old clerk.new
        × TurnsAway own.now (K.key_of clerk.old) (R.remaining reader.old)
        (W.contents writer.old) (W.contents writer.new) result) }
{
    match read_asked(alloc, own, reader, &*clerk) {
        Ok((input, begin, end)) => hand_on(world, shelf, &input[begin..end], writer, clerk),
        Err(bar) => turn_away(bar, writer),
    }
}
