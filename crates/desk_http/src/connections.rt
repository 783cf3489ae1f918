//! Connections served one after the other.
ghost use Rattle.desk_http.specs.Connections.{IsServedBy, Serves};

use crate::clerks::{Clerk, NoClerk};
use crate::commands::{COMMAND_LINE, serve_command};
use crate::deadline::Timed;
use crate::fronts::{first_line, status_in};
use crate::listening::own_address;
use crate::serving::{ServeFault, Served, serve_one};
use crate::telling::DeskTeller;
use desk_calls::source::Outer;
use sqlite::Alter;
use std::alloc::Global;
use std::io;
use std::io::Read;
use std::net::{Shutdown, TcpListener, TcpStream};
use std::rt::Clock;
use std::time::{Duration, Instant};
use store_shelf::shelf::Shelf;
use thiserror::Error;
use world::world::World;

/// How long it waits for more where something was sent after what was read, in seconds.
const FAREWELL: u64 = 1;

/// How often in a row a listener may give no connection.
const MOST_MISSES: u32 = 16;

/// Why a desk ended before it had served all that it was to serve.
#[derive(Clone, Copy, Debug, PartialEq, Eq, Error)]
pub enum DeskFault {
    /// The world has failed, and takes no request any more.
    #[error("the world has failed")]
    World,
    /// The listener has no address that can be told, or gave no connection sixteen times in a row.
    #[error("the listener failed")]
    Listener,
}

/// Lets each read wait again, and for a short time only.
fn set_farewell(stream: &TcpStream) -> io::Result<()> {
    stream.set_nonblocking(false)?;
    stream.set_read_timeout(Some(Duration::from_secs(FAREWELL)))
}

/// Takes what is still sent after the answer, up to 4,194,304 bytes, until the other side closes or a read has
/// nothing to give. A connection that is closed over bytes that nobody took is reset, and the answer may be lost by
/// that.
fn take_rest(stream: &TcpStream) {
    let mut reader = stream;
    let mut rest = [0u8; 4096];
    for _piece in 0..1024u32 {
        match reader.read(&mut rest) {
            Ok(0) | Err(_) => return,
            Ok(_) => {}
        }
    }
}

/// Says that nothing more is written, and looks once whether the other side has sent more. Where it has, the rest is
/// taken. Tells whether it has neither sent more nor closed: the connection is then kept until the next is served
/// (RFC 9112, section 9.6), so that nobody waits for its end.
fn stays_open(stream: &TcpStream) -> io::Result<bool> {
    let mut reader = stream;
    let mut rest = [0u8; 4096];
    stream.shutdown(Shutdown::Write)?;
    stream.set_nonblocking(true)?;
    match reader.read(&mut rest) {
        Ok(0) => Ok(false),
        Ok(_) => {
            set_farewell(stream)?;
            take_rest(stream);
            Ok(false)
        }
        Err(error) => Ok(error.kind() == io::ErrorKind::WouldBlock),
    }
}

/// Ends a connection that was kept, with what has come since.
fn let_go(kept: Option<TcpStream>) {
    if let Some(stream) = kept {
        take_rest(&stream);
    }
}

/// Tells of a connection of which something came.
fn tell<T: DeskTeller>(teller: &mut T, came: &[u8], went: &[u8]) {
    if !came.is_empty() {
        teller.tell_exchange(first_line(came), status_in(went));
    }
}

/// Whether a request comes for the clerk, and there is one.
fn is_for_clerk<C: Clock, K: Clerk>(clerk: &K, reader: &mut Outer<Timed<'_, C>>) -> bool {
    clerk.key().is_some() && reader.0.begins_with(COMMAND_LINE)
}

/// Serves one request: one for the clerk, where there is one, or any other.
fn serve_either<S: Alter + Drop, H: Shelf<S>, C: Clock, K: Clerk>(
    alloc: Global,
    world: &mut World<S>,
    shelf: &mut H,
    own: &[u8],
    reader: &mut Outer<Timed<'_, C>>,
    writer: &mut Timed<'_, C>,
    clerk: &mut K,
) -> Result<Served, ServeFault>
    ensures { IsServedBy S.Store 1 world.old world.new }
{
    if is_for_clerk(&*clerk, &mut *reader) {
        writer.renew_each();
        return serve_command(alloc, world, shelf, own, reader, writer, clerk);
    }
    serve_one(alloc, world, shelf, own, reader, writer)
}

/// Serves one connection, whatever becomes of it, and tells of it. Answers whether a response went out and the other
/// side has not closed yet.
fn serve_stream<S: Alter + Drop, H: Shelf<S>, C: Clock, T: DeskTeller, K: Clerk>(
    clock: &C,
    alloc: Global,
    world: &mut World<S>,
    shelf: &mut H,
    own: &[u8],
    stream: &TcpStream,
    teller: &mut T,
    clerk: &mut K,
) -> bool
    ensures { IsServedBy S.Store 1 world.old world.new }
{
    let Ok(begun) = Instant::now(clock) else {
        return false;
    };
    let mut reader = Outer(Timed::new(stream, clock, begun));
    let mut writer = Timed::new(stream, clock, begun);
    let served = serve_either(alloc, world, shelf, own, &mut reader, &mut writer, clerk);
    tell(teller, reader.0.front(), writer.front());
    match served {
        Ok(Served::Answered) => stays_open(stream).unwrap_or(false),
        Ok(Served::Nothing) | Err(_) => false,
    }
}

/// Serves the next connection of a listener, if one comes, and lets go of the one that was kept. Answers whether one
/// came, and gives the next to be kept.
fn serve_next<S: Alter + Drop, H: Shelf<S>, C: Clock, T: DeskTeller, K: Clerk>(
    clock: &C,
    alloc: Global,
    world: &mut World<S>,
    shelf: &mut H,
    own: &[u8],
    listener: &TcpListener,
    kept: Option<TcpStream>,
    teller: &mut T,
    clerk: &mut K,
) -> (bool, Option<TcpStream>)
    ensures { IsServedBy S.Store 1 world.old world.new }
{
    match listener.accept() {
        Ok((stream, _)) => {
            let stays = serve_stream(clock, alloc, world, shelf, own, &stream, teller, clerk);
            let_go(kept);
            (true, if stays { Some(stream) } else { None })
        }
        Err(_) => (false, kept),
    }
}

/// Serves so many connections of a listener over a world, one after the other. One that fails, or that has taken
/// twenty seconds in all, is dropped and counts as served. A page of another address than the listener's own is
/// refused. The teller is told of each connection; nothing depends on it.
///
/// # Errors
///
/// A world that has failed, or a listener that fails again and again. Nobody is served then any more.
pub fn serve_each<S: Alter + Drop, H: Shelf<S>, C: Clock, T: DeskTeller>(
    clock: &C,
    alloc: Global,
    world: &mut World<S>,
    shelf: &mut H,
    listener: &TcpListener,
    count: u32,
    teller: &mut T,
) -> Result<(), DeskFault>
    ensures served { IsServedBy S.Store count world.old world.new }
    ensures ended { Serves S.Store count world.old world.new result }
{
    let mut nobody = NoClerk;
    serve_with(
        clock,
        alloc,
        world,
        shelf,
        listener,
        count,
        teller,
        &mut nobody,
    )
}

/// The same with a clerk, to whom the commands of a command line are handed. A long answer of his goes on as long as
/// each piece of it is taken within twenty seconds.
///
/// # Errors
///
/// Those of `serve_each`.
pub fn serve_with<S: Alter + Drop, H: Shelf<S>, C: Clock, T: DeskTeller, K: Clerk>(
    clock: &C,
    alloc: Global,
    world: &mut World<S>,
    shelf: &mut H,
    listener: &TcpListener,
    count: u32,
    teller: &mut T,
    clerk: &mut K,
) -> Result<(), DeskFault>
    ensures served { IsServedBy S.Store count world.old world.new }
    ensures ended { Serves S.Store count world.old world.new result }
{
    if world.has_failed() {
        return Err(DeskFault::World);
    }
    let Ok(own) = own_address(alloc, listener) else {
        return Err(DeskFault::Listener);
    };
    let mut kept = None;
    let mut misses = 0u32;
    'connections: for turn in 0..count {
        let (came, next) = serve_next(
            clock,
            alloc,
            world,
            shelf,
            own.as_bytes(),
            listener,
            kept,
            teller,
            clerk,
        );
        misses = if came { 0 } else { misses.saturating_add(1) };
        if world.has_failed() {
            let_go(next);
            return Err(DeskFault::World);
        }
        if misses >= MOST_MISSES {
            let_go(next);
            return Err(DeskFault::Listener);
        }
        kept = next;
    }
    let_go(kept);
    Ok(())
}
