// Worlds that are served over the loopback address in one process; what goes out was written out by hand, and the
// digests are Python's `hashlib`.
use crate::endings::{End, end_text};
use crate::streams::{DeskNotes, NOTHING, WHOLE, Wrote, judged, judged_paper, paper};
use crate::texts::{
    ADD, ADD_SECOND, ANSWER, GOOD, List, PACKAGES_OF_ONE, PRINTED, RECEIPT_OF_SECOND, Sent,
    list_text, sent_text,
};
use cli::serving::{LeftWorld, rehearse_and_serve};
use command_words::arguments::DeskWords;
use command_words::statuses::Outcome;
use desk_http::listening::listen;
use package_tables::fault::Fault;
use sqlite::Alter;
use std::alloc::{AllocError, Global};
use std::io::{Error, ErrorKind, Read, Result as IoResult, Write};
use std::net::{Ipv4Addr, Net, Shutdown, TcpListener, TcpStream};
use std::rt::Clock;
use std::test::Fail;
use test_values::{Checked, archive};
use world::world::World;

// What a client sends, and what it is to be sent.
#[derive(Clone, Copy)]
struct Client(Sent, Wrote);

// Gives a list, and sends clients to a port when it is first asked for it.
#[derive(Drop)]
struct Visited<'a, N: Net<Listener = TcpListener, Stream = TcpStream>> {
    net: &'a N,
    alloc: Global,
    port: u16,
    text: &'a [u8],
    clients: &'a [Client],
    streams: Vec<(TcpStream, Wrote)>,
}

// A client of a port of this machine that has sent all of its bytes.
fn connected<N: Net<Listener = TcpListener, Stream = TcpStream>>(
    net: &N,
    port: u16,
    bytes: &[u8],
) -> IoResult<TcpStream> {
    let mut stream = TcpStream::connect(net, (Ipv4Addr::LOCALHOST, port))?;
    stream.write_all(bytes)?;
    stream.shutdown(Shutdown::Write)?;
    Ok(stream)
}

impl<'a, N: Net<Listener = TcpListener, Stream = TcpStream>> Visited<'a, N> {
    fn send(&mut self, sent: Client) -> IoResult<()> {
        let Ok(text) = sent_text(self.alloc, sent.0) else {
            return Err(Error::from(ErrorKind::OutOfMemory));
        };
        let stream = connected(self.net, self.port, text.as_bytes())?;
        match self.streams.push((stream, sent.1)) {
            Ok(()) => Ok(()),
            Err(_) => Err(Error::from(ErrorKind::OutOfMemory)),
        }
    }
}

impl<'a, N: Net<Listener = TcpListener, Stream = TcpStream>> Read for Visited<'a, N> {
    fn read(&mut self, buf: &mut [u8]) -> IoResult<usize> {
        let clients = self.clients;
        self.clients = &[];
        for client in clients {
            self.send(*client)?;
        }
        self.text.read(buf)
    }
}

// Whether a client is sent this.
fn answer(alloc: Global, stream: TcpStream, wrote: Wrote) -> Result<String, Fault> {
    let mut reader = stream;
    let mut out: Vec<u8> = Vec::new(alloc);
    let ended = match reader.read_to_end(&mut out) {
        Ok(_) => "answered",
        Err(_) => "cut off",
    };
    judged(
        alloc,
        String::from_str(alloc, ended)?,
        out.as_slice(),
        wrote,
    )
}

fn tiles<S: Alter + Drop>(alloc: Global, world: &World<S>) -> Result<String, AllocError> {
    match world.sums(archive()) {
        Some(sums) => format!(in alloc; "{} tiles", sums.tiles),
        None => String::from_str(alloc, "no archive"),
    }
}

// How many tiles the archive of a world holds that was served, and where its stores are; or how it ended before.
fn left(alloc: Global, left: Result<LeftWorld, Outcome>) -> Result<String, AllocError> {
    match left {
        Ok(LeftWorld::Arrays(world)) => tiles(alloc, &world),
        Ok(LeftWorld::Files(world)) => {
            let mut text = tiles(alloc, &world)?;
            text.push_str(" in files")?;
            Ok(text)
        }
        Err(outcome) => end_text(alloc, &End::Of(outcome)),
    }
}

// What is rehearsed and served: a list, so many connections, what is then printed, and what is told of the desk.
#[derive(Clone, Copy)]
struct Desk(List, &'static str, Wrote, Wrote);

// What it comes to on a port; the clients come while the list is read.
fn served<N: Net<Listener = TcpListener, Stream = TcpStream> + Clock>(
    alloc: Global,
    reader: &mut Visited<'_, N>,
    desk: Desk,
) -> Result<String, Fault> {
    let digits = format!(in alloc; "{}", reader.port)?;
    let words = DeskWords {
        port: digits.as_str(),
        count: desk.1,
    };
    let mut out = paper(alloc, WHOLE)?;
    let net = reader.net;
    let mut notes = DeskNotes::new(alloc);
    let ended = rehearse_and_serve(net, alloc, &GOOD, &words, reader, &mut out, &mut notes);
    let text = judged_paper(alloc, left(alloc, ended)?, &out, desk.2)?;
    judged(alloc, text, notes.text.as_slice(), desk.3)
}

// The same, with what the clients are sent; so many of them came.
fn check(
    rt: &HostRuntime,
    port: u16,
    desk: Desk,
    clients: &[Client],
    told: (&str, usize),
    checked: &mut Checked,
) -> Result<(), Fault> {
    let alloc = rt.alloc();
    let text = list_text(alloc, desk.0)?;
    let mut reader = Visited {
        net: rt,
        alloc,
        port,
        text: text.as_bytes(),
        clients,
        streams: Vec::new(alloc),
    };
    checked.told(served(alloc, &mut reader, desk), told.0);
    let Visited { streams, .. } = reader;
    checked.holds(Ok(streams.len() == told.1));
    for (stream, wrote) in streams {
        checked.told(answer(alloc, stream, wrote), "answered");
    }
    Ok(())
}

// One that sends nothing, one whose body is left unread, one that asks for no path, and a page of
// another address. Then a request of the list comes again, a new one, and what they come to is
// read.
const CLIENTS: [Client; 7] = [
    Client(Sent::Bytes(""), NOTHING),
    Client(
        Sent::Large,
        Wrote::All(
            "HTTP/1.1 413 Payload Too Large\r\ncontent-type: application/json\r\ncontent-length: 21\r\nconnection: close\r\n\r\n{\"fault\":\"too large\"}",
        ),
    ),
    Client(
        Sent::Bytes("GET /nothing HTTP/1.1\r\n\r\n"),
        Wrote::All(
            "HTTP/1.1 404 Not Found\r\ncontent-type: application/json\r\ncontent-length: 24\r\nconnection: close\r\n\r\n{\"fault\":\"no such path\"}",
        ),
    ),
    Client(
        Sent::Bytes("GET /packages HTTP/1.1\r\nOrigin: http://evil.example\r\n\r\n"),
        Wrote::All(
            "HTTP/1.1 403 Forbidden\r\ncontent-type: application/json\r\ncontent-length: 22\r\nconnection: close\r\n\r\n{\"fault\":\"bad origin\"}",
        ),
    ),
    Client(Sent::Post(ADD), Wrote::All(ANSWER)),
    Client(
        Sent::Post(ADD_SECOND),
        Wrote::Ends("HTTP/1.1 200 OK\r\n", RECEIPT_OF_SECOND),
    ),
    Client(
        Sent::Bytes("GET /packages/a0000000-0000-4000-8000-000000000000/manifest HTTP/1.1\r\n\r\n"),
        Wrote::Ends(
            "HTTP/1.1 200 OK\r\n",
            "tile,00000000-0000-4000-8000-000000000002,,2,2,3,,,,1,ca064f10d44434d2993b7838dd7608a5eb80700df31329372f266a175e8d221c,\n",
        ),
    ),
];

// What is told of them: nothing of the one that sends nothing.
const SEVEN_TOLD: &str =
    "port told\nPOST /requests HTTP/1.1 413\nGET /nothing HTTP/1.1 404\nGET /packages HTTP/1.1 403\nPOST /requests HTTP/1.1 200\nPOST /requests HTTP/1.1 200\nGET /packages/a0000000-0000-4000-8000-000000000000/manifest HTTP/1.1 200\n";

const PACKAGES: [Client; 1] = [Client(
    Sent::Bytes("GET /packages HTTP/1.1\r\n\r\n"),
    Wrote::Ends("HTTP/1.1 200 OK\r\n", PACKAGES_OF_ONE),
)];

// The port is taken before the list is read: where another has it, the list is not looked at. Of a list that is refused
// nothing is served. A world that is asked for more has its stores in files.
#[test]
fn worlds_of_lists_are_served(rt: HostRuntime) -> Result<(), Fail> {
    let mut checked = Checked::new(rt.alloc());
    let listener = listen(&rt, 0)?;
    let address = listener.local_addr()?;
    checked.holds(Ok(address.ip().is_loopback()));
    let port = address.port();
    let (seven, one) = (CLIENTS.as_slice(), PACKAGES.as_slice());
    let none = Desk(List::One, "1", NOTHING, NOTHING);
    check(
        &rt,
        port,
        none,
        one,
        ("3 |store: StoreFault\n|", 0),
        &mut checked,
    )?;
    drop(listener);
    let none = Desk(List::Headless, "1", NOTHING, Wrote::All("port told\n"));
    check(
        &rt,
        port,
        none,
        &[],
        ("1 refused: list\n||", 0),
        &mut checked,
    )?;
    let all = Desk(List::One, "7", PRINTED, Wrote::All(SEVEN_TOLD));
    check(&rt, port, all, seven, ("2 tiles", 7), &mut checked)?;
    let told = Wrote::All("port told\nGET /packages HTTP/1.1 200\n");
    let long = Desk(List::Often, "1", PRINTED, told);
    check(&rt, port, long, one, ("1 tiles in files", 1), &mut checked)?;
    assert_eq!(rt; checked.wrong(), "");
    Ok(())
}
