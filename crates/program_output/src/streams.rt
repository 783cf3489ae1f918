//! What a command reads and writes, and who is told how far it is: one type each, so that what is
//! done is compiled once.
ghost use Rattle.std.specs.Prelude.{None};

use crate::clock::moment_now;
use crate::desk_files::{DeskPlace, keep_desk};
use crate::outputs::Headed;
use crate::settling::settle_heap;
use command_notes::refusals::Tally;
use command_words::desk_lines::{exchange_line, listening_line};
use command_words::progress::{Progress, Teller};
use desk_http::telling::DeskTeller;
use sheet_types::receipt::Receipt;
use sheet_types::refusal::Refusal;
use std::io::{IsTerminal, Printer, Read, Result as IoResult, Stderr, StdinLock, Write};

/// What a command reads.
#[derive(Drop)]
pub enum Input<'a> {
    /// Standard input.
    Standard(StdinLock<'a>),
    /// What stands in a file.
    File(&'a [u8]),
}

impl<'a> Input<'a> {
    /// What is left of a file; of standard input that is not known.
    pub fn text(&self) -> Option<&'a [u8]> {
        match self {
            Input::Standard(_) => None,
            Input::File(bytes) => Some(bytes),
        }
    }
}

impl<'a> Read for Input<'a> {
    fn read(&mut self, buf: &mut [u8]) -> IoResult<usize> {
        match self {
            Input::Standard(reader) => reader.read(buf),
            Input::File(bytes) => bytes.read(buf),
        }
    }
}

/// Where a command writes.
#[derive(Drop)]
pub enum Output<'a> {
    /// Standard output.
    Standard(Printer<'a, HostRuntime>),
    /// Standard output with a bold heading.
    Headed(Headed<'a>),
    /// Memory.
    Kept(Vec<u8>),
}

impl<'a> Write for Output<'a> {
    fn write(&mut self, buf: &[u8]) -> IoResult<usize> {
        match self {
            Output::Standard(writer) => writer.write(buf),
            Output::Headed(writer) => writer.write(buf),
            Output::Kept(bytes) => bytes.write(buf),
        }
    }

    fn flush(&mut self) -> IoResult<()> {
        match self {
            Output::Standard(writer) => writer.flush(),
            Output::Headed(writer) => writer.flush(),
            Output::Kept(bytes) => bytes.flush(),
        }
    }
}

/// Who is told how far a list is, and of a desk: standard error. How far it is told only where it is a terminal, and of
/// each connection only where that was asked for. The refusals of a list are noted, to be told at its end.
#[derive(Drop)]
pub struct Onlooker<'r> {
    rt: &'r HostRuntime,
    terminal: Option<Progress<Stderr>>,
    logs: bool,
    place: Option<DeskPlace<'r>>,
    /// What notes refusals; nothing where they are not to be told.
    pub tally: Option<Tally>,
}

impl<'r> Onlooker<'r> {
    /// One that notes no refusals, and tells of each connection where `logs` says so.
    pub fn new(rt: &'r HostRuntime, logs: bool) -> Onlooker<'r> {
        let writer = rt.stderr();
        let terminal = if writer.is_terminal() {
            Some(Progress { writer })
        } else {
            None
        };
        Onlooker {
            rt,
            terminal,
            logs,
            place: None,
            tally: None,
        }
    }

    /// Of `all` requests so many are done.
    pub fn tell_count(&mut self, done: u64, all: u64) {
        if let Some(terminal) = &mut self.terminal {
            terminal.tell_count(done, all);
        }
    }

    /// The same of a desk over a folder: a file there says where it listens. One without a key says so to nobody.
    pub fn of_desk(rt: &'r HostRuntime, logs: bool, place: DeskPlace<'r>) -> Onlooker<'r> {
        let mut onlooker = Onlooker::new(rt, logs);
        if !place.key.is_empty() {
            onlooker.place = Some(place);
        }
        onlooker
    }

    /// Writes the line of a port.
    fn write_port(&self, port: u16) -> IoResult<()> {
        let line = listening_line(self.rt.alloc(), port)?;
        self.rt.stderr().write_all(line.as_bytes())
    }

    /// Writes the line of a connection.
    fn write_exchange(&self, request: &[u8], status: &[u8]) -> IoResult<()> {
        let moment = moment_now(self.rt)?;
        let line = exchange_line(self.rt.alloc(), moment.as_str(), request, status)?;
        self.rt.stderr().write_all(line.as_slice())
    }
}

impl<'r> Teller for Onlooker<'r> {
    ghost told = { λ _. None };

    fn tell(&mut self, done: u64, all: u64, reply: &Result<Receipt, Refusal>) {
        self.tell_count(done, all);
        if let Some(tally) = &mut self.tally {
            tally.note(self.rt.alloc(), done, reply);
        }
    }
}

impl<'r> DeskTeller for Onlooker<'r> {
    fn tell_port(&mut self, port: u16) {
        settle_heap(self.rt);
        // A desk serves where nobody can be told of it.
        if let Some(place) = &self.place {
            let _unkept = keep_desk(self.rt, place, port);
        }
        let _untold = self.write_port(port);
    }

    fn tell_exchange(&mut self, line: &[u8], status: &[u8]) {
        if self.logs {
            let _untold = self.write_exchange(line, status);
        }
    }
}
