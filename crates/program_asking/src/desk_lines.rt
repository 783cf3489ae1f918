//! Requests as JSON, a line each, which a desk carries out as they come.
use crate::desks::{
    MOST_SENT, Silence, ask, print_kept, tell_silence, tell_unless_passed, words_before,
};
use command_folder::endings::{Ending, NO_MEMORY, output_of};
use desk_asking::desks::DeskAt;
use program_output::printing::{out_of_memory, tell_ending};
use program_output::streams::Input;
use request_json::requests::read_request;
use std::alloc::Global;
use std::convert::AsStr;
use std::io::{self, BufReader, Error, ErrorKind, Read, Write};

/// The status of what memory, a store or a stream stopped.
const STOPPED: u8 = 3;

/// How the program ends where a reader failed.
fn unread(error: &Error) -> Ending {
    if error.kind() == ErrorKind::OutOfMemory {
        NO_MEMORY
    } else {
        Ending::BadBody
    }
}

/// The next byte; none at the end.
fn next_byte<R: Read>(reader: &mut R) -> Result<Option<u8>, Ending> {
    let mut one = [0u8; 1];
    for _turn in 0..u64::MAX {
        match reader.read(&mut one) {
            Ok(0) => return Ok(None),
            Ok(_) => return Ok(Some(one[0])),
            Err(error) if error.kind() == ErrorKind::Interrupted => {}
            Err(error) => return Err(unread(&error)),
        }
    }
    Err(Ending::BadBody)
}

/// The next line with its end. The last one may have none, and at the end of all it is empty.
fn take_line<R: Read>(alloc: Global, reader: &mut R) -> Result<Vec<u8>, Ending> {
    let mut line = Vec::new(alloc);
    for _byte in 0..MOST_SENT {
        let Some(byte) = next_byte(&mut *reader)? else {
            return Ok(line);
        };
        if line.push(byte).is_err() {
            return Err(NO_MEMORY);
        }
        if byte == b'\n' {
            return Ok(line);
        }
    }
    // So long a line is a request only where all ends with it.
    match next_byte(reader)? {
        Some(_) => Err(Ending::BadBody),
        None => Ok(line),
    }
}

/// The bytes of a line, and all behind it.
fn read_behind<R: Read + Drop>(line: Vec<u8>, reader: R) -> Result<Vec<u8>, Ending> {
    let mut body = line;
    match reader.take(MOST_SENT + 1).read_to_end(&mut body) {
        Ok(_) if body.len() as u64 <= MOST_SENT => Ok(body),
        Ok(_) => Err(Ending::BadBody),
        Err(error) => Err(unread(&error)),
    }
}

/// A desk, the words by which it is asked to carry out a request, and what standard error is told in the end: it is
/// of the first line that was not done, or of what stopped them all.
#[derive(Drop)]
struct Asker<'d> {
    rt: &'d HostRuntime,
    desk: DeskAt<'d>,
    words: Vec<String>,
    told: Vec<u8>,
    status: u8,
    answered: u64,
}

impl<'d> Asker<'d> {
    /// Notes how a line ended.
    fn note(&mut self, status: u8, told: Vec<u8>) {
        if status == STOPPED || self.status == 0 {
            self.status = status;
            self.told = told;
        }
    }

    /// Has the desk carry out a request, and prints its reply.
    fn take(&mut self, request: &[u8]) -> Result<(), Silence> {
        let mut told = Vec::new(self.rt.alloc());
        let mut writer = io::writer(self.rt);
        let words = self.words.as_slice();
        let status = ask(self.rt, &self.desk, words, request, &mut writer, &mut told)?;
        // (an answer is there before the next line is read)
        let _flushed = writer.flush();
        self.answered = self.answered.saturating_add(1);
        self.note(status, told);
        Ok(())
    }

    /// The same of a line, where it has anything.
    fn take_filled(&mut self, line: &[u8]) -> Result<(), Silence> {
        if line == b"\n".as_slice() || line == b"\r\n".as_slice() {
            Ok(())
        } else {
            self.take(line)
        }
    }

    /// Says in its place that the next line is not read.
    fn tell_unread(&mut self, why: Ending) {
        let status = if why == NO_MEMORY {
            out_of_memory(self.rt)
        } else {
            print_kept(self.rt, output_of(why).as_bytes(), 1)
        };
        self.note(status, Vec::new(self.rt.alloc()));
    }

    /// Takes the lines of a reader in turn, each when it is there, until it ends or something stops.
    fn take_rest<R: Read>(&mut self, reader: &mut R) -> Result<(), Silence> {
        for _line in 0..u64::MAX {
            if self.status == STOPPED {
                return Ok(());
            }
            match take_line(self.rt.alloc(), &mut *reader) {
                Ok(line) if line.is_empty() => return Ok(()),
                Ok(line) => self.take_filled(line.as_slice())?,
                Err(why) => {
                    self.tell_unread(why);
                    return Ok(());
                }
            }
        }
        Ok(())
    }

    /// Tells standard error what is left to tell, and answers the exit status.
    fn end(&self) -> u8 {
        let _told = self.rt.stderr().write_all(self.told.as_slice());
        self.status
    }

    /// Says that the desk gave no answer to a line behind others, and answers the exit status.
    fn break_off(&self, why: Silence) -> u8 {
        let status = tell_silence(self.rt, &self.desk, why);
        let answered = self.answered;
        let _printed = eprintln!(self.rt;
            "{answered} requests were answered; a request that is sent again acts once"
        );
        status
    }
}

/// Has a desk carry out the first line, and then those behind it, and answers the exit status.
fn apply_lines<R: Read>(asker: &mut Asker<'_>, line: &[u8], reader: &mut R) -> Option<u8> {
    match asker.take(line) {
        Ok(()) => match asker.take_rest(reader) {
            Ok(()) => Some(asker.end()),
            Err(why) => Some(asker.break_off(why)),
        },
        Err(why) => tell_unless_passed(asker.rt, &asker.desk, why),
    }
}

/// Has a desk carry out the one request that a line and all behind it are, and answers the exit status.
fn apply_behind<R: Read + Drop>(asker: &mut Asker<'_>, line: Vec<u8>, reader: R) -> Option<u8> {
    let body = match read_behind(line, reader) {
        Ok(body) => body,
        Err(ending) => return Some(tell_ending(asker.rt, &ending)),
    };
    match asker.take(body.as_slice()) {
        Ok(()) => Some(asker.end()),
        Err(why) => tell_unless_passed(asker.rt, &asker.desk, why),
    }
}

/// Has a desk carry out what a reader has: a request a line, where the first line is one by itself, and else one
/// request.
fn apply_read<R: Read + Drop>(asker: &mut Asker<'_>, mut reader: R) -> Option<u8> {
    let line = match take_line(asker.rt.alloc(), &mut reader) {
        Ok(line) => line,
        Err(ending) => return Some(tell_ending(asker.rt, &ending)),
    };
    match read_request(asker.rt.alloc(), line.as_slice()) {
        Ok(Some(_)) => apply_lines(asker, line.as_slice(), &mut reader),
        Ok(None) => apply_behind(asker, line, reader),
        Err(_) => Some(out_of_memory(asker.rt)),
    }
}

/// Has a desk carry out requests as JSON, by the words of a command line, and answers the exit status. The reply of
/// each is printed before the next one is read.
pub(crate) fn apply_by<W: AsStr>(
    rt: &HostRuntime,
    desk: &DeskAt<'_>,
    words: &[W],
    reader: &mut Input<'_>,
) -> Option<u8> {
    let Ok(words) = words_before(rt, ["apply"].as_slice(), words, 2) else {
        return Some(out_of_memory(rt));
    };
    let Ok(reader) = BufReader::new(rt.alloc(), reader) else {
        return Some(out_of_memory(rt));
    };
    let mut asker = Asker {
        rt,
        desk: *desk,
        words,
        told: Vec::new(rt.alloc()),
        status: 0,
        answered: 0,
    };
    apply_read(&mut asker, reader)
}
