//! Lists of requests, which a desk carries out request by request, so that it serves others between.
use crate::desks::{Silence, WANT, ask, tell_silence, words_of};
use crate::row_texts::row_text;
use clap::ArgMatches;
use command_folder::endings::{Ending, NO_MEMORY};
use command_notes::faults::is_read_twice;
use command_notes::refusals::Tally;
use desk_asking::answers::AnswerFault;
use desk_asking::desks::DeskAt;
use manifest_csv::reports::header_line;
use program_output::notes::{fault_note, print_refusals, tally_for};
use program_output::options::text_of;
use program_output::printing::{out_of_memory, output_failed, tell_ending, tell_ending_with};
use program_output::streams::Onlooker;
use request_csv::lists::{ReadFault, read_requests};
use request_csv::readers::{ListReader, judge_requests};
use request_csv::sources::Stream;
use sheet_types::command::Request;
use std::alloc::{AllocError, Global};
use std::fs::File;
use std::io::{self, ErrorKind, Write};
use std::str::from_utf8;
use std::vec::IntoIter;

/// The requests of a list, of which one after the other is carried out.
#[derive(Drop)]
enum Rows {
    /// They are held.
    Held(IntoIter<Request>),
    /// They are read from a file, which was read before.
    Read(ListReader<Stream<File>>),
}

impl Rows {
    /// The next one, if there is one.
    fn next_row(&mut self, alloc: Global) -> Result<Option<Request>, ReadFault> {
        match self {
            Rows::Held(requests) => Ok(requests.next()),
            Rows::Read(list) => list.next_request(alloc),
        }
    }
}

/// What a desk told standard error of a list.
#[derive(Drop)]
struct Said {
    /// Of the records that were refused, where that is to be told.
    tally: Option<Tally>,
    /// Of what ended the list.
    last: Vec<u8>,
}

impl Said {
    /// Nothing so far.
    fn new(rt: &HostRuntime, tally: Option<Tally>) -> Said {
        Said {
            tally,
            last: Vec::new(rt.alloc()),
        }
    }

    /// Notes what was told of a record, by the status that was answered. Of one that was refused it is a line.
    fn note(&mut self, rt: &HostRuntime, status: u8, told: Vec<u8>) {
        if status != 0 {
            self.last = told;
            return;
        }
        let Some(tally) = &mut self.tally else {
            return;
        };
        for line in from_utf8(told.as_slice()).unwrap_or("").lines() {
            tally.note_told(rt.alloc(), line);
        }
    }

    /// Tells it.
    fn print(&self, rt: &HostRuntime) {
        print_refusals(rt, &self.tally);
        let _told = rt.stderr().write_all(self.last.as_slice());
    }
}

/// How far a list came.
#[derive(Clone, Copy)]
enum ListEnd {
    /// To its end, or to a request that stopped it with this status.
    Ended(u8),
    /// The report could not be written.
    Unwritten,
    /// So many requests were answered, and the next one was not.
    Broken(u64, Silence),
    /// So many requests were answered. The file had another list at its second reading.
    Changed(u64),
}

/// What is said of a list that broke off, where its requests have UUIDs of their own.
const IMPORT_AGAIN: &str =
    "the same command, sent again, carries out the rest: a request acts once";

/// The same of the list of an edited file.
const BRING_AGAIN: &str =
    "what they changed stays: export the package again, and compare, before the file is brought again";

/// The words by which the line of a report is asked for.
fn row_words(rt: &HostRuntime, number: u64) -> Result<Vec<String>, AllocError> {
    let number = format!(in rt.alloc(); "{number}")?;
    words_of(rt, ["row", number.as_str()].as_slice())
}

/// Has a desk carry out the request of a list that has this number, and copies the line of its report.
fn ask_row<W: Write>(
    rt: &HostRuntime,
    desk: &DeskAt<'_>,
    number: u64,
    request: &Request,
    output: &mut W,
    said: &mut Said,
) -> Result<u8, Silence> {
    let Ok(words) = row_words(rt, number) else {
        return Err(WANT);
    };
    let Ok(text) = row_text(rt.alloc(), request) else {
        return Err(WANT);
    };
    let mut told = Vec::new(rt.alloc());
    let input = text.as_bytes();
    let status = ask(rt, desk, words.as_slice(), input, output, &mut told)?;
    said.note(rt, status, told);
    Ok(status)
}

/// How a list ends whose file has no more requests at its second reading, or a fault, after so many.
fn end_of_rows(done: u64, all: u64, last: Result<Option<Request>, ReadFault>) -> ListEnd {
    match last {
        Ok(None) if done == all => ListEnd::Ended(0),
        Err(ReadFault::Memory) => ListEnd::Broken(done, WANT),
        _ => ListEnd::Changed(done),
    }
}

/// Has a desk carry out so many requests in turn, and copies the line of each.
fn ask_rows<W: Write>(
    rt: &HostRuntime,
    desk: &DeskAt<'_>,
    mut rows: Rows,
    all: u64,
    output: &mut W,
    said: &mut Said,
) -> ListEnd {
    let mut teller = Onlooker::new(rt, false);
    for at in 0..all {
        let request = match rows.next_row(rt.alloc()) {
            Ok(Some(request)) => request,
            last => return end_of_rows(at, all, last),
        };
        match ask_row(rt, desk, at + 1, &request, &mut *output, &mut *said) {
            Ok(status) => {
                teller.tell_count(at + 1, all);
                if status != 0 {
                    return ListEnd::Ended(status);
                }
            }
            Err(why) => return ListEnd::Broken(at, why),
        }
    }
    end_of_rows(all, all, rows.next_row(rt.alloc()))
}

/// The same, with the names of the columns before the lines.
fn report<W: Write>(
    rt: &HostRuntime,
    desk: &DeskAt<'_>,
    rows: Rows,
    all: u64,
    output: &mut W,
    said: &mut Said,
) -> ListEnd {
    match output.write_all(header_line().as_bytes()) {
        Ok(()) => ask_rows(rt, desk, rows, all, output, said),
        Err(_) => ListEnd::Unwritten,
    }
}

/// Says how far a list came that broke off, and what then, and answers the exit status.
fn tell_broken(
    rt: &HostRuntime,
    desk: &DeskAt<'_>,
    answered: u64,
    all: u64,
    why: Silence,
    again: &str,
) -> u8 {
    let status = tell_silence(rt, desk, why);
    let _printed = eprintln!(rt; "{answered} of {all} requests were answered; {again}");
    status
}

/// Says how far a list came whose file was another one at its second reading, and answers the exit status.
fn tell_changed(rt: &HostRuntime, answered: u64) -> u8 {
    let status = output_failed(rt);
    let _printed = eprintln!(rt;
        "list: the second reading had another list than the first: {answered} requests were carried out"
    );
    status
}

/// Tells how a list ended, and answers the exit status.
fn tell_end(rt: &HostRuntime, desk: &DeskAt<'_>, end: ListEnd, all: u64, again: &str) -> u8 {
    match end {
        ListEnd::Ended(status) => status,
        ListEnd::Unwritten => output_failed(rt),
        ListEnd::Broken(answered, why) => tell_broken(rt, desk, answered, all, why, again),
        ListEnd::Changed(answered) => tell_changed(rt, answered),
    }
}

/// A file, opened. One that cannot be is no list.
fn open_list(rt: &HostRuntime, file: &str) -> Result<Stream<File>, Ending> {
    match File::open(rt, file) {
        Ok(reader) => Ok(Stream(reader)),
        Err(error) if error.kind() == ErrorKind::OutOfMemory => Err(NO_MEMORY),
        Err(_) => Err(Ending::Unlisted(ReadFault::Read)),
    }
}

/// How a list ends that is none.
fn ending_of(fault: ReadFault) -> Ending {
    match fault {
        ReadFault::Memory => NO_MEMORY,
        fault => Ending::Unlisted(fault),
    }
}

/// The requests of the list of a reader, held, and how many there are.
fn held_rows(rt: &HostRuntime, reader: Stream<File>) -> Result<(Rows, u64), ReadFault> {
    let requests = read_requests(rt.alloc(), reader)?;
    let all = requests.len() as u64;
    Ok((Rows::Held(requests.into_iter()), all))
}

/// The requests of the list in a file, and how many there are. They are read twice where that can be, and else held.
fn read_list(rt: &HostRuntime, file: &str) -> Result<(Rows, u64), Ending> {
    let first = open_list(rt, file)?;
    if !is_read_twice(rt, file) {
        return held_rows(rt, first).map_err(ending_of);
    }
    let all = judge_requests(rt.alloc(), first).map_err(ending_of)?;
    let second = open_list(rt, file)?;
    match ListReader::open(rt.alloc(), second) {
        Ok(list) => Ok((Rows::Read(list), all)),
        Err(fault) => Err(ending_of(fault)),
    }
}

/// Says that a file is no list, and where its fault is, and answers the exit status.
fn tell_unlisted(rt: &HostRuntime, given: &ArgMatches<'_>, ending: &Ending) -> u8 {
    match fault_note(rt, "import", given, None, ending) {
        Some(note) => tell_ending_with(rt, ending, Ok(note)),
        None => tell_ending(rt, ending),
    }
}

/// Carries out the requests of a list by a desk, and tells which of them were refused. What the desk tells of the last
/// one stands behind that.
fn import_rows(rt: &HostRuntime, desk: &DeskAt<'_>, rows: Rows, all: u64) -> u8 {
    let mut said = Said::new(rt, tally_for(rt, "import"));
    let end = report(rt, desk, rows, all, &mut io::writer(rt), &mut said);
    said.print(rt);
    tell_end(rt, desk, end, all, IMPORT_AGAIN)
}

/// Carries out the list of a file by a desk, and answers the exit status. The whole list is read before the desk is
/// asked; a file is then read again, request by request.
pub(crate) fn import_by(rt: &HostRuntime, desk: &DeskAt<'_>, given: &ArgMatches<'_>) -> u8 {
    match read_list(rt, text_of(given, "file")) {
        Ok((rows, all)) => import_rows(rt, desk, rows, all),
        Err(ending) => tell_unlisted(rt, given, &ending),
    }
}

/// Carries out by a desk the list that it answered, and answers the exit status.
pub(crate) fn bring_list_by(rt: &HostRuntime, desk: &DeskAt<'_>, list: &[u8]) -> u8 {
    match read_requests(rt.alloc(), list) {
        Ok(requests) => {
            let all = requests.len() as u64;
            let rows = Rows::Held(requests.into_iter());
            let mut said = Said::new(rt, None);
            let end = report(rt, desk, rows, all, &mut io::writer(rt), &mut said);
            said.print(rt);
            tell_end(rt, desk, end, all, BRING_AGAIN)
        }
        Err(ReadFault::Memory) => out_of_memory(rt),
        Err(_) => tell_silence(rt, desk, Silence::Faulty(AnswerFault::Cut)),
    }
}
