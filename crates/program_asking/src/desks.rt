//! One exchange with the desk that serves a folder.
use desk_asking::answers::{Answer, AnswerFault, copy_answer};
use desk_asking::asking::request_for;
use desk_asking::desks::DeskAt;
use program_output::printing::{out_of_memory, output_failed};
use std::alloc::AllocError;
use std::convert::AsStr;
use std::io::{self, BufReader, Write};
use std::net::{IpAddr, Ipv4Addr, Net, SocketAddr, TcpListener, TcpStream};
use std::time::Duration;

/// The most bytes of a standard input that a desk is sent.
pub(crate) const MOST_SENT: u64 = 2_200_000;

/// How long a desk may take to be reached, in seconds.
const REACH: u64 = 2;

/// How long it may then say nothing, in seconds.
const PATIENCE: u64 = 60;

/// Why a desk gave no status.
#[derive(Clone, Copy)]
pub(crate) enum Silence {
    /// It is not to be reached.
    Unreached,
    /// It does not carry such a command out, and did nothing.
    NotHere,
    /// What it answers is none, or is cut.
    Faulty(AnswerFault),
    /// It was not asked. Why was told, and the exit status is this.
    Unasked(u8),
}

/// Want of memory.
pub(crate) const WANT: Silence = Silence::Faulty(AnswerFault::Memory);

/// The desk at a port, reached.
fn reach<N: Net<Listener = TcpListener, Stream = TcpStream>>(
    net: &N,
    port: u16,
) -> io::Result<TcpStream> {
    let address = SocketAddr::new(IpAddr::V4(Ipv4Addr::LOCALHOST), port);
    let stream = TcpStream::connect_timeout(net, &address, Duration::from_secs(REACH))?;
    stream.set_nodelay(true)?;
    stream.set_read_timeout(Some(Duration::from_secs(PATIENCE)))?;
    stream.set_write_timeout(Some(Duration::from_secs(PATIENCE)))?;
    Ok(stream)
}

/// Sends a request, and copies what is answered to two writers. A desk may answer before it has taken all.
fn exchange<W: Write, E: Write>(
    rt: &HostRuntime,
    stream: &TcpStream,
    request: &[u8],
    output: &mut W,
    errors: &mut E,
) -> Result<Answer, AnswerFault> {
    let mut writer = stream;
    let _sent = writer.write_all(request);
    let Ok(mut reader) = BufReader::new(rt.alloc(), stream) else {
        return Err(AnswerFault::Memory);
    };
    copy_answer(rt.alloc(), &mut reader, output, errors)
}

/// Asks a desk for the command of these words over a standard input. What it answers for standard output and for
/// standard error goes to two writers, and the status is answered.
pub(crate) fn ask<W: Write, E: Write>(
    rt: &HostRuntime,
    desk: &DeskAt<'_>,
    words: &[String],
    input: &[u8],
    output: &mut W,
    errors: &mut E,
) -> Result<u8, Silence> {
    let Ok(request) = request_for(rt.alloc(), desk, words, input) else {
        return Err(WANT);
    };
    let Ok(stream) = reach(rt, desk.port) else {
        return Err(Silence::Unreached);
    };
    match exchange(rt, &stream, request.as_slice(), output, errors) {
        Ok(Answer::Ended(status)) => Ok(status),
        Ok(Answer::NotHere) => Err(Silence::NotHere),
        Err(fault) => Err(Silence::Faulty(fault)),
    }
}

/// Puts words behind others, but for so many in front.
pub(crate) fn push_words<W: AsStr>(
    rt: &HostRuntime,
    all: &mut Vec<String>,
    words: &[W],
    passed: usize,
) -> Result<(), AllocError> {
    for word in words.iter().skip(passed) {
        all.push(String::from_str(rt.alloc(), word.as_str())?)?;
    }
    Ok(())
}

/// Words as a desk is asked them.
pub(crate) fn words_of(rt: &HostRuntime, words: &[&str]) -> Result<Vec<String>, AllocError> {
    let mut all = Vec::new(rt.alloc());
    push_words(rt, &mut all, words, 0)?;
    Ok(all)
}

/// Words of their own, and behind them those of a command line, but for so many of these in front.
///
/// # Errors
///
/// Want of memory.
pub fn words_before<W: AsStr>(
    rt: &HostRuntime,
    first: &[&str],
    words: &[W],
    passed: usize,
) -> Result<Vec<String>, AllocError> {
    let mut all = words_of(rt, first)?;
    push_words(rt, &mut all, words, passed)?;
    Ok(all)
}

/// Says that a desk does not carry out what it was asked, and answers the exit status.
fn tell_passed(rt: &HostRuntime) -> u8 {
    let status = output_failed(rt);
    let _printed = eprintln!(rt; "the desk of the folder does not carry this out");
    status
}

/// Says why an answer is none, and answers the exit status.
fn tell_fault(rt: &HostRuntime, fault: AnswerFault) -> u8 {
    if fault == AnswerFault::Memory {
        return out_of_memory(rt);
    }
    let status = output_failed(rt);
    let _printed = eprintln!(rt; "{fault}");
    status
}

/// Says that a desk is not to be reached, and answers the exit status.
fn tell_unreached(rt: &HostRuntime, port: u16) -> u8 {
    let status = output_failed(rt);
    let _printed = eprintln!(rt; "the desk of the folder does not answer at 127.0.0.1:{port}");
    status
}

/// Says why a desk gave no status, and answers the exit status.
pub(crate) fn tell_silence(rt: &HostRuntime, desk: &DeskAt<'_>, why: Silence) -> u8 {
    match why {
        Silence::Unreached => tell_unreached(rt, desk.port),
        Silence::NotHere => tell_passed(rt),
        Silence::Faulty(fault) => tell_fault(rt, fault),
        Silence::Unasked(status) => status,
    }
}

/// The same, where it was told; none where the desk does not carry such a command out, which is told of the folder.
pub(crate) fn tell_unless_passed(rt: &HostRuntime, desk: &DeskAt<'_>, why: Silence) -> Option<u8> {
    match why {
        Silence::NotHere => None,
        _ => Some(tell_silence(rt, desk, why)),
    }
}

/// Prints what was kept of an answer, and answers the exit status.
pub(crate) fn print_kept(rt: &HostRuntime, kept: &[u8], status: u8) -> u8 {
    match io::writer(rt).write_all(kept) {
        Ok(()) => status,
        Err(_) => output_failed(rt),
    }
}
