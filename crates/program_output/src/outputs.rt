//! Where a command writes: bold headings for a terminal, and nothing of a quiet verb that ended well.
use crate::printing::output_failed;
use crate::streams::Output;
use clap::ArgMatches;
use command_folder::endings::{DONE, Ending, FAILED};
use std::env;
use std::io::{self, IsTerminal, Printer, Result, Write};

/// What makes the text behind it bold, and what ends that (ECMA-48, section 8.3.117).
const BOLD: &[u8] = b"\x1b[1m";

const PLAIN: &[u8] = b"\x1b[0m";

/// How far a table is written.
#[derive(Clone, Copy)]
enum Stage {
    Before,
    Heading,
    Behind,
}

/// Standard output, on which the first line, the heading of a table, is bold.
#[derive(Drop)]
pub struct Headed<'a> {
    writer: Printer<'a, HostRuntime>,
    stage: Stage,
}

impl<'a> Headed<'a> {
    /// Writes what stands on the line of the heading, and what stands behind it.
    fn write_heading(&mut self, buf: &[u8]) -> Result<()> {
        match buf.iter().position(|byte| *byte == b'\n') {
            Some(end) => {
                self.writer.write_all(&buf[..end])?;
                self.writer.write_all(PLAIN)?;
                self.stage = Stage::Behind;
                self.writer.write_all(&buf[end..])
            }
            None => self.writer.write_all(buf),
        }
    }
}

impl<'a> Write for Headed<'a> {
    fn write(&mut self, buf: &[u8]) -> Result<usize> {
        match self.stage {
            Stage::Before => {
                self.writer.write_all(BOLD)?;
                self.stage = Stage::Heading;
                self.write_heading(buf)?;
                Ok(buf.len())
            }
            Stage::Heading => {
                self.write_heading(buf)?;
                Ok(buf.len())
            }
            Stage::Behind => self.writer.write(buf),
        }
    }

    fn flush(&mut self) -> Result<()> {
        self.writer.flush()
    }
}

/// Whether people want no colours: the variable `NO_COLOR` stands, and is not empty.
fn is_plain(rt: &HostRuntime) -> bool {
    match env::var(rt, "NO_COLOR") {
        Ok(text) => !text.is_empty(),
        Err(_) => false,
    }
}

/// Whether the heading of a table is to be bold.
fn is_bold(rt: &HostRuntime, given: &ArgMatches<'_>) -> bool {
    given.get_flag("color") || rt.stdout().is_terminal() && !is_plain(rt)
}

/// Where a command that looks writes to standard output.
pub fn look_output<'r>(rt: &'r HostRuntime, name: &str, given: &ArgMatches<'_>) -> Output<'r> {
    let writer = io::writer(rt);
    let has_heading = matches!(name, "status" | "log") && !given.get_flag("json");
    if has_heading && is_bold(rt, given) {
        Output::Headed(Headed {
            writer,
            stage: Stage::Before,
        })
    } else {
        Output::Standard(writer)
    }
}

/// Where a verb writes: standard output; where it is to be quiet, memory, until it is known how it ended.
pub fn verb_output<'r>(rt: &'r HostRuntime, options: &ArgMatches<'_>) -> Output<'r> {
    if options.get_flag("quiet") && !options.get_flag("dry-run") {
        Output::Kept(Vec::new(rt.alloc()))
    } else {
        Output::Standard(io::writer(rt))
    }
}

/// Prints what an output kept in memory, where this status is not 0, and answers the exit status.
pub fn print_unless_done(rt: &HostRuntime, output: &Output<'_>, status: u8) -> u8 {
    match output {
        Output::Kept(bytes) if status != 0 => match io::writer(rt).write_all(bytes.as_slice()) {
            Ok(()) => status,
            Err(_) => output_failed(rt),
        },
        _ => status,
    }
}

/// Prints what a quiet verb kept, where it did not end well, and answers how it ended.
pub fn end_verb(rt: &HostRuntime, output: &Output<'_>, ending: Ending) -> Ending {
    match output {
        Output::Kept(bytes) if ending != DONE => match io::writer(rt).write_all(bytes.as_slice()) {
            Ok(()) => ending,
            Err(_) => FAILED,
        },
        _ => ending,
    }
}
