//! What a clerk tells of a command that ended: what standard output and standard error would be told, and the status.
use command_desk::frames::Frames;
use command_folder::endings::Ending;
use command_names::hints::{Hint, hint_line};
use program_words::names::Unnamed;
use std::alloc::AllocError;
use std::io::{self, Write};
use views::endings as seen;

/// Says that a command is not carried out here.
pub(crate) fn pass_on<W: Write>(frames: &mut Frames<W>) {
    // Who cannot be told has gone.
    let _untold = frames.pass_on();
}

/// Tells standard error a text and the end of its line, where there is a text.
fn tell_text<W: Write>(text: &str, frames: &mut Frames<W>) -> io::Result<()> {
    if text.is_empty() {
        return Ok(());
    }
    frames.tell_error(text)?;
    frames.tell_error("\n")
}

/// The same of a text for which there was memory.
fn tell_line<W: Write>(line: Result<String, AllocError>, frames: &mut Frames<W>) -> io::Result<()> {
    match line {
        Ok(text) => tell_text(text.as_str(), frames),
        Err(_) => Ok(()),
    }
}

/// Tells how a command ended, and what is known beside it.
fn write_ending<W: Write>(
    rt: &HostRuntime,
    ending: &seen::Ending,
    hint: &Option<Hint<'_>>,
    frames: &mut Frames<W>,
) -> io::Result<()> {
    if let Some(hint) = hint {
        tell_line(hint_line(rt.alloc(), hint), frames)?;
    }
    frames.write_all(seen::output_of(*ending).as_bytes())?;
    frames.tell_error(seen::error_of(*ending))?;
    tell_line(seen::note_of(rt.alloc(), *ending), frames)?;
    frames.end(seen::status_of(*ending))
}

/// The same, to whom may have gone.
pub(crate) fn tell_ending<W: Write>(
    rt: &HostRuntime,
    ending: seen::Ending,
    hint: &Option<Hint<'_>>,
    frames: &mut Frames<W>,
) {
    let _untold = write_ending(rt, &ending, hint, frames);
}

/// Tells how a command ended that does more than look.
pub(crate) fn tell_usual<W: Write>(
    rt: &HostRuntime,
    ending: Ending,
    hint: &Option<Hint<'_>>,
    frames: &mut Frames<W>,
) {
    tell_ending(rt, seen::Ending::Usual(ending), hint, frames);
}

/// The same of one that said something in plain words before.
pub(crate) fn tell_noted<W: Write>(
    rt: &HostRuntime,
    ending: Ending,
    note: &str,
    frames: &mut Frames<W>,
) {
    let _untold = tell_text(note, frames);
    tell_usual(rt, ending, &None, frames);
}

/// Tells why words name nothing.
fn write_unnamed<W: Write>(
    rt: &HostRuntime,
    why: &Unnamed,
    frames: &mut Frames<W>,
) -> io::Result<()> {
    frames.write_all(why.output.as_bytes())?;
    frames.tell_error(why.error.as_str())?;
    let ending = seen::Ending::Usual(why.ending);
    write_ending(rt, &ending, &None, frames)
}

/// The same, to whom may have gone.
pub(crate) fn tell_unnamed<W: Write>(rt: &HostRuntime, why: &Unnamed, frames: &mut Frames<W>) {
    let _untold = write_unnamed(rt, why, frames);
}
