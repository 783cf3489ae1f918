//! Commands whose standard input is long: a desk takes it of a file in its folder, which stands there while it is
//! asked.
use crate::desk_lists::bring_list_by;
use crate::desks::{Silence, WANT, ask, print_kept, push_words, tell_unless_passed, words_of};
use command_folder::endings::FAILED;
use desk_asking::desks::DeskAt;
use program_output::clock::new_key;
use program_output::printing::{tell_ending, tell_lack};
use program_output::streams::Input;
use std::alloc::AllocError;
use std::convert::AsStr;
use std::fs::{self, File};
use std::io::{self, ErrorKind, Read, Write};
use std::os::unix::fs::OpenOptionsExt;

/// How many bytes are copied at a time.
const PIECE: usize = 16_384;

/// The next bytes of a reader. One that fails is at its end: a list that is cut is none.
fn read_piece(reader: &mut Input<'_>, piece: &mut [u8]) -> usize {
    for _turn in 0..u64::MAX {
        match reader.read(&mut *piece) {
            Ok(count) => return count,
            Err(error) if error.kind() == ErrorKind::Interrupted => {}
            Err(_) => return 0,
        }
    }
    0
}

/// Copies what a reader has into a file.
fn copy_input(reader: &mut Input<'_>, file: &mut File) -> io::Result<()> {
    let mut piece = [0u8; PIECE];
    for _turn in 0..u64::MAX {
        let count = read_piece(reader, &mut piece);
        if count == 0 {
            return Ok(());
        }
        file.write_all(piece.get(..count).unwrap_or(b""))?;
    }
    Ok(())
}

/// Makes a new file, which its owner alone may read.
fn make_file(rt: &HostRuntime, path: &str) -> io::Result<File> {
    File::options()
        .write(true)
        .create_new(true)
        .mode(0o600)
        .open(rt, path)
}

/// The name of a new file for standard input.
fn new_name(rt: &HostRuntime) -> io::Result<String> {
    let key = new_key(rt)?;
    Ok(format!(in rt.alloc(); "sheetdesk.input-{key}")?)
}

/// Says that standard input could not be kept for a desk.
fn tell_unkept(rt: &HostRuntime, path: &str, error: &io::Error) -> Silence {
    Silence::Unasked(tell_ending(rt, &tell_lack(rt, path, error, FAILED)))
}

/// Asks a desk for the command of these words over the file of this path, in which what a reader has is kept first.
fn ask_over<W: Write>(
    rt: &HostRuntime,
    desk: &DeskAt<'_>,
    words: &[String],
    path: &str,
    reader: &mut Input<'_>,
    output: &mut W,
) -> Result<u8, Silence> {
    let mut file = match make_file(rt, path) {
        Ok(file) => file,
        Err(error) => return Err(tell_unkept(rt, path, &error)),
    };
    let asked = match copy_input(reader, &mut file) {
        Ok(()) => ask(rt, desk, words, b"", output, &mut rt.stderr()),
        Err(error) => Err(tell_unkept(rt, path, &error)),
    };
    // (a desk that opened the file removed it)
    let _removed = fs::remove_file(rt, path);
    asked
}

/// A folder that is served, and its desk.
#[derive(Clone, Copy)]
pub(crate) struct Served<'f, 'd> {
    pub(crate) folder: &'f str,
    pub(crate) desk: DeskAt<'d>,
}

/// The words by which a command is asked for over the file of this name: these, and those typed behind the command.
fn from_words<W: AsStr>(
    rt: &HostRuntime,
    name: &str,
    first: &[&str],
    words: &[W],
) -> Result<Vec<String>, AllocError> {
    let mut all = words_of(rt, ["from", name].as_slice())?;
    push_words(rt, &mut all, first, 0)?;
    push_words(rt, &mut all, words, 2)?;
    Ok(all)
}

/// Asks the desk of a folder for the command of these words, and of those typed behind the command, over what a
/// reader has.
fn ask_from<W: AsStr, O: Write>(
    rt: &HostRuntime,
    served: &Served<'_, '_>,
    first: &[&str],
    words: &[W],
    reader: &mut Input<'_>,
    output: &mut O,
) -> Result<u8, Silence> {
    let folder = served.folder;
    let name = match new_name(rt) {
        Ok(name) => name,
        Err(error) => return Err(tell_unkept(rt, folder, &error)),
    };
    let Ok(path) = format!(in rt.alloc(); "{folder}/{name}") else {
        return Err(WANT);
    };
    let Ok(whole) = from_words(rt, name.as_str(), first, words) else {
        return Err(WANT);
    };
    ask_over(
        rt,
        &served.desk,
        whole.as_slice(),
        path.as_str(),
        reader,
        output,
    )
}

/// Has a desk show what an edited file changes, and answers the exit status.
pub(crate) fn show_changes_by<W: AsStr>(
    rt: &HostRuntime,
    served: &Served<'_, '_>,
    name: &str,
    words: &[W],
    reader: &mut Input<'_>,
) -> Option<u8> {
    let first = [name];
    match ask_from(
        rt,
        served,
        first.as_slice(),
        words,
        reader,
        &mut io::writer(rt),
    ) {
        Ok(status) => Some(status),
        Err(why) => tell_unless_passed(rt, &served.desk, why),
    }
}

/// Brings an edited file home by a desk, and answers the exit status: the desk shows the list, and then carries out
/// its requests in turn.
pub(crate) fn bring_by<W: AsStr>(
    rt: &HostRuntime,
    served: &Served<'_, '_>,
    words: &[W],
    reader: &mut Input<'_>,
) -> Option<u8> {
    let mut list = Vec::new(rt.alloc());
    let first = ["bring", "--dry-run"];
    match ask_from(rt, served, first.as_slice(), words, reader, &mut list) {
        Ok(0) => Some(bring_list_by(rt, &served.desk, list.as_slice())),
        Ok(status) => Some(print_kept(rt, list.as_slice(), status)),
        Err(why) => tell_unless_passed(rt, &served.desk, why),
    }
}
