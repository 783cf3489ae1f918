//! The folder that a session keeps open from line to line: a line over it is answered as a desk answers it, in this
//! process.
use clap::ArgMatches;
use command_folder::folders::{OpenFolder, open_folder};
use desk_asking::answers::{Answer, AnswerFault, copy_answer};
use desk_asking::asking::body_of;
use desk_http::clerks::Clerk;
use program_asking::asking::{finish, input_for, output_for};
use program_asking::desks::words_before;
use program_output::desk_files::{desk_file_text, is_held};
use program_output::options::text_of;
use program_output::printing::{out_of_memory, output_failed};
use program_output::streams::{Input, Output};
use program_serving::serving::FolderClerk;
use program_words::kinds::{is_served, is_verb};
use std::alloc::AllocError;
use std::convert::AsStr;
use store_folder::opening::close_stores;
use store_folder::shelf::FolderShelf;
use store_folder::start::FolderStore;
use world::world::World;

/// What stands before the frames of an answer, as those of a desk are read.
const ANSWER_HEAD: &[u8] = b"HTTP/1.1 200 OK\r\n\r\n";

/// A folder that is open, under its name as it was typed.
#[derive(Drop)]
struct Kept {
    name: String,
    folder: OpenFolder,
}

/// Whether a command is carried out over a folder that stays open. An answer is held in memory, so those that have long
/// ones are left out. So is `apply`, which may be several requests, and `audit`, which certifies a folder.
fn is_kept(name: &str, given: &ArgMatches<'_>) -> bool {
    let is_short = match name {
        "status" | "log" | "explain" | "receipt" | "get" => true,
        _ => is_verb(name),
    };
    is_short && is_served(name, given)
}

/// Whether a desk of another process serves a folder. What a desk left that was killed is removed.
fn is_desk_there(rt: &HostRuntime, folder: &str) -> bool {
    desk_file_text(rt, folder).is_some() && is_held(rt, folder)
}

/// A folder, opened; none where it does not open.
fn open_kept(rt: &HostRuntime, folder: &str) -> Option<Kept> {
    let Ok(name) = String::from_str(rt.alloc(), folder) else {
        return None;
    };
    match open_folder(rt, folder) {
        Ok(folder) => Some(Kept { name, folder }),
        Err(_) => None,
    }
}

/// Closes the files of a folder, and then lets others have it.
fn close_folder(folder: OpenFolder) {
    let OpenFolder {
        world,
        lock: _lock,
        ..
    } = folder;
    close_stores(world.into_stores());
}

/// What is asked of a clerk, with what the command reads; none where that cannot be read, which the command itself
/// tells.
fn body_for<W: AsStr>(
    rt: &HostRuntime,
    words: &[W],
    name: &str,
    options: &ArgMatches<'_>,
    reader: &mut Input<'_>,
) -> Option<Vec<u8>> {
    let Ok(behind) = words_before(rt, [name].as_slice(), words, 2) else {
        return None;
    };
    let Ok(input) = input_for(rt, name, options, reader) else {
        return None;
    };
    body_of(rt.alloc(), behind.as_slice(), input.as_slice()).ok()
}

/// What the clerk of a folder answers.
fn answer_over(
    rt: &HostRuntime,
    folder: &str,
    world: &mut World<FolderStore>,
    body: &[u8],
) -> Result<Vec<u8>, AllocError> {
    let mut answer = Vec::new(rt.alloc());
    answer.extend_from_slice(ANSWER_HEAD)?;
    let mut shelf = FolderShelf::new(rt, folder);
    let mut clerk = FolderClerk::new(rt, folder, "");
    clerk.attend(world, &mut shelf, body, &mut answer);
    Ok(answer)
}

/// Copies an answer to where the command writes and to standard error.
fn tell_answer(
    rt: &HostRuntime,
    answer: &[u8],
    output: &mut Output<'_>,
) -> Result<Answer, AnswerFault> {
    let mut reader = answer;
    let mut errors = rt.stderr();
    copy_answer(rt.alloc(), &mut reader, &mut *output, &mut errors)
}

/// The same, and answers the exit status; none where the clerk does not carry such a command out. An answer that is cut
/// found no memory.
fn end_answer(
    rt: &HostRuntime,
    answer: &[u8],
    path: Option<&str>,
    output: &mut Output<'_>,
) -> Option<u8> {
    match tell_answer(rt, answer, &mut *output) {
        Ok(Answer::Ended(status)) => Some(finish(rt, path, &*output, status)),
        Ok(Answer::NotHere) => None,
        Err(AnswerFault::Unwritten) => Some(output_failed(rt)),
        Err(_) => Some(out_of_memory(rt)),
    }
}

/// Has the clerk of an open folder carry out a command, whose options stand among these words, and answers the exit
/// status.
fn attend_with<'m, W: AsStr>(
    rt: &HostRuntime,
    kept: &mut Kept,
    words: &[W],
    name: &str,
    given: &ArgMatches<'m>,
    options: &ArgMatches<'m>,
    reader: &mut Input<'_>,
) -> Option<u8> {
    let Some(body) = body_for(rt, words, name, options, reader) else {
        return None;
    };
    let folder = kept.name.as_str();
    let Ok(answer) = answer_over(rt, folder, &mut kept.folder.world, body.as_slice()) else {
        return Some(out_of_memory(rt));
    };
    let mut output = output_for(rt, name, given, options);
    end_answer(rt, answer.as_slice(), given.get_str("output"), &mut output)
}

/// The same of all words. The options of a verb stand behind the kind of what is put, where there is one.
fn attend_for<'m, W: AsStr>(
    rt: &HostRuntime,
    kept: &mut Kept,
    words: &[W],
    name: &str,
    given: &ArgMatches<'m>,
    reader: &mut Input<'_>,
) -> Option<u8> {
    match given.subcommand() {
        Some((_, options)) => attend_with(rt, kept, words, name, given, options, reader),
        None => attend_with(rt, kept, words, name, given, given, reader),
    }
}

/// Keeps the folder of a line open for the lines behind it. It is one folder at most.
#[derive(Drop)]
pub struct Keeper<'r> {
    rt: &'r HostRuntime,
    kept: Option<Kept>,
}

impl<'r> Keeper<'r> {
    /// One that keeps nothing.
    pub fn new(rt: &'r HostRuntime) -> Keeper<'r> {
        Keeper { rt, kept: None }
    }

    /// The runtime that all is done over.
    pub fn rt(&self) -> &'r HostRuntime {
        self.rt
    }

    /// Closes what is kept.
    pub fn close(&mut self) {
        if let Some(Kept { folder, .. }) = self.kept.take() {
            close_folder(folder);
        }
    }

    /// Whether a folder is kept under this name.
    fn has(&self, folder: &str) -> bool {
        match &self.kept {
            Some(kept) => kept.name.as_str() == folder,
            None => false,
        }
    }

    /// Keeps a folder, and no other, unless it is for a desk or does not open.
    fn keep(&mut self, folder: &str) {
        if self.has(folder) {
            return;
        }
        self.close();
        if !is_desk_there(self.rt, folder) {
            self.kept = open_kept(self.rt, folder);
        }
    }

    /// Carries a command out over the folder that is kept, and answers the exit status. A world that failed is kept no
    /// longer.
    fn attend<'m, W: AsStr>(
        &mut self,
        words: &[W],
        name: &str,
        given: &ArgMatches<'m>,
        reader: &mut Input<'_>,
    ) -> Option<u8> {
        let Some(kept) = &mut self.kept else {
            return None;
        };
        let status = attend_for(self.rt, kept, words, name, given, reader);
        if kept.folder.world.has_failed() {
            self.close();
        }
        status
    }

    /// Carries out the command of this name over its folder, which is kept from then on, and answers the exit status.
    /// `None` where it is no command for that; then nothing was done, and no folder is kept.
    pub fn carry_out<W: AsStr>(
        &mut self,
        words: &[W],
        name: &str,
        given: &ArgMatches<'_>,
        reader: &mut Input<'_>,
    ) -> Option<u8> {
        if is_kept(name, given) {
            self.keep(text_of(given, "folder"));
            if let Some(status) = self.attend(words, name, given, reader) {
                return Some(status);
            }
        }
        self.close();
        None
    }
}
