//! The clerk of a desk over a folder: what the words of a command line ask for is made of the open world, and what
//! would be printed goes out as frames.
ghost use Rattle.std.specs.Prelude.{⊤};
ghost use Rattle.desk_http.specs.Connections.{IsServedBy};

use crate::clerk_input::{Command, Heard, command_of};
use crate::clerk_pages::{
    Errand, attend_changes, attend_drop, attend_page, attend_project, attend_tidy,
};
use crate::clerk_telling::{pass_on, tell_ending, tell_unnamed, tell_usual};
use crate::clerk_words::{Filled, deed_of, fill, part_of, whole_words};
use command_desk::deeds::{Deed, carry_out};
use command_desk::frames::Frames;
use command_desk::words::{Asked, read_asked};
use desk_http::clerks::Clerk;
use program_words::kinds::{is_paper, is_served, project_file};
use program_words::names::Unnamed;
use program_words::parsing::parse_words;
use sqlite::Alter;
use std::io::Write;
use store_folder::listing::list;
use store_shelf::shelf::Shelf;
use world::world::World;

/// Carries out commands over the world of a folder.
#[derive(Drop)]
pub struct FolderClerk<'a> {
    rt: &'a HostRuntime,
    folder: &'a str,
    key: &'a str,
}

impl<'a> FolderClerk<'a> {
    /// A clerk to whom this key is to be shown; to one whose key is empty nobody comes.
    pub fn new(rt: &'a HostRuntime, folder: &'a str, key: &'a str) -> FolderClerk<'a> {
        FolderClerk { rt, folder, key }
    }
}

impl<'a> Clerk for FolderClerk<'a> {
    ghost key_of = { λ clerk. clerk.key.now };

    ghost attends = { λ body held holds clerk next. ⊤ };

    fn key(&self) -> Option<&[u8]> {
        if self.key.is_empty() {
            None
        } else {
            Some(self.key.as_bytes())
        }
    }

    fn attend<S: Alter + Drop, H: Shelf<S>, W: Write>(
        &mut self,
        world: &mut World<S>,
        shelf: &mut H,
        body: &[u8],
        writer: &mut W,
    ) {
        let mut frames = Frames::new(self.rt.alloc(), writer);
        match read_asked(self.rt.alloc(), body) {
            Ok(Some(asked)) => {
                attend_asked(self.rt, self.folder, world, shelf, &asked, &mut frames)
            }
            Ok(None) | Err(_) => pass_on(&mut frames),
        }
    }
}

/// Carries out what was asked: a part of a command, or a command.
fn attend_asked<S: Alter + Drop, H: Shelf<S>, W: Write>(
    rt: &HostRuntime,
    folder: &str,
    world: &mut World<S>,
    shelf: &mut H,
    asked: &Asked<'_>,
    frames: &mut Frames<W>,
)
    ensures { IsServedBy S.Store 1 world.old world.new }
{
    match part_of(asked.words.as_slice()) {
        Some(deed) => attend_deed(rt, folder, world, shelf, &deed, asked.input, frames),
        None => attend_heard(rt, folder, world, shelf, asked, frames),
    }
}

/// Carries out the command that was asked, once it is known what it reads.
fn attend_heard<S: Alter + Drop, H: Shelf<S>, W: Write>(
    rt: &HostRuntime,
    folder: &str,
    world: &mut World<S>,
    shelf: &mut H,
    asked: &Asked<'_>,
    frames: &mut Frames<W>,
)
    ensures { IsServedBy S.Store 1 world.old world.new }
{
    match command_of(rt, folder, asked) {
        Some(Ok(command)) => attend_command(rt, folder, world, shelf, command, frames),
        Some(Err(why)) => tell_unnamed(rt, &why, frames),
        None => pass_on(frames),
    }
}

/// The same, once it is known.
fn attend_command<S: Alter + Drop, H: Shelf<S>, W: Write>(
    rt: &HostRuntime,
    folder: &str,
    world: &mut World<S>,
    shelf: &mut H,
    command: Command<'_>,
    frames: &mut Frames<W>,
)
    ensures { IsServedBy S.Store 1 world.old world.new }
{
    let Command { words, heard } = command;
    match whole_words(rt, words) {
        Ok(words) => attend_words(rt, folder, world, shelf, words.as_slice(), heard, frames),
        Err(_) => pass_on(frames),
    }
}

/// What all words name and leave out; none where a desk does not carry the command out.
fn fill_words(
    rt: &HostRuntime,
    folder: &str,
    words: &[&str],
    heard: &Heard<'_>,
) -> Option<Result<Filled, Unnamed>> {
    let Ok(matches) = parse_words(rt, words) else {
        return None;
    };
    let (name, given) = matches.subcommand()?;
    if !is_served(name, given) || !heard.is_for(name) {
        return None;
    }
    Some(fill(rt, folder, name, given, heard.bytes()))
}

/// Carries out the command of these words.
fn attend_words<S: Alter + Drop, H: Shelf<S>, W: Write>(
    rt: &HostRuntime,
    folder: &str,
    world: &mut World<S>,
    shelf: &mut H,
    words: &[&str],
    heard: Heard<'_>,
    frames: &mut Frames<W>,
)
    ensures { IsServedBy S.Store 1 world.old world.new }
{
    match fill_words(rt, folder, words, &heard) {
        Some(Ok(filled)) => attend_filled(rt, folder, world, shelf, words, &filled, heard, frames),
        Some(Err(why)) => tell_unnamed(rt, &why, frames),
        None => pass_on(frames),
    }
}

/// Carries out the command of these words, which name these and leave these out. They are matched once more, so that
/// all words live as long as these do.
fn attend_filled<'m, S: Alter + Drop, H: Shelf<S>, W: Write>(
    rt: &HostRuntime,
    folder: &str,
    world: &mut World<S>,
    shelf: &mut H,
    words: &'m [&'m str],
    filled: &'m Filled,
    heard: Heard<'_>,
    frames: &mut Frames<W>,
)
    ensures { IsServedBy S.Store 1 world.old world.new }
{
    let Ok(matches) = parse_words(rt, words) else {
        return pass_on(frames);
    };
    let Some((name, given)) = matches.subcommand() else {
        return pass_on(frames);
    };
    let errand = Errand {
        rt,
        folder,
        name,
        given,
        filled,
    };
    attend_errand(&errand, world, shelf, heard, frames)
}

/// Carries out a command, by its name.
fn attend_errand<S: Alter + Drop, H: Shelf<S>, W: Write>(
    errand: &Errand<'_, '_>,
    world: &mut World<S>,
    shelf: &mut H,
    heard: Heard<'_>,
    frames: &mut Frames<W>,
)
    ensures { IsServedBy S.Store 1 world.old world.new }
{
    match errand.name {
        "changes" | "bring" => attend_changes(errand, world, shelf, heard, frames),
        "drop" => attend_drop(errand, world, shelf, frames),
        "tidy" => attend_tidy(errand, world, frames),
        _ => attend_file(errand, world, shelf, heard.bytes(), frames),
    }
}

/// The same of one that may ask for a file for people: a page, a drawing or a project.
fn attend_file<S: Alter + Drop, H: Shelf<S>, W: Write>(
    errand: &Errand<'_, '_>,
    world: &mut World<S>,
    shelf: &mut H,
    bytes: &[u8],
    frames: &mut Frames<W>,
)
    ensures { IsServedBy S.Store 1 world.old world.new }
{
    if is_paper(errand.name, errand.given) {
        return attend_page(errand, world, bytes, frames);
    }
    match project_file(errand.name, errand.given) {
        Some(file) => attend_project(errand, world, file, frames),
        None => attend_work(errand, world, shelf, bytes, frames),
    }
}

/// The same of one that is a deed.
fn attend_work<S: Alter + Drop, H: Shelf<S>, W: Write>(
    errand: &Errand<'_, '_>,
    world: &mut World<S>,
    shelf: &mut H,
    input: &[u8],
    frames: &mut Frames<W>,
)
    ensures { IsServedBy S.Store 1 world.old world.new }
{
    match deed_of(errand.name, errand.given, errand.filled) {
        Ok(deed) => attend_deed(errand.rt, errand.folder, world, shelf, &deed, input, frames),
        Err(ending) => tell_usual(errand.rt, ending, &None, frames),
    }
}

/// How many packages have a file in a folder.
fn files_in(rt: &HostRuntime, folder: &str) -> u64 {
    match list(rt, folder) {
        Ok(listing) => listing.packages.len() as u64,
        Err(_) => 0,
    }
}

/// Carries out a deed, and tells how it ended.
fn attend_deed<S: Alter + Drop, H: Shelf<S>, W: Write>(
    rt: &HostRuntime,
    folder: &str,
    world: &mut World<S>,
    shelf: &mut H,
    deed: &Deed<'_>,
    input: &[u8],
    frames: &mut Frames<W>,
)
    ensures { IsServedBy S.Store 1 world.old world.new }
{
    let files = files_in(rt, folder);
    let (ending, hint) = carry_out(rt.alloc(), world, shelf, files, deed, input, &mut *frames);
    tell_ending(rt, ending, &hint, frames);
}
