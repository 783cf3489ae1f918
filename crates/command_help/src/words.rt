//! The command line.
use crate::building::{command_of, with_entries, with_verbs};
use crate::help::{ABOUT, WORDS};
use crate::tables::{
    FIELD, FILES, KEEPING, LENDING, LINKING, LOOKS, MAKING, OTHER_KINDS, PICTURES, PUT, SESSIONS,
    TILE_KINDS,
};
use clap::Command;
use std::alloc::{AllocError, Global};

/// What makes an archive. Each table is used in a function of its own, since a check goes through all that it has
/// at once.
fn with_making<'a>(alloc: Global, command: Command<'a>) -> Result<Command<'a>, AllocError> {
    with_entries(alloc, command, MAKING)
}

/// `put` with its words, and the tiles that it adds.
fn put_of_tiles<'a>(alloc: Global) -> Result<Command<'a>, AllocError> {
    with_verbs(alloc, command_of(alloc, PUT)?, TILE_KINDS)
}

/// What adds an item.
fn with_putting<'a>(alloc: Global, command: Command<'a>) -> Result<Command<'a>, AllocError> {
    let put = with_verbs(alloc, put_of_tiles(alloc)?, OTHER_KINDS)?;
    command.subcommand(put)
}

/// What lends, and brings home.
fn with_lending<'a>(alloc: Global, command: Command<'a>) -> Result<Command<'a>, AllocError> {
    with_entries(alloc, command, LENDING)
}

/// What links, and takes away.
fn with_linking<'a>(alloc: Global, command: Command<'a>) -> Result<Command<'a>, AllocError> {
    with_entries(alloc, command, LINKING)
}

/// What carries out requests, and looks.
fn with_looks<'a>(alloc: Global, command: Command<'a>) -> Result<Command<'a>, AllocError> {
    with_entries(alloc, command, LOOKS)
}

/// What other programs read.
fn with_files<'a>(alloc: Global, command: Command<'a>) -> Result<Command<'a>, AllocError> {
    with_entries(alloc, command, FILES)
}

/// What brings an edited file home.
fn with_field<'a>(alloc: Global, command: Command<'a>) -> Result<Command<'a>, AllocError> {
    with_entries(alloc, command, FIELD)
}

/// What draws a register.
fn with_pictures<'a>(alloc: Global, command: Command<'a>) -> Result<Command<'a>, AllocError> {
    with_entries(alloc, command, PICTURES)
}

/// What keeps a register.
fn with_keeping<'a>(alloc: Global, command: Command<'a>) -> Result<Command<'a>, AllocError> {
    with_entries(alloc, command, KEEPING)
}

/// What carries out many commands, or helps to type them.
fn with_sessions<'a>(alloc: Global, command: Command<'a>) -> Result<Command<'a>, AllocError> {
    with_entries(alloc, command, SESSIONS)
}

/// The verbs for people.
fn with_people<'a>(alloc: Global, command: Command<'a>) -> Result<Command<'a>, AllocError> {
    let command = with_making(alloc, command)?;
    let command = with_putting(alloc, command)?;
    let command = with_lending(alloc, command)?;
    with_linking(alloc, command)
}

/// What files and pictures are made of a register, and what of other files comes home.
fn with_papers<'a>(alloc: Global, command: Command<'a>) -> Result<Command<'a>, AllocError> {
    let command = with_files(alloc, command)?;
    let command = with_field(alloc, command)?;
    with_pictures(alloc, command)
}

/// The command line of the program. Its words are in `tables`.
pub fn sheetdesk<'a>(alloc: Global) -> Result<Command<'a>, AllocError> {
    let command = Command::new(alloc, "sheetdesk")
        .about(ABOUT)
        .after_help(WORDS)
        .subcommand_required(true);
    let command = with_people(alloc, command)?;
    let command = with_looks(alloc, command)?;
    let command = with_papers(alloc, command)?;
    let command = with_keeping(alloc, command)?;
    with_sessions(alloc, command)
}
