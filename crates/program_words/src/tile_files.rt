//! A tree of files `ZOOM/COLUMN/ROW.png`.
ghost use Rattle.std.specs.Prelude.{⊤};

use crate::tile_names::numbers_in;
use command_folder::endings::Ending;
use command_trees::adding::Sheets;
use command_verbs::areas::Place;
use program_output::printing::tell_lack;
use program_output::streams::Onlooker;
use std::{fs, io};
use store_folder::listing::folder_bytes;

/// The files of a tree. Each is read when it is asked for, and standard error is told how many of how many were.
#[derive(Drop)]
pub struct Tree<'r, 't> {
    rt: &'r HostRuntime,
    directory: &'t str,
    teller: Onlooker<'r>,
    done: u64,
    all: u64,
}

impl<'r, 't> Tree<'r, 't> {
    /// So many files of a directory, of which none was read.
    pub fn new(rt: &'r HostRuntime, directory: &'t str, count: usize) -> Tree<'r, 't> {
        Tree {
            rt,
            directory,
            teller: Onlooker::new(rt, false),
            done: 0,
            all: count as u64,
        }
    }

    /// Tells how far it is.
    fn tell(&mut self) {
        self.teller.tell_count(self.done, self.all);
        self.done = self.done.saturating_add(1);
    }

    fn read(&self, place: &Place) -> io::Result<Vec<u8>> {
        let directory = self.directory;
        let Place { zoom, column, row } = *place;
        let path = format!(in self.rt.alloc(); "{directory}/{zoom}/{column}/{row}.png")?;
        fs::read(self.rt, path.as_str())
    }
}

impl<'r, 't> Sheets for Tree<'r, 't> {
    // No clause can speak of the files of a folder. That each tile has the bytes of the call for its
    // own place is proved over all sources.
    ghost gives = { λ file bytes old new. ⊤ };

    fn bytes_of(&mut self, place: &Place) -> Option<Vec<u8>> {
        self.tell();
        match self.read(place) {
            Ok(bytes) => Some(bytes),
            Err(_) => None,
        }
    }
}

/// The numbers that the names in a folder are, with this behind them.
fn numbers_at(rt: &HostRuntime, folder: &str, ending: &str) -> io::Result<Vec<i64>> {
    let names = folder_bytes(rt, folder)?;
    Ok(numbers_in(rt.alloc(), names.as_slice(), ending)?)
}

/// Adds the places of a column.
fn push_rows(
    rt: &HostRuntime,
    folder: &str,
    zoom: i64,
    column: i64,
    places: &mut Vec<Place>,
) -> io::Result<()> {
    let path = format!(in rt.alloc(); "{folder}/{zoom}/{column}")?;
    for row in numbers_at(rt, path.as_str(), ".png")? {
        places.push(Place { zoom, column, row })?;
    }
    Ok(())
}

/// Adds those of a zoom.
fn push_columns(
    rt: &HostRuntime,
    folder: &str,
    zoom: i64,
    places: &mut Vec<Place>,
) -> io::Result<()> {
    let path = format!(in rt.alloc(); "{folder}/{zoom}")?;
    for column in numbers_at(rt, path.as_str(), "")? {
        push_rows(rt, folder, zoom, column, places)?;
    }
    Ok(())
}

/// The places of a tree, by zoom, column and row.
fn places_of(rt: &HostRuntime, folder: &str) -> io::Result<Vec<Place>> {
    let mut places = Vec::new(rt.alloc());
    for zoom in numbers_at(rt, folder, "")? {
        push_columns(rt, folder, zoom, &mut places)?;
    }
    Ok(places)
}

/// The places of the files in a directory, by zoom, column and row. Other names are passed over.
///
/// # Errors
///
/// How the program ends: a folder of the tree cannot be read, which standard error is told, or want of memory.
pub fn find_files(rt: &HostRuntime, directory: &str) -> Result<Vec<Place>, Ending> {
    match places_of(rt, directory) {
        Ok(places) => Ok(places),
        Err(error) => Err(tell_lack(rt, directory, &error, Ending::BadBody)),
    }
}
