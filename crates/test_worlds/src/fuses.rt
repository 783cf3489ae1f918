// Files in memory that stop after so many calls, what is left of them, and a shelf of stores over them.
ghost use Rattle.std.specs.Prelude.{◌≡◌, ⊤, [], IsTrue, IfOk};

use crate::loans::package;
use package_tables::fault::Fault;
use sqlite::{Alter, Connection, FileStore, Files, Options};
use sqlite_disk::{Crash, Disk, Fuse, Memory};
use std::alloc::Global;
use store_faults::shelf::ShelfFault;
use store_memory::open_blank;
use store_shelf::shelf::Shelf;
use uuid::Uuid;

/// A file in memory that stops after so many calls.
pub type File = Fuse<Memory>;

/// A store over two such files.
pub type Store = FileStore<File>;

/// Empty.
fn fresh(alloc: Global, calls: u64) -> File
    ensures usable { IsTrue (⟦<Fuse<Memory> as Disk>⟧.is_usable result) }
    ensures empty { ⟦<Fuse<Memory> as Disk>⟧.seen result ≡ [] }
{
    Fuse::new(Memory::new(alloc), calls)
}

/// With these bytes, all of them synced; it does not stop.
fn holding(alloc: Global, bytes: &[u8]) -> Result<File, Fault>
    ensures { IfOk result (λ file. IsTrue (⟦<Fuse<Memory> as Disk>⟧.is_usable file)) }
{
    let mut file = Memory::new(alloc);
    if file.write_at(0, bytes).is_err() {
        return Err(Fault::OutOfMemory);
    }
    if file.sync().is_err() {
        return Err(Fault::OutOfMemory);
    }
    Ok(Fuse::new(file, u64::MAX))
}

/// What is left of a file: what was synced, as after a stop of the machine, or all that was written, as after the end
/// of a process.
#[derive(Clone, Copy)]
pub enum Leaves {
    Synced,
    Written,
}

/// Of the log and of the database file.
#[derive(Clone, Copy)]
pub struct Left {
    pub log: Leaves,
    pub db: Leaves,
}

/// Of both what was synced.
pub const SYNCED: Left = Left {
    log: Leaves::Synced,
    db: Leaves::Synced,
};

/// A machine that stops, or a process; or one file has all that was written, and the other not.
pub const WAYS: [Left; 4] = [
    SYNCED,
    Left {
        log: Leaves::Written,
        db: Leaves::Written,
    },
    Left {
        log: Leaves::Synced,
        db: Leaves::Written,
    },
    Left {
        log: Leaves::Written,
        db: Leaves::Synced,
    },
];

// The bytes of a file, by what is left of it.
#[derive(Drop)]
struct FileRemains {
    synced: Vec<u8>,
    written: Vec<u8>,
}

impl FileRemains {
    fn of(alloc: Global, mut file: File) -> Result<FileRemains, Fault> {
        let written = Vec::from_slice(alloc, file.inner().bytes())?;
        file.crash();
        let synced = Vec::from_slice(alloc, file.inner().bytes())?;
        Ok(FileRemains { synced, written })
    }

    fn left(&self, leaves: Leaves) -> &[u8] {
        match leaves {
            Leaves::Synced => &self.synced,
            Leaves::Written => &self.written,
        }
    }

    fn has_unsynced(&self) -> bool {
        self.synced.as_slice() != self.written.as_slice()
    }
}

/// What remains of the files of a store.
#[derive(Drop)]
pub struct Remains {
    log: FileRemains,
    db: FileRemains,
}

impl Remains {
    fn of(alloc: Global, files: Files<File>) -> Result<Remains, Fault> {
        let Files { log, db } = files;
        let log = FileRemains::of(alloc, log)?;
        Ok(Remains {
            log,
            db: FileRemains::of(alloc, db)?,
        })
    }
}

/// A shelf whose stores can be taken apart, and opened again from what a crash leaves. What a run is, is written over
/// any such shelf: a function in which a store of a known type lives costs a minute and more to prove.
pub trait Reopens<S: Alter> {
    /// What remains of the files of a store, which is gone.
    fn remains(&self, store: S) -> Result<Remains, Fault>;

    /// The store when its files come back.
    fn opened(&self, remains: &Remains, left: Left) -> Result<Connection<S>, Fault>;
}

impl Reopens<Store> for FusedShelf {
    fn remains(&self, store: Store) -> Result<Remains, Fault> {
        Remains::of(self.alloc, store.close())
    }

    fn opened(&self, remains: &Remains, left: Left) -> Result<Connection<Store>, Fault> {
        let log = holding(self.alloc, remains.log.left(left.log))?;
        let db = holding(self.alloc, remains.db.left(left.db))?;
        match Connection::open_files(self.alloc, Files { log, db }, Options::new(7)) {
            Ok(conn) => Ok(conn),
            Err((error, _)) => Err(Fault::from(error)),
        }
    }
}

/// Whether a crash in this way leaves other bytes of these stores than each way before it in `WAYS`.
pub fn leaves_other(files: &[Remains], way: Left) -> bool {
    let mut logs = false;
    let mut dbs = false;
    for remains in files {
        logs = logs || remains.log.has_unsynced();
        dbs = dbs || remains.db.has_unsynced();
    }
    match (way.log, way.db) {
        (Leaves::Synced, Leaves::Synced) => true,
        (Leaves::Written, Leaves::Written) => logs || dbs,
        (Leaves::Synced, Leaves::Written) => logs && dbs,
        (Leaves::Written, Leaves::Synced) => logs && dbs,
    }
}

/// Which file stops.
#[derive(Clone, Copy)]
pub enum Stops {
    Log,
    Db,
}

/// So few pages are kept that a request reads both files, writes the log before its commit, and copies it into the
/// database file after that.
fn options() -> Options {
    Options {
        cache_pages: 2,
        spill_pages: 2,
        checkpoint_frames: 8,
        seed: 7,
    }
}

// A store that does not stop keeps more pages, and is faster.
fn roomy() -> Options {
    Options {
        cache_pages: 64,
        spill_pages: 64,
        checkpoint_frames: 100,
        seed: 7,
    }
}

/// What fails: nothing; a file of the store of this package after so many calls; or the shelf,
/// which has no store for it the first time.
#[derive(Clone, Copy)]
pub enum Fusing {
    Nothing,
    File(Uuid, Stops, u64),
    Shelf(Uuid, ShelfFault),
}

impl Fusing {
    /// The package goes by its first digit.
    pub fn file(digit: u8, stops: Stops, calls: u64) -> Fusing {
        Fusing::File(package(digit), stops, calls)
    }

    /// The same.
    pub fn shelf(digit: u8, why: ShelfFault) -> Fusing {
        Fusing::Shelf(package(digit), why)
    }

    // After how many calls the log and the database file of a package stop, and which pages its store keeps.
    fn calls(&self, of: Uuid) -> (u64, u64, Options) {
        match *self {
            Fusing::File(package, Stops::Log, calls) if package == of => {
                (calls, u64::MAX, options())
            }
            Fusing::File(package, Stops::Db, calls) if package == of => {
                (u64::MAX, calls, options())
            }
            _ => (u64::MAX, u64::MAX, roomy()),
        }
    }

    // Why there is no store for a package.
    fn lacks(&self, of: Uuid) -> Option<ShelfFault> {
        match *self {
            Fusing::Shelf(package, why) if package == of => Some(why),
            _ => None,
        }
    }
}

/// Gives each package two empty files.
#[derive(Drop)]
pub struct FusedShelf {
    alloc: Global,
    fusing: Fusing,
    failures: u64,
}

impl FusedShelf {
    /// A shelf that has not failed.
    pub fn new(alloc: Global, fusing: &Fusing) -> FusedShelf {
        FusedShelf {
            alloc,
            fusing: *fusing,
            failures: 0,
        }
    }

    fn fault(&self, package: Uuid) -> Option<ShelfFault> {
        if self.failures == 0 {
            self.fusing.lacks(package)
        } else {
            None
        }
    }
}

impl Shelf<Store> for FusedShelf {
    ghost failures_of = { λ shelf. shelf.failures };

    // The faults that it answers show which packages it is asked for.
    ghost asks = { λ uuid old new. ⊤ };

    ghost takes = { λ uuid store old new. ⊤ };

    fn blank(&mut self, package: Uuid) -> Result<Connection<Store>, ShelfFault> {
        if let Some(why) = self.fault(package) {
            self.failures = self.failures.saturating_add(1);
            return Err(why);
        }
        let (log_calls, db_calls, options) = self.fusing.calls(package);
        let files = Files {
            log: fresh(self.alloc, log_calls),
            db: fresh(self.alloc, db_calls),
        };
        match open_blank(self.alloc, files, options) {
            Ok(conn) => Ok(conn),
            Err(_) => {
                self.failures = self.failures.saturating_add(1);
                Err(ShelfFault::StoreFault)
            }
        }
    }

    fn retire(&mut self, _package: Uuid, _store: Store)
        ensures { self.new ≡ self.old }
    {}

    fn failures(&self) -> u64 {
        self.failures
    }
}
