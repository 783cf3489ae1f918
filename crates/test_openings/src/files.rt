// Stores over files in memory of which one may stop, and what a crash leaves of them.
ghost use Rattle.std.specs.Prelude.{◌≡◌, ⊤, [], IsTrue, IfOk};
ghost use Rattle.sqlite.specs.Files.{file_state};
ghost use Rattle.sqlite.specs.Held.{state};
ghost use Rattle.sqlite.specs.State.{HasCleanDisk};
ghost use Rattle.store_sql.specs.Blank.{IsBlank, no_schema};
ghost use Rattle.store_sql.specs.Writing.{AreKeyed};

use package_tables::fault::Fault;
use sqlite::{Alter, Connection, FileStore, Files, Options};
use sqlite_disk::{Crash, Disk, Fuse, Memory};
use std::alloc::Global;
use store_faults::shelf::ShelfFault;
use store_memory::open_blank;
use store_shelf::shelf::Shelf;
use uuid::Uuid;

// It is in memory, and stops after so many calls.
type File = Fuse<Memory>;

/// A store over files in memory that may stop.
pub type Store = FileStore<File>;

/// With these bytes, all of them synced; it stops after so many calls.
fn holding(alloc: Global, bytes: &[u8], calls: u64) -> Result<File, Fault>
    ensures { IfOk result (λ file. IsTrue (⟦<Fuse<Memory> as Disk>⟧.is_usable file)) }
{
    let mut file = Memory::new(alloc);
    if file.write_at(0, bytes).is_err() {
        return Err(Fault::OutOfMemory);
    }
    if file.sync().is_err() {
        return Err(Fault::OutOfMemory);
    }
    Ok(Fuse::new(file, calls))
}

/// Empty.
fn fresh(alloc: Global, calls: u64) -> File
    ensures usable { IsTrue (⟦<Fuse<Memory> as Disk>⟧.is_usable result) }
    ensures empty { ⟦<Fuse<Memory> as Disk>⟧.seen result ≡ [] }
{
    Fuse::new(Memory::new(alloc), calls)
}

// The bytes of a file that are synced, and all that are written.
#[derive(Drop)]
struct Bytes {
    synced: Vec<u8>,
    written: Vec<u8>,
}

impl Bytes {
    fn of(alloc: Global, file: File) -> Result<Bytes, Fault> {
        let mut file = file;
        let written = Vec::from_slice(alloc, file.inner().bytes())?;
        file.crash();
        Ok(Bytes {
            synced: Vec::from_slice(alloc, file.inner().bytes())?,
            written,
        })
    }

    fn left(&self, is_synced: bool) -> &[u8] {
        if is_synced {
            &self.synced
        } else {
            &self.written
        }
    }

    fn are_synced(&self) -> bool {
        self.synced.as_slice() == self.written.as_slice()
    }
}

/// What remains of the files of a store.
#[derive(Drop)]
pub struct Remains {
    log: Bytes,
    db: Bytes,
}

impl Remains {
    fn of(alloc: Global, files: Files<File>) -> Result<Remains, Fault> {
        let Files { log, db } = files;
        let log = Bytes::of(alloc, log)?;
        Ok(Remains {
            log,
            db: Bytes::of(alloc, db)?,
        })
    }

    fn is(&self, other: &Remains, is_synced: bool) -> bool {
        let is_log = self.log.left(is_synced) == other.log.left(is_synced);
        let is_db = self.db.left(is_synced) == other.db.left(is_synced);
        is_log & is_db
    }

    fn are_synced(&self) -> bool {
        self.log.are_synced() & self.db.are_synced()
    }
}

/// Whether a crash leaves the same bytes of these stores as of those.
pub fn are_same(these: &[Remains], those: &[Remains], is_synced: bool) -> bool {
    for (one, other) in these.iter().zip(those) {
        if !one.is(other, is_synced) {
            return false;
        }
    }
    these.len() == those.len()
}

/// Whether all that was written is synced.
pub fn are_synced(stores: &[Remains]) -> bool {
    for remains in stores {
        if !remains.are_synced() {
            return false;
        }
    }
    true
}

/// Which file stops, and after how many calls: the log or the database file of the archive, whose
/// place is 0, or of its loan, whose place is 1.
#[derive(Clone, Copy)]
pub struct Stop {
    pub place: usize,
    pub is_log: bool,
    pub calls: u64,
}

/// None does.
pub const NEVER: Stop = Stop {
    place: 0,
    is_log: true,
    calls: u64::MAX,
};

impl Stop {
    /// The same file, after so many calls.
    pub fn after(self, calls: u64) -> Stop {
        Stop {
            place: self.place,
            is_log: self.is_log,
            calls,
        }
    }

    // After how many calls the log, or the database file, of a store stops.
    fn calls_of(self, place: usize, is_log: bool) -> u64 {
        if (self.place == place) & (self.is_log == is_log) {
            self.calls
        } else {
            u64::MAX
        }
    }
}

// A store that stops keeps few pages, so that a request reads its files and writes the log before
// the commit. Another keeps more, and is faster. A short log is copied into the database file.
fn options(stop: Stop, place: usize) -> Options {
    let is_stopped = (stop.place == place) & (stop.calls < u64::MAX);
    let (cached, spilled) = if is_stopped { (8, 2) } else { (64, 64) };
    Options {
        cache_pages: cached,
        spill_pages: spilled,
        checkpoint_frames: 8,
        seed: 7,
    }
}

/// Files are opened as stores, and stores are taken apart. What a test does is written over any
/// such machine, since a function over a store of a known type is dear to prove.
pub trait Machine<S: Alter> {
    /// From now on this file stops, of stores that are opened or made.
    fn arm(&mut self, stop: Stop);

    /// The store at a place, over what a crash left: what was synced, as where the machine stops,
    /// or all that was written, as where the process ends.
    fn start(
        &self,
        place: usize,
        remains: &Remains,
        is_synced: bool,
    ) -> Result<Connection<S>, Fault>
        ensures { IfOk result (λ conn. HasCleanDisk (state S.Store conn) →
            AreKeyed (state S.Store conn).now) };

    /// What remains of a store.
    fn crash(&self, store: S) -> Result<Remains, Fault>;
}

/// Each package has two files in memory.
#[derive(Drop)]
pub struct MemoryMachine {
    alloc: Global,
    archive: Uuid,
    stop: Stop,
    failures: u64,
}

impl MemoryMachine {
    /// One in which nothing stops.
    pub fn new(alloc: Global, archive: Uuid) -> MemoryMachine {
        MemoryMachine {
            alloc,
            archive,
            stop: NEVER,
            failures: 0,
        }
    }
}

// The store at a place, over these bytes.
fn opened(
    alloc: Global,
    log: &[u8],
    db: &[u8],
    stop: Stop,
    place: usize,
) -> Result<Connection<Store>, Fault>
    ensures { IfOk result (λ conn. HasCleanDisk (file_state conn) →
        AreKeyed (file_state conn).now) }
{
    let log = holding(alloc, log, stop.calls_of(place, true))?;
    let db = holding(alloc, db, stop.calls_of(place, false))?;
    match Connection::open_files(alloc, Files { log, db }, options(stop, place)) {
        Ok(conn) => Ok(conn),
        Err((error, _)) => Err(Fault::from(error)),
    }
}

impl Machine<Store> for MemoryMachine {
    fn arm(&mut self, stop: Stop) {
        self.stop = stop;
    }

    fn start(
        &self,
        place: usize,
        remains: &Remains,
        is_synced: bool,
    ) -> Result<Connection<Store>, Fault> {
        let log = remains.log.left(is_synced);
        let db = remains.db.left(is_synced);
        opened(self.alloc, log, db, self.stop, place)
    }

    fn crash(&self, store: Store) -> Result<Remains, Fault> {
        Remains::of(self.alloc, store.close())
    }
}

impl Shelf<Store> for MemoryMachine {
    ghost failures_of = { λ machine. machine.failures };

    // What is asked shows by the stores that are left.
    ghost asks = { λ uuid old new. ⊤ };

    ghost takes = { λ uuid store old new. ⊤ };

    fn blank(&mut self, package: Uuid) -> Result<Connection<Store>, ShelfFault> {
        let place = if package == self.archive { 0 } else { 1 };
        let files = Files {
            log: fresh(self.alloc, self.stop.calls_of(place, true)),
            db: fresh(self.alloc, self.stop.calls_of(place, false)),
        };
        match open_blank(self.alloc, files, options(self.stop, place)) {
            Ok(conn) => Ok(conn),
            Err(_) => {
                self.failures = self.failures.saturating_add(1);
                Err(ShelfFault::StoreFault)
            }
        }
    }

    // It is gone.
    fn retire(&mut self, _package: Uuid, _store: Store)
        ensures { self.new ≡ self.old }
    {}

    fn failures(&self) -> u64 {
        self.failures
    }
}

/// What remains of stores.
pub fn crashed<S: Alter + Drop, M: Machine<S>>(
    alloc: Global,
    machine: &M,
    stores: Vec<Connection<S>>,
) -> Result<Vec<Remains>, Fault> {
    let mut files = Vec::new(alloc);
    for conn in stores {
        files.push(machine.crash(conn.into_store())?)?;
    }
    Ok(files)
}
