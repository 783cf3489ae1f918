//! What is supposed of a file when it is opened.
ghost use Rattle.std.specs.Prelude.{[], true};

use sqlite::FileStore;
use sqlite_disk::Start;
use sqlite_std_file::FileFrom;

/// The files are empty, and a torn write leaves each of its bytes old or new.
///
/// It is true of a store that a shelf makes, whose files are removed before. It is the premise of
/// each clause on the values of a store of this type: of one that was found with something in it,
/// they say nothing.
#[derive(Drop)]
pub struct Empty;

impl Start for Empty {
    ghost log = { [] };

    ghost db = { [] };

    ghost is_mixing = { true };

    fn mixes() -> bool {
        true
    }
}

/// A store in two files of the file system, the database and its log.
pub type FolderStore = FileStore<FileFrom<Empty>>;
