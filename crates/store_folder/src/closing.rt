//! The stores of packages, closed.

use sqlite::{Connection, Error, FileStore};
use sqlite_disk::Disk;

/// What has a log beside its database.
// A loop over any such thing is proved for a third of what one over stores of a folder costs.
trait Close: Drop {
    /// Copies the log into the database, and closes both.
    fn close_whole(self) -> Result<(), Error>;
}

impl<D: Disk + Drop> Close for Connection<FileStore<D>> {
    fn close_whole(self) -> Result<(), Error> {
        self.close()
    }
}

/// Closes each of these in turn, and answers the first error.
fn close_each<T: Close>(stores: Vec<T>) -> Result<(), Error> {
    let mut closed = Ok(());
    for store in stores {
        closed = closed.and(store.close_whole());
    }
    closed
}

/// Copies each log into its database, and closes both. Where a log cannot be copied the others are,
/// and the first error is answered.
pub(crate) fn close_all<D: Disk + Drop>(conns: Vec<Connection<FileStore<D>>>) -> Result<(), Error> {
    close_each(conns)
}
