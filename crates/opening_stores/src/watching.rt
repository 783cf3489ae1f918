//! Who is told how far an opening is.

/// Is told how many of how many stores were looked at.
pub trait Watcher {
    /// So many of `all` stores were looked at; told before each of them, and once more after the
    /// last. Nothing that comes of an opening depends on it.
    fn looked_at(&mut self, done: usize, all: usize);
}

/// Is told, and does nothing.
#[derive(Clone, Copy, PartialEq, Eq)]
pub struct Unwatched;

impl Watcher for Unwatched {
    fn looked_at(&mut self, _done: usize, _all: usize) {}
}
