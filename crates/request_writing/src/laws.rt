//! What is written is read: the contract of a function that does nothing.
ghost use Rattle.request_writing.specs.ReadBack.{WrittenIsRead};

/// The text of a list of requests is a list of these requests, as `request_csv` reads it.
pub fn written_is_read()
    ensures { WrittenIsRead }
{}
