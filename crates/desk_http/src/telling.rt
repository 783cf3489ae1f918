//! Who is told of a desk while it serves.

use manifest_csv::progress::Silent;

/// Is told of a desk. Nothing that comes of serving depends on it.
pub trait DeskTeller {
    /// The desk listens at this port from now on.
    fn tell_port(&mut self, port: u16);

    /// A connection was served whose request begins with this line. The status is that of its response, or `-` where
    /// none went out.
    fn tell_exchange(&mut self, line: &[u8], status: &[u8]);
}

impl DeskTeller for Silent {
    fn tell_port(&mut self, _port: u16) {}

    fn tell_exchange(&mut self, _line: &[u8], _status: &[u8]) {}
}
