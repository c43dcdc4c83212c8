ghost use Rattle.std.specs.Prelude.{◌≤◌, length, IfOk};

use std::io;
use std::rt::HostRuntime;

/// The permission on standard error by bytes and in pieces.
///
/// The runtime's own bound takes whole texts and does not tell how much of one was written.
pub trait StandardError {
    /// Writes a first part of `bytes` and answers its length in bytes, or fails and has written
    /// none.
    fn write_error(&self, bytes: &[u8]) -> io::Result<usize>
        ensures { IfOk result (λ k. k ≤ length bytes.now) };
}

impl StandardError for HostRuntime {
    fn write_error(&self, bytes: &[u8]) -> io::Result<usize> {
        self.stderr().write_some(bytes)
    }
}
