//! The streams of a session, as traits: a reader and a writer whose failures a contract can count.
use std::io;

/// A reader that counts its failures.
///
/// The count exists only in contracts. It shows which calls of the reader failed, so that a contract over any reader
/// can say where an error comes from.
pub trait SessionReader {
    ghost use Rattle.std.specs.Prelude.{◌≡◌, ℕ, ◌+◌, List, Option};
    ghost use Rattle.std.specs.Io.{ReadsAtMost};
    ghost use Rattle.std.specs.Io.KnownBytes.{ReadConsumes};
    ghost use Rattle.client_sessions.specs.Faults.{failures_in};

    // The bytes that reads will return from here on, if a contract can name them.
    ghost remaining: { Self → Option (List ℕ) };

    // How many reads have failed.
    ghost failures: { Self → ℕ };

    /// Reads some bytes into the front of the buffer, and returns their number: 0 only at the end of the input, or if
    /// the buffer is empty. A read that fails takes no byte, and is counted.
    fn read(&mut self, buffer: &mut [u8]) -> io::Result<usize>
        ensures bound { ReadsAtMost result buffer.new }
        ensures bytes { ReadConsumes (remaining self.old) (remaining self.new) result buffer.new }
        ensures counted { failures self.new ≡ failures self.old + failures_in result };
}

/// A writer that counts its failures, as a [`SessionReader`] does.
pub trait SessionWriter {
    ghost use Rattle.std.specs.Prelude.{◌≡◌, ℕ, ◌+◌, ◌<◌, List, length, Option, IfOk};
    ghost use Rattle.std.specs.Io.{WritesAtMost};
    ghost use Rattle.std.specs.Io.KnownBytes.{Keeps, WriteAppends};
    ghost use Rattle.client_sessions.specs.Faults.{failures_in};

    // The bytes that were written so far, if a contract can name them.
    ghost contents: { Self → Option (List ℕ) };

    // How many writes and flushes have failed.
    ghost failures: { Self → ℕ };

    /// Writes some of the first bytes, and returns their number: at least 1 if there are bytes. A write that fails
    /// writes no byte, and is counted.
    fn write(&mut self, bytes: &[u8]) -> io::Result<usize>
        ensures bound { WritesAtMost result bytes.now }
        ensures some { IfOk result (λ count. 0 < length bytes.now → 0 < count) }
        ensures bytes { WriteAppends (contents self.old) (contents self.new) result bytes.now }
        ensures counted { failures self.new ≡ failures self.old + failures_in result };

    /// Forwards the bytes that the writer buffers. A flush that fails is counted.
    fn flush(&mut self) -> io::Result<()>
        ensures bytes { Keeps (contents self.old) (contents self.new) }
        ensures counted { failures self.new ≡ failures self.old + failures_in result };
}
