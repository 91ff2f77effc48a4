//! A stream of std whose failures are counted.
ghost use Rattle.std.specs.Prelude.{◌≡◌, ◌+◌};
ghost use Rattle.client_sessions.specs.Faults.{failures_in};

use crate::failure_count::FailureCount;
use crate::{SessionReader, SessionWriter, tries};
use std::io::{self, Read, Write};

/// A reader or a writer of std that counts its failures.
///
/// A call that was interrupted is repeated, and is no failure. The count exists only in contracts: no code can read it.
#[derive(Drop)]
pub struct CountedStream<S> {
    stream: S,
    failures: FailureCount,
}

impl<S> CountedStream<S> {
    ghost use Rattle.client_sessions.specs.Counting.{failures_of, stream_of};

    /// Counts the failures of a stream from now on.
    pub fn new(stream: S) -> Self
        ensures stream { stream_of result ≡ stream }
        ensures failures { failures_of result ≡ 0 }
    {
        CountedStream {
            stream,
            failures: FailureCount::zero(),
        }
    }

    /// Counts one failure if the call returned an error.
    fn count<T>(&mut self, outcome: &io::Result<T>)
        ensures stream { stream_of self.new ≡ stream_of self.old }
        ensures failures { failures_of self.new ≡ failures_of self.old + failures_in outcome.now }
    {
        if outcome.is_err() {
            self.failures = self.failures.plus_one();
        }
    }
}

impl<R: Read> SessionReader for CountedStream<R> {
    ghost use Rattle.client_sessions.specs.Counting.{failures_of, stream_of};

    ghost remaining = { λ s. R.remaining (stream_of s) };

    ghost failures = { failures_of };

    fn read(&mut self, buffer: &mut [u8]) -> io::Result<usize> {
        let outcome = tries::read(&mut self.stream, buffer);
        self.count(&outcome);
        outcome
    }
}

impl<W: Write> SessionWriter for CountedStream<W> {
    ghost use Rattle.client_sessions.specs.Counting.{failures_of, stream_of};

    ghost contents = { λ s. W.contents (stream_of s) };

    ghost failures = { failures_of };

    fn write(&mut self, bytes: &[u8]) -> io::Result<usize> {
        let outcome = tries::write(&mut self.stream, bytes);
        self.count(&outcome);
        outcome
    }

    fn flush(&mut self) -> io::Result<()> {
        let outcome = tries::flush(&mut self.stream);
        self.count(&outcome);
        outcome
    }
}
