//! Streams that may fail, with one type for each direction, because the contract of the program is proved once for each type.
use std::alloc::Global;
use std::io::{self, ErrorKind, Read, Write};

/// A stream that returns its bytes, and then ends or fails.
#[derive(Drop)]
pub(crate) struct Source<'a> {
    text: &'a [u8],
    fails: bool,
}

impl<'a> Source<'a> {
    /// A stream of the text, after which a read fails or finds the end.
    pub(crate) fn new(text: &'a [u8], fails: bool) -> Self {
        Source { text, fails }
    }
}

impl Read for Source<'_> {
    fn read(&mut self, buf: &mut [u8]) -> io::Result<usize> {
        if self.fails && self.text.is_empty() {
            return Err(io::Error::from(ErrorKind::TimedOut));
        }
        let count = self.text.len().min(buf.len());
        buf[..count].copy_from_slice(&self.text[..count]);
        self.text = &self.text[count..];
        Ok(count)
    }
}

/// A stream that has room for a number of bytes, and counts the writes, how many of them end a line, and the flushes.
#[derive(Drop)]
pub(crate) struct Sink {
    room: usize,
    pub(crate) text: Vec<u8>,
    pub(crate) writes: u32,
    pub(crate) ends: u32,
    pub(crate) flushes: u32,
}

impl Sink {
    /// An empty stream with room for `room` bytes.
    pub(crate) fn new(alloc: Global, room: usize) -> Self {
        Sink {
            room,
            text: Vec::new(alloc),
            writes: 0,
            ends: 0,
            flushes: 0,
        }
    }
}

impl Write for Sink {
    fn write(&mut self, buf: &[u8]) -> io::Result<usize> {
        self.writes = self.writes.saturating_add(1);
        if buf.ends_with(b"\n") {
            self.ends = self.ends.saturating_add(1);
        }
        let count = buf.len().min(self.room);
        self.room = self.room.saturating_sub(count);
        self.text.extend_from_slice(&buf[..count])?;
        Ok(count)
    }

    fn flush(&mut self) -> io::Result<()> {
        self.flushes = self.flushes.saturating_add(1);
        Ok(())
    }
}

/// A stream that a subcommand reads, and what the subcommand does with it.
#[derive(Clone, Copy)]
pub(crate) struct Case<'a> {
    /// What is read.
    pub(crate) text: &'a [u8],
    /// Whether the read after the text fails.
    pub(crate) fails: bool,
    /// The number of bytes that the output takes.
    pub(crate) room: usize,
    /// How the stream ended, or the fault.
    pub(crate) outcome: &'a str,
    /// What the output took.
    pub(crate) output: &'a [u8],
    /// The number of writes, each of which ends a line.
    pub(crate) writes: u32,
}

impl Case<'_> {
    /// Whether the subcommand returned this, and wrote that.
    pub(crate) fn is(&self, outcome: &str, output: &Sink) -> bool {
        outcome == self.outcome
            && output.text.as_slice() == self.output
            && (output.writes, output.ends) == (self.writes, self.writes)
    }
}
