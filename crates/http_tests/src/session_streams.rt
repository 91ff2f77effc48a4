//! A reader that gives one byte a read, and a writer that takes one byte a write. Either may fail.
use std::alloc::Global;
use std::io::{self, ErrorKind, Read, Write};

/// A reader that gives these bytes, one a read, and then ends or fails.
#[derive(Drop)]
pub(crate) struct SlowReader<'a> {
    left: &'a [u8],
    fails: bool,
}

impl<'a> SlowReader<'a> {
    pub(crate) fn new(bytes: &'a [u8], fails: bool) -> Self {
        SlowReader { left: bytes, fails }
    }

    /// How many bytes it still has.
    pub(crate) fn left(&self) -> usize {
        self.left.len()
    }
}

impl Read for SlowReader<'_> {
    fn read(&mut self, buf: &mut [u8]) -> io::Result<usize> {
        match self.left {
            [first, rest @ ..] if !buf.is_empty() => {
                buf[0] = *first;
                self.left = rest;
                Ok(1)
            }
            [] if self.fails => Err(io::Error::from(ErrorKind::ConnectionReset)),
            _ => Ok(0),
        }
    }
}

/// A writer that takes one byte a write, and fails after `room` bytes.
#[derive(Drop)]
pub(crate) struct SlowWriter {
    pub(crate) bytes: Vec<u8>,
    pub(crate) flushes: u32,
    room: usize,
}

impl SlowWriter {
    pub(crate) fn new(alloc: Global, room: usize) -> Self {
        SlowWriter {
            bytes: Vec::new(alloc),
            flushes: 0,
            room,
        }
    }
}

impl Write for SlowWriter {
    fn write(&mut self, buf: &[u8]) -> io::Result<usize> {
        match buf.first() {
            Some(_) if self.room == 0 => Err(io::Error::from(ErrorKind::BrokenPipe)),
            Some(byte) => {
                self.bytes.push(*byte)?;
                self.room -= 1;
                Ok(1)
            }
            None => Ok(0),
        }
    }

    fn flush(&mut self) -> io::Result<()> {
        self.flushes = self.flushes.saturating_add(1);
        Ok(())
    }
}
