//! Streams that take or return one byte at a time, are interrupted, and fail.
use std::alloc::Global;
use std::io::{self, ErrorKind, Read, Write};

/// A reader that returns one byte per call. Every other call is interrupted, and one fails, after `until` bytes.
#[derive(Drop)]
pub(crate) struct FailingReader<'a> {
    left: &'a [u8],
    until: usize,
    is_interrupted: bool,
}

impl<'a> FailingReader<'a> {
    pub(crate) fn new(bytes: &'a [u8], until: usize) -> Self {
        FailingReader {
            left: bytes,
            until,
            is_interrupted: false,
        }
    }
}

impl Read for FailingReader<'_> {
    fn read(&mut self, buf: &mut [u8]) -> io::Result<usize> {
        self.is_interrupted = !self.is_interrupted;
        if self.is_interrupted {
            return Err(io::Error::from(ErrorKind::Interrupted));
        }
        if self.until == 0 {
            self.until = usize::MAX;
            return Err(io::Error::from(ErrorKind::ConnectionReset));
        }
        match self.left {
            [first, rest @ ..] if !buf.is_empty() => {
                buf[0] = *first;
                self.left = rest;
                self.until -= 1;
                Ok(1)
            }
            _ => Ok(0),
        }
    }
}

/// A writer that fails after `until` bytes. It takes one byte per call, and every other call is interrupted; or it
/// takes all bytes at once.
#[derive(Drop)]
pub(crate) struct FailingWriter {
    bytes: Vec<u8>,
    until: usize,
    is_whole: bool,
    is_interrupted: bool,
    writes: u32,
    flushes: u32,
}

impl FailingWriter {
    pub(crate) fn new(alloc: Global, until: usize) -> Self {
        FailingWriter {
            bytes: Vec::new(alloc),
            until,
            is_whole: false,
            is_interrupted: false,
            writes: 0,
            flushes: 0,
        }
    }

    /// A writer that takes all bytes, and doesn't fail.
    pub(crate) fn whole(alloc: Global) -> Self {
        FailingWriter {
            bytes: Vec::new(alloc),
            until: usize::MAX,
            is_whole: true,
            is_interrupted: false,
            writes: 0,
            flushes: 0,
        }
    }

    pub(crate) fn written(&self) -> &[u8] {
        self.bytes.as_slice()
    }

    pub(crate) fn writes(&self) -> u32 {
        self.writes
    }

    /// How many flushes were not interrupted.
    pub(crate) fn flushes(&self) -> u32 {
        self.flushes
    }
}

impl Write for FailingWriter {
    fn write(&mut self, buf: &[u8]) -> io::Result<usize> {
        self.writes = self.writes.saturating_add(1);
        if self.is_whole {
            self.bytes.extend_from_slice(buf)?;
            return Ok(buf.len());
        }
        self.is_interrupted = !self.is_interrupted;
        if self.is_interrupted {
            return Err(io::Error::from(ErrorKind::Interrupted));
        }
        if self.until == 0 {
            return Err(io::Error::from(ErrorKind::BrokenPipe));
        }
        match buf.first() {
            Some(byte) => {
                self.bytes.push(*byte)?;
                self.until -= 1;
                Ok(1)
            }
            None => Ok(0),
        }
    }

    fn flush(&mut self) -> io::Result<()> {
        self.is_interrupted = !self.is_whole && !self.is_interrupted;
        if self.is_interrupted {
            return Err(io::Error::from(ErrorKind::Interrupted));
        }
        self.flushes = self.flushes.saturating_add(1);
        Ok(())
    }
}
