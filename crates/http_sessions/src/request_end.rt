//! How a connection ends.
use std::io;
use thiserror::Error;

/// How a connection ended whose streams never failed.
#[derive(Clone, Copy, Debug, PartialEq, Eq)]
pub enum RequestEnd {
    /// The request was answered.
    Answered,
    /// Memory ran out, and the reply says so.
    OutOfMemory,
    /// The client sent no byte and closed its side, and got none.
    Silent,
}

/// What stopped a connection before the whole reply was written.
#[derive(Debug, Drop, Error)]
pub enum ConnectionFault {
    /// A read failed. Nothing was asked, and nothing written.
    #[error("a read failed: {0}")]
    Read(io::Error),
    /// A write failed. What the request asks was done.
    #[error("a write failed: {0}")]
    Write(io::Error),
}
