//! How a session ends.
ghost use Rattle.std.specs.Prelude.{◌≡◌};
ghost use Rattle.client_sessions.specs.declared.session_end.SessionFault.TheVariants.{NoMemory};

use std::alloc::AllocError;
use std::io;
use thiserror::Error;

/// Where the input of a session ended.
#[derive(Clone, Copy, Debug, PartialEq, Eq)]
pub enum SessionEnd {
    /// After a whole request, or before the first.
    Clean,
    /// Within a request, which was not served.
    Cut,
}

/// What stopped a session before its input ended.
#[derive(Debug, Drop, Error)]
pub enum SessionFault {
    /// A read failed.
    #[error("a read failed: {0}")]
    Read(io::Error),
    /// A write failed. The request that the reply belongs to was served.
    #[error("a write failed: {0}")]
    Write(io::Error),
    /// There was no memory for a request and a reply. Nothing was read or written.
    #[error("out of memory")]
    NoMemory,
    /// A session has at most 2^64 - 1 requests.
    #[error("too many requests")]
    TooMany,
}

impl From<AllocError> for SessionFault {
    ghost from_gives = { λ _ fault. fault ≡ NoMemory };

    fn from(_error: AllocError) -> SessionFault {
        SessionFault::NoMemory
    }
}
