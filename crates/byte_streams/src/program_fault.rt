//! Why the program stops.
ghost use Rattle.std.specs.Prelude.{◌≡◌};
ghost use Rattle.byte_streams.specs.declared.program_fault.ProgramFault.TheVariants.{NoMemory};

use crate::resource::Resource;
use plain_text::ShownText;
use std::alloc::{AllocError, AllocFailed};
use std::io;
use thiserror::Error;

/// The exit status of a program that a fault stopped.
pub const STOPPED: u8 = 3;

/// Why the program stops.
#[derive(Debug, Drop, Error)]
pub enum ProgramFault {
    /// Memory ran out.
    #[error("error: out of memory")]
    NoMemory,
    /// The system refused a standard stream, or another resource.
    #[error("error: {0}: {1}")]
    Refused(Resource, io::Error),
    /// The history of a replica is full.
    #[error("error: the history is full")]
    HistoryFull,
    /// A port of 127.0.0.1 can't be listened at.
    #[error("error: can't listen at 127.0.0.1:{0}: {1}")]
    NoListener(u16, io::Error),
    /// A thread could not be made.
    #[error("error: a thread could not be made")]
    NoThread,
    /// The file with this path can't be made or written.
    #[error("error: can't write the file {path}: {1}", path = ShownText(.0.as_str()))]
    NoFile(String, io::Error),
    /// In the place of the replica with this number there is another replica, or one of another cluster.
    #[error("error: replica {0} is not of this cluster")]
    Stranger(u8),
}

impl From<AllocError> for ProgramFault {
    ghost from_gives = { λ _ fault. fault ≡ NoMemory };

    fn from(_error: AllocError) -> ProgramFault {
        ProgramFault::NoMemory
    }
}

impl<T: Drop> From<AllocFailed<T>> for ProgramFault {
    ghost from_gives = { λ _ fault. fault ≡ NoMemory };

    fn from(_error: AllocFailed<T>) -> ProgramFault {
        ProgramFault::NoMemory
    }
}
