//! What is wrong with bytes that should be a frame, or a stream of frames.
ghost use Rattle.std.specs.Prelude.{◌≡◌};
ghost use Rattle.signed_frames.specs.declared.fault.FrameFault.TheVariants.{NoMemory};

use std::alloc::{AllocError, AllocFailed};
use thiserror::Error;

/// Why a stream of frames can't be read further.
#[derive(Clone, Copy, Debug, PartialEq, Eq, Error)]
pub enum FrameFault {
    /// A frame's length is above the limit of the reader's version: 150,000 or 600,000.
    #[error("the announced frame is too long")]
    TooLong,
    /// A body arrived in full, and encodes nothing.
    #[error("the frame is malformed")]
    Malformed,
    /// The reader returned a fault before.
    #[error("the stream failed before")]
    Failed,
    #[error("out of memory")]
    NoMemory,
}

impl From<AllocError> for FrameFault {
    ghost from_gives = { λ _ fault. fault ≡ NoMemory };

    fn from(_error: AllocError) -> FrameFault {
        FrameFault::NoMemory
    }
}

impl<T: Drop> From<AllocFailed<T>> for FrameFault {
    ghost from_gives = { λ _ fault. fault ≡ NoMemory };

    fn from(_error: AllocFailed<T>) -> FrameFault {
        FrameFault::NoMemory
    }
}
