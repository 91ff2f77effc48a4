//! Why a record was not appended: callers distinguish a content that is too long from allocation failure.
ghost use Rattle.std.specs.Prelude.{◌≡◌};
ghost use Rattle.history_log.specs.declared.fault.RecordFault.TheVariants.{NoMemory};

use std::alloc::AllocError;
use thiserror::Error;

/// Why a record was not appended.
#[derive(Clone, Copy, Debug, PartialEq, Eq, Error)]
pub enum RecordFault {
    #[error("a record's content is longer than 2^24 bytes")]
    TooLong,
    #[error("out of memory")]
    NoMemory,
}

impl From<AllocError> for RecordFault {
    ghost from_gives = { λ _ fault. fault ≡ NoMemory };

    fn from(_failed: AllocError) -> RecordFault {
        RecordFault::NoMemory
    }
}
