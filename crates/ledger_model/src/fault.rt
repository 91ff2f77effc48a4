//! Why a replica takes no event.
ghost use Rattle.std.specs.Prelude.{◌≡◌};
ghost use Rattle.ledger_model.specs.declared.fault.ApplyFault.TheVariants.{NoMemory};

use std::alloc::AllocError;
use thiserror::Error;

/// Why a replica added no entry for an event, or gave a client no answer.
#[derive(Clone, Copy, Debug, PartialEq, Eq, Error)]
pub enum ApplyFault {
    /// The history already has 65,536 entries, or the clients of the replica have used up the entries that they share. Nothing changed.
    #[error("the history is full")]
    HistoryFull,
    /// Memory ran out. Nothing changed, except that a round end may have used leaves, and that a query of a client may be in the history.
    #[error("out of memory")]
    NoMemory,
}

impl From<AllocError> for ApplyFault {
    ghost from_gives = { λ _ fault. fault ≡ NoMemory };

    fn from(_error: AllocError) -> ApplyFault {
        ApplyFault::NoMemory
    }
}
