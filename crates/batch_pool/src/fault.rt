//! Why the pool doesn't take a transaction.
ghost use Rattle.std.specs.Prelude.{◌≡◌};
ghost use Rattle.batch_pool.specs.declared.fault.SubmitFault.TheVariants.{NoMemory};

use ledger_model::SubmitRefusal;
use std::alloc::AllocError;
use thiserror::Error;

/// Why the pool doesn't take a transaction. The pool is unchanged.
#[derive(Clone, Copy, Debug, PartialEq, Eq, Error)]
pub enum SubmitFault {
    /// The pool or the application refuses it.
    #[error("refused: {0:?}")]
    Refused(SubmitRefusal),
    /// Memory ran out.
    #[error("no memory for the transaction")]
    NoMemory,
}

impl From<AllocError> for SubmitFault {
    ghost from_gives = { λ _ fault. fault ≡ NoMemory };

    fn from(_error: AllocError) -> SubmitFault {
        SubmitFault::NoMemory
    }
}
