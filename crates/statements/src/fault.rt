//! Why bytes are no statement.
ghost use Rattle.std.specs.Prelude.{◌≡◌};
ghost use Rattle.statements.specs.declared.fault.DecodeFault.TheVariants.{Malformed, NoMemory};

use ledger_model::{BatchFault, TxFault};
use octets::Short;
use std::alloc::{AllocError, AllocFailed};
use thiserror::Error;

/// Why bytes were not decoded.
#[derive(Clone, Copy, Debug, PartialEq, Eq, Error)]
pub enum DecodeFault {
    #[error("the bytes are not spelled so")]
    Malformed,
    #[error("out of memory")]
    NoMemory,
}

impl From<Short> for DecodeFault {
    ghost from_gives = { λ _ fault. fault ≡ Malformed };

    fn from(_short: Short) -> DecodeFault {
        DecodeFault::Malformed
    }
}

impl From<TxFault> for DecodeFault {
    ghost from_gives = { λ _ fault. fault ≡ Malformed };

    fn from(_fault: TxFault) -> DecodeFault {
        DecodeFault::Malformed
    }
}

impl From<BatchFault> for DecodeFault {
    ghost from_gives = { λ _ fault. fault ≡ Malformed };

    fn from(_fault: BatchFault) -> DecodeFault {
        DecodeFault::Malformed
    }
}

impl From<AllocError> for DecodeFault {
    ghost from_gives = { λ _ fault. fault ≡ NoMemory };

    fn from(_error: AllocError) -> DecodeFault {
        DecodeFault::NoMemory
    }
}

impl<T: Drop> From<AllocFailed<T>> for DecodeFault {
    ghost from_gives = { λ _ fault. fault ≡ NoMemory };

    fn from(_error: AllocFailed<T>) -> DecodeFault {
        DecodeFault::NoMemory
    }
}
