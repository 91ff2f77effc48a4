//! Why a signer doesn't sign.
use thiserror::Error;

/// Why nothing was signed.
#[derive(Clone, Copy, Debug, PartialEq, Eq, Error)]
pub enum SignFault {
    /// Every leaf has signed, or was used up when memory ran out.
    #[error("every leaf of the key pair is used")]
    Exhausted,
    /// Memory ran out. The leaf is used up.
    #[error("no memory for the signature")]
    NoMemory,
}
