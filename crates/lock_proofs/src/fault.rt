//! Why a lock isn't valid.
use thiserror::Error;

/// Why a lock isn't valid: the first fault that applies, in this order.
#[derive(Clone, Copy, Debug, PartialEq, Eq, Error)]
pub enum LockFault {
    /// The lock's signer isn't the owner of its phase.
    #[error("the lock is not of its phase's owner")]
    NotOwner,
    /// The lock's signature doesn't verify under its signer's key.
    #[error("the lock's signature does not verify")]
    BadSignature,
    /// The lock's proof doesn't have as many reports as a lock needs, of different replicas and of the lock's height
    /// and phase, or the signature of a report doesn't verify.
    #[error("the lock's proof is not one")]
    BadProof,
    /// A report of the lock's proof doesn't find the lock's value.
    #[error("a report does not support the lock")]
    NotSupporting,
}

/// The replica holds locks on four other values. The table is unchanged.
#[derive(Clone, Copy, Debug, PartialEq, Eq, Error)]
#[error("four locks on other values are held")]
pub struct TableFull;
