//! Why something was not built.

use std::alloc::{AllocError, AllocFailed};
use thiserror::Error;

/// Why something was not built.
#[derive(Clone, Copy, Debug, PartialEq, Eq, Error)]
pub enum BuildFault {
    #[error("out of memory")]
    NoMemory,
    /// A transaction of no bytes or of more than 64, or more than 16 transactions.
    #[error("no such value")]
    NoValue,
    /// Numbers of replicas and faults that make no cluster, or a replica that is not in the cluster.
    #[error("no such replica")]
    NoReplica,
    /// The replica's key pair has no leaf left.
    #[error("nothing was signed")]
    NotSigned,
    /// A frame that is too long.
    #[error("no such frame")]
    NoFrame,
}

impl From<AllocError> for BuildFault {
    fn from(_error: AllocError) -> BuildFault {
        BuildFault::NoMemory
    }
}

impl<T: Drop> From<AllocFailed<T>> for BuildFault {
    fn from(_error: AllocFailed<T>) -> BuildFault {
        BuildFault::NoMemory
    }
}
