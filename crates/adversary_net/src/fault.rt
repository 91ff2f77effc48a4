//! Why a world can't be made.
ghost use Rattle.std.specs.Prelude.{◌≡◌};
ghost use Rattle.adversary_net.specs.declared.fault.WorldFault.TheVariants.{NoMemory};

use std::alloc::AllocError;
use thiserror::Error;

/// Why a world can't be made.
#[derive(Clone, Copy, Debug, PartialEq, Eq, Error)]
pub enum WorldFault {
    /// More different replicas are to lie than the cluster tolerates.
    #[error("more replicas are to lie than may")]
    TooManyLiars,
    /// A replica that is to lie is not in the cluster.
    #[error("the cluster has no replica of that number")]
    NoSuchReplica,
    /// Memory ran out.
    #[error("out of memory")]
    NoMemory,
}

impl From<AllocError> for WorldFault {
    ghost from_gives = { λ _ fault. fault ≡ NoMemory };

    fn from(_error: AllocError) -> WorldFault {
        WorldFault::NoMemory
    }
}
