//! Why a text describes no cluster.
ghost use Rattle.std.specs.Prelude.{◌≡◌};
ghost use Rattle.cluster_files.specs.declared.fault.ClusterFileFault.TheVariants.{NoMemory};

use ledger_model::ReplicaId;
use plain_text::ShownText;
use std::alloc::{AllocError, AllocFailed};
use thiserror::Error;

/// Why a text describes no cluster. What is called a name here is a key of TOML, since a key is a public key.
#[derive(Debug, Drop, Error)]
pub enum ClusterFileFault {
    /// The text is no TOML. The number of the line, from 1 on, at which that shows.
    #[error("line {0} is no TOML")]
    NotToml(usize),
    /// A name that no cluster's file has.
    #[error("'{name}' is no name of a cluster's file", name = ShownText(.0.as_str()))]
    UnknownName(String),
    /// A name that is missing.
    #[error("{0} is missing")]
    Missing(&'static str),
    /// The value of this name is no number within its limits.
    #[error("{name} is a number from {least} to {most}")]
    Number {
        name: &'static str,
        least: u8,
        most: u8,
    },
    /// The value of this name is neither of its two numbers.
    #[error("{name} is {one} or {other}")]
    Neither {
        name: &'static str,
        one: u8,
        other: u8,
    },
    /// The value of `kind` is no word for an application.
    #[error("kind is \"kvstore\", \"counter\", \"purse\" or \"own\"")]
    Kind,
    /// Fewer than `3 * faults + 1` replicas.
    #[error("{replicas} replicas are too few for {faults} faults: there are at least 3 * faults + 1")]
    TooFew {
        replicas: u8,
        faults: u8,
    },
    /// The value of `keys` is no array.
    #[error("keys is an array of public keys")]
    NoArray,
    /// The number of keys, which isn't the number of replicas.
    #[error("keys has {keys} keys for {replicas} replicas")]
    KeyCount {
        keys: usize,
        replicas: u8,
    },
    /// What stands for the key of this replica isn't a string of 112 hexadecimal digits.
    #[error("the key of replica {replica} is not 112 hexadecimal digits", replica = .0.number())]
    NoKey(ReplicaId),
    /// The key of this replica is of another parameter set than that of `bits` and `levels`.
    #[error("the key of replica {replica} has other sizes than bits and levels say", replica = .0.number())]
    OtherSizes(ReplicaId),
    /// Memory ran out.
    #[error("out of memory")]
    NoMemory,
}

impl From<AllocError> for ClusterFileFault {
    ghost from_gives = { λ _ e. e ≡ NoMemory };

    fn from(_error: AllocError) -> Self {
        ClusterFileFault::NoMemory
    }
}

impl<T: Drop> From<AllocFailed<T>> for ClusterFileFault {
    ghost from_gives = { λ _ e. e ≡ NoMemory };

    fn from(_error: AllocFailed<T>) -> Self {
        ClusterFileFault::NoMemory
    }
}
