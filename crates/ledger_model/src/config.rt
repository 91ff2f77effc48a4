//! The configuration of a cluster: N replicas, of which t may lie, with N >= 3t+1.
ghost use Rattle.std.specs.Prelude.{◌≡◌, ◌*◌, ◌+◌, ◌<◌, ◌≤◌, ◌↔◌, IfOk, IfErr, IsErrOf, Some, None};
ghost use Rattle.ledger_model.specs.declared.config.ConfigFault.TheVariants.{TooFew, TooMany, NoFault};
ghost use Rattle.ledger_model.specs.declared.version.Version.TheVariants.{One, Two};
ghost use Rattle.ledger_model.specs.Versions.{numbered};

use crate::Version;
use thiserror::Error;

/// Which application every replica runs.
#[derive(Clone, Copy, Debug, PartialEq, Eq)]
pub enum AppKind {
    /// The one application of a program that has an application of its own.
    Own,
    KvStore,
    Counter,
    Purse,
}

impl AppKind {
    ghost use Rattle.std.specs.Prelude.{◌≡◌};
    ghost use Rattle.ledger_model.specs.Numbers.{kind_of_number};

    /// The kind with this number: 0 is an application of one's own, 1 to 3 are the three.
    #[tactic(auto, unfolding(crate::specs::Numbers::kind_of_number))]
    pub fn from_number(number: u32) -> Option<AppKind>
        ensures { result ≡ kind_of_number number }
    {
        match number {
            0 => Some(AppKind::Own),
            1 => Some(AppKind::KvStore),
            2 => Some(AppKind::Counter),
            3 => Some(AppKind::Purse),
            _ => None,
        }
    }
}

/// Which kinds of applications a program has.
#[derive(Clone, Copy, Debug, PartialEq, Eq)]
pub enum AppKinds {
    /// The three, of which its user chooses one.
    Three,
    /// An application of its own.
    OwnAlone,
}

impl AppKinds {
    ghost use Rattle.std.specs.Prelude.{◌≡◌};
    ghost use Rattle.ledger_model.specs.Numbers.{has_kind};

    /// Whether this kind is one of them.
    #[tactic(auto, unfolding(crate::specs::Numbers::has_kind))]
    pub fn has(self, kind: AppKind) -> bool
        ensures { result ≡ has_kind self kind }
    {
        match (self, kind) {
            (AppKinds::Three, AppKind::Own) => false,
            (AppKinds::Three, _) => true,
            (AppKinds::OwnAlone, AppKind::Own) => true,
            (AppKinds::OwnAlone, _) => false,
        }
    }
}

/// The size of a cluster, how many of its replicas may lie, the application that they run, and the version of their frames.
#[derive(Clone, Copy)]
pub struct Config {
    pub replicas: u8,
    pub faults: u8,
    pub kind: AppKind,
    pub frames: Version,
    ghost enough: { 3 * faults + 1 ≤ replicas },
    ghost bounded: { replicas ≤ 13 },
    ghost tolerant: { 1 ≤ faults },
}

/// Why no cluster can have such a size.
#[derive(Clone, Copy, Debug, PartialEq, Eq, Error)]
pub enum ConfigFault {
    /// Fewer than `3 * faults + 1` replicas.
    #[error("a cluster needs more than three times as many replicas as may lie")]
    TooFew,
    /// More than 13 replicas.
    #[error("a cluster has at most 13 replicas")]
    TooMany,
    /// The size lets no replica lie.
    #[error("at least one replica may lie")]
    NoFault,
    /// Neither version 1 nor version 2.
    #[error("frames have version 1 or 2")]
    Version,
}

impl Config {
    /// The most replicas that a cluster has.
    pub const MAX_REPLICAS: u8 = 13;

    /// A cluster of `replicas`, of which `faults` may lie: `3 * faults + 1 <= replicas <= 13` and `1 <= faults` (Dwork, Lynch
    /// and Stockmeyer 1988, Algorithm 2). Its frames have version 1. If several refusals fit, the first in the order of `ConfigFault` is returned.
    pub fn new(replicas: u8, faults: u8, kind: AppKind) -> Result<Self, ConfigFault>
        ensures made { IfOk result (λ c. (c.replicas ≡ replicas) × (c.faults ≡ faults) × (c.kind ≡ kind) × (c.frames ≡ One)) }
        ensures too_few { IsErrOf result TooFew ↔ (replicas < 3 * faults + 1) }
        ensures too_many { IsErrOf result TooMany ↔ ((3 * faults + 1 ≤ replicas) × (13 < replicas)) }
        ensures no_fault { IsErrOf result NoFault ↔ ((1 ≤ replicas) × (replicas ≤ 13) × (faults ≡ 0)) }
        ensures sized { IsErrOf result ConfigFault.Version → ⊥ }
    {
        if u16::from(replicas) < 3 * u16::from(faults) + 1 {
            return Err(ConfigFault::TooFew);
        }
        if replicas > Self::MAX_REPLICAS {
            return Err(ConfigFault::TooMany);
        }
        if faults == 0 {
            return Err(ConfigFault::NoFault);
        }
        Ok(Config {
            replicas,
            faults,
            kind,
            frames: Version::One,
        })
    }

    /// The same cluster with frames of this version, 1 or 2. `Version` comes exactly if it is neither.
    pub fn with_frames(self, version: u8) -> Result<Self, ConfigFault>
        ensures made { IfOk result (λ c. (numbered version ≡ Some c.frames) × (c ≡ record self { frames = c.frames })) }
        ensures version { IsErrOf result ConfigFault.Version ↔ (numbered version ≡ None) }
        ensures only { IfErr result (λ fault. fault ≡ ConfigFault.Version) }
    {
        let Some(frames) = Version::from_number(version) else {
            return Err(ConfigFault::Version);
        };
        Ok(Config {
            replicas: self.replicas,
            faults: self.faults,
            kind: self.kind,
            frames,
        })
    }
}
