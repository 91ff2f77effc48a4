//! A scenario: a cluster, and the commands of its run.
use crate::command::Command;
use ledger_model::{Config, ReplicaId};
use lm_ots::{Params, TreeHeight, Width};

/// A cluster, the parameter set of its keys, and which of its replicas lie.
#[derive(Drop)]
pub struct Setup {
    /// The cluster, with the version of its frames.
    pub config: Config,
    /// The parameter set of every key, if a line sets it.
    pub keys: Option<Params>,
    /// The liars, in the order of their lines.
    pub liars: Vec<ReplicaId>,
}

impl Setup {
    ghost use Rattle.std.specs.Prelude.{◌≡◌, unwrap_or};
    ghost use Rattle.scenario_texts.specs.Plans.{small_keys};

    /// The parameter set of every key; W4 and H5 if no line sets another.
    pub fn params(&self) -> Params
        ensures { result ≡ unwrap_or self.now.keys small_keys }
    {
        self.keys.unwrap_or(Params {
            width: Width::W4,
            height: TreeHeight::H5,
        })
    }
}

/// A scenario.
#[derive(Drop)]
pub struct Scenario {
    /// What comes before the commands.
    pub setup: Setup,
    /// The commands, in order.
    pub commands: Vec<Command>,
}
