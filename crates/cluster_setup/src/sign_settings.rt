//! The settings of `abft sign`.
ghost use Rattle.std.specs.Prelude.{◌<◌, ◌≤◌};

use crate::cluster_seed::ClusterSeed;
use ledger_model::{Height, Phase, ReplicaId, Tx};

/// Which statement to sign.
#[derive(Clone, Copy, Debug, PartialEq, Eq)]
pub enum What {
    Report,
    Ack,
}

/// The settings of `abft sign`: the statement to sign, and the replica that signs it.
#[derive(Drop)]
pub struct SignSettings {
    pub cluster: ClusterSeed,
    pub what: What,
    pub replica: ReplicaId,
    pub height: Height,
    pub phase: Phase,
    /// The one transaction of the statement's batch.
    pub value: Tx,
    ghost of_height: { (1 ≤ height) × (height ≤ 4096) },
    ghost of_phase: { (1 ≤ phase) × (phase ≤ 1000000000) },
    ghost below: { replica < cluster.config.replicas },
}
