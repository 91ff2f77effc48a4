//! The settings of `abft deliver`.
ghost use Rattle.std.specs.Prelude.{◌<◌};

use crate::cluster_seed::ClusterSeed;
use ledger_model::{Height, ReplicaId, Tx};

/// The settings of `abft deliver`: which replica, and what it does before the first frame is delivered.
#[derive(Drop)]
pub struct DeliverSettings {
    pub cluster: ClusterSeed,
    pub replica: ReplicaId,
    /// The transaction that it submits.
    pub value: Tx,
    /// The height that it opens.
    pub height: Height,
    /// The number of rounds that it ends.
    pub rounds: u32,
    ghost below: { replica < cluster.config.replicas },
}
