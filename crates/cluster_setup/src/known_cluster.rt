//! A cluster as a reader of its histories knows it.
ghost use Rattle.std.specs.Prelude.{◌≡◌};
ghost use Rattle.cluster_setup.specs.KnownClusters.{known_config};

use crate::cluster_seed::ClusterSeed;
use crate::public_cluster::PublicCluster;
use ledger_model::Config;

/// A cluster as a reader of its histories knows it.
#[derive(Drop)]
pub enum KnownCluster {
    /// By the seed of its keys, from which the public keys are computed.
    BySeed(ClusterSeed),
    /// By its public keys.
    ByKeys(PublicCluster),
}

impl KnownCluster {
    /// The cluster's configuration.
    pub fn config(&self) -> &Config
        ensures { result.now ≡ known_config self.now }
    {
        match self {
            KnownCluster::BySeed(cluster) => &cluster.config,
            KnownCluster::ByKeys(cluster) => &cluster.config,
        }
    }
}
