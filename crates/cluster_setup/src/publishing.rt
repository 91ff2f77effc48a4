//! Computes what anyone may know of a cluster from its seed.
ghost use Rattle.std.specs.Prelude.{IfOk};
ghost use Rattle.cluster_setup.specs.KnownClusters.{IsPublicOf};

use crate::all::all_keys;
use crate::cluster_seed::ClusterSeed;
use crate::public_cluster::PublicCluster;
use std::alloc::{AllocError, Global};

/// What anyone may know of the cluster with this seed. Computes `N` trees, one after the other.
///
/// The only error is allocation failure.
pub fn public_part(alloc: Global, cluster: &ClusterSeed) -> Result<PublicCluster, AllocError>
    ensures { IfOk result (IsPublicOf cluster.now) }
{
    let keys = all_keys(alloc, cluster)?;
    Ok(PublicCluster {
        config: cluster.config,
        params: cluster.params,
        ring: keys.ring,
    })
}
