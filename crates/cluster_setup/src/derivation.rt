//! Derives the key pair of a replica from a cluster's seed.
ghost use Rattle.std.specs.Prelude.{◌≡◌, [], ◌∷◌, ◌++◌, IfOk};
ghost use Rattle.sha2.specs.Sha256.{sha256};
ghost use Rattle.cluster_setup.specs.Keys.{secret_of, unused};

use crate::cluster_seed::ClusterSeed;
use key_ring::Signer;
use ledger_model::ReplicaId;
use lm_ots::{Identifier, Seed};
use sha2::{Digest, Sha256};
use std::alloc::{AllocError, Global};

/// The value derived for a replica and a purpose: SHA-256 of the seed, the replica's number and the purpose's number.
fn derived(cluster: &ClusterSeed, replica: u8, purpose: u8) -> [u8; 32]
    ensures { result ≡ sha256 (cluster.now.seed ++ replica ∷ purpose ∷ []) }
{
    let mut hasher = Sha256::new();
    hasher.update(cluster.seed.as_slice());
    hasher.update([replica, purpose].as_slice());
    hasher.finalize()
}

/// The key pair of a replica. Its identifier is the first half of the value derived for purpose 0; its secret seed is
/// the value for purpose 1. No leaf is used. Computes its whole tree.
pub fn key_pair(
    alloc: Global,
    cluster: &ClusterSeed,
    replica: ReplicaId,
) -> Result<Signer, AllocError>
    ensures { IfOk result (λ signer. signer ≡ unused (secret_of cluster.now replica)) }
{
    let mut identifier = [0; 16];
    identifier.copy_from_slice(&derived(cluster, replica.number(), 0)[..16]);
    let seed = Seed::new(derived(cluster, replica.number(), 1));
    Signer::new(alloc, cluster.params, Identifier::new(identifier), seed)
}
