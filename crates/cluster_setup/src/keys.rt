//! The keys that one replica has: its own key pair, and the public keys of all.
ghost use Rattle.std.specs.Prelude.{◌≡◌, ◌<◌, ℕ, Some, IfOk, length, slice_get};
ghost use Rattle.key_ring.specs.Signers.{public_key_of};
ghost use Rattle.cluster_setup.specs.Keys.{ring_of, secret_of, unused};

use crate::cluster_seed::ClusterSeed;
use crate::derivation::key_pair;
use key_ring::{KeyRing, Signer};
use ledger_model::ReplicaId;
use lms_tree::PublicKey;
use std::alloc::{AllocError, Global};

/// The public key of `other`, computed by the replica `own`, whose key pair is `signer`. The tree of `own` is not computed again.
fn public_key(
    alloc: Global,
    cluster: &ClusterSeed,
    own: ReplicaId,
    signer: &Signer,
    other: ReplicaId,
) -> Result<PublicKey, AllocError>
    requires own { signer.now.secret ≡ secret_of cluster.now own }
    ensures { IfOk result (λ key. key ≡ public_key_of (secret_of cluster.now other)) }
{
    if other == own {
        return Ok(signer.public());
    }
    let pair = key_pair(alloc, cluster, other)?;
    Ok(pair.public())
}

/// The public keys of all replicas by number, computed by the replica `own`, whose key pair is `signer`.
fn ring(
    alloc: Global,
    cluster: &ClusterSeed,
    own: ReplicaId,
    signer: &Signer,
) -> Result<KeyRing, AllocError>
    requires own { signer.now.secret ≡ secret_of cluster.now own }
    ensures keys { IfOk result (λ ring. (r : ℕ) → r < cluster.now.config.replicas
        → slice_get ring r ≡ Some (public_key_of (secret_of cluster.now r))) }
    ensures len { IfOk result (λ ring. length ring ≡ cluster.now.config.replicas) }
    ensures whole { IfOk result (λ ring. ring ≡ ring_of cluster.now) }
{
    let mut keys = Vec::new(alloc);
    for replica in 0..cluster.config.replicas {
        keys.push(public_key(alloc, cluster, own, signer, ReplicaId::new(replica))?)?;
    }
    Ok(KeyRing::new(keys))
}

/// The key pair of a replica, with no leaf used, and the public keys of all replicas by number. Each replica's tree is
/// computed once.
pub fn signer_and_ring(
    alloc: Global,
    cluster: &ClusterSeed,
    own: ReplicaId,
) -> Result<(Signer, KeyRing), AllocError>
    ensures signer { IfOk result (λ keys. keys.0 ≡ unused (secret_of cluster.now own)) }
    ensures ring { IfOk result (λ keys. (r : ℕ) → r < cluster.now.config.replicas
        → slice_get keys.1 r ≡ Some (public_key_of (secret_of cluster.now r))) }
    ensures len { IfOk result (λ keys. length keys.1 ≡ cluster.now.config.replicas) }
    ensures whole { IfOk result (λ keys. keys.1 ≡ ring_of cluster.now) }
{
    let signer = key_pair(alloc, cluster, own)?;
    let ring = ring(alloc, cluster, own, &signer)?;
    Ok((signer, ring))
}
