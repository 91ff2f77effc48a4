//! The keys of all replicas of a cluster: a key pair for each, and the ring of their public keys.
ghost use Rattle.std.specs.Prelude.{◌≡◌, map, IfOk, Ok};
ghost use Rattle.key_ring.specs.Signers.{public_key_of};
ghost use Rattle.cluster_setup.specs.Keys.{ring_of, fresh_signers};

use crate::cluster_seed::ClusterSeed;
use crate::derivation::key_pair;
use key_ring::{KeyRing, Signer};
use ledger_model::ReplicaId;
use std::alloc::{AllocError, Global};
use std::thread;
use std::thread::Threads;

/// The key pairs of all replicas of a cluster, and the public keys of all.
#[derive(Drop)]
pub struct ClusterKeys {
    /// The key pairs, from replica 0 on. No leaf is used.
    pub signers: Vec<Signer>,
    pub ring: KeyRing,
}

/// The public keys of the signers, in the same order.
fn ring_of_signers(alloc: Global, signers: &[Signer]) -> Result<KeyRing, AllocError>
    ensures { IfOk result (λ ring. ring ≡ map (λ keys. public_key_of keys.secret) signers.now) }
{
    let mut keys = Vec::with_capacity(alloc, signers.len())?;
    for signer in signers {
        keys.push(signer.public())?;
    }
    Ok(KeyRing::new(keys))
}

/// The keys of a cluster with these key pairs.
fn with_ring(
    alloc: Global,
    cluster: &ClusterSeed,
    signers: Vec<Signer>,
) -> Result<ClusterKeys, AllocError>
    requires { signers.items ≡ fresh_signers cluster.now }
    ensures signers { IfOk result (λ keys. keys.signers.items ≡ fresh_signers cluster.now) }
    ensures ring { IfOk result (λ keys. keys.ring ≡ ring_of cluster.now) }
{
    let ring = ring_of_signers(alloc, &signers)?;
    Ok(ClusterKeys { signers, ring })
}

/// The key pairs of all replicas, computed one after the other.
fn signers(alloc: Global, cluster: &ClusterSeed) -> Result<Vec<Signer>, AllocError>
    ensures { IfOk result (λ signers. signers.items ≡ fresh_signers cluster.now) }
{
    let mut signers = Vec::with_capacity(alloc, usize::from(cluster.config.replicas))?;
    for replica in 0..cluster.config.replicas {
        signers.push(key_pair(alloc, cluster, ReplicaId::new(replica))?)?;
    }
    Ok(signers)
}

/// The signers, if there was enough memory for each.
fn collect_signers(
    alloc: Global,
    made: Vec<Result<Signer, AllocError>>,
) -> Result<Vec<Signer>, AllocError>
    ensures { IfOk result (λ signers. made.items ≡ map Ok signers.items) }
{
    let mut signers = Vec::with_capacity(alloc, made.len())?;
    for signer in made {
        signers.push(signer?)?;
    }
    Ok(signers)
}

/// The key pairs of all replicas, each computed in a thread of its own.
fn signers_in_parallel<R: Threads + Sync>(
    rt: &R,
    alloc: Global,
    cluster: &ClusterSeed,
) -> Result<Vec<Signer>, AllocError>
    ensures { IfOk result (λ signers. signers.items ≡ fresh_signers cluster.now) }
{
    let made = thread::map_indices(
        rt,
        alloc,
        usize::from(cluster.config.replicas),
        &|replica| key_pair(alloc, cluster, ReplicaId::new(replica as u8)),
    )?;
    collect_signers(alloc, made)
}

/// The keys of all replicas. Computes `N` trees, one after the other.
///
/// The only error is allocation failure.
pub fn all_keys(alloc: Global, cluster: &ClusterSeed) -> Result<ClusterKeys, AllocError>
    ensures signers { IfOk result (λ keys. keys.signers.items ≡ fresh_signers cluster.now) }
    ensures ring { IfOk result (λ keys. keys.ring ≡ ring_of cluster.now) }
{
    with_ring(alloc, cluster, signers(alloc, cluster)?)
}

/// The same keys as those of [`all_keys`]. Computes `N` trees in parallel, each in a thread of its own; if the system
/// makes no thread, one tree after the other. Returns when each thread has ended.
///
/// The only error is allocation failure.
pub fn all_keys_in_parallel<R: Threads + Sync>(
    rt: &R,
    alloc: Global,
    cluster: &ClusterSeed,
) -> Result<ClusterKeys, AllocError>
    ensures signers { IfOk result (λ keys. keys.signers.items ≡ fresh_signers cluster.now) }
    ensures ring { IfOk result (λ keys. keys.ring ≡ ring_of cluster.now) }
{
    with_ring(alloc, cluster, signers_in_parallel(rt, alloc, cluster)?)
}
