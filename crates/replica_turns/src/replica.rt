//! Makes the replicas of a running cluster, with the keys of the cluster and an empty history.
ghost use Rattle.std.specs.Prelude.{◌≡◌, ◌<◌, [], IfOk};
ghost use Rattle.ledger_model.specs.Applications.{run};
ghost use Rattle.cluster_setup.specs.Keys.{ring_of, secret_of, unused};
ghost use Rattle.locked_replica.specs.States.{new_state};

use abci::Application;
use cluster_setup::ClusterSeed;
use key_ring::{KeyRing, Signer};
use ledger_model::ReplicaId;
use locked_replica::State;
use std::alloc::{AllocError, Global};
use std::hash::RandomState;

/// A replica of the cluster with an empty history, from its key pair and the public keys of all replicas, which
/// [`ClusterKeys`](cluster_setup::ClusterKeys) has. The application must be in its opening state, of the cluster's kind.
///
/// Copies the ring. The only error is allocation failure.
pub fn new_replica<A: Application>(
    alloc: Global,
    cluster: &ClusterSeed,
    id: ReplicaId,
    signer: Signer,
    ring: &KeyRing,
    app: A,
    randoms: [RandomState; 2],
) -> Result<State<A>, AllocError>
    requires below { id < cluster.now.config.replicas }
    requires signer { signer ≡ unused (secret_of cluster.now id) }
    requires ring { ring.now ≡ ring_of cluster.now }
    requires opening { A.machine app ≡ run A.meaning cluster.now.config.kind [] }
    ensures { IfOk result (λ state. state ≡ new_state A.meaning cluster.now.config id (ring_of cluster.now)
        (unused (secret_of cluster.now id))) }
{
    State::new(
        alloc,
        cluster.config,
        id,
        signer,
        ring.copy()?,
        app,
        randoms,
    )
}
