//! The replicas of a cluster at its start.
ghost use Rattle.std.specs.Prelude.{◌≡◌, ◌<◌, [], vec_len, IfOk, IfErr, OnOk};
ghost use Rattle.cluster_setup.specs.Keys.{ring_of, secret_of, unused};
ghost use Rattle.byte_streams.specs.Faults.{IsMemoryOrRandom};
ghost use Rattle.cluster_service.specs.Replicas.{all_begun, begun, submitted};

use abci::Application;
use app_states::Opening;
use byte_streams::{ProgramFault, new_random_key};
use bytes::Bytes;
use cluster_setup::{ClusterKeys, ClusterSeed, all_keys_in_parallel};
use key_ring::{KeyRing, Signer};
use ledger_model::{ApplyFault, Event, ReplicaId, Tx};
use locked_replica::State;
use replica_turns::new_replica;
use std::alloc::Global;
use std::hash::RandomState;
use std::random::RandomSource;
use std::thread::Threads;

/// The random keys of a replica's hashes.
fn randoms<R: RandomSource>(source: &R) -> Result<[RandomState; 2], ProgramFault>
    ensures { IfErr result IsMemoryOrRandom }
{
    Ok([new_random_key(source)?, new_random_key(source)?])
}

/// Submits the transaction to a replica to which nothing has happened.
fn submit<A: Application>(
    alloc: Global,
    cluster: &ClusterSeed,
    state: &mut State<A>,
    tx: &Tx,
) -> Result<(), ProgramFault>
    requires fresh { state.old ≡ begun A.meaning cluster.now [] state.old.id }
    ensures begun { OnOk result (state.new ≡ begun A.meaning cluster.now (submitted A.meaning cluster.now tx.now state.old.id) state.old.id) }
    ensures fault { IfErr result IsMemoryOrRandom }
{
    let tx = Bytes::copy_from_slice(alloc, tx.as_bytes())?;
    match state.apply(Event::Submit(tx)) {
        Ok(_) => Ok(()),
        Err(ApplyFault::NoMemory) => Err(ProgramFault::NoMemory),
        // The history is empty.
        Err(ApplyFault::HistoryFull) => unreachable!(),
    }
}

/// A replica with an empty pool.
fn empty_state<A: Opening, R: RandomSource>(
    source: &R,
    alloc: Global,
    cluster: &ClusterSeed,
    id: u8,
    signer: Signer,
    ring: &KeyRing,
) -> Result<State<A>, ProgramFault>
    requires below { id < cluster.now.config.replicas }
    requires signer { signer ≡ unused (secret_of cluster.now id) }
    requires ring { ring.now ≡ ring_of cluster.now }
    ensures begun { IfOk result (λ state. state ≡ begun A.meaning cluster.now [] id) }
    ensures fault { IfErr result IsMemoryOrRandom }
{
    let randoms = randoms(source)?;
    let app = A::opening(alloc, cluster.config.kind);
    let id = ReplicaId::new(id);
    Ok(new_replica(alloc, cluster, id, signer, ring, app, randoms)?)
}

/// A replica whose pool has the transaction.
fn new_state<A: Opening, R: RandomSource>(
    source: &R,
    alloc: Global,
    cluster: &ClusterSeed,
    tx: &Tx,
    id: u8,
    signer: Signer,
    ring: &KeyRing,
) -> Result<State<A>, ProgramFault>
    requires below { id < cluster.now.config.replicas }
    requires signer { signer ≡ unused (secret_of cluster.now id) }
    requires ring { ring.now ≡ ring_of cluster.now }
    ensures begun { IfOk result (λ state. state ≡ begun A.meaning cluster.now (submitted A.meaning cluster.now tx.now id) id) }
    ensures fault { IfErr result IsMemoryOrRandom }
{
    let mut state = empty_state::<A, R>(source, alloc, cluster, id, signer, ring)?;
    submit(alloc, cluster, &mut state, tx)?;
    Ok(state)
}

/// The replicas of a cluster at its start, by number, and its public keys.
pub struct NewReplicas<A: Application> {
    pub states: Vec<State<A>>,
    pub ring: KeyRing,
}

/// The replicas of a cluster, by number. The transaction was submitted to each. Each replica's tree is computed once, in parallel
/// with the others. The random bytes are the keys of hashes. An `Err` is an allocation failure, or that there were no random bytes.
pub fn new_replicas<A: Opening, R: RandomSource + Threads + Sync>(
    source: &R,
    alloc: Global,
    cluster: &ClusterSeed,
    tx: &Tx,
) -> Result<NewReplicas<A>, ProgramFault>
    ensures count { IfOk result (λ all. vec_len all.states ≡ cluster.now.config.replicas) }
    ensures replicas { IfOk result (λ all. all.states.items ≡ all_begun A.meaning cluster.now tx.now) }
    ensures ring { IfOk result (λ all. all.ring ≡ ring_of cluster.now) }
    ensures fault { IfErr result IsMemoryOrRandom }
{
    let ClusterKeys { signers, ring } = all_keys_in_parallel(source, alloc, cluster)?;
    let mut signers = signers.into_iter();
    let mut states = Vec::new(alloc);
    for id in 0..cluster.config.replicas {
        let Some(signer) = signers.next() else {
            unreachable!();
        };
        states.push(new_state(source, alloc, cluster, tx, id, signer, &ring)?)?;
    }
    Ok(NewReplicas { states, ring })
}
