//! Four replicas, each with `a=1` in its pool.
ghost use Rattle.std.specs.Prelude.{◌≡◌, ◌<◌, vec_len, IfOk};
ghost use Rattle.cluster_setup.specs.Keys.{ring_of, secret_of, unused};

use app_kinds::AnyKind;
use bytes::Bytes;
use cluster_setup::{ClusterKeys, ClusterSeed, all_keys};
use cluster_workers::WorkPlan;
use key_ring::{KeyRing, Signer};
use ledger_model::{AppKind, Config, Event, ReplicaId};
use lm_ots::{Params, TreeHeight, Width};
use locked_replica::State;
use replica_turns::new_replica;
use std::alloc::Global;
use std::hash::RandomState;
use std::random::RandomSource;
use std::test::Fail;

const PARAMS: Params = Params {
    width: Width::W4,
    height: TreeHeight::H5,
};

/// A cluster of four, of which one may lie.
pub(crate) fn four() -> Result<ClusterSeed, Fail> {
    four_with_frames(1)
}

/// The same with frames of this version.
pub(crate) fn four_with_frames(version: u8) -> Result<ClusterSeed, Fail> {
    Ok(ClusterSeed {
        config: Config::new(4, 1, AppKind::KvStore)?.with_frames(version)?,
        params: PARAMS,
        seed: [0; 32],
    })
}

/// Workers that end this number of rounds, and create empty blocks.
pub(crate) fn plan(rounds: u32) -> WorkPlan {
    WorkPlan {
        rounds,
        creates_empty_blocks: true,
    }
}

fn randoms<R: RandomSource>(rt: &R) -> Result<[RandomState; 2], Fail> {
    Ok([RandomState::new(rt)?, RandomState::new(rt)?])
}

/// One of its replicas, with an empty pool.
fn new_state<R: RandomSource>(
    rt: &R,
    alloc: Global,
    cluster: &ClusterSeed,
    id: u8,
    signer: Signer,
    ring: &KeyRing,
) -> Result<State<AnyKind>, Fail>
    requires below { id < cluster.now.config.replicas }
    requires signer { signer ≡ unused (secret_of cluster.now id) }
    requires ring { ring.now ≡ ring_of cluster.now }
{
    let randoms = randoms(rt)?;
    let app = AnyKind::new(alloc, cluster.config.kind);
    let id = ReplicaId::new(id);
    Ok(new_replica(alloc, cluster, id, signer, ring, app, randoms)?)
}

fn submit(state: &mut State<AnyKind>) -> Result<(), Fail> {
    state.apply(Event::Submit(Bytes::from_static(b"a=1")))?;
    Ok(())
}

/// One of its replicas, with `a=1` in its pool.
fn replica<R: RandomSource>(
    rt: &R,
    alloc: Global,
    cluster: &ClusterSeed,
    id: u8,
    signer: Signer,
    ring: &KeyRing,
) -> Result<State<AnyKind>, Fail>
    requires below { id < cluster.now.config.replicas }
    requires signer { signer ≡ unused (secret_of cluster.now id) }
    requires ring { ring.now ≡ ring_of cluster.now }
{
    let mut state = new_state(rt, alloc, cluster, id, signer, ring)?;
    submit(&mut state)?;
    Ok(state)
}

/// All of them, by number.
pub(crate) fn replicas<R: RandomSource>(
    rt: &R,
    alloc: Global,
    cluster: &ClusterSeed,
) -> Result<Vec<State<AnyKind>>, Fail>
    ensures { IfOk result (λ states. vec_len states ≡ cluster.now.config.replicas) }
{
    let ClusterKeys { signers, ring } = all_keys(alloc, cluster)?;
    let mut signers = signers.into_iter();
    let mut states = Vec::new(alloc);
    for id in 0..cluster.config.replicas {
        let Some(signer) = signers.next() else {
            unreachable!();
        };
        states.push(replica(rt, alloc, cluster, id, signer, &ring)?)?;
    }
    Ok(states)
}
