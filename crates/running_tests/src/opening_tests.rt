//! When running replicas open the next height, and how many signatures that costs.
ghost use Rattle.std.specs.Prelude.{◌≡◌, ◌<◌};

use crate::quiet_clock::QuietClock;
use crate::replicas::{four, plan, replicas};
use app_kinds::AnyKind;
use bytes::Bytes;
use cluster_workers::{NoGate, RunningCluster, Stop, WorkPlan, Worker, run_all};
use ledger_model::{Height, ReplicaId, Version};
use locked_replica::State;
use replica_turns::{OwnEvents, own_of};
use std::alloc::{AllocError, Global};
use std::sync::Wait;
use std::test::Fail;
use std::thread::Threads;

/// The rounds of eight phases: each of four replicas owns two.
const ROUNDS: u32 = 32;

/// A report of height 1 and phase 1 on the batch `[a=1]`, without a signature.
const REPORT: &[u8; 29] = b"\0\0\0\x19\x01\0\0\0\x01\0\0\0\x01\0\0\x01\x03a=1\x01\x01\x03a=1\0\0\0";

/// Runs the workers of four replicas, whose rounds end once no frame is left. Returns whether all ran to their end.
fn has_run<R: Threads + Wait + Sync>(
    rt: &R,
    alloc: Global,
    cluster: &RunningCluster<AnyKind>,
    workers: Vec<Worker<AnyKind>>,
) -> Result<bool, Fail> {
    let clock = QuietClock::new(rt, alloc, 4)?;
    let ran = run_all(rt, cluster, workers, &clock, &NoGate, &Stop::new());
    Ok(ran.is_some() && !clock.has_note())
}

/// The blocks of a replica, and its unused signatures.
fn account<R: Wait>(rt: &R, cluster: &RunningCluster<AnyKind>, id: ReplicaId) -> (u32, u32)
    requires { id < cluster.now.replicas }
{
    let state = cluster.replica(id).lock(rt);
    (state.height(), state.leaves_left())
}

/// The first replica that has another number of blocks or of unused signatures, if there is one.
fn first_other<R: Wait>(
    rt: &R,
    cluster: &RunningCluster<AnyKind>,
    replicas: u8,
    wanted: (u32, u32),
) -> Option<(u8, u32, u32)>
    requires { replicas ≡ cluster.now.replicas }
{
    for id in 0..replicas {
        let (blocks, left) = account(rt, cluster, ReplicaId::new(id));
        if (blocks, left) != wanted {
            return Some((id, blocks, left));
        }
    }
    None
}

// A block costs each of four replicas eight signatures: a report in each of four phases, three acknowledgements and one lock. Each phase
// is of one block alone, so eight phases bring two blocks, and use 16 of the 32 signatures.
#[test]
fn a_block_costs_each_of_four_replicas_eight_signatures(rt: HostRuntime) -> Result<(), Fail> {
    let alloc = rt.alloc();
    let keys = four()?;
    let states = replicas(&rt, alloc, &keys)?;
    let (cluster, workers, _) = RunningCluster::new(alloc, &keys.config, states, plan(ROUNDS), 0)?;
    assert!(rt; has_run(&rt, alloc, &cluster, workers)?);
    assert_eq!(rt;
        first_other(&rt, &cluster, keys.config.replicas, (2, 16)),
        None
    );
    assert_eq!(rt; first_wrong_proposal(&rt, &cluster), None);
    Ok(())
}

// After the one block with the transaction no pool has another, so no height is opened, and nothing is signed.
#[test]
fn idle_replicas_sign_nothing(rt: HostRuntime) -> Result<(), Fail> {
    let alloc = rt.alloc();
    let keys = four()?;
    let states = replicas(&rt, alloc, &keys)?;
    let plan = WorkPlan {
        rounds: ROUNDS,
        creates_empty_blocks: false,
    };
    let (cluster, workers, _) = RunningCluster::new(alloc, &keys.config, states, plan, 0)?;
    assert!(rt; has_run(&rt, alloc, &cluster, workers)?);
    assert_eq!(rt;
        first_other(&rt, &cluster, keys.config.replicas, (1, 24)),
        None
    );
    Ok(())
}

/// The height that the replica would open, given the greatest height that it has proposed, the round in which it ran its last block, and the
/// least height of all replicas.
fn proposal(state: &State<AnyKind>, proposed: u32, ran_in: u32, least: u32) -> Option<u32> {
    let own = own_of(state, proposed, ran_in, Height::new(least));
    own.proposal.map(|height| height.number())
}

/// Of a replica that has two blocks, and whose round 32 is open, the first of these cases in which another height would be opened.
fn first_wrong_proposal<R: Wait>(rt: &R, cluster: &RunningCluster<AnyKind>) -> Option<usize> {
    // The cluster has a replica: their number is read for the proof.
    let _ = cluster.len();
    let state = cluster.replica(ReplicaId::new(0)).lock(rt);
    let cases = [
        // All replicas have its two blocks.
        (0, 32, 2, Some(3)),
        // One replica lacks the second, and no phase has passed.
        (0, 32, 1, None),
        // The same, and fifteen rounds have passed.
        (0, 17, 1, None),
        // The same, and sixteen rounds have passed: four phases.
        (0, 16, 1, Some(3)),
        // It has proposed height 3 already.
        (3, 16, 2, None),
    ];
    cases.iter().position(|(proposed, ran_in, least, wanted)| {
        proposal(&*state, *proposed, *ran_in, *least) != *wanted
    })
}

/// The height that a replica without empty blocks would open of this one, while these bytes wait.
fn kept(
    alloc: Global,
    height: u32,
    is_pool_empty: bool,
    waiting: &[Bytes],
) -> Result<Option<u32>, AllocError> {
    let own = OwnEvents {
        is_decided: false,
        proposal: Some(Height::new(height)),
        floor: None,
        is_pool_empty,
    };
    let kept = own.without_empty_block(Version::One, alloc, waiting)?;
    Ok(kept.proposal.map(|height| height.number()))
}

#[test]
fn an_empty_block_needs_a_frame_about_its_height(rt: HostRuntime) -> Result<(), Fail> {
    let alloc = rt.alloc();
    let none = [];
    let report = [Bytes::from_static(b"x"), Bytes::from_static(REPORT)];
    for (case, height, is_pool_empty, waiting, wanted) in [
        ("a transaction waits", 1, false, none.as_slice(), Some(1)),
        ("nothing came", 1, true, none.as_slice(), None),
        ("a frame about it came", 1, true, report.as_slice(), Some(1)),
        (
            "a frame about another height came",
            2,
            true,
            report.as_slice(),
            None,
        ),
    ] {
        let kept = kept(alloc, height, is_pool_empty, waiting)?;
        assert!(rt; kept == wanted, "{case}: {kept:?}");
    }
    Ok(())
}
