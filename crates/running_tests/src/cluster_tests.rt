//! Four replicas that run concurrently, commit, and give up what all of them committed.
ghost use Rattle.std.specs.Prelude.{◌≡◌, ◌<◌, ℕ, Some, vec_len, slice_get, IfOk};
ghost use Rattle.commit_board.specs.Seats.{new_reader};

use crate::following::is_followed;
use crate::meeting_gate::MeetingGate;
use crate::quiet_clock::QuietClock;
use crate::replicas::{four, plan, replicas};
use app_kinds::AnyKind;
use cluster_workers::{RunningCluster, Stop, run_all};
use commit_board::ReaderSeat;
use ledger_model::{Height, ReplicaId};
use locked_replica::{LockedReplica, State};
use std::alloc::Global;
use std::random::RandomSource;
use std::sync::Wait;
use std::test::Fail;

/// Rounds enough for each replica to give up a height.
const ROUNDS: u32 = 32;

/// Whether the first block is `[a=1]`.
fn has_first_block(state: &State<AnyKind>) -> bool {
    match state.block(Height::new(1)) {
        Some(batch) => match batch.transactions() {
            [tx] => tx.as_bytes() == b"a=1".as_slice(),
            _ => false,
        },
        None => false,
    }
}

/// Whether the replica committed that block, up to the height that it published, and gave up the heights below `floor`.
fn has_committed<R: Wait>(
    rt: &R,
    replica: &LockedReplica<AnyKind>,
    published: u32,
    floor: u32,
) -> bool {
    let state = replica.lock(rt);
    published >= 1
        && state.height() == published
        && has_first_block(&*state)
        && state.floor().number() >= floor
}

/// Whether this replica did so, up to the height that this reader reads.
fn is_done<R: Wait>(
    rt: &R,
    cluster: &RunningCluster<AnyKind>,
    reader: &mut ReaderSeat,
    id: ReplicaId,
    floor: u32,
) -> bool
    requires board { reader.old.board ≡ cluster.now.board }
    requires below { id < cluster.now.replicas }
    ensures { reader.new.board ≡ reader.old.board }
{
    let published = cluster.board().read(reader, id);
    has_committed(rt, cluster.replica(id), published, floor)
}

/// The first of the replicas that did not do so, if there is one.
pub(crate) fn first_behind<R: Wait>(
    rt: &R,
    cluster: &RunningCluster<AnyKind>,
    mut reader: ReaderSeat,
    replicas: u8,
    floor: u32,
) -> Option<u8>
    requires board { reader.board ≡ cluster.now.board }
    requires count { replicas ≡ cluster.now.replicas }
{
    for id in 0..replicas {
        if !is_done(rt, cluster, &mut reader, ReplicaId::new(id), floor) {
            return Some(id);
        }
    }
    None
}

/// The reader's seat of a cluster that has exactly one.
pub(crate) fn reader_of(
    cluster: &RunningCluster<AnyKind>,
    mut reading: Vec<ReaderSeat>,
) -> Result<ReaderSeat, Fail>
    requires count { vec_len reading ≡ 1 }
    requires readers { (k : ℕ) → k < 1 → slice_get reading.items k ≡ Some (new_reader cluster.now.board) }
    ensures { IfOk result (λ reader. reader.board ≡ cluster.now.board) }
{
    match reading.pop() {
        Some(reader) => Ok(reader),
        None => Err(Fail::from("the cluster has a reader")),
    }
}

/// Whether a follower takes the history of replica 0.
fn is_first_followed<R: RandomSource + Wait>(
    rt: &R,
    alloc: Global,
    cluster: &RunningCluster<AnyKind>,
) -> Result<bool, Fail> {
    // The cluster has a replica: their number is read for the proof.
    let _ = cluster.len();
    is_followed(rt, alloc, cluster.replica(ReplicaId::new(0)))
}

#[test]
fn four_replicas_commit_and_two_workers_meet(rt: HostRuntime) -> Result<(), Fail> {
    let alloc = rt.alloc();
    let keys = four()?;
    let states = replicas(&rt, alloc, &keys)?;
    let (cluster, workers, reading) = RunningCluster::new(
        alloc,
        &keys.config,
        states,
        plan(ROUNDS),
        1,
    )?;
    let reader = reader_of(&cluster, reading)?;
    let clock = QuietClock::new(&rt, alloc, 4)?;
    let gate = MeetingGate::new();
    assert!(rt; run_all(&rt, &cluster, workers, &clock, &gate, &Stop::new()).is_some());
    assert!(rt; !clock.has_note() && !gate.has_note() && gate.have_met());
    assert_eq!(rt;
        first_behind(&rt, &cluster, reader, keys.config.replicas, 2),
        None
    );
    assert!(rt; is_first_followed(&rt, alloc, &cluster)?);
    Ok(())
}
