//! A gate that takes the histories of all replicas while they run, in an order that moves on from one set to the next.
ghost use Rattle.std.specs.Prelude.{◌<◌};

use app_kinds::AnyKind;
use cluster_workers::{RunningCluster, TurnGate};
use ledger_model::{History, ReplicaId};
use replica_turns::ReplicaStatus;
use std::alloc::{AllocError, Global};
use std::mem;
use std::sync::{Mutex, Wait};

/// The number of sets that are taken.
pub(crate) const SETS: usize = 8;

/// The number of turns from one set to the next.
const TURNS_APART: usize = 16;

/// The replica at this place, counted around.
fn replica_at(cluster: &RunningCluster<AnyKind>, place: usize) -> ReplicaId
    ensures { result < cluster.now.replicas }
{
    let number = place % cluster.len();
    ReplicaId::new(u8::try_from(number).unwrap_or(0))
}

/// A copy of the history of the replica at this place.
fn history_at<R: Wait>(
    rt: &R,
    cluster: &RunningCluster<AnyKind>,
    place: usize,
) -> Result<History, AllocError> {
    let replica = cluster.replica(replica_at(cluster, place));
    Ok(replica.lock(rt).history()?.history)
}

/// Copies of all histories, taken one after the other from the place `first` on.
pub(crate) fn histories<R: Wait>(
    rt: &R,
    alloc: Global,
    cluster: &RunningCluster<AnyKind>,
    first: usize,
) -> Result<Vec<History>, AllocError> {
    let mut histories = Vec::new(alloc);
    for step in 0..cluster.len() {
        histories.push(history_at(rt, cluster, first.wrapping_add(step))?)?;
    }
    Ok(histories)
}

/// What the gate has taken.
#[derive(Drop)]
struct Taken {
    /// The number of turns so far.
    turns: usize,
    sets: Vec<Vec<History>>,
}

/// After every 16th turn, eight times, it takes the histories of all replicas. The others continue in the meantime.
#[derive(Drop)]
pub(crate) struct HistoryGate<'a, R: Wait> {
    rt: &'a R,
    alloc: Global,
    cluster: &'a RunningCluster<AnyKind>,
    taken: Mutex<Taken>,
}

impl<'a, R: Wait> HistoryGate<'a, R> {
    pub(crate) fn new(rt: &'a R, alloc: Global, cluster: &'a RunningCluster<AnyKind>) -> Self {
        HistoryGate {
            rt,
            alloc,
            cluster,
            taken: Mutex::new(Taken {
                turns: 0,
                sets: Vec::new(alloc),
            }),
        }
    }

    /// Counts a turn, and returns the number of the set that is taken after it, if one is.
    fn next_set(&self) -> Option<usize> {
        let mut taken = self.taken.lock(self.rt);
        taken.turns = taken.turns.saturating_add(1);
        let number = taken.turns / TURNS_APART;
        if taken.turns % TURNS_APART == 0 && number <= SETS {
            Some(number)
        } else {
            None
        }
    }

    /// Keeps a set; none if memory ran out.
    fn keep(&self, set: Vec<History>) {
        let mut taken = self.taken.lock(self.rt);
        let _ = taken.sets.push(set);
    }

    /// The sets that were taken.
    pub(crate) fn sets(&self) -> Vec<Vec<History>> {
        let mut taken = self.taken.lock(self.rt);
        mem::replace(&mut taken.sets, Vec::new(self.alloc))
    }
}

impl<R: Wait> TurnGate for HistoryGate<'_, R> {
    fn before(&self, _replica: ReplicaId) {}

    fn after(&self, _replica: ReplicaId, _status: ReplicaStatus) {
        if let Some(number) = self.next_set() {
            if let Ok(set) = histories(self.rt, self.alloc, self.cluster, number) {
                self.keep(set);
            }
        }
    }

    fn lack(&self, _replica: ReplicaId) {}
}
