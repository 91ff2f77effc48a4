//! What a cluster leaves when its workers have ended: the history of each replica.
ghost use Rattle.std.specs.Prelude.{◌≡◌, ◌<◌, vec_len, IfErr, IfOk};
ghost use Rattle.cluster_service.specs.Reporting.{AreTaken, IsTaken};
ghost use Rattle.cluster_service.specs.RunFaults.{IsRunFault};

use abci::Application;
use byte_streams::ProgramFault;
use cluster_workers::RunningCluster;
use key_ring::KeyRing;
use ledger_model::{History, ReplicaId};
use locked_replica::State;
use std::alloc::Global;
use std::sync::Wait;

/// The histories of a cluster's replicas, by number, and how many blocks each had committed by then; and the cluster's public keys.
pub struct FinalHistories {
    pub histories: Vec<History>,
    pub heights: Vec<u32>,
    pub ring: KeyRing,
}

// An own `Drop` keeps proofs short: an owner drops it by one call. See docs/WORKING.md.
impl Drop for FinalHistories {
    fn drop(self) {
        let FinalHistories {
            histories: _histories,
            heights: _heights,
            ring: _ring,
        } = self;
    }
}

/// The history of a replica, and how many blocks it had committed by then.
#[derive(Drop)]
struct Taken {
    history: History,
    height: u32,
}

/// What the replica with this number has by now, if this state is that replica's.
fn taken_of<A: Application>(
    state: &State<A>,
    cluster: &RunningCluster<A>,
    id: ReplicaId,
) -> Result<Taken, ProgramFault>
    ensures taken { IfOk result (λ taken. IsTaken A.meaning cluster.now.config cluster.now.ring id taken.history taken.height) }
    ensures entries { IfOk result (λ taken. taken.history.entries ≡ state.now.entries) }
    ensures fault { IfErr result IsRunFault }
{
    if !cluster.is_state_of(id, state) {
        return Err(ProgramFault::Stranger(id.number()));
    }
    let height = state.height();
    let history = state.history()?.history;
    Ok(Taken { history, height })
}

/// The same of the replica with this number, under its lock.
fn take<A: Application, R: Wait>(
    rt: &R,
    cluster: &RunningCluster<A>,
    id: u8,
) -> Result<Taken, ProgramFault>
    requires { id < cluster.now.replicas }
    ensures taken { IfOk result (λ taken. IsTaken A.meaning cluster.now.config cluster.now.ring id taken.history taken.height) }
    ensures fault { IfErr result IsRunFault }
{
    let id = ReplicaId::new(id);
    let state = cluster.replica(id).lock(rt);
    taken_of(&*state, cluster, id)
}

/// The histories of the replicas, by number. The ring is that of the cluster. Each is taken under its replica's lock, as of some moment of
/// this call: that is tested. The errors are NoMemory, and Stranger if a state has another number, configuration or key ring.
pub(crate) fn take_all<A: Application, R: Wait>(
    rt: &R,
    alloc: Global,
    cluster: &RunningCluster<A>,
    ring: KeyRing,
) -> Result<FinalHistories, ProgramFault>
    requires ring { ring ≡ cluster.now.ring }
    requires replicas { cluster.now.config.replicas ≡ cluster.now.replicas }
    ensures each { IfOk result (λ all. vec_len all.heights ≡ cluster.now.config.replicas) }
    ensures taken { IfOk result (λ all. AreTaken A.meaning cluster.now.config all.ring 0 all.histories.items all.heights.items) }
    ensures ring { IfOk result (λ all. all.ring ≡ ring) }
    ensures fault { IfErr result IsRunFault }
{
    let replicas = cluster.config().replicas;
    let mut histories = Vec::with_capacity(alloc, usize::from(replicas))?;
    let mut heights = Vec::with_capacity(alloc, usize::from(replicas))?;
    for id in 0..replicas {
        let Taken { history, height } = take(rt, cluster, id)?;
        histories.push(history)?;
        heights.push(height)?;
    }
    Ok(FinalHistories {
        histories,
        heights,
        ring,
    })
}
