//! The replicas of a running cluster, as targets of a session, and of a request of HTTP.
ghost use Rattle.std.specs.Prelude.{◌≡◌, ◌<◌, length};

use crate::asking::{block, query};
use crate::budgets::ClientBudget;
use crate::client_access::ClientAccess;
use crate::seen_states::SeenStates;
use crate::showing::{app_info, metrics_of, pool_size, progress_of};
use crate::waiting::{Awaited, wait_for};
use abci::Application;
use client_sessions::Targets;
use cluster_workers::{RunningCluster, Stop};
use commit_board::ReaderSeat;
use http_messages::ReplicaMetrics;
use http_sessions::{AppInfo, Delivery, HttpTargets, PoolSize, Progress};
use ledger_model::{ApplyFault, Batch, Height, QueryAnswer, ReplicaId, SubmitRefusal};
use std::alloc::Global;
use std::sync::Wait;
use std::time::Clock;

/// The replicas of a running cluster, for one session. The session reads heights through a seat of its own. It shares
/// the entries that clients may use of each history with all other sessions.
#[derive(Drop)]
pub struct LiveTargets<'a, A: Application, R: Wait> {
    rt: &'a R,
    alloc: Global,
    cluster: &'a RunningCluster<A>,
    budgets: &'a [ClientBudget],
    seat: ReaderSeat,
    stop: &'a Stop,
    seen: SeenStates<A>,
    ghost tied: { seat.board ≡ cluster.now.board },
    ghost some: { 0 < cluster.now.replicas },
    ghost each: { length budgets.now ≡ cluster.now.replicas },
}

impl<'a, A: Application, R: Wait> LiveTargets<'a, A, R> {
    /// The replicas of the cluster, whose heights are read through this seat of its board. Clients may use as many
    /// entries of a replica's history as its budget allows. What waits for a block ends once `stop` is asked.
    pub fn new(
        rt: &'a R,
        alloc: Global,
        cluster: &'a RunningCluster<A>,
        budgets: &'a [ClientBudget],
        seat: ReaderSeat,
        stop: &'a Stop,
    ) -> Self
        requires seat { seat.board ≡ cluster.now.board }
        requires budgets { length budgets.now ≡ cluster.now.replicas }
        ensures seat { result.seat ≡ seat }
        ensures cluster { result.cluster.now ≡ cluster.now }
        ensures budgets { result.budgets.now ≡ budgets.now }
    {
        let _ = cluster.len();
        LiveTargets {
            rt,
            alloc,
            cluster,
            budgets,
            seat,
            stop,
            seen: SeenStates::new(),
        }
    }
}

impl<'a, A: Application, R: Wait> LiveTargets<'a, A, R> {
    /// What this session submits to.
    fn access(&self) -> ClientAccess<'a, A, R>
        ensures { result.cluster ≡ self.now.cluster }
    {
        ClientAccess {
            rt: self.rt,
            alloc: self.alloc,
            cluster: self.cluster,
            budgets: self.budgets,
        }
    }
}

impl<A: Application, R: Wait> Targets for LiveTargets<'_, A, R> {
    ghost use Rattle.std.specs.Prelude.{◌≡◌};
    ghost use Rattle.cluster_service.specs.Targets.{IsExchange};

    ghost replicas = { λ t. t.cluster.now.replicas };

    ghost asks = { λ old exchange new. IsExchange A.meaning old.seat.seen exchange new.seat.seen × (new.cluster.now ≡ old.cluster.now) };

    fn count(&self) -> usize {
        self.cluster.len()
    }

    fn submit(
        &mut self,
        replica: ReplicaId,
        tx: &[u8],
    ) -> Result<Result<u32, SubmitRefusal>, ApplyFault> {
        self.access().submit(replica, tx)
    }

    fn query(&mut self, replica: ReplicaId, key: &[u8]) -> Result<QueryAnswer, ApplyFault> {
        let mut entries = self.budgets[usize::from(replica.number())].lock(self.rt);
        let mut state = self.cluster.replica(replica).lock(self.rt);
        query(self.alloc, &mut *state, &mut *entries, key)
    }

    fn height(&mut self, replica: ReplicaId) -> Height {
        Height::new(self.cluster.board().read(&mut self.seat, replica))
    }

    fn block(&mut self, replica: ReplicaId, height: Height) -> Result<Option<Batch>, ApplyFault> {
        let state = self.cluster.replica(replica).lock(self.rt);
        block(&*state, height)
    }
}

impl<A: Application, R: Clock + Wait> HttpTargets for LiveTargets<'_, A, R> {
    ghost use Rattle.std.specs.Prelude.{◌≡◌};
    ghost use Rattle.cluster_service.specs.Inquiries.{IsInquiry};

    ghost inquires = { λ old inquiry new. IsInquiry A.meaning old.cluster.now new.seen inquiry × (new.cluster.now ≡ old.cluster.now) };

    fn metrics(&mut self, replica: ReplicaId) -> Option<ReplicaMetrics> {
        let cluster = self.cluster;
        // One client at a time walks a history, so a replica waits for one walk, not for those of all clients.
        let _turn = self.budgets[usize::from(replica.number())].lock(self.rt);
        let lost = cluster.lost(replica);
        let state = cluster.replica(replica).lock(self.rt);
        if !self.seen.see(cluster, replica, &*state) {
            return None;
        }
        Some(metrics_of(replica, lost, &*state))
    }

    fn progress(&mut self, replica: ReplicaId) -> Option<Progress> {
        let cluster = self.cluster;
        let state = cluster.replica(replica).lock(self.rt);
        if !self.seen.see(cluster, replica, &*state) {
            return None;
        }
        Some(progress_of(&*state))
    }

    fn pool(&mut self, replica: ReplicaId) -> Option<PoolSize> {
        let cluster = self.cluster;
        let state = cluster.replica(replica).lock(self.rt);
        if !self.seen.see(cluster, replica, &*state) {
            return None;
        }
        Some(pool_size(&*state))
    }

    fn info(&mut self, replica: ReplicaId) -> Option<AppInfo> {
        let cluster = self.cluster;
        let state = cluster.replica(replica).lock(self.rt);
        if !self.seen.see(cluster, replica, &*state) {
            return None;
        }
        Some(app_info(&*state))
    }

    fn spread(&mut self, replica: ReplicaId, tx: &[u8]) {
        self.access().spread(replica, tx);
    }

    fn wait(&mut self, replica: ReplicaId, tx: &[u8], index: u32) -> Option<Delivery> {
        let awaited = Awaited { replica, tx, index };
        wait_for(
            &self.access(),
            &mut self.seat,
            &mut self.seen,
            self.stop,
            &awaited,
        )
    }
}
