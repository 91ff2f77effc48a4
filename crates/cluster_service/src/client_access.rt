//! What clients submit to the replicas of a running cluster.
ghost use Rattle.std.specs.Prelude.{◌≡◌, length};

use crate::asking::submit;
use crate::budgets::ClientBudget;
use crate::deliveries::height_above;
use abci::Application;
use cluster_workers::RunningCluster;
use ledger_model::{ApplyFault, ReplicaId, SubmitRefusal};
use std::alloc::Global;
use std::sync::Wait;

/// The replicas of a running cluster, to which clients submit transactions: each under its lock, and within the entries of its history that
/// clients may use.
#[derive(Drop)]
pub(crate) struct ClientAccess<'a, A: Application, R: Wait> {
    pub(crate) rt: &'a R,
    pub(crate) alloc: Global,
    pub(crate) cluster: &'a RunningCluster<A>,
    pub(crate) budgets: &'a [ClientBudget],
    ghost each: { length budgets.now ≡ cluster.now.replicas },
}

impl<A: Application, R: Wait> ClientAccess<'_, A, R> {
    ghost use Rattle.std.specs.Prelude.{◌<◌};
    ghost use Rattle.cluster_service.specs.Targets.{AnswersSubmit};

    /// Submits a transaction to a replica, under its lock.
    pub(crate) fn submit(
        &self,
        replica: ReplicaId,
        tx: &[u8],
    ) -> Result<Result<u32, SubmitRefusal>, ApplyFault>
        requires { replica < self.now.cluster.now.replicas }
        ensures { AnswersSubmit A.meaning tx.now result }
    {
        let mut entries = self.budgets[usize::from(replica.number())].lock(self.rt);
        let mut state = self.cluster.replica(replica).lock(self.rt);
        submit(self.alloc, &mut *state, &mut *entries, tx)
    }

    /// Submits a transaction to all replicas but this one. What they answer isn't returned: one whose pool has the transaction refuses its copy.
    pub(crate) fn spread(&self, replica: ReplicaId, tx: &[u8]) {
        for number in 0..=u8::MAX {
            if usize::from(number) >= self.cluster.len() {
                break;
            }
            if number != replica.number() {
                let _ = self.submit(ReplicaId::new(number), tx);
            }
        }
    }

    /// Submits a transaction to a replica, under its lock, unless it has run a block above this height that has the transaction: its pool would
    /// take a second copy.
    fn submit_unless_run(&self, replica: ReplicaId, tx: &[u8], above: u32)
        requires { replica < self.now.cluster.now.replicas }
    {
        let mut entries = self.budgets[usize::from(replica.number())].lock(self.rt);
        let mut state = self.cluster.replica(replica).lock(self.rt);
        if height_above(&*state, above, tx).is_none() {
            let _ = submit(self.alloc, &mut *state, &mut *entries, tx);
        }
    }

    /// Submits a transaction again to all replicas but this one that have run no block above this height with it.
    pub(crate) fn spread_again(&self, replica: ReplicaId, tx: &[u8], above: u32) {
        for number in 0..=u8::MAX {
            if usize::from(number) >= self.cluster.len() {
                break;
            }
            if number != replica.number() {
                self.submit_unless_run(ReplicaId::new(number), tx, above);
            }
        }
    }
}
