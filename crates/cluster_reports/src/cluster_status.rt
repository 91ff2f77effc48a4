//! The status of a running cluster's replicas, and the notices that the operator hasn't received yet.
use crate::notice::Notice;
use byte_streams::ProgramFault;
use ledger_model::ReplicaId;
use log::LevelFilter;
use replica_turns::ReplicaStatus;
use std::alloc::{AllocError, Global};
use std::mem;

/// The number of notices for which there is room from the start.
pub(crate) const FIRST_NOTICES: usize = 32;

/// The number of waiting notices from which on rounds get none, so that an operator who reads nothing costs no memory.
const MOST_NOTICES: usize = 4096;

/// A replica of which nothing is known.
const UNKNOWN: ReplicaStatus = ReplicaStatus {
    rounds: 0,
    height: 0,
    entries: 0,
    signatures: 0,
    is_mute: false,
};

/// The statuses of `replicas` replicas of which nothing is known.
pub(crate) fn unknown(alloc: Global, replicas: u8) -> Result<Vec<ReplicaStatus>, AllocError> {
    Vec::from_elem(alloc, UNKNOWN, usize::from(replicas))
}

/// The status of a running cluster's replicas, and the notices that the operator hasn't received yet.
#[derive(Drop)]
pub(crate) struct ClusterStatus {
    /// The status of each replica, by number.
    replicas: Vec<ReplicaStatus>,
    /// The notices that the reporter hasn't taken, oldest first: a few for each block and each replica.
    notices: Vec<Notice>,
    /// Whether each replica, by number, lost something since memory ran out.
    losses: Vec<bool>,
    /// The greatest height for whose block a notice was added.
    height: u32,
    /// Which notices are added.
    filter: LevelFilter,
    /// Whether rounds and blocks get notices. If not, each round of replica 0 is news.
    has_log: bool,
    /// Whether no more notices will come.
    is_over: bool,
    /// The fault that ended the cluster, until the reporter takes it.
    fault: Option<ProgramFault>,
}

impl ClusterStatus {
    /// The status of a cluster of `replicas` replicas that hasn't started.
    pub(crate) fn new(
        alloc: Global,
        replicas: u8,
        filter: LevelFilter,
        has_log: bool,
    ) -> Result<Self, AllocError> {
        Ok(ClusterStatus {
            replicas: unknown(alloc, replicas)?,
            // There is room for the notice of each replica for which memory runs out.
            notices: Vec::with_capacity(alloc, FIRST_NOTICES)?,
            losses: Vec::from_elem(alloc, false, usize::from(replicas))?,
            height: 0,
            filter,
            has_log,
            is_over: false,
            fault: None,
        })
    }

    /// Adds a notice, unless the operator gets none such or memory runs out.
    pub(crate) fn add(&mut self, notice: Notice) {
        if notice.is_for(self.filter) {
            let _ = self.notices.push(notice);
        }
    }

    /// Announces that no further notice will be added. The fault is what ended the cluster, if one did.
    pub(crate) fn close(&mut self, fault: Option<ProgramFault>) {
        self.is_over = true;
        self.fault = fault;
    }

    /// Moves out the fault that ended the cluster.
    pub(crate) fn take_fault(&mut self) -> Option<ProgramFault> {
        self.fault.take()
    }

    /// Adds a notice that this replica lost something, the first time. Returns whether there is one.
    pub(crate) fn add_loss(&mut self, replica: ReplicaId) -> bool {
        let Some(has_lost) = self.losses.get_mut(usize::from(replica.number())) else {
            return false;
        };
        if *has_lost {
            return false;
        }
        *has_lost = true;
        self.add(Notice::Loss(replica));
        true
    }

    /// Adds a notice of the round that a replica has opened, unless too many notices wait.
    fn add_round(&mut self, replica: ReplicaId, status: &ReplicaStatus) {
        if self.notices.len() < MOST_NOTICES {
            self.add(Notice::Round {
                replica,
                round: status.rounds,
                blocks: status.height,
                signatures: status.signatures,
            });
        }
    }

    /// Adds a notice for each block that this replica is the first to run.
    fn add_blocks(&mut self, replica: ReplicaId, status: &ReplicaStatus) {
        for height in self.height..status.height {
            self.add(Notice::Block {
                height: height.saturating_add(1),
                replica,
                round: status.rounds,
            });
        }
        self.height = self.height.max(status.height);
    }

    /// Adds notices of how a replica went on since `before`.
    fn add_progress(&mut self, replica: ReplicaId, before: &ReplicaStatus, after: &ReplicaStatus) {
        if after.rounds > before.rounds {
            self.add_round(replica, after);
        }
        self.add_blocks(replica, after);
    }

    /// Adds notices of what needs attention at a replica and didn't at `before`.
    fn add_warnings(&mut self, replica: ReplicaId, before: &ReplicaStatus, after: &ReplicaStatus) {
        if after.is_mute && !before.is_mute {
            self.add(Notice::Mute {
                replica,
                round: after.rounds,
                signatures: after.signatures,
            });
        }
        if after.is_nearly_full() && !before.is_nearly_full() {
            self.add(Notice::NearlyFull {
                replica,
                entries: after.entries,
            });
        }
    }

    /// Stores the status of a replica. Returns whether there is news for the operator.
    pub(crate) fn note(&mut self, replica: ReplicaId, status: ReplicaStatus) -> bool {
        let Some(known) = self.replicas.get_mut(usize::from(replica.number())) else {
            return false;
        };
        let before = mem::replace(known, status);
        let waiting = self.notices.len();
        if self.has_log {
            self.add_progress(replica, &before, &status);
        }
        self.add_warnings(replica, &before, &status);
        let has_progress = !self.has_log && replica.number() == 0 && status.rounds > before.rounds;
        self.notices.len() > waiting || has_progress
    }

    /// Moves the waiting notices into `notices`, and copies the status of each replica. Returns whether no more notices will
    /// come.
    pub(crate) fn hand_over(
        &mut self,
        notices: &mut Vec<Notice>,
        replicas: &mut [ReplicaStatus],
    ) -> bool {
        notices.clear();
        mem::swap(&mut self.notices, notices);
        for (copy, status) in replicas.iter_mut().zip(&self.replicas) {
            *copy = *status;
        }
        self.is_over
    }
}
