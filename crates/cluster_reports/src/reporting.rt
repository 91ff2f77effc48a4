//! What the workers of a cluster, and the thread that runs it, share with the thread that writes to the operator.
ghost use Rattle.std.specs.Prelude.{◌≡◌, MatchResult};

use crate::cluster_status::ClusterStatus;
use crate::notice::Notice;
use byte_streams::{ProgramFault, STOPPED};
use cluster_workers::{Bell, TurnGate};
use ledger_model::ReplicaId;
use log::{Level, LevelFilter};
use replica_turns::ReplicaStatus;
use std::alloc::{AllocError, Global};
use std::sync::{Mutex, Wait};
use std::time::Duration;

/// The most milliseconds that a cluster waits until the reporter has written that its workers have ended, and at its end until the
/// reporter has written everything.
const LAST_MS: u64 = 1000;

/// The status of a cluster, and the bells that wake the reporter and the end of the cluster. No thread holds the lock
/// during a write, so an operator who reads nothing blocks no worker.
#[derive(Drop)]
pub struct SharedStatus {
    status: Mutex<ClusterStatus>,
    /// Which notices the operator gets.
    filter: LevelFilter,
    /// Rung when there is news.
    news: Bell,
    /// Rung when the reporter has written that the workers have ended.
    over: Bell,
    /// Rung when the reporter has written everything.
    end: Bell,
}

impl SharedStatus {
    /// The status of a cluster of `replicas` replicas that hasn't started.
    pub(crate) fn new(
        alloc: Global,
        replicas: u8,
        filter: LevelFilter,
        has_log: bool,
    ) -> Result<Self, AllocError> {
        Ok(SharedStatus {
            status: Mutex::new(ClusterStatus::new(alloc, replicas, filter, has_log)?),
            filter,
            news: Bell::new(),
            over: Bell::new(),
            end: Bell::new(),
        })
    }

    /// Whether the operator gets no notice at all, but for a fault, and for the default seed of a cluster that serves clients.
    fn is_quiet(&self) -> bool {
        self.filter == LevelFilter::Off
    }

    /// Passes a notice to the reporter, unless the operator gets none such.
    pub(crate) fn tell<R: Wait>(&self, rt: &R, notice: Notice) {
        if notice.is_for(self.filter) {
            self.status.lock(rt).add(notice);
            self.news.ring();
        }
    }

    /// Stores the status of a replica.
    fn note<R: Wait>(&self, rt: &R, replica: ReplicaId, status: ReplicaStatus) {
        if !self.is_quiet() && self.status.lock(rt).note(replica, status) {
            self.news.ring();
        }
    }

    /// Passes on that a replica lost something since memory ran out, the first time.
    fn note_loss<R: Wait>(&self, rt: &R, replica: ReplicaId) {
        if !self.is_quiet() && self.status.lock(rt).add_loss(replica) {
            self.news.ring();
        }
    }

    /// Ends the reporter, which writes last the fault that ended the cluster, if one did. Waits until it has written everything, at most
    /// for a second. Returns the exit status: the one of what was done, or that of a fault.
    pub fn close<R: Wait>(&self, rt: &R, done: Result<u8, ProgramFault>) -> u8
        ensures { MatchResult done (λ status. result ≡ status) (λ _. result ≡ 3) }
    {
        let (status, fault) = match done {
            Ok(status) => (status, None),
            Err(fault) => (STOPPED, Some(fault)),
        };
        self.status.lock(rt).close(fault);
        self.news.ring();
        self.end.sleep(rt, 0, Duration::from_millis(LAST_MS));
        status
    }

    /// Waits until the reporter has written that the workers have ended, at most for a second.
    fn wait_for_end<R: Wait>(&self, rt: &R) {
        if self.filter.allows(Level::Info) {
            self.over.sleep(rt, 0, Duration::from_millis(LAST_MS));
        }
    }

    /// Announces that the reporter has written that the workers have ended.
    pub(crate) fn end_told(&self) {
        self.over.ring();
    }

    /// Announces that the reporter has written everything.
    pub(crate) fn end(&self) {
        self.end.ring();
    }

    /// The number of times that there was news, modulo 2^32.
    pub(crate) fn news(&self) -> u32 {
        self.news.rings()
    }

    /// Sleeps until the number of news differs from `news`, but at most for `most`.
    pub(crate) fn sleep<R: Wait>(&self, rt: &R, news: u32, most: Duration) {
        self.news.sleep(rt, news, most);
    }

    /// Moves out the waiting notices ([`ClusterStatus::hand_over`]).
    pub(crate) fn hand_over<R: Wait>(
        &self,
        rt: &R,
        notices: &mut Vec<Notice>,
        replicas: &mut [ReplicaStatus],
    ) -> bool {
        self.status.lock(rt).hand_over(notices, replicas)
    }

    /// Moves out the fault that ended the cluster.
    pub(crate) fn take_fault<R: Wait>(&self, rt: &R) -> Option<ProgramFault> {
        self.status.lock(rt).take_fault()
    }
}

/// The gate of a cluster's workers, which stores the status of a replica after each of its turns.
#[derive(Drop)]
pub struct ReportingGate<'a, R: Wait> {
    rt: &'a R,
    shared: &'a SharedStatus,
}

impl<'a, R: Wait> ReportingGate<'a, R> {
    pub fn new(rt: &'a R, shared: &'a SharedStatus) -> Self {
        ReportingGate { rt, shared }
    }

    /// Passes a notice to the reporter.
    pub fn tell(&self, notice: Notice) {
        self.shared.tell(self.rt, notice);
    }

    /// Waits until the reporter has written that the workers have ended, at most for a second, so that what the program then writes
    /// comes after that line.
    pub fn wait_for_end(&self) {
        self.shared.wait_for_end(self.rt);
    }
}

impl<R: Wait> TurnGate for ReportingGate<'_, R> {
    fn before(&self, _replica: ReplicaId) {}

    fn after(&self, replica: ReplicaId, status: ReplicaStatus) {
        self.shared.note(self.rt, replica, status);
    }

    fn lack(&self, replica: ReplicaId) {
        self.shared.note_loss(self.rt, replica);
    }
}
