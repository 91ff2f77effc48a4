//! A gate at which the workers of replicas 0 and 1 wait for each other.
use cluster_workers::TurnGate;
use ledger_model::ReplicaId;
use replica_turns::ReplicaStatus;
use std::sync::atomic::{AtomicBool, Ordering};
use std::thread;

/// How often a thread looks for the other one before it gives up.
pub(crate) const MAX_TURNS: u32 = 1_000_000;

/// Sets this thread's flag, and waits for the other one. Returns false if the other flag was not set within `MAX_TURNS` looks.
pub(crate) fn meet(own: &AtomicBool, other: &AtomicBool) -> bool {
    own.store(true, Ordering::SeqCst);
    for _ in 0..MAX_TURNS {
        if other.load(Ordering::SeqCst) {
            return true;
        }
        thread::yield_now();
    }
    false
}

/// Before each turn, and so before the first, each worker waits until the other has reached a turn.
#[derive(Drop)]
pub(crate) struct MeetingGate {
    first: AtomicBool,
    second: AtomicBool,
    note: AtomicBool,
}

impl MeetingGate {
    pub(crate) fn new() -> Self {
        MeetingGate {
            first: AtomicBool::new(false),
            second: AtomicBool::new(false),
            note: AtomicBool::new(false),
        }
    }

    /// Whether one worker gave up.
    pub(crate) fn has_note(&self) -> bool {
        self.note.load(Ordering::SeqCst)
    }

    /// Whether both workers arrived.
    pub(crate) fn have_met(&self) -> bool {
        self.first.load(Ordering::SeqCst) && self.second.load(Ordering::SeqCst)
    }
}

impl TurnGate for MeetingGate {
    fn before(&self, replica: ReplicaId) {
        let has_met = match replica.number() {
            0 => meet(&self.first, &self.second),
            1 => meet(&self.second, &self.first),
            _ => true,
        };
        if !has_met {
            self.note.store(true, Ordering::SeqCst);
        }
    }

    fn after(&self, _replica: ReplicaId, _status: ReplicaStatus) {}

    fn lack(&self, _replica: ReplicaId) {}
}
