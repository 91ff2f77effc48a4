//! A clock that ends a round only if nothing is left to do: all inboxes are empty, and all workers are idle.
use crate::meeting_gate::MAX_TURNS;
use cluster_workers::{Pace, Progress, RoundClock};
use ledger_model::ReplicaId;
use std::alloc::{AllocError, Global};
use std::sync::{Mutex, Wait};
use std::time::Duration;

/// What the workers reported.
#[derive(Drop)]
struct Counts {
    /// For each worker, whether it did nothing since it last asked, and has ended all rounds that may end.
    idle: Vec<bool>,
    sent: usize,
    taken: usize,
    /// The number of rounds that may end.
    rounds: u32,
    /// How often the clock was asked since it last let a round end.
    asked: u32,
    note: bool,
}

impl Counts {
    /// Whether no frame is in an inbox, and no worker has anything to do.
    fn is_quiet(&self) -> bool {
        self.sent == self.taken && self.idle.iter().all(|idle| *idle)
    }

    /// Lets one more round end. From now on no worker counts as idle before it has reported so.
    fn let_one_end(&mut self) {
        self.rounds = self.rounds.saturating_add(1);
        self.asked = 0;
        for idle in self.idle.iter_mut() {
            *idle = false;
        }
    }

    fn set_idle(&mut self, replica: usize, is_idle: bool) {
        if let Some(idle) = self.idle.get_mut(replica) {
            *idle = is_idle;
        }
    }

    /// Whether the worker with this progress is to end a round.
    fn ask(&mut self, replica: usize, ended: u32, progress: Progress) -> bool {
        self.sent = self.sent.wrapping_add(progress.sent);
        self.taken = self.taken.wrapping_add(progress.taken);
        self.asked = self.asked.saturating_add(1);
        if self.asked > MAX_TURNS {
            self.note = true;
        }
        self.set_idle(replica, ended >= self.rounds && progress.is_idle());
        if self.is_quiet() {
            self.let_one_end();
        }
        ended < self.rounds || self.note
    }
}

/// A clock for `workers` workers. After a million questions without a round that could end, it gives up, and all rounds end.
#[derive(Drop)]
pub(crate) struct QuietClock<'a, R: Wait> {
    rt: &'a R,
    counts: Mutex<Counts>,
}

impl<'a, R: Wait> QuietClock<'a, R> {
    pub(crate) fn new(rt: &'a R, alloc: Global, workers: usize) -> Result<Self, AllocError> {
        Ok(QuietClock {
            rt,
            counts: Mutex::new(Counts {
                idle: Vec::from_elem(alloc, false, workers)?,
                sent: 0,
                taken: 0,
                rounds: 0,
                asked: 0,
                note: false,
            }),
        })
    }

    /// Whether it gave up.
    pub(crate) fn has_note(&self) -> bool {
        self.counts.lock(self.rt).note
    }
}

impl<R: Wait> RoundClock for QuietClock<'_, R> {
    ghost use Rattle.std.specs.Prelude.{false};

    ghost pace = { λ _. record { base_ms = 0; is_steady = false } };

    fn pace(&self) -> Pace {
        Pace {
            base_ms: 0,
            is_steady: false,
        }
    }

    fn is_due(&self, replica: ReplicaId, ended: u32, progress: Progress) -> bool {
        self.counts
            .lock(self.rt)
            .ask(usize::from(replica.number()), ended, progress)
    }

    fn pause(&self, _ended: u32) -> Duration {
        Duration::from_millis(1)
    }
}
