//! When the rounds of a running replica end.
use ledger_model::ReplicaId;
use round_pacer::{Schedule, due, until_due};
use std::io;
use std::marker::Model;
use std::sync::{Mutex, Wait};
use std::time::{Clock, Duration, Instant};

/// What a worker did since it last asked whether a round is due, and what it saw.
#[derive(Clone, Copy, Debug, PartialEq, Eq)]
pub struct Progress {
    /// The number of frames that it took from its inbox.
    pub taken: usize,
    /// The number of frames that it put into other inboxes.
    pub sent: usize,
    /// The number of events that its replica took, including deliveries of frames.
    pub events: usize,
    /// A height that all replicas committed, by the board.
    pub least: u32,
}

impl Progress {
    ghost use Rattle.std.specs.Prelude.{◌≡◌, ◌==◌, ◌&&◌};

    /// Whether it did nothing.
    pub fn is_idle(&self) -> bool
        ensures { result ≡ ((self.now.taken == 0) && (self.now.sent == 0) && (self.now.events == 0)) }
    {
        self.taken == 0 && self.sent == 0 && self.events == 0
    }
}

/// How long the rounds of a cluster last.
#[derive(Clone, Copy, Debug, Drop, PartialEq, Eq)]
pub struct Pace {
    /// How long a round lasts at least, in milliseconds; 0 if rounds don't end by time.
    pub base_ms: u32,
    /// Whether rounds are short again each time that all replicas have committed another block.
    pub is_steady: bool,
}

/// Decides when rounds end. All workers share it.
pub trait RoundClock {
    ghost use Rattle.std.specs.Prelude.{◌≡◌};
    ghost use Rattle.cluster_workers.specs.declared.round_clock.Pace.{Pace};

    ghost pace: { Self → Pace };

    /// How long rounds last.
    fn pace(&self) -> Pace
        ensures { result ≡ pace self.now };

    /// Whether the next round of this replica is to end; `ended` rounds ended before.
    fn is_due(&self, replica: ReplicaId, ended: u32, progress: Progress) -> bool;

    /// How long a worker that has nothing to do may sleep if no frame arrives; `ended` of its rounds have ended.
    fn pause(&self, ended: u32) -> Duration;
}

/// The most milliseconds that a worker sleeps before it looks whether it is to stop.
const LONGEST_PAUSE_MS: u64 = 100;

/// The schedule of a steady clock, and what it has seen of the workers.
#[derive(Drop)]
struct SteadySchedule {
    schedule: Schedule,
    /// The last round that ended at some replica.
    last: u32,
    /// The greatest height that all replicas committed when the schedule last began anew.
    blocks: u32,
}

impl SteadySchedule {
    ghost use Rattle.std.specs.Prelude.{◌≡◌, ◌<◌, ◌≤◌, ◌+◌, ◌-◌, ◌^◌, max, min, nat_le, if◌then◌else◌};
    ghost use Rattle.round_pacer.specs.Pacing.{ends_at};

    /// The schedule of rounds from the start on.
    fn new(base_ms: u32) -> Self
        ensures { result ≡ record { schedule = record { base_ms = base_ms; round = 0; moment_ms = 0 }; last = 0; blocks = 0 } }
    {
        SteadySchedule {
            schedule: Schedule::new(base_ms),
            last: 0,
            blocks: 0,
        }
    }

    /// Whether the next round of a replica is to end. The schedule begins anew first, if all replicas have committed another block: at the
    /// last round that ended at some replica, so that all go on by the same moments.
    fn ask(&mut self, now_ms: u64, ended: u32, least: u32) -> bool
        ensures due { result ≡ nat_le (ends_at self.new.schedule (ended + 1)) now_ms }
        ensures blocks { self.new.blocks ≡ max self.old.blocks least }
        ensures stays { least ≤ self.old.blocks → self.new.schedule ≡ self.old.schedule }
        ensures anew { self.old.blocks < least → max now_ms (ends_at self.old.schedule (max self.old.schedule.round self.old.last)) < 2 ^ 64
            → self.new.schedule.moment_ms ≡ max now_ms (ends_at self.old.schedule (max self.old.schedule.round self.old.last)) }
        ensures last { self.new.last ≡ (if result then max self.old.last (min (ended + 1) (2 ^ 32 - 1)) else self.old.last) }
    {
        if self.blocks < least {
            self.blocks = least;
            self.schedule.begin_anew(now_ms, self.last);
        }
        let is_due = self.schedule.is_due(now_ms, ended);
        if is_due {
            self.end_round(ended);
        }
        is_due
    }

    /// Notes that the next round of a replica ends. The schedule stays as it is.
    fn end_round(&mut self, ended: u32)
        ensures { self.new ≡ record self.old { last = max self.old.last (min (ended + 1) (2 ^ 32 - 1)) } }
    {
        self.last = self.last.max(ended.saturating_add(1));
    }
}

/// Wall-clock time: each round lasts a base time, and a millisecond more than the one before it (`round_pacer`). If the clock is steady, rounds
/// begin anew with the base time whenever all replicas have committed another block.
pub struct MachineClock<'a, R: Clock + Wait> {
    rt: &'a R,
    start: Instant,
    pace: Pace,
    steady: Mutex<SteadySchedule>,
}

// An own `Drop` keeps proofs short: an owner drops it by one call. See docs/WORKING.md.
impl<R: Clock + Wait> Drop for MachineClock<'_, R> {
    fn drop(self) {
        let MachineClock {
            rt: _rt,
            start: _start,
            pace: _pace,
            steady: _steady,
        } = self;
    }
}

impl<'a, R: Clock + Wait> Model for MachineClock<'a, R> {
    ghost use Rattle.cluster_workers.specs.declared.round_clock.Pace.{Pace};

    ghost Value = { Pace };

    ghost view = { λ c. c.pace };
}

impl<'a, R: Clock + Wait> MachineClock<'a, R> {
    ghost use Rattle.std.specs.Prelude.{◌≡◌, IfOk};

    /// A clock with this pace that starts now. An `Err` means that the machine's clock can't be read.
    pub fn start(rt: &'a R, pace: Pace) -> io::Result<Self>
        ensures { IfOk result (λ clock. clock ≡ pace) }
    {
        Ok(MachineClock {
            rt,
            start: Instant::now(rt)?,
            pace,
            steady: Mutex::new(SteadySchedule::new(pace.base_ms)),
        })
    }

    /// The milliseconds since the start; `None` if the machine's clock can't be read any more.
    fn elapsed_ms(&self) -> Option<u64> {
        match self.start.elapsed(self.rt) {
            Ok(elapsed) => Some(u64::try_from(elapsed.as_millis()).unwrap_or(u64::MAX)),
            Err(_) => None,
        }
    }

    /// The same, or the greatest number, so that every round is due.
    fn now_ms(&self) -> u64 {
        self.elapsed_ms().unwrap_or(u64::MAX)
    }

    /// Whether the next round of a replica is to end, by the steady schedule. If the machine's clock can't be read, every round is due, and the
    /// schedule doesn't begin anew.
    fn is_due_steadily(&self, ended: u32, least: u32) -> bool {
        let now_ms = self.elapsed_ms();
        let mut steady = self.steady.lock(self.rt);
        match now_ms {
            Some(now_ms) => steady.ask(now_ms, ended, least),
            None => {
                steady.end_round(ended);
                true
            }
        }
    }

    /// The milliseconds until the next round end of a replica of which `ended` rounds have ended.
    fn left_ms(&self, ended: u32) -> u64 {
        let now_ms = self.now_ms();
        if self.pace.is_steady {
            let steady = self.steady.lock(self.rt);
            steady.schedule.until_due(now_ms, ended)
        } else {
            until_due(0, now_ms, self.pace.base_ms, ended)
        }
    }
}

impl<R: Clock + Wait> RoundClock for MachineClock<'_, R> {
    ghost pace = { λ clock. clock };

    fn pace(&self) -> Pace {
        self.pace
    }

    fn is_due(&self, _replica: ReplicaId, ended: u32, progress: Progress) -> bool {
        if self.pace.is_steady {
            self.is_due_steadily(ended, progress.least)
        } else {
            due(0, self.now_ms(), self.pace.base_ms, ended) > 0
        }
    }

    fn pause(&self, ended: u32) -> Duration {
        Duration::from_millis(self.left_ms(ended).min(LONGEST_PAUSE_MS))
    }
}
