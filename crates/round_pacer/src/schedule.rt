//! A schedule of rounds that can begin anew, so that its rounds are short again.
ghost use Rattle.std.specs.Prelude.{◌≡◌, ◌≤◌, ◌<◌, ◌+◌, ◌-◌, ◌^◌, max, min, nat_le};
ghost use Rattle.round_pacer.specs.Pacing.{ends_at};

use crate::{due_at, is_due, until};

/// When rounds end, in milliseconds after a start: as [`due`](crate::due) says, but counted from the end of one round, at which the schedule
/// began anew. All who share it begin anew at the same round.
#[derive(Clone, Copy, Debug, Drop, PartialEq, Eq)]
pub struct Schedule {
    /// How long the first round lasts, less one millisecond.
    pub base_ms: u32,
    /// The round at whose end it began anew last; 0 if it hasn't begun anew.
    pub round: u32,
    /// The moment of that end.
    pub moment_ms: u64,
}

impl Schedule {
    /// The schedule of rounds from the start on.
    pub fn new(base_ms: u32) -> Self
        ensures { result ≡ record { base_ms = base_ms; round = 0; moment_ms = 0 } }
    {
        Schedule {
            base_ms,
            round: 0,
            moment_ms: 0,
        }
    }

    /// Whether the end of round `ended + 1` is due. The ends of the rounds up to that at which it began anew are due from that moment on.
    pub fn is_due(&self, now_ms: u64, ended: u32) -> bool
        ensures { result ≡ nat_le (ends_at self.now (ended + 1)) now_ms }
    {
        is_due(self.moment_ms, now_ms, self.base_ms, self.rounds_to(ended))
    }

    /// The milliseconds from now until the end of round `ended + 1` is due: 0 if it is due already, and at most 2^64 - 1.
    pub fn until_due(&self, now_ms: u64, ended: u32) -> u64
        ensures { result ≡ min (ends_at self.now (ended + 1) - now_ms) (2 ^ 64 - 1) }
    {
        until(self.moment_ms, now_ms, self.base_ms, self.rounds_to(ended))
    }

    /// How many rounds after that at which it began anew round `ended + 1` is.
    fn rounds_to(&self, ended: u32) -> u64
        ensures rounds { result ≡ ended + 1 - self.now.round }
        ensures few { result < 2 ^ 33 }
    {
        (u64::from(ended) + 1).saturating_sub(u64::from(self.round))
    }

    /// Begins anew at the end of this round, or of that at which it began anew last, if that is a later one: now, or when that end is due, if
    /// that is later. If that is later than 2^64 - 1 milliseconds, it stays as it is.
    pub fn begin_anew(&mut self, now_ms: u64, round: u32)
        // Its round numbers only grow, and no round ends before the one before it.
        ensures grows { self.old.round ≤ self.new.round }
        ensures ordered { ends_at self.old self.new.round ≤ ends_at self.new self.new.round }
        ensures anew { max now_ms (ends_at self.old (max self.old.round round)) < 2 ^ 64
            → self.new ≡ record self.old { round = max self.old.round round; moment_ms = max now_ms (ends_at self.old (max self.old.round round)) } }
        ensures same { 2 ^ 64 ≤ max now_ms (ends_at self.old (max self.old.round round)) → self.new ≡ self.old }
    {
        let round = self.round.max(round);
        let due = due_at(self.moment_ms, self.base_ms, u64::from(round - self.round));
        if let Ok(due_ms) = u64::try_from(due) {
            self.round = round;
            self.moment_ms = due_ms.max(now_ms);
        }
    }
}
