//! The frames that wait for a replica: a bounded number, for its next turns and for the next round.
ghost use Rattle.std.specs.Prelude.{◌≡◌, ◌≤◌, ◌+◌, ◌-◌, ◌++◌, [], length, take, drop, filter, vec_len, OnOk, OnErr};
ghost use Rattle.ledger_model.specs.Reading.{reading_in};
ghost use Rattle.replica_turns.specs.Rounds.{is_early};
ghost use Rattle.replica_turns.specs.Waiting.{WaitingFramesView, max_at_once, max_due_frames, max_early, max_waiting};

use crate::early::early_of;
use bytes::Bytes;
use ledger_model::Version;
use std::alloc::{AllocError, Global};
use std::marker::Model;

/// The most frames of one turn. No frame is taken in while as many are due.
const MAX_AT_ONCE: usize = 64;

/// The most frames that wait for the next round.
const MAX_EARLY: usize = 1024;

/// The most frames that are due: those that were taken in, and those that waited for the round.
const MAX_DUE: usize = MAX_AT_ONCE + MAX_EARLY;

/// The frames that wait for a replica: those that are due in its next turns, at most 1,088, and those that wait for the next
/// round, at most 1,024. A frame that arrives one round early is due at once, like all others, and waits for its round, too.
pub struct WaitingFrames {
    due: Vec<Bytes>,
    early: Vec<Bytes>,
}

// An own `Drop` keeps proofs short: an owner drops it by one call. See docs/WORKING.md.
impl Drop for WaitingFrames {
    fn drop(self) {
        let WaitingFrames {
            due: _due,
            early: _early,
        } = self;
    }
}

impl Model for WaitingFrames {
    ghost use Rattle.std.specs.Prelude.{◌≤◌, length};
    ghost use Rattle.replica_turns.specs.Waiting.{WaitingFramesView, max_early, max_due_frames};

    ghost Value = { WaitingFramesView };

    ghost view = { λ w. record { due = w.due.items; early = w.early.items } };

    ghost invariant = { λ w. (length w.due.items ≤ max_due_frames) × (length w.early.items ≤ max_early) };
}

impl WaitingFrames {
    /// The most turns that it takes to hand over all frames that are due.
    pub const MAX_TURNS: usize = MAX_DUE / MAX_AT_ONCE;

    /// No waiting frames.
    pub fn new(alloc: Global) -> Self
        ensures { result ≡ record { due = []; early = [] } }
    {
        WaitingFrames {
            due: Vec::new(alloc),
            early: Vec::new(alloc),
        }
    }

    /// The frames that are due, in order: all that arrived, early ones too, and those that waited for a round that was opened
    /// since.
    pub fn due(&self) -> &[Bytes]
        ensures { result.now ≡ self.now.due }
    {
        self.due.as_slice()
    }

    /// The frames of the next turn, in order: the first of those that are due, at most 64.
    pub fn first_due(&self) -> &[Bytes]
        ensures { result.now ≡ take max_at_once self.now.due }
    {
        &self.due.as_slice()[..self.due.len().min(MAX_AT_ONCE)]
    }

    /// The number of frames that may be taken in now: as many as are missing to 64 that are due.
    pub fn room(&self) -> usize
        ensures room { result ≡ max_at_once - length self.now.due }
        ensures bounded { length self.now.due + length self.now.early ≤ max_waiting }
    {
        MAX_AT_ONCE.saturating_sub(self.due.len())
    }

    /// Takes in frames that arrived while the round `clock` was open: all are due. Those of this version that are of the next
    /// round also wait for it, up to 1,024 in all. The only error is allocation failure: all of `frames` are dropped.
    pub fn take_in(
        &mut self,
        version: Version,
        alloc: Global,
        clock: u32,
        mut frames: Vec<Bytes>,
    ) -> Result<(), AllocError>
        requires { vec_len frames ≤ max_at_once - length self.old.due }
        ensures due { OnOk result (self.new.due ≡ self.old.due ++ frames.items) }
        ensures early { OnOk result (self.new.early
            ≡ take max_early (self.old.early ++ filter (λ bytes. is_early clock (reading_in version bytes)) frames.items)) }
        ensures same { OnErr result (self.new ≡ self.old) }
    {
        let mut early = early_of(version, alloc, clock, frames.as_slice())?;
        early.truncate(MAX_EARLY - self.early.len());
        self.early.reserve(early.len())?;
        self.due.append(&mut frames)?;
        let _ = self.early.append(&mut early);
        Ok(())
    }

    /// Opens the next round: the frames that waited for it are due, up to 1,088 frames in all. The only error is allocation
    /// failure: the frames that waited for the round are dropped.
    pub fn open_round(&mut self) -> Result<(), AllocError>
        ensures due { OnOk result (self.new.due ≡ take max_due_frames (self.old.due ++ self.old.early)) }
        ensures lost { OnErr result (self.new.due ≡ self.old.due) }
        ensures early { self.new.early ≡ [] }
    {
        self.early.truncate(MAX_DUE - self.due.len());
        let done = self.due.append(&mut self.early);
        self.early.truncate(0);
        done
    }

    /// Drops the first `count` of the frames that are due.
    pub fn give_up(&mut self, count: usize)
        ensures due { self.new.due ≡ drop count self.old.due }
        ensures early { self.new.early ≡ self.old.early }
    {
        let count = count.min(self.due.len());
        self.due.drain(..count);
    }

    /// Drops all frames.
    pub fn give_up_all(&mut self)
        ensures { self.new ≡ record { due = []; early = [] } }
    {
        self.due.truncate(0);
        self.early.truncate(0);
    }
}
