//! The sent frames that go to one replica, in an order in which a binary search finds the source of a delivery.
ghost use Rattle.std.specs.Prelude.{◌≡◌, ◌-◌, ◌<◌, ◌≤◌, Some, true, false, length, IfOk, IfSome, IfNone, OnOk, slice_get};
ghost use Rattle.std.specs.List.{Contains};
ghost use Rattle.std.specs.List.Sorted.{IsPartitionPoint};
ghost use Rattle.run_picture.specs.Incoming.{AreIncoming, AreIncomingTo, IsFirstIndex, IsInOrder, IsNearest, IsNearestRound, IsNumbering, is_before};

use crate::frame_numbers::FrameNumbers;
use crate::sent_frames::SentFrame;
use ledger_model::{ReplicaId, goes_to};
use std::alloc::{AllocError, Global};

/// A sent frame that goes to the replica: the number of its bytes, the round that opens with it, and its index among all sent frames.
#[derive(Clone, Copy, PartialEq, Eq, PartialOrd, Ord)]
pub(crate) struct IncomingFrame {
    pub(crate) number: usize,
    pub(crate) round: u32,
    pub(crate) sent: usize,
}

/// The sent frames that go to one replica, in the order of their numbers, then rounds, then indices.
pub(crate) struct IncomingFrames {
    pub(crate) to: ReplicaId,
    pub(crate) frames: Vec<IncomingFrame>,
}

// An own `Drop` keeps proofs short: an owner drops it by one call. See docs/WORKING.md.
impl Drop for IncomingFrames {
    fn drop(self) {
        let IncomingFrames {
            to: _to,
            frames: _frames,
        } = self;
    }
}

/// The sent frames that go to a replica, in the order in which they are sent.
fn frames_to(
    alloc: Global,
    numbers: &FrameNumbers,
    sent: &[SentFrame],
    to: ReplicaId,
) -> Result<Vec<IncomingFrame>, AllocError>
    requires { IsNumbering sent.now numbers.now.strings numbers.now.numbers.items }
    ensures { IfOk result (λ frames. AreIncomingTo sent.now numbers.now.numbers.items to (length sent.now) frames.items) }
{
    let mut frames = Vec::new(alloc);
    for (index, frame) in sent.iter().enumerate() {
        if goes_to(frame.addressee, frame.at.replica, to) {
            frames.push(IncomingFrame {
                number: numbers.numbers[index],
                round: frame.at.round,
                sent: index,
            })?;
        }
    }
    Ok(frames)
}

/// The sent frames that go to a replica, in the order of their numbers, then rounds, then indices.
fn ordered_frames_to(
    alloc: Global,
    numbers: &FrameNumbers,
    sent: &[SentFrame],
    to: ReplicaId,
) -> Result<Vec<IncomingFrame>, AllocError>
    requires { IsNumbering sent.now numbers.now.strings numbers.now.numbers.items }
    ensures { IfOk result (λ frames. AreIncoming sent.now numbers.now.numbers.items to frames.items) }
{
    let mut frames = frames_to(alloc, numbers, sent, to)?;
    frames.sort()?;
    Ok(frames)
}

impl IncomingFrames {
    /// The sent frames that go to a replica. The only error is allocation failure.
    pub(crate) fn of(
        alloc: Global,
        numbers: &FrameNumbers,
        sent: &[SentFrame],
        to: ReplicaId,
    ) -> Result<Self, AllocError>
        requires { IsNumbering sent.now numbers.now.strings numbers.now.numbers.items }
        ensures { IfOk result (λ incoming. AreIncoming sent.now numbers.now.numbers.items incoming.to incoming.frames.items) }
    {
        let frames = ordered_frames_to(alloc, numbers, sent, to)?;
        Ok(IncomingFrames { to, frames })
    }

    /// Takes the frames that go to a replica in place of these, unless these do. The only error is allocation failure, and then nothing
    /// changed.
    pub(crate) fn turn_to(
        &mut self,
        alloc: Global,
        numbers: &FrameNumbers,
        sent: &[SentFrame],
        to: ReplicaId,
    ) -> Result<(), AllocError>
        requires numbers { IsNumbering sent.now numbers.now.strings numbers.now.numbers.items }
        requires frames { AreIncoming sent.now numbers.now.numbers.items self.old.to self.old.frames.items }
        ensures to { OnOk result (self.new.to ≡ to) }
        ensures frames { OnOk result (AreIncoming sent.now numbers.now.numbers.items to self.new.frames.items) }
    {
        if self.to != to {
            self.frames = ordered_frames_to(alloc, numbers, sent, to)?;
            self.to = to;
        }
        Ok(())
    }

    /// The number of frames that have a lower number, or this one and are sent before the round.
    fn before(&self, number: usize, round: u64) -> usize
        requires { IsInOrder self.now.frames.items }
        ensures bound { result ≤ length self.now.frames.items }
        ensures parts { IsPartitionPoint (λ x. is_before number round x ≡ true) (λ x. is_before number round x ≡ false)
            self.now.frames.items result }
    {
        self.frames.as_slice().partition_point(
            |frame: &IncomingFrame| -> bool
                ensures { result ≡ is_before number round frame.now }
            { frame.number < number || (frame.number == number && u64::from(frame.round) < round) },
        )
    }

    /// The frame with this index, if it has the number.
    fn with_number(&self, index: usize, number: usize) -> Option<IncomingFrame>
        ensures some { IfSome result (λ x. (x.number ≡ number) × (slice_get self.now.frames.items index ≡ Some x)) }
        ensures none { IfNone result ((x : _) → slice_get self.now.frames.items index ≡ Some x → (x.number ≡ number) → ⊥) }
    {
        let frame = *self.frames.get(index)?;
        if frame.number == number {
            Some(frame)
        } else {
            None
        }
    }

    /// The frame before this index, if it has the number.
    fn last_with_number(&self, end: usize, number: usize) -> Option<IncomingFrame>
        ensures some { IfSome result (λ x. (0 < end) × (x.number ≡ number) × (slice_get self.now.frames.items (end - 1) ≡ Some x)) }
        ensures none { IfNone result ((x : _) → 0 < end → slice_get self.now.frames.items (end - 1) ≡ Some x → (x.number ≡ number) → ⊥) }
    {
        if end == 0 {
            return None;
        }
        self.with_number(end - 1, number)
    }

    /// The latest round up to `round` in which a frame with this number is sent or, if all of them are sent later, the earliest.
    fn nearest_round(&self, number: usize, round: u32) -> Option<u32>
        requires { IsInOrder self.now.frames.items }
        ensures { IsNearestRound self.now.frames.items number round result }
    {
        let end = self.before(number, u64::from(round) + 1);
        let nearest = match self.last_with_number(end, number) {
            Some(latest) => latest,
            None => self.with_number(end, number)?,
        };
        Some(nearest.round)
    }

    /// The least index of a frame with this number that is sent in the round, in which one is sent.
    fn first_index(&self, number: usize, round: u32) -> usize
        requires order { IsInOrder self.now.frames.items }
        requires one { (x : _) × (Contains self.now.frames.items x × (x.number ≡ number) × (x.round ≡ round)) }
        ensures { IsFirstIndex self.now.frames.items number round result }
    {
        let first = self.before(number, u64::from(round));
        self.frames[first].sent
    }

    /// The index of the sent frame that comes to the replica in a round, and has the number.
    pub(crate) fn source(&self, number: usize, round: u32) -> Option<usize>
        requires { IsInOrder self.now.frames.items }
        ensures { IsNearest self.now.frames.items number round result }
    {
        let nearest = self.nearest_round(number, round)?;
        Some(self.first_index(number, nearest))
    }
}
