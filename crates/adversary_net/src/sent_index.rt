//! An index of the frames in a history, which finds the frame of a number without a walk.
use std::alloc::{AllocError, Global};

/// An entry that sent frames.
#[derive(Clone, Copy)]
pub struct SendingEntry {
    /// Its index in the history.
    pub entry: usize,
    /// The number of frames that earlier entries sent. A history has at most 65,536 entries, each with fewer than 2^64 frames.
    pub before: u128,
}

/// The entries of a history that sent frames, in order, and the number of all frames.
#[derive(Drop)]
pub struct SentIndex {
    pub sending: Vec<SendingEntry>,
    pub total: u128,
}

impl SentIndex {
    ghost use Rattle.std.specs.Prelude.{◌≡◌, ◌<◌, ◌≤◌, ◌+◌, ◌^◌, ◌==◌, ◌∷◌, ◌++◌, [], List, length, nat_le, vec_len, OnOk, slice_get, option_and_then, if◌then◌else◌};
    ghost use Rattle.std.specs.List.Sorted.{IsNonDecreasingBy, IsPartitionPoint};
    ghost use Rattle.std.specs.Vec.{vec_capacity};
    ghost use Rattle.ledger_model.specs.declared.history.Entry.{Entry};
    ghost use Rattle.ledger_model.specs.Worlds.{frames_sent};
    ghost use Rattle.adversary_net.specs.Sending.{IsIndexed, frame_of};

    /// The index of an empty history.
    pub(crate) fn new(alloc: Global) -> Self
        ensures { IsIndexed result.sending.items result.total [] }
    {
        SentIndex {
            sending: Vec::new(alloc),
            total: 0,
        }
    }

    /// The number of sending entries that have at most `index` frames before them.
    fn up_to(&self, index: u128) -> usize
        requires rising { IsNonDecreasingBy (λ s. s.before) self.now.sending.items }
        ensures bound { result ≤ length self.now.sending.items }
        ensures parts { IsPartitionPoint (λ s. s.before ≤ index) (λ s. index < s.before) self.now.sending.items result }
    {
        self.sending.as_slice().partition_point(
            |sending: &SendingEntry| -> bool
                ensures { result ≡ nat_le sending.now.before index }
            { sending.before <= index },
        )
    }

    /// Where the frame with this index is: the entry of the history, and the index among that entry's frames. For an
    /// index past the last frame, the second is one that the last sending entry doesn't have, or the result is `None`.
    pub(crate) fn place(&self, index: usize) -> Option<(usize, usize)>
        requires rising { IsNonDecreasingBy (λ s. s.before) self.now.sending.items }
        ensures { (entries : List Entry) → IsIndexed self.now.sending.items self.now.total entries
            → slice_get (frames_sent entries) index ≡ option_and_then (λ p. frame_of entries p.0 p.1) result }
    {
        let after = self.up_to(index as u128);
        if after == 0 {
            return None;
        }
        let sending = self.sending[after - 1];
        Some((sending.entry, (index as u128 - sending.before) as usize))
    }

    /// Reserves room for one more sending entry.
    pub(crate) fn reserve(&mut self) -> Result<(), AllocError>
        ensures sending { self.new.sending.items ≡ self.old.sending.items }
        ensures total { self.new.total ≡ self.old.total }
        ensures room { OnOk result (vec_len self.new.sending < vec_capacity self.new.sending) }
    {
        self.sending.reserve(1)
    }

    /// Counts the frames of an entry that was added to the history. There is room for a sending entry.
    pub(crate) fn add(&mut self, entry: usize, frames: usize)
        requires room { vec_len self.old.sending < vec_capacity self.old.sending }
        requires fits { self.old.total + frames < 2 ^ 128 }
        ensures sending { self.new.sending.items ≡ (if frames == 0 then self.old.sending.items
            else self.old.sending.items ++ record { entry = entry; before = self.old.total } ∷ []) }
        ensures total { self.new.total ≡ self.old.total + frames }
    {
        if frames == 0 {
            return;
        }
        let before = self.total;
        match self.sending.push(SendingEntry { entry, before }) {
            Ok(()) => self.total = before + frames as u128,
            Err(_) => unreachable!(),
        }
    }
}
