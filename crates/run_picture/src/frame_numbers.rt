//! Numbers for the sent frames, by which two frames are compared without a look at their bytes.

use crate::sent_frames::SentFrame;
use locked_replica::StringTable;
use std::alloc::{AllocError, Global};
use std::hash::RandomState;

/// A number for each sent frame. Frames with the same bytes have the same number.
pub(crate) struct FrameNumbers {
    pub(crate) strings: StringTable,
    /// The number of each sent frame, which is the position of its bytes in the table.
    pub(crate) numbers: Vec<usize>,
}

// An own `Drop` keeps proofs short: an owner drops it by one call. See docs/WORKING.md.
impl Drop for FrameNumbers {
    fn drop(self) {
        let FrameNumbers {
            strings: _strings,
            numbers: _numbers,
        } = self;
    }
}

impl FrameNumbers {
    ghost use Rattle.std.specs.Prelude.{IfOk};
    ghost use Rattle.run_picture.specs.Incoming.{IsNumbering};

    /// The numbers of these frames. Hashes each frame once, under the random keys. The only error is allocation failure.
    pub(crate) fn of(
        alloc: Global,
        random: RandomState,
        sent: &[SentFrame],
    ) -> Result<Self, AllocError>
        ensures { IfOk result (λ made. IsNumbering sent.now made.strings made.numbers.items) }
    {
        let mut strings = StringTable::new(alloc, random);
        let mut numbers = Vec::with_capacity(alloc, sent.len())?;
        for frame in sent {
            numbers.push(strings.put(frame.bytes.clone()?)?)?;
        }
        let _distinct = strings.len();
        Ok(FrameNumbers { strings, numbers })
    }
}
