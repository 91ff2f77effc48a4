//! The frames that a replica sends as it opens a round.
ghost use Rattle.std.specs.Prelude.{◌≡◌, ◌++◌, ◌<◌, ◌-◌, ◌^◌, OnOk};
ghost use Rattle.run_picture.specs.Frames.{frame_shown, frames_from, frames_of_entry};

use crate::frame_reading::statement_in;
use crate::part::{Moment, Part};
use bytes::Bytes;
use ledger_model::{Addressee, Entry, ReplicaId, Reply, Sent, Statement};
use std::alloc::{AllocError, Global};

/// A frame that a replica sends: the round that opens with it, the entry that ends the round before, and the frame's place
/// among those that the entry sends, from 0 on.
pub struct SentFrame {
    pub at: Moment,
    pub place: usize,
    pub addressee: Addressee,
    pub bytes: Bytes,
    /// The statement that the bytes encode, if they are a frame.
    pub statement: Option<Statement>,
}

// An own `Drop` keeps proofs short: an owner drops it by one call. See docs/WORKING.md.
impl Drop for SentFrame {
    fn drop(self) {
        let SentFrame {
            at: _at,
            place: _place,
            addressee: _addressee,
            bytes: _bytes,
            statement: _statement,
        } = self;
    }
}

/// Appends the frame, if the picture shows what it is about.
fn add_frame(
    alloc: Global,
    out: &mut Vec<SentFrame>,
    part: &Part,
    at: &Moment,
    place: usize,
    sent: &Sent,
) -> Result<(), AllocError>
    ensures { OnOk result (out.new.items ≡ out.old.items ++ frame_shown part.now at.now place sent.now) }
{
    let statement = statement_in(alloc, &sent.frame)?;
    if !part.has_statement(statement.as_ref()) {
        return Ok(());
    }
    out.push(SentFrame {
        at: *at,
        place,
        addressee: sent.addressee,
        bytes: sent.frame.clone()?,
        statement,
    })?;
    Ok(())
}

/// Appends these frames, which one entry sends.
fn add_frames(
    alloc: Global,
    out: &mut Vec<SentFrame>,
    part: &Part,
    at: &Moment,
    frames: &[Sent],
) -> Result<(), AllocError>
    ensures { OnOk result (out.new.items ≡ out.old.items ++ frames_from part.now at.now 0 frames.now) }
{
    for (place, sent) in frames.iter().enumerate() {
        add_frame(alloc, out, part, at, place, sent)?;
    }
    Ok(())
}

/// Appends the frames that an entry sends, if the picture shows the round that it opens. The open round before it is `clock`.
pub(crate) fn add_sent(
    alloc: Global,
    out: &mut Vec<SentFrame>,
    part: &Part,
    replica: ReplicaId,
    index: usize,
    clock: u64,
    entry: &Entry,
) -> Result<(), AllocError>
    requires { clock < 2 ^ 64 - 1 }
    ensures { OnOk result (out.new.items ≡ out.old.items ++ frames_of_entry part.now replica index clock entry.now) }
{
    let Reply::RoundEnded(Ok(ended)) = &entry.reply else {
        return Ok(());
    };
    let Some(round) = part.drawn_round(clock + 1) else {
        return Ok(());
    };
    let at = Moment {
        replica,
        entry: index,
        round,
    };
    add_frames(alloc, out, part, &at, ended.frames.as_slice())
}
