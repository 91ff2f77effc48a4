//! A borrowed view of a reply of a history.
use crate::stored_entry::StoredRoundEnd;
use crate::string_table::StringTable;
use bytes::Bytes;
use ledger_model::{
    Addressee, Batch, BlockResult, Height, Ignored, LastRound, NotHeld, NothingDecided,
    ProposeRefusal, QueryAnswer, RetireRefusal, SubmitRefusal,
};
use std::marker::Model;

/// The reply to an event, with its parts borrowed.
#[derive(Drop)]
pub enum ReplyView<'a> {
    Submitted(Result<(), SubmitRefusal>),
    Proposed(Result<&'a Batch, ProposeRefusal>),
    Delivered(Result<(), Ignored>),
    RoundEnded(Result<RoundEndView<'a>, LastRound>),
    Executed(Result<&'a BlockResult, NothingDecided>),
    Queried(Result<&'a QueryAnswer, NotHeld>),
    Retired(Result<Height, RetireRefusal>),
}

/// The reply to a round end: its frames one by one, and whether the replica is mute. Contracts see a `RoundEnded`.
#[derive(Drop)]
pub struct RoundEndView<'a> {
    ended: &'a StoredRoundEnd,
    strings: &'a StringTable,
}

/// A frame that was sent, and its addressee.
#[derive(Drop)]
pub struct SentView<'a> {
    pub addressee: Addressee,
    pub frame: &'a Bytes,
}

impl<'a> Model for RoundEndView<'a> {
    ghost use Rattle.ledger_model.specs.declared.reply.RoundEnded.{RoundEnded};

    ghost Value = { RoundEnded };

    ghost use Rattle.std.specs.Prelude.{length};
    ghost use Rattle.locked_replica.specs.StoredEntries.{AreSentWithin, round_end_of};

    ghost view = { λ v. round_end_of v.strings.now v.ended.now };

    ghost invariant = { λ v. AreSentWithin (length v.strings.now) v.ended.now.sent.items };
}

impl<'a> RoundEndView<'a> {
    ghost use Rattle.std.specs.Prelude.{◌≡◌, ◌==◌, length, slice_get, option_map};
    ghost use Rattle.locked_replica.specs.StoredEntries.{AreSentWithin, round_end_of};
    ghost use Rattle.locked_replica.specs.Views.{sent_lent};

    pub(crate) fn new(ended: &'a StoredRoundEnd, strings: &'a StringTable) -> Self
        requires { AreSentWithin (length strings.now) ended.now.sent.items }
        ensures { result ≡ round_end_of strings.now ended.now }
    {
        RoundEndView { ended, strings }
    }

    /// Whether the replica is mute: it makes no further statement.
    pub fn is_mute(&self) -> bool
        ensures { result ≡ self.now.mute }
    {
        self.ended.mute
    }

    /// The number of frames that were sent.
    pub fn len(&self) -> usize
        ensures { result ≡ length self.now.frames }
    {
        self.ended.sent.len()
    }

    /// Whether no frame was sent.
    pub fn is_empty(&self) -> bool
        ensures { result ≡ (length self.now.frames == 0) }
    {
        self.ended.sent.is_empty()
    }

    /// The frame with this index, in the order of sending; `None` if fewer frames were sent.
    pub fn frame(&self, index: usize) -> Option<SentView<'a>>
        ensures { option_map sent_lent result ≡ slice_get self.now.frames index }
    {
        match self.ended.sent.get(index) {
            Some(sent) => Some(SentView {
                addressee: sent.addressee,
                frame: self.strings.string(sent.position),
            }),
            None => None,
        }
    }
}
