//! An entry of a history as a replica stores it: it names delivered bytes and sent frames by their positions in a table.
ghost use Rattle.std.specs.Prelude.{◌≡◌, ◌<◌, length, map, IfOk, OnOk};
ghost use Rattle.locked_replica.specs.Strings.{Extends, with_strings};
ghost use Rattle.locked_replica.specs.StoredEntries.{AreSentWithin, IsWithin, sent_of, round_end_of, entry_of};

use crate::string_table::StringTable;
use ledger_model::{
    Addressee, Entry, Event, Ignored, LastRound, Reply, RoundEnded, Sent, SentFrames,
};
use std::alloc::{AllocError, Global};

/// An event and the reply to it. A delivery, the most frequent event, is small and in no block of its own.
#[derive(Drop)]
pub(crate) enum StoredEntry {
    /// The bytes at this position were delivered.
    Delivered(usize, Result<(), Ignored>),
    RoundEnded(Result<Box<StoredRoundEnd>, LastRound>),
    /// Any other entry, as it is.
    Other(Box<Entry>),
}

/// The reply to a round end that opened the next round.
#[derive(Drop)]
pub(crate) struct StoredRoundEnd {
    /// Whether the replica is mute: it makes no further statement.
    pub(crate) mute: bool,
    pub(crate) sent: Vec<StoredFrame>,
}

/// The position of a frame that was sent, and its addressee.
#[derive(Clone, Copy)]
pub(crate) struct StoredFrame {
    pub(crate) addressee: Addressee,
    pub(crate) position: usize,
}

/// Puts the frames into the table, in order, and returns their positions. The only error is allocation failure, and then the table may
/// have some of them.
fn store_frames(
    alloc: Global,
    strings: &mut StringTable,
    frames: &[Sent],
) -> Result<Vec<StoredFrame>, AllocError>
    ensures sent { IfOk result (λ sent. map (sent_of strings.new) sent.items ≡ frames.now) }
    ensures within { IfOk result (λ sent. AreSentWithin (length strings.new) sent.items) }
    ensures strings { OnOk result (strings.new ≡ with_strings strings.old (map (λ sent. sent.frame) frames.now)) }
    ensures kept { Extends strings.old strings.new }
{
    let mut stored = Vec::with_capacity(alloc, frames.len())?;
    for sent in frames {
        let position = strings.put(sent.frame.clone()?)?;
        stored.push(StoredFrame {
            addressee: sent.addressee,
            position,
        })?;
    }
    Ok(stored)
}

/// Puts the frames of the round end into the table, and returns the round end as it is stored. The only error is allocation failure,
/// and then the table may have some of the frames.
pub(crate) fn store_round_end(
    alloc: Global,
    strings: &mut StringTable,
    ended: &RoundEnded,
) -> Result<StoredRoundEnd, AllocError>
    ensures ended { IfOk result (λ stored. round_end_of strings.new stored ≡ ended.now) }
    ensures within { IfOk result (λ stored. AreSentWithin (length strings.new) stored.sent.items) }
    ensures strings { OnOk result (strings.new ≡ with_strings strings.old (map (λ sent. sent.frame) ended.now.frames)) }
    ensures kept { Extends strings.old strings.new }
{
    Ok(StoredRoundEnd {
        mute: ended.mute,
        sent: store_frames(alloc, strings, ended.frames.as_slice())?,
    })
}

/// The sent frames, which share the bytes of the table.
fn frames_of(strings: &StringTable, stored: &[StoredFrame]) -> Result<SentFrames, AllocError>
    requires { AreSentWithin (length strings.now) stored.now }
    ensures { IfOk result (λ frames. frames ≡ map (sent_of strings.now) stored.now) }
{
    let mut frames = Vec::with_capacity(strings.allocator(), stored.len())?;
    for sent in stored {
        frames.push(Sent {
            addressee: sent.addressee,
            frame: strings.string(sent.position).clone()?,
        })?;
    }
    Ok(SentFrames::new(frames))
}

impl StoredEntry {
    /// The entry, which shares the bytes of the table. The only error is allocation failure.
    pub(crate) fn entry(&self, strings: &StringTable) -> Result<Entry, AllocError>
        requires { IsWithin (length strings.now) self.now }
        ensures { IfOk result (λ entry. entry ≡ entry_of strings.now self.now) }
    {
        Ok(match self {
            StoredEntry::Delivered(position, answer) => Entry {
                event: Event::Deliver(strings.string(*position).clone()?),
                reply: Reply::Delivered(*answer),
            },
            StoredEntry::RoundEnded(Ok(ended)) => Entry {
                event: Event::RoundEnd,
                reply: Reply::RoundEnded(Ok(RoundEnded {
                    mute: ended.mute,
                    frames: frames_of(strings, &ended.sent)?,
                })),
            },
            StoredEntry::RoundEnded(Err(last)) => Entry {
                event: Event::RoundEnd,
                reply: Reply::RoundEnded(Err(*last)),
            },
            StoredEntry::Other(entry) => Entry {
                event: entry.event.copy()?,
                reply: entry.reply.copy()?,
            },
        })
    }
}
