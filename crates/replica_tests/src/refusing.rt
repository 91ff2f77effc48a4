//! Tests whether a follower refuses the changed replies of a history.
use crate::changing::{Change, changed};
use crate::fault::Fault;
use crate::following::{EntryContext, is_taken, new_follower, place_in, takes_all};
use app_kinds::AnyKind;
use history_follower::Follower;
use ledger_model::Reply;
use locked_replica::Snapshot;
use std::alloc::{AllocError, Global};
use std::hash::RandomState;

/// The changes that are tried. Of the bytes of a frame, they change those of the length, of the statement, and of the
/// signature's number, first and last bytes.
const CHANGES: [Change; 11] = [
    Change::Outcome,
    Change::Cause,
    Change::Number,
    Change::Fewer,
    Change::More,
    Change::Byte(0),
    Change::Byte(3),
    Change::Byte(8),
    Change::Byte(29),
    Change::Byte(40),
    Change::Byte(2000),
];

/// Whether the follower takes the entries before this index, and refuses the entry there with this reply, and
/// afterwards with its own reply.
fn is_lost_at(
    follower: &mut Follower<AnyKind>,
    alloc: Global,
    place: EntryContext<'_>,
    reply: &Reply,
) -> Result<bool, AllocError> {
    let entry = place.entry;
    let are_taken = takes_all(follower, alloc, place.before)?;
    let is_first_taken = is_taken(follower, alloc, &entry.event, reply)?;
    let is_next_taken = is_taken(follower, alloc, &entry.event, &entry.reply)?;
    let are_wanted = (true, false, false, true);
    Ok((are_taken, is_first_taken, is_next_taken, follower.is_lost()) == are_wanted)
}

/// Whether a follower does so.
fn is_refused_with(
    alloc: Global,
    random: RandomState,
    told: &Snapshot,
    place: EntryContext<'_>,
    reply: &Reply,
) -> Result<bool, Fault> {
    let mut follower = new_follower(alloc, random, told)?;
    Ok(is_lost_at(&mut follower, alloc, place, reply)?)
}

/// Whether the entry at this index with its changed reply is refused after the entries before it, and the true one is
/// refused afterwards. True if the reply has nothing that can be changed so.
fn is_refused(
    alloc: Global,
    random: RandomState,
    told: &Snapshot,
    at: usize,
    change: Change,
) -> Result<bool, Fault> {
    let Some(place) = place_in(told, at) else {
        return Ok(false);
    };
    match changed(alloc, &place.entry.reply, change)? {
        Some(reply) => is_refused_with(alloc, random, told, place, &reply),
        None => Ok(true),
    }
}

/// Whether each change of the entry at this index is refused.
pub(crate) fn refuses_changes_at(
    alloc: Global,
    random: RandomState,
    told: &Snapshot,
    at: usize,
) -> Result<bool, Fault> {
    for change in CHANGES {
        if !is_refused(alloc, random, told, at, change)? {
            return Ok(false);
        }
    }
    Ok(true)
}

/// Whether each change of each entry is refused.
pub(crate) fn refuses_changes(
    alloc: Global,
    random: RandomState,
    told: &Snapshot,
) -> Result<bool, Fault> {
    for at in 0..told.history.entries.as_slice().len() {
        if !refuses_changes_at(alloc, random, told, at)? {
            return Ok(false);
        }
    }
    Ok(true)
}
