//! The mute flag: a follower accepts it if nothing was due, and then requires silence.
use crate::ending_changes::with_other_flag;
use crate::fault::Fault;
use crate::following::{EntryContext, is_taken, new_follower, place_in, takes_all};
use crate::playing::history_in;
use crate::scripts::{FOUR_HEIGHTS, NO_LEAF_LEFT, NO_LEAVES_FOR_FOUR, PLAIN, Script};
use app_kinds::AnyKind;
use history_follower::Follower;
use ledger_model::{Entry, Reply, RoundEnded};
use locked_replica::Snapshot;
use std::alloc::{AllocError, Global};
use std::hash::RandomState;
use std::test::Fail;

/// The outcome of a round end whose mute flag is inverted.
#[derive(Clone, Copy)]
enum Flagged {
    /// It is no round end.
    Other,
    /// It is refused, because something was due.
    Refused,
    /// It is taken, because nothing was due; the next round end that is not mute is refused, if there is one.
    Silenced,
    /// None of these.
    Wrong,
}

/// Whether this end had something to sign, as far as it shows: it sends frames, and not only locks that the replica holds.
fn is_due(end: &RoundEnded, round: u32) -> bool {
    !end.frames.as_slice().is_empty() && round % 4 != 0
}

/// Whether the flag may be inverted: the replica was not mute, and nothing was due.
fn may_be_mute(reply: &Reply, round: u32) -> bool {
    match reply {
        Reply::RoundEnded(Ok(end)) => !end.mute && !is_due(end, round),
        _ => false,
    }
}

/// Whether it is a round end that is not mute.
fn is_loud(reply: &Reply) -> bool {
    match reply {
        Reply::RoundEnded(Ok(end)) => !end.mute,
        _ => false,
    }
}

/// Whether the first round end among these entries that is not mute is refused, and all entries before it are taken.
fn stays_silent(
    follower: &mut Follower<AnyKind>,
    alloc: Global,
    entries: &[Entry],
) -> Result<bool, AllocError> {
    for entry in entries {
        let is_loud = is_loud(&entry.reply);
        if is_taken(follower, alloc, &entry.event, &entry.reply)? == is_loud {
            return Ok(false);
        }
        if is_loud {
            return Ok(true);
        }
    }
    Ok(true)
}

/// The outcome of the entry at this index with this reply, at a follower that takes the entries before it.
fn come_of(
    follower: &mut Follower<AnyKind>,
    alloc: Global,
    place: EntryContext<'_>,
    reply: &Reply,
) -> Result<Flagged, AllocError> {
    let are_taken = takes_all(follower, alloc, place.before)?;
    let may_be_taken = may_be_mute(&place.entry.reply, follower.clock().saturating_add(1));
    let is_taken = is_taken(follower, alloc, &place.entry.event, reply)?;
    if (are_taken, is_taken) != (true, may_be_taken) {
        return Ok(Flagged::Wrong);
    }
    if !is_taken {
        return Ok(Flagged::Refused);
    }
    if stays_silent(follower, alloc, place.later)? {
        Ok(Flagged::Silenced)
    } else {
        Ok(Flagged::Wrong)
    }
}

/// The outcome of the entry at this index with this reply.
fn outcome_with(
    alloc: Global,
    random: RandomState,
    told: &Snapshot,
    place: EntryContext<'_>,
    reply: &Reply,
) -> Result<Flagged, Fault> {
    let mut follower = new_follower(alloc, random, told)?;
    Ok(come_of(&mut follower, alloc, place, reply)?)
}

/// The outcome of the entry at this index with the mute flag inverted.
fn outcome_of(
    alloc: Global,
    random: RandomState,
    told: &Snapshot,
    at: usize,
) -> Result<Flagged, Fault> {
    let Some(place) = place_in(told, at) else {
        return Ok(Flagged::Other);
    };
    match with_other_flag(&place.entry.reply)? {
        Some(reply) => outcome_with(alloc, random, told, place, &reply),
        None => Ok(Flagged::Other),
    }
}

/// The number of round ends that are refused with the flag inverted, and the number that silence the replica; `None` if
/// one has another outcome.
fn counts(
    alloc: Global,
    random: RandomState,
    told: &Snapshot,
) -> Result<Option<(u32, u32)>, Fault> {
    let (mut refused, mut silenced) = (0u32, 0u32);
    for at in 0..told.history.entries.as_slice().len() {
        match outcome_of(alloc, random, told, at)? {
            Flagged::Other => {}
            Flagged::Refused => refused = refused.saturating_add(1),
            Flagged::Silenced => silenced = silenced.saturating_add(1),
            Flagged::Wrong => return Ok(None),
        }
    }
    Ok(Some((refused, silenced)))
}

fn counts_of(
    alloc: Global,
    random: RandomState,
    script: Script,
    replica: u8,
) -> Result<Option<(u32, u32)>, Fault> {
    let told = history_in(alloc, random, script, replica)?;
    counts(alloc, random, &told)
}

/// Scripts with a replica: the number of its round ends that are refused with the flag inverted, and the number that silence it.
const CASES: [(Script, u8, (u32, u32)); 4] = [
    // Refused: it sends a report in each of four phases, an acknowledgement in three, and a lock in the last.
    (PLAIN, 0, (8, 8)),
    // Refused: it sends reports twice, and locks once.
    (FOUR_HEIGHTS, 1, (3, 2)),
    // Refused: it sends reports, or it is mute and would not be.
    (NO_LEAF_LEFT, 3, (38, 96)),
    (NO_LEAVES_FOR_FOUR, 0, (11, 24)),
];

/// The index of the first script that has other numbers, if there is one.
fn first_wrong_script(alloc: Global, random: RandomState) -> Result<Option<usize>, Fault> {
    for (index, &(script, replica, numbers)) in CASES.iter().enumerate() {
        if counts_of(alloc, random, script, replica)? != Some(numbers) {
            return Ok(Some(index));
        }
    }
    Ok(None)
}

#[test]
fn the_mute_flag_asks_for_silence(rt: HostRuntime) -> Result<(), Fail> {
    let random = RandomState::new(&rt)?;
    assert_eq!(rt; first_wrong_script(rt.alloc(), random)?, None);
    Ok(())
}
