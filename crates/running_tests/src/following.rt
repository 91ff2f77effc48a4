//! Follows the history of a replica that ran in a thread.
use app_kinds::AnyKind;
use history_follower::Follower;
use ledger_model::Entry;
use locked_replica::{LockedReplica, Snapshot};
use std::alloc::{AllocError, Global};
use std::hash::RandomState;
use std::random::RandomSource;
use std::sync::Wait;
use std::test::Fail;

/// A follower before the first entry of the history.
fn new_follower(
    alloc: Global,
    random: RandomState,
    snapshot: &Snapshot,
) -> Result<Follower<AnyKind>, Fail> {
    let id = snapshot.history.replica;
    if id.number() >= snapshot.config.replicas {
        return Err(Fail::from("the replica is none of its cluster"));
    }
    let app = AnyKind::new(alloc, snapshot.config.kind);
    let ring = snapshot.ring.copy()?;
    Ok(Follower::new(alloc, snapshot.config, ring, id, app, random)?)
}

/// Whether the follower takes all of these entries.
fn takes_all(
    follower: &mut Follower<AnyKind>,
    alloc: Global,
    entries: &[Entry],
) -> Result<bool, AllocError> {
    for entry in entries {
        if !follower.follow(alloc, &entry.event, &entry.reply)? {
            return Ok(false);
        }
    }
    Ok(true)
}

/// Whether a follower takes the whole history of this replica.
pub(crate) fn is_followed<R: RandomSource + Wait>(
    rt: &R,
    alloc: Global,
    replica: &LockedReplica<AnyKind>,
) -> Result<bool, Fail> {
    let snapshot = replica.lock(rt).history()?;
    let mut follower = new_follower(alloc, RandomState::new(rt)?, &snapshot)?;
    Ok(takes_all(&mut follower, alloc, snapshot.history.entries.as_slice())?)
}
