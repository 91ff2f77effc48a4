//! Follows histories, with functions that ensure little.
ghost use Rattle.std.specs.Prelude.{◌≡◌, [], IfOk};
ghost use Rattle.ledger_model.specs.Applications.{run};

use crate::fault::Fault;
use abci::Application;
use app_kinds::AnyKind;
use history_follower::Follower;
use ledger_model::{Entry, Event, Reply};
use locked_replica::Snapshot;
use std::alloc::{AllocError, Global};
use std::hash::RandomState;

/// An entry of a history, with the entries before it and after it.
#[derive(Clone, Copy)]
pub(crate) struct EntryContext<'a> {
    pub(crate) before: &'a [Entry],
    pub(crate) entry: &'a Entry,
    pub(crate) later: &'a [Entry],
}

/// The entry with this index, if there is one.
pub(crate) fn place_in(told: &Snapshot, at: usize) -> Option<EntryContext<'_>> {
    let entries = told.history.entries.as_slice();
    match (entries.get(..at), entries.get(at..)) {
        (Some(before), Some([entry, later @ ..])) => Some(EntryContext {
            before,
            entry,
            later,
        }),
        _ => None,
    }
}

/// A follower before the first entry of the history.
pub(crate) fn new_follower(
    alloc: Global,
    random: RandomState,
    told: &Snapshot,
) -> Result<Follower<AnyKind>, Fault>
    ensures { IfOk result (λ follower. follower.replay.ring ≡ told.now.ring) }
{
    let app = AnyKind::new(alloc, told.config.kind);
    follower_with(alloc, random, told, app)
}

/// A follower before the first entry of the history, with this application.
pub(crate) fn follower_with<A: Application>(
    alloc: Global,
    random: RandomState,
    told: &Snapshot,
    app: A,
) -> Result<Follower<A>, Fault>
    requires { A.machine app ≡ run A.meaning told.now.config.kind [] }
    ensures { IfOk result (λ follower. follower.replay.ring ≡ told.now.ring) }
{
    let id = told.history.replica;
    if id.number() >= told.config.replicas {
        return Err(Fault::NoHistory);
    }
    let ring = told.ring.copy()?;
    Ok(Follower::new(alloc, told.config, ring, id, app, random)?)
}

/// Whether the event with this reply is taken.
pub(crate) fn is_taken<A: Application>(
    follower: &mut Follower<A>,
    alloc: Global,
    event: &Event,
    reply: &Reply,
) -> Result<bool, AllocError>
    ensures { follower.new.replay.ring ≡ follower.old.replay.ring }
{
    follower.follow(alloc, event, reply)
}

/// Whether all of these entries are taken.
pub(crate) fn takes_all<A: Application>(
    follower: &mut Follower<A>,
    alloc: Global,
    entries: &[Entry],
) -> Result<bool, AllocError>
    ensures { follower.new.replay.ring ≡ follower.old.replay.ring }
{
    for entry in entries {
        if !is_taken(follower, alloc, &entry.event, &entry.reply)? {
            return Ok(false);
        }
    }
    Ok(true)
}

/// Whether a follower takes a whole history.
pub(crate) fn is_followed(
    alloc: Global,
    random: RandomState,
    told: &Snapshot,
) -> Result<bool, Fault> {
    let mut follower = new_follower(alloc, random, told)?;
    Ok(takes_all(&mut follower, alloc, told.history.entries.as_slice())?)
}
