//! Follows a history as far as it is a replay, and reads what each entry decides and gives up.
ghost use Rattle.std.specs.Prelude.{◌≡◌, ◌<◌, ◌≤◌, false, [], IfOk};
ghost use Rattle.ledger_model.specs.Applications.{run};
ghost use Rattle.replica_core.specs.Replays.{MatchesHistory};
ghost use Rattle.replica_core.specs.Following.{IsSameReplay};
ghost use Rattle.run_picture.specs.Collected.{FollowsEntry, FollowsHistory};

use crate::deciding::{add_decisions, deciding_heights};
use crate::entry_facts::Mark;
use crate::part::Part;
use crate::retiring::add_heights;
use abci::Application;
use history_follower::Follower;
use ledger_model::{Config, Entry, ReplicaId};
use std::alloc::{AllocError, Global};
use std::hash::RandomState;
use verify_cache::Verifier;

/// What entries decide and give up.
#[derive(Drop)]
pub(crate) struct ReplayMarks {
    pub(crate) decisions: Vec<Mark>,
    pub(crate) retired: Vec<Mark>,
}

/// The cluster, the part of its run that is shown, and the random keys of hashes.
#[derive(Drop)]
pub(crate) struct Scope {
    pub(crate) config: Config,
    pub(crate) part: Part,
    pub(crate) random: RandomState,
}

/// Follows an entry. If it continues the replay, appends what it decides and gives up, as far as the picture shows it.
fn follow_entry<A: Application>(
    alloc: Global,
    marks: &mut ReplayMarks,
    follower: &mut Follower<A>,
    part: &Part,
    index: usize,
    entry: &Entry,
) -> Result<bool, AllocError>
    requires { follower.old.lost ≡ false }
    ensures follows { IfOk result (FollowsEntry A.meaning part.now index entry.now follower.old follower.new marks.old marks.new) }
    ensures same { IsSameReplay follower.old.replay follower.new.replay }
{
    let replay = follower.replay();
    let replica = replay.id();
    let clock = u64::from(replay.clock());
    let floor = replay.floor().number();
    let heights = deciding_heights(alloc, replay, &entry.reply)?;
    if !follower.follow(alloc, &entry.event, &entry.reply)? {
        return Ok(false);
    }
    let replay = follower.replay();
    let raised = replay.floor().number();
    add_decisions(
        &mut marks.decisions,
        part,
        replica,
        index,
        clock,
        replay,
        &heights,
    )?;
    add_heights(
        &mut marks.retired,
        part,
        replica,
        index,
        clock,
        floor,
        raised,
    )?;
    Ok(true)
}

/// Follows entries up to the first that doesn't continue the replay, and returns their number.
fn follow_entries<A: Application>(
    alloc: Global,
    marks: &mut ReplayMarks,
    follower: &mut Follower<A>,
    part: &Part,
    entries: &[Entry],
) -> Result<usize, AllocError>
    requires first { MatchesHistory A.meaning follower.old.replay [] }
    requires kept { follower.old.lost ≡ false }
    ensures follows { IfOk result (FollowsHistory A.meaning follower.old.replay.config follower.old.replay.ring part.now
        follower.old.replay.id entries.now
        marks.old marks.new) }
    ensures same { IsSameReplay follower.old.replay follower.new.replay }
{
    for (index, entry) in entries.iter().enumerate() {
        if !follow_entry(alloc, marks, follower, part, index, entry)? {
            return Ok(index);
        }
    }
    Ok(entries.len())
}

/// Follows a replica's history as far as it is a replay, and returns the number of its entries there.
///
/// What the verifier knows serves the follower, and what the follower checks is known to the verifier afterwards.
pub(crate) fn follow_history<A: Application>(
    alloc: Global,
    marks: &mut ReplayMarks,
    verifier: &mut Verifier,
    scope: &Scope,
    replica: ReplicaId,
    entries: &[Entry],
    app: A,
) -> Result<usize, AllocError>
    requires member { replica < scope.now.config.replicas }
    requires opening { A.machine app ≡ run A.meaning scope.now.config.kind [] }
    ensures follows { IfOk result (FollowsHistory A.meaning scope.now.config verifier.old.ring scope.now.part replica entries.now marks.old
        marks.new) }
    ensures ring { verifier.new.ring ≡ verifier.old.ring }
{
    let ring = verifier.ring().copy()?;
    let mut follower = Follower::new(alloc, scope.config, ring, replica, app, scope.random)?;
    follower.swap_verifier(verifier);
    let count = follow_entries(alloc, marks, &mut follower, &scope.part, entries);
    follower.swap_verifier(verifier);
    count
}
