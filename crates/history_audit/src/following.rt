//! Follows histories entry by entry, and finds the longest ledger among them.
ghost use Rattle.std.specs.Prelude.{◌≡◌, ◌<◌, ◌≤◌, false, true, [], length, Ok, None, IfOk};
ghost use Rattle.std.specs.List.{AllByRecursion};
ghost use Rattle.ledger_model.specs.Applications.{run};
ghost use Rattle.ledger_model.specs.Audits.{are_of_a_quorum};
ghost use Rattle.replica_core.specs.Replays.{MatchesHistory};
ghost use Rattle.replica_core.specs.Following.{IsSameReplay};
ghost use Rattle.history_follower.specs.Followers.{AnswersFollowing};
ghost use Rattle.history_audit.specs.Followed.{FollowedTo, FollowsOne, FollowsAll};

use crate::fault::AuditFault;
use abci::Application;
use history_follower::Follower;
use key_ring::KeyRing;
use ledger_model::{Config, Entry, Height, History, Ledger, ReplicaId, history_of};
use std::alloc::{AllocError, Global};
use std::hash::RandomState;
use verify_cache::Verifier;

/// Follows all entries of a history. Returns the index of the first that doesn't continue the replay, if there is one.
fn follow<A: Application>(
    alloc: Global,
    follower: &mut Follower<A>,
    entries: &[Entry],
) -> Result<Option<usize>, AllocError>
    requires first { MatchesHistory A.meaning follower.old.replay [] }
    requires kept { follower.old.lost ≡ false }
    ensures answer { IfOk result (AnswersFollowing A.meaning follower.old.replay.config follower.old.replay.ring follower.old.replay.id
        entries.now) }
    ensures matches { result ≡ Ok None → MatchesHistory A.meaning follower.new.replay entries.now }
    ensures same { IsSameReplay follower.old.replay follower.new.replay }
{
    for (index, entry) in entries.iter().enumerate() {
        if !follower.follow(alloc, &entry.event, &entry.reply)? {
            return Ok(Some(index));
        }
    }
    Ok(None)
}

/// The blocks that a follower's replica committed. The only error is allocation failure.
fn blocks_of<A: Application>(alloc: Global, follower: &Follower<A>) -> Result<Ledger, AllocError>
    ensures { IfOk result (λ ledger. ledger ≡ follower.now.replay.commits) }
{
    let mut ledger = Ledger::new(alloc);
    for index in 0..follower.height() {
        let Some(block) = follower.block(Height::new(index + 1)) else {
            unreachable!()
        };
        ledger.append(block.copy()?)?;
    }
    Ok(ledger)
}

/// Follows the whole history and returns the follower. `NotReplay` names the first entry that doesn't continue the replay.
///
/// What the verifier knows serves the follower, and what the follower checks is known to the verifier afterwards.
fn followed<A: Application>(
    alloc: Global,
    config: &Config,
    verifier: &mut Verifier,
    history: &History,
    app: A,
    random: RandomState,
) -> Result<Follower<A>, AuditFault>
    requires member { history.now.replica < config.now.replicas }
    requires opening { A.machine app ≡ run A.meaning config.now.kind [] }
    ensures answer { FollowedTo A.meaning config.now verifier.old.ring history.now result }
    ensures ring { verifier.new.ring ≡ verifier.old.ring }
{
    let ring = verifier.ring().copy()?;
    let mut follower = Follower::new(alloc, *config, ring, history.replica, app, random)?;
    follower.swap_verifier(verifier);
    let stop = follow(alloc, &mut follower, history.entries.as_slice());
    follower.swap_verifier(verifier);
    match stop? {
        None => Ok(follower),
        Some(index) => Err(AuditFault::NotReplay {
            replica: history.replica,
            index,
        }),
    }
}

/// Follows one more history. If it commits more blocks than the ledger has, the ledger becomes these blocks.
fn follow_one<A: Application>(
    alloc: Global,
    config: &Config,
    verifier: &mut Verifier,
    history: &History,
    app: A,
    random: RandomState,
    ledger: &mut Ledger,
) -> Result<(), AuditFault>
    requires member { history.now.replica < config.now.replicas }
    requires opening { A.machine app ≡ run A.meaning config.now.kind [] }
    ensures answer { FollowsOne A.meaning config.now verifier.old.ring history.now ledger.old result ledger.new }
    ensures ring { verifier.new.ring ≡ verifier.old.ring }
{
    let follower = followed(alloc, config, verifier, history, app, random)?;
    if follower.height() as usize > ledger.blocks().len() {
        *ledger = blocks_of(alloc, &follower)?;
    }
    Ok(())
}

/// Follows all histories in the order of their replicas, each with the next application, and returns the longest list of
/// blocks that one of them commits. `NotReplay` names the first entry that doesn't continue the replay, of the least replica.
///
/// One verifier serves all followers in turn, so what it remembers of one history serves the next.
pub(crate) fn follow_all<A: Application>(
    alloc: Global,
    config: &Config,
    verifier: &mut Verifier,
    histories: &[History],
    apps: Vec<A>,
    random: RandomState,
) -> Result<Ledger, AuditFault>
    requires count { are_of_a_quorum config.now histories.now ≡ true }
    requires enough { length histories.now ≤ length apps.items }
    requires opening { AllByRecursion (λ app. A.machine app ≡ run A.meaning config.now.kind []) apps.items }
    ensures { FollowsAll A.meaning config.now verifier.old.ring histories.now result }
{
    let mut ledger = Ledger::new(alloc);
    let mut apps = apps.into_iter();
    for number in 0..config.replicas {
        let Some(history) = history_of(histories, ReplicaId::new(number)) else {
            continue;
        };
        let Some(app) = apps.next() else {
            unreachable!()
        };
        follow_one(alloc, config, verifier, history, app, random, &mut ledger)?;
    }
    Ok(ledger)
}
