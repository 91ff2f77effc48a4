//! Followers follow each history of the worked runs to its end, and refuse a changed reply at each entry.
ghost use Rattle.std.specs.Prelude.{◌≡◌};

use crate::fault::Fault;
use crate::following::{is_followed, new_follower, takes_all};
use crate::playing::{history_of, played};
use crate::refusing::refuses_changes;
use crate::scripts::{
    COUNTER, EMPTY_BLOCKS, FOUR_HEIGHTS, FOUR_PROPOSALS, LATE_ACKNOWLEDGEMENT, LOCK_RELEASED,
    NO_LEAF_LEFT, NO_LEAVES_FOR_FOUR, OTHER_PHASES, PLAIN, PURSE, REFUSALS, RETIRED, Script,
    TWO_PROPOSALS,
};
use app_kinds::AnyKind;
use locked_replica::Snapshot;
use simulation::Simulation;
use std::alloc::Global;
use std::hash::RandomState;
use std::test::Fail;
use verify_cache::Verifier;

/// The number of entries of a history, if a follower takes them all.
fn len_followed(alloc: Global, random: RandomState, told: &Snapshot) -> Result<usize, Fault> {
    if is_followed(alloc, random, told)? {
        Ok(told.history.entries.as_slice().len())
    } else {
        Err(Fault::EntryRefused)
    }
}

/// The number of entries of the replica's history, if a follower takes them all; 0 for a liar.
fn len_of_replica(
    alloc: Global,
    random: RandomState,
    simulation: &Simulation<AnyKind>,
    replica: u8,
) -> Result<usize, Fault> {
    match history_of(simulation, replica) {
        Ok(told) => len_followed(alloc, random, &told),
        Err(Fault::NoHistory) => Ok(0),
        Err(fault) => Err(fault),
    }
}

/// The number of entries of all histories, if followers take them all.
fn len_of_all(
    alloc: Global,
    random: RandomState,
    simulation: &Simulation<AnyKind>,
) -> Result<usize, Fault> {
    let mut all = 0usize;
    for replica in 0..4 {
        all = all.saturating_add(len_of_replica(alloc, random, simulation, replica)?);
    }
    Ok(all)
}

/// Whether a follower refuses each changed reply of the replica.
fn is_exact(
    alloc: Global,
    random: RandomState,
    simulation: &Simulation<AnyKind>,
    replica: u8,
) -> Result<bool, Fault> {
    let told = history_of(simulation, replica)?;
    refuses_changes(alloc, random, &told)
}

/// Whether followers take all entries of a script's histories, which are this many, and refuse each changed reply of the replica.
fn is_script_followed(
    alloc: Global,
    random: RandomState,
    script: Script,
    replica: u8,
    entries: usize,
) -> Result<bool, Fault> {
    let simulation = played(alloc, random, script)?;
    let len = len_of_all(alloc, random, &simulation)?;
    let is_exact = is_exact(alloc, random, &simulation, replica)?;
    Ok(is_exact && len == entries)
}

/// Scripts, each with a replica, and the number of entries of all its histories.
const CASES: [(Script, u8, usize); 14] = [
    (PLAIN, 0, 199),
    (RETIRED, 0, 204),
    (EMPTY_BLOCKS, 2, 99),
    (COUNTER, 1, 63),
    (PURSE, 1, 59),
    (FOUR_PROPOSALS, 2, 130),
    (TWO_PROPOSALS, 2, 83),
    (LOCK_RELEASED, 0, 115),
    (LATE_ACKNOWLEDGEMENT, 1, 57),
    (OTHER_PHASES, 3, 105),
    // Several heights, and replicas that are mute.
    (REFUSALS, 0, 25),
    (FOUR_HEIGHTS, 1, 218),
    (NO_LEAF_LEFT, 0, 542),
    (NO_LEAVES_FOR_FOUR, 0, 157),
];

/// The index of the first script that isn't followed so, if there is one.
fn first_wrong_script(alloc: Global, random: RandomState) -> Result<Option<usize>, Fault> {
    for (index, &(script, replica, entries)) in CASES.iter().enumerate() {
        if !is_script_followed(alloc, random, script, replica, entries)? {
            return Ok(Some(index));
        }
    }
    Ok(None)
}

/// Whether a follower that has this verifier takes the whole history.
fn is_followed_with(
    alloc: Global,
    random: RandomState,
    told: &Snapshot,
    verifier: &mut Verifier,
) -> Result<bool, Fault>
    requires { verifier.old.ring ≡ told.now.ring }
    ensures { verifier.new.ring ≡ told.now.ring }
{
    let mut follower = new_follower(alloc, random, told)?;
    follower.swap_verifier(verifier);
    let is_followed = takes_all(&mut follower, alloc, told.history.entries.as_slice());
    follower.swap_verifier(verifier);
    Ok(is_followed?)
}

/// How many signatures two followers hash that take the same history one after the other with one verifier: by the end of the
/// first, and by the end of the second; `None` if a follower refuses an entry.
fn hashes_of_two(
    alloc: Global,
    random: RandomState,
    told: &Snapshot,
) -> Result<Option<(u64, u64)>, Fault> {
    let mut verifier = Verifier::new(alloc, told.ring.copy()?, random)?;
    let first = is_followed_with(alloc, random, told, &mut verifier)?;
    let hashed = verifier.computed();
    let second = is_followed_with(alloc, random, told, &mut verifier)?;
    if first && second {
        Ok(Some((hashed, verifier.computed())))
    } else {
        Ok(None)
    }
}

/// That of the history of replica 0 after the plain run.
fn hashes_of_plain(alloc: Global, random: RandomState) -> Result<Option<(u64, u64)>, Fault> {
    let simulation = played(alloc, random, PLAIN)?;
    let told = history_of(&simulation, 0)?;
    hashes_of_two(alloc, random, &told)
}

#[test]
fn followers_that_share_a_verifier_hash_a_signature_once(rt: HostRuntime) -> Result<(), Fail> {
    let random = RandomState::new(&rt)?;
    let hashes = hashes_of_plain(rt.alloc(), random)?;
    assert!(rt; matches!(hashes, Some((first, second)) if first > 0 && first == second));
    Ok(())
}

#[test]
fn each_run_is_followed_exactly(rt: HostRuntime) -> Result<(), Fail> {
    let random = RandomState::new(&rt)?;
    assert_eq!(rt; first_wrong_script(rt.alloc(), random)?, None);
    Ok(())
}
