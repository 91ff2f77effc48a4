//! Locks that are delivered in another phase, or whose proof has a report of another height.
use crate::fault::Fault;
use crate::following::is_followed;
use crate::frames::{Head, frame_of, signed_by_one};
use crate::playing::{cluster_of, history_in, history_of, play, played, scenario_of};
use crate::refusing::refuses_changes_at;
use crate::scripts::{LOCKS_DUE, Script, TWELVE_ROUNDS, TWENTY_TWO_ROUNDS};
use app_kinds::AnyKind;
use bytes::Bytes;
use ledger_model::{Entry, Ignored, Reply};
use locked_replica::Snapshot;
use scenario_texts::Command;
use simulation::Simulation;
use std::alloc::Global;
use std::hash::RandomState;
use std::test::Fail;
use test_support::lock_bytes;

/// Whether the last entry gives this answer to a frame.
fn ends_with(entries: &[Entry], answer: Result<(), Ignored>) -> bool {
    match entries.last() {
        Some(entry) => match &entry.reply {
            Reply::Delivered(given) => *given == answer,
            _ => false,
        },
        None => false,
    }
}

/// Whether the history ends with this answer to a frame, and a follower takes it and refuses each change of the answer.
fn is_answered(
    alloc: Global,
    random: RandomState,
    told: &Snapshot,
    answer: Result<(), Ignored>,
) -> Result<bool, Fault> {
    let entries = told.history.entries.as_slice();
    if !ends_with(entries, answer) || !is_followed(alloc, random, told)? {
        return Ok(false);
    }
    refuses_changes_at(alloc, random, told, entries.len().saturating_sub(1))
}

/// The replica's history after the script and the command were played.
fn history_behind(
    alloc: Global,
    random: RandomState,
    script: Script,
    command: &Command,
    replica: u8,
) -> Result<Snapshot, Fault> {
    let mut simulation = played(alloc, random, script)?;
    play(&mut simulation, command)?;
    history_of(&simulation, replica)
}

/// The replica's history after the script was played and a frame was delivered to it.
fn history_behind_frame(
    alloc: Global,
    random: RandomState,
    script: Script,
    bytes: Bytes,
    to: u8,
) -> Result<Snapshot, Fault> {
    let command = Command::Inject {
        to: u32::from(to),
        bytes,
    };
    history_behind(alloc, random, script, &command, to)
}

/// Whether the replica gives this answer to a frame that follows the script, and followers agree.
fn answers(
    alloc: Global,
    random: RandomState,
    script: Script,
    bytes: Bytes,
    to: u8,
    answer: Result<(), Ignored>,
) -> Result<bool, Fault> {
    let told = history_behind_frame(alloc, random, script, bytes, to)?;
    is_answered(alloc, random, &told, answer)
}

/// The frame of the report of a replica at a height, in phase 1.
fn report_in(simulation: &Simulation<AnyKind>, replica: u8, height: u8) -> Result<Bytes, Fault> {
    let told = history_of(simulation, replica)?;
    let head = Head {
        kind: 1,
        height,
        phase: 1,
    };
    frame_of(&told, head)
}

/// Appends the report, which follows the frame's length.
fn add_report(
    statement: &mut Vec<u8>,
    simulation: &Simulation<AnyKind>,
    replica: u8,
    height: u8,
) -> Result<(), Fault> {
    let frame = report_in(simulation, replica, height)?;
    statement.extend_from_slice(frame.get(4..).unwrap_or(&[]))?;
    Ok(())
}

/// Appends the reports of replicas 0, 2 and 3 in the round of locks. The first is on this height.
fn add_reports(
    alloc: Global,
    random: RandomState,
    statement: &mut Vec<u8>,
    height: u8,
) -> Result<(), Fault> {
    let simulation = played(alloc, random, LOCKS_DUE)?;
    for &(replica, height) in &[(0, height), (2, 1), (3, 1)] {
        add_report(statement, &simulation, replica, height)?;
    }
    Ok(())
}

/// The frame of a statement of replica 1 in the round of locks.
fn signed(alloc: Global, statement: &[u8]) -> Result<Bytes, Fault> {
    let scenario = scenario_of(alloc, LOCKS_DUE)?;
    signed_by_one(alloc, &cluster_of(&scenario.setup), statement)
}

/// The frame of a lock of replica 1 on `[a=1]` in phase 1 of height 1. It has three reports, of which the first is on this height.
fn lock_at(alloc: Global, random: RandomState, height: u8) -> Result<Bytes, Fault> {
    let mut statement = Vec::from_slice(alloc, &lock_bytes(1, 1, b'a', 3))?;
    add_reports(alloc, random, &mut statement, height)?;
    signed(alloc, &statement)
}

/// Whether replica 0 gives this answer to the lock with three reports, of which the first is on this height.
fn answers_lock_at(
    alloc: Global,
    random: RandomState,
    height: u8,
    answer: Result<(), Ignored>,
) -> Result<bool, Fault> {
    let lock = lock_at(alloc, random, height)?;
    answers(alloc, random, LOCKS_DUE, lock, 0, answer)
}

/// The frame of the lock of the sixth phase.
fn sixth_lock(alloc: Global, random: RandomState) -> Result<Bytes, Fault> {
    let told = history_in(alloc, random, TWENTY_TWO_ROUNDS, 2)?;
    let head = Head {
        kind: 2,
        height: 1,
        phase: 6,
    };
    frame_of(&told, head)
}

/// Whether replica 3 gives this answer to that lock in the third phase.
fn answers_sixth_lock(
    alloc: Global,
    random: RandomState,
    answer: Result<(), Ignored>,
) -> Result<bool, Fault> {
    let lock = sixth_lock(alloc, random)?;
    answers(alloc, random, TWELVE_ROUNDS, lock, 3, answer)
}

/// The height of the first report, and the answer to the lock.
const HEIGHTS: [(u8, Result<(), Ignored>); 2] = [(1, Ok(())), (2, Err(Ignored::BadProof))];

#[test]
fn a_report_of_another_height_proves_no_lock(rt: HostRuntime) -> Result<(), Fail> {
    let random = RandomState::new(&rt)?;
    for &(height, answer) in &HEIGHTS {
        assert!(rt;
            answers_lock_at(rt.alloc(), random, height, answer)?,
            "{height}"
        );
    }
    Ok(())
}

#[test]
fn a_lock_of_the_sixth_phase_is_early_in_the_third(rt: HostRuntime) -> Result<(), Fail> {
    let random = RandomState::new(&rt)?;
    assert!(rt; answers_sixth_lock(rt.alloc(), random, Err(Ignored::WrongPhase))?);
    Ok(())
}
