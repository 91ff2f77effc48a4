//! The byte strings of a history: each different one is stored once, however often it comes.
use crate::fault::Fault;
use crate::playing::{play, played};
use crate::scripts::FIRST_ROUND;
use app_kinds::AnyKind;
use bytes::Bytes;
use ledger_model::ReplicaId;
use locked_replica::State;
use scenario_texts::Command;
use simulation::Simulation;
use std::alloc::Global;
use std::hash::RandomState;
use std::test::Fail;

/// The numbers of replica 1's entries and of its strings.
fn numbers_of(simulation: &Simulation<AnyKind>) -> Result<(usize, usize), Fault> {
    match simulation.world().state(ReplicaId::new(1)) {
        Some(state) => Ok((state.len(), state.strings())),
        None => Err(Fault::NoHistory),
    }
}

/// The string at a position.
fn string_of(alloc: Global, state: &State<AnyKind>, position: usize) -> Result<Bytes, Fault> {
    match state.string(position) {
        Some(string) => Ok(Bytes::copy_from_slice(alloc, string)?),
        None => Err(Fault::NoFrame),
    }
}

/// The report of replica 0, its first string.
fn report_of(alloc: Global, simulation: &Simulation<AnyKind>) -> Result<Bytes, Fault> {
    match simulation.world().state(ReplicaId::new(0)) {
        Some(state) => string_of(alloc, state, 0),
        None => Err(Fault::NoHistory),
    }
}

/// Delivers bytes to replica 1.
fn inject(simulation: &mut Simulation<AnyKind>, bytes: Bytes) -> Result<(), Fault> {
    Ok(play(simulation, &Command::Inject { to: 1, bytes })?)
}

/// Delivers the report of replica 0 to replica 1 once more.
fn repeat_report(alloc: Global, simulation: &mut Simulation<AnyKind>) -> Result<(), Fault> {
    let report = report_of(alloc, simulation)?;
    inject(simulation, report)
}

/// The numbers after the first round, after a report came again, and after other bytes came.
fn numbers_in_first_round(
    alloc: Global,
    random: RandomState,
) -> Result<[(usize, usize); 3], Fault> {
    let mut simulation = played(alloc, random, FIRST_ROUND)?;
    let first = numbers_of(&simulation)?;
    repeat_report(alloc, &mut simulation)?;
    let second = numbers_of(&simulation)?;
    inject(&mut simulation, Bytes::from_static(b"a"))?;
    Ok([first, second, numbers_of(&simulation)?])
}

// The entries: a submit, a proposal, a round end and three reports. The strings: its own report and those three.
#[test]
fn a_repeated_report_is_stored_once(rt: HostRuntime) -> Result<(), Fail> {
    let random = RandomState::new(&rt)?;
    assert!(rt; numbers_in_first_round(rt.alloc(), random)? == [(6, 4), (7, 4), (8, 5)]);
    Ok(())
}
