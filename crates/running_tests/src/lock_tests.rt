//! Two threads that lock a replica each, at the same time.
use crate::meeting_gate::meet;
use crate::replicas::{four, replicas};
use app_kinds::AnyKind;
use ledger_model::Event;
use locked_replica::{LockedReplica, State};
use std::alloc::Global;
use std::random::RandomSource;
use std::sync::atomic::AtomicBool;
use std::sync::{Mutex, Wait};
use std::test::Fail;
use std::thread;

/// Applies an event to the replica, and waits for the other thread's flag, under the lock.
fn apply_and_meet<R: Wait>(
    rt: &R,
    replica: &LockedReplica<AnyKind>,
    own: &AtomicBool,
    other: &AtomicBool,
) -> bool {
    let mut state = replica.lock(rt);
    let is_taken = state.apply(Event::RoundEnd).is_ok();
    meet(own, other) && is_taken
}

/// The last of these replicas, behind its lock.
fn last(states: &mut Vec<State<AnyKind>>) -> Result<LockedReplica<AnyKind>, Fail> {
    match states.pop() {
        Some(state) => Ok(Mutex::new(state)),
        None => Err(Fail::from("a replica is missing")),
    }
}

/// Two replicas of a cluster, each behind its lock.
fn two<R: RandomSource>(
    rt: &R,
    alloc: Global,
) -> Result<(LockedReplica<AnyKind>, LockedReplica<AnyKind>), Fail> {
    let mut states = replicas(rt, alloc, &four()?)?;
    let first = last(&mut states)?;
    let second = last(&mut states)?;
    Ok((first, second))
}

#[test]
fn two_threads_change_two_replicas_at_once(rt: HostRuntime) -> Result<(), Fail> {
    let (first, second) = two(&rt, rt.alloc())?;
    let (one, two) = (AtomicBool::new(false), AtomicBool::new(false));
    let (is_first, is_second) = thread::join(
        &rt,
        || apply_and_meet(&rt, &first, &one, &two),
        || apply_and_meet(&rt, &second, &two, &one),
    );
    assert!(rt; is_first && is_second);
    Ok(())
}
