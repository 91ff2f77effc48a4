//! A history that takes no entry more: the steps of one call of `World::run` fill it, and the next step is refused.
use crate::fault::Fault;
use crate::world_tests::{histories, new_world};
use adversary_net::World;
use app_kinds::AnyKind;
use bytes::Bytes;
use ledger_model::{Ignored, ReplicaId, WorldRefusal, WorldReply, WorldStep};
use locked_replica::{ReplyView, State};
use std::alloc::{AllocError, Global};
use std::hash::RandomState;
use std::test::Fail;

/// The most entries of a history.
const ENTRIES: usize = 65_536;

/// The replica whose history is filled.
fn replica() -> ReplicaId {
    ReplicaId::new(0)
}

/// Injections of no bytes.
fn injections(alloc: Global, count: usize) -> Result<Vec<WorldStep>, AllocError> {
    let mut steps = Vec::with_capacity(alloc, count)?;
    for _ in 0..count {
        steps.push(WorldStep::Inject {
            to: replica(),
            bytes: Bytes::from_static(b""),
        })?;
    }
    Ok(steps)
}

/// Runs this number of injections in one call. Returns how many replies there are, and the last.
fn inject(
    alloc: Global,
    world: &mut World<AnyKind>,
    count: usize,
) -> Result<(usize, Option<WorldReply>), AllocError> {
    let replies = world.run(&injections(alloc, count)?)?;
    Ok((replies.len(), replies.last().copied()))
}

/// Whether the entry is a delivery of no bytes that was ignored as no frame.
fn is_malformed(state: &State<AnyKind>, index: usize) -> bool {
    match state.entry(index) {
        Some(entry) => matches!(entry.reply(), ReplyView::Delivered(Err(Ignored::Malformed))),
        None => false,
    }
}

/// Whether the history is full, and its last entry is such a delivery.
fn is_filled(world: &World<AnyKind>) -> bool {
    match world.state(replica()) {
        Some(state) => state.len() == ENTRIES && is_malformed(state, ENTRIES - 1),
        None => false,
    }
}

/// Whether the injections all become entries, and the last is stored as ignored.
fn fills(alloc: Global, world: &mut World<AnyKind>) -> Result<bool, Fault> {
    let done = WorldReply::Done(replica(), ENTRIES - 1);
    Ok(inject(alloc, world, ENTRIES)? == (ENTRIES, Some(done)) && is_filled(world))
}

/// Whether one injection more is refused, and leaves every history as it was.
fn refuses(alloc: Global, world: &mut World<AnyKind>) -> Result<bool, Fault> {
    let before = histories(alloc, world)?;
    let full = WorldReply::Refused(WorldRefusal::HistoryFull);
    let is_refused = inject(alloc, world, 1)? == (1, Some(full));
    Ok(is_refused && histories(alloc, world)? == before)
}

#[test]
fn a_full_history_takes_no_step(rt: HostRuntime) -> Result<(), Fail> {
    let alloc = rt.alloc();
    let mut world = new_world(alloc, RandomState::new(&rt)?)?;
    assert!(rt; fills(alloc, &mut world)?);
    assert!(rt; refuses(alloc, &mut world)?);
    Ok(())
}
