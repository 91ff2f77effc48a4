//! What a replica does by itself: it runs the decided block, opens the height after the committed one once all replicas
//! committed that, or after a while, and gives up the heights that all replicas committed.
ghost use Rattle.std.specs.Prelude.{◌≡◌, ◌≤◌, ◌+◌, max, take, IfOk};
ghost use Rattle.ledger_model.specs.Commits.{floor_of};
ghost use Rattle.replica_turns.specs.Turns.{height_in};
ghost use Rattle.replica_turns.specs.OwnEvents.{is_next_decided, may_open_next, raised_floor, own_of, own_events, proposed_in, run_in, without_empty_block};

use crate::early::has_frame_about;
use abci::Application;
use bytes::Bytes;
use ledger_model::{Event, Height, Version};
use locked_replica::State;
use std::alloc::{AllocError, Global};

/// The number of rounds in a phase.
const ROUNDS_IN_PHASE: u32 = 4;

/// What a replica does by itself next.
#[derive(Clone, Copy, Drop)]
pub struct OwnEvents {
    /// Whether it runs the next block.
    pub is_decided: bool,
    /// The height that it opens, if any. It opens none in the turn in which it runs a block.
    pub proposal: Option<Height>,
    /// The floor that it then raises, if any: it gives up all heights below.
    pub floor: Option<Height>,
    /// Whether no transaction waits for a block of the replica: the proposal would have an empty batch.
    pub is_pool_empty: bool,
}

/// Whether the height `next`, which follows the committed one, is decided.
fn is_decided_at<A: Application>(state: &State<A>, next: u32) -> bool
    requires next { next ≡ height_in state.now + 1 }
    requires kept { floor_of state.now.entries ≤ next }
    ensures { result ≡ is_next_decided state.now }
{
    state.decided_at(Height::new(next)).is_some()
}

/// The floor above `least`, if the replica committed that height and didn't give it up before.
fn raised_floor<A: Application>(state: &State<A>, least: Height) -> Option<Height>
    ensures { result ≡ raised_floor state.now least }
{
    let is_kept = state.floor() <= least;
    let is_committed = least.number() <= state.height();
    if is_kept && is_committed {
        Some(Height::new(least.number() + 1))
    } else {
        None
    }
}

/// Whether the replica may open the height after the committed one: all replicas committed that, or 4N rounds of N replicas have ended since
/// this replica committed it, in the round `ran_in`. So a silent replica holds up nobody for longer.
fn may_open_next<A: Application>(state: &State<A>, ran_in: u32, least: Height) -> bool
    ensures { result ≡ may_open_next state.now ran_in least }
{
    let patience = ROUNDS_IN_PHASE * u32::from(state.config().replicas);
    state.height() <= least.number() || patience <= state.clock().saturating_sub(ran_in)
}

/// What the replica does by itself next. `proposed` is the greatest height that it has proposed, `ran_in` the round in which it
/// ran its last block, and `least` a height that all replicas committed.
pub fn own_of<A: Application>(
    state: &State<A>,
    proposed: u32,
    ran_in: u32,
    least: Height,
) -> OwnEvents
    ensures { result ≡ own_of A.meaning state.now proposed ran_in least }
{
    let committed = state.height();
    // The floor is at most one above the committed height: it is read for the proof.
    let _ = state.floor();
    let is_decided = is_decided_at(state, committed + 1);
    let next = committed + 1;
    let is_new = proposed < next && next <= Height::MAX;
    let is_open = !is_decided && is_new && may_open_next(state, ran_in, least);
    OwnEvents {
        is_decided,
        proposal: if is_open {
            Some(Height::new(next))
        } else {
            None
        },
        floor: raised_floor(state, least),
        is_pool_empty: state.waiting() == 0,
    }
}

impl OwnEvents {
    /// What a replica that creates no empty blocks does of this, while these frames wait for it: it opens a height with an empty pool
    /// only if one of them is a frame of this version about that height. It doesn't see a frame that was read before. The only error is
    /// allocation failure.
    pub fn without_empty_block(
        self,
        version: Version,
        alloc: Global,
        frames: &[Bytes],
    ) -> Result<OwnEvents, AllocError>
        ensures { IfOk result (λ own. own ≡ without_empty_block version frames.now self) }
    {
        let Some(height) = self.proposal else {
            return Ok(self);
        };
        if !self.is_pool_empty || has_frame_about(version, alloc, height, frames)? {
            return Ok(self);
        }
        Ok(OwnEvents {
            is_decided: self.is_decided,
            proposal: None,
            floor: self.floor,
            is_pool_empty: self.is_pool_empty,
        })
    }

    /// The round in which the replica ran its last block, once it took the first `taken` events of its turn in this round, given that it
    /// was `before`.
    pub fn ran_in_after(&self, before: u32, round: u32, taken: usize) -> u32
        ensures { result ≡ run_in before round (take taken (own_events self.now)) }
    {
        if self.is_decided && 0 < taken {
            round
        } else {
            before
        }
    }

    /// The greatest height that the replica has proposed once it took the first `taken` events of its turn, given that it
    /// was `before`.
    pub fn proposed_after(&self, before: u32, taken: usize) -> u32
        ensures { result ≡ proposed_in before (take taken (own_events self.now)) }
    {
        match self.proposal {
            Some(height) if usize::from(self.is_decided) < taken => before.max(height.number()),
            _ => before,
        }
    }

    /// The events themselves, in order: at most three. The only error is allocation failure.
    pub fn events(&self, alloc: Global) -> Result<Vec<Event>, AllocError>
        ensures { IfOk result (λ events. events.items ≡ own_events self.now) }
    {
        let mut events = Vec::new(alloc);
        if self.is_decided {
            events.push(Event::Execute)?;
        }
        if let Some(height) = self.proposal {
            events.push(Event::Propose(height))?;
        }
        if let Some(floor) = self.floor {
            events.push(Event::Retire(floor))?;
        }
        Ok(events)
    }
}
