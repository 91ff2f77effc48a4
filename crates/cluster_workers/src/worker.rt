//! The worker of one replica: what it does in one pass of its loop, and the loop.
ghost use Rattle.replica_turns.specs.OwnEvents.{own_events, without_empty_block};
ghost use Rattle.std.specs.Prelude.{◌≡◌, ◌≤◌, true, false, map, vec_len, IfOk, IfSome};
ghost use Rattle.verify_cache.specs.Checks.{is_part_signed};

use crate::gate::TurnGate;
use crate::inboxes::{Receiver, Sender};
use crate::round_clock::{Progress, RoundClock};
use crate::sending::send;
use crate::stop::Stop;
use crate::turn_taker::{Look, TurnOutcome, TurnTaker};
use crate::work_plan::WorkPlan;
use abci::Application;
use bytes::Bytes;
use key_ring::KeyRing;
use ledger_model::{ApplyFault, Event, ReplicaId, Sent, Version};
use locked_replica::{LockedReplica, State};
use replica_turns::{
    OwnEvents, WaitingFrames, arrived_frames, deliveries_of, keep_checked, sent_at, unknown_parts,
    unknown_reports,
};
use signed_frames::{Frame, SignedPart};
use std::alloc::{AllocError, Global};
use std::marker::Model;
use std::mem;
use std::sync::{Arc, Wait};
use std::thread::Threads;
use verify_pool::{NoGate, verify_all};

/// The number of threads that check the signatures of the frames of one turn, this worker's among them.
const CHECKERS: u8 = 2;

/// The worker of one replica. A thread of its own runs it.
pub struct Worker<A: Application> {
    alloc: Global,
    /// The version of the cluster's frames.
    version: Version,
    replica: Arc<LockedReplica<A>>,
    turn_taker: TurnTaker,
    receiver: Receiver,
    senders: Vec<Sender>,
    /// The keys under which frames are checked before a turn.
    ring: Arc<KeyRing>,
    plan: WorkPlan,
    /// The number of rounds that have ended, including those whose end was refused.
    ended: u32,
    /// The greatest height that was proposed.
    proposed: u32,
    /// The round in which the replica ran its last block.
    ran_in: u32,
    /// The frames for the next turns, and those that wait for the next round.
    frames: WaitingFrames,
    /// The number of frames that were put into inboxes since the clock was last asked.
    sent: usize,
    /// Whether the history is full: the replica takes no more events.
    is_full: bool,
    /// Whether memory ran out in the last turn with frames.
    is_short: bool,
    /// Whether memory ran out since the last notice of it to the gate, and an event or frames were lost.
    has_lost: bool,
}

impl<A: Application> Model for Worker<A> {
    ghost use Rattle.cluster_workers.specs.RunningClusters.{WorkerView};

    ghost Value = { WorkerView };

    ghost view = { λ w. record {
      board = w.turn_taker.seat.board;
      replica = w.turn_taker.seat.replica;
      version = w.version;
      plan = w.plan;
      inbox = w.receiver;
      peers = w.senders.items;
      ended = w.ended;
      proposed = w.proposed;
      ran_in = w.ran_in;
      is_full = w.is_full;
    } };
}

// An own `Drop` keeps proofs short: an owner drops it by one call. See docs/WORKING.md.
impl<A: Application> Drop for Worker<A> {
    fn drop(self) {
        let Worker {
            alloc: _alloc,
            version: _version,
            replica: _replica,
            turn_taker: _turn_taker,
            receiver: _receiver,
            senders: _senders,
            ring: _ring,
            plan: _plan,
            ended: _ended,
            proposed: _proposed,
            ran_in: _ran_in,
            frames: _frames,
            sent: _sent,
            is_full: _is_full,
            is_short: _is_short,
            has_lost: _has_lost,
        } = self;
    }
}

/// What one pass of a worker's loop did.
#[derive(Clone, Copy, Drop)]
struct Pass {
    is_idle: bool,
    has_run: bool,
}

/// Takes at most `most` frames from an inbox. The only error is allocation failure, before the first is taken: they wait in the inbox.
fn take_frames<R: Wait>(
    rt: &R,
    alloc: Global,
    receiver: &mut Receiver,
    most: usize,
) -> Result<Vec<Bytes>, AllocError>
    ensures { IfOk result (λ frames. vec_len frames ≤ most) }
{
    let mut frames = Vec::with_capacity(alloc, most)?;
    for _taken in 0..most {
        let Some(frame) = receiver.take(rt) else {
            break;
        };
        frames.push(frame)?;
    }
    Ok(frames)
}

/// Whether each of these parts is signed, in order, checked without the lock of any replica. `None` if there are no parts, or if memory
/// runs out.
fn answers_of<R: Threads + Sync>(
    rt: &R,
    alloc: Global,
    ring: &KeyRing,
    parts: &[SignedPart<'_>],
) -> Option<Vec<bool>>
    ensures { IfSome result (λ answers. answers.items ≡ map (is_part_signed ring.now) parts.now) }
{
    if parts.is_empty() {
        return None;
    }
    verify_all(rt, alloc, ring, parts, CHECKERS, &NoGate).ok()
}

/// What a replica does of this by the plan, while these frames wait for it, and the events of that.
fn planned(
    plan: WorkPlan,
    version: Version,
    alloc: Global,
    due: &[Bytes],
    own: OwnEvents,
) -> Result<(OwnEvents, Vec<Event>), AllocError>
    ensures all { plan.creates_empty_blocks ≡ true → IfOk result (λ planned. planned.0 ≡ own) }
    ensures filled { plan.creates_empty_blocks ≡ false → IfOk result (λ planned. planned.0 ≡ without_empty_block version due.now own) }
    ensures events { IfOk result (λ planned. planned.1.items ≡ own_events planned.0) }
{
    let own = if plan.creates_empty_blocks {
        own
    } else {
        own.without_empty_block(version, alloc, due)?
    };
    let events = own.events(alloc)?;
    Ok((own, events))
}

impl<A: Application> Worker<A> {
    pub(crate) fn new(
        alloc: Global,
        version: Version,
        replica: Arc<LockedReplica<A>>,
        turn_taker: TurnTaker,
        receiver: Receiver,
        senders: Vec<Sender>,
        ring: Arc<KeyRing>,
        plan: WorkPlan,
    ) -> Self
        ensures { result ≡ record {
          board = turn_taker.seat.board;
          replica = turn_taker.seat.replica;
          version = version;
          plan = plan;
          inbox = receiver;
          peers = senders.items;
          ended = 0;
          proposed = 0;
          ran_in = 0;
          is_full = false;
        } }
    {
        Worker {
            alloc,
            version,
            replica,
            turn_taker,
            receiver,
            senders,
            ring,
            plan,
            ended: 0,
            proposed: 0,
            ran_in: 0,
            frames: WaitingFrames::new(alloc),
            sent: 0,
            is_full: false,
            is_short: false,
            has_lost: false,
        }
    }

    /// The number of its replica.
    pub fn replica(&self) -> ReplicaId
        ensures { result ≡ self.now.replica }
    {
        self.turn_taker.replica()
    }

    /// What the worker sees of its replica, under its lock, and of the board.
    fn look<R: Wait>(&mut self, rt: &R) -> Look {
        let state = self.replica.lock(rt);
        self.turn_taker.look(&*state, self.proposed, self.ran_in)
    }

    /// The frames' own parts of which the replica doesn't know whether they are signed; none if memory runs out.
    fn unknown_parts<'a>(&self, state: &State<A>, frames: &'a [Frame]) -> Vec<SignedPart<'a>> {
        match unknown_parts(self.alloc, state.verifier(), frames) {
            Ok(parts) => parts,
            Err(_) => Vec::new(self.alloc),
        }
    }

    /// The same for the reports in the proofs of the locks that the replica knows to be signed.
    fn unknown_reports<'a>(&self, state: &State<A>, frames: &'a [Frame]) -> Vec<SignedPart<'a>> {
        match unknown_reports(self.alloc, state.config(), state.verifier(), frames) {
            Ok(parts) => parts,
            Err(_) => Vec::new(self.alloc),
        }
    }

    /// Checks these parts of the frames, and passes the answers to the replica. Returns the reports in the frames' proofs that are to be
    /// checked next.
    fn check_own<'a, R: Threads + Wait + Sync>(
        &self,
        rt: &R,
        frames: &'a [Frame],
        parts: &[SignedPart<'_>],
    ) -> Vec<SignedPart<'a>> {
        let ring = &*self.ring;
        let answers = answers_of(rt, self.alloc, ring, parts);
        let mut state = self.replica.lock(rt);
        if let Some(answers) = answers {
            state.prime(ring, parts, &answers);
        }
        self.unknown_reports(&*state, frames)
    }

    /// Checks the reports.
    fn check_reports<R: Threads + Wait + Sync>(&self, rt: &R, reports: &[SignedPart<'_>]) {
        let ring = &*self.ring;
        if let Some(answers) = answers_of(rt, self.alloc, ring, reports) {
            let mut state = self.replica.lock(rt);
            state.prime(ring, reports, &answers);
        }
    }

    /// Checks the signatures of the frames, and then those in the proofs of the frames that are signed, as the replica would
    /// at their delivery, but while other threads may use it. Without memory it leaves the checks to the replica's turn.
    fn check<R: Threads + Wait + Sync>(&self, rt: &R, arrived: &[Bytes]) {
        let Ok(mut frames) = arrived_frames(self.version, self.alloc, arrived) else {
            return;
        };
        if frames.is_empty() {
            return;
        }
        let parts = {
            let state = self.replica.lock(rt);
            keep_checked(&*state, &mut frames);
            self.unknown_parts(&*state, &frames)
        };
        if frames.is_empty() {
            return;
        }
        let reports = self.check_own(rt, &frames, &parts);
        self.check_reports(rt, &reports);
    }

    /// Takes as many frames from the inbox as there is room for, while the round `clock` is open. Returns how many it took.
    fn take_in<R: Wait>(&mut self, rt: &R, clock: u32) -> usize {
        let room = self.frames.room();
        let Ok(frames) = take_frames(rt, self.alloc, &mut self.receiver, room) else {
            return 0;
        };
        let taken = frames.len();
        let done = self.frames.take_in(self.version, self.alloc, clock, frames);
        if done.is_err() {
            self.has_lost = true;
        }
        taken
    }

    /// A turn of the replica, under its lock.
    fn turn<R: Wait, G: TurnGate>(&mut self, rt: &R, gate: &G, events: Vec<Event>) -> TurnOutcome {
        let id = self.turn_taker.replica();
        gate.before(id);
        let outcome = self.turn_locked(rt, events);
        gate.after(id, outcome.status);
        outcome
    }

    fn turn_locked<R: Wait>(&mut self, rt: &R, events: Vec<Event>) -> TurnOutcome {
        let mut state = self.replica.lock(rt);
        self.turn_taker.turn(&mut *state, events)
    }

    /// Records why an event was refused, if one was. If the history is full, all waiting frames are dropped.
    fn note_fault(&mut self, fault: Option<ApplyFault>) {
        match fault {
            Some(ApplyFault::HistoryFull) => {
                self.is_full = true;
                self.frames.give_up_all();
            }
            Some(ApplyFault::NoMemory) => self.has_lost = true,
            None => {}
        }
    }

    /// The same after a turn with frames, of which the first `offered` were offered, and are dropped. If memory runs out in the
    /// second such turn in a row, all waiting frames are dropped.
    fn note_frames(&mut self, fault: Option<ApplyFault>, offered: usize) {
        self.note_fault(fault);
        let is_short = fault == Some(ApplyFault::NoMemory);
        if is_short && self.is_short {
            self.frames.give_up_all();
        } else {
            self.frames.give_up(offered);
        }
        self.is_short = is_short;
    }

    /// Gives the replica a turn with what it does by itself, if that is anything. A refused event and those after it are
    /// dropped: the next pass plans them anew. Returns the number of events that were taken.
    fn act<R: Wait, G: TurnGate>(&mut self, rt: &R, gate: &G, round: u32, own: OwnEvents) -> usize {
        let planned = planned(self.plan, self.version, self.alloc, self.frames.due(), own);
        let Ok((own, events)) = planned else {
            self.note_fault(Some(ApplyFault::NoMemory));
            return 0;
        };
        if events.is_empty() {
            return 0;
        }
        let outcome = self.turn(rt, gate, events);
        self.proposed = own.proposed_after(self.proposed, outcome.taken);
        self.ran_in = own.ran_in_after(self.ran_in, round, outcome.taken);
        self.note_fault(outcome.fault);
        outcome.taken
    }

    /// Gives the replica a turn with the first 64 of the waiting frames, whose signatures are checked before. A refused frame
    /// is dropped, and those after it wait for the next turn. Returns the number of frames that were taken.
    fn hand_over_next<R: Threads + Wait + Sync, G: TurnGate>(&mut self, rt: &R, gate: &G) -> usize {
        self.check(rt, self.frames.first_due());
        let Ok(events) = deliveries_of(self.alloc, self.frames.first_due()) else {
            self.note_frames(Some(ApplyFault::NoMemory), 0);
            return 0;
        };
        let outcome = self.turn(rt, gate, events);
        self.note_frames(outcome.fault, outcome.offered);
        outcome.taken
    }

    /// Gives the replica the waiting frames in turns of at most 64: other threads may use the replica between them. After a
    /// turn that lacks memory the other frames wait. Returns the number of frames that were taken.
    fn hand_over<R: Threads + Wait + Sync, G: TurnGate>(&mut self, rt: &R, gate: &G) -> usize {
        let mut taken = 0usize;
        for _turn in 0..WaitingFrames::MAX_TURNS {
            if self.frames.due().is_empty() {
                break;
            }
            let next = self.hand_over_next(rt, gate);
            taken = taken.saturating_add(next);
            if self.is_short {
                break;
            }
        }
        taken
    }

    /// The frames of an entry.
    fn sent_at<R: Wait>(&self, rt: &R, index: usize) -> Result<Vec<Sent>, AllocError> {
        let state = self.replica.lock(rt);
        sent_at(self.alloc, &*state, index)
    }

    /// Ends the round of the replica. The frames that waited for the next round are due then, and those that the replica sends
    /// go into the inboxes of their addressees. If the end is refused, the round stays open, and early frames go on waiting.
    fn end_round<R: Wait, G: TurnGate>(&mut self, rt: &R, gate: &G) {
        self.ended = self.ended.saturating_add(1);
        let Ok(events) = vec![in self.alloc; Event::RoundEnd] else {
            self.note_fault(Some(ApplyFault::NoMemory));
            return;
        };
        let outcome = self.turn(rt, gate, events);
        self.note_fault(outcome.fault);
        if outcome.taken > 0 {
            if self.frames.open_round().is_err() {
                self.has_lost = true;
            }
            self.send_all(rt, outcome.first);
        }
    }

    /// Puts the frames of an entry into the inboxes of their addressees.
    fn send_all<R: Wait>(&mut self, rt: &R, index: usize) {
        let from = self.turn_taker.replica();
        let Ok(frames) = self.sent_at(rt, index) else {
            self.has_lost = true;
            return;
        };
        for sent in frames {
            let outcome = send(rt, &mut self.senders, from, &sent);
            self.sent = self.sent.saturating_add(outcome.put);
            self.has_lost = self.has_lost || outcome.is_short;
        }
    }

    /// One pass of the loop. What the replica does by itself has a turn before the frames: it may open the height that they
    /// are of, and only then does the replica want their signatures checked. The pass ends a round if one is due and may end.
    fn pass<R: Threads + Wait + Sync, C: RoundClock, G: TurnGate>(
        &mut self,
        rt: &R,
        clock: &C,
        gate: &G,
        may_end: bool,
    ) -> Pass {
        let Look { round, least, own } = self.look(rt);
        let taken = self.take_in(rt, round);
        let done = self.act(rt, gate, round, own);
        let delivered = self.hand_over(rt, gate);
        let progress = Progress {
            taken,
            sent: mem::replace(&mut self.sent, 0),
            events: done.saturating_add(delivered),
            least: least.number(),
        };
        let is_due = may_end && clock.is_due(self.turn_taker.replica(), self.ended, progress);
        if is_due {
            self.end_round(rt, gate);
        }
        Pass {
            is_idle: !is_due && progress.is_idle(),
            has_run: own.is_decided && done > 0,
        }
    }

    /// Tells the gate if memory ran out and something was lost.
    fn tell_loss<G: TurnGate>(&mut self, gate: &G) {
        if mem::replace(&mut self.has_lost, false) {
            gate.lack(self.turn_taker.replica());
        }
    }

    /// One pass while the history is full: the replica takes no events, and its rounds are only counted.
    fn pass_full<C: RoundClock>(&mut self, clock: &C, may_end: bool) -> Pass {
        let progress = Progress {
            taken: 0,
            sent: mem::replace(&mut self.sent, 0),
            events: 0,
            least: 0,
        };
        let is_due = may_end && clock.is_due(self.turn_taker.replica(), self.ended, progress);
        if is_due {
            self.ended = self.ended.saturating_add(1);
        }
        Pass {
            is_idle: !is_due,
            has_run: false,
        }
    }

    /// Runs until the rounds are over, or the cluster is asked to stop, and then runs the blocks that are already decided.
    pub fn run<R: Threads + Wait + Sync, C: RoundClock, G: TurnGate>(
        mut self,
        rt: &R,
        clock: &C,
        gate: &G,
        stop: &Stop,
    ) {
        for _ in rt.forever() {
            let rings = self.receiver.rings();
            let may_end = self.ended < self.plan.rounds && !stop.is_asked();
            let pass = if self.is_full {
                self.pass_full(clock, may_end)
            } else {
                self.pass(rt, clock, gate, may_end)
            };
            self.tell_loss(gate);
            if !may_end && !pass.has_run {
                break;
            }
            if pass.is_idle {
                self.receiver.sleep(rt, rings, clock.pause(self.ended));
            }
        }
    }
}
