//! Takes the turns of a worker, publishes its replica's height, and reads which heights all replicas committed.
ghost use Rattle.std.specs.Prelude.{◌≡◌, ◌≤◌, ◌+◌, None, max, length, IfErr, IfOk, MatchOption, OnOk};
ghost use Rattle.std.specs.Arc.{arc_value};
ghost use Rattle.ledger_model.specs.Lawful.{clock_at};
ghost use Rattle.ledger_model.specs.Limits.{max_history_len};
ghost use Rattle.commit_board.specs.Seats.{IsLeastRead};
ghost use Rattle.locked_replica.specs.Applying.{AppliesEach, AppliesSome, IsSound};
ghost use Rattle.replica_turns.specs.Turns.{IsStatusOf, height_in};
ghost use Rattle.replica_turns.specs.OwnEvents.{own_of};

use abci::Application;
use commit_board::{Board, ReaderSeat, WriterSeat};
use ledger_model::{ApplyFault, Event, Height, ReplicaId};
use locked_replica::State;
use replica_turns::{OwnEvents, ReplicaStatus, own_of, turn};
use std::sync::Arc;

/// A board with the right to raise the word of one replica, and to read all.
#[derive(Drop)]
pub(crate) struct TurnTaker {
    board: Arc<Board>,
    seat: WriterSeat,
    reader: ReaderSeat,
    ghost tied: { seat.board ≡ arc_value board },
    ghost reads: { reader.board ≡ arc_value board },
}

/// What a worker sees before a turn.
#[derive(Clone, Copy, Drop)]
pub(crate) struct Look {
    /// The round that the replica has open.
    pub(crate) round: u32,
    /// A height that all replicas committed.
    pub(crate) least: Height,
    /// What the replica does by itself next.
    pub(crate) own: OwnEvents,
}

/// The outcome of a turn.
#[derive(Clone, Copy, Drop)]
pub(crate) struct TurnOutcome {
    /// The previous length of the history, which is the index of the first new entry.
    pub(crate) first: usize,
    /// The number of events that were taken: all, or those before the one that was refused.
    pub(crate) taken: usize,
    /// The number of events that were offered: all, or those up to the one that was refused.
    pub(crate) offered: usize,
    /// Why an event was refused, if one was.
    pub(crate) fault: Option<ApplyFault>,
    /// The status of the replica after the turn.
    pub(crate) status: ReplicaStatus,
    ghost few: { taken ≤ max_history_len },
}

impl TurnTaker {
    pub(crate) fn new(board: Arc<Board>, seat: WriterSeat, reader: ReaderSeat) -> Self
        requires seat { seat.board ≡ arc_value board }
        requires reader { reader.board ≡ arc_value board }
        ensures { result.seat ≡ seat }
    {
        TurnTaker {
            board,
            seat,
            reader,
        }
    }

    /// The replica whose word it raises.
    pub(crate) fn replica(&self) -> ReplicaId
        ensures { result ≡ self.now.seat.replica }
    {
        self.seat.replica()
    }

    /// The least height that it reads of all replicas. A replica's `turn` publishes only what it committed.
    fn least(&mut self) -> Height
        ensures read { IsLeastRead self.old.reader self.new.reader (arc_value self.old.board) result }
        ensures seat { self.new.seat ≡ self.old.seat }
    {
        self.board.least(&mut self.reader)
    }

    /// The replica's round, the least height that this call reads of all replicas, and what the replica does by itself next, by that height.
    /// `proposed` is the greatest height that the replica has proposed, `ran_in` the round in which it ran its last block.
    pub(crate) fn look<A: Application>(
        &mut self,
        state: &State<A>,
        proposed: u32,
        ran_in: u32,
    ) -> Look
        ensures round { result.round ≡ clock_at state.now.entries }
        ensures read { IsLeastRead self.old.reader self.new.reader (arc_value self.old.board) result.least }
        ensures own { result.own ≡ own_of A.meaning state.now proposed ran_in result.least }
        ensures seat { self.new.seat ≡ self.old.seat }
    {
        let least = self.least();
        Look {
            round: state.clock(),
            least,
            own: own_of(state, proposed, ran_in, least),
        }
    }

    /// A turn of this replica with these events. Another replica gets none.
    fn give<A: Application>(
        &mut self,
        state: &mut State<A>,
        events: Vec<Event>,
    ) -> Result<usize, ApplyFault>
        ensures index { IfOk result (λ index. index ≡ length state.old.entries) }
        ensures applied { state.old.id ≡ self.old.seat.replica → OnOk result (AppliesEach A.meaning state.old events.items state.new) }
        ensures refused { IfErr result (λ why. (state.old.id ≡ self.old.seat.replica)
            × AppliesSome A.meaning state.old events.items why state.new) }
        ensures other { (state.old.id ≡ self.old.seat.replica → ⊥) → state.new ≡ state.old }
        ensures grows { length state.old.entries ≤ length state.new.entries }
        ensures sound { IsSound A.meaning state.new }
        ensures reader { self.new.reader ≡ self.old.reader }
        // The replica's committed height is published.
        ensures seat { state.old.id ≡ self.old.seat.replica
            → self.new.seat ≡ record self.old.seat { height = max self.old.seat.height (height_in state.new) } }
        ensures idle { (state.old.id ≡ self.old.seat.replica → ⊥) → self.new.seat ≡ self.old.seat }
    {
        if state.id() != self.seat.replica() {
            return Ok(state.len());
        }
        turn(state, events, &self.board, &mut self.seat)
    }

    /// A turn of this replica. If `state` is another replica, it takes no event, and all count as offered.
    pub(crate) fn turn<A: Application>(
        &mut self,
        state: &mut State<A>,
        events: Vec<Event>,
    ) -> TurnOutcome
        ensures first { result.first ≡ length state.old.entries }
        ensures taken { length state.old.entries + result.taken ≡ length state.new.entries }
        ensures offered { MatchOption result.fault (result.offered ≡ length events.items) (λ _. result.offered ≡ result.taken + 1) }
        // The events are applied in order: all, or those before the one that was refused.
        ensures events { state.old.id ≡ self.old.seat.replica
            → MatchOption result.fault (AppliesEach A.meaning state.old events.items state.new)
            (λ why. AppliesSome A.meaning state.old events.items why state.new) }
        ensures other { (state.old.id ≡ self.old.seat.replica → ⊥) → (state.new ≡ state.old) × (result.fault ≡ None) }
        ensures sound { IsSound A.meaning state.new }
        ensures reader { self.new.reader ≡ self.old.reader }
        // The replica's committed height is published.
        ensures seat { state.old.id ≡ self.old.seat.replica
            → self.new.seat ≡ record self.old.seat { height = max self.old.seat.height (height_in state.new) } }
        ensures idle { (state.old.id ≡ self.old.seat.replica → ⊥) → self.new.seat ≡ self.old.seat }
        ensures status { IsStatusOf state.new result.status }
    {
        let first = state.len();
        let count = events.len();
        let fault = self.give(state, events).err();
        let taken = state.len() - first;
        TurnOutcome {
            first,
            taken,
            offered: if fault.is_some() { taken + 1 } else { count },
            fault,
            status: ReplicaStatus::of(state),
        }
    }
}
