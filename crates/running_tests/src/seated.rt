//! A replica with the right to raise its word of a board, which takes turns.
ghost use Rattle.std.specs.Prelude.{◌≡◌, ◌<◌, ℕ, Some, vec_len, slice_get, IfOk};
ghost use Rattle.commit_board.specs.Seats.{new_writer};

use crate::replicas::{four, replicas};
use app_kinds::AnyKind;
use bytes::Bytes;
use cluster_setup::ClusterSeed;
use commit_board::{Board, WriterSeat};
use ledger_model::{ApplyFault, Event};
use locked_replica::State;
use replica_turns::turn;
use std::alloc::Global;
use std::random::RandomSource;
use std::test::Fail;

/// A replica, a board, and the right to raise this replica's word.
#[derive(Drop)]
pub(crate) struct Seated {
    state: State<AnyKind>,
    board: Board,
    seat: WriterSeat,
    ghost here: { seat.board ≡ board },
    ghost own: { seat.replica ≡ state.id },
}

/// The last of the seats of a board.
fn last_seat(board: &Board, mut seats: Vec<WriterSeat>) -> Result<WriterSeat, Fail>
    requires { (k : ℕ) → k < vec_len seats → slice_get seats.items k ≡ Some (new_writer board.now k) }
    ensures { IfOk result (λ seat. seat.board ≡ board.now) }
{
    match seats.pop() {
        Some(seat) => Ok(seat),
        None => Err(Fail::from("each replica has a seat")),
    }
}

/// A board on which nothing is published, and its last writer's seat.
fn board_and_seat(alloc: Global, cluster: &ClusterSeed) -> Result<(Board, WriterSeat), Fail>
    ensures { IfOk result (λ r. r.1.board ≡ r.0) }
{
    let (board, seats, _) = Board::new(alloc, &cluster.config, 0)?;
    let seat = last_seat(&board, seats)?;
    Ok((board, seat))
}

/// The last of the cluster's replicas, with `a=1` in its pool.
fn last_state<R: RandomSource>(
    rt: &R,
    alloc: Global,
    cluster: &ClusterSeed,
) -> Result<State<AnyKind>, Fail> {
    let mut states = replicas(rt, alloc, cluster)?;
    match states.pop() {
        Some(state) => Ok(state),
        None => Err(Fail::from("four replicas are there")),
    }
}

/// The replica at its seat.
fn take_seat(state: State<AnyKind>, board: Board, seat: WriterSeat) -> Result<Seated, Fail>
    requires { seat.board ≡ board }
{
    if state.id() == seat.replica() {
        Ok(Seated { state, board, seat })
    } else {
        Err(Fail::from("the seat is of another replica"))
    }
}

/// The last of four replicas, with `a=1` in its pool, and a board on which nothing is published.
pub(crate) fn last_of_four<R: RandomSource>(rt: &R, alloc: Global) -> Result<Seated, Fail> {
    let cluster = four()?;
    let (board, seat) = board_and_seat(alloc, &cluster)?;
    let state = last_state(rt, alloc, &cluster)?;
    take_seat(state, board, seat)
}

impl Seated {
    ghost use Rattle.std.specs.Prelude.{◌≡◌, Some, slice_get, option_map, IfOk};
    ghost use Rattle.ledger_model.specs.declared.history.Entry.{Entry};
    ghost use Rattle.ledger_model.specs.declared.event.Event.TheVariants as event;

    pub(crate) fn state(&self) -> &State<AnyKind> {
        &self.state
    }

    /// Its height on the board.
    pub(crate) fn published(&mut self) -> u32 {
        self.board.own(&mut self.seat)
    }

    /// A turn of the replica.
    pub(crate) fn turn(&mut self, events: Vec<Event>) -> Result<usize, ApplyFault> {
        turn(&mut self.state, events, &self.board, &mut self.seat)
    }

    /// A turn in which a transaction is submitted. Returns the index of the new entry.
    pub(crate) fn submit(&mut self, alloc: Global, bytes: Bytes) -> Result<usize, Fail>
        ensures { IfOk result (λ index. option_map (λ (e : Entry). e.event) (slice_get self.new.state.entries index) ≡ Some (event.Submit bytes)) }
    {
        let events = vec![in alloc; Event::Submit(bytes)]?;
        Ok(turn(&mut self.state, events, &self.board, &mut self.seat)?)
    }
}
