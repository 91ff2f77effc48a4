//! One turn: a replica takes events, and then publishes its height.
ghost use Rattle.std.specs.Prelude.{◌≡◌, max, length, IfErr, IfOk, OnOk};
ghost use Rattle.locked_replica.specs.Applying.{AppliesEach, AppliesSome, IsSound};
ghost use Rattle.replica_turns.specs.Turns.{height_in};

use abci::Application;
use commit_board::{Board, WriterSeat};
use ledger_model::{ApplyFault, Event, Height};
use locked_replica::State;

/// Takes the events in order, up to the first that is refused, and returns the previous length of the history.
fn take_all<A: Application>(state: &mut State<A>, events: Vec<Event>) -> Result<usize, ApplyFault>
    ensures index { IfOk result (λ index. index ≡ length state.old.entries) }
    ensures applied { OnOk result (AppliesEach A.meaning state.old events.items state.new) }
    ensures refused { IfErr result (λ why. AppliesSome A.meaning state.old events.items why state.new) }
    ensures sound { IsSound A.meaning state.new }
{
    let index = state.len();
    for event in events {
        state.apply(event)?;
    }
    Ok(index)
}

/// Takes the events in order, up to the first that is refused, and then publishes the replica's committed height.
/// Returns the previous length of the history, which is the index of the first new entry, or why an event was refused.
///
/// `HistoryFull` comes exactly if the history had 65,536 entries at the refused event. After a fault, the events before
/// the refused one were taken; the refused one and those after it were not. A round end that found no memory may have
/// used leaves, unless the replica was mute or was to be.
pub fn turn<A: Application>(
    state: &mut State<A>,
    events: Vec<Event>,
    board: &Board,
    seat: &mut WriterSeat,
) -> Result<usize, ApplyFault>
    requires board { seat.old.board ≡ board.now }
    requires replica { seat.old.replica ≡ state.old.id }
    ensures index { IfOk result (λ index. index ≡ length state.old.entries) }
    ensures applied { OnOk result (AppliesEach A.meaning state.old events.items state.new) }
    ensures refused { IfErr result (λ why. AppliesSome A.meaning state.old events.items why state.new) }
    ensures sound { IsSound A.meaning state.new }
    ensures seat { seat.new ≡ record seat.old { height = max seat.old.height (height_in state.new) } }
{
    let taken = take_all(state, events);
    board.publish(seat, Height::new(state.height()));
    taken
}
