//! The lines for a reply, given the state of the replica after it.
ghost use Rattle.std.specs.Prelude.{◌≡◌, ◌++◌, OnOk, IfOk, slice_get};
ghost use Rattle.std.specs.Result.{result_map_both};
ghost use Rattle.ledger_model.specs.Commits.{commits_of};
ghost use Rattle.ledger_model.specs.Lawful.{clock_at};
ghost use Rattle.printed_lines.specs.Lines.{with_line_feed, end_text, executed_text, queried_text, undecided, decided_lines, reply_text, entry_text};

use crate::lines::{
    add_decision, add_delivered, add_end, add_executed, add_found, add_last_end, add_not_held,
    add_nothing, add_proposed, add_retired, add_submitted,
};
use crate::text::Text;
use abci::Application;
use ledger_model::{
    BlockResult, Height, LastRound, NotHeld, NothingDecided, QueryAnswer, ReplicaId,
};
use locked_replica::{EntryView, EventView, ReplyView, RoundEndView, State};
use std::alloc::{AllocError, Global};

/// The heights above the committed ones that may be open and aren't decided, ascending.
pub fn undecided_heights<A: Application>(
    alloc: Global,
    state: &State<A>,
) -> Result<Vec<u32>, AllocError>
    ensures { IfOk result (λ heights. heights.items ≡ undecided state.now.config state.now.id state.now.entries) }
{
    let mut heights = Vec::new(alloc);
    let first = state.height() + 1;
    for height in first..first + Height::MAX_AHEAD {
        if state.decided_at(Height::new(height)).is_none() {
            heights.push(height)?;
        }
    }
    Ok(heights)
}

/// Appends a line for each of these heights that is decided now.
fn add_decisions<A: Application>(
    out: &mut Text,
    state: &State<A>,
    undecided: &[u32],
) -> Result<(), AllocError>
    ensures { OnOk result (out.new ≡ out.old ++ decided_lines state.now.config state.now.id undecided.now state.now.entries) }
{
    for height in undecided {
        add_decision(
            out,
            state.id(),
            *height,
            state.decided_at(Height::new(*height)),
        )?;
    }
    Ok(())
}

/// Appends the lines of a round end.
fn add_round_end<A: Application>(
    out: &mut Text,
    state: &State<A>,
    undecided: &[u32],
    answer: Result<RoundEndView<'_>, LastRound>,
) -> Result<(), AllocError>
    ensures { OnOk result (out.new ≡ out.old ++ with_line_feed (end_text state.now.id (clock_at state.now.entries) answer.entry) ++ decided_lines state.now.config state.now.id undecided.now state.now.entries) }
{
    match answer {
        Ok(end) => add_end(out, state.id(), state.clock(), end.len(), end.is_mute())?,
        Err(LastRound) => add_last_end(out, state.id())?,
    }
    add_decisions(out, state, undecided)
}

/// Appends the line of an execution.
fn add_execution<A: Application>(
    out: &mut Text,
    state: &State<A>,
    answer: Result<&BlockResult, NothingDecided>,
) -> Result<(), AllocError>
    ensures { OnOk result (out.new ≡ out.old ++ with_line_feed (executed_text state.now.id (commits_of state.now.config state.now.id state.now.entries) (result_map_both (λ b. b.now) (λ why. why) answer.entry))) }
{
    match answer {
        Ok(block) => add_executed(out, state.id(), state.block(block.height), block),
        Err(NothingDecided) => add_nothing(out, state.id()),
    }
}

/// Appends the line of a query.
fn add_answer(
    out: &mut Text,
    replica: ReplicaId,
    answer: Result<&QueryAnswer, NotHeld>,
) -> Result<(), AllocError>
    ensures { OnOk result (out.new ≡ out.old ++ with_line_feed (queried_text replica (result_map_both (λ a. a.now) (λ why. why) answer.entry))) }
{
    match answer {
        Ok(found) => add_found(out, replica, found),
        Err(NotHeld) => add_not_held(out, replica),
    }
}

/// Appends the lines of an event and its reply.
fn add_reply<A: Application>(
    out: &mut Text,
    state: &State<A>,
    undecided: &[u32],
    entry: &EntryView<'_>,
) -> Result<(), AllocError>
    ensures { OnOk result (out.new ≡ out.old ++ reply_text state.now.config state.now.id undecided.now state.now.entries entry.now.event entry.now.reply) }
{
    let replica = state.id();
    match entry.event() {
        EventView::Submit(_) => match entry.reply() {
            ReplyView::Submitted(answer) => add_submitted(out, replica, answer),
            _ => Ok(()),
        },
        EventView::Propose(height) => match entry.reply() {
            ReplyView::Proposed(answer) => add_proposed(out, replica, height, answer),
            _ => Ok(()),
        },
        EventView::Deliver(_) => match entry.reply() {
            ReplyView::Delivered(answer) => add_delivered(out, replica, answer),
            _ => Ok(()),
        },
        EventView::RoundEnd => match entry.reply() {
            ReplyView::RoundEnded(answer) => add_round_end(out, state, undecided, answer),
            _ => Ok(()),
        },
        EventView::Execute => match entry.reply() {
            ReplyView::Executed(answer) => add_execution(out, state, answer),
            _ => Ok(()),
        },
        EventView::Query(_, _) => match entry.reply() {
            ReplyView::Queried(answer) => add_answer(out, replica, answer),
            _ => Ok(()),
        },
        EventView::Retire(floor) => match entry.reply() {
            ReplyView::Retired(answer) => add_retired(out, replica, floor, answer),
            _ => Ok(()),
        },
    }
}

/// Appends the lines of a replica's entry, given the heights that weren't decided before it.
pub fn add_entry<A: Application>(
    out: &mut Text,
    state: &State<A>,
    undecided: &[u32],
    index: usize,
) -> Result<(), AllocError>
    ensures { OnOk result (out.new ≡ out.old
        ++ entry_text state.now.config state.now.id undecided.now state.now.entries (slice_get state.now.entries index)) }
{
    match state.entry(index) {
        Some(entry) => add_reply(out, state, undecided, &entry),
        None => Ok(()),
    }
}
