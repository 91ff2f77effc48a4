//! The replica of `abft deliver`: how it is made, and which events it takes.
ghost use Rattle.std.specs.Prelude.{◌≡◌, ◌≤◌, List, [], ◌∷◌, length, replicate, is_ok, IfOk, IfErr, IsErrOf, MatchResult};
ghost use Rattle.ledger_model.specs.declared.history.Entry.{Entry};
ghost use Rattle.ledger_model.specs.declared.event.Event.TheVariants as event;
ghost use Rattle.program.specs.Lines.{line_bytes};
ghost use Rattle.program.specs.Answering.{AnswersEvents, AnswersSome, TakesNoEvent, fresh, starting};
ghost use Rattle.byte_streams.specs.Faults.{IsMemoryOrAsked};
ghost use Rattle.program.specs.Faults.{FailsAfter};
ghost use Rattle.ledger_model.specs.Limits.{max_history_len};

use crate::line::Line;
use abci::Application;
use app_states::Opening;
use byte_streams::{ProgramFault, new_random_key};
use bytes::Bytes;
use cluster_setup::{DeliverSettings, signer_and_ring};
use ledger_model::{ApplyFault, Event, Height};
use locked_replica::{ReplyView, State};
use std::alloc::Global;
use std::hash::RandomState;
use std::random::RandomSource;

/// The two random keys of a replica.
pub(crate) fn new_keys<S: RandomSource>(source: &S) -> Result<[RandomState; 2], ProgramFault>
    ensures { IfErr result IsMemoryOrAsked }
{
    Ok([new_random_key(source)?, new_random_key(source)?])
}

/// The replica of the settings, with an empty history. The random bytes are the keys of its hashes.
pub(crate) fn new_replica<A: Opening, S: RandomSource>(
    source: &S,
    alloc: Global,
    settings: &DeliverSettings,
) -> Result<State<A>, ProgramFault>
    ensures fresh { IfOk result (λ state. state ≡ fresh A.meaning settings.now) }
    ensures fault { IfErr result IsMemoryOrAsked }
{
    let randoms = new_keys(source)?;
    let config = settings.cluster.config;
    let Ok((signer, ring)) = signer_and_ring(alloc, &settings.cluster, settings.replica) else {
        return Err(ProgramFault::NoMemory);
    };
    let app = A::opening(alloc, config.kind);
    match State::new(alloc, config, settings.replica, signer, ring, app, randoms) {
        Ok(state) => Ok(state),
        Err(_) => Err(ProgramFault::NoMemory),
    }
}

/// Why the program stops if the replica took no event.
fn stopped_by(fault: ApplyFault) -> ProgramFault
    ensures { (entries : List Entry) → (fault ≡ ApplyFault.HistoryFull → max_history_len ≤ length entries) → FailsAfter entries result }
{
    match fault {
        ApplyFault::HistoryFull => ProgramFault::HistoryFull,
        ApplyFault::NoMemory => ProgramFault::NoMemory,
    }
}

/// Whether an event was taken, or why the program stops.
fn taken(outcome: Result<usize, ApplyFault>) -> Result<(), ProgramFault>
    ensures same { is_ok result ≡ is_ok outcome }
    ensures cause { (entries : List Entry) → (IsErrOf outcome ApplyFault.HistoryFull → max_history_len ≤ length entries) → IfErr result (FailsAfter entries) }
{
    match outcome {
        Ok(_) => Ok(()),
        Err(fault) => Err(stopped_by(fault)),
    }
}

/// Submits bytes to the replica.
fn submit<A: Application>(state: &mut State<A>, bytes: Bytes) -> Result<(), ProgramFault>
    ensures answers { MatchResult result
        (λ _. AnswersEvents A.meaning state.old (event.Submit bytes ∷ []) [] state.new)
        (λ _. TakesNoEvent state.old state.new) }
    ensures cause { IfErr result (FailsAfter state.new.entries) }
{
    let outcome = state.apply(Event::Submit(bytes));
    taken(outcome)
}

/// Lets the replica propose a height.
fn propose<A: Application>(state: &mut State<A>, height: Height) -> Result<(), ProgramFault>
    ensures answers { MatchResult result
        (λ _. AnswersEvents A.meaning state.old (event.Propose height ∷ []) [] state.new)
        (λ _. TakesNoEvent state.old state.new) }
    ensures cause { IfErr result (FailsAfter state.new.entries) }
{
    let outcome = state.apply(Event::Propose(height));
    taken(outcome)
}

/// Ends a round.
fn end_round<A: Application>(state: &mut State<A>) -> Result<(), ProgramFault>
    ensures answers { MatchResult result
        (λ _. AnswersEvents A.meaning state.old (event.RoundEnd ∷ []) [] state.new)
        (λ _. TakesNoEvent state.old state.new) }
    ensures cause { IfErr result (FailsAfter state.new.entries) }
{
    let outcome = state.apply(Event::RoundEnd);
    taken(outcome)
}

/// Ends `rounds` rounds.
fn end_rounds<A: Application>(state: &mut State<A>, rounds: u32) -> Result<(), ProgramFault>
    ensures answers { MatchResult result
        (λ _. AnswersEvents A.meaning state.old (replicate rounds event.RoundEnd) [] state.new)
        (λ _. AnswersSome A.meaning state.old (replicate rounds event.RoundEnd) [] state.new) }
    ensures cause { IfErr result (FailsAfter state.new.entries) }
{
    for _ in 0..rounds {
        end_round(state)?;
    }
    Ok(())
}

/// What happens before the first frame is delivered: the value is submitted, the height is proposed, and the rounds end.
pub(crate) fn start<A: Application>(
    alloc: Global,
    settings: &DeliverSettings,
    state: &mut State<A>,
) -> Result<(), ProgramFault>
    ensures answers { MatchResult result
        (λ _. AnswersEvents A.meaning state.old (starting settings.now) [] state.new)
        (λ _. AnswersSome A.meaning state.old (starting settings.now) [] state.new) }
    ensures cause { IfErr result (FailsAfter state.new.entries) }
{
    let Ok(value) = Bytes::copy_from_slice(alloc, settings.value.as_bytes()) else {
        return Err(ProgramFault::NoMemory);
    };
    submit(state, value)?;
    propose(state, settings.height)?;
    end_rounds(state, settings.rounds)
}

/// Delivers bytes to the replica, and returns the line of its reply.
pub(crate) fn answer<A: Application>(
    state: &mut State<A>,
    bytes: Bytes,
) -> Result<Line, ProgramFault>
    ensures answers { MatchResult result
        (λ line. AnswersEvents A.meaning state.old (event.Deliver bytes ∷ []) (line_bytes line) state.new)
        (λ _. TakesNoEvent state.old state.new) }
    ensures cause { IfErr result (FailsAfter state.new.entries) }
{
    let index = match state.apply(Event::Deliver(bytes)) {
        Ok(index) => index,
        Err(fault) => return Err(stopped_by(fault)),
    };
    match state.entry(index).map(|entry| entry.reply()) {
        Some(ReplyView::Delivered(answer)) => Ok(Line::of(answer)),
        _ => unreachable!(),
    }
}
