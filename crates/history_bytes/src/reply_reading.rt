//! Takes replies, after their number: 0 and the result of a success, or the number of a refusal.
ghost use Rattle.std.specs.Prelude.{◌≡◌};
ghost use Rattle.history_bytes.specs.HistoryReading.{submitted_at, proposed_at, delivered_at, round_ended_at};
ghost use Rattle.history_bytes.specs.HistoryReading.{executed_at, queried_at, retired_at, reply_at};
ghost use Rattle.statements.specs.Reads.{IsReadFrom};

use crate::answers::{take_answer, take_block};
use crate::batches::take_batch;
use crate::input::Input;
use crate::refusals::{cause_of, propose_refusal_of, retire_refusal_of, take_submit_refusal};
use crate::sent_frames::take_ended;
use ledger_model::{
    Batch, BlockResult, Height, Ignored, LastRound, NotHeld, NothingDecided, ProposeRefusal,
    QueryAnswer, Reply, RetireRefusal, RoundEnded, SubmitRefusal, Version,
};
use statements::DecodeFault;
use std::alloc::Global;

#[tactic(auto, unfolding(crate::specs::HistoryReading::submitted_at))]
fn take_submitted(input: &mut Input) -> Result<Result<(), SubmitRefusal>, DecodeFault>
    ensures { IsReadFrom result input.new (submitted_at input.old) }
{
    match input.take_byte()? {
        0 => Ok(Ok(())),
        number => Ok(Err(take_submit_refusal(input, number)?)),
    }
}

#[tactic(auto, unfolding(crate::specs::HistoryReading::proposed_at))]
fn take_proposed(
    version: Version,
    alloc: Global,
    input: &mut Input,
) -> Result<Result<Batch, ProposeRefusal>, DecodeFault>
    ensures { IsReadFrom result input.new (proposed_at version input.old) }
{
    match input.take_byte()? {
        0 => Ok(Ok(take_batch(version, alloc, input)?)),
        number => Ok(Err(propose_refusal_of(number)?)),
    }
}

#[tactic(auto, unfolding(crate::specs::HistoryReading::delivered_at))]
fn take_delivered(input: &mut Input) -> Result<Result<(), Ignored>, DecodeFault>
    ensures { IsReadFrom result input.new (delivered_at input.old) }
{
    match input.take_byte()? {
        0 => Ok(Ok(())),
        number => Ok(Err(cause_of(number)?)),
    }
}

#[tactic(auto, unfolding(crate::specs::HistoryReading::round_ended_at))]
fn take_round_ended(
    version: Version,
    alloc: Global,
    input: &mut Input,
) -> Result<Result<RoundEnded, LastRound>, DecodeFault>
    ensures { IsReadFrom result input.new (round_ended_at version input.old) }
{
    match input.take_byte()? {
        0 => Ok(Ok(take_ended(version, alloc, input)?)),
        1 => Ok(Err(LastRound)),
        _ => Err(DecodeFault::Malformed),
    }
}

#[tactic(auto, unfolding(crate::specs::HistoryReading::executed_at))]
fn take_executed(
    alloc: Global,
    input: &mut Input,
) -> Result<Result<BlockResult, NothingDecided>, DecodeFault>
    ensures { IsReadFrom result input.new (executed_at input.old) }
{
    match input.take_byte()? {
        0 => Ok(Ok(take_block(alloc, input)?)),
        1 => Ok(Err(NothingDecided)),
        _ => Err(DecodeFault::Malformed),
    }
}

#[tactic(auto, unfolding(crate::specs::HistoryReading::queried_at))]
fn take_queried(input: &mut Input) -> Result<Result<QueryAnswer, NotHeld>, DecodeFault>
    ensures { IsReadFrom result input.new (queried_at input.old) }
{
    match input.take_byte()? {
        0 => Ok(Ok(take_answer(input)?)),
        1 => Ok(Err(NotHeld)),
        _ => Err(DecodeFault::Malformed),
    }
}

#[tactic(auto, unfolding(crate::specs::HistoryReading::retired_at))]
fn take_retired(input: &mut Input) -> Result<Result<Height, RetireRefusal>, DecodeFault>
    ensures { IsReadFrom result input.new (retired_at input.old) }
{
    match input.take_byte()? {
        0 => Ok(Ok(Height::new(input.take_u32()?))),
        number => Ok(Err(retire_refusal_of(number)?)),
    }
}

/// Takes the reply to an event of this number, in a cluster with frames of this version, without the number.
#[tactic(auto, unfolding(crate::specs::HistoryReading::reply_at))]
pub(crate) fn take_reply(
    version: Version,
    alloc: Global,
    input: &mut Input,
    number: u8,
) -> Result<Reply, DecodeFault>
    ensures { IsReadFrom result input.new (reply_at version number input.old) }
{
    match number {
        1 => Ok(Reply::Submitted(take_submitted(input)?)),
        2 => Ok(Reply::Proposed(take_proposed(version, alloc, input)?)),
        3 => Ok(Reply::Delivered(take_delivered(input)?)),
        4 => Ok(Reply::RoundEnded(take_round_ended(version, alloc, input)?)),
        5 => Ok(Reply::Executed(take_executed(alloc, input)?)),
        6 => Ok(Reply::Queried(take_queried(input)?)),
        7 => Ok(Reply::Retired(take_retired(input)?)),
        _ => Err(DecodeFault::Malformed),
    }
}
