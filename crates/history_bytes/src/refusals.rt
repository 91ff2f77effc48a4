//! Refusals and causes by their numbers.
ghost use Rattle.std.specs.Prelude.{◌≡◌};
ghost use Rattle.history_bytes.specs.HistoryReading.{propose_refusal_of, retire_refusal_of, cause_of, submit_refusal_of};
ghost use Rattle.statements.specs.Reads.{IsReadFrom, IsReadingOr};

use crate::input::Input;
use ledger_model::{Ignored, ProposeRefusal, RetireRefusal, SubmitRefusal};
use statements::DecodeFault;

/// The reason of this number not to open a height.
#[tactic(auto, unfolding(crate::specs::HistoryReading::propose_refusal_of))]
pub(crate) fn propose_refusal_of(number: u8) -> Result<ProposeRefusal, DecodeFault>
    ensures { IsReadingOr result (propose_refusal_of number) }
{
    match number {
        1 => Ok(ProposeRefusal::TooFar),
        2 => Ok(ProposeRefusal::AlreadyOpen),
        3 => Ok(ProposeRefusal::Closed),
        4 => Ok(ProposeRefusal::Retired),
        _ => Err(DecodeFault::Malformed),
    }
}

/// The reason of this number not to raise the floor.
#[tactic(auto, unfolding(crate::specs::HistoryReading::retire_refusal_of))]
pub(crate) fn retire_refusal_of(number: u8) -> Result<RetireRefusal, DecodeFault>
    ensures { IsReadingOr result (retire_refusal_of number) }
{
    match number {
        1 => Ok(RetireRefusal::NotCommitted),
        2 => Ok(RetireRefusal::NotAbove),
        _ => Err(DecodeFault::Malformed),
    }
}

/// The cause of this number.
#[tactic(auto, unfolding(crate::specs::HistoryReading::cause_of))]
pub(crate) fn cause_of(number: u8) -> Result<Ignored, DecodeFault>
    ensures { IsReadingOr result (cause_of number) }
{
    match number {
        1 => Ok(Ignored::Malformed),
        2 => Ok(Ignored::Signer),
        3 => Ok(Ignored::NoRow),
        4 => Ok(Ignored::WrongRound),
        5 => Ok(Ignored::WrongPhase),
        6 => Ok(Ignored::NotOwner),
        7 => Ok(Ignored::Repeated),
        8 => Ok(Ignored::BadSignature),
        9 => Ok(Ignored::BadProof),
        10 => Ok(Ignored::TableFull),
        11 => Ok(Ignored::NotMine),
        _ => Err(DecodeFault::Malformed),
    }
}

/// Takes the reason of this number to refuse a transaction, with the application's code if it has one.
#[tactic(auto, unfolding(crate::specs::HistoryReading::submit_refusal_of))]
pub(crate) fn take_submit_refusal(
    input: &mut Input,
    number: u8,
) -> Result<SubmitRefusal, DecodeFault>
    ensures { IsReadFrom result input.new (submit_refusal_of number input.old) }
{
    match number {
        1 => Ok(SubmitRefusal::Empty),
        2 => Ok(SubmitRefusal::TooLong),
        3 => Ok(SubmitRefusal::Duplicate),
        4 => Ok(SubmitRefusal::Full),
        5 => Ok(SubmitRefusal::Rejected(input.take_u32()?)),
        _ => Err(DecodeFault::Malformed),
    }
}
