//! Takes events, after their number.
ghost use Rattle.std.specs.Prelude.{◌≡◌};
ghost use Rattle.history_bytes.specs.HistoryReading.{long_at, short_at, key_at, query_at, event_at};
ghost use Rattle.statements.specs.Reads.{IsReadFrom};

use crate::input::Input;
use bytes::Bytes;
use ledger_model::{Event, Height, Key, KeyFault};
use statements::DecodeFault;
use std::alloc::Global;

/// Takes bytes after their number in four bytes.
#[tactic(auto, unfolding(crate::specs::HistoryReading::long_at))]
fn take_long(input: &mut Input) -> Result<Bytes, DecodeFault>
    ensures { IsReadFrom result input.new (long_at input.old) }
{
    let len = input.take_u32()?;
    input.take_shared(len as usize)
}

/// Takes bytes after their number in one byte.
#[tactic(auto, unfolding(crate::specs::HistoryReading::short_at))]
pub(crate) fn take_short(input: &mut Input) -> Result<Bytes, DecodeFault>
    ensures { IsReadFrom result input.new (short_at input.old) }
{
    let len = input.take_byte()?;
    input.take_shared(usize::from(len))
}

#[tactic(auto, unfolding(crate::specs::HistoryReading::key_at))]
fn take_key(alloc: Global, input: &mut Input) -> Result<Key, DecodeFault>
    ensures { IsReadFrom result input.new (key_at input.old) }
{
    let len = input.take_byte()?;
    let bytes = input.take_slice(usize::from(len))?;
    match Key::new(Vec::from_slice(alloc, bytes)?) {
        Ok(key) => Ok(key),
        Err(KeyFault::TooLong) => Err(DecodeFault::Malformed),
    }
}

#[tactic(auto, unfolding(crate::specs::HistoryReading::query_at))]
fn take_query(alloc: Global, input: &mut Input) -> Result<Event, DecodeFault>
    ensures { IsReadFrom result input.new (query_at input.old) }
{
    let height = input.take_u32()?;
    let key = take_key(alloc, input)?;
    Ok(Event::Query(key, Height::new(height)))
}

/// Takes the event of this number, without the number.
#[tactic(auto, unfolding(crate::specs::HistoryReading::event_at))]
pub(crate) fn take_event(alloc: Global, input: &mut Input, number: u8) -> Result<Event, DecodeFault>
    ensures { IsReadFrom result input.new (event_at number input.old) }
{
    match number {
        1 => Ok(Event::Submit(take_long(input)?)),
        2 => Ok(Event::Propose(Height::new(input.take_u32()?))),
        3 => Ok(Event::Deliver(take_long(input)?)),
        4 => Ok(Event::RoundEnd),
        5 => Ok(Event::Execute),
        6 => take_query(alloc, input),
        7 => Ok(Event::Retire(Height::new(input.take_u32()?))),
        _ => Err(DecodeFault::Malformed),
    }
}
