//! Takes entries: an event, and the reply that repeats the event's number.
ghost use Rattle.std.specs.Prelude.{◌≡◌};
ghost use Rattle.history_bytes.specs.HistoryReading.{entry_at, entry_list_of, entry_list_at};
ghost use Rattle.statements.specs.Reads.{IsReadFrom, ReadsAs};

use crate::event_reading::take_event;
use crate::input::Input;
use crate::reply_reading::take_reply;
use ledger_model::{Entries, Entry, Version};
use statements::DecodeFault;
use std::alloc::Global;

#[tactic(auto, unfolding(crate::specs::HistoryReading::entry_at))]
fn take_entry(version: Version, alloc: Global, input: &mut Input) -> Result<Entry, DecodeFault>
    ensures { IsReadFrom result input.new (entry_at version input.old) }
{
    let number = input.take_byte()?;
    let event = take_event(alloc, input, number)?;
    if input.take_byte()? != number {
        return Err(DecodeFault::Malformed);
    }
    let reply = take_reply(version, alloc, input, number)?;
    Ok(Entry { event, reply })
}

fn entries_of(
    version: Version,
    alloc: Global,
    input: &mut Input,
    count: u32,
) -> Result<Vec<Entry>, DecodeFault>
    ensures { ReadsAs (λ entries. entries.items) result input.new (entry_list_of version count input.old) }
{
    let mut entries = Vec::new(alloc);
    for _ in 0..count {
        let entry = take_entry(version, alloc, input)?;
        entries.push(entry)?;
    }
    Ok(entries)
}

/// Takes entries after their number in four bytes.
#[tactic(auto, unfolding(crate::specs::HistoryReading::entry_list_at))]
pub(crate) fn take_entries(
    version: Version,
    alloc: Global,
    input: &mut Input,
) -> Result<Entries, DecodeFault>
    ensures { IsReadFrom result input.new (entry_list_at version input.old) }
{
    let count = input.take_u32()?;
    let entries = entries_of(version, alloc, input, count)?;
    Ok(Entries::new(entries))
}
