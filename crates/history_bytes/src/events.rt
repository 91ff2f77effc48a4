//! Appends encoded events.
ghost use Rattle.std.specs.Prelude.{◌≡◌, ◌++◌, length, OnOk};
ghost use Rattle.history_bytes.specs.Histories.{count_in_1, count_in_4, event_bytes};

use crate::counts::{put_count_1, put_count_4};
use ledger_model::Event;
use octets::{put_bytes, put_u8, put_u32};
use std::alloc::AllocError;

/// Appends bytes, preceded by their number in four bytes.
fn put_counted(out: &mut Vec<u8>, bytes: &[u8]) -> Result<(), AllocError>
    ensures { OnOk result (out.new.items ≡ out.old.items ++ count_in_4 (length bytes.now) ++ bytes.now) }
{
    put_count_4(out, bytes.len())?;
    put_bytes(out, bytes)
}

/// Appends bytes, preceded by their number in one byte.
pub(crate) fn put_short(out: &mut Vec<u8>, bytes: &[u8]) -> Result<(), AllocError>
    ensures { OnOk result (out.new.items ≡ out.old.items ++ count_in_1 (length bytes.now) ++ bytes.now) }
{
    put_count_1(out, bytes.len())?;
    put_bytes(out, bytes)
}

/// Appends an event: its number, and its data.
pub(crate) fn put_event(out: &mut Vec<u8>, event: &Event) -> Result<(), AllocError>
    ensures { OnOk result (out.new.items ≡ out.old.items ++ event_bytes event.now) }
{
    match event {
        Event::Submit(tx) => {
            put_u8(out, 1)?;
            put_counted(out, tx)
        }
        Event::Propose(height) => {
            put_u8(out, 2)?;
            put_u32(out, height.number())
        }
        Event::Deliver(bytes) => {
            put_u8(out, 3)?;
            put_counted(out, bytes)
        }
        Event::RoundEnd => put_u8(out, 4),
        Event::Execute => put_u8(out, 5),
        Event::Query(key, height) => {
            put_u8(out, 6)?;
            put_u32(out, height.number())?;
            put_short(out, key.as_bytes())
        }
        Event::Retire(floor) => {
            put_u8(out, 7)?;
            put_u32(out, floor.number())
        }
    }
}
