//! Encodes entries and whole histories.
ghost use Rattle.std.specs.Prelude.{◌≡◌, ◌++◌, IfOk, OnOk};
ghost use Rattle.std.specs.List.{flat_map};
ghost use Rattle.history_bytes.specs.Histories.{entry_bytes, history_bytes};

use crate::counts::put_count_4;
use crate::events::put_event;
use crate::replies::put_reply;
use ledger_model::{Entry, History};
use octets::put_u8;
use std::alloc::{AllocError, Global};

fn put_entry(out: &mut Vec<u8>, entry: &Entry) -> Result<(), AllocError>
    ensures { OnOk result (out.new.items ≡ out.old.items ++ entry_bytes entry.now) }
{
    put_event(out, &entry.event)?;
    put_reply(out, &entry.reply)
}

fn put_entries(out: &mut Vec<u8>, entries: &[Entry]) -> Result<(), AllocError>
    ensures { OnOk result (out.new.items ≡ out.old.items ++ flat_map entry_bytes entries.now) }
{
    for entry in entries {
        put_entry(out, entry)?;
    }
    Ok(())
}

/// The encoding of a history. Encoded histories, one after another, are a file of histories. The only error is allocation failure.
pub fn history_bytes(alloc: Global, history: &History) -> Result<Vec<u8>, AllocError>
    ensures { IfOk result (λ bytes. bytes.items ≡ history_bytes history.now) }
{
    let entries = history.entries.as_slice();
    let mut out = Vec::new(alloc);
    put_u8(&mut out, history.replica.number())?;
    put_count_4(&mut out, entries.len())?;
    put_entries(&mut out, entries)?;
    Ok(out)
}
