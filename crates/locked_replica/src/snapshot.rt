//! A copy of a replica's history, for an audit.
ghost use Rattle.std.specs.Prelude.{◌≡◌, length, IfOk};
ghost use Rattle.std.specs.List.{AllByRecursion};
ghost use Rattle.locked_replica.specs.StoredEntries.{IsWithin, entries_of};

use crate::stored_entry::StoredEntry;
use crate::string_table::StringTable;
use key_ring::KeyRing;
use ledger_model::{Config, Entries, History};
use std::alloc::{AllocError, Global};

/// A copy of a replica's history, with the replica's configuration and the public keys that signatures verify under.
#[derive(Drop)]
pub struct Snapshot {
    pub config: Config,
    pub ring: KeyRing,
    pub history: History,
}

/// The entries, in order. They share the bytes of the table. The only error is allocation failure.
pub(crate) fn copy_entries(
    alloc: Global,
    strings: &StringTable,
    entries: &[StoredEntry],
) -> Result<Entries, AllocError>
    requires { AllByRecursion (IsWithin (length strings.now)) entries.now }
    ensures { IfOk result (λ copied. copied ≡ entries_of strings.now entries.now) }
{
    let mut copies = Vec::with_capacity(alloc, entries.len())?;
    for entry in entries {
        copies.push(entry.entry(strings)?)?;
    }
    Ok(Entries::new(copies))
}
