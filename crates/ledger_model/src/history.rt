//! The history of a replica: each event that it took, with its reply.
use crate::{Event, ReplicaId, Reply};
use std::marker::Model;

/// An event and the reply to it.
#[derive(Drop)]
pub struct Entry {
    pub event: Event,
    pub reply: Reply,
}

/// The entries of a history, oldest first.
#[derive(Drop)]
pub struct Entries {
    entries: Vec<Entry>,
}

impl Model for Entries {
    ghost use Rattle.std.specs.Prelude.{List};
    ghost use Rattle.ledger_model.specs.declared.history.Entry.{Entry};

    ghost Value = { List Entry };

    ghost view = { λ e. e.entries.items };
}

/// A replica and its history.
#[derive(Drop)]
pub struct History {
    pub replica: ReplicaId,
    pub entries: Entries,
}

impl Entries {
    ghost use Rattle.std.specs.Prelude.{◌≡◌};

    /// The most entries of a replica's own history.
    pub const MAX_LEN: usize = 65_536;

    /// The history with these entries, oldest first.
    pub fn new(entries: Vec<Entry>) -> Self
        ensures { result ≡ entries.items }
    {
        Entries { entries }
    }

    /// The entries, oldest first.
    pub fn as_slice(&self) -> &[Entry]
        ensures { result.now ≡ self.now }
    {
        self.entries.as_slice()
    }
}
