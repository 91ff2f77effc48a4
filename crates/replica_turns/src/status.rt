//! The status of a replica, for its operator.
use abci::Application;
use locked_replica::{MAX_ENTRIES, State};

/// The status of a replica after a turn.
#[derive(Clone, Copy, Debug, PartialEq, Eq)]
pub struct ReplicaStatus {
    /// Its open round, 0 before the first.
    pub rounds: u32,
    /// The number of blocks that it committed.
    pub height: u32,
    /// The number of entries in its history.
    pub entries: usize,
    /// The number of signatures that its key pair has left.
    pub signatures: u32,
    /// Whether it is mute.
    pub is_mute: bool,
}

impl ReplicaStatus {
    ghost use Rattle.std.specs.Prelude.{◌≡◌, ◌*◌, nat_le};
    ghost use Rattle.ledger_model.specs.Limits.{max_history_len};
    ghost use Rattle.replica_turns.specs.Turns.{IsStatusOf};

    /// The status of this replica.
    pub fn of<A: Application>(state: &State<A>) -> Self
        ensures { IsStatusOf state.now result }
    {
        ReplicaStatus {
            rounds: state.clock(),
            height: state.height(),
            entries: state.len(),
            signatures: state.leaves_left(),
            is_mute: state.is_mute(),
        }
    }

    /// Whether its history is at least nine tenths full.
    pub fn is_nearly_full(&self) -> bool
        ensures { result ≡ nat_le (9 * max_history_len) (10 * self.now.entries) }
    {
        self.entries >= MAX_ENTRIES - MAX_ENTRIES / 10
    }
}
