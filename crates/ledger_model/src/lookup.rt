//! Finds the history of a replica.
ghost use Rattle.std.specs.Prelude.{◌≡◌, is_some};
ghost use Rattle.std.specs.Option.{option_copied};
ghost use Rattle.ledger_model.specs.Groups.{history_of};

use crate::{History, ReplicaId};

/// The history of this replica, if it is one of these: the first, if there are several.
pub fn history_of(histories: &[History], replica: ReplicaId) -> Option<&History>
    ensures { option_copied result ≡ history_of histories.now replica }
{
    histories.iter().find(|history| history.replica == replica)
}

/// Whether a history of this replica is one of these.
pub fn has_history(histories: &[History], replica: ReplicaId) -> bool
    ensures { result ≡ is_some (history_of histories.now replica) }
{
    history_of(histories, replica).is_some()
}
