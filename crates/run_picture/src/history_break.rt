//! Where a history breaks: its first entry that continues no replay.
ghost use Rattle.std.specs.Prelude.{◌≡◌};
ghost use Rattle.run_picture.specs.Breaks.{break_after};

use ledger_model::ReplicaId;

/// A replica, and the index of the first entry of its history that isn't lawful after the entries before it, or sends something that isn't
/// signed.
#[derive(Clone, Copy)]
pub struct HistoryBreak {
    pub replica: ReplicaId,
    pub entry: usize,
}

/// The first break, once `count` of all entries of the replica's history are shown.
pub(crate) fn break_after(
    first: Option<HistoryBreak>,
    replica: ReplicaId,
    count: usize,
    all: usize,
) -> Option<HistoryBreak>
    ensures { result ≡ break_after first replica count all }
{
    if first.is_none() && count < all {
        Some(HistoryBreak {
            replica,
            entry: count,
        })
    } else {
        first
    }
}
