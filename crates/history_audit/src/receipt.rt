//! Whether a history contains what a receipt says.
ghost use Rattle.std.specs.Prelude.{◌≡◌, Some};
ghost use Rattle.ledger_model.specs.Audits.{is_receipt, is_taken};

use ledger_model::{Entry, Event, History, ReplicaId, Reply, Tx};

/// Whether the entry took the transaction into the pool.
fn is_taken(tx: &Tx, entry: &Entry) -> bool
    ensures { result ≡ is_taken tx.now (Some entry.now) }
{
    match (&entry.event, &entry.reply) {
        (Event::Submit(bytes), Reply::Submitted(Ok(()))) => tx.as_bytes() == bytes.as_slice(),
        _ => false,
    }
}

/// Whether the history is the replica's, and its entry of this index took the transaction into the pool.
pub fn receipt_holds(history: &History, replica: ReplicaId, index: u32, tx: &Tx) -> bool
    ensures { result ≡ is_receipt history.now replica index tx.now }
{
    let Some(entry) = history.entries.as_slice().get(index as usize) else {
        return false;
    };
    history.replica == replica && is_taken(tx, entry)
}
