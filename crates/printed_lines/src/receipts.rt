//! Whether a receipt holds in one of several histories.
ghost use Rattle.std.specs.Prelude.{◌≡◌};
ghost use Rattle.printed_lines.specs.AuditLines.{has_receipt};

use history_audit::receipt_holds;
use ledger_model::{History, ReplicaId, Tx};

/// Whether one of the histories is the replica's, and its entry of this index took the transaction into the pool.
pub fn has_receipt(histories: &[History], replica: ReplicaId, index: u32, tx: &Tx) -> bool
    ensures { result ≡ has_receipt histories.now replica index tx.now }
{
    histories
        .iter()
        .any(|history| receipt_holds(history, replica, index, tx))
}
