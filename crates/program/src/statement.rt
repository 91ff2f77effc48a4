//! The statement that `abft sign` signs.
ghost use Rattle.std.specs.Prelude.{◌≡◌, ◌≤◌, ◌∷◌, [], length, IfOk};
ghost use Rattle.ledger_model.specs.Limits.{max_tx_len};
ghost use Rattle.ledger_model.specs.Spelling.{IsStatement};
ghost use Rattle.ledger_model.specs.Values.{IsValueIn};
ghost use Rattle.ledger_model.specs.declared.version.Version.{Version};
ghost use Rattle.program.specs.Statements.{said};

use cluster_setup::{SignSettings, What};
use ledger_model::{Ack, Batch, Batches, Report, Statement, Tx};
use std::alloc::{AllocError, Global};

/// The batch of one transaction.
fn batch_of(alloc: Global, bytes: &[u8]) -> Result<Batch, AllocError>
    requires some { 1 ≤ length bytes.now }
    requires short { length bytes.now ≤ max_tx_len }
    ensures batch { IfOk result (λ batch. batch ≡ bytes.now ∷ []) }
    ensures spelled { IfOk result (λ batch. (version : Version) → IsValueIn version batch) }
{
    let mut transactions = Vec::with_capacity(alloc, 1)?;
    match Tx::new(Vec::from_slice(alloc, bytes)?) {
        Ok(tx) => transactions.push(tx)?,
        Err(_) => unreachable!(),
    }
    match Batch::new(transactions) {
        Ok(batch) => Ok(batch),
        Err(_) => unreachable!(),
    }
}

/// The statement that `abft sign` signs: a report of a replica that proposed the batch of one transaction and has read
/// nothing, or an acknowledgement of a lock on that batch.
pub(crate) fn statement(alloc: Global, settings: &SignSettings) -> Result<Statement, AllocError>
    ensures said { IfOk result (λ s. s ≡ said settings.now) }
    ensures spelled { IfOk result (λ s. IsStatement s) }
{
    let initial = batch_of(alloc, settings.value.as_bytes())?;
    let proper = initial.copy()?;
    match settings.what {
        What::Ack => Ok(Statement::Ack(Ack {
            version: settings.cluster.config.frames,
            height: settings.height,
            phase: settings.phase,
            signer: settings.replica,
            value: initial,
        })),
        What::Report => Ok(Statement::Report(Report {
            version: settings.cluster.config.frames,
            height: settings.height,
            phase: settings.phase,
            signer: settings.replica,
            all: false,
            initial,
            proper: Batches::new(vec![in alloc; proper]?),
            locked: Batches::new(Vec::new(alloc)),
        })),
    }
}
