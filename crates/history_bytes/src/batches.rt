//! Takes a batch.
ghost use Rattle.std.specs.Prelude.{◌≡◌, IfOk, vec_len};
ghost use Rattle.ledger_model.specs.Reading.{tx_at, txs_at, value_at};
ghost use Rattle.statements.specs.Reads.{IsReadFrom, ReadsAs};

use crate::input::Input;
use ledger_model::{Batch, Tx, Version};
use statements::DecodeFault;
use std::alloc::Global;

#[tactic(auto, unfolding(ledger_model::specs::Reading::tx_at))]
fn take_tx(alloc: Global, input: &mut Input) -> Result<Tx, DecodeFault>
    ensures { IsReadFrom result input.new (tx_at input.old) }
{
    let len = input.take_byte()?;
    let bytes = input.take_slice(usize::from(len))?;
    Ok(Tx::new(Vec::from_slice(alloc, bytes)?)?)
}

fn take_txs(alloc: Global, input: &mut Input, count: u8) -> Result<Vec<Tx>, DecodeFault>
    ensures read { ReadsAs (λ txs. txs.items) result input.new (txs_at count input.old) }
    ensures all { IfOk result (λ txs. vec_len txs ≡ count) }
{
    let mut txs = Vec::new(alloc);
    for _ in 0..count {
        let tx = take_tx(alloc, input)?;
        txs.push(tx)?;
    }
    Ok(txs)
}

/// A batch in a cluster with frames of this version: the number of its transactions, at most 16 or 64, and each after its length.
#[tactic(auto, unfolding(ledger_model::specs::Reading::value_at))]
pub(crate) fn take_batch(
    version: Version,
    alloc: Global,
    input: &mut Input,
) -> Result<Batch, DecodeFault>
    ensures { IsReadFrom result input.new (value_at version input.old) }
{
    let count = input.take_byte()?;
    if usize::from(count) > version.batch_limit() {
        return Err(DecodeFault::Malformed);
    }
    let txs = take_txs(alloc, input, count)?;
    Ok(Batch::new(txs)?)
}
