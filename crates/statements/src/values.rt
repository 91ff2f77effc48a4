//! Decodes transactions, batches and lists of batches from the front of a cursor.

ghost use Rattle.std.specs.Prelude.{◌≡◌, IfOk, vec_len};
ghost use Rattle.ledger_model.specs.Reading.{tx_at, txs_at, value_at, values_at, list_at};
ghost use Rattle.statements.specs.Reads.{IsReadFrom, ReadsAs};

use crate::DecodeFault;
use crate::fields::{take_byte, take_slice};
use ledger_model::{Batch, Batches, Tx, Version, are_ascending};
use octets::Cursor;
use std::alloc::Global;

/// The most batches that a report lists.
const MAX_LISTED: u8 = 4;

#[tactic(auto, unfolding(ledger_model::specs::Reading::tx_at))]
fn take_tx(alloc: Global, cursor: &mut Cursor) -> Result<Tx, DecodeFault>
    ensures { IsReadFrom result cursor.new (tx_at cursor.old) }
{
    let len = take_byte(cursor)?;
    let bytes = take_slice(cursor, usize::from(len))?;
    Ok(Tx::new(Vec::from_slice(alloc, bytes)?)?)
}

fn take_txs(alloc: Global, cursor: &mut Cursor, count: u8) -> Result<Vec<Tx>, DecodeFault>
    ensures read { ReadsAs (λ txs. txs.items) result cursor.new (txs_at count cursor.old) }
    ensures all { IfOk result (λ txs. vec_len txs ≡ count) }
{
    let mut txs = Vec::with_capacity(alloc, usize::from(count))?;
    for _ in 0..count {
        let tx = take_tx(alloc, cursor)?;
        txs.push(tx)?;
    }
    Ok(txs)
}

/// A batch in a statement of this version: its number of transactions, at most 16 or 64, and the transactions.
#[tactic(auto, unfolding(ledger_model::specs::Reading::value_at))]
pub fn take_batch(
    alloc: Global,
    cursor: &mut Cursor,
    version: Version,
) -> Result<Batch, DecodeFault>
    ensures { IsReadFrom result cursor.new (value_at version cursor.old) }
{
    let count = take_byte(cursor)?;
    if usize::from(count) > version.batch_limit() {
        return Err(DecodeFault::Malformed);
    }
    let txs = take_txs(alloc, cursor, count)?;
    Ok(Batch::new(txs)?)
}

fn take_batches(
    alloc: Global,
    cursor: &mut Cursor,
    version: Version,
    count: u8,
) -> Result<Vec<Batch>, DecodeFault>
    ensures { ReadsAs (λ batches. batches.items) result cursor.new (values_at version count cursor.old) }
{
    let mut batches = Vec::with_capacity(alloc, usize::from(count))?;
    for _ in 0..count {
        let batch = take_batch(alloc, cursor, version)?;
        batches.push(batch)?;
    }
    Ok(batches)
}

/// A list of batches in a statement of this version: their number, at most 4, and the batches, which ascend.
#[tactic(auto, unfolding(ledger_model::specs::Reading::list_at))]
pub fn take_list(
    alloc: Global,
    cursor: &mut Cursor,
    version: Version,
) -> Result<Batches, DecodeFault>
    ensures { IsReadFrom result cursor.new (list_at version cursor.old) }
{
    let count = take_byte(cursor)?;
    if count > MAX_LISTED {
        return Err(DecodeFault::Malformed);
    }
    let batches = take_batches(alloc, cursor, version, count)?;
    if !are_ascending(&batches) {
        return Err(DecodeFault::Malformed);
    }
    Ok(Batches::new(batches))
}
