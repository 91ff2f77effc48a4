//! Builds transactions and batches of given bytes.
//!
//! These functions have no `ensures`: facts about their results would make each proof of a test slower. The test compares instead.

use crate::BuildFault;
use ledger_model::{Batch, Tx};
use std::alloc::Global;

/// The transaction of 1 to 64 bytes.
pub fn tx(alloc: Global, bytes: &[u8]) -> Result<Tx, BuildFault> {
    match Tx::new(Vec::from_slice(alloc, bytes)?) {
        Ok(tx) => Ok(tx),
        Err(_) => Err(BuildFault::NoValue),
    }
}

/// The batch of one transaction.
pub fn value(alloc: Global, bytes: &[u8]) -> Result<Batch, BuildFault> {
    let mut transactions = Vec::with_capacity(alloc, 1)?;
    transactions.push(tx(alloc, bytes)?)?;
    match Batch::new(transactions) {
        Ok(batch) => Ok(batch),
        Err(_) => Err(BuildFault::NoValue),
    }
}

/// The batch of some transactions, at most 64.
pub fn batch(alloc: Global, transactions: &[&[u8]]) -> Result<Batch, BuildFault> {
    let mut made = Vec::new(alloc);
    for bytes in transactions {
        made.push(tx(alloc, bytes)?)?;
    }
    match Batch::new(made) {
        Ok(batch) => Ok(batch),
        Err(_) => Err(BuildFault::NoValue),
    }
}

/// The batches of one transaction each.
pub fn values(alloc: Global, transactions: &[&[u8]]) -> Result<Vec<Batch>, BuildFault> {
    let mut made = Vec::new(alloc);
    for bytes in transactions {
        made.push(value(alloc, bytes)?)?;
    }
    Ok(made)
}
