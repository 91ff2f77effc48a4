//! Transactions, batches of them, and the keys of queries, with their limits.
ghost use Rattle.std.specs.Prelude.{◌≡◌, ◌<◌, ◌≤◌, ◌↔◌, length, IfOk, IsErrOf, vec_len};
ghost use Rattle.std.specs.List.{AllByRecursion};
ghost use Rattle.ledger_model.specs.Limits.{max_tx_len, max_key_len};
ghost use Rattle.ledger_model.specs.Values.{IsTx, IsValue};
ghost use Rattle.ledger_model.specs.Versions.{batch_limit};
ghost use Rattle.ledger_model.specs.declared.version.Version.TheVariants.{Two};

use std::alloc::{AllocError, Global};
use std::marker::Model;
use thiserror::Error;

/// A transaction: 1 to 64 bytes.
#[derive(Debug, Drop)]
pub struct Tx {
    bytes: Vec<u8>,
}

/// Why bytes are no transaction.
#[derive(Clone, Copy, Debug, PartialEq, Eq, Error)]
pub enum TxFault {
    #[error("a transaction has at least one byte")]
    Empty,
    #[error("a transaction has at most 64 bytes")]
    TooLong,
}

impl Model for Tx {
    ghost use Rattle.std.specs.Prelude.{ℕ, List};
    ghost use Rattle.ledger_model.specs.Values.{IsTx};

    ghost Value = { List ℕ };

    ghost view = { λ t. t.bytes.items };

    ghost invariant = { λ t. IsTx t.bytes.items };
}

impl PartialEq for Tx {
    ghost use Rattle.std.specs.Prelude.{nat_eq};
    ghost use Rattle.std.specs.Cmp.Lexicographic.{pointwise};
    ghost use Rattle.std.proofs.Common.{rules};
    ghost use Rattle.std.specs.Cmp.Rules.{comparing};

    ghost eq = { pointwise nat_eq };

    ghost laws = { Prim.search (comparing, rules) };

    fn eq(&self, other: &Tx) -> bool {
        self.as_bytes() == other.as_bytes()
    }
}

impl Tx {
    /// The most bytes of a transaction.
    pub const MAX_LEN: usize = 64;

    /// The most transactions that a pool holds while they wait for a block.
    pub const MAX_WAITING: usize = 1024;

    /// A transaction of these 1 to 64 bytes. `Empty` comes exactly if there is no byte, `TooLong` exactly if there are
    /// more than 64.
    pub fn new(bytes: Vec<u8>) -> Result<Self, TxFault>
        ensures ok { IfOk result (λ tx. tx ≡ bytes.items) }
        ensures spelled { IfOk result (λ tx. IsTx tx) }
        ensures empty { IsErrOf result TxFault.Empty ↔ (vec_len bytes ≡ 0) }
        ensures too_long { IsErrOf result TxFault.TooLong ↔ (max_tx_len < vec_len bytes) }
    {
        if bytes.is_empty() {
            return Err(TxFault::Empty);
        }
        if bytes.len() > Self::MAX_LEN {
            return Err(TxFault::TooLong);
        }
        Ok(Tx { bytes })
    }

    /// Its bytes, 1 to 64.
    pub fn as_bytes(&self) -> &[u8]
        ensures bytes { result.now ≡ self.now }
        ensures some { 1 ≤ length self.now }
        ensures short { length self.now ≤ max_tx_len }
        ensures spelled { IsTx self.now }
    {
        self.bytes.as_slice()
    }

    /// A copy of the transaction. The only error is allocation failure.
    pub fn copy(&self) -> Result<Self, AllocError>
        ensures same { IfOk result (λ tx. tx ≡ self.now) }
        ensures spelled { IfOk result (λ tx. IsTx tx) }
    {
        Ok(Tx {
            bytes: self.bytes.clone()?,
        })
    }
}

/// What replicas agree on at a height: 0 to 64 transactions, in order. A statement of version 1 has at most 16.
#[derive(Debug, Drop)]
pub struct Batch {
    transactions: Vec<Tx>,
}

/// Why transactions are no batch.
#[derive(Clone, Copy, Debug, PartialEq, Eq, Error)]
pub enum BatchFault {
    #[error("a batch has at most 64 transactions")]
    TooMany,
}

impl Model for Batch {
    ghost use Rattle.std.specs.Prelude.{ℕ, List};
    ghost use Rattle.ledger_model.specs.Values.{IsValue};

    ghost Value = { List (List ℕ) };

    ghost view = { λ b. b.transactions.items };

    ghost invariant = { λ b. IsValue b.transactions.items };
}

impl PartialEq for Batch {
    ghost use Rattle.std.proofs.Common.{rules};
    ghost use Rattle.std.specs.Cmp.Rules.{comparing};
    ghost use Rattle.ledger_model.specs.Values.{same_value};

    ghost eq = { same_value };

    ghost laws = { Prim.search (comparing, rules) };

    fn eq(&self, other: &Batch) -> bool {
        self.transactions() == other.transactions()
    }
}

impl Batch {
    /// The most transactions of a batch.
    pub const MAX_LEN: usize = 64;

    /// A batch of these transactions, in this order. `TooMany` comes exactly if there are more than 64.
    pub fn new(transactions: Vec<Tx>) -> Result<Self, BatchFault>
        ensures ok { IfOk result (λ batch. batch ≡ transactions.items) }
        ensures spelled { IfOk result (λ batch. IsValue batch) }
        ensures too_many { IsErrOf result BatchFault.TooMany ↔ (batch_limit Two < vec_len transactions) }
    {
        if transactions.len() > Self::MAX_LEN {
            return Err(BatchFault::TooMany);
        }
        show_spelled(&transactions);
        Ok(Batch { transactions })
    }

    /// Its transactions, in order, at most 64.
    pub fn transactions(&self) -> &[Tx]
        ensures transactions { result.now ≡ self.now }
        ensures few { length self.now ≤ batch_limit Two }
        ensures spelled { IsValue self.now }
    {
        self.transactions.as_slice()
    }

    /// A copy of the batch. The only error is allocation failure.
    pub fn copy(&self) -> Result<Self, AllocError>
        ensures same { IfOk result (λ batch. batch ≡ self.now) }
        ensures spelled { IfOk result (λ batch. IsValue batch) }
    {
        let alloc = *self.transactions.allocator();
        let transactions = copy_all(alloc, self.transactions.as_slice())?;
        Ok(Batch { transactions })
    }
}

/// Shows that each transaction has 1 to 64 bytes, which is an invariant of its type. At run time it visits each
/// transaction and reads no byte.
fn show_spelled(transactions: &[Tx])
    ensures { AllByRecursion IsTx transactions.now }
{
    for transaction in transactions {
        let _ = transaction.as_bytes();
    }
}

fn copy_all(alloc: Global, transactions: &[Tx]) -> Result<Vec<Tx>, AllocError>
    ensures { IfOk result (λ v. v.items ≡ transactions.now) }
{
    let mut copied = Vec::with_capacity(alloc, transactions.len())?;
    for transaction in transactions {
        copied.push(transaction.copy()?)?;
    }
    Ok(copied)
}

/// The key of a query to an application: 0 to 64 bytes.
#[derive(Debug, Drop)]
pub struct Key {
    name: Vec<u8>,
}

/// Why bytes are no key.
#[derive(Clone, Copy, Debug, PartialEq, Eq, Error)]
pub enum KeyFault {
    #[error("a key has at most 64 bytes")]
    TooLong,
}

impl Model for Key {
    ghost use Rattle.std.specs.Prelude.{◌≤◌, ℕ, List, length};
    ghost use Rattle.ledger_model.specs.Limits.{max_key_len};

    ghost Value = { List ℕ };

    ghost view = { λ k. k.name.items };

    ghost invariant = { λ k. length k.name.items ≤ max_key_len };
}

impl Key {
    /// The most bytes of a key.
    pub const MAX_LEN: usize = 64;

    /// A key of these bytes. `TooLong` comes exactly if there are more than 64.
    pub fn new(bytes: Vec<u8>) -> Result<Self, KeyFault>
        ensures ok { IfOk result (λ key. key ≡ bytes.items) }
        ensures too_long { IsErrOf result KeyFault.TooLong ↔ (max_key_len < vec_len bytes) }
    {
        if bytes.len() > Self::MAX_LEN {
            return Err(KeyFault::TooLong);
        }
        Ok(Key { name: bytes })
    }

    /// Its bytes.
    pub fn as_bytes(&self) -> &[u8]
        ensures { result.now ≡ self.now }
    {
        self.name.as_slice()
    }

    /// A copy of the key. The only error is allocation failure.
    pub fn copy(&self) -> Result<Self, AllocError>
        ensures { IfOk result (λ key. key ≡ self.now) }
    {
        Ok(Key {
            name: self.name.clone()?,
        })
    }
}
