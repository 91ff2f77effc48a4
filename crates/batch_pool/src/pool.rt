//! The pool: the transactions that wait for a block, in order of arrival.
ghost use Rattle.std.specs.Prelude.{◌≡◌, ◌<◌, ◌≤◌, ◌==◌, false, not, [], ◌∷◌, ◌++◌, length, take, IfOk, OnOk, IfSome, is_ok, if◌then◌else◌};
ghost use Rattle.std.specs.Map.Iter.{ShowsInOrder, deref};
ghost use Rattle.ledger_model.specs.declared.batch.Tx.{Tx as TxValue};
ghost use Rattle.ledger_model.specs.Limits.{max_tx_len, max_pool_len};
ghost use Rattle.ledger_model.specs.Versions.{batch_limit};
ghost use Rattle.ledger_model.specs.Values.{IsValueIn};
ghost use Rattle.ledger_model.specs.Pools.{is_among, first_fault, own_refusals};
ghost use Rattle.batch_pool.specs.Distinct.{NoneTwice};
ghost use Rattle.batch_pool.specs.Pools.{AnswersSubmission, LeavesWaiting, StaysBy, answer_of, pool_part};

use crate::SubmitFault;
use abci::{Application, CheckKind};
use indexmap::IndexMap;
use indexmap::map::Values;
use ledger_model::{Batch, SubmitRefusal, Tx, Version};
use std::alloc::{AllocError, Global};
use std::hash::RandomState;
use std::marker::Model;

/// The transactions that wait for a block, in order of arrival.
pub struct Pool {
    /// Each transaction, with its bytes as the key, so that looking it up allocates nothing.
    waiting: IndexMap<Vec<u8>, Tx, RandomState>,
}

// An own `Drop` keeps proofs short: an owner drops it by one call. See docs/WORKING.md.
impl Drop for Pool {
    fn drop(self) {
        let Pool { waiting: _waiting } = self;
    }
}

impl Model for Pool {
    ghost use Rattle.std.specs.Prelude.{◌≤◌, ℕ, List, length};

    ghost Value = { List (List ℕ) };

    ghost use Rattle.indexmap.specs.IndexMap.{values};
    ghost use Rattle.ledger_model.specs.Limits.{max_pool_len};
    ghost use Rattle.batch_pool.specs.Keyed.{AreKeyed};

    ghost view = { λ p. values p.waiting };

    ghost invariant = { λ p. (length p.waiting.entries ≤ max_pool_len) × AreKeyed p.waiting.entries };
}

impl Pool {
    /// An empty pool, which allocates nothing yet. It hashes with these random keys.
    pub fn new(alloc: Global, random: RandomState) -> Self
        ensures { result ≡ [] }
    {
        Pool {
            waiting: IndexMap::with_hasher(alloc, random),
        }
    }

    /// The number of waiting transactions: at most 1024, all different.
    pub fn len(&self) -> usize
        ensures len { result ≡ length self.now }
        ensures bounded { length self.now ≤ max_pool_len }
        ensures distinct { NoneTwice self.now }
    {
        self.waiting.len()
    }

    /// Whether no transaction waits.
    pub fn is_empty(&self) -> bool
        ensures { result ≡ (length self.now == 0) }
    {
        self.waiting.is_empty()
    }

    /// The transactions, in order of arrival.
    pub fn transactions(&self) -> Values<'_, Vec<u8>, Tx>
        ensures all { result ≡ self.now }
        ensures in_order { ShowsInOrder (deref {X = TxValue}) }
    {
        self.waiting.values()
    }

    /// Takes in a transaction, as the last one.
    ///
    /// The refusals are tested in the order of `SubmitRefusal`; `Rejected` has the code of CheckTx. The pool's own refusals
    /// don't depend on memory, and `NoMemory` comes only if none of them applies. After a fault the pool is unchanged.
    pub fn submit<A: Application>(&mut self, bytes: &[u8], app: &A) -> Result<(), SubmitFault>
        ensures own { pool_part result ≡ first_fault (own_refusals self.old bytes.now) tt }
        ensures answer { IfSome (answer_of result) (AnswersSubmission A.meaning (A.machine app.now) self.old bytes.now) }
        ensures pool { self.new ≡ (if is_ok result then self.old ++ bytes.now ∷ [] else self.old) }
    {
        if let Err(refusal) = self.own_refusal(bytes) {
            return Err(SubmitFault::Refused(refusal));
        }
        let alloc = *self.waiting.allocator();
        let tx = transaction(alloc, bytes)?;
        let code = app.check_tx(&tx, CheckKind::New);
        if code != 0 {
            return Err(SubmitFault::Refused(SubmitRefusal::Rejected(code)));
        }
        let key = Vec::from_slice(alloc, bytes)?;
        match self.waiting.insert(key, tx) {
            Ok(_) => Ok(()),
            Err(_) => Err(SubmitFault::NoMemory),
        }
    }

    /// The first of the pool's own refusals that applies to the bytes. Allocates nothing.
    fn own_refusal(&self, bytes: &[u8]) -> Result<(), SubmitRefusal>
        ensures first { result ≡ first_fault (own_refusals self.now bytes.now) tt }
        ensures some { OnOk result (1 ≤ length bytes.now) }
        ensures short { OnOk result (length bytes.now ≤ max_tx_len) }
        ensures fresh { OnOk result (is_among self.now bytes.now ≡ false) }
        ensures room { OnOk result (length self.now < max_pool_len) }
    {
        if bytes.is_empty() {
            return Err(SubmitRefusal::Empty);
        }
        if bytes.len() > Tx::MAX_LEN {
            return Err(SubmitRefusal::TooLong);
        }
        if self.waiting.contains_key(bytes) {
            return Err(SubmitRefusal::Duplicate);
        }
        if self.len() >= Tx::MAX_WAITING {
            return Err(SubmitRefusal::Full);
        }
        Ok(())
    }

    /// The first transactions, as many as a statement of this version can contain, or all if there are fewer. They stay in the
    /// pool. The only error is allocation failure.
    pub fn reap(&self, version: Version) -> Result<Batch, AllocError>
        ensures first { IfOk result (λ batch. batch ≡ take (batch_limit version) self.now) }
        ensures fits { IfOk result (λ batch. IsValueIn version batch) }
    {
        let count = self.len().min(version.batch_limit());
        let mut transactions = Vec::with_capacity(*self.waiting.allocator(), count)?;
        for index in 0..count {
            transactions.push(self.waiting[index].copy()?)?;
        }
        match Batch::new(transactions) {
            Ok(batch) => Ok(batch),
            Err(_) => unreachable!(),
        }
    }

    /// Removes a block's transactions, and then those that the application refuses after it ran the block.
    ///
    /// Allocates nothing.
    pub fn after_block<A: Application>(&mut self, block: &Batch, app: &A)
        ensures { LeavesWaiting A.meaning (A.machine app.now) block.now self.old self.new }
    {
        self.waiting.retain(
            |_key: &Vec<u8>, tx: &mut Tx| -> bool
                ensures { (result ≡ not (is_among block.entry.now tx.old)) × (tx.new ≡ tx.old) }
            { !is_in(block, tx) },
        );
        self.waiting.retain(
            |_key: &Vec<u8>, tx: &mut Tx| -> bool
                ensures { StaysBy A.meaning (A.machine app.entry.now) tx.old result × (tx.new ≡ tx.old) }
            { stays(tx, app) },
        );
    }
}

/// The transaction of these 1 to 64 bytes.
fn transaction(alloc: Global, bytes: &[u8]) -> Result<Tx, AllocError>
    requires some { 1 ≤ length bytes.now }
    requires short { length bytes.now ≤ max_tx_len }
    ensures { IfOk result (λ tx. tx ≡ bytes.now) }
{
    match Tx::new(Vec::from_slice(alloc, bytes)?) {
        Ok(tx) => Ok(tx),
        Err(_) => unreachable!(),
    }
}

/// Whether the transaction is one of the block's.
fn is_in(block: &Batch, tx: &Tx) -> bool
    ensures { result ≡ is_among block.now tx.now }
{
    block.transactions().iter().any(|ran| tx == ran)
}

/// Whether the application still accepts a transaction.
fn stays<A: Application>(tx: &Tx, app: &A) -> bool
    ensures { StaysBy A.meaning (A.machine app.now) tx.now result }
{
    app.check_tx(tx, CheckKind::Recheck) == 0
}
