//! The state of a store: values by key, in the keys' order.
ghost use Rattle.std.specs.Prelude.{◌≡◌, ◌+◌, ◌≤◌, ℕ, List, [], ◌∷◌, ◌++◌, length};
ghost use Rattle.sha2.specs.Hashers.{Holds256};
ghost use Rattle.sha2.specs.Sha256.{sha256};
ghost use Rattle.ledger_model.specs.Kinds.{store_bytes};
ghost use Rattle.ledger_model.specs.Limits.{max_tx_len};
ghost use Rattle.app_kinds.specs.Sorted.{pair_bytes, FitTransactions};

use crate::assignment::key_and_value;
use app_states::AppState;
use sha2::{Digest, Sha256};
use std::alloc::{AllocError, Global};
use std::collections::BTreeMap;
use std::marker::Model;

/// The first byte of the encoding that is hashed.
const PAIRS: u8 = 1;

/// Values by key. Both are parts of a transaction, so neither is longer than one.
#[derive(Drop)]
pub struct Pairs {
    values: BTreeMap<Vec<u8>, Vec<u8>>,
}

impl Model for Pairs {
    ghost use Rattle.std.specs.Prelude.{List};
    ghost use Rattle.app_kinds.specs.Sorted.{Pair, pair_bytes, FitTransactions};

    ghost Value = { List Pair };

    ghost view = { λ p. pair_bytes p.values.entries };

    ghost invariant = { λ p. FitTransactions (pair_bytes p.values.entries) };
}

impl Pairs {
    ghost use Rattle.std.specs.Prelude.{OnOk, OnErr, option_map};
    ghost use Rattle.std.specs.Ordering.{nat_cmp};
    ghost use Rattle.std.specs.Cmp.Lexicographic.{slice_cmp};
    ghost use Rattle.std.specs.List.Sorted.{IsStrictlySortedBy};
    ghost use Rattle.std.specs.Map.{keys_of, lookup};
    ghost use Rattle.std.specs.BTreeMap.{insert_entry};
    ghost use Rattle.ledger_model.specs.Values.{same_bytes};

    /// Sets the value of a key. After allocation failure the pairs are unchanged.
    pub fn set(&mut self, alloc: Global, key: &[u8], value: &[u8]) -> Result<(), AllocError>
        requires key { length key.now ≤ max_tx_len }
        requires value { length value.now ≤ max_tx_len }
        ensures ok { OnOk result (self.new ≡ insert_entry (slice_cmp nat_cmp) self.old key.now value.now) }
        ensures ordered { OnOk result (IsStrictlySortedBy (slice_cmp nat_cmp) (keys_of self.old)) }
        ensures err { OnErr result (self.new ≡ self.old) }
    {
        let key = Vec::from_slice(alloc, key)?;
        let value = Vec::from_slice(alloc, value)?;
        self.values.insert(key, value)?;
        Ok(())
    }

    /// The value of a key.
    pub fn get(&self, key: &[u8]) -> Option<&Vec<u8>>
        ensures { option_map (λ value. value.now.items) result ≡ lookup (same_bytes key.now) self.now }
    {
        self.values.get(key)
    }
}

impl AppState for Pairs {
    ghost use Rattle.ledger_model.specs.Kinds.{store, store_bytes};

    ghost meaning = { store };

    ghost state = { store_bytes };

    /// No pairs.
    fn opening(alloc: Global) -> Self {
        Pairs {
            values: BTreeMap::new(alloc),
        }
    }

    fn copy(&self) -> Result<Self, AllocError> {
        Ok(Pairs {
            values: self.values.clone()?,
        })
    }

    /// Sets the key of the transaction to its value. The code is 0.
    fn deliver(&mut self, alloc: Global, tx: &[u8]) -> Result<u32, AllocError> {
        let (key, value) = key_and_value(tx);
        self.set(alloc, key, value)?;
        Ok(0)
    }

    /// No store refuses a transaction.
    #[tactic(auto, unfolding(ledger_model::specs::Kinds::store))]
    fn check(&self, _tx: &[u8]) -> u32 {
        0
    }

    fn held(&self, alloc: Global, key: &[u8]) -> Result<Option<Vec<u8>>, AllocError> {
        match self.get(key) {
            Some(value) => Ok(Some(Vec::from_slice(alloc, value.as_slice())?)),
            None => Ok(None),
        }
    }

    /// The encoding is `01 || u64 count`, followed by `u8 length || key || u8 length || value` for each pair.
    fn hash(&self) -> [u8; 32] {
        hash_of(&self.values)
    }
}

/// The SHA-256 of the encoding of these pairs.
fn hash_of(values: &BTreeMap<Vec<u8>, Vec<u8>>) -> [u8; 32]
    requires { FitTransactions (pair_bytes values.now.entries) }
    ensures { result ≡ sha256 (store_bytes (pair_bytes values.now.entries)) }
{
    let mut hasher = Sha256::new();
    hasher.update([PAIRS]);
    hasher.update((values.len() as u64).to_be_bytes());
    for (key, value) in values {
        add_piece(&mut hasher, key.as_slice());
        add_piece(&mut hasher, value.as_slice());
    }
    hasher.finalize()
}

/// Hashes a key or a value, preceded by its length.
fn add_piece(hasher: &mut Sha256, piece: &[u8])
    requires { length piece.now ≤ max_tx_len }
    ensures { (m : List ℕ) → Holds256 hasher.old m → Holds256 hasher.new (m ++ length piece.now ∷ piece.now) }
{
    hasher.update([piece.len() as u8]);
    hasher.update(piece);
}
