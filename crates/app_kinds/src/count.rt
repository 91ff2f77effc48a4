//! The state of a counter: the number of accepted transactions.
ghost use Rattle.std.specs.Prelude.{◌≡◌, ◌+◌, ◌^◌, ◌<◌, ◌≤◌, ℕ, List, length, OnOk, IfErr};
ghost use Rattle.ledger_model.specs.Applications.{code_after};
ghost use Rattle.ledger_model.specs.Kinds.{meaning_of, number_in};
ghost use Rattle.ledger_model.specs.declared.config.AppKind.TheVariants as kind;
ghost use Rattle.app_kinds.specs.Codes.{code_of};
ghost use Rattle.sha2.specs.Sha256.{sha256};

use crate::refusal::Refusal;
use app_states::AppState;
use sha2::{Digest, Sha256};
use std::alloc::{AllocError, Global};

/// The most bytes of a number.
const NUMBER_LEN: usize = 8;

/// The first byte of the encoding that is hashed.
const COUNTER: u8 = 2;

/// The number of accepted transactions.
#[derive(Clone, Copy)]
pub struct Count {
    accepted: u64,
}

impl AppState for Count {
    ghost use Rattle.ledger_model.specs.Kinds.{counter, counter_bytes};

    ghost meaning = { counter };

    ghost state = { λ c. counter_bytes c.accepted };

    fn opening(_alloc: Global) -> Self {
        Count { accepted: 0 }
    }

    fn copy(&self) -> Result<Self, AllocError> {
        Ok(*self)
    }

    /// Counts the transaction if it is accepted.
    fn deliver(&mut self, _alloc: Global, tx: &[u8]) -> Result<u32, AllocError> {
        match test_delivery(self.accepted, tx) {
            Ok(()) => {
                self.accepted += 1;
                Ok(0)
            }
            Err(refusal) => Ok(refusal.code()),
        }
    }

    /// A number that is not yet due is kept.
    fn check(&self, tx: &[u8]) -> u32 {
        if tx.len() > NUMBER_LEN {
            return Refusal::Misspelled.code();
        }
        if number_of(tx) < self.accepted {
            return Refusal::OutOfTurn.code();
        }
        0
    }

    /// The count under `count`, in eight bytes.
    fn held(&self, alloc: Global, key: &[u8]) -> Result<Option<Vec<u8>>, AllocError> {
        if key == b"count".as_slice() {
            Ok(Some(Vec::from_slice(alloc, &self.accepted.to_be_bytes())?))
        } else {
            Ok(None)
        }
    }

    /// The encoding is `02 || u64 count`.
    fn hash(&self) -> [u8; 32] {
        let mut hasher = Sha256::new();
        hasher.update([COUNTER]);
        hasher.update(self.accepted.to_be_bytes());
        hasher.finalize()
    }
}

/// Whether a transaction is accepted after `count` others.
#[tactic(auto, unfolding(ledger_model::specs::Kinds::counter))]
fn test_delivery(count: u64, tx: &[u8]) -> Result<(), Refusal>
    ensures room { OnOk result (count + 1 < 2 ^ 64) }
    ensures passes { OnOk result ((done : List (List ℕ)) → length done ≡ count
        → code_after meaning_of kind.Counter done tx.now ≡ 0) }
    ensures refused { IfErr result (λ refusal. (done : List (List ℕ)) → length done ≡ count
        → code_after meaning_of kind.Counter done tx.now ≡ code_of refusal) }
{
    if tx.len() > NUMBER_LEN {
        return Err(Refusal::Misspelled);
    }
    if number_of(tx) != count || count == u64::MAX {
        return Err(Refusal::OutOfTurn);
    }
    Ok(())
}

/// The number that at most eight bytes encode, big-endian.
fn number_of(bytes: &[u8]) -> u64
    requires { length bytes.now ≤ 8 }
    ensures { result ≡ number_in bytes.now }
{
    let mut number = 0;
    for byte in bytes {
        number = number * 256 + u64::from(*byte);
    }
    number
}
