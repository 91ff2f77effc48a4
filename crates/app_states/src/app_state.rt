//! The state of an application, in which applications differ: what one writes for an application of one's own.
use std::alloc::{AllocError, Global};

/// The state of an application.
///
/// Contracts see the bytes whose SHA-256 is the hash. The contract of each call is in terms of the transactions that led
/// to those bytes.
pub trait AppState: Drop {
    ghost use Rattle.std.specs.Prelude.{◌≡◌, ◌≤◌, ℕ, List, [], length, IfOk, option_map};
    ghost use Rattle.sha2.specs.Sha256.{sha256};
    ghost use Rattle.ledger_model.specs.Meanings.{Meaning};
    ghost use Rattle.ledger_model.specs.Limits.{max_tx_len};
    ghost use Rattle.app_states.specs.AppStates.{DeliversTx, Checks, HoldsUnder};

    // What the application means.
    ghost meaning: { Meaning };

    // The bytes whose SHA-256 is the hash.
    ghost state: { Self → List ℕ };

    /// The state before the first block.
    fn opening(alloc: Global) -> Self
        ensures { state result ≡ meaning.state [] };

    /// A copy of the state.
    fn copy(&self) -> Result<Self, AllocError>
        ensures { IfOk result (λ copy. state copy ≡ state self.now) };

    /// The code of a transaction; a transaction of code 0 changes the state.
    fn deliver(&mut self, alloc: Global, tx: &[u8]) -> Result<u32, AllocError>
        requires { length tx.now ≤ max_tx_len }
        ensures { IfOk result (λ code. DeliversTx meaning (state self.old) tx.now code (state self.new)) };

    /// The code of a transaction that is offered to the pool.
    fn check(&self, tx: &[u8]) -> u32
        ensures { Checks meaning (state self.now) tx.now result };

    /// The value under a key.
    fn held(&self, alloc: Global, key: &[u8]) -> Result<Option<Vec<u8>>, AllocError>
        ensures { IfOk result (λ value. HoldsUnder meaning (state self.now) key.now (option_map (λ v. v.items) value)) };

    /// The SHA-256 of the state's encoding.
    fn hash(&self) -> [u8; 32]
        ensures { result ≡ sha256 (state self.now) };
}
