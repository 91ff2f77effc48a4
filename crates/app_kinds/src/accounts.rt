//! The state of a purse: its accounts.
ghost use Rattle.std.specs.Prelude.{◌≡◌, ℕ, List, [], length, IfOk, IfErr};
ghost use Rattle.sha2.specs.Sha256.{sha256};
ghost use Rattle.ledger_model.specs.declared.config.AppKind.TheVariants as kind;
ghost use Rattle.ledger_model.specs.Applications.{accepted, code_after};
ghost use Rattle.ledger_model.specs.Kinds.{meaning_of, purse_bytes};
ghost use Rattle.abci.specs.Meaning.{state_after};
ghost use Rattle.app_kinds.specs.Codes.{code_of};
ghost use Rattle.app_kinds.specs.Purses.{shown, IsTransferOf, CanMove};

use crate::account::Account;
use crate::refusal::Refusal;
use crate::transfer::Transfer;
use app_states::AppState;
use sha2::{Digest, Sha256};
use std::alloc::{AllocError, Global};
use std::marker::Model;

/// The number of accounts, one for each value of a byte.
const ACCOUNTS: usize = 256;

/// The balance of each account at the opening.
const OPENING_BALANCE: u32 = 1000;

/// The first byte of the encoding that is hashed.
const PURSE: u8 = 3;

/// 256 accounts, whose balances add up to 256,000.
#[derive(Drop)]
pub struct Accounts {
    accounts: [Account; ACCOUNTS],
}

impl Model for Accounts {
    ghost use Rattle.std.specs.Prelude.{◌≡◌, ℕ, List, length};
    ghost use Rattle.app_kinds.specs.Purses.{shown, total_of, FitFourBytes};

    ghost Value = { List (ℕ × ℕ) };

    ghost view = { λ a. shown a.accounts };

    ghost invariant = { λ a. (length a.accounts ≡ 256) × (total_of (shown a.accounts) ≡ 256000) × FitFourBytes (shown a.accounts) };
}

impl Accounts {
    ghost use Rattle.std.specs.Prelude.{◌≢◌, ◌+◌, ◌-◌, ◌<◌, ◌≤◌, ◌^◌, slice_set};
    ghost use Rattle.app_kinds.specs.Purses.{balance_at, nonce_at, FitFourBytes};

    /// The account with this number.
    pub fn account(&self, number: u8) -> Account
        ensures balance { result.balance ≡ balance_at self.now number }
        ensures nonce { result.nonce ≡ nonce_at self.now number }
        ensures count { length self.now ≡ 256 }
        ensures fit { FitFourBytes self.now }
    {
        self.accounts[usize::from(number)]
    }

    /// Moves an amount between two accounts, and counts the transfer at the sender.
    pub fn transfer(&mut self, from: u8, to: u8, amount: u32)
        requires apart { from ≢ to }
        requires covered { amount ≤ balance_at self.old from }
        requires counted { nonce_at self.old from + 1 < 2 ^ 32 }
        ensures moved { self.new ≡ slice_set
            (slice_set self.old from (balance_at self.old from - amount, nonce_at self.old from + 1))
            to (balance_at self.old to + amount, nonce_at self.old to) }
        ensures fit { FitFourBytes self.old }
    {
        let (from, to) = (usize::from(from), usize::from(to));
        let (sender, receiver) = (self.accounts[from], self.accounts[to]);
        self.accounts[from] = Account {
            balance: sender.balance - amount,
            nonce: sender.nonce + 1,
        };
        self.accounts[to] = Account {
            balance: receiver.balance + amount,
            nonce: receiver.nonce,
        };
    }
}

impl AppState for Accounts {
    ghost use Rattle.ledger_model.specs.Kinds.{purse, purse_bytes};

    ghost meaning = { purse };

    ghost state = { purse_bytes };

    /// Each account holds 1000.
    fn opening(_alloc: Global) -> Self {
        let account = Account {
            balance: OPENING_BALANCE,
            nonce: 0,
        };
        Accounts {
            accounts: [account; ACCOUNTS],
        }
    }

    fn copy(&self) -> Result<Self, AllocError> {
        Ok(Accounts {
            accounts: self.accounts,
        })
    }

    /// Moves the amount if the transfer is accepted.
    fn deliver(&mut self, _alloc: Global, tx: &[u8]) -> Result<u32, AllocError> {
        match test_delivery(self, tx) {
            Ok(transfer) => {
                self.transfer(transfer.from, transfer.to, transfer.amount);
                Ok(0)
            }
            Err(refusal) => Ok(refusal.code()),
        }
    }

    /// Code 3 never comes, because the sender may still receive what it lacks.
    fn check(&self, tx: &[u8]) -> u32 {
        let Some(transfer) = Transfer::read(tx) else {
            return Refusal::Misspelled.code();
        };
        if transfer.nonce < self.account(transfer.from).nonce {
            return Refusal::OutOfTurn.code();
        }
        if transfer.from == transfer.to {
            return Refusal::ToItself.code();
        }
        0
    }

    /// The account of a key of one byte: `u32 balance || u32 nonce`.
    fn held(&self, alloc: Global, key: &[u8]) -> Result<Option<Vec<u8>>, AllocError> {
        if key.len() != 1 {
            return Ok(None);
        }
        let bytes = self.account(key[0]).to_bytes();
        Ok(Some(Vec::from_slice(alloc, &bytes)?))
    }

    /// The encoding is `03`, followed by `u32 balance || u32 nonce` for each account.
    fn hash(&self) -> [u8; 32] {
        hash_of(&self.accounts)
    }
}

/// The transfer of a transaction, if it is accepted.
fn test_delivery(accounts: &Accounts, tx: &[u8]) -> Result<Transfer, Refusal>
    ensures transfer { IfOk result (λ transfer. IsTransferOf tx.now transfer) }
    ensures possible { IfOk result (λ transfer. CanMove accounts.now transfer) }
    ensures passes { IfOk result (λ transfer. (txs : List (List ℕ)) → purse_bytes accounts.now ≡ state_after meaning_of kind.Purse txs
        → code_after meaning_of kind.Purse (accepted meaning_of kind.Purse [] txs) tx.now ≡ 0) }
    ensures refused { IfErr result (λ refusal. (txs : List (List ℕ)) → purse_bytes accounts.now ≡ state_after meaning_of kind.Purse txs
        → code_after meaning_of kind.Purse (accepted meaning_of kind.Purse [] txs) tx.now ≡ code_of refusal) }
{
    let Some(transfer) = Transfer::read(tx) else {
        return Err(Refusal::Misspelled);
    };
    let sender = accounts.account(transfer.from);
    if transfer.nonce != sender.nonce || sender.nonce == u32::MAX {
        return Err(Refusal::OutOfTurn);
    }
    if sender.balance < transfer.amount {
        return Err(Refusal::Overdrawn);
    }
    if transfer.from == transfer.to {
        return Err(Refusal::ToItself);
    }
    Ok(transfer)
}

/// The SHA-256 of the encoding of these accounts.
fn hash_of(accounts: &[Account]) -> [u8; 32]
    ensures { result ≡ sha256 (purse_bytes (shown accounts.now)) }
{
    let mut hasher = Sha256::new();
    hasher.update([PURSE]);
    for account in accounts {
        hasher.update(account.balance.to_be_bytes());
        hasher.update(account.nonce.to_be_bytes());
    }
    hasher.finalize()
}
