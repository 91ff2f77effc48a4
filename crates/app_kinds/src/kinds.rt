//! The three kinds of applications.
use crate::accounts::Accounts;
use crate::count::Count;
use crate::pairs::Pairs;
use app_states::StateMachine;

/// Values by key (kind 1).
///
/// The key of a transaction is the part before its first `=`, and the value the part after it; without `=`, all of the
/// transaction is both. Every transaction has code 0.
pub type KvStore = StateMachine<Pairs>;

/// The number of accepted transactions (kind 2).
///
/// A transaction of at most eight bytes encodes a number, big-endian. A longer one has code 1. One whose number is not
/// the number of transactions accepted before it has code 2.
pub type Counter = StateMachine<Count>;

/// 256 accounts of 1000 each, and transfers between them (kind 3).
///
/// A transaction is `u8 from || u8 to || u32 amount || u32 nonce`. Its code is the first that applies: 1 if it doesn't
/// have ten bytes; 2 if the nonce is not the number of transfers that the sender sent, or is the last number; 3 if the
/// sender has less than the amount; 4 if sender and receiver are the same.
pub type Purse = StateMachine<Accounts>;
