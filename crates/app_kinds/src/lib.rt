//! The three applications of the ledger, and wrappers for any application.
//!
//! Each application is a state machine behind ABCI's calls: every call returns what the definitions of `ledger_model`
//! say for the whole list of accepted transactions. [`KvStore`] has values by key, [`Counter`] accepts numbers in
//! order, and [`Purse`] moves amounts between accounts; each is one [`StateMachine`] over a state of its own.
//! [`AnyKind`] is one of them, chosen at run time. [`Counted`] counts the transactions that are delivered to another
//! application, and [`Refusing`] lets a chosen delivery fail with allocation failure.
#![tactic(auto)]

mod account;
mod accounts;
mod any_kind;
mod assignment;
mod count;
mod counted;
mod kinds;
pub mod laws;
mod opening;
mod pairs;
mod refusal;
mod refusing;
mod transfer;

pub use any_kind::AnyKind;
pub use counted::Counted;
pub use kinds::{Counter, KvStore, Purse};
pub use refusing::Refusing;
