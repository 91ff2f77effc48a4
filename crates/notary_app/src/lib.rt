//! A register of documents: the example of an application of one's own.
//!
//! A transaction is the SHA-256 of a document, 32 bytes. The register numbers the documents in the order in which they
//! come, from 0 on, and takes each once. A query of a digest returns its number.
#![tactic(auto)]

pub mod laws;
mod register;

use app_states::StateMachine;
pub use register::Register;

/// The application: a [`Register`] behind ABCI's calls.
pub type Notary = StateMachine<Register>;
