//! A verifier of signatures that remembers the answers of its last checks.
//!
//! A replica meets most signatures more than once: in a frame, and again in the proofs that other frames cite. A
//! [`Verifier`] hashes each once, and answers from its memory while the check is among the last, 1,024 in a replica.
#![tactic(auto)]

mod checking;
mod signed;
mod verifier;

pub use checking::CheckSignatures;
pub use signed::SignedMessage;
pub use verifier::Verifier;
