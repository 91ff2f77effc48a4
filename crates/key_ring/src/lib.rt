//! Signers that use each leaf of a tree once, and the public keys of a cluster by replica.
//!
//! A hash-based key pair is safe only while no leaf signs twice (RFC 8554, section 9.2). A [`Signer`] counts a leaf as
//! used before it signs with it, and can't be copied. A [`KeyRing`] has the keys that a replica trusts.
#![tactic(auto)]

mod fault;
pub mod laws;
mod ring;
mod signer;

pub use fault::SignFault;
pub use ring::KeyRing;
pub use signer::Signer;
